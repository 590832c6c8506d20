//! An upgrade that is done again after a cut.

ghost use Rattle.std.specs.Prelude.{◌≡◌, IfErr};
ghost use Rattle.story_commands.specs.laws.CutRuns.{IsTestFault};
ghost use Rattle.story_commands.specs.declared.sweeping.fault.SweepFault.TheVariants.{Memory};

use crate::sweeping::cutting::Sweep;
use crate::sweeping::fault::SweepFault;
use crate::sweeping::giving::given_at;
use crate::sweeping::judging::agrees;
use crate::sweeping::planning::{TO_QUESTION, have_upgrade, plan_again, plan_upgrade};
use crate::sweeping::running::Runner;
use worker::story::{LifeReport, Opening, PlannedLife};

/// Whether one of these lives is told to upgrade.
fn upgrade_once(lives: &[PlannedLife]) -> bool {
    for life in lives {
        if have_upgrade(life.acts.as_slice()) {
            return true;
        }
    }
    false
}

/// How many answers the swept life and those after it were given up to their first upgrade. The
/// lives are run up to there. Whatever this says, all cuts are compared with it.
fn answers_before(runner: &mut Runner, sweep: &Sweep<'_>) -> Result<u64, SweepFault>
    ensures { IfErr result (λ fault. fault ≡ Memory) }
{
    let lives = plan_upgrade(runner.alloc, sweep.part.earlier, sweep.part.swept)?;
    let run = runner.run(sweep.wasm, sweep.config, lives)?;
    let reports = run.reports.as_slice();
    let given = given_at(reports, reports.len().saturating_sub(1));
    Ok(given.saturating_sub(given_at(sweep.part.told, 0)))
}

/// How many steps a worker has taken when the life at this place has opened it, or 0.
fn steps_at(reports: &[LifeReport], place: usize) -> u64 {
    match reports.get(place) {
        Some(report) => match &report.opened {
            Opening::Recovered { steps, .. } => *steps,
            Opening::Created { .. } | Opening::Unopened => 0,
        },
        None => 0,
    }
}

/// Whether the life at this place has come to a question, or to the end of its worker, before it
/// has upgraded: fewer steps are saved than it may take.
fn has_come(reports: &[LifeReport], place: usize) -> bool {
    let before = steps_at(reports, place);
    let after = steps_at(reports, place.saturating_add(1));
    after.saturating_sub(before) < TO_QUESTION
}

/// Tests that the upgrade can be done again: where the swept life does nothing, the lives after it
/// tell the same lines.
fn test_upgrade(runner: &mut Runner, sweep: &Sweep<'_>) -> Result<(), SweepFault>
    ensures { IfErr result (IsTestFault sweep.now) }
{
    let lives = plan_again(runner.alloc, &sweep.part)?;
    let run = runner.run(sweep.wasm, sweep.config, lives)?;
    let at = sweep.part.earlier.len() + 1;
    let given = given_at(sweep.part.told, 0);
    let reports = run.reports.as_slice();
    if has_come(reports, at) && agrees(runner.alloc, sweep.texts, &[], at, given, reports)? {
        return Ok(());
    }
    Err(SweepFault::Upgrade { run })
}

/// How many answers come before an upgrade that is done again, or 0 where the swept life and those
/// after it have none. An upgrade that can't be done again is a fault.
pub(super) fn find_before(runner: &mut Runner, sweep: &Sweep<'_>) -> Result<u64, SweepFault>
    ensures { IfErr result (IsTestFault sweep.now) }
{
    if !upgrade_once(sweep.part.swept) {
        return Ok(0);
    }
    let before = answers_before(runner, sweep)?;
    let mut found = *sweep;
    found.part.before = before;
    test_upgrade(runner, &found)?;
    Ok(before)
}

//! One cut: its lives are run, and what they told is compared.

ghost use Rattle.std.specs.Prelude.{◌≡◌, IfErr, IfOk, true};
ghost use Rattle.story_commands.specs.declared.sweeping.fault.SweepFault.TheVariants.{Memory};
ghost use Rattle.story_commands.specs.laws.CutRuns.{AgreesBehind, HasRunCut, IsCutFault};
ghost use Rattle.story_commands.specs.laws.CutRuns.{IsStarted, IsSweptAt};

use crate::sweeping::fault::SweepFault;
use crate::sweeping::giving::given_to;
use crate::sweeping::judging::{agrees, front_left, is_stopped};
use crate::sweeping::planning::{SweptPart, plan_cut, plan_rest};
use crate::sweeping::running::{RunLives, Runner};
use record_replay::NumberedLine;
use sector_disk::FaultPoint;
use std::alloc::Global;
use wasi_abi::Config;
use wasm_syntax::ItemList;
use worker::story::{LifeReport, StoryStart};

/// What is swept: lives of a worker, and what was told of them without a cut.
#[derive(Clone, Copy)]
pub(super) struct Sweep<'a> {
    pub(super) wasm: &'a [u8],
    pub(super) config: &'a Config,
    pub(super) part: SweptPart<'a>,
    /// What the lives before the swept one leave.
    pub(super) start: &'a StoryStart,
    /// The texts of all lines that were told.
    pub(super) texts: &'a [NumberedLine],
}

/// Runs the lives of a cut, after which the worker was given so many answers. They go on from what
/// the lives before the swept one leave. So only those from the swept one on are told.
fn run_cut(
    runner: &mut Runner,
    sweep: &Sweep<'_>,
    point: FaultPoint,
    given: u64,
) -> Result<ItemList<LifeReport>, SweepFault>
    requires { IsStarted sweep.now }
    ensures run { IfOk result (HasRunCut sweep.now point given) }
    ensures failed { IfErr result (λ fault. fault ≡ Memory) }
{
    let lives = plan_rest(runner.alloc, &sweep.part, point, given)?;
    runner.run_from(sweep.start, sweep.wasm, sweep.config, lives.as_slice())
}

/// Whether the power was cut in the first of these lives, and all else was as without it.
fn is_same(
    alloc: Global,
    sweep: &Sweep<'_>,
    given: u64,
    reports: &[LifeReport],
) -> Result<bool, SweepFault>
    ensures same { IfOk result (λ is. is ≡ true → AgreesBehind sweep.now given reports.now) }
    ensures failed { IfErr result (λ fault. fault ≡ Memory) }
{
    if !is_stopped(reports, 0) {
        return Ok(false);
    }
    agrees(
        alloc,
        sweep.texts,
        sweep.part.told_before,
        1,
        given,
        reports,
    )
}

/// A cut that was made, and agrees.
#[derive(Clone, Copy)]
pub(super) struct MadeCut {
    /// How many answers the worker was given before it, and kept.
    pub(super) given: u64,
    /// Whether it was made inside of a write, of which a front is left.
    pub(super) in_write: bool,
}

/// All lives of a cut that differs, those before the swept one too.
fn differing(
    alloc: Global,
    sweep: &Sweep<'_>,
    point: FaultPoint,
    given: u64,
    reports: ItemList<LifeReport>,
) -> SweepFault
    requires { HasRunCut sweep.now point given reports }
    ensures { IsCutFault sweep.now point.call result }
{
    match plan_cut(alloc, &sweep.part, point, given) {
        Ok(lives) => SweepFault::Differs {
            run: RunLives { lives, reports },
        },
        Err(_) => SweepFault::Memory,
    }
}

/// Compares what was told of a cut.
fn judge(
    alloc: Global,
    sweep: &Sweep<'_>,
    point: FaultPoint,
    given: u64,
    reports: ItemList<LifeReport>,
) -> Result<MadeCut, SweepFault>
    requires started { IsStarted sweep.now }
    requires run { HasRunCut sweep.now point given reports }
    ensures agrees { IfOk result (λ made. IsSweptAt sweep.now point made.in_write) }
    ensures failed { IfErr result (IsCutFault sweep.now point.call) }
{
    let front = front_left(reports.as_slice(), 0);
    let is_same = is_same(alloc, sweep, given, reports.as_slice())?;
    match front {
        Some(in_write) if is_same => Ok(MadeCut { given, in_write }),
        _ => Err(differing(alloc, sweep, point, given, reports)),
    }
}

/// Runs a cut, and compares it. The worker was given so many answers before the power was cut as
/// are guessed, or the cut is run a second time.
pub(super) fn try_cut(
    runner: &mut Runner,
    sweep: &Sweep<'_>,
    point: FaultPoint,
    guess: u64,
) -> Result<MadeCut, SweepFault>
    requires { IsStarted sweep.now }
    ensures agrees { IfOk result (λ made. IsSweptAt sweep.now point made.in_write) }
    ensures failed { IfErr result (IsCutFault sweep.now point.call) }
{
    let reports = run_cut(runner, sweep, point, guess)?;
    match given_to(reports.as_slice(), 1) {
        Some(given) if given != guess => {
            let again = run_cut(runner, sweep, point, given)?;
            judge(runner.alloc, sweep, point, given, again)
        }
        _ => judge(runner.alloc, sweep, point, guess, reports),
    }
}

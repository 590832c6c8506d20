//! Whether the lives of a script take all answers that it has for them.

ghost use Rattle.std.specs.Prelude.{◌≡◌, ℕ, ◌++◌, ◌∷◌, [], IfErr, IfOk, OnOk};
ghost use Rattle.story_commands.specs.declared.sweeping.fault.SweepFault.TheVariants.{Memory};
ghost use Rattle.story_commands.specs.rules.Sweeps.{TakesAllAnswers, TakesAnswers, and_idle};
ghost use Rattle.story_commands.specs.rules.Sweeps.{checkpointed_life};
ghost use Rattle.story_commands.specs.laws.CutRuns.{IsLeavingFault};

use crate::sweeping::fault::SweepFault;
use crate::sweeping::giving::given_at;
use crate::sweeping::planning::{and_idle, copy_life, copy_lives};
use crate::sweeping::running::Runner;
use std::alloc::{AllocError, Global};
use wasi_abi::Config;
use wasm_syntax::ItemList;
use worker::story::{PlannedAct, PlannedLife};

/// The same life, saved behind all that it is told.
fn checkpointed_life(alloc: Global, life: &PlannedLife) -> Result<PlannedLife, AllocError>
    ensures { IfOk result (λ saved. saved ≡ checkpointed_life life.now) }
{
    let mut saved = copy_life(alloc, life)?;
    saved.acts.push(PlannedAct::Checkpoint)?;
    Ok(saved)
}

/// These lives, one that is saved, and one more that is only opened.
fn plan_saved(
    alloc: Global,
    earlier: &[PlannedLife],
    life: &PlannedLife,
) -> Result<ItemList<PlannedLife>, AllocError>
    ensures { IfOk result (λ lives. lives
        ≡ and_idle (earlier.now ++ checkpointed_life life.now ∷ [])) }
{
    let mut lives = copy_lives(alloc, earlier)?;
    let saved = checkpointed_life(alloc, life)?;
    lives.push(saved)?;
    and_idle(alloc, lives.as_slice())
}

/// How many answers a life takes that comes behind these.
fn answers_taken(
    runner: &mut Runner,
    wasm: &[u8],
    config: &Config,
    earlier: &[PlannedLife],
    life: &PlannedLife,
) -> Result<u64, SweepFault>
    ensures taken { IfOk result (TakesAnswers wasm.now config.now earlier.now life.now) }
    ensures failed { IfErr result (λ fault. fault ≡ Memory) }
{
    let lives = plan_saved(runner.alloc, earlier, life)?;
    let run = runner.run(wasm, config, lives)?;
    let reports = run.reports.as_slice();
    let place = earlier.len();
    Ok(given_at(reports, place + 1).saturating_sub(given_at(reports, place)))
}

/// Tests that each of these lives takes all answers that the script has for it.
pub(super) fn test_taken(
    runner: &mut Runner,
    wasm: &[u8],
    config: &Config,
    lives: &[PlannedLife],
) -> Result<(), SweepFault>
    ensures taken { OnOk result ((at : ℕ) → TakesAllAnswers wasm.now config.now lives.now at) }
    ensures failed { IfErr result (IsLeavingFault wasm.now config.now lives.now) }
{
    let mut place = 0;
    for life in lives {
        let taken = answers_taken(runner, wasm, config, &lives[..place], life)?;
        let all = life.answers.len() as u64;
        if taken < all {
            return Err(SweepFault::AnswersLeft {
                number: place as u64 + 1,
                taken,
                all,
            });
        }
        place += 1;
    }
    Ok(())
}

//! Lives of a sweep are run.

ghost use Rattle.std.specs.Prelude.{◌≡◌, ◌++◌, ◌≤◌, IfErr, IfOk, IfSome, List, length, take};
ghost use Rattle.std.specs.List.{All};
ghost use Rattle.worker.specs.Going.{HaveStarted};
ghost use Rattle.worker.specs.declared.story.life.PlannedLife.{PlannedLife};
ghost use Rattle.worker.specs.declared.story.report.LifeReport.{LifeReport};
ghost use Rattle.worker.specs.rules.StoryDisks.{TellsLives};
ghost use Rattle.story_commands.specs.declared.sweeping.fault.SweepFault.TheVariants.{Memory};
ghost use Rattle.story_commands.specs.rules.Sweeps.{HadMemory};
ghost use Rattle.story_commands.specs.laws.CutRuns.{AreRun};

use crate::sweeping::fault::SweepFault;
use crate::sweeping::starving::are_starved;
use std::alloc::Global;
use wasi_abi::Config;
use wasm_syntax::ItemList;
use worker::story::{
    HaltedStory, LifeReport, PlannedLife, Report, StoryRoom, StoryStart, story_from, story_in,
    story_with_start,
};

/// Lives that were run, and what was told of them.
#[derive(Debug, Drop)]
pub(crate) struct RunLives {
    pub(crate) lives: ItemList<PlannedLife>,
    pub(crate) reports: ItemList<LifeReport>,
}

/// Lives that were run, and what those before a place among them have left.
#[derive(Drop)]
pub(super) struct HaltedRun {
    pub(super) run: RunLives,
    pub(super) start: Option<StoryStart>,
}

/// What was told of lives, if memory was refused to none of them.
fn fed(report: Report) -> Result<ItemList<LifeReport>, SweepFault>
    ensures told { IfOk result (λ reports. reports ≡ report.lives) }
    ensures fed { IfOk result (All HadMemory) }
    ensures failed { IfErr result (λ fault. fault ≡ Memory) }
{
    if are_starved(report.lives.as_slice()) {
        return Err(SweepFault::Memory);
    }
    Ok(report.lives)
}

/// Runs lives, list after list, in memory that it keeps.
#[derive(Drop)]
pub(super) struct Runner {
    pub(super) alloc: Global,
    room: StoryRoom,
}

impl Runner {
    pub(super) fn new(alloc: Global) -> Runner {
        Runner {
            alloc,
            room: StoryRoom::new(),
        }
    }

    /// Runs lives one after another. It fails where memory was refused to one of them, too.
    pub(super) fn run(
        &mut self,
        wasm: &[u8],
        config: &Config,
        lives: ItemList<PlannedLife>,
    ) -> Result<RunLives, SweepFault>
        ensures run { IfOk result (λ run. (run.lives ≡ lives) × AreRun wasm.now config.now run) }
        ensures failed { IfErr result (λ fault. fault ≡ Memory) }
    {
        let report = story_in(self.alloc, &mut self.room, wasm, config, lives.as_slice())?;
        let reports = fed(report)?;
        Ok(RunLives { lives, reports })
    }

    /// The same, and what those before this place leave.
    pub(super) fn run_with_start(
        &mut self,
        wasm: &[u8],
        config: &Config,
        lives: ItemList<PlannedLife>,
        place: usize,
    ) -> Result<HaltedRun, SweepFault>
        requires { place ≤ length lives }
        ensures run { IfOk result (λ halted.
            (halted.run.lives ≡ lives) × AreRun wasm.now config.now halted.run) }
        ensures start { IfOk result (λ halted. IfSome halted.start (HaveStarted wasm.now
            config.now (take place lives) (take place halted.run.reports))) }
        ensures failed { IfErr result (λ fault. fault ≡ Memory) }
    {
        let HaltedStory { report, start } = story_with_start(
            self.alloc,
            &mut self.room,
            wasm,
            config,
            lives.as_slice(),
            place,
        )?;
        let reports = fed(report)?;
        Ok(HaltedRun {
            run: RunLives { lives, reports },
            start,
        })
    }

    /// Runs lives that go on from a start. Only they are told.
    pub(super) fn run_from(
        &mut self,
        start: &StoryStart,
        wasm: &[u8],
        config: &Config,
        lives: &[PlannedLife],
    ) -> Result<ItemList<LifeReport>, SweepFault>
        ensures run { IfOk result (λ reports. (earlier : List PlannedLife)
            (before : List LifeReport) → HaveStarted wasm.now config.now earlier before start.now
            → TellsLives wasm.now config.now (earlier ++ lives.now) (before ++ reports)) }
        ensures fed { IfOk result (All HadMemory) }
        ensures failed { IfErr result (λ fault. fault ≡ Memory) }
    {
        let report = story_from(self.alloc, &mut self.room, start, wasm, config, lives)?;
        fed(report)
    }
}

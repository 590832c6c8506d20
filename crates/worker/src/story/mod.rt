//! Lists of lives of a worker on one disk in memory, with a cut of the power or an error after each
//! (this project's own).
//!
//! # Promises
//!
//! - `story` runs any list of lives, and tells them. Where the bytes spell an accepted module,
//!   there are lives with just these inputs that go on as one that was never stopped (`GoesOn`).
//!   Among the inputs are the call of the disk that fails, and the release that is refused. The
//!   report tells each life (`TellsLives`): how it was opened, with the image and the numbers of
//!   the process then. Its lines are told in order, and then how it ended, with how many calls of
//!   the disk.
//! - A life begins at most `most_calls` calls of its disk before each of its events, and after the
//!   last one (`BeginFewCalls`). No life is told as stopped at a call that it can't have come to.
//! - A life isn't opened, or leaves an act undone, only where its stop came first, or an error with
//!   its cause (`MayEnd` of `worker_store`). Causes are the call of the disk that fails, the line
//!   that is refused, out of memory, an answer that doesn't fit, and a number at its end.
//! - Want of memory inside of a life ends that life. `StoryFault` is told only where memory was
//!   refused to `story` itself.
//! - How a life ended is what ended its calls (`reported_end`). A life is told as finished only
//!   where its stop didn't come, and all its acts were done.
//! - A life without a stop, or whose stop isn't reached, is cut after its last act. One that ends
//!   by another error isn't cut, and the next one finds the same disk (`IsFoundBehind`). The fronts
//!   that a cut keeps are those that are told, in order, of all writes but the front of a stop
//!   (`IsNextDisk`).
//! - All lives are run on one disk, which is empty at first, by the calls of a worker (`AreRunOn`).
//!   `story_with_start` also keeps what those before a place have left. On a copy of that
//!   `story_from` runs other lives behind them.
//! - The disk takes as many writes between two syncs as ever wait for one (`most_unsynced`), and
//!   not one more. A life whose worker left more of them unsynced would end in a fault of the disk.
//! - A recovered life is of the generation after that of the worker that it found on the disk
//!   (`IsNextGeneration`).
//!
//! Nothing is said of a module that isn't accepted. How many calls of the disk a life takes is said
//! up to that bound alone. A stop within the bound may be told that never came.
//!
//! # Definitions to read
//!
//! In `specs/rules/`: `inputs_of` (`Planned.antt`), what is put into each life; `TellsLife`
//! (`Told.antt`), what a report tells of one; `TellsLives` (`StoryDisks.antt`), what it tells of
//! all, and on which disk they were run; `most_calls` (`CallCounts.antt`). The words are those of
//! `worker_store`. What is read off a life is `opened_in` (`specs/laws/OneLife.antt`) and
//! `told_in` of `worker_store`, and `IsCauseOf` says which error is which cause.
//!
//! # Who may touch what
//!
//! A story makes its disk, its sources and its outlets itself, and hands out none. The calls are
//! those of a `Worker`, over the disks of `sector_disk`. Memory is taken for the disk, for what a
//! start keeps of it, for copies of the answers, and for the lines and images that are told. A cut
//! takes none.
//!
//! A story is handed the module's bytes, which a creation writes to the disk, and not a module. One
//! that isn't accepted opens no life, and each life says why.

ghost use Rattle.std.specs.Prelude.{◌≡◌, ◌++◌, ◌<◌, ◌≤◌, ◌^◌, IfOk, IfSome, List, length, take};
ghost use Rattle.record_replay.specs.rules.Lists.{inner_outlet};
ghost use Rattle.worker.specs.rules.Planned.{number_refused};
ghost use Rattle.worker.specs.rules.StoryDisks.{IsEmptyDiskFor, IsRunOn, TellsLives};
ghost use Rattle.disk_layout.specs.rules.Unsynced.{most_unsynced};
ghost use Rattle.worker.specs.Endings.{EndsLife};
ghost use Rattle.worker.specs.Going.{GoOnBehind, HasSize, HaveStarted, LivesOn, AddsReports};
ghost use Rattle.worker.specs.declared.story.life.PlannedLife.{PlannedLife};
ghost use Rattle.worker.specs.declared.story.report.LifeReport.{LifeReport};

mod copying;
mod ending;
mod fault;
mod hearing;
mod life;
mod living;
mod opening;
mod report;
mod starting;

use crate::laws::calls_make_lives;
use crate::story::copying::copy_answers;
use crate::story::ending::{call_count, disk_behind, end_of, has_stopped};
use crate::story::hearing::HeardLines;
use crate::story::living::{LivedOnce, SpelledWorker, live_once};
use disk_layout::Geometry;
pub use fault::StoryFault;
pub use life::{PlannedAct, PlannedLife};
use record_replay::{AnswerList, RefusingOutlet};
pub use report::{LifeEnd, LifeReport, Opening, Report};
use sector_disk::{Disk, DiskFault, FaultDisk, MemDisk};
pub use starting::StoryStart;
use std::alloc::Global;
use wasi_abi::Config;
use wasm_syntax::ItemList;

/// How many heads a disk has.
const HEADS: usize = 2;

/// Lives of a worker of this module, one after another, on a disk that is empty at first.
pub fn story(
    alloc: Global,
    wasm: &[u8],
    config: &Config,
    lives: &[PlannedLife],
) -> Result<Report, StoryFault>
    ensures { IfOk result (λ report. TellsLives wasm.now config.now lives.now report.lives) }
{
    story_in(alloc, &mut StoryRoom::new(), wasm, config, lives)
}

/// Memory for the disk of a story, which the next story can use again.
#[derive(Drop)]
pub struct StoryRoom {
    disk: Option<MemDisk>,
}

impl StoryRoom {
    /// One that has no memory yet.
    pub fn new() -> StoryRoom {
        StoryRoom { disk: None }
    }

    /// A disk of so many sectors, which takes so many writes between two syncs. It is the one that
    /// is here, if that has this size.
    fn take_disk(
        &mut self,
        alloc: Global,
        sectors: u64,
        writes: usize,
    ) -> Result<MemDisk, DiskFault>
        ensures { IfOk result (HasSize sectors writes) }
    {
        match self.disk.take() {
            Some(disk) if disk.sectors() == sectors && disk.write_limit() == writes => Ok(disk),
            _ => MemDisk::new(alloc, sectors, writes),
        }
    }
}

/// The same lives as `story` tells, in memory that other stories have used.
pub fn story_in(
    alloc: Global,
    room: &mut StoryRoom,
    wasm: &[u8],
    config: &Config,
    lives: &[PlannedLife],
) -> Result<Report, StoryFault>
    ensures { IfOk result (λ report. TellsLives wasm.now config.now lives.now report.lives) }
{
    let disk = empty_disk(alloc, room, wasm, config)?;
    let mut told = ItemList::new(alloc);
    let last = live_all(
        alloc,
        SpelledWorker { wasm, config },
        disk,
        lives,
        &mut told,
    )?;
    room.disk = Some(last);
    Ok(Report { lives: told })
}

/// What is told of lives, and what those before a place among them have left.
#[derive(Drop)]
pub struct HaltedStory {
    pub report: Report,
    /// There is none if a write of theirs waits for a sync, as it may after an error.
    pub start: Option<StoryStart>,
}

/// The same lives, and what those before this place leave. From there `story_from` goes on.
pub fn story_with_start(
    alloc: Global,
    room: &mut StoryRoom,
    wasm: &[u8],
    config: &Config,
    lives: &[PlannedLife],
    place: usize,
) -> Result<HaltedStory, StoryFault>
    requires { place ≤ length lives.now }
    ensures told { IfOk result (λ halted. TellsLives wasm.now config.now lives.now
        halted.report.lives) }
    ensures start { IfOk result (λ halted. IfSome halted.start (HaveStarted wasm.now config.now
        (take place lives.now) (take place halted.report.lives))) }
{
    let spelled = SpelledWorker { wasm, config };
    let disk = empty_disk(alloc, room, wasm, config)?;
    let mut told = ItemList::new(alloc);
    let mut left = live_all(alloc, spelled, disk, &lives[..place], &mut told)?;
    let start = StoryStart::of(alloc, &mut left)?;
    let last = live_all(alloc, spelled, left, &lives[place..], &mut told)?;
    room.disk = Some(last);
    Ok(HaltedStory {
        report: Report { lives: told },
        start,
    })
}

/// Lives that go on from a start, which stays as it is. Only they are told.
pub fn story_from(
    alloc: Global,
    room: &mut StoryRoom,
    start: &StoryStart,
    wasm: &[u8],
    config: &Config,
    lives: &[PlannedLife],
) -> Result<Report, StoryFault>
    ensures { IfOk result (λ report. (earlier : List PlannedLife) (before : List LifeReport)
        → HaveStarted wasm.now config.now earlier before start.now
        → TellsLives wasm.now config.now (earlier ++ lives.now) (before ++ report.lives)) }
{
    let used = room.take_disk(alloc, start.sectors.len() as u64, start.writes)?;
    let mut disk = used.into_cut(&[]);
    start.put_on(&mut disk)?;
    let mut told = ItemList::new(alloc);
    let last = live_all(
        alloc,
        SpelledWorker { wasm, config },
        disk,
        lives,
        &mut told,
    )?;
    room.disk = Some(last);
    Ok(Report { lives: told })
}

/// Lives one after another, the first on this disk. What is told of them is put behind a list.
/// Answers the disk that the last one leaves.
fn live_all(
    alloc: Global,
    spelled: SpelledWorker,
    found: MemDisk,
    lives: &[PlannedLife],
    told: &mut ItemList<LifeReport>,
) -> Result<MemDisk, StoryFault>
    ensures gone { IfOk result (λ last. GoOnBehind spelled.entry.wasm.now spelled.entry.config.now
        lives.now found told.old last told.new) }
    ensures more { IfOk result (λ _. AddsReports lives.now told.old told.new) }
{
    let mut disk = found;
    for life in lives {
        let LivedOn { report, disk: last } = live(alloc, spelled, disk, life)?;
        disk = last;
        match told.push(report) {
            Ok(()) => {}
            Err(_) => return Err(StoryFault::Memory),
        }
    }
    Ok(disk)
}

/// A disk of zeros with all sectors of this worker, which takes as many writes between two syncs as
/// ever wait for one.
fn empty_disk(
    alloc: Global,
    room: &mut StoryRoom,
    wasm: &[u8],
    config: &Config,
) -> Result<MemDisk, StoryFault>
    ensures { IfOk result (λ disk. length wasm.now < 2 ^ 32
        → IsEmptyDiskFor wasm.now config.now disk) }
{
    let places = Geometry::of(config, module_len(wasm));
    match room.take_disk(alloc, places.total_sectors(), writes_at_once(&places)) {
        Ok(disk) => Ok(disk.wiped()),
        Err(_) => Err(StoryFault::Memory),
    }
}

/// How many writes of a worker ever wait for a sync.
fn writes_at_once(places: &Geometry) -> usize
    ensures { result ≡ most_unsynced places.now }
{
    places.area_sectors as usize
        + places.module_sectors as usize
        + places.journal_sectors as usize
        + HEADS
}

/// How many bytes the module has. One that has too many for a disk is accepted by nobody.
fn module_len(wasm: &[u8]) -> u32
    ensures { length wasm.now < 2 ^ 32 → result ≡ length wasm.now }
{
    match u32::try_from(wasm.len()) {
        Ok(len) => len,
        Err(_) => 0,
    }
}

/// What is told of a life, and the disk that the next one finds.
#[derive(Drop)]
struct LivedOn {
    report: LifeReport,
    disk: MemDisk,
}

/// One life on this disk, up to its stop, and the cut after it.
fn live(
    alloc: Global,
    spelled: SpelledWorker,
    disk: MemDisk,
    life: &PlannedLife,
) -> Result<LivedOn, StoryFault>
    ensures lives { IfOk result (λ lived. LivesOn spelled.entry.wasm.now spelled.entry.config.now
        life.now disk lived.report lived.disk) }
    ensures run { IfOk result (λ lived. IsRunOn spelled.entry.wasm.now spelled.entry.config.now
        life.now lived.report disk lived.disk) }
{
    let answers = copy_answers(alloc, life.answers.as_slice())?;
    let mut source = AnswerList::new(answers.into_vec());
    let mut outlet = RefusingOutlet::new(HeardLines::new(alloc), number_refused(life.refuse));
    let mut disk = FaultDisk::new(disk, life.stop, life.fail);
    let acts = life.acts.as_slice();
    calls_make_lives::<FaultDisk<MemDisk>, AnswerList, RefusingOutlet<HeardLines>>();
    match live_once(alloc, spelled, &mut disk, acts, &mut source, &mut outlet) {
        Ok(lived) => end_life(lived, disk, outlet, life),
        Err(_) => Err(StoryFault::Memory),
    }
}

/// The number of the release that is refused, or 0.
fn number_refused(refuse: Option<u64>) -> u64
    ensures { result ≡ number_refused refuse }
{
    match refuse {
        Some(number) => number,
        None => 0,
    }
}

/// What is told of a life that was lived, and what it leaves.
fn end_life(
    lived: LivedOnce,
    disk: FaultDisk<MemDisk>,
    outlet: RefusingOutlet<HeardLines>,
    life: &PlannedLife,
) -> Result<LivedOn, StoryFault>
    ensures { IfOk result (λ on. EndsLife lived disk (inner_outlet outlet) life.now on.report
        on.disk) }
{
    let heard = outlet.into_inner();
    if heard.has_refused {
        return Err(StoryFault::Memory);
    }
    let calls = call_count(&disk);
    let has_torn_front = disk.has_torn_front();
    let ended = end_of(has_stopped(life.stop, calls), lived.ended);
    let disk = disk_behind(disk, ended, life.tears.as_slice());
    Ok(LivedOn {
        report: LifeReport {
            opened: lived.opened,
            releases: heard.lines,
            ended,
            calls,
            has_torn_front,
        },
        disk,
    })
}

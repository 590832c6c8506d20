//! How a life ended, and what it leaves to the next one.
//!
//! **How often a disk was called is counted by a `FaultDisk` alone**, whose three counters are
//! there anyway. A function's bound is of any disk, so of one that counts too. Exact numbers would
//! bind each function to its order of calls once more. A bound is enough against a stop that never
//! came.

ghost use Rattle.std.specs.Prelude.{◌≡◌, ◌↔◌, ◌-◌, IsTrue, length, take};
ghost use Rattle.sector_disk.specs.rules.FaultDisk.{call_counts_of, disk_below, torn_front_of};
ghost use Rattle.sector_disk.specs.rules.Memory.{memory_medium, memory_state_of, after_cut};
ghost use Rattle.sector_disk.specs.rules.Trouble.{call_number};
ghost use Rattle.worker_store.specs.restart_theorem.Between.{IsFoundAfterCut};
ghost use Rattle.worker_store.specs.restart_theorem.Courses.{HasStopped};
ghost use Rattle.worker.specs.rules.Planned.{call_at};
ghost use Rattle.worker.specs.rules.StoryDisks.{IsNextDisk, front_count, reported_end};
ghost use Rattle.worker.specs.Endings.{IsFoundBehind};

use crate::RecoverFault;
use crate::story::report::LifeEnd;
use sector_disk::{FaultDisk, FaultPoint, MemDisk};

/// How many reads, writes and syncs were begun.
pub(crate) fn call_count(disk: &FaultDisk<MemDisk>) -> u64
    ensures { result ≡ call_number (call_counts_of disk.now) }
{
    let (reads, writes, syncs) = disk.calls();
    reads.saturating_add(writes).saturating_add(syncs)
}

/// Whether the call of the stop is one of so many.
pub(crate) fn has_stopped(stop: Option<FaultPoint>, calls: u64) -> bool
    ensures { IsTrue result ↔ HasStopped (call_at stop) calls }
{
    match stop {
        Some(stop) => stop.call <= calls,
        None => false,
    }
}

/// How a life ended whose calls ended so.
pub(crate) fn end_of(has_stopped: bool, ended: Result<(), RecoverFault>) -> LifeEnd
    ensures { result ≡ reported_end has_stopped ended }
{
    if has_stopped {
        return LifeEnd::Stopped;
    }
    match ended {
        Ok(()) => LifeEnd::Finished,
        Err(fault) => LifeEnd::Failed(fault),
    }
}

/// What the next life finds: what a cut leaves, or after an error the same disk.
pub(crate) fn disk_behind(disk: FaultDisk<MemDisk>, ended: LifeEnd, tears: &[u16]) -> MemDisk
    ensures behind { IsFoundBehind ended (disk_below disk) result }
    ensures next_disk { IsNextDisk tears.now ended disk result }
    ensures room { (memory_medium result).room ≡ (memory_medium (disk_below disk)).room }
{
    let has_torn_front = disk.has_torn_front();
    let last = disk.into_inner();
    match ended {
        LifeEnd::Failed(_) => last,
        LifeEnd::Finished | LifeEnd::Stopped => cut_by(last, has_torn_front, tears),
    }
}

/// What a cut leaves of the writes since the last good sync. Where the last of them is the front
/// that a stop has left, no number names it.
fn cut_by(disk: MemDisk, has_torn_front: bool, tears: &[u16]) -> MemDisk
    ensures cut { memory_state_of result ≡ after_cut (memory_state_of disk)
        (take (length (memory_state_of disk).pending - front_count has_torn_front) tears.now) }
    ensures found { IsFoundAfterCut (memory_medium disk) (memory_medium result) }
    ensures room { (memory_medium result).room ≡ (memory_medium disk).room }
{
    let earlier = disk
        .unsynced_count()
        .saturating_sub(usize::from(has_torn_front));
    let named = tears.len().min(earlier);
    disk.into_cut(&tears[..named])
}

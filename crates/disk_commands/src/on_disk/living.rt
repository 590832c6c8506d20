//! Slices, batches and checkpoints of a worker that is open on its disk.
//!
//! # Choices
//!
//! - A run is a loop without a counter. Fuel is never 0 by its type, so a slice that has spent its
//!   fuel leaves fewer steps that can be counted.

ghost use Rattle.std.specs.Prelude.{◌≡◌, ◌≢◌, ◌≤◌, ◌<◌, ◌↔◌, IsTrue, IfOk, IfErr, Ok, OnOk};
ghost use Rattle.std.specs.Int.NonZero.{non_zero_u64_get};
ghost use Rattle.disk_layout.specs.rules.Places.{total_sectors};
ghost use Rattle.record_replay.specs.declared.slices.now.Now.TheVariants.{Spent};
ghost use Rattle.worker.specs.rules.LifeWords.{Batch, Slice};
ghost use Rattle.disk_commands.specs.rules.Paces.{act_at};
ghost use Rattle.worker.specs.rules.Scenes.{scene, surroundings};
ghost use Rattle.disk_commands.specs.Livings.{steps_left, HasDoneOnce, HasFailedOnce};
ghost use Rattle.disk_commands.specs.Livings.{IsRested, IsRound, IsBrokenRound, LivesAtPace};

use crate::on_disk::watching::{Asked, Watcher};
use record_replay::{Now, Outlet, Readiness, Source};
use sector_disk::Disk;
use std::num::NonZeroU64;
use worker::{Onlooker, Watched, WorkFault, Worker};

/// How a worker on a disk is driven.
#[derive(Clone, Copy, Debug)]
pub struct Pace {
    /// Steps of a slice.
    pub fuel: NonZeroU64,
    /// Slices between two checkpoints.
    pub every: NonZeroU64,
    /// How many lines one sync may serve: with more than one a slice is a batch.
    pub batch: NonZeroU64,
}

/// Whether a slice has only spent its fuel.
fn is_spent(now: Now) -> bool
    ensures { IsTrue result ↔ now ≡ Spent }
{
    match now {
        Now::Spent => true,
        Now::Waiting | Now::Ended(_) => false,
    }
}

/// One slice. The watcher is told where the worker waits.
fn slice_once<D: Disk, S: Source + Readiness, O: Outlet, T: Watcher>(
    worker: &mut Worker,
    disk: &mut D,
    fuel: u64,
    source: &mut S,
    outlet: &mut O,
    watcher: &T,
) -> Result<Now, WorkFault>
    requires { total_sectors worker.old.store.geometry ≤ (D.medium disk.old).sectors }
    ensures done { IfOk result (λ now. HasDoneOnce D.medium S.gives O.takes (Slice fuel)
        (scene worker.old disk.old source.old outlet.old) now
        (scene worker.new disk.new source.new outlet.new)) }
    ensures failed { IfErr result (λ why. HasFailedOnce D.medium S.gives O.takes (Slice fuel)
        (scene worker.old disk.old source.old outlet.old) why
        (surroundings disk.new source.new outlet.new)) }
{
    match worker.watched_slice(disk, fuel, source, outlet, &Asked(watcher)) {
        Ok(now) => Ok(now),
        Err(fault) => Err(fault),
    }
}

/// One batch. The onlooker is told where the worker asks.
fn batch_once<D: Disk, S: Source + Readiness, O: Outlet, T: Onlooker<S>>(
    worker: &mut Worker,
    disk: &mut D,
    watched: Watched<'_, T>,
    most: u64,
    source: &mut S,
    outlet: &mut O,
) -> Result<Now, WorkFault>
    requires { total_sectors worker.old.store.geometry ≤ (D.medium disk.old).sectors }
    ensures done { IfOk result (λ now. HasDoneOnce D.medium S.gives O.takes
        (Batch watched.entry.fuel most) (scene worker.old disk.old source.old outlet.old) now
        (scene worker.new disk.new source.new outlet.new)) }
    ensures failed { IfErr result (λ why. HasFailedOnce D.medium S.gives O.takes
        (Batch watched.entry.fuel most) (scene worker.old disk.old source.old outlet.old) why
        (surroundings disk.new source.new outlet.new)) }
{
    match worker.watched_batch(disk, watched, most, source, outlet) {
        Ok(now) => Ok(now),
        Err(fault) => Err(fault),
    }
}

/// One slice, or one batch where a sync may serve more than one line.
fn go_once<D: Disk, S: Source + Readiness, O: Outlet, T: Watcher>(
    worker: &mut Worker,
    disk: &mut D,
    pace: Pace,
    source: &mut S,
    outlet: &mut O,
    watcher: &T,
) -> Result<Now, WorkFault>
    requires { total_sectors worker.old.store.geometry ≤ (D.medium disk.old).sectors }
    ensures done { IfOk result (λ now. HasDoneOnce D.medium S.gives O.takes
        (act_at (non_zero_u64_get pace.fuel) (non_zero_u64_get pace.batch))
        (scene worker.old disk.old source.old outlet.old) now
        (scene worker.new disk.new source.new outlet.new)) }
    ensures failed { IfErr result (λ why. HasFailedOnce D.medium S.gives O.takes
        (act_at (non_zero_u64_get pace.fuel) (non_zero_u64_get pace.batch))
        (scene worker.old disk.old source.old outlet.old) why
        (surroundings disk.new source.new outlet.new)) }
    ensures fewer { IfOk result (λ now. now ≡ Spent
        → steps_left worker.new < steps_left worker.old) }
{
    let most = pace.batch.get();
    if most > 1 {
        let watched = Watched {
            fuel: pace.fuel.get(),
            onlooker: &Asked(watcher),
        };
        return batch_once(worker, disk, watched, most, source, outlet);
    }
    slice_once(worker, disk, pace.fuel.get(), source, outlet, watcher)
}

/// Saves a worker after a slice that has answered this, and tells the watcher. No line waits, and
/// none is released.
fn rest_on<D: Disk, O: Outlet, T: Watcher>(
    worker: &mut Worker,
    disk: &mut D,
    now: Now,
    outlet: &mut O,
    watcher: &T,
) -> Result<Now, WorkFault>
    requires { total_sectors worker.old.store.geometry ≤ (D.medium disk.old).sectors }
    ensures rested { IsRested now result worker.old worker.new (D.medium disk.old)
        (D.medium disk.new) }
    ensures room { total_sectors worker.new.store.geometry ≤ (D.medium disk.new).sectors }
    ensures quiet { outlet.new ≡ outlet.old }
    ensures told { OnOk result (IsTrue (T.is_notified watcher.now worker.new now)) }
{
    match worker.checkpoint(disk, outlet) {
        Ok(()) => {
            watcher.tell(worker, now);
            Ok(now)
        }
        Err(fault) => Err(fault),
    }
}

/// Slice after slice, or batch after batch, at most as many as come between two checkpoints, and
/// then a checkpoint, of which the watcher is told. Between two slices it is told that the worker
/// runs on.
fn round<D: Disk, S: Source + Readiness, O: Outlet, T: Watcher>(
    worker: &mut Worker,
    disk: &mut D,
    pace: Pace,
    source: &mut S,
    outlet: &mut O,
    watcher: &T,
) -> Result<Now, WorkFault>
    requires { total_sectors worker.old.store.geometry ≤ (D.medium disk.old).sectors }
    ensures done { IfOk result (λ now. IsRound D.medium S.gives O.takes
        (act_at (non_zero_u64_get pace.fuel) (non_zero_u64_get pace.batch))
        (non_zero_u64_get pace.every)
        (scene worker.old disk.old source.old outlet.old) now
        (scene worker.new disk.new source.new outlet.new)) }
    ensures fewer { IfOk result (λ now. now ≡ Spent
        → steps_left worker.new < steps_left worker.old) }
    ensures failed { IfErr result (λ why. IsBrokenRound D.medium S.gives O.takes
        (act_at (non_zero_u64_get pace.fuel) (non_zero_u64_get pace.batch))
        (non_zero_u64_get pace.every)
        (scene worker.old disk.old source.old outlet.old) why
        (surroundings disk.new source.new outlet.new)) }
    ensures room { IfOk result (λ _.
        total_sectors worker.new.store.geometry ≤ (D.medium disk.new).sectors) }
    ensures told { IfOk result (λ now. IsTrue (T.is_notified watcher.now worker.new now)) }
{
    let every = pace.every.get();
    let mut taken = 0;
    loop {
        taken += 1;
        let now = match go_once(worker, disk, pace, source, outlet, watcher) {
            Ok(now) => now,
            Err(fault) => return Err(fault),
        };
        if taken == every || !is_spent(now) {
            return rest_on(worker, disk, now, outlet, watcher);
        }
        watcher.tell_running(worker);
    }
}

/// Lives on until the worker is over. It comes to that, or fails, since its steps are numbered.
pub(crate) fn live<D: Disk, S: Source + Readiness, O: Outlet, T: Watcher>(
    worker: &mut Worker,
    disk: &mut D,
    pace: Pace,
    source: &mut S,
    outlet: &mut O,
    watcher: &T,
) -> Result<Now, WorkFault>
    requires { total_sectors worker.old.store.geometry ≤ (D.medium disk.old).sectors }
    ensures lives { LivesAtPace D.medium S.gives O.takes
        (act_at (non_zero_u64_get pace.fuel) (non_zero_u64_get pace.batch))
        (non_zero_u64_get pace.every)
        (scene worker.old disk.old source.old outlet.old) result
        (surroundings disk.new source.new outlet.new) }
    ensures over { IfOk result (λ now. now ≢ Spent) }
    ensures told { IfOk result (λ now. IsTrue (T.is_notified watcher.now worker.new now)) }
{
    loop {
        match round(worker, disk, pace, source, outlet, watcher) {
            Ok(Now::Spent) => {}
            Ok(Now::Waiting) => return Ok(Now::Waiting),
            Ok(Now::Ended(how)) => return Ok(Now::Ended(how)),
            Err(fault) => return Err(fault),
        }
    }
}

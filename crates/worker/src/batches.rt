//! Batches of a worker on its disk: slices in which lines may wait, until one barrier serves them
//! all.
//!
//! **A queue of lines serves as an outlet.** A process runs in a batch as in a slice whose lines go
//! to a list. What is held is the end of that list that no outlet has seen yet.

ghost use Rattle.std.specs.Prelude.{◌≡◌, ◌≢◌, ◌≤◌, ◌-◌, [], length, take, true, false};
ghost use Rattle.std.specs.Prelude.{◌+◌, ◌⊎◌, Err, None, IfErr, IfOk, Ok, OnErr, OnOk};
ghost use Rattle.process.specs.rules.Values.{IsProcess, waiting_in};
ghost use Rattle.disk_layout.specs.rules.Places.{total_sectors};
ghost use Rattle.record_replay.specs.rules.Calls.{Releases};
ghost use Rattle.worker_store.specs.restart_theorem.Lives.{Batch};
ghost use Rattle.worker.specs.BatchTurns.{RefusesOne, TellsAll, TellsVainly, FlushesAll};
ghost use Rattle.worker.specs.BatchTurns.{FlushesNot, HasEnded, FailsQueue, HoldsLines};
ghost use Rattle.worker.specs.BatchTurns.{HoldsOrTells, FreesOrTells, TellsRest, WorksInBatch};
ghost use Rattle.worker.specs.BatchTurns.{held_as_begun, holding, AsksHolding, AsksThenFails};
ghost use Rattle.worker.specs.DurableTurns.{asking_scene, telling_scene};
ghost use Rattle.worker.specs.StoreTurns.{LeavesStore, StoreGoes, StoreRuns};
ghost use Rattle.worker.specs.rules.CallCounts.{most_saving};
ghost use Rattle.worker.specs.rules.Scenes.{scene};
ghost use Rattle.record_replay.specs.Turns.{AsksOnce};
ghost use Rattle.sector_disk.specs.rules.Medium.{CallsUpTo};

use crate::durable::Worker;
use crate::fault::WorkFault;
use crate::position::{Onlooker, Unseen, Watched};
use crate::running_worker::RunningWorker;
use disk_layout::longest_record;
use process::Stop;
use record_replay::{
    LineList, Now, NumberedLine, Outlet, OutletFault, Readiness, SliceFault, Source,
    release_waiting,
};
use sector_disk::{Disk, DiskFault};
use std::alloc::Global;
use wasi_abi::Question;

/// Lines that a process has handed over and that aren't told yet, and how many may wait where it
/// asks: fewer than `most`.
#[derive(Drop)]
struct Queue {
    most: u64,
    lines: LineList,
}

impl Queue {
    fn new(alloc: Global, most: u64) -> Self
        ensures most { result.most ≡ most }
        ensures none { result.lines ≡ [] }
    {
        Queue {
            most,
            lines: LineList::new(alloc),
        }
    }

    /// Whether so many more lines may wait.
    fn takes(&self, more: usize) -> bool
        ensures { result ≡ true → more + length self.now.lines ≤ self.now.most - 1 }
    {
        let held = self.lines.lines().len() as u64;
        (more as u64) < self.most.saturating_sub(held)
    }
}

/// Releases these lines, each once and in order.
fn release_held<O: Outlet>(lines: &[NumberedLine], outlet: &mut O) -> Result<(), OutletFault>
    ensures all { OnOk result (Releases O.takes outlet.old (held_as_begun lines.now) outlet.new) }
    ensures some { OnErr result
        (RefusesOne O.takes (held_as_begun lines.now) outlet.old outlet.new) }
{
    for line in lines.iter() {
        let said = outlet.release(line.number, line.stream, line.text.as_slice());
        if said.is_err() {
            return Err(OutletFault);
        }
    }
    Ok(())
}

impl RunningWorker {
    /// Holds the lines that wait, if that many may and the process goes on. Whether it did. Without
    /// memory for them they still wait, and the queue may have some of them at its end.
    fn hold(&mut self, queue: &mut Queue) -> bool
        ensures held { result ≡ true → HoldsLines queue.old.most
            (holding self.old queue.old.lines) (holding self.new queue.new.lines) }
        ensures unheld { result ≡ false → self.new ≡ self.old }
        ensures front { take (length queue.old.lines) queue.new.lines ≡ queue.old.lines }
        ensures most { queue.new.most ≡ queue.old.most }
        ensures store { self.new.store ≡ self.old.store }
    {
        if !self.may_hold(queue) {
            return false;
        }
        release_waiting(&mut self.process, &mut queue.lines).is_ok()
    }

    /// Whether lines wait, the process goes on, and that many more lines may be held.
    fn may_hold(&self, queue: &Queue) -> bool
        ensures some { result ≡ true → waiting_in self.now.process ≢ [] }
        ensures unended { result ≡ true → self.now.process.ended ≡ None }
        ensures few { result ≡ true → length (waiting_in self.now.process)
            + length queue.now.lines ≤ queue.now.most - 1 }
    {
        let waiting = self.process.waiting().len();
        waiting != 0 && self.process.reached_end().is_none() && queue.takes(waiting)
    }

    /// Holds the lines that wait, or tells them, behind all that are held.
    fn hold_or_flush<D: Disk, O: Outlet>(
        &mut self,
        queue: &mut Queue,
        disk: &mut D,
        outlet: &mut O,
    ) -> Result<(), WorkFault>
        requires { total_sectors self.old.store.geometry ≤ (D.medium disk.old).sectors }
        ensures most { queue.new.most ≡ queue.old.most }
        ensures done { OnOk result (HoldsOrTells D.medium O.takes queue.old.most
            (telling_scene (holding self.old queue.old.lines) disk.old outlet.old)
            (telling_scene (holding self.new queue.new.lines) disk.new outlet.new)) }
        ensures fails { IfErr result (λ why. FailsQueue D.medium O.takes
            (telling_scene (holding self.old queue.old.lines) disk.old outlet.old) why
            (telling_scene self.new disk.new outlet.new)) }
        ensures store { LeavesStore result self.old.store self.new.store (D.medium disk.old)
            (D.medium disk.new) }
    {
        let before = queue.lines.lines().len();
        if self.hold(queue) {
            return Ok(());
        }
        self.flush_all(&queue.lines.lines()[..before], disk, outlet)?;
        queue.lines = LineList::new(self.alloc);
        Ok(())
    }

    /// Puts the records on the disk. Then it releases these lines, and those that wait.
    fn flush_all<D: Disk, O: Outlet>(
        &mut self,
        held: &[NumberedLine],
        disk: &mut D,
        outlet: &mut O,
    ) -> Result<(), WorkFault>
        requires { total_sectors self.old.store.geometry ≤ (D.medium disk.old).sectors }
        ensures tells { OnOk result (TellsAll O.takes (held_as_begun held.now) self.old.process
            self.new.process outlet.old outlet.new) }
        ensures flushes { OnOk result (FlushesAll (held_as_begun held.now) self.old self.new
            (D.medium disk.old) (D.medium disk.new)) }
        ensures says { OnOk result (self.new.is_abreast ≡ self.old.is_abreast) }
        ensures fails { IfErr result (λ why. FailsQueue D.medium O.takes
            (telling_scene (holding self.old held.now) disk.old outlet.old) why
            (telling_scene self.new disk.new outlet.new)) }
        ensures store { LeavesStore result self.old.store self.new.store (D.medium disk.old)
            (D.medium disk.new) }
    {
        self.store.barrier(disk)?;
        release_held(held, outlet)?;
        release_waiting(&mut self.process, outlet)?;
        Ok(())
    }

    /// Tells the lines that are held, unless the source is ready and the journal has room for any
    /// answer.
    fn flush_unless_ready<D: Disk, S: Readiness, O: Outlet>(
        &mut self,
        question: Question,
        queue: &mut Queue,
        disk: &mut D,
        source: &S,
        outlet: &mut O,
    ) -> Result<(), WorkFault>
        requires { total_sectors self.old.store.geometry ≤ (D.medium disk.old).sectors }
        ensures most { queue.new.most ≡ queue.old.most }
        ensures done { OnOk result (FreesOrTells D.medium O.takes
            (telling_scene (holding self.old queue.old.lines) disk.old outlet.old)
            (telling_scene (holding self.new queue.new.lines) disk.new outlet.new)) }
        ensures fails { IfErr result (λ why. FailsQueue D.medium O.takes
            (telling_scene (holding self.old queue.old.lines) disk.old outlet.old) why
            (telling_scene self.new disk.new outlet.new)) }
        ensures store { LeavesStore result self.old.store self.new.store (D.medium disk.old)
            (D.medium disk.new) }
    {
        if queue.lines.lines().is_empty() {
            return Ok(());
        }
        let has_room = self.store.room() >= longest_record(self.store.version());
        if has_room && source.is_ready(question) {
            return Ok(());
        }
        self.flush_all(queue.lines.lines(), disk, outlet)?;
        queue.lines = LineList::new(self.alloc);
        Ok(())
    }

    /// Asks the source once, as a slice does. After a fault that isn't the source's the answer may
    /// be on record and not taken. So the store has failed then, and no barrier follows.
    fn ask_in_batch<D: Disk, S: Source>(
        &mut self,
        question: Question,
        disk: &mut D,
        source: &mut S,
    ) -> Result<bool, WorkFault>
        requires { total_sectors self.old.store.geometry ≤ (D.medium disk.old).sectors }
        ensures once { IfOk result (λ is_there. AsksOnce S.gives question self.old.process
            (Ok is_there) self.new.process source.old source.new) }
        ensures released { self.new.process.host.released ≡ self.old.process.host.released }
        ensures abreast { OnOk result (self.new.is_abreast ≡ true) }
        ensures holding { AsksHolding D.medium S.gives question
            (asking_scene self.old disk.old source.old) result
            (asking_scene self.new disk.new source.new) }
        ensures fault { IfErr result (λ why. AsksThenFails S.gives self.old question why self.new
            source.old source.new) }
        ensures ended { IfErr result (λ why. (why ≡ WorkFault.Work SliceFault.Source)
            ⊎ ((why ≢ WorkFault.Work SliceFault.Source) × HasEnded why self.new)) }
        ensures goes { result ≡ Err (WorkFault.Work SliceFault.Source)
            → StoreGoes self.old.store self.new.store (D.medium disk.old) (D.medium disk.new) }
        ensures runs { StoreRuns result self.old.store self.new.store (D.medium disk.old)
            (D.medium disk.new) }
        ensures places { self.new.store.geometry ≡ self.old.store.geometry }
        ensures sectors { (D.medium disk.new).sectors ≡ (D.medium disk.old).sectors }
        ensures few { CallsUpTo (most_saving (D.medium disk.old).sectors) (D.medium disk.old)
            (D.medium disk.new) }
    {
        match self.ask(question, disk, source) {
            Ok(is_there) => Ok(is_there),
            Err(fault) => {
                if !is_of_source(fault) {
                    self.store.fail();
                }
                Err(fault)
            }
        }
    }

    /// Takes at most so many steps, as a slice does. Lines may wait in the queue. Before the source
    /// is asked the onlooker is told where the worker is.
    fn work_in_batch<D: Disk, S: Source + Readiness, O: Outlet, T: Onlooker<S>>(
        &mut self,
        disk: &mut D,
        watched: Watched<'_, T>,
        queue: &mut Queue,
        source: &mut S,
        outlet: &mut O,
    ) -> Result<Now, WorkFault>
        requires none_waits { waiting_in self.old.process ≡ [] }
        requires none_held { queue.old.lines ≡ [] }
        requires sectors { total_sectors self.old.store.geometry ≤ (D.medium disk.old).sectors }
        ensures works { WorksInBatch D.medium S.gives O.takes
            (Batch watched.entry.fuel queue.old.most)
            (scene self.old disk.old source.old outlet.old) result
            (scene (holding self.new queue.new.lines) disk.new source.new outlet.new) }
        ensures abreast { IfOk result (λ now. now ≢ Now.Spent → self.new.is_abreast ≡ true) }
        ensures shows { OnOk result (IsProcess self.new.process) }
        ensures places { self.new.store.geometry ≡ self.old.store.geometry }
        ensures sectors { (D.medium disk.new).sectors ≡ (D.medium disk.old).sectors }
    {
        let Watched { fuel, onlooker } = watched;
        let first = self.process.steps();
        loop {
            let fuel_left = fuel - (self.process.steps() - first);
            match self.process.advance(fuel_left)? {
                Stop::Owes => self.hold_or_flush(queue, disk, outlet)?,
                Stop::Ended(how) => {
                    self.is_abreast = true;
                    return Ok(Now::Ended(how));
                }
                Stop::Spent => return Ok(Now::Spent),
                Stop::Asks(question) => {
                    self.flush_unless_ready(question, queue, disk, &*source, outlet)?;
                    onlooker.see(&*source, question, self.position());
                    if !self.ask_in_batch(question, disk, source)? {
                        return Ok(Now::Waiting);
                    }
                }
            }
        }
    }

    /// Tells the lines that are still held, whatever the batch has come to. It tells none once the
    /// outlet has refused one, or the store has failed.
    fn tell_rest<D: Disk, O: Outlet>(
        &mut self,
        worked: Result<Now, WorkFault>,
        queue: &Queue,
        disk: &mut D,
        outlet: &mut O,
    ) -> Result<Now, WorkFault>
        requires { total_sectors self.old.store.geometry ≤ (D.medium disk.old).sectors }
        ensures rest { TellsRest D.medium O.takes worked
            (telling_scene (holding self.old queue.now.lines) disk.old outlet.old) result
            (telling_scene self.new disk.new outlet.new) }
        ensures places { self.new.store.geometry ≡ self.old.store.geometry }
        ensures sectors { (D.medium disk.new).sectors ≡ (D.medium disk.old).sectors }
    {
        if queue.lines.lines().is_empty() || is_refused(&worked) || self.store.has_failed() {
            return worked;
        }
        self.flush_all(queue.lines.lines(), disk, outlet)?;
        worked
    }
}

/// Whether the source has failed, or has given what doesn't fit.
fn is_of_source(fault: WorkFault) -> bool
    ensures yes { result ≡ true → fault ≡ WorkFault.Work SliceFault.Source }
    ensures no { result ≡ false → fault ≢ WorkFault.Work SliceFault.Source }
{
    matches!(fault, WorkFault::Work(SliceFault::Source))
}

/// Whether the outlet has refused a line.
fn is_refused(worked: &Result<Now, WorkFault>) -> bool
    ensures yes { result ≡ true → worked.now ≡ Err (WorkFault.Work SliceFault.Outlet) }
    ensures no { result ≡ false → worked.now ≢ Err (WorkFault.Work SliceFault.Outlet) }
{
    matches!(worked, Err(WorkFault::Work(SliceFault::Outlet)))
}

impl Worker {
    ghost use Rattle.worker.specs.rules.Batches.{RunsBatch};
    ghost use Rattle.worker.specs.rules.DurableValues.{IsTooSmallFor, failed_worker};

    /// Takes at most `fuel` steps, as `slice` does. Fewer than `most` lines may wait while the
    /// source is ready, so that one sync of the disk serves them all. Before the source is waited
    /// for, before a sync of the guest returns, and before the batch ends, all lines are told. A
    /// fault of the disk or the outlet, or an answer that isn't taken, may leave the last ones: a
    /// later life tells them.
    ///
    /// A disk with fewer sectors than the worker has is refused: `N1 Disk`.
    pub fn batch<D: Disk, S: Source + Readiness, O: Outlet>(
        &mut self,
        disk: &mut D,
        fuel: u64,
        most: u64,
        source: &mut S,
        outlet: &mut O,
    ) -> Result<Now, WorkFault>
        // It runs as a worker does that has no disk. Whatever was promised is kept, by Ok or by any
        // error.
        ensures runs { total_sectors self.old.store.geometry ≤ (D.medium disk.old).sectors
            → RunsBatch D.medium S.gives O.takes fuel most
            (scene self.old disk.old source.old outlet.old) result
            (scene self.new disk.new source.new outlet.new) }
        ensures small { self.old.has_failed ≡ false → IsTooSmallFor self.old (D.medium disk.old)
            → (result ≡ Err (WorkFault.Disk DiskFault.Range)) × (self.new ≡ failed_worker self.old)
            × (disk.new ≡ disk.old) × (source.new ≡ source.old) × (outlet.new ≡ outlet.old) }
        ensures refused { self.old.has_failed ≡ true
            → (result ≡ Err (WorkFault.Work SliceFault.Failed)) × (self.new ≡ self.old)
            × (disk.new ≡ disk.old) × (source.new ≡ source.old) × (outlet.new ≡ outlet.old) }
    {
        let onlooker = &Unseen;
        self.watched_batch(disk, Watched { fuel, onlooker }, most, source, outlet)
    }

    /// Such a batch, of which an onlooker is told before each question where the worker is.
    pub fn watched_batch<D: Disk, S: Source + Readiness, O: Outlet, T: Onlooker<S>>(
        &mut self,
        disk: &mut D,
        watched: Watched<'_, T>,
        most: u64,
        source: &mut S,
        outlet: &mut O,
    ) -> Result<Now, WorkFault>
        ensures runs { total_sectors self.old.store.geometry ≤ (D.medium disk.old).sectors
            → RunsBatch D.medium S.gives O.takes watched.entry.fuel most
            (scene self.old disk.old source.old outlet.old) result
            (scene self.new disk.new source.new outlet.new) }
        ensures small { self.old.has_failed ≡ false → IsTooSmallFor self.old (D.medium disk.old)
            → (result ≡ Err (WorkFault.Disk DiskFault.Range)) × (self.new ≡ failed_worker self.old)
            × (disk.new ≡ disk.old) × (source.new ≡ source.old) × (outlet.new ≡ outlet.old) }
        ensures refused { self.old.has_failed ≡ true
            → (result ≡ Err (WorkFault.Work SliceFault.Failed)) × (self.new ≡ self.old)
            × (disk.new ≡ disk.old) × (source.new ≡ source.old) × (outlet.new ≡ outlet.old) }
    {
        if let Err(fault) = self.test_disk(disk) {
            return Err(fault);
        }
        self.batch_within(disk, watched, most, source, outlet)
    }

    /// A batch of a worker that hasn't failed, on a disk that has all its sectors.
    fn batch_within<D: Disk, S: Source + Readiness, O: Outlet, T: Onlooker<S>>(
        &mut self,
        disk: &mut D,
        watched: Watched<'_, T>,
        most: u64,
        source: &mut S,
        outlet: &mut O,
    ) -> Result<Now, WorkFault>
        requires works { self.old.has_failed ≡ false }
        requires sectors { total_sectors self.old.store.geometry ≤ (D.medium disk.old).sectors }
        ensures { RunsBatch D.medium S.gives O.takes watched.entry.fuel most
            (scene self.old disk.old source.old outlet.old) result
            (scene self.new disk.new source.new outlet.new) }
    {
        let mut queue = Queue::new(self.running.alloc, most);
        let worked = self
            .running
            .work_in_batch(disk, watched, &mut queue, source, outlet);
        match self.running.tell_rest(worked, &queue, disk, outlet) {
            Ok(now) => Ok(now),
            Err(fault) => {
                self.running.store.fail();
                Err(fault)
            }
        }
    }
}

//! Slices of a worker on its disk.
//!
//! **What a call exchanged with source and outlet doesn't hang on what was promised.** Any source
//! and any outlet may be in the theorem, which is told what they did afterwards.

ghost use Rattle.std.specs.Prelude.{◌≡◌, ◌≢◌, ◌≤◌, [], false, true, IfErr, IfOk, OnOk};
ghost use Rattle.process.specs.rules.Values.{IsProcess, waiting_in};
ghost use Rattle.disk_layout.specs.rules.Places.{total_sectors};
ghost use Rattle.record_replay.specs.rules.Calls.{ports};
ghost use Rattle.record_replay.specs.rules.Slices.{Slices};
ghost use Rattle.record_replay.specs.Turns.{working};
ghost use Rattle.worker.specs.DurableTurns.{WorksOn};
ghost use Rattle.worker.specs.StoreTurns.{StoreRuns};
ghost use Rattle.worker.specs.rules.DurableFailures.{SlicesOnDiskInVain};
ghost use Rattle.worker.specs.rules.Scenes.{scene};

use crate::durable::Worker;
use crate::fault::WorkFault;
use crate::position::{Onlooker, Unseen};
use crate::running_worker::RunningWorker;
use process::Stop;
use record_replay::{Now, Outlet, SliceFault, Source};
use sector_disk::{Disk, DiskFault};

impl RunningWorker {
    /// Takes at most `fuel` steps. Each line is released, and each answer asked for, before the
    /// next step. A line comes after a barrier, and an answer where the journal has room for it.
    /// Before the source is asked the onlooker is told where the worker is.
    fn work<D: Disk, S: Source, O: Outlet, T: Onlooker<S>>(
        &mut self,
        disk: &mut D,
        fuel: u64,
        source: &mut S,
        outlet: &mut O,
        onlooker: &T,
    ) -> Result<Now, WorkFault>
        requires none_waits { waiting_in self.old.process ≡ [] }
        requires sectors { total_sectors self.old.store.geometry ≤ (D.medium disk.old).sectors }
        ensures done { IfOk result (λ now. Slices S.gives O.takes (working self.old.process) fuel
            now (working self.new.process) (ports source.old outlet.old)
            (ports source.new outlet.new)) }
        ensures abreast { IfOk result (λ now. now ≢ Now.Spent → self.new.is_abreast ≡ true) }
        ensures shows { OnOk result (IsProcess self.new.process) }
        ensures works { WorksOn D.medium S.gives O.takes fuel
            (scene self.old disk.old source.old outlet.old) result
            (scene self.new disk.new source.new outlet.new) }
        ensures failed { IfErr result (λ why. SlicesOnDiskInVain S.gives O.takes self.old.process
            fuel why self.new.process (ports source.old outlet.old)
            (ports source.new outlet.new)) }
        ensures runs { StoreRuns result self.old.store self.new.store (D.medium disk.old)
            (D.medium disk.new) }
        ensures places { self.new.store.geometry ≡ self.old.store.geometry }
        ensures sectors { (D.medium disk.new).sectors ≡ (D.medium disk.old).sectors }
    {
        let first = self.process.steps();
        loop {
            let fuel_left = fuel - (self.process.steps() - first);
            match self.process.advance(fuel_left)? {
                Stop::Owes => self.flush(disk, outlet)?,
                Stop::Ended(how) => {
                    self.is_abreast = true;
                    return Ok(Now::Ended(how));
                }
                Stop::Spent => return Ok(Now::Spent),
                Stop::Asks(question) => {
                    onlooker.see(&*source, question, self.position());
                    if !self.ask(question, disk, source)? {
                        return Ok(Now::Waiting);
                    }
                }
            }
        }
    }
}

impl Worker {
    ghost use Rattle.std.specs.Prelude.{Err};
    ghost use Rattle.worker.specs.rules.Effects.{RunsSlice};
    ghost use Rattle.worker.specs.rules.DurableValues.{IsTooSmallFor, failed_worker};

    /// Takes at most `fuel` steps: answers from the source, lines to the outlet. Before a line is
    /// released all answers are on the disk, and so they are before a sync of the guest returns.
    /// An answer is kept before the process takes it. Where the journal may be too full for the
    /// next one, the process is saved, as the next generation.
    ///
    /// A disk with fewer sectors than the worker has is refused, as any disk refuses a sector that
    /// it doesn't have: `N1 Disk`.
    pub fn slice<D: Disk, S: Source, O: Outlet>(
        &mut self,
        disk: &mut D,
        fuel: u64,
        source: &mut S,
        outlet: &mut O,
    ) -> Result<Now, WorkFault>
        // It runs as a worker does that has no disk. Whatever was promised is kept, by Ok or by any
        // error.
        ensures runs { total_sectors self.old.store.geometry ≤ (D.medium disk.old).sectors
            → RunsSlice D.medium S.gives O.takes fuel
            (scene self.old disk.old source.old outlet.old) result
            (scene self.new disk.new source.new outlet.new) }
        ensures small { self.old.has_failed ≡ false → IsTooSmallFor self.old (D.medium disk.old)
            → (result ≡ Err (WorkFault.Disk DiskFault.Range)) × (self.new ≡ failed_worker self.old)
            × (disk.new ≡ disk.old) × (source.new ≡ source.old) × (outlet.new ≡ outlet.old) }
        ensures refused { self.old.has_failed ≡ true
            → (result ≡ Err (WorkFault.Work SliceFault.Failed)) × (self.new ≡ self.old)
            × (disk.new ≡ disk.old) × (source.new ≡ source.old) × (outlet.new ≡ outlet.old) }
    {
        self.watched_slice(disk, fuel, source, outlet, &Unseen)
    }

    /// Such a slice, of which an onlooker is told before each question where the worker is.
    pub fn watched_slice<D: Disk, S: Source, O: Outlet, T: Onlooker<S>>(
        &mut self,
        disk: &mut D,
        fuel: u64,
        source: &mut S,
        outlet: &mut O,
        onlooker: &T,
    ) -> Result<Now, WorkFault>
        ensures runs { total_sectors self.old.store.geometry ≤ (D.medium disk.old).sectors
            → RunsSlice D.medium S.gives O.takes fuel
            (scene self.old disk.old source.old outlet.old) result
            (scene self.new disk.new source.new outlet.new) }
        ensures small { self.old.has_failed ≡ false → IsTooSmallFor self.old (D.medium disk.old)
            → (result ≡ Err (WorkFault.Disk DiskFault.Range)) × (self.new ≡ failed_worker self.old)
            × (disk.new ≡ disk.old) × (source.new ≡ source.old) × (outlet.new ≡ outlet.old) }
        ensures refused { self.old.has_failed ≡ true
            → (result ≡ Err (WorkFault.Work SliceFault.Failed)) × (self.new ≡ self.old)
            × (disk.new ≡ disk.old) × (source.new ≡ source.old) × (outlet.new ≡ outlet.old) }
    {
        if let Err(fault) = self.test_disk(disk) {
            return Err(fault);
        }
        self.slice_within(disk, fuel, source, outlet, onlooker)
    }

    /// A slice of a worker that hasn't failed, on a disk that has all its sectors.
    fn slice_within<D: Disk, S: Source, O: Outlet, T: Onlooker<S>>(
        &mut self,
        disk: &mut D,
        fuel: u64,
        source: &mut S,
        outlet: &mut O,
        onlooker: &T,
    ) -> Result<Now, WorkFault>
        requires works { self.old.has_failed ≡ false }
        requires sectors { total_sectors self.old.store.geometry ≤ (D.medium disk.old).sectors }
        ensures { RunsSlice D.medium S.gives O.takes fuel
            (scene self.old disk.old source.old outlet.old) result
            (scene self.new disk.new source.new outlet.new) }
    {
        match self.running.work(disk, fuel, source, outlet, onlooker) {
            Ok(now) => Ok(now),
            Err(fault) => {
                self.running.store.fail();
                Err(fault)
            }
        }
    }
}

//! A worker on its disk, and what its calls do.

ghost use Rattle.std.specs.Prelude.{◌≡◌};

use crate::fault::WorkFault;
use crate::running_worker::RunningWorker;
use disk_layout::test_sectors;
use process::Process;
use record_replay::SliceFault;
use sector_disk::{Disk, DiskFault};
use std::marker::Model;

/// A process that is run slice by slice, whose answers are kept on a disk. It keeps no disk: each
/// call is handed the one that it was created on or recovered from. After any error each call
/// answers `Failed`: the journal of its store keeps whether there was one.
#[derive(Drop)]
pub struct Worker {
    pub(crate) running: RunningWorker,
    pub(crate) replayed: u64,
}

impl Model for Worker {
    ghost use Rattle.worker.specs.rules.DurableValues.{DurableValue, IsDurable, durable_of};

    ghost Value = { DurableValue };

    ghost view = { λ w. durable_of w.running w.replayed };

    ghost invariant = { λ w. IsDurable (durable_of w.running w.replayed) };
}

impl Worker {
    ghost use Rattle.std.specs.Prelude.{◌⊎◌, ◌≤◌, Err, OnErr, OnOk, false, true};
    ghost use Rattle.disk_layout.specs.rules.Places.{total_sectors};
    ghost use Rattle.worker.specs.rules.DurableValues.{IsTooSmallFor, failed_worker};

    /// The process as it is now, also after an error.
    pub fn process(&self) -> &Process
        ensures { result.now ≡ self.now.process }
    {
        &self.running.process
    }

    /// The generation of the newest snapshot, also after an error.
    pub fn generation(&self) -> u64
        ensures { result ≡ self.now.store.journal.generation }
    {
        self.running.store.generation()
    }

    /// How many steps were replayed when it was recovered, 0 for a fresh one.
    pub fn replayed(&self) -> u64
        ensures { result ≡ self.now.replayed }
    {
        self.replayed
    }

    /// Tests that no call of it has failed, and that the disk has all its sectors. Where the disk
    /// is too small, the worker has failed from now on.
    pub(crate) fn test_disk<D: Disk>(&mut self, disk: &D) -> Result<(), WorkFault>
        ensures fit { OnOk result ((self.new ≡ self.old) × (self.old.has_failed ≡ false)
            × (total_sectors self.old.store.geometry ≤ (D.medium disk.now).sectors)) }
        ensures unfit { OnErr result
            ((self.old.has_failed ≡ true) ⊎ IsTooSmallFor self.old (D.medium disk.now)) }
        ensures refused { self.old.has_failed ≡ true
            → (result ≡ Err (WorkFault.Work SliceFault.Failed)) × (self.new ≡ self.old) }
        ensures small { self.old.has_failed ≡ false → IsTooSmallFor self.old (D.medium disk.now)
            → (result ≡ Err (WorkFault.Disk DiskFault.Range))
            × (self.new ≡ failed_worker self.old) }
    {
        if self.running.store.has_failed() {
            return Err(WorkFault::Work(SliceFault::Failed));
        }
        if let Err(fault) = test_sectors(disk, self.running.store.total_sectors()) {
            self.running.store.fail();
            return Err(WorkFault::Disk(fault));
        }
        Ok(())
    }

    /// Lets the worker go. Its disk stays as the last call has left it.
    pub fn close(self) {
        drop(self);
    }
}

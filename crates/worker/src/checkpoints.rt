//! A worker's process, saved at its own wish.
//!
//! A checkpoint and an upgrade are handed the outlet, as a slice is. No line waits between two
//! calls, so they release none.

use crate::durable::Worker;
use crate::fault::WorkFault;
use crate::saving::save;
use record_replay::{Outlet, SliceFault};
use sector_disk::{Disk, DiskFault};
use worker_store::laws::process_images_fit_areas;

impl Worker {
    ghost use Rattle.std.specs.Prelude.{◌≡◌, ◌≤◌, Err, false, true};
    ghost use Rattle.disk_layout.specs.rules.Places.{total_sectors};
    ghost use Rattle.worker.specs.rules.Effects.{SavesWorker};
    ghost use Rattle.worker.specs.rules.DurableValues.{IsTooSmallFor, failed_worker};

    /// Puts all answers on the disk, and then saves the process, as a snapshot of the next
    /// generation. What the guest does next is the same with it or without. No line waits between
    /// two calls, so none is released.
    ///
    /// A disk with fewer sectors than the worker has is refused: `N1 Disk`.
    pub fn checkpoint<D: Disk, O: Outlet>(
        &mut self,
        disk: &mut D,
        _outlet: &mut O,
    ) -> Result<(), WorkFault>
        // Whatever was promised is kept, by Ok or by any error. The process is as it was.
        ensures saves { total_sectors self.old.store.geometry ≤ (D.medium disk.old).sectors
            → SavesWorker self.old self.new result (D.medium disk.old) (D.medium disk.new) }
        ensures small { self.old.has_failed ≡ false → IsTooSmallFor self.old (D.medium disk.old)
            → (result ≡ Err (WorkFault.Disk DiskFault.Range)) × (self.new ≡ failed_worker self.old)
            × (disk.new ≡ disk.old) }

        // The outlet is left alone.
        ensures quiet { _outlet.new ≡ _outlet.old }
        ensures refused { self.old.has_failed ≡ true
            → (result ≡ Err (WorkFault.Work SliceFault.Failed)) × (self.new ≡ self.old)
            × (disk.new ≡ disk.old) }
    {
        if let Err(fault) = self.test_disk(disk) {
            return Err(fault);
        }
        self.checkpoint_within(disk)
    }

    /// A checkpoint of a worker that hasn't failed, on a disk that has all its sectors.
    fn checkpoint_within<D: Disk>(&mut self, disk: &mut D) -> Result<(), WorkFault>
        requires works { self.old.has_failed ≡ false }
        requires sectors { total_sectors self.old.store.geometry ≤ (D.medium disk.old).sectors }
        ensures { SavesWorker self.old self.new result (D.medium disk.old) (D.medium disk.new) }
    {
        process_images_fit_areas();
        let running = &mut self.running;
        let saved = save(running.alloc, disk, &mut running.store, &running.process);
        // Only the store fails here, and says so from then on.
        if let Err(fault) = saved {
            return Err(WorkFault::from(fault));
        }
        Ok(())
    }
}

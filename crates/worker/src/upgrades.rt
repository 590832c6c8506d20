//! A worker that is put into version 2.

ghost use Rattle.std.specs.Prelude.{IfErr, OnOk};
ghost use Rattle.worker.specs.Upgrading.{IsUpgradeRefused, MayUpgrade};

use crate::durable::Worker;
use crate::fault::WorkFault;
use crate::running_worker::RunningWorker;
use crate::upgrade_fault::UpgradeFault;
use crate::widening::save_in_two;
use record_replay::{Outlet, SliceFault};
use sector_disk::{Disk, DiskFault};
use wasi_abi::Version;
use worker_store::laws::process_images_fit_areas;

impl RunningWorker {
    /// Tests whether the journal takes each record of version 2, and whether no line beyond a
    /// process of version 1 may have been told.
    fn test_upgrade(&self) -> Result<(), UpgradeFault>
        ensures may { OnOk result (MayUpgrade self.now) }
        ensures refused { IfErr result (λ why. IsUpgradeRefused self.now why) }
    {
        if !self.store.takes_records(Version::Two) {
            return Err(UpgradeFault::JournalTooSmall);
        }
        if self.is_abreast {
            return Ok(());
        }
        match self.process.version() {
            Version::One => Err(UpgradeFault::NotCaughtUp),
            Version::Two => Ok(()),
        }
    }
}

impl Worker {
    ghost use Rattle.std.specs.Prelude.{◌≡◌, ◌≤◌, Err, false, true};
    ghost use Rattle.disk_layout.specs.rules.Places.{total_sectors};
    ghost use Rattle.worker.specs.rules.Effects.{UpgradesWorker};
    ghost use Rattle.worker.specs.rules.DurableValues.{IsTooSmallFor, failed_worker};
    ghost use Rattle.worker.specs.rules.Upgrades.{Migrates, RefusesUpgrade};

    /// Puts all answers on the disk, and then saves the process in version 2, as a snapshot of the
    /// next generation. From then on a request, and the random bytes of one call, may be 65,536
    /// bytes long. A worker of version 2 is saved as by a checkpoint. No line waits between two
    /// calls, so none is released.
    ///
    /// A journal of fewer than 133 sectors is too small for it. A worker of version 1 that was
    /// recovered has to have asked since, or to have ended, in this life or before: else lines that
    /// an earlier life told may be told again, with another text.
    ///
    /// A disk with fewer sectors than the worker has is refused: `N1 Disk`.
    pub fn upgrade<D: Disk, O: Outlet>(
        &mut self,
        disk: &mut D,
        _outlet: &mut O,
    ) -> Result<(), WorkFault>
        // Whatever was promised is kept, by Ok or by any error. After Ok the process and the disk
        // are of version 2.
        ensures upgrades { total_sectors self.old.store.geometry ≤ (D.medium disk.old).sectors
            → UpgradesWorker self.old self.new result (D.medium disk.old) (D.medium disk.new) }

        // At each moment the disk stands for a worker of the one version or of the other.
        ensures migrates { Migrates D.medium self.old disk.old disk.new }
        ensures small { self.old.has_failed ≡ false → IsTooSmallFor self.old (D.medium disk.old)
            → (result ≡ Err (WorkFault.Disk DiskFault.Range)) × (self.new ≡ failed_worker self.old)
            × (disk.new ≡ disk.old) }

        // The outlet is left alone.
        ensures quiet { _outlet.new ≡ _outlet.old }

        // It is refused before anything is asked of the disk.
        ensures refused { self.old.has_failed ≡ true
            → (result ≡ Err (WorkFault.Work SliceFault.Failed)) × (self.new ≡ self.old)
            × (disk.new ≡ disk.old) }
        ensures in_the_way { total_sectors self.old.store.geometry ≤ (D.medium disk.old).sectors
            → RefusesUpgrade self.old result self.new disk.old disk.new }
    {
        if let Err(fault) = self.test_disk(disk) {
            return Err(fault);
        }
        self.upgrade_within(disk)
    }

    /// An upgrade of a worker that hasn't failed, on a disk that has all its sectors.
    fn upgrade_within<D: Disk>(&mut self, disk: &mut D) -> Result<(), WorkFault>
        requires works { self.old.has_failed ≡ false }
        requires sectors { total_sectors self.old.store.geometry ≤ (D.medium disk.old).sectors }
        ensures upgrades { UpgradesWorker self.old self.new result (D.medium disk.old)
            (D.medium disk.new) }
        ensures migrates { Migrates D.medium self.old disk.old disk.new }
        ensures in_the_way { RefusesUpgrade self.old result self.new disk.old disk.new }
    {
        process_images_fit_areas();
        if let Err(fault) = self.running.test_upgrade() {
            self.running.store.fail();
            return Err(WorkFault::Upgrade(fault));
        }
        let running = &mut self.running;
        let saved = save_in_two(
            running.alloc,
            disk,
            &mut running.store,
            &mut running.process,
        );
        if let Err(fault) = saved {
            self.running.store.fail();
            return Err(WorkFault::from(fault));
        }
        Ok(())
    }
}

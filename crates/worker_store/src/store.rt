//! What a worker on its disk calls.

use crate::fault::StoreFault;
use crate::saving::write_snapshot;
use disk_layout::{Geometry, Record, takes_records, test_sectors};
use journal::Journal;
use process::Process;
use sector_disk::{Disk, DiskFault};
use snapshot::{HashedImage, Writing};
use std::alloc::Global;
use wasi_abi::Version;

/// Where a worker's records and snapshots go. It keeps no disk: each call that touches one is
/// handed it. After an error each call answers `Failed`, and touches neither disk nor store. Its
/// journal keeps whether there was one.
#[derive(Drop)]
pub struct WorkerStore {
    pub(crate) geometry: Geometry,
    pub(crate) journal: Journal,
}

impl WorkerStore {
    ghost use Rattle.std.specs.Prelude.{◌≡◌, ◌⊎◌, ◌-◌, ◌<◌, ◌≤◌, ◌↔◌, false, true, IfErr};
    ghost use Rattle.std.specs.Prelude.{IsTrue, OnErr, OnOk, length};
    ghost use Rattle.sector_disk.specs.declared.fault.DiskFault.{DiskFault};
    ghost use Rattle.disk_layout.specs.rules.Journal.{record_bytes, TakesRecords};
    ghost use Rattle.disk_layout.specs.rules.Places.{total_sectors};
    ghost use Rattle.journal.specs.rules.Packed.{sectors_for};
    ghost use Rattle.journal.specs.rules.State.{room_of};
    ghost use Rattle.journal.specs.rules.Steps.{RecordFits};
    ghost use Rattle.worker_store.specs.rules.Calls.{AppendFails};
    ghost use Rattle.worker_store.specs.rules.Effects.{ReopensStore, StoresPending, CommitsProcess};
    ghost use Rattle.worker_store.specs.rules.Stores.{IsOfStore, failed_store, with_record};

    /// Opens the store of a worker that a recovery has brought back to this process, from the disk
    /// that stands for it. It is committed as this generation, one more than that of the newest
    /// snapshot, and in the version of the process. Lines that wait in the process have been
    /// released by the caller. Where its image is the known one again, no digest is computed. On a
    /// disk with too few sectors it answers `Range`, and leaves it alone.
    pub fn reopen<D: Disk>(
        alloc: Global,
        disk: &mut D,
        geometry: &Geometry,
        generation: u64,
        process: &Process,
        known: Option<HashedImage>,
    ) -> Result<WorkerStore, StoreFault>
        ensures reopens { ReopensStore geometry.now generation process.now result
            (D.medium disk.old) (D.medium disk.new) }
        ensures too_few { (D.medium disk.old).sectors < total_sectors geometry.now
            → (disk.new ≡ disk.old) × (result ≡ Err (StoreFault.Disk DiskFault.Range)) }
    {
        if let Err(fault) = test_sectors(disk, geometry.total_sectors()) {
            return Err(StoreFault::Disk(fault));
        }
        let written = write_snapshot(disk, geometry, generation, Writing::Changes, process, known);
        if let Err(fault) = written {
            return Err(StoreFault::from(fault));
        }
        Ok(WorkerStore {
            geometry: *geometry,
            journal: Journal::fresh(alloc, process.version(), generation),
        })
    }

    /// Whether a call has failed.
    pub fn has_failed(&self) -> bool
        ensures { result ≡ self.now.journal.has_failed }
    {
        self.journal.has_failed()
    }

    /// From now on each call answers `Failed`, as after an error.
    pub fn fail(&mut self)
        ensures { self.new ≡ failed_store self.old }
    {
        self.journal.fail();
    }

    /// How many sectors the disk of the store has at least.
    pub fn total_sectors(&self) -> u64
        ensures { result ≡ total_sectors self.now.geometry }
    {
        self.geometry.total_sectors()
    }

    /// The version of the records.
    pub fn version(&self) -> Version
        ensures { result ≡ self.now.journal.version }
    {
        self.journal.version()
    }

    /// The generation of the newest snapshot.
    pub fn generation(&self) -> u64
        ensures { result ≡ self.now.journal.generation }
    {
        self.journal.generation()
    }

    /// Whether its journal takes the longest record of this version.
    pub fn takes_records(&self, version: Version) -> bool
        ensures { IsTrue result ↔ TakesRecords version self.now.geometry.journal_sectors }
    {
        takes_records(version, self.geometry.journal_sectors)
    }

    /// How many more bytes of records there is room for, before the next commit.
    pub fn room(&self) -> usize
        ensures { result ≡ room_of self.now.geometry self.now.journal }
    {
        self.journal.room(&self.geometry)
    }

    /// Keeps a record in memory, until the next barrier. A payload over the limit of the
    /// version is `TooLong`; then a record longer than the room that is left is `Full`.
    pub fn append(&mut self, entry: &Record) -> Result<(), StoreFault>
        ensures appended { OnOk result (self.new ≡ with_record self.old entry.now) }
        ensures fits { OnOk result (RecordFits self.old.journal.version entry.now) }
        ensures room { OnOk result (length (record_bytes self.old.journal.version entry.now)
            ≤ room_of self.old.geometry self.old.journal) }
        ensures cause { IfErr result (λ e. AppendFails self.old entry.now e) }
        ensures stays { IsOfStore self.old self.new }
        ensures fails { OnErr result (self.new.journal.has_failed ≡ true) }
        ensures refused { self.old.journal.has_failed ≡ true
            → (result ≡ Err StoreFault.Failed) × (self.new ≡ self.old) }
    {
        if let Err(fault) = self.journal.append(&self.geometry, entry) {
            return Err(StoreFault::from(fault));
        }
        Ok(())
    }

    /// Puts the records that only memory holds on the disk, and syncs. Without such records it
    /// leaves the disk alone. On a disk with too few sectors it answers `Range`, and leaves it
    /// alone.
    pub fn barrier<D: Disk>(&mut self, disk: &mut D) -> Result<(), StoreFault>
        ensures stores { StoresPending self.old self.new result (D.medium disk.old)
            (D.medium disk.new) }
        ensures quiet { length self.old.journal.kept ≡ 0 → disk.new ≡ disk.old }

        // Where the journal has too few sectors, nothing is written.
        ensures full { self.old.geometry.journal_sectors - self.old.journal.used
            < sectors_for (length self.old.journal.kept)
            → ((result ≡ Err StoreFault.Full) ⊎ (result ≡ Err StoreFault.Failed))
            × (disk.new ≡ disk.old) }
        ensures too_few { (D.medium disk.old).sectors < total_sectors self.old.geometry
            → (disk.new ≡ disk.old) × (self.old.journal.has_failed ≡ false
            → 0 < length self.old.journal.kept
            → (result ≡ Err StoreFault.Full) ⊎ (result ≡ Err (StoreFault.Disk DiskFault.Range))) }
        ensures refused { self.old.journal.has_failed ≡ true
            → (result ≡ Err StoreFault.Failed) × (self.new ≡ self.old) × (disk.new ≡ disk.old) }
    {
        if let Err(fault) = self.journal.barrier(disk, &self.geometry) {
            return Err(StoreFault::from(fault));
        }
        Ok(())
    }

    /// Puts the image of a process on the disk, as the next generation, and begins its journal. Of
    /// the sectors of the image it writes those that differ from what the area holds. Lines that
    /// wait in the process have been released by the caller: the image tells only their number.
    /// Records that only memory holds are dropped, since the image comes after them. On a disk with
    /// too few sectors it answers `Range`, and leaves it alone.
    pub fn commit<D: Disk>(
        &mut self,
        alloc: Global,
        disk: &mut D,
        process: &Process,
    ) -> Result<(), StoreFault>
        ensures commits { CommitsProcess process.now self.old self.new result (D.medium disk.old)
            (D.medium disk.new) }
        ensures too_few { self.old.journal.has_failed ≡ false
            → (D.medium disk.old).sectors < total_sectors self.old.geometry
            → (disk.new ≡ disk.old) × (result ≡ Err (StoreFault.Disk DiskFault.Range)) }
        ensures refused { self.old.journal.has_failed ≡ true
            → (result ≡ Err StoreFault.Failed) × (self.new ≡ self.old) × (disk.new ≡ disk.old) }
    {
        if self.has_failed() {
            return Err(StoreFault::Failed);
        }
        if let Err(fault) = test_sectors(disk, self.total_sectors()) {
            self.fail();
            return Err(StoreFault::Disk(fault));
        }
        let next = self.journal.generation().saturating_add(1);
        let written = write_snapshot(disk, &self.geometry, next, Writing::Changes, process, None);
        if let Err(fault) = written {
            self.fail();
            return Err(StoreFault::from(fault));
        }
        self.journal = Journal::fresh(alloc, process.version(), next);
        Ok(())
    }
}

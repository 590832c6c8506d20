//! The journal of a generation.
ghost use Rattle.std.specs.Prelude.{◌≡◌, ◌↔◌, ◌⊎◌, ◌+◌, ◌<◌, ◌≤◌, ◌++◌, [], true, false};
ghost use Rattle.std.specs.Prelude.{length, OnOk, OnErr, IfOk, IfErr, IsTrue};
ghost use Rattle.sector_disk.specs.rules.DiskImage.{DiskImage};
ghost use Rattle.sector_disk.specs.rules.Medium.{CallsUpTo};
ghost use Rattle.disk_layout.specs.rules.Places.{total_sectors};
ghost use Rattle.disk_layout.specs.rules.Journal.{record_bytes, payload_of};
ghost use Rattle.disk_layout.specs.rules.Stored.{OnlyReads};
ghost use Rattle.journal.specs.rules.Barriers.{StoresKept};
ghost use Rattle.journal.specs.rules.State.{state, failed_journal, room_of};
ghost use Rattle.journal.specs.rules.Steps.{RecordFits, JournalHolds, ShowsLater};
ghost use Rattle.wasi_abi.specs.rules.Versions.{text_limit};

use crate::decode::records_from;
use crate::fault::JournalFault;
use crate::records::{payload_len, put_record};
use crate::scan::read_payloads;
use crate::scanned::ScannedJournal;
use crate::store::{sectors_for, store_packed};
use disk_layout::{Geometry, PAYLOAD_SIZE, Record, record_head_bytes, test_sectors};
use sector_disk::{Disk, DiskFault};
use std::alloc::Global;
use std::marker::Model;
use wasi_abi::Version;

/// The records of one generation. Contracts see their version, the generation, how many sectors are
/// written in it, the bytes that only memory holds, and whether a call has failed.
#[derive(Drop)]
pub struct Journal {
    version: Version,
    generation: u64,
    used: u64,
    kept: Vec<u8>,
    has_failed: bool,
}

impl Model for Journal {
    ghost use Rattle.journal.specs.rules.State.{JournalState, state};

    ghost Value = { JournalState };

    ghost view = { λ j. state j.version j.generation j.used j.kept.items j.has_failed };
}

impl Journal {
    /// Without a record. It takes no memory.
    pub fn fresh(alloc: Global, version: Version, generation: u64) -> Self
        ensures { result ≡ state version generation 0 [] false }
    {
        Journal {
            version,
            generation,
            used: 0,
            kept: Vec::new(alloc),
            has_failed: false,
        }
    }

    /// The records of a generation: those whose bytes are whole and well formed, from place 1 on.
    /// It reads each sector once, up to the first that isn't one of the generation. It also tells
    /// whether the first sector shows a later generation. Then no other is read, there are no
    /// records, and no memory is wanted. On a disk with too few sectors it answers `Range`, and
    /// leaves it alone.
    pub fn scan<D: Disk>(
        alloc: Global,
        disk: &mut D,
        geometry: &Geometry,
        version: Version,
        generation: u64,
    ) -> Result<ScannedJournal, JournalFault>
        ensures reads { OnlyReads (D.medium disk.old) (D.medium disk.new) }
        ensures scans { IfOk result (λ s. (image : DiskImage) → (D.medium disk.new).shows image
            → JournalHolds geometry.now version generation s.records.items image) }
        ensures later { IfOk result (λ s. (image : DiskImage) → (D.medium disk.new).shows image
            → (IsTrue s.shows_later ↔ ShowsLater geometry.now generation image)) }
        ensures once { IfOk result (λ s. IsTrue s.shows_later
            → CallsUpTo 1 (D.medium disk.old) (D.medium disk.new)) }
        ensures memory { result ≡ Err JournalFault.Memory → (image : DiskImage)
            → (D.medium disk.new).shows image → ShowsLater geometry.now generation image → ⊥ }
        ensures cause { (fault : DiskFault) → result ≡ Err (JournalFault.Disk fault)
            → ((D.medium disk.old).sectors < total_sectors geometry.now)
            ⊎ ((D.medium disk.old).faults < (D.medium disk.new).faults) }
        ensures too_few { (D.medium disk.old).sectors < total_sectors geometry.now
            → (disk.new ≡ disk.old) × (result ≡ Err (JournalFault.Disk DiskFault.Range)) }
        ensures which_fault { IfErr result (λ e. e ≡ JournalFault.Memory
            ⊎ ((fault : DiskFault) × (e ≡ JournalFault.Disk fault))) }
        ensures asks { CallsUpTo geometry.now.journal_sectors (D.medium disk.old)
            (D.medium disk.new) }
    {
        if let Err(fault) = test_sectors(disk, geometry.total_sectors()) {
            return Err(JournalFault::Disk(fault));
        }
        let payloads = read_payloads(alloc, disk, geometry, generation)?;
        match records_from(alloc, version, payloads.bytes.as_slice()) {
            Ok(records) => Ok(ScannedJournal {
                records,
                shows_later: payloads.shows_later,
            }),
            Err(_) => Err(JournalFault::Memory),
        }
    }

    /// The version of its records.
    pub fn version(&self) -> Version
        ensures { result ≡ self.now.version }
    {
        let Journal { version, .. } = self;
        *version
    }

    pub fn generation(&self) -> u64
        ensures { result ≡ self.now.generation }
    {
        let Journal { generation, .. } = self;
        *generation
    }

    /// Whether a call has failed.
    pub fn has_failed(&self) -> bool
        ensures { result ≡ self.now.has_failed }
    {
        self.has_failed
    }

    /// From now on each call answers `Failed`, as after an error.
    pub fn fail(&mut self)
        ensures { self.new ≡ failed_journal self.old }
    {
        self.has_failed = true;
    }

    /// How many more bytes of records there is room for.
    pub fn room(&self, geometry: &Geometry) -> usize
        ensures { result ≡ room_of geometry.now self.now }
    {
        let unwritten = u64::from(geometry.journal_sectors).saturating_sub(self.used);
        (PAYLOAD_SIZE * unwritten as usize).saturating_sub(self.kept.len())
    }

    /// Keeps a record in memory, until the next barrier. A payload over the limit of the version is
    /// `TooLong`; then a record longer than the room that is left is `Full`. After an error nothing
    /// is kept any more.
    pub fn append(&mut self, geometry: &Geometry, entry: &Record) -> Result<(), JournalFault>
        ensures ok { OnOk result (self.new
            ≡ state self.old.version self.old.generation self.old.used
            (self.old.kept ++ record_bytes self.old.version entry.now) false) }
        ensures fits { OnOk result (RecordFits self.old.version entry.now) }
        ensures err { OnErr result (self.new.has_failed ≡ true) }
        ensures stays { self.new ≡ state self.old.version self.old.generation self.old.used
            self.new.kept self.new.has_failed }
        ensures failed { (result ≡ Err JournalFault.Failed) ↔ (self.old.has_failed ≡ true) }
        ensures refused { self.old.has_failed ≡ true
            → (result ≡ Err JournalFault.Failed) × (self.new ≡ self.old) }
        ensures too_long { (result ≡ Err JournalFault.TooLong)
            ↔ ((self.old.has_failed ≡ false)
            × (text_limit self.old.version < length (payload_of entry.now.answer))) }
        ensures full { (result ≡ Err JournalFault.Full) ↔
            ((self.old.has_failed ≡ false)
            × (length (payload_of entry.now.answer) ≤ text_limit self.old.version)
            × (room_of geometry.now self.old < length (record_bytes self.old.version entry.now))) }
        ensures no_disk { (fault : DiskFault) → result ≡ Err (JournalFault.Disk fault) → ⊥ }
    {
        if self.has_failed {
            return Err(JournalFault::Failed);
        }
        let payload = payload_len(entry);
        if payload > self.version.text_limit() {
            self.has_failed = true;
            return Err(JournalFault::TooLong);
        }
        if record_head_bytes(self.version) + payload > self.room(geometry) {
            self.has_failed = true;
            return Err(JournalFault::Full);
        }
        let Ok(()) = put_record(&mut self.kept, self.version, entry) else {
            self.has_failed = true;
            return Err(JournalFault::Memory);
        };
        Ok(())
    }

    /// Puts the records that only memory holds on the disk: into the next sectors, without gaps,
    /// one after another, and then one sync. Without such records it leaves the disk alone. On a
    /// disk with too few sectors it answers `Range`, and leaves it alone.
    pub fn barrier<D: Disk>(
        &mut self,
        disk: &mut D,
        geometry: &Geometry,
    ) -> Result<(), JournalFault>
        ensures stores { StoresKept geometry.now self.old self.new result (D.medium disk.old)
            (D.medium disk.new) }
        ensures too_few { (D.medium disk.old).sectors < total_sectors geometry.now
            → (disk.new ≡ disk.old) × (self.old.has_failed ≡ false → 0 < length self.old.kept
            → (result ≡ Err JournalFault.Full)
            ⊎ (result ≡ Err (JournalFault.Disk DiskFault.Range))) }
        ensures quiet { length self.old.kept ≡ 0 → disk.new ≡ disk.old }
        ensures untouched { (result ≡ Err JournalFault.Full) ⊎ (result ≡ Err JournalFault.Failed)
            → disk.new ≡ disk.old }
        ensures refused { self.old.has_failed ≡ true
            → (result ≡ Err JournalFault.Failed) × (self.new ≡ self.old) × (disk.new ≡ disk.old) }
    {
        if self.has_failed {
            return Err(JournalFault::Failed);
        }
        if self.kept.is_empty() {
            return Ok(());
        }
        let count = sectors_for(self.kept.len()) as u64;
        let unwritten = u64::from(geometry.journal_sectors).saturating_sub(self.used);
        if count > unwritten {
            self.has_failed = true;
            return Err(JournalFault::Full);
        }
        if let Err(fault) = test_sectors(disk, geometry.total_sectors()) {
            self.has_failed = true;
            return Err(JournalFault::Disk(fault));
        }
        let at = geometry.journal_place() + self.used;
        let stored = store_packed(
            disk,
            at,
            self.generation,
            self.used + 1,
            self.kept.as_slice(),
        );
        if let Err(fault) = stored {
            self.has_failed = true;
            return Err(JournalFault::Disk(fault));
        }
        self.used += count;
        self.kept.clear();
        Ok(())
    }
}

//! The snapshots of one disk.
//!
//! # Choices
//!
//! - A commit has a premise: the newest head is of the generation before, and no head's sector
//!   shows a later one. The premise is in the step between two images and not in a `requires`, so
//!   runs of calls compose.
//! - `begin` and `commit` take the version of the image, and `newest` gives it, so that a wider
//!   version needs no other calls.

use crate::fault::SnapshotFault;
use crate::hashed_image::HashedImage;
use crate::newest::{Snapshot, newest_head, read_process_image};
use crate::writer::AreaWriter;
use crate::writing::Writing;
use disk_layout::{Geometry, Head, MODULE_PLACE, test_sectors};
use sector_disk::Disk;
use std::alloc::Global;
use std::mem;
use wasi_abi::NUMBERS_END;

#[derive(Drop)]
pub(crate) enum SaveState {
    /// No image is begun.
    Idle,
    Begun(AreaWriter),
    /// A call has failed.
    Failed,
}

/// Reads the newest snapshot of a disk, and writes the next one. Each call that touches a disk is
/// handed it, and works on the places that a `Geometry` gives. On a disk with too few sectors it
/// answers `Range`, and leaves the disk alone. After an error each call answers `Failed` and leaves
/// the disk alone.
#[derive(Drop)]
pub struct Snapshots {
    pub(crate) state: SaveState,
}

impl Snapshots {
    ghost use Rattle.std.specs.Prelude.{◌≡◌, ◌≤◌, ◌<◌, ◌⊎◌, ◌+◌, ◌↔◌, false};
    ghost use Rattle.std.specs.Prelude.{IsTrue, OnOk, IfOk, IsErr};
    ghost use Rattle.wasi_abi.specs.declared.numbers.TheConstants.{NUMBERS_END};
    ghost use Rattle.sector_disk.specs.rules.DiskImage.{DiskImage};
    ghost use Rattle.sector_disk.specs.rules.Medium.{CallsUpTo};
    ghost use Rattle.sector_disk.specs.declared.fault.DiskFault.{DiskFault};
    ghost use Rattle.disk_layout.specs.declared.geometry.TheConstants.{MODULE_PLACE};
    ghost use Rattle.disk_layout.specs.rules.Places.{journal_place};
    ghost use Rattle.disk_layout.specs.rules.Stored.{OnlyReads};
    ghost use Rattle.snapshot.specs.rules.Heads.{FindsHead};
    ghost use Rattle.snapshot.specs.rules.Images.{PushesBytes, EndsImage, CommitsImage};
    ghost use Rattle.snapshot.specs.rules.Newest.{ReadsProcessImage, FindsNewest};
    ghost use Rattle.snapshot.specs.declared.writer.AreaWriter.{AreaWriter};
    ghost use Rattle.snapshot.specs.declared.writing.Writing.TheVariants.{Changes};
    ghost use Rattle.snapshot.specs.rules.Snapshots.{is_idle, is_failed, IsBegun, BeginsImage};
    ghost use Rattle.snapshot.specs.rules.Snapshots.{CanEnd, StaysFailed};

    pub fn new() -> Snapshots
        ensures idle { IsTrue (is_idle result) }
    {
        Snapshots {
            state: SaveState::Idle,
        }
    }

    /// The newest complete head of the disk, if there is one.
    pub fn newest_head<D: Disk>(&mut self, disk: &mut D) -> Result<Option<Head>, SnapshotFault>
        ensures reads { OnlyReads (D.medium disk.old) (D.medium disk.new) }
        ensures finds { IfOk result (λ head. (image : DiskImage) → (D.medium disk.new).shows image
            → FindsHead image head) }
        ensures same { OnOk result (self.new ≡ self.old) }
        ensures fails { StaysFailed result self.old self.new }
        ensures untouched { IsTrue (is_failed self.old) → disk.new ≡ disk.old }
        ensures too_few { is_failed self.old ≡ false → (D.medium disk.old).sectors < MODULE_PLACE
            → (disk.new ≡ disk.old) × (result ≡ Err (SnapshotFault.Disk DiskFault.Range)) }
        ensures cause { IsErr result → IsTrue (is_failed self.old)
            ⊎ ((fault : DiskFault) × (result ≡ Err (SnapshotFault.Disk fault))
            × (((D.medium disk.old).sectors < MODULE_PLACE)
            ⊎ ((D.medium disk.old).faults < (D.medium disk.new).faults))) }
        ensures asks { CallsUpTo 2 (D.medium disk.old) (D.medium disk.new) }
    {
        self.test_disk(disk, MODULE_PLACE)?;
        match newest_head(disk) {
            Ok(head) => Ok(head),
            Err(fault) => {
                self.state = SaveState::Failed;
                Err(SnapshotFault::Disk(fault))
            }
        }
    }

    /// The image that a head names: as many bytes as it says, with the digest that it says, at the
    /// front of its generation's area. Where that isn't so it is `Damaged`, and where the length is
    /// more than an area holds, no sector is read.
    pub fn process_image_of<D: Disk>(
        &mut self,
        alloc: Global,
        disk: &mut D,
        geometry: &Geometry,
        head: &Head,
    ) -> Result<HashedImage, SnapshotFault>
        ensures reads { OnlyReads (D.medium disk.old) (D.medium disk.new) }
        ensures process_image { (image : DiskImage) → (D.medium disk.new).shows image
            → ReadsProcessImage geometry.now image head.now result }
        ensures same { OnOk result (self.new ≡ self.old) }
        ensures fails { StaysFailed result self.old self.new }
        ensures untouched { IsTrue (is_failed self.old) → disk.new ≡ disk.old }
        ensures too_few { is_failed self.old ≡ false
            → (D.medium disk.old).sectors < journal_place geometry.now
            → (disk.new ≡ disk.old) × (result ≡ Err (SnapshotFault.Disk DiskFault.Range)) }
        ensures cause { (fault : DiskFault) → result ≡ Err (SnapshotFault.Disk fault)
            → ((D.medium disk.old).sectors < journal_place geometry.now)
            ⊎ ((D.medium disk.old).faults < (D.medium disk.new).faults) }
        ensures asks { CallsUpTo geometry.now.area_sectors (D.medium disk.old) (D.medium disk.new) }
    {
        self.test_disk(disk, geometry.journal_place())?;
        match read_process_image(alloc, disk, geometry, head) {
            Ok(process_image) => Ok(process_image),
            Err(fault) => {
                self.state = SaveState::Failed;
                Err(fault)
            }
        }
    }

    /// The newest snapshot of the disk, if there is one: what its newest complete head names.
    pub fn newest<D: Disk>(
        &mut self,
        alloc: Global,
        disk: &mut D,
        geometry: &Geometry,
    ) -> Result<Option<Snapshot>, SnapshotFault>
        ensures reads { OnlyReads (D.medium disk.old) (D.medium disk.new) }
        ensures finds { (image : DiskImage) → (D.medium disk.new).shows image
            → FindsNewest geometry.now image result }
        ensures same { OnOk result (self.new ≡ self.old) }
        ensures fails { StaysFailed result self.old self.new }
        ensures untouched { IsTrue (is_failed self.old) → disk.new ≡ disk.old }
        ensures too_few { is_failed self.old ≡ false
            → (D.medium disk.old).sectors < journal_place geometry.now
            → (disk.new ≡ disk.old) × (result ≡ Err (SnapshotFault.Disk DiskFault.Range)) }
        ensures cause { (fault : DiskFault) → result ≡ Err (SnapshotFault.Disk fault)
            → ((D.medium disk.old).sectors < journal_place geometry.now)
            ⊎ ((D.medium disk.old).faults < (D.medium disk.new).faults) }
        ensures asks { CallsUpTo (geometry.now.area_sectors + 2) (D.medium disk.old)
            (D.medium disk.new) }
    {
        self.test_disk(disk, geometry.journal_place())?;
        let Some(head) = self.newest_head(disk)? else {
            return Ok(None);
        };
        let process_image = self.process_image_of(alloc, disk, geometry, &head)?;
        Ok(Some(Snapshot {
            version: head.version,
            generation: head.generation,
            process_image,
        }))
    }

    /// Begins the image of this generation, which is given by `push` and ends with `finish`. It
    /// makes no call of the disk. It is `TooBig` for a generation from `NUMBERS_END` on. An image
    /// that was begun before is left as it is. Where the image has the bytes of the known one, its
    /// digest isn't computed again.
    pub fn begin(
        &mut self,
        generation: u64,
        version: u32,
        writing: Writing,
        known: Option<HashedImage>,
    ) -> Result<(), SnapshotFault>
        ensures begun { OnOk result (BeginsImage generation version writing self.new) }
        ensures too_big { (result ≡ Err SnapshotFault.TooBig)
            ↔ ((is_failed self.old ≡ false) × (NUMBERS_END ≤ generation)) }
        ensures fails { StaysFailed result self.old self.new }
        ensures cause { IsErr result → IsTrue (is_failed self.old)
            ⊎ (result ≡ Err SnapshotFault.TooBig) }
    {
        if self.is_failed() {
            return Err(SnapshotFault::Failed);
        }
        if generation >= NUMBERS_END {
            self.state = SaveState::Failed;
            return Err(SnapshotFault::TooBig);
        }
        self.state = SaveState::Begun(AreaWriter::new(generation, version, writing, known));
        Ok(())
    }

    /// Gives more bytes of the image. Each sector of the area that they fill is written. Where
    /// only changes are, it is compared with what the area holds, and written where it differs.
    /// Where the image would be longer than its area it is `TooBig`, and the disk is left alone.
    /// It is `TooBig` on a disk of any size.
    pub fn push<D: Disk>(
        &mut self,
        disk: &mut D,
        geometry: &Geometry,
        bytes: &[u8],
    ) -> Result<(), SnapshotFault>
        requires { is_idle self.old ≡ false }
        ensures pushes { PushesBytes geometry.now bytes.now result self.old self.new
            (D.medium disk.old) (D.medium disk.new) }
        ensures untouched { IsTrue (is_failed self.old) ⊎ (result ≡ Err SnapshotFault.TooBig)
            → disk.new ≡ disk.old }
        ensures too_few { is_failed self.old ≡ false
            → (D.medium disk.old).sectors < journal_place geometry.now
            → (disk.new ≡ disk.old) × ((result ≡ Err SnapshotFault.TooBig)
            ⊎ (result ≡ Err (SnapshotFault.Disk DiskFault.Range))) }
    {
        let SaveState::Begun(mut writer) = mem::replace(&mut self.state, SaveState::Failed) else {
            return Err(SnapshotFault::Failed);
        };
        writer.push(disk, geometry, bytes)?;
        self.state = SaveState::Begun(writer);
        Ok(())
    }

    /// Ends the image: stores its last sector with zeros after it, syncs, writes its head, and
    /// syncs.
    pub fn finish<D: Disk>(
        &mut self,
        disk: &mut D,
        geometry: &Geometry,
    ) -> Result<(), SnapshotFault>
        requires { CanEnd geometry.now self.old.state }
        ensures ends { (image : AreaWriter) → IsBegun self.old image
            → EndsImage geometry.now result image (D.medium disk.old) (D.medium disk.new) }
        ensures idle { OnOk result (IsTrue (is_idle self.new)) }
        ensures fails { StaysFailed result self.old self.new }
        ensures cause { IsErr result → IsTrue (is_failed self.old)
            ⊎ ((fault : DiskFault) × (result ≡ Err (SnapshotFault.Disk fault))) }
        ensures untouched { IsTrue (is_failed self.old) → disk.new ≡ disk.old }
        ensures too_few { is_failed self.old ≡ false
            → (D.medium disk.old).sectors < journal_place geometry.now
            → (disk.new ≡ disk.old) × (result ≡ Err (SnapshotFault.Disk DiskFault.Range)) }
    {
        let SaveState::Begun(writer) = mem::replace(&mut self.state, SaveState::Failed) else {
            return Err(SnapshotFault::Failed);
        };
        writer.finish(disk, geometry)?;
        self.state = SaveState::Idle;
        Ok(())
    }

    /// Begins an image, gives all of it, and ends it. Of its sectors it writes those that differ
    /// from what the area holds.
    pub fn commit<D: Disk>(
        &mut self,
        disk: &mut D,
        geometry: &Geometry,
        generation: u64,
        process_image: &[u8],
        version: u32,
    ) -> Result<(), SnapshotFault>
        ensures commits { CommitsImage geometry.now (record {
          generation = generation;
          version = version;
          writing = Changes;
          bytes = process_image.now;
        }) result self.old self.new (D.medium disk.old) (D.medium disk.new) }
        ensures untouched { IsTrue (is_failed self.old) ⊎ (result ≡ Err SnapshotFault.TooBig)
            → disk.new ≡ disk.old }
        ensures too_few { is_failed self.old ≡ false
            → (D.medium disk.old).sectors < journal_place geometry.now
            → (disk.new ≡ disk.old) × ((result ≡ Err SnapshotFault.TooBig)
            ⊎ (result ≡ Err (SnapshotFault.Disk DiskFault.Range))) }
    {
        self.begin(generation, version, Writing::Changes, None)?;
        self.push(disk, geometry, process_image)?;
        self.finish(disk, geometry)
    }

    /// Tests that no call has failed, and that the disk has so many sectors. Where it has fewer,
    /// this one has failed.
    fn test_disk<D: Disk>(&mut self, disk: &D, needed: u64) -> Result<(), SnapshotFault>
        ensures enough { OnOk result (needed ≤ (D.medium disk.now).sectors) }
        ensures same { OnOk result (self.new ≡ self.old) }
        ensures fails { StaysFailed result self.old self.new }
        ensures cause { IsErr result → IsTrue (is_failed self.old)
            ⊎ ((result ≡ Err (SnapshotFault.Disk DiskFault.Range))
            × ((D.medium disk.now).sectors < needed)) }
    {
        if self.is_failed() {
            return Err(SnapshotFault::Failed);
        }
        if let Err(fault) = test_sectors(disk, needed) {
            self.state = SaveState::Failed;
            return Err(SnapshotFault::Disk(fault));
        }
        Ok(())
    }

    fn is_failed(&self) -> bool
        ensures { result ≡ is_failed self.now }
    {
        matches!(self.state, SaveState::Failed)
    }
}

//! An image that is being written into its area, sector by sector.
ghost use Rattle.std.specs.Prelude.{◌≤◌, ◌<◌, ◌^◌};
ghost use Rattle.sector_disk.specs.declared.sector.TheConstants.{SECTOR_SIZE};

use crate::bytes::{pad, put};
use crate::fault::SnapshotFault;
use crate::hashed_image::HashedImage;
use crate::hashing::ImageHasher;
use crate::store::{store_sector, write_durably};
use crate::writing::Writing;
use disk_layout::{Geometry, Head, test_sectors};
use sector_disk::{Disk, DiskFault, SECTOR_SIZE};

/// The image's bytes so far lie in the first sectors of its area, and after them at the front of
/// `sector`.
#[derive(Drop)]
pub(crate) struct AreaWriter {
    pub(crate) generation: u64,
    pub(crate) version: u32,
    pub(crate) writing: Writing,
    /// How many sectors of the area are written.
    pub(crate) sectors: u64,
    /// How many bytes of `sector` are the image's.
    pub(crate) filled: usize,
    pub(crate) sector: [u8; SECTOR_SIZE],
    /// Of all bytes so far.
    pub(crate) hasher: ImageHasher,
    ghost few: { sectors ≤ 2 ^ 32 },
    ghost open: { filled < SECTOR_SIZE },
}

impl AreaWriter {
    ghost use Rattle.std.specs.Prelude.{◌≡◌, ◌⊎◌, ◌+◌, ◌-◌, List, ℕ, length, OnOk, IsErr};
    ghost use Rattle.sha2.specs.Sha256.{sha256};
    ghost use Rattle.sector_disk.specs.rules.DiskImage.{DiskImage};
    ghost use Rattle.sector_disk.specs.declared.fault.DiskFault.{DiskFault};
    ghost use Rattle.disk_layout.specs.rules.Places.{journal_place, rounded_up};
    ghost use Rattle.snapshot.specs.rules.Images.{part_behind, StoresSectors, PushesNext};
    ghost use Rattle.snapshot.specs.rules.Images.{PushesWithin, EndsImage, FailsInArea};
    ghost use Rattle.snapshot.specs.rules.Snapshots.{FitsArea};
    ghost use Rattle.snapshot.specs.rules.Steps.{HoldsWithZeros};
    ghost use Rattle.snapshot.specs.Writing.{written_length, Starts, IsGiven};
    ghost use Rattle.snapshot.specs.Hashing.{Hashes};

    /// Begins an image, which may be the known one again.
    pub(crate) fn new(
        generation: u64,
        version: u32,
        writing: Writing,
        known: Option<HashedImage>,
    ) -> AreaWriter
        ensures { Starts generation version writing result }
    {
        AreaWriter {
            generation,
            version,
            writing,
            sectors: 0,
            filled: 0,
            sector: [0; SECTOR_SIZE],
            hasher: ImageHasher::new(known),
        }
    }

    /// How many bytes it was given.
    fn length(&self) -> u64
        ensures length { result ≡ written_length self.now }
        ensures within { result ≤ 2 ^ 42 }
    {
        SECTOR_SIZE as u64 * self.sectors + self.filled as u64
    }

    /// Gives it more bytes of the image. Where they are more than the area holds, or the disk has
    /// too few sectors, no call of the disk is made.
    pub(crate) fn push<D: Disk>(
        &mut self,
        disk: &mut D,
        geometry: &Geometry,
        bytes: &[u8],
    ) -> Result<(), SnapshotFault>
        ensures pushes { PushesWithin geometry.now bytes.now result self.old self.new
            (D.medium disk.old) (D.medium disk.new) }
        ensures too_few { (D.medium disk.old).sectors < journal_place geometry.now
            → (disk.new ≡ disk.old) × ((result ≡ Err SnapshotFault.TooBig)
            ⊎ (result ≡ Err (SnapshotFault.Disk DiskFault.Range))) }
        ensures untouched { result ≡ Err SnapshotFault.TooBig → disk.new ≡ disk.old }
    {
        let total = self.length().saturating_add(bytes.len() as u64);
        if total > SECTOR_SIZE as u64 * u64::from(geometry.area_sectors) {
            return Err(SnapshotFault::TooBig);
        }
        test_sectors(disk, geometry.journal_place())?;
        let mut at = 0;
        while at < bytes.len() {
            let end = bytes.len().min(at + (SECTOR_SIZE - self.filled));
            self.take_in(disk, geometry, &bytes[at..end])?;
            at = end;
        }
        Ok(())
    }

    /// Takes bytes that its sector has room for, and stores it once it is full.
    fn take_in<D: Disk>(
        &mut self,
        disk: &mut D,
        geometry: &Geometry,
        bytes: &[u8],
    ) -> Result<(), SnapshotFault>
        requires few { self.old.filled + length bytes.now ≤ SECTOR_SIZE }
        requires room { self.old.sectors < geometry.now.area_sectors }
        requires small { geometry.now.area_sectors ≤ 2 ^ 32 }
        requires places { journal_place geometry.now ≤ (D.medium disk.old).sectors }
        ensures pushes { PushesNext geometry.now bytes.now result self.old self.new
            (D.medium disk.old) (D.medium disk.new) }
        ensures cause { IsErr result → (fault : DiskFault)
            × (result ≡ Err (SnapshotFault.Disk fault))
            × FailsInArea geometry.now self.old (D.medium disk.old) (D.medium disk.new) }
    {
        self.hasher.update(bytes);
        put(&mut self.sector, self.filled, bytes);
        let filled = self.filled + bytes.len();
        if filled < SECTOR_SIZE {
            self.filled = filled;
            return Ok(());
        }
        let at = geometry.area_place(self.generation) + self.sectors;
        store_sector(disk, at, &self.sector, self.writing)?;
        self.sectors += 1;
        self.filled = 0;
        Ok(())
    }

    /// Stores the sector that isn't full, with zeros after the image's last byte. A disk with too
    /// few sectors is left alone.
    fn store_last<D: Disk>(&self, disk: &mut D, geometry: &Geometry) -> Result<(), DiskFault>
        requires { FitsArea geometry.now self.now }
        ensures enough { OnOk result (journal_place geometry.now ≤ (D.medium disk.old).sectors) }
        ensures too_few { (D.medium disk.old).sectors < journal_place geometry.now
            → (disk.new ≡ disk.old) × (result ≡ Err DiskFault.Range) }
        ensures holds { OnOk result ((bytes : List ℕ) → IsGiven geometry.now (D.medium disk.old)
            self.now bytes → (image : DiskImage) → (D.medium disk.new).shows image → HoldsWithZeros
            geometry.now self.now.generation bytes image) }
        ensures stores { StoresSectors geometry.now
            (part_behind self.now (rounded_up (written_length self.now) - self.now.sectors)) result
            (D.medium disk.old) (D.medium disk.new) }
        ensures cause { IsErr result
            → ((D.medium disk.old).sectors < journal_place geometry.now)
            ⊎ FailsInArea geometry.now self.now (D.medium disk.old) (D.medium disk.new) }
    {
        test_sectors(disk, geometry.journal_place())?;
        if self.filled == 0 {
            return Ok(());
        }
        let last = pad(&self.sector, self.filled);
        store_sector(
            disk,
            geometry.area_place(self.generation) + self.sectors,
            &last,
            self.writing,
        )
    }

    /// The head of the image.
    fn head(self) -> Head
        ensures generation { result.generation ≡ self.generation }
        ensures version { result.version ≡ self.version }
        ensures digest { (bytes : List ℕ) → Hashes self.hasher bytes
            → result.digest ≡ sha256 bytes }
        ensures length { result.length_in_bytes ≡ written_length self }
        ensures small { (result.version < 2 ^ 32) × (result.length_in_bytes < 2 ^ 64)
            × (result.generation < 2 ^ 64) }
    {
        let length_in_bytes = self.length();
        let AreaWriter {
            generation,
            version,
            hasher,
            ..
        } = self;
        Head {
            version,
            length_in_bytes,
            digest: hasher.finalize(),
            generation,
        }
    }

    /// Stores the last sector, syncs, writes the head, and syncs. A disk with too few sectors is
    /// left alone.
    pub(crate) fn finish<D: Disk>(self, disk: &mut D, geometry: &Geometry) -> Result<(), DiskFault>
        requires { FitsArea geometry.now self }
        ensures ends { EndsImage geometry.now result self (D.medium disk.old) (D.medium disk.new) }
        ensures too_few { (D.medium disk.old).sectors < journal_place geometry.now
            → (disk.new ≡ disk.old) × (result ≡ Err DiskFault.Range) }
    {
        self.store_last(disk, geometry)?;
        let head = self.head();
        write_durably(disk, Geometry::head_place(head.generation), &head.sector())
    }
}

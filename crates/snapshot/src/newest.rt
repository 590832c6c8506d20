//! The newest complete head of a disk, and the image that it names.
ghost use Rattle.std.specs.Prelude.{◌≡◌, ◌+◌, ◌*◌, ◌<◌, ◌≤◌, ◌↔◌, ◌⊎◌, ◌^◌, ℕ, IfOk, IfErr, IsTrue};
ghost use Rattle.std.specs.Prelude.{length, take};
ghost use Rattle.sha2.specs.Sha256.{sha256};
ghost use Rattle.sector_disk.specs.declared.sector.TheConstants.{SECTOR_SIZE};
ghost use Rattle.sector_disk.specs.rules.DiskImage.{DiskImage, sector_at};
ghost use Rattle.sector_disk.specs.rules.Medium.{CallsUpTo};
ghost use Rattle.disk_layout.specs.rules.Places.{journal_place};
ghost use Rattle.disk_layout.specs.rules.Sectors.{bytes_from};
ghost use Rattle.disk_layout.specs.rules.Stored.{OnlyReads};
ghost use Rattle.snapshot.specs.rules.Heads.{FindsHead};
ghost use Rattle.snapshot.specs.Heads.{HeadIn};
ghost use Rattle.snapshot.specs.rules.Newest.{ReadsProcessImage};

use crate::fault::SnapshotFault;
use crate::hashed_image::HashedImage;
use disk_layout::{DIGEST_BYTES, Geometry, Head};
use sector_disk::{Disk, DiskFault, SECTOR_SIZE};
use sha2::{Digest, Sha256};
use std::alloc::Global;

/// What the newest complete head names.
#[derive(Debug, Drop)]
pub struct Snapshot {
    pub version: u32,
    pub generation: u64,
    pub process_image: HashedImage,
}

/// The newest complete head, if there is one.
pub(crate) fn newest_head<D: Disk>(disk: &mut D) -> Result<Option<Head>, DiskFault>
    requires { 3 ≤ (D.medium disk.old).sectors }
    ensures reads { OnlyReads (D.medium disk.old) (D.medium disk.new) }
    ensures finds { IfOk result (λ head. (image : DiskImage) → (D.medium disk.new).shows image
        → FindsHead image head) }
    ensures cause { (fault : DiskFault) → result ≡ Err fault
        → (D.medium disk.old).faults < (D.medium disk.new).faults }
    ensures asks { CallsUpTo 2 (D.medium disk.old) (D.medium disk.new) }
{
    let mut first = [0; SECTOR_SIZE];
    disk.read(1, &mut first)?;
    let mut second = [0; SECTOR_SIZE];
    disk.read(2, &mut second)?;
    Ok(newer_head(head_in(0, &first), head_in(1, &second)))
}

/// The head of this area, 0 or 1, if its sector is a complete one.
fn head_in(area: u64, sector: &[u8; SECTOR_SIZE]) -> Option<Head>
    ensures { HeadIn area sector.now result }
{
    if Head::is_complete(area, sector) {
        Some(Head::read(sector))
    } else {
        None
    }
}

fn newer_head(first: Option<Head>, second: Option<Head>) -> Option<Head>
    ensures { (image : DiskImage) → HeadIn 0 (sector_at image 1) first
        → HeadIn 1 (sector_at image 2) second → FindsHead image result }
{
    let Some(head) = first else {
        return second;
    };
    match second {
        Some(other) if head.generation < other.generation => Some(other),
        _ => Some(head),
    }
}

/// The image that a head names. Where the head's length is more than an area holds, no sector is
/// read.
pub(crate) fn read_process_image<D: Disk>(
    alloc: Global,
    disk: &mut D,
    geometry: &Geometry,
    head: &Head,
) -> Result<HashedImage, SnapshotFault>
    requires { journal_place geometry.now ≤ (D.medium disk.old).sectors }
    ensures reads { OnlyReads (D.medium disk.old) (D.medium disk.new) }
    ensures process_image { (image : DiskImage) → (D.medium disk.new).shows image
        → ReadsProcessImage geometry.now image head.now result }
    ensures own { result ≡ Err SnapshotFault.Failed → ⊥ }
    ensures cause { (fault : DiskFault) → result ≡ Err (SnapshotFault.Disk fault)
        → (D.medium disk.old).faults < (D.medium disk.new).faults }
    ensures asks { CallsUpTo geometry.now.area_sectors (D.medium disk.old) (D.medium disk.new) }
{
    let room = SECTOR_SIZE as u64 * u64::from(geometry.area_sectors);
    if head.length_in_bytes > room {
        return Err(SnapshotFault::Damaged);
    }
    let at = geometry.area_place(head.generation);
    let bytes = read_bytes(alloc, disk, at, head.length_in_bytes)?;
    if !is_digest_of(&head.digest, bytes.as_slice()) {
        return Err(SnapshotFault::Damaged);
    }
    Ok(HashedImage::new(bytes, head.digest))
}

fn is_digest_of(digest: &[u8; DIGEST_BYTES], bytes: &[u8]) -> bool
    ensures { IsTrue result ↔ (digest.now ≡ sha256 bytes.now) }
{
    Sha256::digest(bytes) == *digest
}

/// So many bytes from this sector on.
fn read_bytes<D: Disk>(
    alloc: Global,
    disk: &mut D,
    at: u64,
    len: u64,
) -> Result<Vec<u8>, SnapshotFault>
    requires small { len ≤ 2 ^ 60 }
    requires room { SECTOR_SIZE * at + len ≤ SECTOR_SIZE * (D.medium disk.old).sectors }
    ensures reads { OnlyReads (D.medium disk.old) (D.medium disk.new) }
    ensures bytes { IfOk result (λ v. (count : ℕ) → len ≤ SECTOR_SIZE * count → (image : DiskImage)
        → (D.medium disk.new).shows image → v.items ≡ take len (bytes_from image at count)) }
    ensures len { IfOk result (λ v. length v.items ≡ len) }
    ensures cause { (fault : DiskFault) → result ≡ Err (SnapshotFault.Disk fault)
        → (D.medium disk.old).faults < (D.medium disk.new).faults }
    ensures which_fault { IfErr result (λ e. e ≡ SnapshotFault.Memory
        ⊎ ((fault : DiskFault) × (e ≡ SnapshotFault.Disk fault))) }
    ensures asks { (count : ℕ) → len ≤ SECTOR_SIZE * count
        → CallsUpTo count (D.medium disk.old) (D.medium disk.new) }
{
    let mut bytes = Vec::new(alloc);
    let mut sector = [0; SECTOR_SIZE];
    for i in 0..len.div_ceil(SECTOR_SIZE as u64) {
        disk.read(at + i, &mut sector)?;
        bytes.extend_from_slice(&sector)?;
    }
    bytes.truncate(len as usize);
    Ok(bytes)
}

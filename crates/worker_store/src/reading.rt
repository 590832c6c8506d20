//! What is on a worker's disk, read back.

ghost use Rattle.std.specs.Prelude.{◌≡◌, ◌⊎◌, ◌+◌, ◌<◌, ◌≤◌, IfErr, IfOk};
ghost use Rattle.sector_disk.specs.declared.fault.DiskFault.{DiskFault};
ghost use Rattle.sector_disk.specs.rules.DiskImage.{DiskImage};
ghost use Rattle.sector_disk.specs.rules.Medium.{CallsUpTo};
ghost use Rattle.disk_layout.specs.rules.Places.{total_sectors};
ghost use Rattle.disk_layout.specs.rules.Stored.{OnlyReads};
ghost use Rattle.worker_store.specs.rules.AnyDisk.{TellsContents, TellsNewest, TellsRecords};
ghost use Rattle.worker_store.specs.rules.Readings.{ReadsContents, ReadsNewest, ReadsRecords};
ghost use Rattle.worker_store.specs.rules.Readings.{DeniesWorker, TellsMarks};
ghost use Rattle.worker_store.specs.rules.ReadFaults.{HasReadCause};
ghost use Rattle.worker_store.specs.Judging.{JudgesMark, JudgesScan};

use crate::newest::NewestProcessImage;
use crate::read_fault::ReadFault;
use disk_layout::{
    Contents, Damage, Geometry, LayoutFault, Record, read_contents, takes_records, test_sectors,
};
use journal::{Journal, ScannedJournal};
use sector_disk::{Disk, DiskFault};
use snapshot::{HashedImage, SnapshotFault, Snapshots};
use state_image::reading::is_marked_otherwise;
use std::alloc::Global;
use wasi_abi::Version;

/// The configuration and the module of the worker on a disk, and where its things lie. A disk
/// without one is a `Layout` fault.
pub fn read_worker<D: Disk>(alloc: Global, disk: &mut D) -> Result<Contents, ReadFault>
    ensures reads { OnlyReads (D.medium disk.old) (D.medium disk.new) }
    ensures gives { (image : DiskImage) → (D.medium disk.new).shows image
        → ReadsContents (D.medium disk.old).sectors image result }
    ensures marks { (image : DiskImage) → (D.medium disk.new).shows image
        → TellsMarks image result }
    ensures tells { (image : DiskImage) → (D.medium disk.new).shows image
        → TellsContents (D.medium disk.old).sectors image result }
    ensures room { IfOk result (λ c. total_sectors c.geometry ≤ (D.medium disk.old).sectors) }
    ensures cause { IfErr result (HasReadCause (D.medium disk.old) (D.medium disk.new)) }
    ensures asks { CallsUpTo (D.medium disk.old).sectors (D.medium disk.old) (D.medium disk.new) }
{
    match read_contents(alloc, disk) {
        Ok(contents) => Ok(contents),
        Err(fault) => Err(ReadFault::from(fault)),
    }
}

/// The newest image of the worker: what its newest complete head names. What is wrong is found in
/// this order:
///
/// - `Snapshot` with `Damaged` where no head is complete
/// - `Layout` with `Version` where the version of the newest one isn't known
/// - `Layout` with `ShortJournal` where the journal doesn't take the longest record of that version
/// - `Snapshot` with `Damaged` where the area doesn't hold the image that the head names
/// - `Layout` with `OtherMark` where the image has the mark of another version than the head
///
/// It never says that there is no worker. On a disk with too few sectors it answers `Range`, and
/// leaves it alone.
pub fn read_newest<D: Disk>(
    alloc: Global,
    disk: &mut D,
    geometry: &Geometry,
) -> Result<NewestProcessImage, ReadFault>
    ensures reads { OnlyReads (D.medium disk.old) (D.medium disk.new) }
    ensures tells { (image : DiskImage) → (D.medium disk.new).shows image
        → TellsNewest geometry.now image result }
    ensures finds { (image : DiskImage) → (D.medium disk.new).shows image
        → ReadsNewest geometry.now image result }
    ensures own { DeniesWorker result → ⊥ }
    ensures too_few { (D.medium disk.old).sectors < total_sectors geometry.now
        → (disk.new ≡ disk.old) × (result ≡ Err (ReadFault.Disk DiskFault.Range)) }
    ensures cause { IfErr result (λ e. ((D.medium disk.old).sectors < total_sectors geometry.now)
        ⊎ HasReadCause (D.medium disk.old) (D.medium disk.new) e) }
    ensures asks { CallsUpTo (geometry.now.area_sectors + 2) (D.medium disk.old)
        (D.medium disk.new) }
{
    if let Err(fault) = test_sectors(disk, geometry.total_sectors()) {
        return Err(ReadFault::Disk(fault));
    }
    let mut snapshots = Snapshots::new();
    let found = match snapshots.newest_head(disk) {
        Ok(found) => found,
        Err(fault) => return Err(ReadFault::from(fault)),
    };
    let Some(head) = found else {
        return Err(ReadFault::Snapshot(SnapshotFault::Damaged));
    };
    let Some(version) = head.known_version() else {
        return Err(ReadFault::Layout(LayoutFault::Version));
    };
    if !takes_records(version, geometry.journal_sectors) {
        return Err(ReadFault::Layout(LayoutFault::Damaged(Damage::ShortJournal)));
    }
    match snapshots.process_image_of(alloc, disk, geometry, &head) {
        Ok(process_image) => judge_mark(version, head.generation, process_image),
        Err(fault) => Err(ReadFault::from(fault)),
    }
}

/// The image of a head of this version, unless it has the mark of another one.
fn judge_mark(
    version: Version,
    generation: u64,
    process_image: HashedImage,
) -> Result<NewestProcessImage, ReadFault>
    ensures { JudgesMark version generation process_image result }
{
    if is_marked_otherwise(version, process_image.as_slice()) {
        let damage = Damage::OtherMark(generation % 2);
        return Err(ReadFault::Layout(LayoutFault::Damaged(damage)));
    }
    Ok(NewestProcessImage {
        version,
        generation,
        process_image,
    })
}

/// The records of a generation, in the order of their steps. They are read as those of this
/// version. Where the first sector of the journal shows a later generation, the head of that one is
/// lost: then it is `Layout` with `LaterGeneration`, no other sector is read, and no memory is
/// wanted. It never says that there is no worker. On a disk with too few sectors it answers
/// `Range`, and leaves it alone.
pub fn read_records<D: Disk>(
    alloc: Global,
    disk: &mut D,
    geometry: &Geometry,
    version: Version,
    generation: u64,
) -> Result<Vec<Record>, ReadFault>
    ensures reads { OnlyReads (D.medium disk.old) (D.medium disk.new) }
    ensures scans { (image : DiskImage) → (D.medium disk.new).shows image
        → ReadsRecords geometry.now version generation image result }
    ensures tells { (image : DiskImage) → (D.medium disk.new).shows image
        → TellsRecords geometry.now version generation image result }
    ensures once { (why : Damage) → result ≡ Err (ReadFault.Layout (LayoutFault.Damaged why))
        → (why ≡ Damage.LaterGeneration) × CallsUpTo 1 (D.medium disk.old) (D.medium disk.new) }
    ensures own { DeniesWorker result → ⊥ }
    ensures too_few { (D.medium disk.old).sectors < total_sectors geometry.now
        → (disk.new ≡ disk.old) × (result ≡ Err (ReadFault.Disk DiskFault.Range)) }
    ensures cause { IfErr result (λ e. ((D.medium disk.old).sectors < total_sectors geometry.now)
        ⊎ HasReadCause (D.medium disk.old) (D.medium disk.new) e) }
    ensures asks { CallsUpTo geometry.now.journal_sectors (D.medium disk.old) (D.medium disk.new) }
{
    match Journal::scan(alloc, disk, geometry, version, generation) {
        Ok(scanned) => judge_scan(scanned),
        Err(fault) => Err(ReadFault::from(fault)),
    }
}

/// The records, unless the journal shows a later generation.
fn judge_scan(scanned: ScannedJournal) -> Result<Vec<Record>, ReadFault>
    ensures { JudgesScan scanned result }
{
    let ScannedJournal {
        records,
        shows_later,
    } = scanned;
    if shows_later {
        return Err(ReadFault::Layout(LayoutFault::Damaged(Damage::LaterGeneration)));
    }
    Ok(records)
}

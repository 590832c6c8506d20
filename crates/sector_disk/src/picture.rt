//! A picture of a disk that another host may write meanwhile.
//!
//! # Choices
//!
//! - **What a file answers is all that is known of a disk that changes.** So a picture is said by
//!   the calls that were made of the file, and their answers (`IsPictured`): each sector once, in
//!   rising order, and then the first ones again, which gave the same. Nothing was written, and
//!   nothing synced.
//! - **Why that is enough for a worker's disk**: its first sectors are the super and the heads. As
//!   long as the heads stay, their worker writes neither the area that the newer one names, nor any
//!   sector of the journal twice, and it fills the journal in rising order. So the picture has that
//!   area whole, and of the journal at least what was there when the picture was begun. The digests
//!   tell of a sector that was read while it was written.

ghost use Rattle.std.specs.Prelude.{◌≡◌, ◌≤◌, ◌↔◌, ◌++◌, IfErr, IfOk, IsTrue, length, min};
ghost use Rattle.sector_disk.specs.rules.DiskImage.{IsDiskImage};
ghost use Rattle.sector_disk.specs.rules.File.{answers_of, file_medium};
ghost use Rattle.sector_disk.specs.rules.Memory.{memory_state_of};
ghost use Rattle.sector_disk.specs.rules.Pictures.{FailsToSee, IsPictured, reads_of};
ghost use Rattle.sector_disk.specs.Pictures.{GivesAgain};

use crate::{Disk, DiskFault, FileDisk, MemDisk, SECTOR_SIZE};
use std::alloc::Global;
use std::fs::OpenFile;
use std::os::unix::fs::FileExt;

/// Why there is no picture.
#[derive(Clone, Copy, Debug, PartialEq, Eq)]
pub enum PictureFault {
    /// A sector that was read again had changed.
    Changed,
    /// A read failed, or there is no memory.
    Disk(DiskFault),
}

/// Reads so many sectors, in rising order.
fn read_front<F: OpenFile + FileExt>(
    alloc: Global,
    disk: &mut FileDisk<F>,
    count: u64,
) -> Result<Vec<[u8; SECTOR_SIZE]>, DiskFault>
    requires { count ≤ (file_medium disk.old).sectors }
    ensures read { IfOk result (λ sectors. IsDiskImage count sectors.items
        × (answers_of disk.new ≡ reads_of count sectors.items ++ answers_of disk.old)) }
    ensures kept { (file_medium disk.new).sectors ≡ (file_medium disk.old).sectors }
    ensures failed { IfErr result (FailsToSee (answers_of disk.old) (answers_of disk.new)) }
{
    let mut sectors = Vec::new(alloc);
    for sector in 0..count {
        let mut bytes = [0; SECTOR_SIZE];
        if let Err(fault) = disk.read(sector, &mut bytes) {
            return Err(fault);
        }
        if sectors.push(bytes).is_err() {
            return Err(DiskFault::Memory);
        }
    }
    Ok(sectors)
}

fn are_same(sector: &[u8; SECTOR_SIZE], other: &[u8; SECTOR_SIZE]) -> bool
    ensures { IsTrue result ↔ (sector.now ≡ other.now) }
{
    sector == other
}

/// Whether the first sectors of a disk still give what they gave.
fn gives_again<F: OpenFile + FileExt>(
    disk: &mut FileDisk<F>,
    sectors: &[[u8; SECTOR_SIZE]],
) -> Result<bool, DiskFault>
    requires there { length sectors.now ≤ (file_medium disk.old).sectors }
    ensures again { IfOk result (λ same. GivesAgain same sectors.now (answers_of disk.old)
        (answers_of disk.new)) }
    ensures failed { IfErr result (FailsToSee (answers_of disk.old) (answers_of disk.new)) }
{
    for (sector, bytes) in sectors.iter().enumerate() {
        let mut now = [0; SECTOR_SIZE];
        if let Err(fault) = disk.read(sector as u64, &mut now) {
            return Err(fault);
        }
        if !are_same(&now, bytes) {
            return Ok(false);
        }
    }
    Ok(true)
}

/// Reads the first sectors of a disk, at most so many, and then the first `again` of them once
/// more. The picture is a disk in memory that shows what they gave. Where a sector has changed
/// meanwhile, it is `Changed`. Nothing is written or synced.
pub fn take_picture<F: OpenFile + FileExt>(
    alloc: Global,
    disk: &mut FileDisk<F>,
    most: u64,
    again: usize,
) -> Result<MemDisk, PictureFault>
    ensures pictured { IsPictured (min most (file_medium disk.old).sectors) again result
        (answers_of disk.old) (answers_of disk.new) }
{
    let count = most.min(disk.sectors());
    let sectors = match read_front(alloc, disk, count) {
        Ok(sectors) => sectors,
        Err(fault) => return Err(PictureFault::Disk(fault)),
    };
    let first = &sectors.as_slice()[..again.min(sectors.len())];
    match gives_again(disk, first) {
        Ok(true) => {}
        Ok(false) => return Err(PictureFault::Changed),
        Err(fault) => return Err(PictureFault::Disk(fault)),
    }
    match MemDisk::from_sectors(alloc, sectors, 0) {
        Ok(picture) => Ok(picture),
        Err(fault) => Err(PictureFault::Disk(fault)),
    }
}

//! Bytes of the layout, and stamps that are torn.

use crate::disks::is_all;
use crate::rows::assert_row;
use disk_layout::{
    Damage, Geometry, LayoutFault, Stamp, Stored, Super, digest_of, journal_sector, read_super,
    write_contents, write_super,
};
use sector_disk::{Disk, DiskFault, MemDisk};
use std::alloc::Global;

pub(crate) fn layout_fault(fault: DiskFault) -> LayoutFault {
    match fault {
        DiskFault::Memory => LayoutFault::Memory,
        fault => LayoutFault::Disk(fault),
    }
}

/// Writes a sector of generation 255 at place 3 and syncs it, and then writes one of generation
/// 256. Then the power is cut, which leaves this front of that.
fn cut_stamps(alloc: Global, disk: &mut MemDisk, front: u16) -> Result<MemDisk, DiskFault> {
    disk.write(0, &journal_sector(255, 3, b"old"))?;
    disk.sync()?;
    disk.write(0, &journal_sector(256, 3, b"new"))?;
    disk.cut(alloc, &[front])
}

/// The generation that the sector shows, and whether it is the new one.
fn shown_on<D: Disk>(disk: &mut D) -> Result<(u64, bool), DiskFault> {
    let mut sector = [0; 512];
    disk.read(0, &mut sector)?;
    Ok((
        Stamp::read(&sector).shown_at(3),
        sector == journal_sector(256, 3, b"new"),
    ))
}

fn torn_stamp(alloc: Global, front: u16) -> Result<(u64, bool), DiskFault> {
    let mut disk = MemDisk::new(alloc, 1, 2)?;
    let after_cut = cut_stamps(alloc, &mut disk, front);
    drop(disk);
    let mut after_cut = after_cut?;
    let shown = shown_on(&mut after_cut);
    drop(after_cut);
    shown
}

static STAMPS: [(u16, u64, bool); 7] = [
    (0, 255, false),
    (496, 255, false),
    (497, 0, false),
    (498, 256, true),
    (503, 256, true),
    (511, 256, true),
    (512, 256, true),
];

#[test]
fn a_torn_stamp_is_never_newer(rt: HostRuntime) -> Result<(), DiskFault> {
    for (front, shown, is_new) in &STAMPS {
        let is_so = torn_stamp(rt.alloc(), *front)? == (*shown, *is_new);
        assert_row(&rt, is_so, front);
    }
    Ok(())
}

/// One page, one unit of files, a journal of 64 sectors, and the argument `worker`.
pub(crate) const SPELLED: [u8; 28] =
    *b"\x01\0\0\0\x01\0\0\0\x40\0\0\0\x01\0\0\0\x06\0worker\0\0\0\0";

pub(crate) static WASM: [u8; 193] = [b'm'; 193];

pub(crate) const SECTORS: u64 = 4676;

pub(crate) const PLACES: Geometry = Geometry {
    config: 28,
    wasm: 193,
    module_sectors: 1,
    area_sectors: 2304,
    journal_sectors: 64,
};

/// Configuration length and sectors of the module, an area and the journal. Then the sectors of the
/// disk.
pub(crate) type Numbers = (u32, u32, u32, u32, u64);

/// Writes these bytes after the heads where there is room, and a super with these numbers and their
/// digest.
fn write_worker<D: Disk>(
    disk: &mut D,
    numbers: &Numbers,
    spelled: &[u8; 28],
) -> Result<(), DiskFault> {
    if disk.sectors() >= 4 {
        write_contents(disk, spelled, &WASM)?;
    }
    if disk.sectors() == 0 {
        return Ok(());
    }
    let geometry = Geometry {
        config: numbers.0,
        wasm: 193,
        module_sectors: numbers.1,
        area_sectors: numbers.2,
        journal_sectors: numbers.3,
    };
    let digest = digest_of(spelled, &WASM);
    write_super(disk, &Super { geometry, digest })
}

pub(crate) fn written_disk(
    alloc: Global,
    numbers: &Numbers,
    spelled: &[u8; 28],
) -> Result<MemDisk, LayoutFault> {
    let mut disk = MemDisk::new(alloc, numbers.4, 2).map_err(layout_fault)?;
    match write_worker(&mut disk, numbers, spelled) {
        Ok(()) => Ok(disk),
        Err(fault) => Err(layout_fault(fault)),
    }
}

/// Whether a sector has these bytes at its front, those at its end, and zeros between them.
pub(crate) fn is_laid_out(sector: &[u8; 512], front: &[u8], end: &[u8]) -> bool {
    let Some(rest) = sector.strip_prefix(front) else {
        return false;
    };
    let Some(between) = rest.strip_suffix(end) else {
        return false;
    };
    is_all(between, 0)
}

/// The mark, layout 1, 28 bytes of configuration and 193 of module in 1 sector, areas of 2304
/// sectors, a journal of 64, and the digest of configuration and module.
static SUPER: [u8; 64] = *b"DWORKER!\
    \x01\0\0\0\
    \x1c\0\0\0\
    \xc1\0\0\0\
    \x01\0\0\0\
    \0\x09\0\0\
    \x40\0\0\0\
    \x2d\x2f\xd2\x7d\xe3\x8a\x5b\x08\x6b\xb5\x3f\x29\x97\xcc\xe5\xe7\
    \x7c\xa2\x1b\xf8\xe0\x43\x7d\x79\xfe\x5d\x04\xda\xe9\x8a\x8d\x26";

pub(crate) fn has_super<D: Disk>(disk: &mut D) -> Result<bool, DiskFault> {
    let mut sector = [0; 512];
    disk.read(0, &mut sector)?;
    Ok(is_laid_out(&sector, &SUPER, b"!REKROWD"))
}

/// A module that with its configuration fills one sector to its end.
static FULL: [u8; 508] = [b'm'; 508];

const FULL_PLACES: Geometry = Geometry {
    config: 4,
    wasm: 508,
    module_sectors: 1,
    area_sectors: 2304,
    journal_sectors: 64,
};

fn write_full<D: Disk>(disk: &mut D) -> Result<(), DiskFault> {
    if disk.sectors() < 4 {
        return Err(DiskFault::Range);
    }
    write_contents(disk, b"conf", &FULL)?;
    let digest = digest_of(b"conf", &FULL);
    write_super(
        disk,
        &Super {
            geometry: FULL_PLACES,
            digest,
        },
    )
}

const OTHER_DIGEST: LayoutFault = LayoutFault::Damaged(Damage::ContentsDigest);

fn is_full(stored: &Stored) -> bool {
    stored.geometry == FULL_PLACES
        && stored.config.as_slice() == b"conf".as_slice()
        && stored.wasm.as_slice() == FULL.as_slice()
}

fn is_full_read<D: Disk>(alloc: Global, disk: &mut D) -> Result<bool, LayoutFault> {
    let stored = read_super(alloc, disk)?;
    let is_full = is_full(&stored);
    drop(stored);
    Ok(is_full)
}

/// Whether no super is read for this fault. Want of memory is another matter.
fn is_unread<D: Disk>(alloc: Global, disk: &mut D, want: LayoutFault) -> Result<bool, LayoutFault> {
    match read_super(alloc, disk).err() {
        Some(LayoutFault::Memory) => Err(LayoutFault::Memory),
        fault => Ok(fault == Some(want)),
    }
}

/// Whether a super is told that isn't written yet, and once what it leads to is another. In between
/// it leads to what was written.
fn is_super_told<D: Disk>(alloc: Global, disk: &mut D) -> Result<bool, LayoutFault> {
    let is_none = is_unread(alloc, disk, LayoutFault::NotAWorker)?;
    write_full(disk).map_err(layout_fault)?;
    let is_full = is_full_read(alloc, disk)?;
    disk.write(3, &[b'm'; 512]).map_err(layout_fault)?;
    Ok(is_none && is_full && is_unread(alloc, disk, OTHER_DIGEST)?)
}

/// The same on a disk of five sectors.
fn is_told_of_five(alloc: Global) -> Result<bool, LayoutFault> {
    let mut disk = MemDisk::new(alloc, 5, 4).map_err(layout_fault)?;
    let is_told = is_super_told(alloc, &mut disk);
    drop(disk);
    is_told
}

/// `scripts/runs/refused-allocations` refuses each allocation in turn, and then this ends out of
/// memory.
#[test]
fn a_super_leads_to_what_is_behind_it(rt: HostRuntime) -> Result<(), LayoutFault> {
    assert_row(&rt, is_told_of_five(rt.alloc())?, &"five sectors");
    Ok(())
}

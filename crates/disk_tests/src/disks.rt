//! Cuts, stops and failures of disks in memory.

use crate::rows::assert_row;
use sector_disk::{Disk, DiskFault, FaultDisk, FaultPoint, MemDisk, rewrite, store_run, write_run};
use std::alloc::Global;

/// How many bytes of 5, of 9 and of 3 a sector holds, one after another. Behind them are zeros.
pub(crate) type Parts = (usize, usize, usize);

pub(crate) const ZEROS: Parts = (0, 0, 0);

const OLD: Parts = (0, 0, 512);

const NINES: Parts = (0, 512, 0);

pub(crate) fn is_all(bytes: &[u8], byte: u8) -> bool {
    for other in bytes {
        if *other != byte {
            return false;
        }
    }
    true
}

/// Whether these bytes are so many times each byte, one after another, and then zeros.
pub(crate) fn is_made_of(bytes: &[u8], parts: &[(u8, usize)]) -> bool {
    let mut rest = bytes;
    for (byte, count) in parts {
        let Some((front, behind)) = rest.split_at_checked(*count) else {
            return false;
        };
        if !is_all(front, *byte) {
            return false;
        }
        rest = behind;
    }
    is_all(rest, 0)
}

pub(crate) fn holds<D: Disk>(disk: &mut D, sector: u64, parts: Parts) -> Result<bool, DiskFault> {
    let mut bytes = [0; 512];
    disk.read(sector, &mut bytes)?;
    Ok(is_made_of(&bytes, &[(5, parts.0), (9, parts.1), (3, parts.2)]))
}

/// Whether the four sectors hold this.
fn holds_all<D: Disk>(disk: &mut D, wants: &[Parts; 4]) -> Result<bool, DiskFault> {
    for (sector, parts) in wants.iter().enumerate() {
        if !holds(disk, sector as u64, *parts)? {
            return Ok(false);
        }
    }
    Ok(disk.sectors() == 4)
}

/// Turns a bit of a byte of a disk.
pub(crate) fn damage<D: Disk>(disk: &mut D, sector: u64, at: usize) -> Result<(), DiskFault> {
    let mut bytes = [0; 512];
    disk.read(sector, &mut bytes)?;
    if at >= 512 {
        return Err(DiskFault::Range);
    }
    bytes[at] ^= 1;
    disk.write(sector, &bytes)
}

fn store_old<D: Disk>(disk: &mut D) -> Result<(), DiskFault> {
    disk.write(1, &[3; 512])?;
    disk.sync()
}

/// Four sectors, of which number 1 is durable as OLD, with room for so many writes.
fn durable_disk(alloc: Global, room: usize) -> Result<MemDisk, DiskFault> {
    let mut disk = MemDisk::new(alloc, 4, room)?;
    match store_old(&mut disk) {
        Ok(()) => Ok(disk),
        Err(fault) => Err(fault),
    }
}

/// Whether a cut that keeps these fronts leaves this, with nothing unsynced.
fn cut_leaves(
    alloc: Global,
    disk: &MemDisk,
    tears: &[u16],
    wants: &[Parts; 4],
) -> Result<bool, DiskFault> {
    let mut after_cut = disk.cut(alloc, tears)?;
    let is_synced = after_cut.unsynced_count() == 0;
    let is_held = holds_all(&mut after_cut, wants);
    drop(after_cut);
    Ok(is_synced && is_held?)
}

/// What is left of sector 1 after these writes and a cut that keeps these fronts.
struct Cut {
    writes: &'static [u8],
    tears: &'static [u16],
    after_cut: Parts,
}

#[rattlefmt::skip]
static CUTS: [Cut; 13] = [
    Cut { writes: &[9], tears: &[0], after_cut: OLD },
    Cut { writes: &[9], tears: &[1], after_cut: (0, 1, 511) },
    Cut { writes: &[9], tears: &[511], after_cut: (0, 511, 1) },
    Cut { writes: &[9], tears: &[512], after_cut: NINES },
    Cut { writes: &[9], tears: &[513], after_cut: NINES },
    Cut { writes: &[9], tears: &[65535], after_cut: NINES },
    Cut { writes: &[9], tears: &[], after_cut: NINES },
    // Of the later write a front is left, and after it what is longer of the earlier one.
    Cut { writes: &[9, 5], tears: &[0, 0], after_cut: OLD },
    Cut { writes: &[9, 5], tears: &[512, 0], after_cut: NINES },
    Cut { writes: &[9, 5], tears: &[0, 512], after_cut: (512, 0, 0) },
    Cut { writes: &[9, 5], tears: &[100, 7], after_cut: (7, 93, 412) },
    Cut { writes: &[9, 5], tears: &[7, 100], after_cut: (100, 0, 412) },
    Cut { writes: &[9, 5], tears: &[511, 1], after_cut: (1, 510, 1) },
];

/// Writes to sector 1, each of which fills it with one byte, and cuts the power.
fn is_written_and_cut_so(alloc: Global, disk: &mut MemDisk, cut: &Cut) -> Result<bool, DiskFault> {
    for byte in cut.writes {
        disk.write(1, &[*byte; 512])?;
    }
    cut_leaves(
        alloc,
        disk,
        cut.tears,
        &[ZEROS, cut.after_cut, ZEROS, ZEROS],
    )
}

fn is_cut_so(alloc: Global, cut: &Cut) -> Result<bool, DiskFault> {
    let mut disk = durable_disk(alloc, 3)?;
    let is_so = is_written_and_cut_so(alloc, &mut disk, cut);
    drop(disk);
    is_so
}

#[test]
fn a_cut_keeps_of_each_write_the_front_that_is_named(rt: HostRuntime) -> Result<(), DiskFault> {
    for cut in &CUTS {
        assert_row(&rt, is_cut_so(rt.alloc(), cut)?, &cut.tears);
    }
    Ok(())
}

/// Whether a call does what it says, or its fault.
pub(crate) type Answer = Result<bool, DiskFault>;

pub(crate) const DONE: Answer = Ok(true);

/// What a disk is asked for.
pub(crate) enum Call {
    /// A sector, and what it holds.
    Read(u64, Parts),
    /// It fills its sector with one byte.
    Write(u64, u8),
    Sync,
    /// A run into sectors 2 and 3, which is synced or not.
    Run(bool),
    Rewrite,
}

static RUN: [[u8; 512]; 2] = [[9; 512], [5; 512]];

/// Puts the run into sectors 2 and 3.
fn put_run<D: Disk>(disk: &mut D, is_synced: bool) -> Answer {
    if disk.sectors() != 4 {
        return Ok(false);
    }
    if is_synced {
        store_run(disk, 2, &RUN)?;
    } else {
        write_run(disk, 2, &RUN)?;
    }
    DONE
}

fn answer<D: Disk>(disk: &mut D, call: &Call) -> Answer {
    match call {
        Call::Read(sector, parts) => return holds(disk, *sector, *parts),
        Call::Write(sector, byte) => disk.write(*sector, &[*byte; 512])?,
        Call::Sync => disk.sync()?,
        Call::Run(is_synced) => return put_run(disk, *is_synced),
        Call::Rewrite => rewrite(disk)?,
    }
    DONE
}

/// Calls of a disk in memory, their answers, and how many writes there are then since the last
/// sync.
static CALLS: [(Call, Answer, usize); 10] = [
    (Call::Read(3, ZEROS), DONE, 0),
    (Call::Read(4, ZEROS), Err(DiskFault::Range), 0),
    (Call::Write(4, 9), Err(DiskFault::Range), 0),
    (Call::Write(0, 9), DONE, 1),
    (Call::Write(1, 9), DONE, 2),
    (Call::Write(2, 9), DONE, 3),
    (Call::Write(3, 9), Err(DiskFault::Io), 3),
    (Call::Read(3, ZEROS), DONE, 3),
    (Call::Sync, DONE, 0),
    (Call::Write(3, 5), DONE, 1),
];

fn is_answered_so(disk: &mut MemDisk, call: &(Call, Answer, usize)) -> bool {
    answer(disk, &call.0) == call.1 && disk.unsynced_count() == call.2
}

#[test]
fn a_memory_disk_refuses_by_number_and_room(rt: HostRuntime) -> Result<(), DiskFault> {
    let mut disk = durable_disk(rt.alloc(), 3)?;
    for (place, call) in CALLS.iter().enumerate() {
        assert_row(&rt, is_answered_so(&mut disk, call), &place);
    }
    drop(disk);
    Ok(())
}

/// Whether each call is answered so, one after another.
pub(crate) fn answers_so<D: Disk>(disk: &mut D, calls: &[(Call, Answer)]) -> bool {
    for (call, want) in calls {
        if answer(disk, call) != *want {
            return false;
        }
    }
    true
}

#[test]
fn a_memory_disk_tells_want_of_memory(rt: HostRuntime) {
    // 2^59 bytes are more than a process can address.
    let made = MemDisk::new(rt.alloc(), 1 << 50, 1);
    let is_told = made.err() == Some(DiskFault::Memory);
    assert_row(&rt, is_told, &"too many sectors");
}

/// A disk that may stop at a call or fail one, what is seen of it, and what a cut then leaves.
struct Trouble {
    stop: Option<FaultPoint>,
    fail: Option<FaultPoint>,
    /// How many writes there is room for between two syncs.
    room: usize,
    calls: &'static [(Call, Answer)],
    /// How many reads, writes and syncs have begun.
    counts: (u64, u64, u64),
    has_torn_front: bool,
    /// How many writes the disk below has not made durable.
    unsynced: usize,
    /// What reads give.
    shown: [Parts; 4],
    tears: &'static [u16],
    after_cut: [Parts; 4],
}

fn is_seen_so<D: Disk>(disk: &mut FaultDisk<D>, trouble: &Trouble) -> bool {
    answers_so(disk, trouble.calls)
        && disk.calls() == trouble.counts
        && disk.has_torn_front() == trouble.has_torn_front
}

/// Whether the disk below and a cut of it give this.
fn is_left_so(alloc: Global, disk: &mut MemDisk, trouble: &Trouble) -> Result<bool, DiskFault> {
    Ok(
        disk.unsynced_count() == trouble.unsynced
            && holds_all(disk, &trouble.shown)?
            && cut_leaves(alloc, disk, trouble.tears, &trouble.after_cut)?,
    )
}

fn is_in_trouble_so(alloc: Global, trouble: &Trouble) -> Result<bool, DiskFault> {
    let disk = durable_disk(alloc, trouble.room)?;
    let mut disk = FaultDisk::new(disk, trouble.stop, trouble.fail);
    let is_seen = is_seen_so(&mut disk, trouble);
    let mut below = disk.into_inner();
    let is_left = is_left_so(alloc, &mut below, trouble);
    drop(below);
    Ok(is_seen && is_left?)
}

const NO_TROUBLE: Trouble = Trouble {
    stop: None,
    fail: None,
    room: 3,
    calls: &[],
    counts: (0, 2, 0),
    has_torn_front: false,
    unsynced: 2,
    shown: [ZEROS, OLD, NINES, ZEROS],
    tears: &[],
    after_cut: [ZEROS, OLD, ZEROS, ZEROS],
};

/// A write that fails, and another one.
const FAILED_WRITE: Trouble = Trouble {
    calls: &[
        (Call::Write(1, 9), Err(DiskFault::Io)),
        (Call::Write(2, 9), DONE),
    ],
    tears: &[512, 4],
    ..NO_TROUBLE
};

/// A stop in a write, and calls after it.
const STOPPED_WRITE: Trouble = Trouble {
    calls: &[
        (Call::Write(2, 9), DONE),
        (Call::Read(2, NINES), DONE),
        (Call::Write(1, 9), Err(DiskFault::Cut)),
        (Call::Write(0, 9), Err(DiskFault::Cut)),
        (Call::Sync, Err(DiskFault::Cut)),
        (Call::Read(2, ZEROS), Err(DiskFault::Cut)),
    ],
    counts: (2, 3, 1),
    has_torn_front: true,
    tears: &[0],
    ..NO_TROUBLE
};

#[rattlefmt::skip]
static TROUBLES: [Trouble; 12] = [
    // A failed sync makes nothing durable.
    Trouble { fail: Some(FaultPoint { call: 2, front: 0 }),
        calls: &[(Call::Write(1, 9), DONE), (Call::Sync, Err(DiskFault::Io))], counts: (0, 1, 1),
        unsynced: 1, shown: [ZEROS, NINES, ZEROS, ZEROS], tears: &[2],
        after_cut: [ZEROS, (0, 2, 510), ZEROS, ZEROS], ..NO_TROUBLE },
    // A failed write leaves its front and counts: the first number of the cut is its own.
    Trouble { fail: Some(FaultPoint { call: 1, front: 0 }), shown: [ZEROS, OLD, NINES, ZEROS],
        after_cut: [ZEROS, OLD, (0, 4, 0), ZEROS], ..FAILED_WRITE },
    Trouble { fail: Some(FaultPoint { call: 1, front: 5 }),
        shown: [ZEROS, (0, 5, 507), NINES, ZEROS],
        after_cut: [ZEROS, (0, 5, 507), (0, 4, 0), ZEROS], ..FAILED_WRITE },
    Trouble { fail: Some(FaultPoint { call: 1, front: 512 }), shown: [ZEROS, NINES, NINES, ZEROS],
        after_cut: [ZEROS, NINES, (0, 4, 0), ZEROS], ..FAILED_WRITE },
    Trouble { fail: Some(FaultPoint { call: 1, front: 600 }), shown: [ZEROS, NINES, NINES, ZEROS],
        after_cut: [ZEROS, NINES, (0, 4, 0), ZEROS], ..FAILED_WRITE },
    // A stop leaves its front and lasts.
    Trouble { stop: Some(FaultPoint { call: 3, front: 0 }), shown: [ZEROS, OLD, NINES, ZEROS],
        after_cut: [ZEROS, OLD, ZEROS, ZEROS], ..STOPPED_WRITE },
    Trouble { stop: Some(FaultPoint { call: 3, front: 7 }),
        shown: [ZEROS, (0, 7, 505), NINES, ZEROS], after_cut: [ZEROS, (0, 7, 505), ZEROS, ZEROS],
        ..STOPPED_WRITE },
    Trouble { stop: Some(FaultPoint { call: 3, front: 512 }), shown: [ZEROS, NINES, NINES, ZEROS],
        after_cut: [ZEROS, NINES, ZEROS, ZEROS], ..STOPPED_WRITE },
    // A write without room changes nothing.
    Trouble { calls: &[
        (Call::Write(0, 9), DONE), (Call::Write(1, 9), DONE), (Call::Write(2, 9), DONE),
        (Call::Write(3, 9), Err(DiskFault::Io)),
    ], counts: (0, 4, 0), unsynced: 3, shown: [NINES, NINES, NINES, ZEROS], after_cut: [
        NINES, NINES, NINES, ZEROS,
    ], ..NO_TROUBLE },
    // A run is durable after its sync.
    Trouble { calls: &[(Call::Run(true), DONE)], counts: (0, 2, 1), unsynced: 0,
        shown: [ZEROS, OLD, NINES, (512, 0, 0)], tears: &[7, 0],
        after_cut: [ZEROS, OLD, NINES, (512, 0, 0)], ..NO_TROUBLE },
    Trouble { calls: &[(Call::Run(false), DONE)], counts: (0, 2, 0), unsynced: 2,
        shown: [ZEROS, OLD, NINES, (512, 0, 0)], tears: &[7, 0],
        after_cut: [ZEROS, OLD, (0, 7, 0), ZEROS], ..NO_TROUBLE },
    // Sectors that are written back, one of them after an unsynced write, stay as they are, with a
    // write each and one sync.
    Trouble { room: 5, calls: &[(Call::Write(2, 9), DONE), (Call::Rewrite, DONE)],
        counts: (4, 5, 1), unsynced: 0, shown: [ZEROS, OLD, NINES, ZEROS],
        after_cut: [ZEROS, OLD, NINES, ZEROS], ..NO_TROUBLE },
];

#[test]
fn a_disk_in_trouble_leaves_fronts_and_syncs_nothing(rt: HostRuntime) -> Result<(), DiskFault> {
    for (place, trouble) in TROUBLES.iter().enumerate() {
        assert_row(&rt, is_in_trouble_so(rt.alloc(), trouble)?, &place);
    }
    Ok(())
}

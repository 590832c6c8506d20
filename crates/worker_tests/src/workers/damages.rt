//! Disks that are too small, blank or damaged.

use crate::guests::{ECHO, SECTORS, blank};
use crate::halt::Halt::{self, Recovery};
use crate::halt::NO_WORKER;
use crate::rows::assert_row;
use crate::workers::working::{FRESH, WorkerProgress, create, open};
use disk_layout::LayoutFault::Damaged;
use disk_layout::{Damage, LayoutFault};
use record_replay::ReplayFault;
use sector_disk::{Disk, DiskFault, FaultDisk, MemDisk};
use snapshot::SnapshotFault;
use state_image::restoring::RestoreFault;
use std::alloc::Global;
use worker::RecoverFault::Layout;
use worker::{RecoverFault, StoreFault, WorkFault};

/// A sector, a place in it, and the bytes from there on.
type Piece = (u64, usize, &'static [u8]);

/// What is changed on a fresh disk of `ECHO`, and what a recovery then says. Then its reads, writes
/// and syncs, where they are told.
type DamagedDisk = (
    &'static str,
    &'static [Piece],
    Result<WorkerProgress, Halt>,
    Option<(u64, u64, u64)>,
);

const VERSION: Halt = Recovery(Layout(LayoutFault::Version));

const TOO_SMALL: Halt = Recovery(Layout(LayoutFault::TooSmall));

const OTHER_MODULE_SECTORS: Halt = Recovery(Layout(Damaged(Damage::ModuleSectors)));

const OTHER_DIGEST: Halt = Recovery(Layout(Damaged(Damage::ContentsDigest)));

const OTHER_AREA_SECTORS: Halt = Recovery(Layout(Damaged(Damage::AreaSectors)));

const SHORT_JOURNAL: Halt = Recovery(Layout(Damaged(Damage::ShortJournal)));

const LATER_GENERATION: Halt = Recovery(Layout(Damaged(Damage::LaterGeneration)));

const SNAPSHOT: Halt = Recovery(RecoverFault::Snapshot(SnapshotFault::Damaged));

const TOO_BIG: Halt = Halt::Work(WorkFault::Store(StoreFault::TooBig));

const NO_IMAGE: Halt = Recovery(RecoverFault::ProcessImage(RestoreFault::NotAnImage));

const DIVERGED: Halt = Recovery(RecoverFault::Replay(ReplayFault::Diverged));

/// A creation on a disk with too few sectors.
const TOO_FEW: Halt = Halt::Work(WorkFault::Store(StoreFault::Layout(LayoutFault::TooSmall)));

/// The lengths and digests of the image of `ECHO` at its start, of all but its last byte, and of it
/// with a zero after it.
const WHOLE: &[u8] =
    b"\x13\x01\x01\0\0\0\0\0\x5a\xd2\xa2\xbb\x20\x89\x86\x55\x43\x12\x22\x98\x9d\xe2\xca\x89\xed\
    \x08\x24\x08\x5c\x16fxQ\xcc\xe4\xf7\x49\xd8\xd7\x91";

const SHORT: &[u8] =
    b"\x12\x01\x01\0\0\0\0\0\x77\x74\xf6\xf5\xde\x2b\xfe\x65\x15\x84\x26\xea\x30\xc7\xa5\x4a\xcd\
    \x02\xce\xc5\x2d\xb6\xf1\x20\x26\x08\xa1\xd6\x8e\x83\xdb\x83";

const LONG: &[u8] =
    b"\x14\x01\x01\0\0\0\0\0\xc1\x5c\xec\x9d\xe1\x99\x7d\x75\x78\xa9\x8d\xff\x46\xa0\x55\x05\x6a\
    \x64\x87\x07\x72\xde\x38\x97\x1a\x0e\xbb\xb9\xf3\x51\x13\x96";

/// A record of a time, at the step of the first request.
const TIME: &[u8] = b"\x13\0\x03\x06\0\0\0\0\0\0\0\x08\0\x01\0\0\0\0\0\0\0";

/// The same of a kind that there isn't, with a text.
const UNKNOWN: &[u8] = b"\x10\0\x06\x06\0\0\0\0\0\0\0\x05\0hello";

/// Generation 1 and place 1.
const STAMP: &[u8] = b"\x01\0\0\0\0\0\0\0\x01\0\0\0\0\0\0\0";

/// Generation 2 and place 1, and generation 2 and place 2.
const LATER: &[u8] = b"\x02\0\0\0\0\0\0\0\x01\0\0\0\0\0\0\0";

const LATER_BEHIND: &[u8] = b"\x02\0\0\0\0\0\0\0\x02\0\0\0\0\0\0\0";

/// A later generation in the first sector of the journal.
const LATER_JOURNAL: Piece = (JOURNAL, 496, LATER);

/// The length of an image of 1,179,923 bytes. An area has 1,179,648.
const TOO_LONG: Piece = (HEAD_1, 18, &[18]);

/// Where things lie on the disk of a worker of `ECHO`.
const SUPER: u64 = 0;

const HEAD_1: u64 = 2;

const MODULE: u64 = 3;

const AREA_1: u64 = 2_308;

const JOURNAL: u64 = 4_612;

#[rattlefmt::skip]
static DAMAGED_DISKS: [DamagedDisk; 32] = [
    ("nothing", &[], Ok(FRESH), None),
    ("the first mark", &[(SUPER, 0, &[0])], Err(NO_WORKER), None),
    ("the last mark", &[(SUPER, 511, &[0])], Err(NO_WORKER), None),
    ("another layout", &[(SUPER, 8, &[2])], Err(VERSION), None),
    ("a length that fits no configuration", &[(SUPER, 12, &[27])], Err(OTHER_DIGEST), None),
    ("another number of module sectors", &[(SUPER, 20, &[2])], Err(OTHER_MODULE_SECTORS), None),
    ("another length of the areas", &[(SUPER, 25, &[10])], Err(OTHER_AREA_SECTORS), None),
    ("another digest of the module", &[(SUPER, 32, &[0, 0])], Err(OTHER_DIGEST), None),
    ("another page limit", &[(MODULE, 0, &[2])], Err(OTHER_DIGEST), None),
    ("the last byte of the module", &[(MODULE, 220, &[1])], Err(OTHER_DIGEST), None),
    ("a version of the image that there isn't", &[(HEAD_1, 8, &[3])], Err(VERSION), None),
    ("such a version, and another byte of the image", &[(HEAD_1, 8, &[3]), (AREA_1, 190, &[1])],
        Err(VERSION), None),
    ("version 2 of the image, whose journal is too small for it", &[(HEAD_1, 8, &[2])],
        Err(SHORT_JOURNAL), None),
    ("version 2 with such a journal, and another byte of the image",
        &[(HEAD_1, 8, &[2]), (AREA_1, 190, &[1])], Err(SHORT_JOURNAL), None),
    ("no mark of a head", &[(HEAD_1, 0, &[0])], Err(SNAPSHOT), None),
    ("another place of a head", &[(HEAD_1, 504, &[2])], Err(SNAPSHOT), None),
    ("a generation of the other area", &[(HEAD_1, 496, &[2])], Err(SNAPSHOT), None),
    ("a length beyond the area", &[TOO_LONG], Err(SNAPSHOT), None),
    ("the last generation", &[(HEAD_1, 496, &[255, 255, 255, 255, 255, 255, 255, 127])],
        Err(TOO_BIG), None),
    ("another digest of the image", &[(HEAD_1, 24, &[0, 0])], Err(SNAPSHOT), None),
    ("a byte of memory in the image", &[(AREA_1, 190, &[1])], Err(SNAPSHOT), None),
    ("the length and digest of the image", &[(HEAD_1, 16, WHOLE)], Ok(FRESH), None),
    ("one byte of the image fewer", &[(HEAD_1, 16, SHORT)], Err(NO_IMAGE), None),
    ("one byte of the image more", &[(HEAD_1, 16, LONG)], Err(NO_IMAGE), None),
    ("a record that fits no question", &[(JOURNAL, 0, TIME), (JOURNAL, 496, STAMP)], Err(DIVERGED),
        None),
    ("a record of no kind", &[(JOURNAL, 0, UNKNOWN), (JOURNAL, 496, STAMP)], Ok(FRESH), None),
    ("the same without its stamp", &[(JOURNAL, 0, TIME)], Ok(FRESH), None),
    ("a later generation", &[LATER_JOURNAL], Err(LATER_GENERATION), None),
    ("a later generation of another place", &[(JOURNAL, 496, LATER_BEHIND)], Ok(FRESH), None),
    ("a later generation in the second sector", &[(JOURNAL + 1, 496, LATER_BEHIND)], Ok(FRESH),
        None),
    // The super, the contents and both heads are read, and nothing else.
    ("an image that isn't read", &[TOO_LONG], Err(SNAPSHOT), Some((4, 0, 1))),
    // All of the image is read, and one sector of the journal, which shows a later generation.
    ("the first sector of a journal", &[LATER_JOURNAL], Err(LATER_GENERATION),
        Some((4 + 129 + 1, 0, 1))),
];

/// A sector with these bytes from this place on.
fn with_bytes(sector: [u8; 512], place: usize, bytes: &[u8]) -> [u8; 512] {
    let mut sector = sector;
    for (into, byte) in sector.iter_mut().skip(place).zip(bytes) {
        *into = *byte;
    }
    sector
}

fn put_each(disk: &mut MemDisk, pieces: &[Piece]) -> Result<(), DiskFault> {
    let mut sector = [0; 512];
    for (number, place, bytes) in pieces {
        disk.read(*number, &mut sector)?;
        disk.write(*number, &with_bytes(sector, *place, bytes))?;
    }
    Ok(())
}

/// A disk with a fresh worker of `ECHO`.
fn created_disk(alloc: Global) -> Result<MemDisk, Halt> {
    let mut disk = blank(alloc, SECTORS)?;
    let worker = create(alloc, &mut disk, ECHO)?;
    drop(worker);
    Ok(disk)
}

/// What a recovery says, unless memory runs out.
fn says<D: Disk>(alloc: Global, disk: &mut D) -> Result<Result<WorkerProgress, Halt>, Halt> {
    match open(alloc, disk) {
        Err(Halt::Memory) => Err(Halt::Memory),
        opens => Ok(opens),
    }
}

/// Whether a recovery says so after the damage, with so many calls.
fn is_said_of(
    alloc: Global,
    disk: &mut FaultDisk<MemDisk>,
    damage: &DamagedDisk,
) -> Result<bool, Halt> {
    let opens = says(alloc, disk)?;
    let are_so_many = match damage.3 {
        Some(calls) => disk.calls() == calls,
        None => true,
    };
    Ok(opens == damage.2 && are_so_many)
}

fn is_told_so(alloc: Global, damage: &DamagedDisk) -> Result<bool, Halt> {
    let mut disk = created_disk(alloc)?;
    put_each(&mut disk, damage.1)?;
    let mut counting = FaultDisk::new(disk, None, None);
    let is_so = is_said_of(alloc, &mut counting, damage);
    drop(counting);
    is_so
}

/// Whether a recovery finds no worker on a disk of zeros.
fn is_blank_refused(alloc: Global) -> Result<bool, Halt> {
    let mut disk = blank(alloc, SECTORS)?;
    let opens = says(alloc, &mut disk);
    drop(disk);
    Ok(opens? == Err(NO_WORKER))
}

/// Whether a creation is refused for want of sectors, and writes nothing.
fn is_refused(alloc: Global, disk: &mut MemDisk) -> Result<bool, Halt> {
    match create(alloc, disk, ECHO) {
        Ok(worker) => {
            drop(worker);
            Ok(false)
        }
        Err(Halt::Memory) => Err(Halt::Memory),
        Err(halt) => Ok(halt == TOO_FEW && disk.unsynced_count() == 0),
    }
}

/// Whether a recovery is refused for want of sectors, once the super, the heads and the module of a
/// worker's disk are there.
fn shows_too_few(alloc: Global, disk: &mut MemDisk, whole: &mut MemDisk) -> Result<bool, Halt> {
    let mut bytes = [0; 512];
    for sector in SUPER..=MODULE {
        whole.read(sector, &mut bytes)?;
        disk.write(sector, &bytes)?;
    }
    Ok(says(alloc, disk)? == Err(TOO_SMALL))
}

/// Whether both are so on this disk.
fn shows_both(alloc: Global, disk: &mut MemDisk) -> Result<bool, Halt> {
    if !is_refused(alloc, disk)? {
        return Ok(false);
    }
    let mut whole = created_disk(alloc)?;
    let is_so = shows_too_few(alloc, disk, &mut whole);
    drop(whole);
    is_so
}

/// The same of a disk with one sector too few.
fn is_too_small(alloc: Global) -> Result<bool, Halt> {
    let mut disk = blank(alloc, SECTORS - 1)?;
    let is_so = shows_both(alloc, &mut disk);
    drop(disk);
    is_so
}

#[test]
fn other_disks_are_refused(rt: HostRuntime) -> Result<(), Halt> {
    for damage in &DAMAGED_DISKS {
        assert_row(&rt, is_told_so(rt.alloc(), damage)?, &damage.0);
    }
    assert_row(&rt, is_blank_refused(rt.alloc())?, &"a blank disk");
    assert_row(&rt, is_too_small(rt.alloc())?, &"a small disk");
    Ok(())
}

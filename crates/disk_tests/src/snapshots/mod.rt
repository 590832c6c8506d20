//! What is done with images in two areas (`cases`), and what a stop leaves.

mod cases;

use crate::disks::{damage, is_made_of};
use crate::layouts::is_laid_out;
use crate::rows::assert_row;
use disk_layout::{Geometry, Head};
use sector_disk::{Disk, DiskFault, FaultDisk, FaultPoint, MemDisk};
use snapshot::{Snapshot, SnapshotFault, Snapshots, Writing};
use std::alloc::Global;
use std::mem;

/// Area 0 lies from sector 4 on, area 1 from sector 7 on, and the journal from sector 10 on.
static GEOMETRY: Geometry = Geometry {
    config: 0,
    wasm: 1,
    module_sectors: 1,
    area_sectors: 3,
    journal_sectors: 2,
};

const SECTORS: usize = 12;

/// Two sectors and three sectors.
pub(crate) const SHORT: &[u8; 600] = &[7; 600];

pub(crate) const LONG: &[u8; 1400] = &[9; 1400];

fn snapshot_fault(fault: DiskFault) -> SnapshotFault {
    match fault {
        DiskFault::Memory => SnapshotFault::Memory,
        fault => SnapshotFault::Disk(fault),
    }
}

/// An empty disk of so many sectors that stops at a call, or fails one.
fn faulty_disk(
    alloc: Global,
    sectors: u64,
    stop: Option<FaultPoint>,
    fail: Option<FaultPoint>,
) -> Result<FaultDisk<MemDisk>, SnapshotFault> {
    match MemDisk::new(alloc, sectors, 20) {
        Ok(disk) => Ok(FaultDisk::new(disk, stop, fail)),
        Err(fault) => Err(snapshot_fault(fault)),
    }
}

pub(crate) type Answer = Result<(), SnapshotFault>;

pub(crate) const DONE: Answer = Ok(());

/// An image: its version, its generation, and its bytes.
pub(crate) type Image = (u32, u64, &'static [u8]);

const NONE: Image = (0, 0, &[]);

pub(crate) const OLD: Image = (1, 1, SHORT);

pub(crate) const NEW: Image = (1, 2, LONG);

fn commit<D: Disk>(
    snapshots: &mut Snapshots,
    disk: &mut D,
    version: u32,
    generation: u64,
    bytes: &[u8],
) -> Answer {
    snapshots.commit(disk, &GEOMETRY, generation, bytes, version)
}

/// The same of version 1 and generation 1, in two pieces.
fn commit_in_pieces<D: Disk>(
    snapshots: &mut Snapshots,
    disk: &mut D,
    first: &[u8],
    second: &[u8],
) -> Answer {
    snapshots.begin(1, 1, Writing::Changes, None)?;
    snapshots.push(disk, &GEOMETRY, first)?;
    snapshots.push(disk, &GEOMETRY, second)?;
    snapshots.finish(disk, &GEOMETRY)
}

fn read_newest<D: Disk>(alloc: Global, disk: &mut D) -> Result<Option<Snapshot>, SnapshotFault> {
    let mut snapshots = Snapshots::new();
    let newest = snapshots.newest(alloc, disk, &GEOMETRY);
    drop(snapshots);
    newest
}

fn is_image(found: &Option<Snapshot>, version: u32, generation: u64, bytes: &[u8]) -> bool {
    match found {
        Some(found) => {
            (found.version, found.generation) == (version, generation)
                && found.process_image.as_slice() == bytes
        }
        None => generation == 0,
    }
}

/// Whether the newest image is this one; generation 0 stands for none.
fn is_newest<D: Disk>(
    alloc: Global,
    disk: &mut D,
    version: u32,
    generation: u64,
    bytes: &[u8],
) -> Result<bool, SnapshotFault> {
    let found = read_newest(alloc, disk)?;
    let is_so = is_image(&found, version, generation, bytes);
    drop(found);
    Ok(is_so)
}

/// Whether no image is found for this fault. Want of memory is another matter.
fn is_failure<D: Disk>(
    alloc: Global,
    disk: &mut D,
    want: SnapshotFault,
) -> Result<bool, SnapshotFault> {
    match read_newest(alloc, disk).err() {
        Some(SnapshotFault::Memory) => Err(SnapshotFault::Memory),
        fault => Ok(fault == Some(want)),
    }
}

fn is_head_of_long(head: &Head) -> bool {
    (head.version, head.length_in_bytes, head.generation) == (1, 1400, 2)
        && head.digest.as_slice() == &LONG_HEAD[24..]
}

/// Whether the newest head is that of LONG, and leads to it.
fn leads_to_long<D: Disk>(
    alloc: Global,
    snapshots: &mut Snapshots,
    disk: &mut D,
) -> Result<bool, SnapshotFault> {
    let Some(head) = snapshots.newest_head(disk)? else {
        return Ok(false);
    };
    let process_image = snapshots.process_image_of(alloc, disk, &GEOMETRY, &head)?;
    let is_long = process_image.as_slice() == LONG.as_slice();
    drop(process_image);
    Ok(is_long && is_head_of_long(&head))
}

/// Writes a head of generation 1 over an image of so many bytes.
fn write_head<D: Disk>(disk: &mut D, length_in_bytes: u64) -> Result<(), SnapshotFault> {
    let head = Head {
        version: 1,
        length_in_bytes,
        digest: [0; 32],
        generation: 1,
    };
    disk.write(2, &head.sector())?;
    Ok(())
}

/// Whether a sector has so many of each byte, and then zeros.
fn holds<D: Disk>(disk: &mut D, sector: u64, parts: &[(u8, usize)]) -> Result<bool, SnapshotFault> {
    let mut bytes = [0; 512];
    disk.read(sector, &mut bytes)?;
    Ok(is_made_of(&bytes, parts))
}

/// Whether a sector has these bytes at its front, a stamp at its end, and zeros between them.
fn is_head<D: Disk>(
    disk: &mut D,
    sector: u64,
    front: &[u8; 56],
    stamp: &[u8; 16],
) -> Result<bool, SnapshotFault> {
    let mut bytes = [0; 512];
    disk.read(sector, &mut bytes)?;
    Ok(is_laid_out(&bytes, front, stamp))
}

/// How many bytes of LONG an image has, and whether its byte 600 is another. Then the calls of its
/// commit of generation 3 over LONG itself.
pub(crate) type Rewrite = (usize, bool, (u64, u64, u64));

/// The calls of the commits of LONG as generation 1 and SHORT as generation 2.
const BEFORE: (u64, u64, u64) = (5, 7, 4);

fn is_rewritten_so<D: Disk>(
    alloc: Global,
    snapshots: &mut Snapshots,
    disk: &mut FaultDisk<D>,
    row: &Rewrite,
) -> Result<bool, SnapshotFault> {
    let mut bytes = *LONG;
    if row.1 {
        bytes[600] = 1;
    }
    let Some(bytes) = bytes.get(..row.0) else {
        return Ok(false);
    };
    commit(snapshots, disk, 1, 3, bytes)?;
    let (reads, writes, syncs) = row.2;
    let calls = (
        reads.saturating_add(BEFORE.0),
        writes.saturating_add(BEFORE.1),
        syncs.saturating_add(BEFORE.2),
    );
    Ok(disk.calls() == calls && is_newest(alloc, disk, 1, 3, bytes)?)
}

fn read_all<D: Disk>(disk: &mut D, all: &mut [[u8; 512]; SECTORS]) -> Result<(), SnapshotFault> {
    for (sector, bytes) in all.iter_mut().enumerate() {
        disk.read(sector as u64, bytes)?;
    }
    Ok(())
}

fn clear<D: Disk>(disk: &mut D) -> Result<(), SnapshotFault> {
    for sector in 0..SECTORS {
        disk.write(sector as u64, &[0; 512])?;
    }
    Ok(())
}

/// A host that has done nothing yet takes the place of this one.
fn renew(snapshots: &mut Snapshots) {
    drop(mem::replace(snapshots, Snapshots::new()));
}

/// Whether LONG in two pieces, the first of this length, is written as LONG itself, each time by a
/// host that has done nothing yet.
fn is_same_in_pieces<D: Disk>(
    snapshots: &mut Snapshots,
    disk: &mut D,
    len: usize,
) -> Result<bool, SnapshotFault> {
    let Some((first, second)) = LONG.split_at_checked(len) else {
        return Ok(false);
    };
    let mut whole = [[0; 512]; SECTORS];
    let mut again = [[0; 512]; SECTORS];
    renew(snapshots);
    commit(snapshots, disk, 1, 1, LONG)?;
    read_all(disk, &mut whole)?;
    clear(disk)?;
    renew(snapshots);
    commit_in_pieces(snapshots, disk, first, second)?;
    read_all(disk, &mut again)?;
    Ok(again == whole)
}

/// The mark, version 1, 1400 bytes and their digest.
pub(crate) const LONG_HEAD: [u8; 56] = *b"DWAREA..\
    \x01\0\0\0\0\0\0\0\
    \x78\x05\0\0\0\0\0\0\
    \x90\x20\xf2\xba\x2e\x37\x45\xf6\x52\xc9\x49\x8c\xf3\x34\x43\x2f\
    \x7a\x02\x12\x7f\x2f\x43\x3d\x59\xdf\x58\x3a\x53\x65\xa0\x6c\xf2";

/// What is done with a disk, one after another, and what is seen of it.
pub(crate) enum Step {
    /// A commit, and its answer.
    Commit(Image, Answer),
    /// The beginning of an image of generation 3, and its answer.
    Begin(Answer),
    /// LONG in pieces, the first of this length, is written as LONG itself.
    Pieces(usize),
    Rewrite(Rewrite),
    /// A head of this length.
    Head(u64),
    /// A bit of a byte of a sector.
    Damage(u64, usize),
    Sync,
    /// The newest image, which a host finds that has done nothing yet.
    Newest(Image),
    /// It finds none.
    Fails(SnapshotFault),
    /// The newest head is that of LONG, and leads to it.
    LeadsToLong,
    /// A sector has so many of each byte, and then zeros.
    Holds(u64, &'static [(u8, usize)]),
    /// A sector has these bytes at its front, a stamp at its end, and zeros between them.
    IsHead(u64, &'static [u8; 56], &'static [u8; 16]),
    /// All reads, writes and syncs.
    Calls(u64, u64, u64),
    /// A host that has done nothing yet takes over.
    Anew,
}

fn is_step_so<D: Disk>(
    alloc: Global,
    snapshots: &mut Snapshots,
    disk: &mut FaultDisk<D>,
    step: &Step,
) -> Result<bool, SnapshotFault> {
    match step {
        Step::Commit((version, generation, bytes), answer) => {
            return Ok(commit(snapshots, disk, *version, *generation, *bytes) == *answer);
        }
        Step::Begin(answer) => {
            return Ok(snapshots.begin(3, 1, Writing::Changes, None) == *answer);
        }
        Step::Pieces(len) => return is_same_in_pieces(snapshots, disk, *len),
        Step::Rewrite(row) => return is_rewritten_so(alloc, snapshots, disk, row),
        Step::Head(length) => write_head(disk, *length)?,
        Step::Damage(sector, at) => damage(disk, *sector, *at)?,
        Step::Sync => disk.sync()?,
        Step::Newest((version, generation, bytes)) => {
            return is_newest(alloc, disk, *version, *generation, *bytes);
        }
        Step::Fails(fault) => return is_failure(alloc, disk, *fault),
        Step::LeadsToLong => return leads_to_long(alloc, snapshots, disk),
        Step::Holds(sector, parts) => return holds(disk, *sector, *parts),
        Step::IsHead(sector, front, stamp) => return is_head(disk, *sector, *front, *stamp),
        Step::Calls(reads, writes, syncs) => return Ok(disk.calls() == (*reads, *writes, *syncs)),
        Step::Anew => renew(snapshots),
    }
    Ok(true)
}

fn is_each_so<D: Disk>(
    alloc: Global,
    snapshots: &mut Snapshots,
    disk: &mut FaultDisk<D>,
    steps: &[Step],
) -> Result<bool, SnapshotFault> {
    for step in steps {
        if !is_step_so(alloc, snapshots, disk, step)? {
            return Ok(false);
        }
    }
    Ok(true)
}

/// Whether each step is so, for a host that has done nothing yet.
fn are_steps_so<D: Disk>(
    alloc: Global,
    disk: &mut FaultDisk<D>,
    steps: &[Step],
) -> Result<bool, SnapshotFault> {
    let mut snapshots = Snapshots::new();
    let are_so = is_each_so(alloc, &mut snapshots, disk, steps);
    drop(snapshots);
    are_so
}

static TEARS: [[u16; 3]; 3] = [[0, 0, 0], [512, 0, 300], [100, 512, 0]];

/// Whether a cut that keeps these fronts leaves this image.
fn leaves(
    alloc: Global,
    disk: &MemDisk,
    tears: &[u16],
    image: &Image,
) -> Result<bool, SnapshotFault> {
    let mut after_cut = disk.cut(alloc, tears).map_err(snapshot_fault)?;
    let is_left = is_newest(alloc, &mut after_cut, image.0, image.1, image.2);
    drop(after_cut);
    is_left
}

/// Whether each cut that keeps the last write as it was left leaves this image.
fn leaves_each_time(alloc: Global, disk: &MemDisk, image: &Image) -> Result<bool, SnapshotFault> {
    let torn = disk.unsynced_count().saturating_sub(1).min(3);
    for tears in &TEARS {
        if !leaves(alloc, disk, &tears[..torn], image)? {
            return Ok(false);
        }
    }
    Ok(true)
}

/// Whether the steps are so, and what is left where this is looked at.
pub(crate) fn is_so(
    alloc: Global,
    stop: Option<FaultPoint>,
    fail: Option<FaultPoint>,
    steps: &[Step],
    left: &Option<Image>,
) -> Result<bool, SnapshotFault> {
    let mut disk = faulty_disk(alloc, SECTORS as u64, stop, fail)?;
    let are_so = are_steps_so(alloc, &mut disk, steps);
    let below = disk.into_inner();
    let is_left_so = match left {
        Some(image) => leaves_each_time(alloc, &below, image),
        None => Ok(true),
    };
    drop(below);
    Ok(are_so? && is_left_so?)
}

/// Whether the steps are so on an empty disk that lacks the last sector of area 1.
pub(crate) fn is_small_so(alloc: Global, steps: &[Step]) -> Result<bool, SnapshotFault> {
    let mut disk = faulty_disk(alloc, 9, None, None)?;
    let are_so = are_steps_so(alloc, &mut disk, steps);
    drop(disk);
    are_so
}

pub(crate) const CUT: Answer = Err(SnapshotFault::Disk(DiskFault::Cut));

pub(crate) const FAILED: Answer = Err(SnapshotFault::Failed);

/// What two commits answer.
type Both = &'static [Step];

const NEITHER: Both = &[Step::Commit(OLD, CUT), Step::Commit(NEW, FAILED)];

const FIRST: Both = &[Step::Commit(OLD, DONE), Step::Commit(NEW, CUT)];

const BOTH: Both = &[Step::Commit(OLD, DONE), Step::Commit(NEW, DONE)];

/// A call at which a disk stops, and what the two commits answer. Then the newest image where the
/// call leaves a prefix of at most 504 bytes, and of more. With 505 bytes a head has its stamp.
type Stop = (u64, Both, Option<Image>, Option<Image>);

/// The first commit reads and writes two sectors, syncs, writes a head and syncs; the second one
/// does the same with three sectors.
static STOPS: [Stop; 17] = [
    (1, NEITHER, Some(NONE), Some(NONE)),
    (2, NEITHER, Some(NONE), Some(NONE)),
    (3, NEITHER, Some(NONE), Some(NONE)),
    (4, NEITHER, Some(NONE), Some(NONE)),
    (5, NEITHER, Some(NONE), Some(NONE)),
    (6, NEITHER, Some(NONE), Some(OLD)),
    (7, NEITHER, Some(OLD), Some(OLD)),
    (8, FIRST, Some(OLD), Some(OLD)),
    (9, FIRST, Some(OLD), Some(OLD)),
    (10, FIRST, Some(OLD), Some(OLD)),
    (11, FIRST, Some(OLD), Some(OLD)),
    (12, FIRST, Some(OLD), Some(OLD)),
    (13, FIRST, Some(OLD), Some(OLD)),
    (14, FIRST, Some(OLD), Some(OLD)),
    (15, FIRST, Some(OLD), Some(NEW)),
    (16, FIRST, Some(NEW), Some(NEW)),
    (17, BOTH, Some(NEW), Some(NEW)),
];

static FRONTS: [u16; 8] = [0, 1, 496, 497, 504, 505, 511, 512];

fn is_stopped_so(alloc: Global, stop: &Stop, front: u16) -> Result<bool, SnapshotFault> {
    let place = FaultPoint {
        call: stop.0,
        front,
    };
    let left = if front <= 504 { &stop.2 } else { &stop.3 };
    is_so(alloc, Some(place), None, stop.1, left)
}

#[test]
fn a_stop_leaves_the_old_snapshot_or_the_new_one(rt: HostRuntime) -> Result<(), SnapshotFault> {
    for stop in &STOPS {
        for front in &FRONTS {
            let is_so = is_stopped_so(rt.alloc(), stop, *front)?;
            assert_row(&rt, is_so, &(stop.0, *front));
        }
    }
    Ok(())
}

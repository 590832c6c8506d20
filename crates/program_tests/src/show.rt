//! What `show` prints of a worker's disk.

use crate::asking::{ECHO, config, hello};
use crate::check::bytes_of;
use crate::lines::Flushed;
use crate::rows::assert_row;
use command_words::{Printer, Status};
use disk_commands::{Worker, survey};
use record_replay::{AnswerList, LineList};
use sector_disk::{Disk, FaultDisk, FaultPoint, MemDisk};
use std::alloc::Global;
use std::test::Fail;

/// Sectors of the disk of a short module, and how many writes it has room for between two syncs.
pub(crate) const SECTORS: u64 = 4_676;

pub(crate) const WRITES: usize = 2_371;

/// A line on the output, or on the error output, and the status.
#[derive(Clone, Copy)]
pub(crate) struct Shown {
    pub out: &'static str,
    pub err: &'static str,
    pub status: Status,
}

/// Whether just that is shown of a disk, and flushed.
pub(crate) fn shows<D: Disk>(alloc: Global, disk: &mut D, shown: &Shown) -> bool {
    let mut out = Flushed::new(alloc);
    let mut err = Vec::new(alloc);
    let status = survey(
        alloc,
        disk,
        &mut Printer::new(&mut out, false),
        &mut Printer::new(&mut err, false),
    );
    let is_so = status == shown.status
        && out.out.as_slice() == shown.out.as_bytes()
        && err.as_slice() == shown.err.as_bytes();
    drop(out);
    drop(err);
    is_so
}

/// A disk of zeros, with room for the worker of a short module.
pub(crate) fn blank_disk(alloc: Global) -> Result<MemDisk, Fail> {
    match MemDisk::new(alloc, SECTORS, WRITES) {
        Ok(disk) => Ok(disk),
        Err(fault) => Err(Fail::from(fault)),
    }
}

/// A worker of a module on this disk.
pub(crate) fn create<D: Disk>(alloc: Global, disk: &mut D, texts: &[&str]) -> Result<Worker, Fail> {
    let wasm = bytes_of(alloc, texts)?;
    let config = config(alloc)?;
    match Worker::create(alloc, disk, wasm.as_slice(), &config) {
        Ok(worker) => Ok(worker),
        Err(fault) => Err(Fail::from(fault)),
    }
}

/// How far `echo` comes on its disk: so many steps on one request, saved then or not, and whether a
/// second life is opened. Then what is shown on the output.
type Course = (u64, bool, bool, &'static str);

/// Runs one slice on one request, and saves the process where that is wanted.
fn run<D: Disk>(
    alloc: Global,
    worker: &mut Worker,
    disk: &mut D,
    course: &Course,
) -> Result<(), Fail> {
    let mut answers = Vec::new(alloc);
    answers.push(hello(alloc)?)?;
    let mut source = AnswerList::new(answers);
    let mut told = LineList::new(alloc);
    match worker.slice(disk, course.0, &mut source, &mut told) {
        Ok(_now) => save(worker, disk, &mut told, course.1),
        Err(fault) => Err(Fail::from(fault)),
    }
}

fn save<D: Disk>(
    worker: &mut Worker,
    disk: &mut D,
    told: &mut LineList,
    is_saved: bool,
) -> Result<(), Fail> {
    if !is_saved {
        return Ok(());
    }
    match worker.checkpoint(disk, told) {
        Ok(()) => Ok(()),
        Err(fault) => Err(Fail::from(fault)),
    }
}

/// A first life of `echo`.
fn live<D: Disk>(alloc: Global, disk: &mut D, course: &Course) -> Result<(), Fail> {
    let mut worker = create(alloc, disk, &ECHO)?;
    let ran = run(alloc, &mut worker, disk, course);
    drop(worker);
    ran
}

fn recover<D: Disk>(alloc: Global, disk: &mut D, told: &mut LineList) -> Result<(), Fail> {
    match Worker::recover(alloc, disk, told) {
        Ok(worker) => {
            drop(worker);
            Ok(())
        }
        Err(fault) => Err(Fail::from(fault)),
    }
}

/// A second one, which does nothing, where that is wanted.
fn open_again<D: Disk>(alloc: Global, disk: &mut D, is_wanted: bool) -> Result<(), Fail> {
    if !is_wanted {
        return Ok(());
    }
    let mut told = LineList::new(alloc);
    let recovered = recover(alloc, disk, &mut told);
    drop(told);
    recovered
}

/// The disk of a worker of a short module as it was created.
pub(crate) fn fresh_disk(alloc: Global, texts: &[&str]) -> Result<MemDisk, Fail> {
    let mut disk = blank_disk(alloc)?;
    let worker = create(alloc, &mut disk, texts)?;
    drop(worker);
    Ok(disk)
}

/// The disk of `echo` after one slice, in which it has taken a request and told its line. Nothing
/// was saved since the creation.
pub(crate) fn after_one_slice(alloc: Global) -> Result<MemDisk, Fail> {
    let mut disk = blank_disk(alloc)?;
    live(alloc, &mut disk, &COURSES[1])?;
    Ok(disk)
}

/// Whether that is shown of the disk then, and the same once more.
fn lives_so(alloc: Global, disk: &mut MemDisk, course: &Course) -> Result<bool, Fail> {
    live(alloc, disk, course)?;
    open_again(alloc, disk, course.2)?;
    let shown = Shown {
        out: course.3,
        err: "",
        status: Status::Done,
    };
    Ok(shows(alloc, disk, &shown) && shows(alloc, disk, &shown))
}

/// The same of a disk of zeros.
fn is_shown(alloc: Global, course: &Course) -> Result<bool, Fail> {
    let mut disk = blank_disk(alloc)?;
    let is_so = lives_so(alloc, &mut disk, course);
    drop(disk);
    is_so
}

/// The request is taken in step 6, and its line is told in step 20. A record is after the snapshot
/// until the next one is taken.
#[rattlefmt::skip]
static COURSES: [Course; 5] = [
    (0, false, false, "generation 1 steps 0 answers 0 lines 0 records 0 version 1\n"),
    (20, false, false, "generation 1 steps 0 answers 0 lines 0 records 1 version 1\n"),
    (20, false, true, "generation 2 steps 6 answers 1 lines 0 records 0 version 1\n"),
    (20, true, false, "generation 2 steps 20 answers 1 lines 1 records 0 version 1\n"),
    (20, true, true, "generation 3 steps 20 answers 1 lines 1 records 0 version 1\n"),
];

#[test]
fn the_saved_process_is_shown(rt: HostRuntime) -> Result<(), Fail> {
    for course in &COURSES {
        assert_row(&rt, is_shown(rt.alloc(), course)?, &course.3);
    }
    Ok(())
}

/// Where a disk of zeros stops or fails, what is shown of it on the error output, and the status.
type Trouble = (Option<FaultPoint>, Option<FaultPoint>, &'static str, Status);

/// What is said of a disk of zeros.
const NO_WORKER: &str = "failed Y1 NotAWorker\n\
    no worker is on the disk: if create or save was cut off, call that again\n";

/// What is said of one that fails.
const FAILED: &str = "failed K2 Io\nthe disk has failed: see to its device\n";

#[rattlefmt::skip]
static TROUBLES: [Trouble; 4] = [
    (None, None, NO_WORKER, Status::Refused),
    (None, Some(FaultPoint { call: 1, front: 0 }), FAILED, Status::IoError),
    (Some(FaultPoint { call: 1, front: 0 }), None, "failed K3 Cut\n", Status::IoError),
    (Some(FaultPoint { call: 2, front: 0 }), None, "failed K3 Cut\n", Status::IoError),
];

fn is_told(alloc: Global, trouble: &Trouble) -> Result<bool, Fail> {
    let mut disk = FaultDisk::new(blank_disk(alloc)?, trouble.0, trouble.1);
    let shown = Shown {
        out: "",
        err: trouble.2,
        status: trouble.3,
    };
    let is_so = shows(alloc, &mut disk, &shown);
    drop(disk);
    Ok(is_so)
}

#[test]
fn a_disk_without_a_worker_is_refused(rt: HostRuntime) -> Result<(), Fail> {
    for trouble in &TROUBLES {
        assert_row(&rt, is_told(rt.alloc(), trouble)?, &trouble.2);
    }
    Ok(())
}

/// The status where the output, or the error output, has so much room.
fn status_in(alloc: Global, disk: &mut MemDisk, out: &mut [u8], err: &mut [u8]) -> Status {
    let mut out = Printer::new(out, false);
    let mut err = Printer::new(err, false);
    survey(alloc, disk, &mut out, &mut err)
}

/// Whether the disk of a fresh worker is shown, and not one of zeros; so much room, and the status.
/// The line has 59 bytes, and the fault with its second line 94.
static ROOMS: [(bool, usize, Status); 4] = [
    (true, 59, Status::Done),
    (true, 58, Status::Unwritten),
    (false, 94, Status::Refused),
    (false, 93, Status::Unwritten),
];

/// Whether that is so of this disk, with the room for what is printed of it and none for the other.
fn is_status_in(alloc: Global, disk: &mut MemDisk, row: &(bool, usize, Status)) -> bool {
    let mut room = [0u8; 128];
    match room.get_mut(..row.1) {
        Some(room) if row.0 => status_in(alloc, disk, room, &mut []) == row.2,
        Some(room) => status_in(alloc, disk, &mut [], room) == row.2,
        None => false,
    }
}

fn is_told_in(alloc: Global, row: &(bool, usize, Status)) -> Result<bool, Fail> {
    let mut disk = if row.0 {
        fresh_disk(alloc, &ECHO)?
    } else {
        blank_disk(alloc)?
    };
    let is_so = is_status_in(alloc, &mut disk, row);
    drop(disk);
    Ok(is_so)
}

#[test]
fn what_cant_be_printed_is_told(rt: HostRuntime) -> Result<(), Fail> {
    for row in &ROOMS {
        assert_row(&rt, is_told_in(rt.alloc(), row)?, row);
    }
    Ok(())
}

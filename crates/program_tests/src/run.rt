//! Workers that are run on disks: what they print, how many steps they take, and that each
//! allocation may be refused.

use crate::check::{BEFORE_CODE, EMPTY_BODY, HELLO};
use crate::lines::{NoClock, OUTSIDE};
use crate::rows::assert_row;
use crate::serving::{Unwatched, pace_of};
use crate::show::{SECTORS, WRITES, blank_disk, create, fresh_disk};
use command_words::{
    BufferedLines, LineOutlet, Prepared, Printer, RequestSource, Sizes, Status, Unprepared, prepare,
};
use disk_commands::{Drive, Pace, Worker, create_on, serve};
use record_replay::{AnswerList, LineList, Now};
use sector_disk::MemDisk;
use std::alloc::Global;
use std::io::Write;
use std::num::NonZeroU64;
use std::test::Fail;

/// Modules of one body each, without imports.
const UNREACHABLE: [&str; 2] = [BEFORE_CODE, "0a0501030000 0b"];

const EMPTY: [&str; 2] = [BEFORE_CODE, EMPTY_BODY];

/// The least i32 divided by -1, and its remainder.
const QUOTIENT: [&str; 2] = [BEFORE_CODE, "0a0e010c00 418080808078417f6d1a 0b"];

const REMAINDER: [&str; 2] = [BEFORE_CODE, "0a0e010c00 418080808078417f6f1a 0b"];

/// A load at 4,294,967,295 with offset 1.
const FAR_LOAD: [&str; 2] = [BEFORE_CODE, "0a0a010800 417f2802011a 0b"];

/// A function that calls itself. With 512 frames it traps.
const ENDLESS: [&str; 2] = [BEFORE_CODE, "0a0601040010000b"];

/// Its last words, with 32 of its frames.
const ENDLESS_WORDS: &str = "trapped stack exhausted\n\
    at function 0, opcode 0\nat function 0, opcode 0\nat function 0, opcode 0\n\
    at function 0, opcode 0\nat function 0, opcode 0\nat function 0, opcode 0\n\
    at function 0, opcode 0\nat function 0, opcode 0\nat function 0, opcode 0\n\
    at function 0, opcode 0\nat function 0, opcode 0\nat function 0, opcode 0\n\
    at function 0, opcode 0\nat function 0, opcode 0\nat function 0, opcode 0\n\
    at function 0, opcode 0\nat function 0, opcode 0\nat function 0, opcode 0\n\
    at function 0, opcode 0\nat function 0, opcode 0\nat function 0, opcode 0\n\
    at function 0, opcode 0\nat function 0, opcode 0\nat function 0, opcode 0\n\
    at function 0, opcode 0\nat function 0, opcode 0\nat function 0, opcode 0\n\
    at function 0, opcode 0\nat function 0, opcode 0\nat function 0, opcode 0\n\
    at function 0, opcode 0\nat function 0, opcode 0\n\
    and 480 more frames\n";

/// All of `hello`.
pub(crate) const HELLO_BYTES: [u8; 168] =
    *b"\0asm\x01\0\0\0\x01\x10\x03\x60\0\0\x60\x04\x7f\x7f\x7f\x7f\x01\x7f\x60\x01\x7f\0\x02\x46\
    \x02\x16wasi_snapshot_preview1\x08fd_write\0\x01\x16wasi_snapshot_preview1\x09proc_exit\0\x02\
    \x03\x02\x01\0\x05\x03\x01\0\x01\x07\x13\x02\x06_start\0\x02\x06memory\x02\0\x0a\x13\x01\x11\0\
    \x41\x01\x41\0\x41\x01\x41\x10\x10\0\x1a\x41\x07\x10\x01\x0b\x0b\x11\x01\0\x41\0\x0b\x0b\x08\0\
    \0\0\x03\0\0\0hi\n";

/// How a command ends that isn't done.
#[derive(Debug, Drop)]
pub(crate) enum Refused {
    Memory,
    Otherwise,
}

/// A source without lines.
fn empty_source(alloc: Global) -> RequestSource<BufferedLines<&'static [u8]>, NoClock> {
    let reader = BufferedLines::new(b"".as_slice());
    RequestSource::new(alloc, reader, NoClock, OUTSIDE, 0)
}

/// The status of a run of the worker on a disk, without request lines.
pub(crate) fn status_of<W: Write + Drop, E: Write + Drop>(
    alloc: Global,
    disk: &mut MemDisk,
    pace: Pace,
    outlet: &mut LineOutlet<W>,
    err: &mut Printer<E>,
) -> Status {
    let mut source = empty_source(alloc);
    let drive = Drive {
        alloc,
        pace,
        watcher: &Unwatched,
        disk: "a.disk",
    };
    let status = serve(alloc, disk, drive, &mut source, outlet, err);
    drop(source);
    status
}

/// Texts of a module, steps of a slice, and what is printed: lines, last words, and the status.
type Case = (
    &'static [&'static str],
    u64,
    &'static str,
    &'static str,
    Status,
);

#[rattlefmt::skip]
static PRINTED: [Case; 8] = [
    (&HELLO, 100_000, "1 o hi\n", "exited 7\n", Status::Done),
    (&HELLO, 1, "1 o hi\n", "exited 7\n", Status::Done),
    (&EMPTY, 1, "", "exited 0\n", Status::Done),
    (&UNREACHABLE, 100, "", "trapped unreachable\nat function 0, opcode 0\n", Status::Done),
    (&QUOTIENT, 2, "", "trapped integer overflow\nat function 0, opcode 2\n", Status::Done),
    (&REMAINDER, 100, "", "exited 0\n", Status::Done),
    (&FAR_LOAD, 100, "", "trapped out of bounds memory access\nat function 0, opcode 1\n",
        Status::Done),
    (&ENDLESS, 100, "", ENDLESS_WORDS, Status::Done),
];

/// Slices between two checkpoints.
const EVERY: u64 = 100;

/// Whether a run on this disk prints so.
fn prints_on(alloc: Global, disk: &mut MemDisk, pace: Pace, case: &Case) -> Result<bool, Fail> {
    let mut outlet = LineOutlet::new(alloc, Vec::new(alloc))?;
    let mut err = Vec::new(alloc);
    let status = status_of(
        alloc,
        disk,
        pace,
        &mut outlet,
        &mut Printer::new(&mut err, false),
    );
    let lines = outlet.writer().as_slice() == case.2.as_bytes();
    let is_so = lines && err.as_slice() == case.3.as_bytes() && status == case.4;
    drop(outlet);
    drop(err);
    Ok(is_so)
}

/// The same of a fresh worker.
fn prints_so(alloc: Global, case: &Case) -> Result<bool, Fail> {
    let pace = pace_of(case.1, EVERY, 1)?;
    let mut disk = fresh_disk(alloc, case.0)?;
    let is_so = prints_on(alloc, &mut disk, pace, case);
    drop(disk);
    is_so
}

#[test]
fn workers_print(rt: HostRuntime) -> Result<(), Fail> {
    for case in &PRINTED {
        assert_row(&rt, prints_so(rt.alloc(), case)?, case);
    }
    Ok(())
}

/// Runs a worker by slices of so many steps, until it ends.
fn run_to_end(
    worker: &mut Worker,
    disk: &mut MemDisk,
    fuel: u64,
    source: &mut AnswerList,
    outlet: &mut LineList,
) -> Result<(), Fail> {
    for _ in 0..10_000 {
        if let Now::Ended(_) = worker.slice(disk, fuel, source, outlet)? {
            break;
        }
    }
    Ok(())
}

/// The same, where nothing is answered.
fn run_alone(
    alloc: Global,
    worker: &mut Worker,
    disk: &mut MemDisk,
    fuel: u64,
) -> Result<(), Fail> {
    let mut source = AnswerList::new(Vec::new(alloc));
    let mut outlet = LineList::new(alloc);
    let ended = run_to_end(worker, disk, fuel, &mut source, &mut outlet);
    drop(source);
    drop(outlet);
    ended
}

/// What a worker of a module has in the end: its steps, and the number at 16.
fn end_of(alloc: Global, texts: &[&str], fuel: u64) -> Result<(u64, Option<u32>), Fail> {
    let mut disk = blank_disk(alloc)?;
    let end = end_on(alloc, &mut disk, texts, fuel);
    drop(disk);
    end
}

/// The same of a worker that is created on this disk.
fn end_on(
    alloc: Global,
    disk: &mut MemDisk,
    texts: &[&str],
    fuel: u64,
) -> Result<(u64, Option<u32>), Fail> {
    let mut worker = create(alloc, disk, texts)?;
    let ended = run_alone(alloc, &mut worker, disk, fuel);
    let steps = worker.process().steps();
    let number = worker.process().memory().load_u32(16, 0);
    drop(worker);
    ended?;
    Ok((steps, number))
}

/// The count of bytes that `hello` has `fd_write` put at 16.
#[test]
fn hello_has_its_count(rt: HostRuntime) -> Result<(), Fail> {
    let count = end_of(rt.alloc(), &HELLO, 100)?.1;
    assert_row(&rt, count == Some(3), &count);
    Ok(())
}

/// Texts of a module, and the steps that it takes.
type Steps = (&'static [&'static str], u64);

static STEPS: [Steps; 7] = [
    (&HELLO, 8),
    (&EMPTY, 0),
    (&UNREACHABLE, 1),
    (&QUOTIENT, 3),
    (&REMAINDER, 4),
    (&FAR_LOAD, 2),
    (&ENDLESS, 512),
];

fn takes_so(alloc: Global, row: &Steps, fuel: u64) -> Result<bool, Fail> {
    Ok(end_of(alloc, row.0, fuel)?.0 == row.1)
}

#[test]
fn workers_take_steps(rt: HostRuntime) -> Result<(), Fail> {
    for row in &STEPS {
        for fuel in [1, 3, 1_000] {
            assert_row(&rt, takes_so(rt.alloc(), row, fuel)?, &(row, fuel));
        }
    }
    Ok(())
}

/// The status of `hello` on its disk, in rooms for its line and its last words.
fn status_in(
    alloc: Global,
    disk: &mut MemDisk,
    pace: Pace,
    lines: &mut [u8],
    words: &mut [u8],
) -> Result<Status, Refused> {
    let Ok(mut outlet) = LineOutlet::new(alloc, lines) else {
        return Err(Refused::Memory);
    };
    let mut err = Printer::new(words, false);
    let status = status_of(alloc, disk, pace, &mut outlet, &mut err);
    drop(outlet);
    Ok(status)
}

/// What is said where memory is wanted: by a call, by a story, and by each layer of a recovery.
#[rattlefmt::skip]
static WANTS: [&[u8]; 10] = [
    b"failed N4 Memory\n\0", b"failed G1 Memory\n\0", b"failed Y5 Memory\n\0",
    b"failed B4 Memory\n\0", b"failed V5 Memory\n\0", b"failed L7 Memory\n\0",
    b"failed S4 Memory\n\0", b"failed I2 Memory\n\0", b"failed J4 Memory\n\0",
    b"failed Q2 Memory\n\0",
];

/// What a command has come to that isn't done, by its status and its words.
pub(crate) fn refused_by(status: Status, words: &[u8]) -> Refused {
    for want in &WANTS {
        if status == Status::OutOfMemory && words.starts_with(want) {
            return Refused::Memory;
        }
    }
    Refused::Otherwise
}

/// What the worker of `hello` is created with.
fn prepare_hello(alloc: Global) -> Result<Prepared, Refused> {
    let sizes = Sizes {
        pages: 1,
        files: 1,
        journal: 64,
    };
    match prepare(alloc, &HELLO_BYTES, sizes, &[], &[]) {
        Ok(prepared) => Ok(prepared),
        Err(Unprepared::Memory) => Err(Refused::Memory),
        Err(_) => Err(Refused::Otherwise),
    }
}

/// Creates the worker of `hello` on a disk, in rooms for what is told that take no memory.
fn create_hello(alloc: Global, disk: &mut MemDisk, prepared: &Prepared) -> Result<(), Refused> {
    let mut out = [0u8; 32];
    let mut err = [0u8; 32];
    let status = create_on(
        alloc,
        disk,
        &HELLO_BYTES,
        &prepared.config,
        &mut Printer::new(&mut out[..], false),
        &mut Printer::new(&mut err[..], false),
    );
    if status == Status::Done && out.starts_with(b"created 4676 sectors\n\0") {
        return Ok(());
    }
    if out[0] == 0 {
        return Err(refused_by(status, &err));
    }
    Err(Refused::Otherwise)
}

/// Slices of many steps.
fn long_slices() -> Option<Pace> {
    Some(Pace {
        fuel: NonZeroU64::new(100_000)?,
        every: NonZeroU64::new(EVERY)?,
        batch: NonZeroU64::MIN,
    })
}

/// Runs the worker of `hello` on its disk, in rooms for its line and its last words.
fn run_hello(alloc: Global, disk: &mut MemDisk) -> Result<(), Refused> {
    let Some(pace) = long_slices() else {
        return Err(Refused::Otherwise);
    };
    let mut lines = [0u8; 32];
    let mut words = [0u8; 32];
    let status = status_in(alloc, disk, pace, &mut lines, &mut words)?;
    if status == Status::Done
        && lines.starts_with(b"1 o hi\n\0")
        && words.starts_with(b"exited 7\n\0")
    {
        return Ok(());
    }
    Err(refused_by(status, &words))
}

/// A disk of zeros.
fn zeros(alloc: Global) -> Result<MemDisk, Refused> {
    match MemDisk::new(alloc, SECTORS, WRITES) {
        Ok(disk) => Ok(disk),
        Err(_) => Err(Refused::Memory),
    }
}

/// `scripts/runs/refused-allocations` refuses each allocation of the creation and of the whole run
/// in turn, and then it ends out of memory, by that name.
#[test]
fn whole_run(rt: HostRuntime) -> Result<(), Refused> {
    let mut disk = zeros(rt.alloc())?;
    let prepared = prepare_hello(rt.alloc())?;
    let created = create_hello(rt.alloc(), &mut disk, &prepared);
    drop(prepared);
    created?;
    run_hello(rt.alloc(), &mut disk)
}

/// The room for the line of `hello`, that for its last words, and its status then.
static ROOMS: [(usize, usize, Status); 3] = [
    (4, 32, Status::Unwritten),
    (32, 4, Status::Unwritten),
    (32, 32, Status::Done),
];

/// Whether a run on this disk ends so in so much room.
fn is_status_within(
    alloc: Global,
    disk: &mut MemDisk,
    pace: Pace,
    row: &(usize, usize, Status),
) -> bool {
    let mut lines = [0u8; 32];
    let mut words = [0u8; 32];
    let (Some(lines), Some(words)) = (lines.get_mut(..row.0), words.get_mut(..row.1)) else {
        return false;
    };
    match status_in(alloc, disk, pace, lines, words) {
        Ok(status) => status == row.2,
        Err(_) => false,
    }
}

/// The same of a fresh worker.
fn ends_so_within(alloc: Global, row: &(usize, usize, Status)) -> Result<bool, Fail> {
    let pace = pace_of(100, EVERY, 1)?;
    let mut disk = fresh_disk(alloc, &HELLO)?;
    let is_so = is_status_within(alloc, &mut disk, pace, row);
    drop(disk);
    Ok(is_so)
}

/// Lines that can't be printed, and last words that can't.
#[test]
fn output_without_room(rt: HostRuntime) -> Result<(), Fail> {
    for row in &ROOMS {
        assert_row(&rt, ends_so_within(rt.alloc(), row)?, row);
    }
    Ok(())
}

//! What `run` prints and tells of a worker on its disk, also where a person reads along.

use crate::asking::ECHO;
use crate::lines::{Flushed, NoClock, OUTSIDE};
use crate::rows::assert_row;
use crate::run::status_of;
use crate::show::{Shown, after_one_slice, fresh_disk, shows};
use command_words::{BufferedLines, LineOutlet, Printer, RequestSource, Status};
use disk_commands::{Drive, Pace, Watcher, Worker, serve};
use record_replay::Now;
use sector_disk::MemDisk;
use std::alloc::Global;
use std::io::Write;
use std::num::NonZeroU64;
use std::test::Fail;

/// Steps of a slice, and slices between two checkpoints.
const FUEL: u64 = 100;

const EVERY: u64 = 2;

/// The line of `echo`, which it prints in step 20.
const LINE: &[u8] = b"1 o hello\n";

/// Slices of so many steps, so many of them between two checkpoints, and so many lines that one
/// sync may serve.
pub(crate) fn pace_of(fuel: u64, every: u64, batch: u64) -> Result<Pace, Fail> {
    Ok(Pace {
        fuel: NonZeroU64::try_from(fuel)?,
        every: NonZeroU64::try_from(every)?,
        batch: NonZeroU64::try_from(batch)?,
    })
}

/// One who watches no run.
pub(crate) struct Unwatched;

impl Watcher for Unwatched {
    ghost use Rattle.std.specs.Prelude.{true};

    ghost is_notified = { λ _ _ _. true };

    fn tell(&self, _worker: &Worker, _now: Now) {}
}

/// The status of a run on the disk, if the worker's line was printed in it.
fn status_on<E: Write + Drop>(
    alloc: Global,
    disk: &mut MemDisk,
    err: &mut Printer<E>,
) -> Result<Option<Status>, Fail> {
    let pace = pace_of(FUEL, EVERY, 1)?;
    let mut outlet = LineOutlet::new(alloc, Vec::new(alloc))?;
    let status = status_of(alloc, disk, pace, &mut outlet, err);
    let is_printed = outlet.writer().as_slice() == LINE;
    drop(outlet);
    Ok(is_printed.then_some(status))
}

/// Whether the error output is a terminal, and what is told there.
type Told = (bool, &'static str);

/// The request of `echo` is taken in step 6, and nothing is kept after it. So that many steps are
/// replayed. The creation is generation 1.
static TOLD: [Told; 2] = [
    (
        true,
        "recovered generation 2 at step 6, replayed 6 steps, next request 2\nparked\n",
    ),
    (false, "parked\n"),
];

fn is_told_so(alloc: Global, row: &Told) -> Result<bool, Fail> {
    let mut disk = after_one_slice(alloc)?;
    let mut err = Flushed::new(alloc);
    let status = status_on(alloc, &mut disk, &mut Printer::new(&mut err, row.0));
    let is_told = err.out.as_slice() == row.1.as_bytes();
    drop(disk);
    drop(err);
    Ok(status? == Some(Status::Done) && is_told)
}

#[test]
fn a_person_is_told_of_a_recovery(rt: HostRuntime) -> Result<(), Fail> {
    for row in &TOLD {
        assert_row(&rt, is_told_so(rt.alloc(), row)?, row);
    }
    Ok(())
}

/// A line for a person that can't be printed stops no worker. Its last words can't be printed then.
#[test]
fn a_worker_runs_on_untold(rt: HostRuntime) -> Result<(), Fail> {
    let mut disk = after_one_slice(rt.alloc())?;
    let room: &mut [u8] = &mut [];
    let status = status_on(rt.alloc(), &mut disk, &mut Printer::new(room, true));
    drop(disk);
    let status = status?;
    assert_row(&rt, status == Some(Status::Unwritten), &status);
    Ok(())
}

/// The lines that one sync may serve in a run, its request lines, the lines that it prints, what it
/// tells, and its status.
type Run = (u64, &'static [u8], &'static [u8], &'static str, Status);

/// A line that was taken is dropped by its number. One that is ahead of its number ends the run.
#[rattlefmt::skip]
static ON_ONE_DISK: [Run; 3] = [
    (1, b"1 r a\n", b"1 o a\n", "parked\n", Status::Done),
    (1, b"1 r a\n2 r b\n", b"2 o b\n", "parked\n", Status::Done),
    (64, b"2 r b\n3 r c\n4 r d\n", b"3 o c\n4 o d\n", "parked\n", Status::Done),
];

static AHEAD: Run = (
    64,
    b"1 r hello\n1 r other\n3 r x\n",
    b"1 o hello\n",
    "refused request 3, wanted 2\n",
    Status::BadLine,
);

/// What is on the disk after these runs: each of them saves as it opens and as it ends.
const BEHIND: Shown = Shown {
    out: "generation 7 steps 93 answers 4 lines 4 records 0 version 1\n",
    err: "",
    status: Status::Done,
};

/// Whether a run on the disk does so.
fn runs_so(alloc: Global, disk: &mut MemDisk, run: &Run) -> Result<bool, Fail> {
    let drive = Drive {
        alloc,
        pace: pace_of(FUEL, EVERY, run.0)?,
        watcher: &Unwatched,
        disk: "a.disk",
    };
    let mut outlet = LineOutlet::new(alloc, Vec::new(alloc))?;
    let mut source = RequestSource::new(alloc, BufferedLines::new(run.1), NoClock, OUTSIDE, 0);
    let mut err = Vec::new(alloc);
    let status = serve(
        alloc,
        disk,
        drive,
        &mut source,
        &mut outlet,
        &mut Printer::new(&mut err, false),
    );
    drop(source);
    let lines = outlet.writer().as_slice() == run.2;
    let is_so = lines && err.as_slice() == run.3.as_bytes() && status == run.4;
    drop(outlet);
    drop(err);
    Ok(is_so)
}

#[test]
fn a_taken_line_is_dropped(rt: HostRuntime) -> Result<(), Fail> {
    let mut disk = fresh_disk(rt.alloc(), &ECHO)?;
    for run in &ON_ONE_DISK {
        assert_row(&rt, runs_so(rt.alloc(), &mut disk, run)?, run);
    }
    assert_row(&rt, shows(rt.alloc(), &mut disk, &BEHIND), &BEHIND.out);
    Ok(())
}

#[test]
fn a_line_ahead_is_refused(rt: HostRuntime) -> Result<(), Fail> {
    let mut disk = fresh_disk(rt.alloc(), &ECHO)?;
    let is_so = runs_so(rt.alloc(), &mut disk, &AHEAD);
    drop(disk);
    assert_row(&rt, is_so?, &AHEAD);
    Ok(())
}

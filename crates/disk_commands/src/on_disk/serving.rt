//! `wasmhost run` of a worker on a disk.
//!
//! # Promises
//!
//! - `serve`: what each status of a run of the worker on a disk says (`serves`), with whatever
//!   outlet it is lent. Where the worker was recovered, all that was done of the disk, the source
//!   and the outlet are the calls of one life, in order: slices of its fuel, or batches of so many
//!   lines, and checkpoints at its pace (`IsPaced`). The source begins after the requests that the
//!   worker has taken, and at the first word of the seed's stream of its generation, and takes
//!   texts as long as the worker's version has them (`source_behind`). It refuses no question,
//!   unless the error is its own (`AsksUnless`), or the waiting lines of a batch weren't told
//!   (`MayRefuse`). It refuses the outlet no line, unless the error is the outlet's (`HeedsOutlet`
//!   of `worker`). Where `err` is a terminal, its first line says how the worker was recovered
//!   (`recovered_line`), and one after `parked` which request comes next (`next_line`): that after
//!   those which the source of this life has handed out. `laws::lives_on_disk_go_on`: such calls
//!   are a life that goes on from all that was promised. The last words are those of what its last
//!   act has answered (`HasOutcome`). Behind `trapped` are lines of frames, and behind no other
//!   ones, with names of the module on the disk, which is read for them (`TellsFrames`). Where a
//!   call fails, lines wait only as its own clause says (`HasBrokenOff`). Where the disk shows no
//!   worker nothing is written or released. The status is `Unwritten` where the outlet has refused
//!   a line, and else only where a write of `err` has failed (`refusal`).
//!   `laws::unwritten_is_a_failed_write`: what that comes to where the lines are printed.
//!
//! # Choices
//!
//! - **`serve` takes a source, as it takes an outlet**, and lets it go on after the worker, so that
//!   no state of it is a premise. Of a reader that is borrowed by a source inside, nothing could be
//!   said at the end.
//! - **The worker's own lines go to whatever outlet `serve` is lent.** It says of each line whether
//!   it was taken. So `Unwritten` for one of them is the fault of a life, `Q3 Outlet` or `N3
//!   Outlet`. The program lends a `LineOutlet`, which has a `Printer` of its own. Two clauses meet
//!   there: `serve` answers `Unwritten` for what its outlet said, and a `LineOutlet` refuses only
//!   since a write has failed.
//! - **That no question was refused is said beside the life** (`AsksUnless`). The calls of a life
//!   have their exchanges only where the answers of the disk fit an image. What a reader's failure
//!   comes to is to be known of any disk.
//! - **A reason names the question that was refused** (`IsRefusedAmong`). For some number of random
//!   bytes there are always too few words left. So a reason that may be for any question says
//!   nothing.
//! - **What a failing call leaves is said by that call's own clause** (`HasBrokenOff`), and beside
//!   the life, as are refused questions. By what a checkpoint fails is said among the life's calls.
//!   A law says where no line can wait (`LeavesNoLine`). Of a generation at its end that is a
//!   condition: `disk_commands` can't name that fault of the store, and the line that it would need
//!   in `crates.txt` brings a thousand paths too many.

ghost use Rattle.std.specs.Prelude.{◌≡◌, ◌≢◌, ◌≤◌, true, IfOk, IsTrue, OnErr, OnOk, is_some};
ghost use Rattle.std.specs.Int.NonZero.{non_zero_u64_get};
ghost use Rattle.disk_layout.specs.rules.Places.{total_sectors};
ghost use Rattle.record_replay.specs.declared.slices.now.Now.TheVariants.{Spent};
ghost use Rattle.worker.specs.rules.Scenes.{scene};
ghost use Rattle.command_words.specs.FunctionNames.{lent_bytes};
ghost use Rattle.command_words.specs.rules.Printers.{IsPrinted, TellsPerson};
ghost use Rattle.disk_commands.specs.rules.DiskStatuses.{IsReportedOnDisk};
ghost use Rattle.disk_commands.specs.rules.Refusals.{HeedsRefusal};
ghost use Rattle.disk_commands.specs.rules.ServedOnDisk.{ServesOnDisk, disk_job, run_start};
ghost use Rattle.disk_commands.specs.rules.ServedOnDisk.{awaited_words, run_end, recovered_line};
ghost use Rattle.disk_commands.specs.rules.Watchings.{WatchesEnd};
ghost use Rattle.disk_commands.specs.Livings.{HasGoneOn, RunsOpen};

use crate::on_disk::ending::{following, say};
use crate::on_disk::fault::{OnDiskFault, say_life_fault};
use crate::on_disk::living::{Pace, live};
use crate::on_disk::showing::print_number;
use crate::on_disk::trap_frames::module_of_trapped;
use crate::on_disk::watching::Watcher;
use command_words::{LineFault, LineReader, Printer, ReadAhead, RealTime, RequestSource, Status};
use record_replay::{Now, Outlet, SliceFault};
use sector_disk::Disk;
use std::alloc::Global;
use std::io::{self, Write};
use wasm_syntax::ItemList;
use worker::{WorkFault, Worker};

/// A fault of the source is that of a request line, where there is one.
fn call_fault_of(fault: WorkFault, line: Option<LineFault>) -> OnDiskFault
    ensures { IsReportedOnDisk fault line result }
{
    match line {
        Some(line) if fault == WorkFault::Work(SliceFault::Source) => OnDiskFault::Line(line),
        _ => OnDiskFault::from(fault),
    }
}

/// How a worker on a disk is driven, who watches it, and which disk that is.
#[derive(Clone, Copy)]
pub struct Drive<'a, T> {
    pub alloc: Global,
    pub pace: Pace,
    pub watcher: &'a T,
    /// The path of its disk, which messages name.
    pub disk: &'a str,
}

/// Runs a worker that is open on its disk: request lines after those that it has taken, texts as
/// long as its version has them, random bytes of its generation.
fn go_on<D: Disk, R: LineReader + ReadAhead + Drop, C: RealTime + Drop, O: Outlet, T: Watcher>(
    worker: &mut Worker,
    disk: &mut D,
    pace: Pace,
    source: &mut RequestSource<R, C>,
    outlet: &mut O,
    watcher: &T,
) -> Result<Now, OnDiskFault>
    requires { total_sectors worker.old.store.geometry ≤ (D.medium disk.old).sectors }
    ensures gone { HasGoneOn D.medium O.takes (scene worker.old disk.old (disk_job
        (non_zero_u64_get pace.fuel) (non_zero_u64_get pace.every) (non_zero_u64_get pace.batch)
        (R.unread source.old.requests.reader) source.old.outside
        (R.has_failed source.old.requests.reader)) outlet.old) disk.new outlet.new
        (R.has_failed source.new.requests.reader) source.new.requests.taken result }
    ensures told { IfOk result (λ now. (now ≢ Spent)
        × IsTrue (T.is_notified watcher.now worker.new now)) }
{
    let version = worker.process().host().version();
    let taken = worker.process().requests();
    source.go_on_behind(version, taken, worker.generation());
    match live(worker, disk, pace, source, outlet, watcher) {
        Ok(now) => Ok(now),
        Err(fault) => Err(call_fault_of(fault, source.fault())),
    }
}

/// Writes the end of the line of a worker that is recovered: the number of the request that it
/// takes next, unless it has ended.
fn print_awaited<E: Write + Drop>(err: &mut Printer<E>, worker: &Worker) -> io::Result<()>
    ensures printed { OnOk result (IsPrinted err.old err.new
        (awaited_words (is_some worker.now.process.ended) worker.now.process.requests)) }
    ensures failed { OnErr result (err.new.failed ≡ true) }
{
    let process = worker.process();
    if process.reached_end().is_some() {
        return err.write_all(b" steps\n");
    }
    writeln!(
        err,
        " steps, next request {}",
        following(process.requests())
    )
}

/// Prints that a worker is recovered, how far it was replayed, and which request it takes next.
fn print_recovered<E: Write + Drop>(err: &mut Printer<E>, worker: &Worker) -> io::Result<()>
    ensures printed { OnOk result (IsPrinted err.old err.new (recovered_line worker.now)) }
    ensures failed { OnErr result (err.new.failed ≡ true) }
{
    print_number(err, "recovered generation ", worker.generation())?;
    print_number(err, " at step ", worker.process().steps())?;
    print_number(err, ", replayed ", worker.replayed())?;
    print_awaited(err, worker)
}

/// Tells a person that a worker is recovered. A worker runs on though this can't be printed.
pub(super) fn tell_recovered<E: Write + Drop>(err: &mut Printer<E>, worker: &Worker)
    ensures { TellsPerson (recovered_line worker.now) err.old err.new }
{
    if err.is_terminal() {
        let _ = print_recovered(err, worker);
    }
}

/// The bytes of a module, if there is one.
fn lent(module: &Option<ItemList<u8>>) -> Option<&[u8]>
    ensures { lent_bytes result ≡ module.now }
{
    match module {
        Some(module) => Some(module.as_slice()),
        None => None,
    }
}

/// An open worker goes on until it is over, and its last words are said, or why it doesn't go on.
/// A person is told first that it is recovered, and at the end which request comes next. The
/// watcher is told first where it is. Answers the exit status.
fn serve_open<D, R, C, O, E, T>(
    worker: &mut Worker,
    disk: &mut D,
    drive: Drive<'_, T>,
    source: &mut RequestSource<R, C>,
    outlet: &mut O,
    err: &mut Printer<E>,
) -> Status
where
    D: Disk,
    R: LineReader + ReadAhead + Drop,
    C: RealTime + Drop,
    O: Outlet,
    E: Write + Drop,
    T: Watcher,
    requires { total_sectors worker.old.store.geometry ≤ (D.medium disk.old).sectors }
    ensures serves { RunsOpen D.medium O.takes worker.old
        (run_start (disk_job (non_zero_u64_get drive.entry.pace.fuel)
        (non_zero_u64_get drive.entry.pace.every) (non_zero_u64_get drive.entry.pace.batch)
        (R.unread source.old.requests.reader) source.old.outside
        (R.has_failed source.old.requests.reader)) disk.old outlet.old err.old)
        (run_end disk.new outlet.new err.new (R.has_failed source.new.requests.reader)) result }
    ensures watched { WatchesEnd (T.is_notified drive.entry.watcher.now) err.new result }
{
    let Drive {
        alloc,
        pace,
        watcher,
        ..
    } = drive;
    let is_heard = err.is_terminal();
    tell_recovered(err, worker);
    watcher.tell(worker, Now::Spent);
    match go_on(worker, disk, pace, source, outlet, watcher) {
        Ok(now) => {
            let taken = source.requests().taken();
            let module = module_of_trapped(alloc, disk, worker);
            let status = say(err, is_heard, now, taken, worker, lent(&module));
            drop(module);
            status
        }
        Err(fault) => say_life_fault(err, fault),
    }
}

/// The worker on a disk goes on: it is recovered, and then runs slices at this pace until it is
/// over, with a checkpoint after the last one. Its lines go to the outlet, last words to `err`.
/// Where that is a terminal, a line before the first slice says how it was recovered, and one after
/// `parked` which request comes next. Of a worker that traps the frames are told, with names from
/// the module on its disk, which is read for them. The watcher is told where the worker is: before
/// the first slice, after each checkpoint, and at its end. Request lines that it has taken are
/// passed over. Their texts may be as long as its version has them. Random bytes are those of the
/// seed's stream of its generation. Answers the exit status: `Done` where the worker has ended,
/// trapped or waits at the end of the lines, `Refused` for a disk that shows no worker that can go
/// on and where a number is at its end, `IoError` where the disk, the reader or the clock fails,
/// `OutOfMemory`, `BadLine` for a refused request line, `Unwritten` where the outlet has refused a
/// line or a write has failed.
pub fn serve<D, R, C, O, E, T>(
    alloc: Global,
    disk: &mut D,
    drive: Drive<'_, T>,
    source: &mut RequestSource<R, C>,
    outlet: &mut O,
    err: &mut Printer<E>,
) -> Status
where
    D: Disk,
    R: LineReader + ReadAhead + Drop,
    C: RealTime + Drop,
    O: Outlet,
    E: Write + Drop,
    T: Watcher,
    ensures serves { ServesOnDisk D.medium O.takes
        (run_start (disk_job (non_zero_u64_get drive.entry.pace.fuel)
        (non_zero_u64_get drive.entry.pace.every) (non_zero_u64_get drive.entry.pace.batch)
        (R.unread source.old.requests.reader) source.old.outside
        (R.has_failed source.old.requests.reader)) disk.old outlet.old err.old)
        (run_end disk.new outlet.new err.new (R.has_failed source.new.requests.reader)) result }

    // The status is `Unwritten` just where the outlet has refused a line, or a write of `err` has
    // failed.
    ensures refusal { HeedsRefusal O.takes outlet.old outlet.new err.new result }

    // Where it is 0, the watcher was told of that end.
    ensures watched { WatchesEnd (T.is_notified drive.entry.watcher.now) err.new result }
{
    match Worker::recover(alloc, disk, outlet) {
        Ok(mut worker) => {
            let status = serve_open(&mut worker, disk, drive, source, outlet, err);
            worker.close();
            status
        }
        Err(fault) => say_life_fault(err, OnDiskFault::from(fault)),
    }
}

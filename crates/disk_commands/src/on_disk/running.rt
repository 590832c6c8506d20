//! `wasmhost run` and `wasmhost upgrade` of a disk in a file, as the words say.
//!
//! # Choices
//!
//! - **What the words of a command say is handed over whole**, and one function makes the job of a
//!   run of it (`job_of`). The program then has no number to pass, and each is in a clause.

ghost use Rattle.std.specs.Prelude.{◌≡◌, IfSome, IsTrue};
ghost use Rattle.std.specs.Int.NonZero.{non_zero_u64_get};
ghost use Rattle.std.specs.Io.Buffered.{reader_remaining};
ghost use Rattle.command_words.specs.rules.Commands.{run_said};
ghost use Rattle.command_words.specs.rules.Printers.{printers};
ghost use Rattle.disk_commands.specs.rules.ServedFiles.{IsJobOf, MayRun, RunsFile, RunsJob};
ghost use Rattle.disk_commands.specs.rules.ServedFiles.{ServesToEnd, UpgradesFile, job_given};
ghost use Rattle.disk_commands.specs.rules.ServedFiles.{known_system, named_metrics, named_status};
ghost use Rattle.disk_commands.specs.rules.ServedFiles.{run_input};
ghost use Rattle.disk_commands.specs.rules.SeedFiles.{IsSeedFrom, KnownSeedFiles};
ghost use Rattle.disk_commands.specs.rules.ServedOnDisk.{disk_job, run_start, outputs};
ghost use Rattle.disk_commands.specs.rules.StatusFiles.{MayWatch};

use crate::on_disk::counted_lines::CountedLines;
use crate::on_disk::disk_file::open_disk;
use crate::on_disk::leaving::report_input;
use crate::on_disk::living::Pace;
use crate::on_disk::seed_file::{SeedFiles, seed_for};
use crate::on_disk::serving::{Drive, serve};
use crate::on_disk::upgrading::{say_upgraded, upgrade_worker};
use crate::on_disk::watch_files::{WatchPaths, watch_files_of};
use crate::on_disk::watched_paths::WatchedPaths;
use crate::on_disk::watching::Watcher;
use command_words::{BufferedLines, Outside, Printer, RealTime, RequestSource, RunOrder, Status};
use record_replay::Outlet;
use sector_disk::{Disk, DiskFile, DiskFiles, FileDisk};
use std::alloc::Global;
use std::io::{BufReader, Read, Write};
use std::time::Clock;

/// What the system lends a run.
#[derive(Drop)]
pub struct System<'a, R, I: Read + Drop, C: RealTime + Drop> {
    /// Where the disk is, and the files that say where its worker is, and the clock by which these
    /// are written.
    pub files: &'a R,
    /// The lines of its input.
    pub lines: BufferedLines<BufReader<I>>,
    /// The machine's clock.
    pub clock: C,
}

/// What the words say of a run whose disk is open.
#[derive(Clone, Copy, Debug)]
pub(crate) struct RunJob<'a> {
    pub(crate) pace: Pace,
    pub(crate) outside: Outside,
    /// The files that say where the worker is.
    pub(crate) watched: WatchPaths<'a>,
}

/// What the words say of a run, with their seed. No other place takes a number of theirs.
fn job_of<'a>(order: &RunOrder<'a>, seed: [u8; 32]) -> RunJob<'a>
    ensures { (seeds : KnownSeedFiles)
        → IsSeedFrom seeds (run_said order.now).seed_file (run_said order.now).seed seed
        → IsJobOf seeds (run_said order.now) result }
{
    RunJob {
        pace: Pace {
            fuel: order.fuel,
            every: order.every,
            batch: order.batch,
        },
        outside: Outside {
            seed,
            clock: order.clock,
        },
        watched: WatchPaths {
            status: order.status,
            metrics: order.metrics,
            disk: order.disk,
        },
    }
}

/// The worker on a disk goes on, and then it is said what is left of its input. Answers the exit
/// status.
fn serve_to_end<D, I, C, O, E, T>(
    alloc: Global,
    disk: &mut D,
    drive: Drive<'_, T>,
    source: &mut RequestSource<BufferedLines<BufReader<I>>, C>,
    outlet: &mut O,
    err: &mut Printer<E>,
) -> Status
where
    D: Disk,
    I: Read + Drop,
    C: RealTime + Drop,
    O: Outlet,
    E: Write + Drop,
    T: Watcher,
    ensures { ServesToEnd D.medium O.takes drive.entry.disk.now
        (run_start (disk_job (non_zero_u64_get drive.entry.pace.fuel)
        (non_zero_u64_get drive.entry.pace.every) (non_zero_u64_get drive.entry.pace.batch)
        (reader_remaining I.remaining source.old.requests.reader.reader) source.old.outside
        source.old.requests.reader.has_failed) disk.old outlet.old err.old) disk.new
        (outputs outlet.new err.new) result }
{
    let path = drive.disk;
    let status = serve(alloc, disk, drive, source, outlet, err);
    report_input(source, path, status, err)
}

/// Does the job of a run on its disk: where files are named that say where the worker is, their
/// paths must be free, and the worker goes on. Answers the exit status.
fn run_job<D, R, I, C, O, E>(
    alloc: Global,
    disk: &mut D,
    job: RunJob<'_>,
    system: System<'_, R, I, C>,
    outlet: &mut O,
    err: &mut Printer<E>,
) -> Status
where
    D: Disk,
    R: WatchedPaths + Clock,
    I: Read + Drop,
    C: RealTime + Drop,
    O: Outlet,
    E: Write + Drop,
    requires status { IfSome (named_status job) (MayWatch (R.known system.files.now)) }
    requires metrics { IfSome (named_metrics job) (MayWatch (R.known system.files.now)) }
    ensures { RunsJob (R.has_found system.entry.files.now) D.medium O.takes job.entry
        (run_start (job_given job.entry (reader_remaining I.remaining system.entry.lines.reader)
        system.entry.lines.has_failed) disk.old outlet.old err.old) disk.new
        (outputs outlet.new err.new) result }
{
    let System {
        files,
        lines,
        clock,
    } = system;
    match watch_files_of(alloc, files, job.watched, err) {
        Ok(watcher) => {
            let drive = Drive {
                alloc,
                pace: job.pace,
                watcher: &watcher,
                disk: job.watched.disk,
            };
            let mut source = RequestSource::new(alloc, lines, clock, job.outside, 0);
            let status = serve_to_end(alloc, disk, drive, &mut source, outlet, err);
            drop(source);
            drop(watcher);
            status
        }
        Err(status) => status,
    }
}

/// `wasmhost run` of the disk in a file, as the words say: with their fuel, their pace, their seed
/// and their clock, or else the machine's. A seed that is none is told before the disk is opened.
/// That is written back where they ask for it. The files that they name to say where the worker is
/// must have free paths. Then the worker goes on, as `serve` says, and it is said what is left of
/// the input. Returns the exit status.
pub fn run_file<F, R, I, C, O, E>(
    alloc: Global,
    system: System<'_, R, I, C>,
    order: &RunOrder<'_>,
    outlet: &mut O,
    err: &mut Printer<E>,
) -> Status
where
    F: DiskFile,
    R: DiskFiles<File = F> + SeedFiles + WatchedPaths + Clock,
    I: Read + Drop,
    C: RealTime + Drop,
    O: Outlet,
    E: Write + Drop,
    requires { MayRun (R.known system.files.now) (run_said order.now) }
    ensures { RunsFile (known_system F.known (R.known system.entry.files.now)
        (R.has_found system.entry.files.now) (R.seeds system.entry.files.now)) O.takes
        (run_said order.now) (run_input (reader_remaining I.remaining system.entry.lines.reader)
        system.entry.lines.has_failed) (outputs outlet.old err.old) (outputs outlet.new err.new)
        result }
{
    let seed = match seed_for(alloc, system.files, order, err) {
        Ok(seed) => seed,
        Err(status) => return status,
    };
    let job = job_of(order, seed);
    let files = system.files;
    match open_disk(files, order.disk, order.rewrites, err) {
        Ok(mut disk) => {
            err.read_along(order.is_verbose);
            let status = run_job(alloc, &mut disk, job, system, outlet, err);
            files.close(disk);
            status
        }
        Err(status) => status,
    }
}

/// `wasmhost upgrade` of the disk in a file: it is opened, and not written back. Its worker comes
/// to version 2, as `upgrade_worker` says, and after its lines the outlet's writer gets the result.
/// Last it is said how many lines it took, where there are any. Returns the exit status.
pub fn upgrade_file<F: DiskFile, R: DiskFiles<File = F>, W: Write + Drop, E: Write + Drop>(
    alloc: Global,
    files: &R,
    path: &str,
    lines: &mut CountedLines<W>,
    err: &mut Printer<E>,
) -> Status
    requires path { IsTrue ((R.known files.now).may_write path.now) }
    requires told { lines.old.told ≡ 0 }
    ensures { UpgradesFile F.known (R.known files.now) path.now (printers lines.old.printer err.old)
        (printers lines.new.printer err.new) result }
{
    match open_disk(files, path, false, err) {
        Ok(mut disk) => {
            let upgraded = upgrade_worker(alloc, &mut disk, lines, err);
            files.close(disk);
            say_upgraded(upgraded, lines, err)
        }
        Err(status) => status,
    }
}

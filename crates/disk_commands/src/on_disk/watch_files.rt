//! The files of `--status` and `--metrics`, and when they are written.
//!
//! # Promises
//!
//! - `WatchFiles` is a watcher that replaces the files that are named. They say the same of one
//!   sighting: `spelled_status` its line, `spelled_metrics` its metrics, each to the byte. Between
//!   two slices that is the sighting of a worker that runs on (`due`), where a second has passed
//!   since the last one (`IsDue`). No clause says that a file gets its text:
//!   `scripts/runs/program-rows` and `scripts/runs/disk-rows` show that.
//! - `watch_files_of`: a file is only there where both of its paths were found free, and two share
//!   no path. Else it is said which one isn't, and why (`SaysUnwatchable`).
//!
//! # Choices
//!
//! - **The clock is read once between two slices**, for both files, and not at all where none is
//!   named.

ghost use Rattle.std.specs.Prelude.{◌≡◌, ◌↔◌, IfErr, IfOk, IfSome, IsSome, IsTrue, OnOk};
ghost use Rattle.command_words.specs.rules.Reports.{SaysLine};
ghost use Rattle.command_words.specs.declared.status.Status.TheVariants as exit;
ghost use Rattle.record_replay.specs.declared.slices.now.Now.TheVariants.{Spent};
ghost use Rattle.disk_commands.specs.rules.Metrics.{disk_label, metrics_text};
ghost use Rattle.disk_commands.specs.rules.StatusFiles.{IsWatchable, MayWatch, SaysUnwatchable};
ghost use Rattle.disk_commands.specs.rules.StatusFiles.{SaysUnwatched, SharePath, beside};
ghost use Rattle.disk_commands.specs.rules.StatusFiles.{path_named, shared_words};
ghost use Rattle.disk_commands.specs.rules.Watchings.{sighting_of, watch_line};
ghost use Rattle.disk_commands.specs.Watchings.{IsDue};

use crate::on_disk::metrics::{print_metrics, spell_label};
use crate::on_disk::opening::report_unread;
use crate::on_disk::sighting::{Sighting, WatchedState};
use crate::on_disk::status_file::{StatusFile, status_file_of};
use crate::on_disk::status_line::behind;
use crate::on_disk::watched_paths::WatchedPaths;
use crate::on_disk::watching::{Watcher, print_status};
use command_words::{Printer, Status, nanoseconds_of};
use record_replay::Now;
use std::alloc::Global;
use std::cell::Cell;
use std::io::{self, Error, ErrorKind, Write};
use std::time::Clock;
use worker::{Position, Worker};

/// Nanoseconds between two sightings of a worker that runs on.
const PAUSE: u64 = 1_000_000_000;

/// The paths of the files that say where a worker is, as far as they are named.
#[derive(Clone, Copy, Debug)]
pub struct WatchPaths<'a> {
    pub status: Option<&'a str>,
    pub metrics: Option<&'a str>,
    /// The path of the worker's disk, which is in its metrics.
    pub disk: &'a str,
}

/// The line of a worker that was seen so.
pub fn spelled_status(alloc: Global, seen: &Sighting) -> io::Result<Vec<u8>>
    ensures { IfOk result (λ line. line.items ≡ watch_line seen.now) }
{
    let mut out = Printer::new(Vec::new(alloc), false);
    print_status(&mut out, seen)?;
    Ok(out.into_writer())
}

/// The metrics of a worker that was seen so, with the label of its disk.
pub fn spelled_metrics(alloc: Global, label: &[u8], seen: &Sighting) -> io::Result<Vec<u8>>
    ensures { IfOk result (λ text. text.items ≡ metrics_text label.now seen.now) }
{
    let mut out = Printer::new(Vec::new(alloc), false);
    print_metrics(&mut out, label, seen)?;
    Ok(out.into_writer())
}

/// Whether a worker that runs on is told again, where the last time and now are in nanoseconds.
fn is_due(last: Option<u64>, now: u64) -> bool
    ensures { IsTrue result ↔ IsDue last now }
{
    match last {
        Some(last) => now < last || now - last >= PAUSE,
        None => true,
    }
}

/// A file of metrics, and the label of the worker's disk.
#[derive(Drop)]
struct MetricsFile<'a, R: WatchedPaths> {
    file: StatusFile<'a, R>,
    label: Vec<u8>,
}

/// The files of a run that say where its worker is, as far as they are named.
#[derive(Drop)]
pub struct WatchFiles<'a, R: WatchedPaths> {
    alloc: Global,
    files: &'a R,
    status: Option<StatusFile<'a, R>>,
    metrics: Option<MetricsFile<'a, R>>,
    /// When they were written last, in nanoseconds of the machine's clock that never goes back.
    last: Cell<Option<u64>>,
}

impl<R: WatchedPaths> WatchFiles<'_, R> {
    /// Whether one is named.
    fn has_some(&self) -> bool {
        self.status.is_some() || self.metrics.is_some()
    }

    /// Gives the status file the line of a worker that was seen so.
    fn write_status(&self, seen: &Sighting) {
        if let Some(file) = &self.status {
            if let Ok(line) = spelled_status(self.alloc, seen) {
                let _ = file.replace(line.as_slice());
            }
        }
    }

    /// Gives the file of metrics those of a worker that was seen so.
    fn write_metrics(&self, seen: &Sighting) {
        if let Some(metrics) = &self.metrics {
            if let Ok(text) = spelled_metrics(self.alloc, metrics.label.as_slice(), seen) {
                let _ = metrics.file.replace(text.as_slice());
            }
        }
    }
}

impl<R: WatchedPaths + Clock> WatchFiles<'_, R> {
    /// The time in nanoseconds, where the clock can be read.
    fn time(&self) -> Option<u64> {
        match self.files.monotonic() {
            Ok(time) => Some(nanoseconds_of(time)),
            Err(_) => None,
        }
    }

    /// Where a worker is that runs on, where that is due.
    fn due(&self, worker: &Worker) -> Option<Sighting>
        ensures { IfSome result (λ seen. seen ≡ sighting_of worker.now Spent) }
    {
        if !self.has_some() || !is_due(self.last.get(), self.time()?) {
            return None;
        }
        Some(Sighting::of(worker, Now::Spent))
    }

    /// Writes what was seen, and notes when.
    fn write(&self, seen: &Sighting) {
        if self.has_some() {
            self.last.set(self.time());
            self.write_status(seen);
            self.write_metrics(seen);
        }
    }
}

// Of files no more is known than what they answer.
impl<R: WatchedPaths + Clock> Watcher for WatchFiles<'_, R> {
    ghost use Rattle.std.specs.Prelude.{true};

    ghost is_notified = { λ _ _ _. true };

    fn tell(&self, worker: &Worker, now: Now) {
        self.write(&Sighting::of(worker, now));
    }

    fn tell_running(&self, worker: &Worker) {
        if let Some(seen) = self.due(worker) {
            self.write(&seen);
        }
    }

    fn tell_waiting(&self, position: Position) {
        self.write(&Sighting {
            position,
            state: WatchedState::Waiting,
        });
    }

    fn is_watching(&self) -> bool {
        self.has_some()
    }
}

/// The file of metrics of a path, with the label of a disk. Where a path isn't free it is said, as
/// of a status file, and the error is the exit status.
fn metrics_file_of<'a, R: WatchedPaths, E: Write + Drop>(
    alloc: Global,
    files: &'a R,
    path: Option<&'a str>,
    disk: &str,
    err: &mut Printer<E>,
) -> Result<Option<MetricsFile<'a, R>>, Status>
    requires { IfSome (path_named path) (MayWatch (R.known files.now)) }
    ensures named { IfOk result (λ file. IsSome file ↔ IsSome path.entry) }
    ensures free { IfSome path.entry (λ text. OnOk result (IsWatchable
        (R.has_found files.entry.now) (R.known files.entry.now).removed text.now)) }
    ensures label { IfOk result (λ file. IfSome file (λ metrics.
        metrics.label.items ≡ disk_label disk.now)) }
    ensures quiet { OnOk result (err.new ≡ err.old) }
    ensures said { IfErr result (λ status. IfSome path.entry (λ text.
        SaysUnwatched (R.has_found files.entry.now) text.now err.old status err.new)) }
    ensures asked { IfErr result (λ _. IsSome path.entry) }
{
    let Some(named) = path else {
        return Ok(None);
    };
    let Ok(label) = spell_label(alloc, disk) else {
        return Err(report_unread(err, named, Error::from(ErrorKind::OutOfMemory)));
    };
    match status_file_of(alloc, files, path, err) {
        Ok(Some(file)) => Ok(Some(MetricsFile { file, label })),
        Ok(None) => Ok(None),
        Err(status) => Err(status),
    }
}

/// Whether a path is the one beside another.
fn is_beside(path: &str, other: &str) -> bool
    ensures { IsTrue result ↔ (path.now ≡ beside other.now) }
{
    match behind(path.as_bytes(), other.as_bytes()) {
        Some(end) => end == b".new".as_slice(),
        None => false,
    }
}

/// Whether both files are named, and share a path as these are spelled.
fn share_path(paths: WatchPaths<'_>) -> bool
    ensures { IsTrue result ↔ SharePath (path_named paths.entry.status)
        (path_named paths.entry.metrics) }
{
    let (Some(status), Some(metrics)) = (paths.status, paths.metrics) else {
        return false;
    };
    if status == metrics || is_beside(status, metrics) {
        return true;
    }
    is_beside(metrics, status)
}

/// Says that both files share a path, and answers the exit status.
fn say_shared<E: Write + Drop>(err: &mut Printer<E>) -> Status
    ensures { SaysLine shared_words exit.Usage err.old result err.new }
{
    let words = "error: --status and --metrics need paths of their own, also with .new behind them";
    match writeln!(err, "{words}") {
        Ok(()) => Status::Usage,
        Err(_) => Status::Unwritten,
    }
}

/// The files that are named, once there is something to tell. They share no path. The paths of each
/// must be free: at one nothing is, or a file that says where a worker is. Such a one beside it is
/// removed, and it is tried that a new one can be made. Where that fails, it is said, and the error
/// is the exit status.
pub fn watch_files_of<'a, R: WatchedPaths, E: Write + Drop>(
    alloc: Global,
    files: &'a R,
    paths: WatchPaths<'a>,
    err: &mut Printer<E>,
) -> Result<WatchFiles<'a, R>, Status>
    requires status { IfSome (path_named paths.status) (MayWatch (R.known files.now)) }
    requires metrics { IfSome (path_named paths.metrics) (MayWatch (R.known files.now)) }
    ensures status { IfSome paths.entry.status (λ text. OnOk result (IsWatchable
        (R.has_found files.entry.now) (R.known files.entry.now).removed text.now)) }
    ensures metrics { IfSome paths.entry.metrics (λ text. OnOk result (IsWatchable
        (R.has_found files.entry.now) (R.known files.entry.now).removed text.now)) }
    ensures apart { OnOk result
        (SharePath (path_named paths.entry.status) (path_named paths.entry.metrics) → ⊥) }
    ensures label { IfOk result (λ watch. IfSome watch.metrics (λ metrics.
        metrics.label.items ≡ disk_label paths.entry.disk.now)) }
    ensures named { IfOk result (λ watch. (IsSome watch.status ↔ IsSome paths.entry.status)
        × (IsSome watch.metrics ↔ IsSome paths.entry.metrics)) }
    ensures quiet { OnOk result (err.new ≡ err.old) }
    ensures said { IfErr result (λ status. SaysUnwatchable (R.has_found files.entry.now)
        (path_named paths.entry.status) (path_named paths.entry.metrics) err.old status err.new) }
{
    if share_path(paths) {
        return Err(say_shared(err));
    }
    let status = match status_file_of(alloc, files, paths.status, err) {
        Ok(status) => status,
        Err(code) => return Err(code),
    };
    match metrics_file_of(alloc, files, paths.metrics, paths.disk, err) {
        Ok(metrics) => Ok(WatchFiles {
            alloc,
            files,
            status,
            metrics,
            last: Cell::new(None),
        }),
        Err(code) => Err(code),
    }
}

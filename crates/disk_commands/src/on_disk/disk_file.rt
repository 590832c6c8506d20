//! The file of a worker's disk, opened for a command.
//!
//! # Promises
//!
//! - `open_disk`: the disk that this call has opened at the path. Where a rewrite is asked for each
//!   sector was written back, and synced (`IsOpenedFor`). Else it is said why there is none: the
//!   path was refused, or a call of that file has failed (`SaysUnopened`).
//! - `look_at_file` opens the disk at the path, says of it what `survey`, `inspect_disk`,
//!   `list_files` or `tell_history` says, and closes it (`TellsFile`). What is printed is of that
//!   disk, whatever image was on it. Of a live disk it says that of a picture, which it has taken
//!   of the disk at the path without writing, syncing or locking it.

ghost use Rattle.std.specs.Prelude.{◌≡◌, ◌<◌, [], IfErr, IfOk, IsTrue, OnOk};
ghost use Rattle.sector_disk.specs.rules.File.{answers_of, file_medium};
ghost use Rattle.sector_disk.specs.rules.Known.{MayOpen};
ghost use Rattle.sector_disk.specs.rules.Open.{IsOpenedAt};
ghost use Rattle.command_words.specs.rules.Reports.{SaysLine, obstacle_words};
ghost use Rattle.command_words.specs.declared.status.Status.TheVariants as exit;
ghost use Rattle.command_words.specs.rules.Printers.{printers};
ghost use Rattle.disk_commands.specs.rules.Openings.{IsOpenedFor, IsWrittenBack, SaysUnopened};
ghost use Rattle.disk_commands.specs.rules.Openings.{SaysUnlooked, command_run};
ghost use Rattle.disk_commands.specs.rules.LookedFiles.{TellsFile, TellsLook};

use crate::inspecting::{inspect_disk, list_files, tell_history};
use crate::on_disk::live::picture_of;
use crate::on_disk::opening::{report_open, report_unlooked};
use crate::on_disk::showing::survey;
use command_words::{Obstacle, Printer, Status, report};
use sector_disk::{Disk, DiskFile, DiskFiles, FileDisk, rewrite};
use std::alloc::Global;
use std::io::Write;

/// Writes every sector of a disk that was just opened back, and hands the disk on. Where that
/// fails, it is closed, and that is said.
fn written_back<F: DiskFile, R: DiskFiles<File = F>, E: Write + Drop>(
    files: &R,
    disk: FileDisk<F>,
    err: &mut Printer<E>,
) -> Result<FileDisk<F>, Status>
    requires { answers_of disk ≡ [] }
    ensures written { IfOk result (IsWrittenBack disk) }
    ensures quiet { OnOk result (err.new ≡ err.old) }
    ensures failed { IfErr result (λ _. (left : FileDisk F)
        × ((file_medium disk).faults < (file_medium left).faults)
        × IsTrue ((R.known files.now).closed left)) }
    ensures said { IfErr result (λ status.
        SaysLine (obstacle_words Obstacle.Unread) exit.IoError err.old status err.new) }
{
    let mut disk = disk;
    match rewrite(&mut disk) {
        Ok(()) => Ok(disk),
        Err(_) => {
            files.close(disk);
            Err(report(err, Obstacle::Unread))
        }
    }
}

/// Opens the file of a disk for a command. Where `rewrites` says so, every sector is written back
/// as it is read, and synced, before anything else is done with it. Without it nothing is written.
/// An error is the exit status, and says why there is no disk.
pub fn open_disk<F: DiskFile, R: DiskFiles<File = F>, E: Write + Drop>(
    files: &R,
    path: &str,
    rewrites: bool,
    err: &mut Printer<E>,
) -> Result<FileDisk<F>, Status>
    requires { IsTrue ((R.known files.now).may_write path.now) }
    ensures opened { IfOk result (IsOpenedFor F.known (R.known files.now) rewrites path.now) }
    ensures quiet { OnOk result (err.new ≡ err.old) }
    ensures said { IfErr result (λ status. SaysUnopened F.known (R.known files.now) rewrites
        path.now err.old status err.new) }
{
    let disk = match FileDisk::open(files, path) {
        Ok(disk) => disk,
        Err(fault) => return Err(report_open(err, path, fault)),
    };
    if !rewrites {
        return Ok(disk);
    }
    written_back(files, disk, err)
}

/// Opens the file of a disk for a command that only looks at it. An error is the exit status, and
/// says why there is no disk.
pub(super) fn open_to_look<F: DiskFile, R: DiskFiles<File = F>, E: Write + Drop>(
    files: &R,
    path: &str,
    err: &mut Printer<E>,
) -> Result<FileDisk<F>, Status>
    requires { IsTrue ((R.known files.now).may_write path.now) }
    ensures opened { IfOk result (IsOpenedAt F.known (R.known files.now) path.now) }
    ensures quiet { OnOk result (err.new ≡ err.old) }
    ensures said { IfErr result (λ status. SaysUnlooked F.known (R.known files.now) path.now err.old
        status err.new) }
{
    match FileDisk::open(files, path) {
        Ok(disk) => Ok(disk),
        Err(fault) => Err(report_unlooked(err, path, fault)),
    }
}

/// What is said of a disk that is looked at.
#[derive(Clone, Copy, Debug, PartialEq, Eq)]
pub enum Look<'a> {
    /// Where its worker is, in one line.
    Survey,
    /// All that is on it, one fact a line or as one JSON value.
    Facts { as_json: bool },
    /// The list of its worker's files, or the bytes of the one at a path.
    Files { path: Option<&'a str> },
    /// The records after its newest snapshot, one a line or as a script of `story`.
    History { as_story: bool },
}

/// Says that of a disk. Nothing is changed on it, but that it is synced. Answers the exit status.
fn look_at<D: Disk, W: Write + Drop, E: Write + Drop>(
    alloc: Global,
    disk: &mut D,
    look: Look<'_>,
    out: &mut Printer<W>,
    err: &mut Printer<E>,
) -> Status
    ensures { TellsLook look.entry (D.medium disk.old) (D.medium disk.new)
        (printers out.old err.old) (printers out.new err.new) result }
{
    match look {
        Look::Survey => survey(alloc, disk, out, err),
        Look::Facts { as_json } => inspect_disk(alloc, disk, as_json, out, err),
        Look::Files { path } => list_files(alloc, disk, path, out, err),
        Look::History { as_story } => tell_history(alloc, disk, as_story, out, err),
    }
}

/// The disk in a file that is to be looked at.
#[derive(Clone, Copy, Debug, PartialEq, Eq)]
pub struct Seen<'a> {
    /// The path of the file.
    pub path: &'a str,
    /// Whether its worker may run meanwhile. Then a picture of it is looked at.
    pub is_live: bool,
}

/// `wasmhost show`, `inspect`, `files` and `history` of the disk in a file: it is opened, only
/// looked at, and closed. Returns the exit status.
pub fn look_at_file<F: DiskFile, R: DiskFiles<File = F>, W: Write + Drop, E: Write + Drop>(
    alloc: Global,
    files: &R,
    seen: Seen<'_>,
    look: Look<'_>,
    out: &mut Printer<W>,
    err: &mut Printer<E>,
) -> Status
    requires { MayOpen (R.known files.now) seen.is_live seen.path.now }
    ensures { TellsFile F.known (R.known files.now) look.entry seen.entry.path.now
        (command_run (printers out.old err.old) (printers out.new err.new) result)
        seen.entry.is_live }
{
    if seen.is_live {
        match picture_of(alloc, files, seen.path, err) {
            Ok(mut picture) => {
                let status = look_at(alloc, &mut picture, look, out, err);
                drop(picture);
                status
            }
            Err(status) => status,
        }
    } else {
        match open_to_look(files, seen.path, err) {
            Ok(mut disk) => {
                let status = look_at(alloc, &mut disk, look, out, err);
                files.close(disk);
                status
            }
            Err(status) => status,
        }
    }
}

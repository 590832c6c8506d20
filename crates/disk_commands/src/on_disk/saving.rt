//! `wasmhost save`.
//!
//! # Promises
//!
//! - `save_on`: the sectors of a disk are copied onto another one, and how many is printed, or it
//!   is told why they aren't (`SavesCopy`). The disk is only read. A cut at any moment leaves no
//!   worker in the copy, or the whole copy. That stands for the same worker
//!   (`laws::copies_stand_for_the_same`).
//! - `save_file` opens the disk at the path, and looks into it as `inspect` does. Of a worker's
//!   disk it makes a new file, and copies all its sectors there (`SavesFile`). A disk that is
//!   refused isn't copied, and no file is made. Of a live disk it takes a picture, and does that
//!   with it.
//!
//! # Choices
//!
//! - **A copy is made of a disk that a recovery finds whole.** Of a damaged one it is told what is
//!   wrong, and `cp` copies it.

ghost use Rattle.std.specs.Prelude.{◌≡◌, true, IsTrue, OnErr, OnOk};
ghost use Rattle.sector_disk.specs.rules.Known.{MayOpen};
ghost use Rattle.command_words.specs.rules.Printers.{IsPrinted, printers};
ghost use Rattle.command_words.specs.rules.Reports.{SaysOnOutput};
ghost use Rattle.command_words.specs.declared.status.Status.TheVariants as exit;
ghost use Rattle.disk_commands.specs.rules.Openings.{command_run};
ghost use Rattle.disk_commands.specs.rules.SavedCopies.{MakesCopy, SavesCopy, SavesFile};
ghost use Rattle.disk_commands.specs.rules.SavedCopies.{SavesInspected, saved_line, uncopied_words};

use crate::on_disk::disk_file::{Seen, open_to_look};
use crate::on_disk::fault::{OnDiskFault, say_disk_fault};
use crate::on_disk::live::picture_of;
use crate::on_disk::making::keep_if_created;
use crate::on_disk::opening::report_open;
use command_words::{Obstacle, Printer, Status, report, say_line};
use sector_disk::{CopyFault, Disk, DiskFile, FileDisk, NewFiles, copy_disk};
use std::alloc::Global;
use std::io::{self, Write};
use worker::inspect;

/// Prints how many sectors were copied.
fn print_saved<W: Write + Drop>(out: &mut Printer<W>, sectors: u64) -> io::Result<()>
    ensures printed { OnOk result (IsPrinted out.old out.new (saved_line sectors)) }
    ensures failed { OnErr result (out.new.failed ≡ true) }
{
    writeln!(out, "saved {sectors} sectors")?;
    out.flush()
}

/// Says how many sectors were copied, or that this can't be written. Answers the exit status.
fn say_saved<W: Write + Drop, E: Write + Drop>(
    out: &mut Printer<W>,
    sectors: u64,
    err: &mut Printer<E>,
) -> Status
    ensures { SaysOnOutput (saved_line sectors) exit.Done (printers out.old err.old)
        (printers out.new err.new) result }
{
    match print_saved(out, sectors) {
        Ok(()) => Status::Done,
        Err(_) => report(err, Obstacle::Unwritten),
    }
}

/// What is told of a copy that isn't made.
fn words_of_copy(fault: CopyFault) -> &'static str
    ensures { result.now ≡ uncopied_words fault }
{
    match fault {
        CopyFault::Sizes => "failed K2 Io\nthe copy has no sectors, or more than the disk",
        CopyFault::Original(_) => "failed K2 Io\nthe disk can't be read: see to its device",
        CopyFault::Copy(_) => "failed K2 Io\nthe copy can't be written: see to its device",
    }
}

/// Copies as many sectors of a disk onto another one as that one has, and says how many. The first
/// disk is only read. Answers the exit status: `Done` where they are copied, `IoError` where a disk
/// fails, `Unwritten` where a write of a printer has failed.
pub fn save_on<D: Disk, C: Disk, W: Write + Drop, E: Write + Drop>(
    disk: &mut D,
    copy: &mut C,
    out: &mut Printer<W>,
    err: &mut Printer<E>,
) -> Status
    ensures { SavesCopy (D.medium disk.old) (D.medium disk.new) (C.medium copy.old)
        (C.medium copy.new) (printers out.old err.old) (printers out.new err.new) result }
{
    let sectors = copy.sectors();
    match copy_disk(disk, copy) {
        Ok(()) => say_saved(out, sectors, err),
        Err(fault) => say_line(err, Status::IoError, words_of_copy(fault)),
    }
}

/// Makes a new file of so many sectors, and copies those of a disk there. The file is left where
/// the status is `Done`, and then it was found at its path. Else it is removed.
fn make_copy<F: DiskFile, R: NewFiles<File = F>, D: Disk, W: Write + Drop, E: Write + Drop>(
    files: &R,
    disk: &mut D,
    path: &str,
    sectors: u64,
    out: &mut Printer<W>,
    err: &mut Printer<E>,
) -> Status
    requires { IsTrue ((R.known files.now).may_make path.now) }
    ensures { MakesCopy F.known (R.known files.now) path.now sectors (D.medium disk.old)
        (D.medium disk.new)
        (command_run (printers out.old err.old) (printers out.new err.new) result) }
{
    let (mut copy, made) = match FileDisk::create(files, path, sectors) {
        Ok(made) => made,
        Err(fault) => return report_open(err, path, fault),
    };
    let status = save_on(disk, &mut copy, out, err);
    let ended = keep_if_created(files, made, &copy, status, err);
    files.close(copy);
    ended
}

/// Looks into a disk, and copies it to a new file where it is a worker's.
fn save_worker<F: DiskFile, R: NewFiles<File = F>, D: Disk, W: Write + Drop, E: Write + Drop>(
    alloc: Global,
    files: &R,
    disk: &mut D,
    copy: &str,
    out: &mut Printer<W>,
    err: &mut Printer<E>,
) -> Status
    requires { IsTrue ((R.known files.now).may_make copy.now) }
    ensures { SavesInspected F.known (R.known files.now) copy.now D.medium disk.old disk.new
        (command_run (printers out.old err.old) (printers out.new err.new) result) }
{
    match inspect(alloc, disk) {
        Ok(told) => {
            let sectors = told.contents.geometry.total_sectors();
            told.close();
            make_copy(files, disk, copy, sectors, out, err)
        }
        Err(fault) => say_disk_fault(err, OnDiskFault::from(fault)),
    }
}

/// `wasmhost save`: all sectors of the worker's disk in a file are copied to a new file. Returns
/// the exit status: `Done` where they are copied, `Refused` for a disk that is refused, `IoError`
/// where a file can't be opened or made, a disk fails or a live one has changed, `OutOfMemory`,
/// `Unwritten` where a write of a printer has failed.
pub fn save_file<F: DiskFile, R: NewFiles<File = F>, W: Write + Drop, E: Write + Drop>(
    alloc: Global,
    files: &R,
    seen: Seen<'_>,
    copy: &str,
    out: &mut Printer<W>,
    err: &mut Printer<E>,
) -> Status
    requires disk { MayOpen (R.known files.now) seen.is_live seen.path.now }
    requires copy { IsTrue ((R.known files.now).may_make copy.now) }
    ensures { SavesFile F.known (R.known files.now) seen.entry.path.now copy.now
        (command_run (printers out.old err.old) (printers out.new err.new) result)
        seen.entry.is_live }
{
    if seen.is_live {
        match picture_of(alloc, files, seen.path, err) {
            Ok(mut picture) => {
                let status = save_worker(alloc, files, &mut picture, copy, out, err);
                drop(picture);
                status
            }
            Err(status) => status,
        }
    } else {
        match open_to_look(files, seen.path, err) {
            Ok(mut disk) => {
                let status = save_worker(alloc, files, &mut disk, copy, out, err);
                files.close(disk);
                status
            }
            Err(status) => status,
        }
    }
}

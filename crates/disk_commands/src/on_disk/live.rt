//! A picture of a worker's disk, while another host may have it.
//!
//! # Promises
//!
//! - `picture_of`: the disk in the file at a path is opened to read it and nothing else, without
//!   its lock, and closed. The picture has what its sectors gave, once each, and the super and both
//!   heads gave the same afterwards (`IsPictureAt`). Or it is said why there is none
//!   (`SaysUnseen`). Nothing is written on the disk, and it isn't synced.
//!
//! # Choices
//!
//! - **A picture is looked at, and not the disk**: what a command reads then stays as it is, so all
//!   that is known of the command holds of it. That takes memory for the disk's sectors twice.
//! - **Heads that stay are enough.** A worker that saves itself writes the area of the older head,
//!   then that head, and only then the journal from its start. So while both heads stay, the newer
//!   one's area stays, and the journal only grows.
//! - **A disk that has changed is `K5 Busy`, and isn't read again.** How often and when to look
//!   again is left to the caller, who may wait between.
//! - **At most `MOST_SECTORS` are read**, so a device is not read to its end.

ghost use Rattle.std.specs.Prelude.{◌≡◌, IfErr, IfOk, IsTrue, Ok, OnOk};
ghost use Rattle.sector_disk.specs.rules.Open.{IsUnseenAt};
ghost use Rattle.command_words.specs.rules.Reports.{SaysLine};
ghost use Rattle.command_words.specs.declared.status.Status.TheVariants as exit;
ghost use Rattle.disk_commands.specs.rules.LivePictures.{IsPictureAt, SaysUnpictured, SaysUnseen};
ghost use Rattle.disk_commands.specs.rules.LivePictures.{changed_words, obstacle_of};

use crate::on_disk::opening::report_open;
use command_words::{Obstacle, Printer, Status, report};
use disk_layout::MODULE_PLACE;
use sector_disk::{
    DiskFault, DiskFile, DiskFiles, FileDisk, MemDisk, OpenFault, PictureFault, take_picture,
};
use std::alloc::Global;
use std::io::Write;

/// No worker's disk has more sectors. Super and heads have 3. Configuration and module have 4,353:
/// 64 arguments and 64 entries of 1,024 bytes each, and 2 MiB. Both areas have 86,016, of 256 pages
/// and 64 units of files, and the journal has 65,536.
pub const MOST_SECTORS: u64 = 155_908;

/// Prints that a disk has changed while it was read, and answers the exit status.
fn say_changed<E: Write + Drop>(err: &mut Printer<E>, path: &str) -> Status
    ensures { SaysLine (changed_words path.now) exit.IoError err.old result err.new }
{
    match writeln!(
        err,
        "failed K5 Busy\n{path}: its worker has just saved itself, look again"
    ) {
        Ok(()) => Status::IoError,
        Err(_) => Status::Unwritten,
    }
}

/// What is told of a disk whose sectors can't be had.
fn obstacle_of(fault: DiskFault) -> Obstacle
    ensures { result ≡ obstacle_of fault }
{
    match fault {
        DiskFault::Memory => Obstacle::Memory,
        DiskFault::Range | DiskFault::Io | DiskFault::Cut => Obstacle::Unread,
    }
}

/// Prints why there is no picture of a disk, and answers the exit status: `IoError` where it has
/// changed or fails, `OutOfMemory`, `Unwritten` where a write has failed.
fn say_unpictured<E: Write + Drop>(err: &mut Printer<E>, path: &str, fault: PictureFault) -> Status
    ensures { SaysUnpictured path.now fault err.old result err.new }
{
    match fault {
        PictureFault::Changed => say_changed(err, path),
        PictureFault::Disk(fault) => report(err, obstacle_of(fault)),
    }
}

/// A picture of the disk in a file, or why there is none. The file is closed again.
fn take_at<F: DiskFile, R: DiskFiles<File = F>>(
    alloc: Global,
    files: &R,
    path: &str,
) -> Result<Result<MemDisk, PictureFault>, OpenFault>
    requires { IsTrue ((R.known files.now).may_read path.now) }
    ensures taken { IfOk result (IsPictureAt F.known (R.known files.now) path.now) }
    ensures unseen { IfErr result (IsUnseenAt F.known (R.known files.now) path.now) }
{
    let mut disk = FileDisk::look(files, path)?;
    let taken = take_picture(alloc, &mut disk, MOST_SECTORS, MODULE_PLACE as usize);
    files.close(disk);
    Ok(taken)
}

/// A picture of the disk in a file, which another host may have. An error is the exit status, and
/// says why there is none.
pub(super) fn picture_of<F: DiskFile, R: DiskFiles<File = F>, E: Write + Drop>(
    alloc: Global,
    files: &R,
    path: &str,
    err: &mut Printer<E>,
) -> Result<MemDisk, Status>
    requires { IsTrue ((R.known files.now).may_read path.now) }
    ensures pictured { IfOk result (λ picture.
        IsPictureAt F.known (R.known files.now) path.now (Ok picture)) }
    ensures quiet { OnOk result (err.new ≡ err.old) }
    ensures said { IfErr result (λ status.
        SaysUnseen F.known (R.known files.now) path.now err.old status err.new) }
{
    match take_at(alloc, files, path) {
        Ok(Ok(picture)) => Ok(picture),
        Ok(Err(fault)) => Err(say_unpictured(err, path, fault)),
        Err(fault) => Err(report_open(err, path, fault)),
    }
}

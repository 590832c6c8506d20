//! Why a file isn't made, opened or read, told to a person.
//!
//! # Promises
//!
//! - `report_open` tells why a disk's file isn't opened, and `report_unread` why a file isn't read.
//!   Both tell the path, and the cause that the error has (`open_words`, `SaysUnread`).
//!
//! # Choices
//!
//! - **What is printed has a first line of its own, and some faults a second one.** The first is
//!   `failed` with code and name, or `refused request ..`, and scripts match it. The second is for
//!   a person. `K2 Io` of a path prints the path and the cause, by a total function of the error
//!   (`error_cause`, `cause_words`). The words are those of the C library, so that they can be
//!   looked up. `K2 Io` of a disk that fails once it is open is alone: `DiskFault` has no cause.

ghost use Rattle.std.specs.Prelude.{◌≡◌, ◌↔◌, IsTrue};
ghost use Rattle.std.specs.IoError.{error_kind};
ghost use Rattle.command_words.specs.rules.Reports.{SaysLine};
ghost use Rattle.command_words.specs.declared.status.Status.TheVariants as exit;
ghost use Rattle.disk_commands.specs.rules.Openings.{SaysUnread, cause_words, fault_words};
ghost use Rattle.disk_commands.specs.rules.Openings.{look_words};
ghost use Rattle.disk_commands.specs.rules.Openings.{open_words};

use command_words::{Obstacle, Printer, Status, report};
use sector_disk::{OpenCause, OpenFault};
use std::io::{Error, ErrorKind, Write};

/// What the operating system says of a path.
fn words_of_cause(cause: OpenCause) -> &'static str
    ensures { result.now ≡ cause_words cause }
{
    match cause {
        OpenCause::Folder => "is a directory",
        OpenCause::NoFolder => "not a directory",
        OpenCause::Missing => "no such file or directory",
        OpenCause::Forbidden => "permission denied",
        OpenCause::ReadOnly => "read-only file system",
        OpenCause::Exists => "file exists",
        OpenCause::NoRoom => "no space left on device",
        OpenCause::Quota => "disk quota exceeded",
        OpenCause::TooLarge => "file too large",
        OpenCause::LongName => "file name too long",
        OpenCause::Loop => "too many levels of symbolic links",
        OpenCause::NotEmpty => "directory not empty",
        OpenCause::ManyFiles => "too many open files",
        OpenCause::FailedDevice => "input/output error",
        OpenCause::NoDevice => "block device required",
        OpenCause::NoSectors => "neither a regular file nor a block device",
        OpenCause::Displaced => "another file is there now",
        OpenCause::Other => "the system failed",
    }
}

/// What is said of a path by a fault of it.
pub(super) fn words_of_fault(fault: OpenFault) -> &'static str
    ensures { result.now ≡ fault_words fault }
{
    match fault {
        OpenFault::Busy => "another host is using this disk",
        OpenFault::Io(cause) => words_of_cause(cause),
    }
}

/// Whether an error is out of memory.
fn is_want(error: &Error) -> bool
    ensures { IsTrue result ↔ (error_kind error.now ≡ ErrorKind.OutOfMemory) }
{
    error.kind() == ErrorKind::OutOfMemory
}

/// Prints that a path was refused, and on a line of its own the path and the cause.
fn say_cause<E: Write + Drop>(err: &mut Printer<E>, path: &str, cause: OpenCause) -> Status
    ensures { SaysLine (open_words path.now (OpenFault.Io cause)) exit.IoError err.old result
        err.new }
{
    let words = words_of_cause(cause);
    match writeln!(err, "failed K2 Io\n{path}: {words}") {
        Ok(()) => Status::IoError,
        Err(_) => Status::Unwritten,
    }
}

/// Prints that the disk is locked, and answers the exit status.
fn say_busy<E: Write + Drop>(err: &mut Printer<E>, path: &str) -> Status
    ensures { SaysLine (open_words path.now OpenFault.Busy) exit.IoError err.old result err.new }
{
    match writeln!(
        err,
        "failed K5 Busy\n{path}: another host is using this disk, or it is open twice: end that use"
    ) {
        Ok(()) => Status::IoError,
        Err(_) => Status::Unwritten,
    }
}

/// Prints why a file isn't made or opened as a disk: the fault, and on a line of its own the path
/// and what the operating system says of it, or that it is locked. Answers the exit status, or
/// `Unwritten` where a write has failed.
pub fn report_open<E: Write + Drop>(err: &mut Printer<E>, path: &str, fault: OpenFault) -> Status
    ensures { SaysLine (open_words path.now fault) exit.IoError err.old result err.new }
{
    match fault {
        OpenFault::Busy => say_busy(err, path),
        OpenFault::Io(cause) => say_cause(err, path, cause),
    }
}

/// Prints that the disk is locked, and that it can be looked at all the same. Answers the exit
/// status.
fn say_busy_look<E: Write + Drop>(err: &mut Printer<E>, path: &str) -> Status
    ensures { SaysLine (look_words path.now OpenFault.Busy) exit.IoError err.old result err.new }
{
    match writeln!(
        err,
        "failed K5 Busy\n{path}: another host is using this disk: look at it with --live"
    ) {
        Ok(()) => Status::IoError,
        Err(_) => Status::Unwritten,
    }
}

/// Prints in the same way why the file of a disk isn't opened to be looked at.
pub(super) fn report_unlooked<E: Write + Drop>(
    err: &mut Printer<E>,
    path: &str,
    fault: OpenFault,
) -> Status
    ensures { SaysLine (look_words path.now fault) exit.IoError err.old result err.new }
{
    match fault {
        OpenFault::Busy => say_busy_look(err, path),
        OpenFault::Io(cause) => say_cause(err, path, cause),
    }
}

/// Prints in the same way why a file can't be read. Want of memory is told as that.
pub fn report_unread<E: Write + Drop>(err: &mut Printer<E>, path: &str, error: Error) -> Status
    ensures { SaysUnread path.now error err.old result err.new }
{
    if is_want(&error) {
        return report(err, Obstacle::Memory);
    }
    report_open(err, path, OpenFault::from(error))
}

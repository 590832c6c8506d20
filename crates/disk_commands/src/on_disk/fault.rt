//! Why a worker on its disk isn't opened, or doesn't go on, and the exit status that says it.
//!
//! # Choices
//!
//! - **While a worker is opened, a fault of the disk is printed as that, and one of the output as
//!   one of a replay.** Later both are faults of a call: `N1 Disk` and `N3 Outlet`.
//! - **Some faults have a second line**, which says what it is and what to do (`advice`). Scripts
//!   match the first one.
//! - **What the store refuses has `Refused`.** Neither out of memory nor a fault of the disk is
//!   among that: both are printed as such.

ghost use Rattle.std.specs.Prelude.{◌≡◌, option_map};
ghost use Rattle.command_words.specs.rules.Printers.{IsSaid};
ghost use Rattle.disk_commands.specs.Advices.{advice};
ghost use Rattle.disk_commands.specs.rules.DiskStatuses.{opening_fault, call_fault, status_of_disk};
ghost use Rattle.disk_commands.specs.rules.DiskStatuses.{status_of_call, status_of_recovery};
ghost use Rattle.disk_commands.specs.rules.DiskStatuses.{status_on_disk, status_of_work};

use command_words::{LineFault, Printer, Status, say_line, status_of_line};
use disk_layout::LayoutFault;
use record_replay::{ReplayFault, SliceFault};
use sector_disk::DiskFault;
use std::io::Write;
use thiserror::Error;
use worker::{RecoverFault, UpgradeFault, WorkFault};

/// What is told of a worker on its disk that isn't opened, or that fails.
#[derive(Clone, Copy, Debug, PartialEq, Eq, Error)]
pub(crate) enum OnDiskFault {
    /// The disk failed before the worker was open.
    #[error("failed {0}")]
    Disk(DiskFault),
    /// Another fault of a recovery, under the name of the layer that has found it.
    #[error("failed {0}")]
    Recovery(RecoverFault),
    /// What a call of the worker says.
    #[error("failed {0}")]
    Call(WorkFault),
    /// What is wrong with a request line, or with its reader.
    #[error("{0}")]
    Line(LineFault),
}

impl From<RecoverFault> for OnDiskFault {
    ghost from_gives = { λ fault told. told ≡ opening_fault fault };

    fn from(fault: RecoverFault) -> Self {
        match fault {
            RecoverFault::Worker(WorkFault::Disk(fault)) => OnDiskFault::Disk(fault),
            other => OnDiskFault::Recovery(other),
        }
    }
}

impl From<WorkFault> for OnDiskFault {
    ghost from_gives = { λ fault told. told ≡ call_fault fault };

    fn from(fault: WorkFault) -> Self {
        OnDiskFault::Call(fault)
    }
}

/// The exit status of a disk that failed before a worker was open.
fn status_of_disk(fault: DiskFault) -> Status
    ensures { result ≡ status_of_disk fault }
{
    match fault {
        DiskFault::Memory => Status::OutOfMemory,
        DiskFault::Range | DiskFault::Io | DiskFault::Cut => Status::IoError,
    }
}

/// The exit status of what a call of a worker on its disk says.
fn status_of_call(fault: WorkFault) -> Status
    ensures { result ≡ status_of_call fault }
{
    match fault {
        WorkFault::Work(fault) => status_of_work(fault),
        WorkFault::Disk(_) => Status::IoError,
        WorkFault::Store(_) | WorkFault::Upgrade(_) => Status::Refused,
    }
}

/// The exit status of a recovery that fails, but for a fault of the disk.
fn status_of_recovery(fault: RecoverFault) -> Status
    ensures { result ≡ status_of_recovery fault }
{
    match fault {
        RecoverFault::Worker(fault) => status_of_call(fault),
        RecoverFault::Replay(ReplayFault::Diverged) => Status::Refused,
        RecoverFault::Replay(ReplayFault::Memory) => Status::OutOfMemory,
        RecoverFault::Replay(ReplayFault::Outlet) => Status::Unwritten,
        other => {
            if other.is_want_of_memory() {
                Status::OutOfMemory
            } else {
                Status::Refused
            }
        }
    }
}

/// What is said of a disk that shows no worker.
const NO_WORKER: &str = "no worker is on the disk: if create or save was cut off, call that again";

/// What is said of a disk whose newest head names no whole image.
const NO_SNAPSHOT: &str = "the newest snapshot of the disk isn't whole: restore a backup";

/// What is said of a disk that has failed before its worker was open.
const FAILED: &str = "the disk has failed: see to its device";

/// What is said of a worker that can't be upgraded.
const SHORT: &str = "its journal has fewer than 133 sectors: create --from it with --journal 133";

/// What to do where the disk of a worker that goes on has failed: a write or a sync may have.
const DISK_FAILED: &str = "the disk has failed: see to its device, then run it once with --rewrite";

impl OnDiskFault {
    /// Whether a call of the disk has failed.
    fn is_of_disk(self) -> bool {
        match self {
            OnDiskFault::Disk(DiskFault::Memory) => false,
            OnDiskFault::Disk(_) | OnDiskFault::Call(WorkFault::Disk(_)) => true,
            OnDiskFault::Recovery(_) | OnDiskFault::Call(_) | OnDiskFault::Line(_) => false,
        }
    }

    /// The exit status.
    pub(crate) fn status(self) -> Status
        ensures { result ≡ status_on_disk self }
    {
        match self {
            OnDiskFault::Disk(fault) => status_of_disk(fault),
            OnDiskFault::Recovery(fault) => status_of_recovery(fault),
            OnDiskFault::Call(fault) => status_of_call(fault),
            OnDiskFault::Line(fault) => status_of_line(fault),
        }
    }
}

/// What is said of a recovery that fails, but for a fault of the disk.
fn advice_of_recovery(fault: RecoverFault) -> Option<&'static str>
    ensures { option_map (λ words. words.now) result ≡ advice (OnDiskFault.Recovery fault) }
{
    match fault {
        RecoverFault::Layout(LayoutFault::NotAWorker) => Some(NO_WORKER),
        RecoverFault::Snapshot(_) => {
            if fault.is_want_of_memory() {
                None
            } else {
                Some(NO_SNAPSHOT)
            }
        }
        _ => None,
    }
}

/// What is said of a disk that has failed before its worker was open.
fn advice_of_disk(fault: DiskFault) -> Option<&'static str>
    ensures { option_map (λ words. words.now) result ≡ advice (OnDiskFault.Disk fault) }
{
    match fault {
        DiskFault::Io => Some(FAILED),
        DiskFault::Memory | DiskFault::Range | DiskFault::Cut => None,
    }
}

/// What it is, and what to do, where a second line says so.
fn advice_of(fault: OnDiskFault) -> Option<&'static str>
    ensures { option_map (λ words. words.now) result ≡ advice fault }
{
    match fault {
        OnDiskFault::Disk(fault) => advice_of_disk(fault),
        OnDiskFault::Recovery(fault) => advice_of_recovery(fault),
        OnDiskFault::Call(WorkFault::Upgrade(UpgradeFault::JournalTooSmall)) => Some(SHORT),
        _ => None,
    }
}

/// Prints that on a line of its own, where there is something. Answers the status, or `Unwritten`
/// where a write has failed.
fn say_advice<E: Write + Drop>(err: &mut Printer<E>, status: Status, fault: OnDiskFault) -> Status
    ensures { IsSaid status err.old result err.new }
{
    match advice_of(fault) {
        Some(words) => say_line(err, status, words),
        None => status,
    }
}

/// Prints the fault alone. Answers the exit status, or `Unwritten` where a write has failed.
fn say_fault<E: Write + Drop>(err: &mut Printer<E>, fault: OnDiskFault) -> Status
    ensures { IsSaid (status_on_disk fault) err.old result err.new }
{
    let said = writeln!(err, "{fault}");
    if said.is_ok() && err.flush().is_ok() {
        fault.status()
    } else {
        Status::Unwritten
    }
}

/// Prints why a worker on its disk isn't opened, or fails, and what to do, and answers the exit
/// status, or `Unwritten` where a write has failed.
pub(crate) fn say_disk_fault<E: Write + Drop>(err: &mut Printer<E>, fault: OnDiskFault) -> Status
    ensures { IsSaid (status_on_disk fault) err.old result err.new }
{
    let status = say_fault(err, fault);
    say_advice(err, status, fault)
}

/// Prints a line that begins with the path of a disk. Answers the status, or `Unwritten` where a
/// write has failed.
fn say_at<E: Write + Drop>(err: &mut Printer<E>, status: Status, path: &str, words: &str) -> Status
    ensures { IsSaid status err.old result err.new }
{
    match writeln!(err, "{path}: {words}") {
        Ok(()) => status,
        Err(_) => Status::Unwritten,
    }
}

/// Prints that of the disk at this path, where a command has two of them. The second line says
/// which it is.
pub(crate) fn say_fault_at<E: Write + Drop>(
    err: &mut Printer<E>,
    path: &str,
    fault: OnDiskFault,
) -> Status
    ensures { IsSaid (status_on_disk fault) err.old result err.new }
{
    let status = say_fault(err, fault);
    match advice_of(fault) {
        Some(words) => say_at(err, status, path, words),
        None => status,
    }
}

/// The same of a worker that goes on. Where its disk has failed a second line says what to do.
pub(crate) fn say_life_fault<E: Write + Drop>(err: &mut Printer<E>, fault: OnDiskFault) -> Status
    ensures { IsSaid (status_on_disk fault) err.old result err.new }
{
    let status = say_fault(err, fault);
    if status == Status::IoError && fault.is_of_disk() {
        return say_line(err, status, DISK_FAILED);
    }
    say_advice(err, status, fault)
}

/// The exit status of what a worker's call says.
pub(crate) fn status_of_work(fault: SliceFault) -> Status
    ensures { result ≡ status_of_work fault }
{
    match fault {
        SliceFault::Refused(_) => Status::Refused,
        SliceFault::Source | SliceFault::Failed => Status::IoError,
        SliceFault::Memory => Status::OutOfMemory,
        SliceFault::Outlet => Status::Unwritten,
    }
}

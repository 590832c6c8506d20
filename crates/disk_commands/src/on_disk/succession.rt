//! `wasmhost create --from`: a worker with other code that goes on from what another one left.
//!
//! # Promises
//!
//! - `succeed_disk`: the disk of the old worker is opened at its path, only synced and read, and
//!   closed. Where the worker is at rest, and what it leaves fits, the new one is created on its
//!   disk, as `create_disk` makes one. Else it is said why not, and nothing is made
//!   (`SucceedsDisk`).
//!
//! # Choices
//!
//! - **The old disk stays open, and so locked, until the new one is done.** No `run` takes the old
//!   worker further meanwhile, and a new worker isn't put over the old one's device. No clause says
//!   when a disk is closed.
//! - **What doesn't fit is told before a file is made**, though the creation would refuse a journal
//!   itself.

ghost use Rattle.std.specs.Prelude.{◌≡◌, ◌↔◌, ◌*◌, ◌≤◌, IfOk, IsTrue};
ghost use Rattle.file_tree.specs.declared.limits.TheConstants.{UNIT_BYTES};
ghost use Rattle.sector_disk.specs.rules.Known.{MayPlace};
ghost use Rattle.command_words.specs.rules.Printers.{printers};
ghost use Rattle.disk_commands.specs.SuccessorDisks.{FitsOrSays, IsTakenOver, SucceedsOpened};
ghost use Rattle.disk_commands.specs.rules.Creations.{new_disk};
ghost use Rattle.disk_commands.specs.rules.SuccessorDisks.{SucceedsDisk, succession_of};

use crate::on_disk::disk_file::open_disk;
use crate::on_disk::making::{NewDisk, begin_on_disk};
use crate::on_disk::unsucceeded::{report_crowded, report_short, report_unleft};
use command_words::{Printer, Status};
use disk_layout::takes_records;
use file_tree::limits::UNIT_BYTES;
use sector_disk::{Disk, DiskFile, FileDisk, NewFiles};
use std::alloc::Global;
use std::io::Write;
use wasi_abi::Config;
use worker::{Handover, read_legacy};

/// A worker that is to succeed another one.
#[derive(Clone, Copy)]
pub(super) struct Succession<'a> {
    /// The path of the disk of the old worker.
    pub(super) from: &'a str,
    /// Its own disk, and what it is created with.
    pub(super) new: NewDisk<'a>,
}

/// Whether files of so many bytes fit into those that a configuration allows.
fn has_room(config: &Config, bytes: u64) -> bool
    ensures { IsTrue result ↔ (bytes ≤ config.now.files * UNIT_BYTES) }
{
    bytes <= u64::from(config.files()) * UNIT_BYTES
}

/// Hands on what a worker has left, where it fits a configuration. Else it is said what doesn't,
/// and the error is the exit status.
fn fitted<E: Write + Drop>(
    handover: Handover,
    config: &Config,
    err: &mut Printer<E>,
) -> Result<Handover, Status>
    ensures { FitsOrSays config.now handover err.old result err.new }
{
    let bytes = handover.legacy.used_bytes();
    if !has_room(config, bytes) {
        handover.close();
        return Err(report_crowded(err, bytes));
    }
    if !takes_records(handover.legacy.version(), config.journal()) {
        handover.close();
        return Err(report_short(err));
    }
    Ok(handover)
}

/// Reads what the worker on a disk leaves, where it fits a configuration. The disk is only synced
/// and read. An error is the exit status, and is said.
fn take_over<D: Disk, E: Write + Drop>(
    alloc: Global,
    disk: &mut D,
    path: &str,
    config: &Config,
    err: &mut Printer<E>,
) -> Result<Handover, Status>
    ensures { IsTakenOver path.now config.now (D.medium disk.old) (D.medium disk.new)
        err.old result err.new }
{
    match read_legacy(alloc, disk) {
        Ok(handover) => fitted(handover, config, err),
        Err(fault) => Err(report_unleft(err, path, fault)),
    }
}

/// The new worker succeeds the one on the old disk, which was opened. Returns the exit status.
fn succeed_open<F: DiskFile, R: NewFiles<File = F>, W: Write + Drop, E: Write + Drop>(
    alloc: Global,
    files: &R,
    old: &mut FileDisk<F>,
    succession: Succession<'_>,
    out: &mut Printer<W>,
    err: &mut Printer<E>,
) -> Status
    requires { MayPlace (R.known files.now) succession.new.on_device succession.new.path.now }
    ensures { SucceedsOpened F.known (R.known files.now) (succession_of succession.entry.from.now
        succession.entry.new.on_device (new_disk succession.entry.new.path.now
        succession.entry.new.wasm.now succession.entry.new.prepared.now)) old.old old.new
        (printers out.old err.old) (printers out.new err.new) result }
{
    let config = &succession.new.prepared.config;
    match take_over(alloc, old, succession.from, config, err) {
        Ok(handover) => begin_on_disk(alloc, files, succession.new, Some(handover), out, err),
        Err(status) => status,
    }
}

/// `wasmhost create --from` of a module and a configuration that were looked at: the new worker
/// succeeds the one on the old disk, which is only synced and read. Returns the exit status.
pub(super) fn succeed_disk<F: DiskFile, R: NewFiles<File = F>, W: Write + Drop, E: Write + Drop>(
    alloc: Global,
    files: &R,
    succession: Succession<'_>,
    out: &mut Printer<W>,
    err: &mut Printer<E>,
) -> Status
    requires old { IsTrue ((R.known files.now).may_write succession.from.now) }
    requires new { MayPlace (R.known files.now) succession.new.on_device succession.new.path.now }
    ensures { SucceedsDisk F.known (R.known files.now) (succession_of succession.entry.from.now
        succession.entry.new.on_device (new_disk succession.entry.new.path.now
        succession.entry.new.wasm.now succession.entry.new.prepared.now))
        (printers out.old err.old) (printers out.new err.new) result }
{
    let mut old = match open_disk(files, succession.from, false, err) {
        Ok(old) => old,
        Err(status) => return status,
    };
    let status = succeed_open(alloc, files, &mut old, succession, out, err);
    files.close(old);
    status
}

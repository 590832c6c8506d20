//! `wasmhost create`, on a disk whose file is made for it, or on a device.
//!
//! # Promises
//!
//! - `create_on`: `Done` says that the worker of these bytes and this configuration is created on
//!   the disk, at its start. `created N sectors` was printed then. What the other statuses say is
//!   said too, and what a cut at any moment leaves (`CreatesOn`). Where the output can't be
//!   written, that is told on the error output.
//! - `create_disk` does what the words of a creation say, with their sizes, arguments and
//!   environment (`CreatesDisk`). The worker is a fresh one or one that succeeds another. The disk
//!   is a block device that is there (`BeginsOnDevice`), or in a new file at the path. Where the
//!   status is `Done` that file was found at its path after all was written, and is left there.
//!   Else it is removed again, and no other one is (`BeginsInFile`). Where no file or device is
//!   had, the path was refused, or a call of the file has failed.
//!
//! # Choices
//!
//! - **A configuration and a module are looked at before the disk's file is made**, and once more
//!   by the creation. This costs a second decoding, once in a worker's life.

ghost use Rattle.std.specs.Prelude.{◌*◌, ◌≤◌, IfErr, IfOk, IfSome, IsTrue};
ghost use Rattle.file_tree.specs.declared.limits.TheConstants.{UNIT_BYTES};
ghost use Rattle.file_tree.specs.rules.Files.{used};
ghost use Rattle.sector_disk.specs.rules.Known.{MayPlace};
ghost use Rattle.command_words.specs.rules.Commands.{create_said};
ghost use Rattle.command_words.specs.rules.Preparations.{IsPreparedAs, IsUnprepared};
ghost use Rattle.command_words.specs.rules.Printers.{printers};
ghost use Rattle.disk_commands.specs.rules.MadeFiles.{CreatesDisk, MakesOrdered, MayCreate};
ghost use Rattle.disk_commands.specs.rules.MadeFiles.{settings_said};
ghost use Rattle.disk_commands.specs.rules.Openings.{EndsInFile};
ghost use Rattle.disk_commands.specs.rules.Creations.{new_disk};
ghost use Rattle.disk_commands.specs.rules.SuccessorDisks.{BeginsInFile, BeginsOn, BeginsOnDevice};
ghost use Rattle.disk_commands.specs.rules.SuccessorDisks.{BeginsOnDisk};

use crate::on_disk::creation::create_on;
use crate::on_disk::opening::report_open;
use crate::on_disk::succession::{Succession, succeed_disk};
use crate::on_disk::successor::succeed_on;
use command_words::{
    CreateOrder, Prepared, Printer, Sizes, Status, Unprepared, prepare, report_unprepared,
};
use sector_disk::{Disk, DiskFile, DiskFiles, FileDisk, NewFile, NewFiles};
use std::alloc::Global;
use std::io::Write;
use worker::Handover;

/// A disk that is to be made, and the worker that is to be created on it.
#[derive(Clone, Copy)]
pub(super) struct NewDisk<'a> {
    /// The path of its file, or of its device.
    pub(super) path: &'a str,
    /// The bytes of the worker's module.
    pub(super) wasm: &'a [u8],
    /// What the worker is created with.
    pub(super) prepared: &'a Prepared,
    /// Whether it is a block device that is there.
    pub(super) on_device: bool,
}

/// Drops what was handed over, where something was.
fn close_left(left: Option<Handover>) {
    if let Some(handover) = left {
        handover.close();
    }
}

/// Creates a worker on a disk that was made: a fresh one, or one that goes on from what was handed
/// over. Answers the exit status.
fn begin_on<D: Disk, W: Write + Drop, E: Write + Drop>(
    alloc: Global,
    disk: &mut D,
    new: NewDisk<'_>,
    left: Option<Handover>,
    out: &mut Printer<W>,
    err: &mut Printer<E>,
) -> Status
    requires { IfSome left (λ l. used l.legacy.files
        ≤ new.prepared.now.config.files * UNIT_BYTES) }
    ensures { BeginsOn D.medium (new_disk new.entry.path.now new.entry.wasm.now
        new.entry.prepared.now) left disk.old disk.new (printers out.old err.old)
        (printers out.new err.new) result }
{
    match left {
        Some(handover) => succeed_on(alloc, disk, new, handover, out, err),
        None => create_on(alloc, disk, new.wasm, &new.prepared.config, out, err),
    }
}

/// Leaves a new file at its path where the status is `Done`, and the path still leads to the file
/// that the disk is in. Else it is removed, and it is said where that status was `Done`. Answers
/// the exit status.
pub(super) fn keep_if_created<F: DiskFile, R: NewFiles<File = F>, E: Write + Drop>(
    files: &R,
    new: NewFile<'_>,
    disk: &FileDisk<F>,
    status: Status,
    err: &mut Printer<E>,
) -> Status
    ensures { EndsInFile (R.known files.now) new.entry.path.now disk.now status err.old result
        err.new }
{
    if status != Status::Done {
        files.remove_new(new);
        return status;
    }
    match files.look_again(&new, disk) {
        Ok(()) => {
            files.keep_new(new);
            Status::Done
        }
        Err(fault) => {
            let told = report_open(err, new.path(), fault);
            files.remove_new(new);
            told
        }
    }
}

/// The worker on a disk in a new file. That is removed again where the creation fails. Returns the
/// exit status.
fn begin_in_file<F: DiskFile, R: NewFiles<File = F>, W: Write + Drop, E: Write + Drop>(
    alloc: Global,
    files: &R,
    new: NewDisk<'_>,
    left: Option<Handover>,
    out: &mut Printer<W>,
    err: &mut Printer<E>,
) -> Status
    requires new { IsTrue ((R.known files.now).may_make new.path.now) }
    requires fits { IfSome left (λ l. used l.legacy.files
        ≤ new.prepared.now.config.files * UNIT_BYTES) }
    ensures { BeginsInFile F.known (R.known files.now) (new_disk new.entry.path.now
        new.entry.wasm.now new.entry.prepared.now) left (printers out.old err.old)
        (printers out.new err.new) result }
{
    let (mut disk, made) = match FileDisk::create(files, new.path, new.prepared.sectors) {
        Ok(made) => made,
        Err(fault) => {
            close_left(left);
            return report_open(err, new.path, fault);
        }
    };
    let status = begin_on(alloc, &mut disk, new, left, out, err);
    let ended = keep_if_created(files, made, &disk, status, err);
    files.close(disk);
    ended
}

/// The worker on a block device that is there. Nothing is made or removed. Returns the exit status.
fn begin_on_device<F: DiskFile, R: DiskFiles<File = F>, W: Write + Drop, E: Write + Drop>(
    alloc: Global,
    files: &R,
    new: NewDisk<'_>,
    left: Option<Handover>,
    out: &mut Printer<W>,
    err: &mut Printer<E>,
) -> Status
    requires new { IsTrue ((R.known files.now).may_write new.path.now) }
    requires fits { IfSome left (λ l. used l.legacy.files
        ≤ new.prepared.now.config.files * UNIT_BYTES) }
    ensures { BeginsOnDevice F.known (R.known files.now) (new_disk new.entry.path.now
        new.entry.wasm.now new.entry.prepared.now) left (printers out.old err.old)
        (printers out.new err.new) result }
{
    let mut disk = match FileDisk::create_on_device(files, new.path, new.prepared.sectors) {
        Ok(disk) => disk,
        Err(fault) => {
            close_left(left);
            return report_open(err, new.path, fault);
        }
    };
    let status = begin_on(alloc, &mut disk, new, left, out, err);
    files.close(disk);
    status
}

/// The worker on a block device, where that is asked for, or in a new file. Returns the exit
/// status.
pub(super) fn begin_on_disk<F: DiskFile, R: NewFiles<File = F>, W: Write + Drop, E: Write + Drop>(
    alloc: Global,
    files: &R,
    new: NewDisk<'_>,
    left: Option<Handover>,
    out: &mut Printer<W>,
    err: &mut Printer<E>,
) -> Status
    requires new { MayPlace (R.known files.now) new.on_device new.path.now }
    requires fits { IfSome left (λ l. used l.legacy.files
        ≤ new.prepared.now.config.files * UNIT_BYTES) }
    ensures { BeginsOnDisk F.known (R.known files.now) (new_disk new.entry.path.now
        new.entry.wasm.now new.entry.prepared.now) left (printers out.old err.old)
        (printers out.new err.new) result new.entry.on_device }
{
    if new.on_device {
        begin_on_device(alloc, files, new, left, out, err)
    } else {
        begin_in_file(alloc, files, new, left, out, err)
    }
}

/// A creation of what was prepared, as the words say: of a fresh worker, or of one that succeeds
/// another. Returns the exit status.
fn make_ordered<F: DiskFile, R: NewFiles<File = F>, W: Write + Drop, E: Write + Drop>(
    alloc: Global,
    files: &R,
    order: &CreateOrder<'_>,
    new: NewDisk<'_>,
    out: &mut Printer<W>,
    err: &mut Printer<E>,
) -> Status
    requires { MayCreate (R.known files.now) (create_said order.now).predecessor
        new.on_device new.path.now }
    ensures { MakesOrdered F.known (R.known files.now) (create_said order.now).predecessor
        new.entry.on_device (new_disk new.entry.path.now new.entry.wasm.now new.entry.prepared.now)
        (printers out.old err.old) (printers out.new err.new) result }
{
    match order.predecessor {
        None => begin_on_disk(alloc, files, new, None, out, err),
        Some(from) => succeed_disk(alloc, files, Succession { from, new }, out, err),
    }
}

/// What a worker of these bytes is created with, as the words say.
fn prepare_order(
    alloc: Global,
    order: &CreateOrder<'_>,
    wasm: &[u8],
) -> Result<Prepared, Unprepared>
    ensures prepared { IfOk result (IsPreparedAs (settings_said (create_said order.now))
        wasm.now) }
    ensures refused { IfErr result (IsUnprepared (settings_said (create_said order.now))
        wasm.now) }
{
    let sizes = Sizes {
        pages: order.pages,
        files: order.files,
        journal: order.journal,
    };
    let arguments = order.arguments.as_slice();
    let environment = order.environment.as_slice();
    prepare(alloc, wasm, sizes, arguments, environment)
}

/// `wasmhost create` of a worker of the module that the bytes spell, as the words say: with their
/// sizes, arguments and environment, on the device or in the new file that they name. It is fresh,
/// or succeeds the worker on the disk that they name. Nothing is made for a configuration out of
/// its limits and for a module that isn't accepted: that is told. Returns the exit status.
pub fn create_disk<F: DiskFile, R: NewFiles<File = F>, W: Write + Drop, E: Write + Drop>(
    alloc: Global,
    files: &R,
    order: &CreateOrder<'_>,
    wasm: &[u8],
    out: &mut Printer<W>,
    err: &mut Printer<E>,
) -> Status
    requires { MayCreate (R.known files.now) (create_said order.now).predecessor
        order.now.on_device order.now.disk.now }
    ensures { CreatesDisk F.known (R.known files.now) (create_said order.now) wasm.now
        (printers out.old err.old) (printers out.new err.new) result }
{
    match prepare_order(alloc, order, wasm) {
        Ok(prepared) => {
            let new = NewDisk {
                path: order.disk,
                wasm,
                prepared: &prepared,
                on_device: order.on_device,
            };
            let status = make_ordered(alloc, files, order, new, out, err);
            drop(prepared);
            status
        }
        Err(fault) => report_unprepared(alloc, wasm, fault, err),
    }
}

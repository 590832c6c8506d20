//! `wasmhost create --from`, on a disk that was made: a worker that goes on from what another left.
//!
//! # Promises
//!
//! - `succeed_on`: `Done` says that the worker is created on the disk, and goes on from what was
//!   handed over. `created N sectors` was printed then, and after which request and line it goes
//!   on. What the other statuses say is said too, and what a cut at any moment leaves
//!   (`SucceedsOn`).

ghost use Rattle.std.specs.Prelude.{◌≡◌, ◌*◌, ◌≤◌, true, OnErr, OnOk};
ghost use Rattle.file_tree.specs.declared.limits.TheConstants.{UNIT_BYTES};
ghost use Rattle.file_tree.specs.rules.Files.{used};
ghost use Rattle.command_words.specs.rules.Printers.{IsPrinted, printers};
ghost use Rattle.command_words.specs.rules.Reports.{SaysOnOutput};
ghost use Rattle.command_words.specs.declared.status.Status.TheVariants as exit;
ghost use Rattle.disk_commands.specs.rules.SuccessorDisks.{SucceedsOn, dropped_line, successor};
ghost use Rattle.disk_commands.specs.rules.SuccessorDisks.{goes_on_line, successor_text};

use crate::on_disk::fault::{OnDiskFault, say_disk_fault};
use crate::on_disk::making::NewDisk;
use command_words::{Obstacle, Printer, Status, report, sectors_of};
use sector_disk::Disk;
use std::alloc::Global;
use std::io::{self, Write};
use worker::{Handover, create_from};

/// After which request and line a worker goes on, and how many bytes of unfinished lines no worker
/// prints.
#[derive(Clone, Copy)]
struct Numbers {
    requests: u64,
    lines: u64,
    dropped: u64,
}

/// Prints after which request and line a worker goes on.
fn print_goes_on<W: Write + Drop>(out: &mut Printer<W>, requests: u64, lines: u64) -> io::Result<()>
    ensures printed { OnOk result (IsPrinted out.old out.new (goes_on_line requests lines)) }
    ensures failed { OnErr result (out.new.failed ≡ true) }
{
    writeln!(out, "goes on after request {requests}, line {lines}")
}

/// Prints how many bytes are dropped, where there are any.
fn print_dropped<W: Write + Drop>(out: &mut Printer<W>, bytes: u64) -> io::Result<()>
    ensures printed { OnOk result (IsPrinted out.old out.new (dropped_line bytes)) }
    ensures failed { OnErr result (out.new.failed ≡ true) }
{
    if bytes == 0 {
        return Ok(());
    }
    writeln!(out, "dropped {bytes} bytes")
}

/// Prints how many sectors a worker has, and from where it goes on.
fn print_successor<W: Write + Drop>(
    out: &mut Printer<W>,
    sectors: u64,
    numbers: Numbers,
) -> io::Result<()>
    ensures printed { OnOk result (IsPrinted out.old out.new (successor_text sectors
        numbers.requests numbers.lines numbers.dropped)) }
    ensures failed { OnErr result (out.new.failed ≡ true) }
{
    writeln!(out, "created {sectors} sectors")?;
    print_goes_on(out, numbers.requests, numbers.lines)?;
    print_dropped(out, numbers.dropped)?;
    out.flush()
}

/// Says that, or that it can't be written. Answers the exit status.
fn say_successor<W: Write + Drop, E: Write + Drop>(
    out: &mut Printer<W>,
    sectors: u64,
    numbers: Numbers,
    err: &mut Printer<E>,
) -> Status
    ensures { SaysOnOutput (successor_text sectors numbers.requests numbers.lines numbers.dropped)
        exit.Done (printers out.old err.old) (printers out.new err.new) result }
{
    match print_successor(out, sectors, numbers) {
        Ok(()) => Status::Done,
        Err(_) => report(err, Obstacle::Unwritten),
    }
}

/// Creates a worker of the module that the bytes spell, on this disk, which goes on from what was
/// handed over, and says from where. Answers the exit status: `Done` where it is created, `Refused`
/// for a module that isn't accepted and a disk with too few sectors, `IoError` where the disk
/// fails, `OutOfMemory`, `Unwritten` where a write of a printer has failed. One of the output is
/// told on the error output.
pub(super) fn succeed_on<D: Disk, W: Write + Drop, E: Write + Drop>(
    alloc: Global,
    disk: &mut D,
    new: NewDisk<'_>,
    handover: Handover,
    out: &mut Printer<W>,
    err: &mut Printer<E>,
) -> Status
    requires { used handover.legacy.files ≤ new.prepared.now.config.files * UNIT_BYTES }
    ensures { SucceedsOn D.medium (successor new.entry.wasm.now new.entry.prepared.now.config
        handover) disk.old disk.new (printers out.old err.old) (printers out.new err.new) result }
{
    let NewDisk { wasm, prepared, .. } = new;
    let config = &prepared.config;
    let Handover { legacy, dropped } = handover;
    let numbers = Numbers {
        requests: legacy.requests(),
        lines: legacy.lines(),
        dropped,
    };
    match create_from(alloc, disk, wasm, config, legacy) {
        Ok(()) => say_successor(out, sectors_of(config, wasm), numbers, err),
        Err(fault) => say_disk_fault(err, OnDiskFault::from(fault)),
    }
}

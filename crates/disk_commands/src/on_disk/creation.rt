//! `wasmhost create`, on a disk that was made.

ghost use Rattle.std.specs.Prelude.{◌≡◌, true, OnErr, OnOk};
ghost use Rattle.command_words.specs.rules.Printers.{IsPrinted, printers};
ghost use Rattle.command_words.specs.rules.Reports.{SaysOnOutput};
ghost use Rattle.command_words.specs.declared.status.Status.TheVariants as exit;
ghost use Rattle.disk_commands.specs.rules.Creations.{CreatesOn, created_line};

use crate::on_disk::fault::{OnDiskFault, say_disk_fault};
use command_words::{Obstacle, Printer, Status, report, sectors_of};
use sector_disk::Disk;
use std::alloc::Global;
use std::io::{self, Write};
use wasi_abi::Config;
use worker::Worker;

/// Prints how many sectors a worker has.
fn print_created<W: Write + Drop>(out: &mut Printer<W>, sectors: u64) -> io::Result<()>
    ensures printed { OnOk result (IsPrinted out.old out.new (created_line sectors)) }
    ensures failed { OnErr result (out.new.failed ≡ true) }
{
    writeln!(out, "created {sectors} sectors")?;
    out.flush()
}

/// Says how many sectors a worker has, or that this can't be written. Answers the exit status.
fn say_created<W: Write + Drop, E: Write + Drop>(
    out: &mut Printer<W>,
    sectors: u64,
    err: &mut Printer<E>,
) -> Status
    ensures { SaysOnOutput (created_line sectors) exit.Done (printers out.old err.old)
        (printers out.new err.new) result }
{
    match print_created(out, sectors) {
        Ok(()) => Status::Done,
        Err(_) => report(err, Obstacle::Unwritten),
    }
}

/// Creates a worker of the module that the bytes spell, on this disk, and says how many sectors it
/// has. Answers the exit status: `Done` where it is created, `Refused` for a module that isn't
/// accepted and a disk with too few sectors, `IoError` where the disk fails, `OutOfMemory`,
/// `Unwritten` where a write of a printer has failed. One of the output is told on the error
/// output.
pub fn create_on<D: Disk, W: Write + Drop, E: Write + Drop>(
    alloc: Global,
    disk: &mut D,
    wasm: &[u8],
    config: &Config,
    out: &mut Printer<W>,
    err: &mut Printer<E>,
) -> Status
    ensures { CreatesOn D.medium wasm.now config.now disk.old disk.new (printers out.old err.old)
        (printers out.new err.new) result }
{
    match Worker::create(alloc, disk, wasm, config) {
        Ok(worker) => {
            worker.close();
            say_created(out, sectors_of(config, wasm), err)
        }
        Err(fault) => say_disk_fault(err, OnDiskFault::from(fault)),
    }
}

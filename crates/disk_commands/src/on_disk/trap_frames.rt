//! What a run says of the frames of a worker that has trapped.
//!
//! # Promises
//!
//! - `print_trap`: the lines of frames, 32 at most, and how many more there are (`TellsFrames`).
//!   Nothing is printed of a worker that hasn't trapped. The names are those that the module on its
//!   disk has for these functions, where each byte may be printed (`IsNamedIn`, `IsModuleOn`). That
//!   these are the frames rows of `scripts/runs/program-rows` show: a machine that has trapped
//!   shows contracts no frames.
//!
//! # Choices
//!
//! - **32 frames are told at most**, the innermost ones. A stack that is exhausted has thousands.
//! - **Names are read off the worker's disk once more**, after its last act. So a run needs no
//!   memory for them before, and whatever is at the path by then, they are of the module that has
//!   run. Where they can't be read, lines have no names, and the status is the same.

ghost use Rattle.std.specs.Prelude.{◌≡◌, true, List, ℕ, IfSome, OnErr, OnOk};
ghost use Rattle.disk_layout.specs.rules.Stored.{OnlyReads};
ghost use Rattle.command_words.specs.FunctionNames.{lent_bytes};
ghost use Rattle.command_words.specs.rules.Printers.{IsPrinted};
ghost use Rattle.disk_commands.specs.rules.LastWords.{ended_by};
ghost use Rattle.disk_commands.specs.rules.TrapFrames.{AreFrameLines, IsModuleOn, IsNamedIn};
ghost use Rattle.disk_commands.specs.rules.TrapFrames.{TellsFrames, ToldFrame, frame_line};
ghost use Rattle.disk_commands.specs.rules.TrapFrames.{more_line};
ghost use Rattle.disk_commands.specs.TrapFrames.{told_frame};

use crate::on_disk::showing::print_number;
use command_words::{Printer, name_in, print_name};
use disk_layout::read_contents;
use machine::{Machine, TrapFrame};
use process::ProcessEnd;
use record_replay::Now;
use sector_disk::Disk;
use std::alloc::Global;
use std::io::{self, Write};
use wasm_syntax::ItemList;
use worker::Worker;

/// The most frames that are told.
const MOST_FRAMES: usize = 32;

/// Writes the line of a frame whose function has this name, if any.
fn print_line<E: Write + Drop>(
    err: &mut Printer<E>,
    frame: TrapFrame,
    name: Option<&[u8]>,
) -> io::Result<()>
    ensures printed { OnOk result (IsPrinted err.old err.new
        (frame_line (told_frame frame (lent_bytes name.entry)))) }
    ensures failed { OnErr result (err.new.failed ≡ true) }
{
    print_number(err, "at function ", u64::from(frame.function))?;
    print_name(err, name)?;
    print_number(err, ", opcode ", frame.position as u64)?;
    err.write_all(b"\n")
}

/// Writes the line of a frame, with the name that the module gives its function.
fn print_frame<E: Write + Drop>(
    err: &mut Printer<E>,
    module: Option<&[u8]>,
    frame: TrapFrame,
) -> io::Result<()>
    ensures printed { OnOk result ((told : ToldFrame) × IsNamedIn (lent_bytes module.entry) told
        × IsPrinted err.old err.new (frame_line told)) }
    ensures failed { OnErr result (err.new.failed ≡ true) }
{
    print_line(err, frame, name_in(module, frame.function))
}

/// Writes how many more frames there are, if there are any.
fn print_more<E: Write + Drop>(err: &mut Printer<E>, more: usize) -> io::Result<()>
    ensures printed { OnOk result (IsPrinted err.old err.new (more_line more)) }
    ensures failed { OnErr result (err.new.failed ≡ true) }
{
    match more {
        0 => Ok(()),
        1 => err.write_all(b"and 1 more frame\n"),
        _ => writeln!(err, "and {more} more frames"),
    }
}

/// Writes the lines of a machine's frames, with the names that the module gives their functions.
fn print_frames<E: Write + Drop>(
    err: &mut Printer<E>,
    module: Option<&[u8]>,
    machine: &Machine,
) -> io::Result<()>
    ensures printed { OnOk result ((text : List ℕ) × AreFrameLines (lent_bytes module.entry) text
        × IsPrinted err.old err.new text) }
    ensures failed { OnErr result (err.new.failed ≡ true) }
{
    for index in 0..MOST_FRAMES {
        let Some(frame) = machine.trap_frame(index) else {
            return Ok(());
        };
        print_frame(err, module, frame)?;
    }
    print_more(err, machine.trap_frame_count().saturating_sub(MOST_FRAMES))
}

/// The module on a worker's disk, where it can be read.
fn module_on<D: Disk>(alloc: Global, disk: &mut D) -> Option<ItemList<u8>>
    ensures reads { OnlyReads (D.medium disk.old) (D.medium disk.new) }
    ensures shown { IfSome result (IsModuleOn (D.medium disk.new)) }
{
    match read_contents(alloc, disk) {
        Ok(contents) => Some(contents.wasm),
        Err(_) => None,
    }
}

/// Writes the lines of the frames of a worker that is over, if it has trapped, with the names that
/// the module gives their functions.
pub(super) fn print_trap<E: Write + Drop>(
    err: &mut Printer<E>,
    now: Now,
    worker: &Worker,
    module: Option<&[u8]>,
) -> io::Result<()>
    ensures printed { OnOk result ((text : List ℕ)
        × TellsFrames (lent_bytes module.entry) (ended_by now) text
        × IsPrinted err.old err.new text) }
    ensures failed { OnErr result (err.new.failed ≡ true) }
{
    match now {
        Now::Ended(ProcessEnd::Trapped(_)) => {
            print_frames(err, module, worker.process().machine())
        }
        Now::Ended(ProcessEnd::Exited(_)) | Now::Waiting | Now::Spent => Ok(()),
    }
}

/// The module on the disk of a worker that has frames to tell, where it can be read. The disk is
/// only read, and not at all where there are none.
pub(super) fn module_of_trapped<D: Disk>(
    alloc: Global,
    disk: &mut D,
    worker: &Worker,
) -> Option<ItemList<u8>>
    ensures reads { OnlyReads (D.medium disk.old) (D.medium disk.new) }
    ensures shown { IfSome result (IsModuleOn (D.medium disk.new)) }
{
    if worker.process().machine().trap_frame_count() == 0 {
        return None;
    }
    module_on(alloc, disk)
}

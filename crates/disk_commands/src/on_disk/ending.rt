//! The last words of a run.
//!
//! # Choices
//!
//! - The last words of a worker that is over are part of what `Done` says. Those of a run that
//!   fails are printed by derived `Display`s, which no clause knows: its status is proved, and
//!   tests show its words.
//! - **The last words are read off the calls of that life** (`outcome_after`), not said beside
//!   them. A clause that had only said that the last slice didn't just spend its fuel was met by
//!   `parked` for a worker that had exited.

ghost use Rattle.std.specs.Prelude.{◌≡◌, ◌+◌, true, OnErr, OnOk};
ghost use Rattle.command_words.specs.FunctionNames.{lent_bytes};
ghost use Rattle.command_words.specs.rules.Printers.{IsPrinted};
ghost use Rattle.disk_commands.specs.rules.LastWords.{PrintsOver, SaysOver, ended_by, last_words};
ghost use Rattle.disk_commands.specs.rules.LastWords.{next_line, request_words};

use crate::on_disk::trap_frames::print_trap;
use command_words::{Printer, Status, trap_name};
use process::ProcessEnd;
use record_replay::Now;
use std::io::{self, Write};
use worker::Worker;

/// Writes the last words of a worker that is over.
pub(super) fn print_last_words<E: Write + Drop>(err: &mut Printer<E>, now: Now) -> io::Result<()>
    ensures printed { OnOk result (IsPrinted err.old err.new (last_words (ended_by now))) }
    ensures failed { OnErr result (err.new.failed ≡ true) }
{
    match now {
        Now::Ended(ProcessEnd::Exited(code)) => writeln!(err, "exited {code}")?,
        Now::Ended(ProcessEnd::Trapped(why)) => writeln!(err, "trapped {}", trap_name(why))?,
        Now::Waiting | Now::Spent => writeln!(err, "parked")?,
    }
    err.flush()
}

/// The number after this one.
pub(super) fn following(taken: u64) -> u128
    ensures { result ≡ taken + 1 }
{
    u128::from(taken) + 1
}

/// Writes the number of the next request of a worker that waits.
fn print_request<E: Write + Drop>(err: &mut Printer<E>, number: u128) -> io::Result<()>
    ensures printed { OnOk result (IsPrinted err.old err.new (request_words number)) }
    ensures failed { OnErr result (err.new.failed ≡ true) }
{
    writeln!(err, "parked, next request {number}")
}

/// Writes that number, where a person reads along, of a worker that waits. It has taken so many.
fn print_next<E: Write + Drop>(
    err: &mut Printer<E>,
    is_heard: bool,
    now: Now,
    taken: u64,
) -> io::Result<()>
    ensures printed { OnOk result (IsPrinted err.old err.new
        (next_line is_heard (ended_by now) taken)) }
    ensures failed { OnErr result (err.new.failed ≡ true) }
{
    if !is_heard {
        return Ok(());
    }
    match now {
        Now::Ended(_) => Ok(()),
        Now::Waiting | Now::Spent => print_request(err, following(taken)),
    }
}

/// Writes the last words of a worker that is over, the lines of its frames, and that line.
fn print_over<E: Write + Drop>(
    err: &mut Printer<E>,
    is_heard: bool,
    now: Now,
    taken: u64,
    worker: &Worker,
    module: Option<&[u8]>,
) -> io::Result<()>
    ensures printed { OnOk result
        (PrintsOver (lent_bytes module.entry) is_heard (ended_by now) taken err.old err.new) }
    ensures failed { OnErr result (err.new.failed ≡ true) }
{
    print_last_words(err, now)?;
    print_trap(err, now, worker, module)?;
    print_next(err, is_heard, now, taken)
}

/// Says how a worker is over, which has taken so many requests, and answers the exit status. Where
/// it has trapped, its frames are said, too, with names of the module.
pub(super) fn say<E: Write + Drop>(
    err: &mut Printer<E>,
    is_heard: bool,
    now: Now,
    taken: u64,
    worker: &Worker,
    module: Option<&[u8]>,
) -> Status
    ensures { SaysOver (lent_bytes module.entry) is_heard (ended_by now) taken err.old result
        err.new }
{
    match print_over(err, is_heard, now, taken, worker, module) {
        Ok(()) => Status::Done,
        Err(_) => Status::Unwritten,
    }
}

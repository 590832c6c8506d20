//! Why a worker isn't succeeded by another one, told to a person.
//!
//! # Choices
//!
//! - **Each refusal has a second line that says what to do**, or that nothing can be done: of steps
//!   at their end. What a recovery finds wrong with the old disk is told as by `show`, but with its
//!   path on the second line.

ghost use Rattle.std.specs.Prelude.{◌≡◌};
ghost use Rattle.disk_layout.specs.rules.Journal.{TakesRecords};
ghost use Rattle.command_words.specs.rules.Reports.{SaysLine};
ghost use Rattle.command_words.specs.declared.status.Status.TheVariants as exit;
ghost use Rattle.disk_commands.specs.rules.SuccessorDisks.{SaysUnleft, crowded_words};
ghost use Rattle.disk_commands.specs.rules.SuccessorDisks.{restless_words, short_words};
ghost use Rattle.disk_commands.specs.rules.SuccessorDisks.{spent_words, units_for};

use crate::on_disk::fault::{OnDiskFault, say_fault_at};
use command_words::{Printer, Status, say_line};
use file_tree::limits::UNIT_BYTES;
use std::io::Write;
use worker::LeaveFault;

/// Says that the worker on the disk at this path isn't at rest.
fn say_restless<E: Write + Drop>(err: &mut Printer<E>, path: &str) -> Status
    ensures { SaysLine (restless_words path.now) exit.Refused err.old result err.new }
{
    match writeln!(
        err,
        "failed N9 NotParked\n{path}: isn't at rest: run it without requests, and keep its lines"
    ) {
        Ok(()) => Status::Refused,
        Err(_) => Status::Unwritten,
    }
}

/// Says that the steps of the worker on the disk at this path are at their end.
fn say_spent<E: Write + Drop>(err: &mut Printer<E>, path: &str) -> Status
    ensures { SaysLine (spent_words path.now) exit.Refused err.old result err.new }
{
    match writeln!(
        err,
        "failed P3 StepsSpent\n{path}: its steps can't be counted further: nothing can succeed it"
    ) {
        Ok(()) => Status::Refused,
        Err(_) => Status::Unwritten,
    }
}

/// Prints why the worker on the disk at this path leaves nothing, and answers the exit status, or
/// `Unwritten` where a write has failed.
pub(super) fn report_unleft<E: Write + Drop>(
    err: &mut Printer<E>,
    path: &str,
    fault: LeaveFault,
) -> Status
    ensures { SaysUnleft path.now fault err.old result err.new }
{
    match fault {
        LeaveFault::NotParked => say_restless(err, path),
        LeaveFault::StepsSpent => say_spent(err, path),
        LeaveFault::Recover(fault) => say_fault_at(err, path, OnDiskFault::from(fault)),
    }
}

/// How many units so many bytes of files take.
fn units_for(bytes: u64) -> u64
    ensures { result ≡ units_for bytes }
{
    let whole = bytes / UNIT_BYTES;
    if bytes % UNIT_BYTES == 0 {
        whole
    } else {
        whole + 1
    }
}

/// Prints that files of so many bytes don't fit, and answers the exit status, or `Unwritten` where
/// a write has failed.
pub(super) fn report_crowded<E: Write + Drop>(err: &mut Printer<E>, bytes: u64) -> Status
    ensures { SaysLine (crowded_words (units_for bytes)) exit.Refused err.old result err.new }
{
    let units = units_for(bytes);
    match writeln!(
        err,
        "failed F4 NoRoom\nits files take {units} units: --files {units}"
    ) {
        Ok(()) => Status::Refused,
        Err(_) => Status::Unwritten,
    }
}

/// Prints that a journal is too small for version 2, and answers the exit status, or `Unwritten`
/// where a write has failed.
pub(super) fn report_short<E: Write + Drop>(err: &mut Printer<E>) -> Status
    ensures { SaysLine short_words exit.Refused err.old result err.new }
{
    let words = "failed N7 JournalTooSmall\nversion 2 takes at least 133 sectors: --journal 133";
    say_line(err, Status::Refused, words)
}

//! What the program says beside the lines of a worker: one line, or help, and the status of that.
//!
//! # Choices
//!
//! - **The tip of `clap` to write `-- -1` for `--pages -1` isn't printed**, since it is of no use
//!   here. The tip is cut out of the text (`around_tip`): to turn it off in the kit's `clap` would
//!   lose what is proved of the words.

ghost use Rattle.std.specs.Prelude.{◌≡◌, ◌⊎◌, IfSome};
ghost use Rattle.command_words.specs.declared.telling.Obstacle.TheVariants.{NoText};
ghost use Rattle.command_words.specs.rules.Commands.{IsStatusOf};
ghost use Rattle.command_words.specs.rules.Printers.{IsSaid, HeedsBoth, printers};
ghost use Rattle.command_words.specs.rules.Reports.{SaysLine, obstacle_status};
ghost use Rattle.command_words.specs.Reports.{IsAroundTip};
ghost use Rattle.command_words.specs.rules.Reports.{SaysOfOutput, obstacle_words};
ghost use Rattle.command_words.specs.declared.status.Status.TheVariants as exit;

use crate::command_line::WordsFault;
use crate::printer::Printer;
use crate::status::Status;
use clap::Error;
use std::alloc::Global;
use std::fmt::Display;
use std::io::Write;

/// How a tip of `clap` begins: to write after `--` what begins with a hyphen.
const TIP: &str = "\n\n  tip: to pass '-";

/// What is after a tip.
const GAP: &str = "\n\n";

/// Why a command isn't begun, or that its output can't be written.
#[derive(Clone, Copy, Debug, PartialEq, Eq)]
pub enum Obstacle {
    Memory,
    /// A disk can't be written back.
    Unread,
    /// The argument with this number isn't UTF-8. The program's name has the number 0.
    NoText(usize),
    /// A text spells no seed.
    NoSeed,
    /// A seed is given, and a file with one.
    TwoSeeds,
    /// A text spells no fronts.
    NoFronts,
    /// A script has no life of a number.
    NoLife,
    /// A write of the output has failed.
    Unwritten,
}

/// Prints a line. Answers the status, or `Unwritten` where a write has failed.
pub fn say_line<W: Write + Drop>(out: &mut Printer<W>, status: Status, line: &str) -> Status
    ensures { SaysLine line.now status out.old result out.new }
{
    match writeln!(out, "{line}") {
        Ok(()) => status,
        Err(_) => Status::Unwritten,
    }
}

/// Prints which argument isn't UTF-8. Answers the status, or `Unwritten` where a write has failed.
fn say_no_text<E: Write + Drop>(err: &mut Printer<E>, number: usize) -> Status
    ensures { SaysLine (obstacle_words (NoText number)) exit.Usage err.old result err.new }
{
    match writeln!(err, "error: argument {number} isn't UTF-8") {
        Ok(()) => Status::Usage,
        Err(_) => Status::Unwritten,
    }
}

/// Prints why a command isn't begun, or that its output can't be written, and answers the exit
/// status.
pub fn report<E: Write + Drop>(err: &mut Printer<E>, obstacle: Obstacle) -> Status
    ensures { SaysLine (obstacle_words obstacle) (obstacle_status obstacle) err.old
        result err.new }
{
    match obstacle {
        Obstacle::Memory => say_line(err, Status::OutOfMemory, "failed N4 Memory"),
        Obstacle::Unread => say_line(err, Status::IoError, "failed K2 Io"),
        Obstacle::NoText(number) => say_no_text(err, number),
        Obstacle::NoSeed => say_line(err, Status::Usage, "error: a seed is 64 hexadecimal digits"),
        Obstacle::TwoSeeds => {
            say_line(
                err,
                Status::Usage,
                "error: --seed and --seed-file can't both be given",
            )
        }
        Obstacle::NoFronts => say_line(
            err,
            Status::Usage,
            "error: fronts are numbers from 0 to 512",
        ),
        Obstacle::NoLife => say_line(err, Status::Usage, "error: the script has no such life"),
        Obstacle::Unwritten => say_line(err, Status::Unwritten, "failed N3 Outlet"),
    }
}

/// Says after a command whether a write of its output has failed. Answers its status, or
/// `Unwritten` then.
pub fn report_output<W: Write + Drop, E: Write + Drop>(
    out: &Printer<W>,
    status: Status,
    err: &mut Printer<E>,
) -> Status
    ensures { SaysOfOutput out.now.failed status err.old result err.new }
{
    if out.has_failed() {
        return report(err, Obstacle::Unwritten);
    }
    status
}

/// Prints a text as it is. Answers the status, or `Unwritten` where a write has failed.
fn say_displayed<W: Write + Drop, T: Display>(
    out: &mut Printer<W>,
    status: Status,
    text: &T,
) -> Status
    ensures { IsSaid status out.old result out.new }
{
    match write!(out, "{text}") {
        Ok(()) => status,
        Err(_) => Status::Unwritten,
    }
}

/// Whether a text begins with a digit.
fn begins_with_digit(text: &str) -> bool {
    matches!(text.as_bytes(), [b'0'..=b'9', ..])
}

/// What is before and after a tip to write a number below 0 after `--`, if the text has one.
fn around_tip(text: &str) -> Option<(&str, &str)>
    ensures { IfSome result (λ parts. IsAroundTip text.now parts.0.now parts.1.now) }
{
    let (before, rest) = text.split_once(TIP)?;
    let (tip, behind) = rest.split_once(GAP)?;
    if begins_with_digit(tip) {
        Some((before, behind))
    } else {
        None
    }
}

/// Prints what is wrong with the words, without such a tip: no number is below 0, after `--`
/// or before it. Where there is no memory to look for one, the text is printed as it is. Answers
/// the status, or `Unwritten` where a write has failed.
fn say_mistake<E: Write + Drop>(
    alloc: Global,
    err: &mut Printer<E>,
    status: Status,
    mistake: &Error,
) -> Status
    ensures { IsSaid status err.old result err.new }
{
    let Ok(text) = format!(in alloc; "{mistake}") else {
        return say_displayed(err, status, mistake);
    };
    let Some((before, behind)) = around_tip(text.as_str()) else {
        return say_displayed(err, status, &text);
    };
    match write!(err, "{before}{GAP}{behind}") {
        Ok(()) => status,
        Err(_) => Status::Unwritten,
    }
}

/// Prints the text of a fault of the words: help on the output, all else on the error output.
/// Answers the exit status, or `Unwritten` where a write has failed.
pub fn report_words<W: Write + Drop, E: Write + Drop>(
    alloc: Global,
    fault: &WordsFault,
    out: &mut Printer<W>,
    err: &mut Printer<E>,
) -> Status
    ensures status { IsStatusOf fault.now result ⊎ (result ≡ exit.Unwritten) }
    ensures heeded { HeedsBoth (printers out.old err.old) (printers out.new err.new) result }
    ensures help { result ≡ exit.Done → err.new ≡ err.old }
    ensures mistake { result ≡ exit.Usage → out.new ≡ out.old }
{
    let WordsFault::Words(text) = fault else {
        return report(err, Obstacle::Memory);
    };
    let status = fault.status();
    match status {
        Status::Done => say_displayed(out, status, text),
        _ => say_mistake(alloc, err, status, text),
    }
}

//! What a run says of its input after its last words.
//!
//! # Promises
//!
//! - `report_input`: after a run, at which line of its input a refused one is, what is wrong with
//!   it (`IsFlawIn`), how many lines were passed over, where a person reads along, and how many
//!   requests were read ahead that nobody took (`SaysOfInput`). Of a request that is too long the
//!   length of its text is told, where its end was read, and the two steps that make a worker of
//!   version 1 take it, with the path of its disk (`widening_words`).
//!
//! # Choices
//!
//! - **A refused line's number is counted by the reader of lines**, and printed after the run. No
//!   clause says that it is the number of that line: `scripts/runs/disk-rows` has rows of it. Lines
//!   that are passed over are counted by the source of requests. No clause says either that each
//!   one is: `scripts/runs/program-rows` has rows of it. What is printed of requests that nobody
//!   took is a function of the bytes that were read ahead (`SaysUntaken`). Reading on could wait
//!   for ever, so nothing more is read.

ghost use Rattle.std.specs.Prelude.{◌≡◌, ◌++◌, true, OnErr, OnOk, Option, codes};
ghost use Rattle.std.specs.Fmt.{decimal};
ghost use Rattle.std.specs.Io.Buffered.{reader_buffer};
ghost use Rattle.command_words.specs.declared.lines.flaw.LineFlaw.{LineFlaw as Flaw};
ghost use Rattle.command_words.specs.rules.Flaws.{IsFlawIn, excess_words, flaw_line, flaw_words};
ghost use Rattle.command_words.specs.rules.Flaws.{text_limit_words, widening_words};
ghost use Rattle.command_words.specs.rules.Printers.{IsPrinted, SaysText};
ghost use Rattle.command_words.specs.declared.status.Status.TheVariants as exit;
ghost use Rattle.disk_commands.specs.rules.Leavings.{SaysUntaken, SaysOfInput, untaken_line};
ghost use Rattle.disk_commands.specs.rules.Leavings.{TellsSkipped, place_line, skipped_line};
ghost use Rattle.disk_commands.specs.rules.Leavings.{input_left};

use command_words::{
    BufferedLines, LineFlaw, Printer, RealTime, RequestSource, Status, count_later, flaw_in,
    words_of_cut, words_of_limit,
};
use std::io::{self, BufReader, Read, Write};
use wasi_abi::Version;

/// What is told of a request whose number is too great.
const FAR: &str = "the number of a request is below 9223372036854775808";

/// What is told of a line that is no request.
const FORM: &str = "a request is N r TEXT or N e, with N from 1 on";

/// Writes which line of the input was refused.
fn print_place<E: Write + Drop>(err: &mut Printer<E>, number: u64) -> io::Result<()>
    ensures printed { OnOk result (IsPrinted err.old err.new (place_line number)) }
    ensures failed { OnErr result (err.new.failed ≡ true) }
{
    writeln!(err, "at input line {number}")
}

/// Writes some words.
fn print_words<E: Write + Drop>(err: &mut Printer<E>, words: &str) -> io::Result<()>
    ensures printed { OnOk result (IsPrinted err.old err.new words.now) }
    ensures failed { OnErr result (err.new.failed ≡ true) }
{
    err.write_all(words.as_bytes())
}

/// Writes what makes the worker of this disk take longer texts, where something does.
fn print_widening<E: Write + Drop>(
    err: &mut Printer<E>,
    disk: &str,
    version: Version,
) -> io::Result<()>
    ensures printed { OnOk result (IsPrinted err.old err.new (widening_words disk.now version)) }
    ensures failed { OnErr result (err.new.failed ≡ true) }
{
    match version {
        Version::One => write!(
            err,
            ": wasmhost run {disk} </dev/null >>LINES, then wasmhost upgrade {disk}"
        ),
        Version::Two => Ok(()),
    }
}

/// Writes that a text has so many bytes, how long one may be, and what can be done.
fn print_long<E: Write + Drop>(
    err: &mut Printer<E>,
    disk: &str,
    version: Version,
    bytes: usize,
) -> io::Result<()>
    ensures printed { OnOk result (IsPrinted err.old err.new
        (decimal bytes ++ codes " bytes, and " ++ text_limit_words version
        ++ widening_words disk.now version)) }
    ensures failed { OnErr result (err.new.failed ≡ true) }
{
    write!(err, "{bytes} bytes, and ")?;
    print_words(err, words_of_limit(version))?;
    print_widening(err, disk, version)
}

/// Writes that a line is longer than one may be, and what can be done.
fn print_cut<E: Write + Drop>(err: &mut Printer<E>, disk: &str, version: Version) -> io::Result<()>
    ensures printed { OnOk result (IsPrinted err.old err.new
        (excess_words version ++ widening_words disk.now version)) }
    ensures failed { OnErr result (err.new.failed ≡ true) }
{
    print_words(err, words_of_cut(version))?;
    print_widening(err, disk, version)
}

/// Writes what is wrong with a line, where the worker of this disk is of this version.
fn print_flaw<E: Write + Drop>(
    err: &mut Printer<E>,
    disk: &str,
    version: Version,
    flaw: LineFlaw,
) -> io::Result<()>
    ensures printed { OnOk result (IsPrinted err.old err.new (flaw_words disk.now version flaw)) }
    ensures failed { OnErr result (err.new.failed ≡ true) }
{
    match flaw {
        LineFlaw::Long { bytes } => print_long(err, disk, version, bytes),
        LineFlaw::Cut => print_cut(err, disk, version),
        LineFlaw::Far => print_words(err, FAR),
        LineFlaw::Form => print_words(err, FORM),
    }
}

/// Writes that on a line of its own, if something is wrong with it.
fn print_flaw_line<E: Write + Drop>(
    err: &mut Printer<E>,
    disk: &str,
    version: Version,
    flaw: Option<LineFlaw>,
) -> io::Result<()>
    ensures printed { OnOk result (IsPrinted err.old err.new (flaw_line disk.now version flaw)) }
    ensures failed { OnErr result (err.new.failed ≡ true) }
{
    match flaw {
        Some(flaw) => {
            print_flaw(err, disk, version, flaw)?;
            print_words(err, "\n")
        }
        None => Ok(()),
    }
}

/// Writes which line of the input was refused, and what is wrong with it.
fn print_refused<E: Write + Drop>(
    err: &mut Printer<E>,
    number: u64,
    disk: &str,
    version: Version,
    flaw: Option<LineFlaw>,
) -> io::Result<()>
    ensures printed { OnOk result (IsPrinted err.old err.new
        (place_line number ++ flaw_line disk.now version flaw)) }
    ensures failed { OnErr result (err.new.failed ≡ true) }
{
    print_place(err, number)?;
    print_flaw_line(err, disk, version, flaw)
}

/// Says which line of the input was refused, and what is wrong with it, if something is. Answers
/// the exit status.
fn say_refused<E: Write + Drop>(
    err: &mut Printer<E>,
    number: u64,
    disk: &str,
    version: Version,
    flaw: Option<LineFlaw>,
) -> Status
    ensures { SaysText (place_line number ++ flaw_line disk.now version flaw) exit.BadLine err.old
        result err.new }
{
    match print_refused(err, number, disk, version, flaw) {
        Ok(()) => Status::BadLine,
        Err(_) => Status::Unwritten,
    }
}

/// Writes how many lines were passed over.
fn print_skipped<E: Write + Drop>(err: &mut Printer<E>, count: u64) -> io::Result<()>
    ensures printed { OnOk result (IsPrinted err.old err.new (skipped_line count)) }
    ensures failed { OnErr result (err.new.failed ≡ true) }
{
    writeln!(err, "skipped {count}")
}

/// Tells a person how many lines were passed over, where there are any. A run ends as it does
/// though this can't be printed.
fn tell_skipped<E: Write + Drop>(err: &mut Printer<E>, count: u64)
    ensures { TellsSkipped count err.old err.new }
{
    if count > 0 && err.is_terminal() {
        let _ = print_skipped(err, count);
    }
}

/// Says how many requests nobody took, and answers the exit status.
fn say_count<E: Write + Drop>(err: &mut Printer<E>, count: usize) -> Status
    ensures { SaysText (untaken_line count) exit.Done err.old result err.new }
{
    match writeln!(err, "requests not taken: {count}") {
        Ok(()) => Status::Done,
        Err(_) => Status::Unwritten,
    }
}

/// Says that of the lines which were read ahead, if there are any, and answers the exit status.
/// Their texts may have `limit` bytes.
fn say_untaken<E: Write + Drop>(
    err: &mut Printer<E>,
    limit: usize,
    ahead: &[u8],
    taken: u64,
) -> Status
    ensures { SaysUntaken limit taken ahead.now err.old result err.new }
{
    let count = count_later(limit, ahead, taken);
    if count == 0 {
        return Status::Done;
    }
    say_count(err, count)
}

/// What is wrong with the line that a source has refused, if it was refused for its form.
fn flaw_of_source<R: Read + Drop, C: RealTime + Drop>(
    source: &RequestSource<BufferedLines<BufReader<R>>, C>,
) -> Option<LineFlaw>
    ensures { IsFlawIn source.now.fault source.now.requests.reader.is_cut
        source.now.requests.line.items result }
{
    let requests = source.requests();
    flaw_in(source.fault(), requests.reader().is_cut(), requests.line())
}

/// The same as `report_input`, where this is wrong with the line that was refused.
fn say_input<R: Read + Drop, C: RealTime + Drop, E: Write + Drop>(
    source: &RequestSource<BufferedLines<BufReader<R>>, C>,
    flaw: Option<LineFlaw>,
    disk: &str,
    status: Status,
    err: &mut Printer<E>,
) -> Status
    ensures { SaysOfInput (input_left disk.now source.now.requests.version
        source.now.requests.taken (reader_buffer source.now.requests.reader.reader)
        source.now.requests.reader.begun source.now.requests.skipped flaw) status err.old result
        err.new }
{
    let requests = source.requests();
    match status {
        Status::BadLine => {
            let number = requests.reader().line_number();
            say_refused(err, number, disk, requests.version(), flaw)
        }
        Status::Done => {
            tell_skipped(err, requests.skipped());
            let ahead = requests.reader().read_ahead();
            say_untaken(err, requests.text_limit(), ahead, requests.taken())
        }
        other => other,
    }
}

/// Says after a run of the disk at this path that ended with this status what else is known of its
/// input: at which line a refused one is, what is wrong with it, and what to do; how many lines
/// were passed over, to a person; and how many requests were read ahead that a worker which is over
/// doesn't take. Reads nothing more. Answers the exit status, or `Unwritten` where a write has
/// failed.
pub fn report_input<R: Read + Drop, C: RealTime + Drop, E: Write + Drop>(
    source: &RequestSource<BufferedLines<BufReader<R>>, C>,
    disk: &str,
    status: Status,
    err: &mut Printer<E>,
) -> Status
    ensures { (flaw : Option Flaw) × IsFlawIn source.now.fault
        source.now.requests.reader.is_cut source.now.requests.line.items flaw
        × SaysOfInput (input_left disk.now source.now.requests.version
        source.now.requests.taken (reader_buffer source.now.requests.reader.reader)
        source.now.requests.reader.begun source.now.requests.skipped flaw) status err.old result
        err.new }
{
    let flaw = flaw_of_source(source);
    say_input(source, flaw, disk, status, err)
}

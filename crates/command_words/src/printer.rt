//! What the program says its own lines with.
//!
//! # Promises
//!
//! - `Printer`: what the program says goes through one. A printer keeps whether a write has failed,
//!   and no other code can make that true. `Status::Unwritten` comes with a failed write everywhere
//!   below (`IsSaid`, `SaysText`, `HeedsBoth`).
//!
//! # Choices
//!
//! - **`Printer::write_all` has the loop over `write`.** The kit's own says nothing of what an
//!   error has left, and this one that at most a prefix of the bytes was written.
//! - **The error output is asked once whether it is a terminal**, by `main`. No clause says what a
//!   terminal is. `--verbose` has a run say what one is told (`read_along`).

ghost use Rattle.std.specs.Prelude.{◌≡◌, true, false, IfSome, OnErr, OnOk};
ghost use Rattle.std.specs.Io.KnownBytes.{Appends, Keeps};
ghost use Rattle.command_words.specs.rules.Printers.{printer_state, GrowsByFront, read_along};
ghost use Rattle.command_words.specs.rules.Printers.{IsPrinted, SaysText};
ghost use Rattle.command_words.specs.declared.status.Status.TheVariants as exit;

use crate::status::Status;
use std::fmt::Display;
use std::io::{self, Error, ErrorKind, Write};
use std::marker::Model;

/// A writer for what the program says, and what is known of it. Only a write that fails makes
/// `has_failed` true: no one else may touch the fields.
#[derive(Drop)]
pub struct Printer<W: Write + Drop> {
    out: W,
    is_terminal: bool,
    has_failed: bool,
}

impl<W: Write + Drop> Model for Printer<W> {
    ghost use Rattle.command_words.specs.rules.Printers.{PrinterState, printer_state};

    ghost Value = { PrinterState };

    ghost view = { λ p. printer_state (W.contents p.out) p.is_terminal p.has_failed };
}

impl<W: Write + Drop> Printer<W> {
    /// A printer of which no write has failed.
    pub fn new(out: W, is_terminal: bool) -> Printer<W>
        ensures { result ≡ printer_state (W.contents out) is_terminal false }
    {
        Printer {
            out,
            is_terminal,
            has_failed: false,
        }
    }

    /// Whether a person reads along.
    pub fn is_terminal(&self) -> bool
        ensures { result ≡ self.now.on_terminal }
    {
        self.is_terminal
    }

    /// From now on a person reads along, where that is so.
    pub fn read_along(&mut self, is_so: bool)
        ensures { self.new ≡ read_along is_so self.old }
    {
        if is_so {
            self.is_terminal = true;
        }
    }

    /// Whether a write has failed.
    pub fn has_failed(&self) -> bool
        ensures { result ≡ self.now.failed }
    {
        self.has_failed
    }

    /// What it writes to.
    pub fn writer(&self) -> &W
        ensures { W.contents result.now ≡ self.now.contents }
    {
        &self.out
    }

    /// What it has written to.
    pub fn into_writer(self) -> W
        ensures { W.contents result ≡ self.contents }
    {
        self.out
    }

    /// Keeps it where a write has failed.
    fn heed(&mut self, written: io::Result<()>) -> io::Result<()>
        ensures same { result ≡ written }
        ensures steady { OnOk result (self.new ≡ self.old) }
        ensures failed { OnErr result
            (self.new ≡ printer_state self.old.contents self.old.on_terminal true) }
    {
        if written.is_err() {
            self.has_failed = true;
        }
        written
    }

    /// Writes a text, as `write!` and `writeln!` hand it over.
    pub fn write_fmt<D: Display + Drop>(&mut self, text: D) -> io::Result<()>
        ensures bytes { OnOk result (IfSome (D.output text)
            (Appends self.old.contents self.new.contents)) }
        ensures steady { OnOk result (self.new.failed ≡ self.old.failed) }
        ensures failed { OnErr result (self.new.failed ≡ true) }
        ensures terminal { self.new.on_terminal ≡ self.old.on_terminal }
    {
        let written = self.out.write_fmt(text);
        self.heed(written)
    }

    /// Writes bytes, all of them. Where a write fails, at most a prefix of them is written.
    pub fn write_all(&mut self, bytes: &[u8]) -> io::Result<()>
        ensures bytes { OnOk result (Appends self.old.contents self.new.contents bytes.now) }
        ensures front { OnErr result
            (GrowsByFront self.old.contents self.new.contents bytes.now) }
        ensures steady { OnOk result (self.new.failed ≡ self.old.failed) }
        ensures failed { OnErr result (self.new.failed ≡ true) }
        ensures terminal { self.new.on_terminal ≡ self.old.on_terminal }
    {
        let written = write_whole(&mut self.out, bytes);
        self.heed(written)
    }

    /// Flushes the writer.
    pub fn flush(&mut self) -> io::Result<()>
        ensures bytes { Keeps self.old.contents self.new.contents }
        ensures steady { OnOk result (self.new.failed ≡ self.old.failed) }
        ensures failed { OnErr result (self.new.failed ≡ true) }
        ensures terminal { self.new.on_terminal ≡ self.old.on_terminal }
    {
        let written = self.out.flush();
        self.heed(written)
    }
}

/// Writes bytes, by one write after another. One that was interrupted is begun again.
fn write_whole<W: Write>(out: &mut W, bytes: &[u8]) -> io::Result<()>
    ensures bytes { OnOk result (Appends (W.contents out.old) (W.contents out.new) bytes.now) }
    ensures front { OnErr result
        (GrowsByFront (W.contents out.old) (W.contents out.new) bytes.now) }
{
    let mut rest = bytes;
    for _ in 0..u64::MAX {
        if rest.is_empty() {
            return Ok(());
        }
        match out.write(rest) {
            Ok(0) => return Err(Error::from(ErrorKind::WriteZero)),
            Ok(count) => rest = &rest[count..],
            Err(error) => {
                if error.kind() != ErrorKind::Interrupted {
                    return Err(error);
                }
            }
        }
    }
    Err(Error::from(ErrorKind::Interrupted))
}

/// Writes a text whole, and flushes the writer.
fn print_text<W: Write + Drop>(out: &mut Printer<W>, text: &[u8]) -> io::Result<()>
    ensures printed { OnOk result (IsPrinted out.old out.new text.now) }
    ensures failed { OnErr result (out.new.failed ≡ true) }
{
    out.write_all(text)?;
    out.flush()
}

/// Writes a text whole. Answers the exit status.
pub fn say_text<W: Write + Drop>(out: &mut Printer<W>, text: &[u8]) -> Status
    ensures { SaysText text.now exit.Done out.old result out.new }
{
    match print_text(out, text) {
        Ok(()) => Status::Done,
        Err(_) => Status::Unwritten,
    }
}

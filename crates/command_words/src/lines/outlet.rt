//! An outlet that prints.
//!
//! # Promises
//!
//! - `LineOutlet` prints each line that it takes, with its number and the letter of its stream. A
//!   line is refused only where a write of it has failed, and then at most a prefix was printed
//!   (`PrintsOneLine`). `laws::taken_lines_are_printed` of `disk_commands`: the lines that it took
//!   are printed, and nothing else.
//!
//! # Choices
//!
//! - **A line that can't be spelled for lack of memory is written part by part.** Else an outlet
//!   would refuse it, and no write would have failed. The room for the longest line is taken at the
//!   start, so that a run never comes to it.

ghost use Rattle.std.specs.Prelude.{◌≡◌, false, true, IfOk, OnErr, OnOk};
ghost use Rattle.command_words.specs.rules.Printers.{IsPrinted, printer_state};

use crate::lines::printing::print_line;
use crate::printer::Printer;
use record_replay::{Outlet, OutletFault};
use std::alloc::{AllocError, Global};
use std::io::{self, Write};
use std::marker::Model;
use wasi_calls_rules::OutputStream;
use wasi_calls_rules::limits::LINE_BYTES;

/// Room for a worker's longest line: its number, a letter, two spaces and a newline beside the
/// text.
const LINE_ROOM: usize = LINE_BYTES + 24;

/// Prints each line as `N o text`, or `N e text` where it was written to stderr, with its newline,
/// by one write, and flushes the writer after it. It refuses a line only since a write of it has
/// failed. Contracts see its printer.
#[derive(Drop)]
pub struct LineOutlet<W: Write + Drop> {
    out: Printer<W>,
    /// Where a line is spelled before it is written.
    line: Vec<u8>,
}

impl<W: Write + Drop> Model for LineOutlet<W> {
    ghost use Rattle.command_words.specs.rules.Printers.{PrinterState};

    ghost Value = { PrinterState };

    ghost view = { λ outlet. outlet.out };
}

impl<W: Write + Drop> LineOutlet<W> {
    /// Takes memory for a line, so that a release needs none. No write has failed.
    pub fn new(alloc: Global, out: W) -> Result<Self, AllocError>
        ensures { IfOk result (λ outlet. outlet ≡ printer_state (W.contents out) false false) }
    {
        let line = Vec::with_capacity(alloc, LINE_ROOM)?;
        Ok(LineOutlet {
            out: Printer::new(out, false),
            line,
        })
    }

    /// What it writes to.
    pub fn writer(&self) -> &W
        ensures { W.contents result.now ≡ self.now.contents }
    {
        self.out.writer()
    }

    /// Writes a text of the program's own after the lines, and flushes the writer.
    pub fn write_text(&mut self, text: &[u8]) -> io::Result<()>
        ensures printed { OnOk result (IsPrinted self.old self.new text.now) }
        ensures failed { OnErr result (self.new.failed ≡ true) }
    {
        self.out.write_all(text)?;
        self.out.flush()
    }
}

impl<W: Write + Drop> Outlet for LineOutlet<W> {
    ghost use Rattle.command_words.specs.rules.Prints.{printing};

    ghost takes = { λ old number line said new. printing old number line said new };

    fn release(
        &mut self,
        number: u64,
        stream: OutputStream,
        text: &[u8],
    ) -> Result<(), OutletFault> {
        match print_line(&mut self.out, &mut self.line, number, stream, text) {
            Ok(()) => Ok(()),
            Err(_) => Err(OutletFault),
        }
    }
}

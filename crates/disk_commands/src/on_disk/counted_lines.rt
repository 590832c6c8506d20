//! An outlet that prints, and counts the lines that it took.
//!
//! # Promises
//!
//! - `CountedLines` prints as `LineOutlet` does, and counts the lines that it took (`counting`). A
//!   line that it has refused isn't counted. `laws::taken_lines_are_counted`: the count is that of
//!   the lines that were taken, and all is printed as by a `LineOutlet`.

ghost use Rattle.std.specs.Prelude.{◌≡◌, true, OnErr, OnOk};
ghost use Rattle.command_words.specs.rules.Printers.{IsPrinted};
ghost use Rattle.disk_commands.specs.rules.ToldLines.{one_more};

use command_words::LineOutlet;
use record_replay::{Outlet, OutletFault};
use std::io::{self, Write};
use std::marker::Model;
use wasi_calls_rules::OutputStream;

/// Prints lines, and counts those that it took. Contracts see its printer, and the count.
#[derive(Drop)]
pub struct CountedLines<W: Write + Drop> {
    outlet: LineOutlet<W>,
    told: u64,
}

impl<W: Write + Drop> Model for CountedLines<W> {
    ghost use Rattle.disk_commands.specs.rules.ToldLines.{CountedPrinter, counted_printer};

    ghost Value = { CountedPrinter };

    ghost view = { λ lines. counted_printer lines.outlet lines.told };
}

/// One line more. A count that is at its end stays there.
fn one_more(told: u64) -> u64
    ensures { result ≡ one_more told }
{
    if told == u64::MAX { told } else { told + 1 }
}

impl<W: Write + Drop> CountedLines<W> {
    /// What was printed before isn't counted.
    pub fn new(outlet: LineOutlet<W>) -> CountedLines<W>
        ensures printer { result.printer ≡ outlet }
        ensures told { result.told ≡ 0 }
    {
        CountedLines { outlet, told: 0 }
    }

    /// How many lines it took.
    pub fn told(&self) -> u64
        ensures { result ≡ self.now.told }
    {
        self.told
    }

    /// Writes a text of the program's own after the lines, and flushes the writer.
    pub fn write_text(&mut self, text: &[u8]) -> io::Result<()>
        ensures printed { OnOk result (IsPrinted self.old.printer self.new.printer text.now) }
        ensures failed { OnErr result (self.new.printer.failed ≡ true) }
        ensures same { self.new.told ≡ self.old.told }
    {
        self.outlet.write_text(text)
    }
}

impl<W: Write + Drop> Outlet for CountedLines<W> {
    ghost use Rattle.disk_commands.specs.rules.ToldLines.{counting};

    ghost takes = { λ old number line said new. counting old number line said new };

    fn release(
        &mut self,
        number: u64,
        stream: OutputStream,
        text: &[u8],
    ) -> Result<(), OutletFault> {
        match self.outlet.release(number, stream, text) {
            Ok(()) => {
                self.told = one_more(self.told);
                Ok(())
            }
            Err(fault) => Err(fault),
        }
    }
}

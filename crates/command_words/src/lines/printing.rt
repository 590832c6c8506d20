//! Printing of released lines.

ghost use Rattle.std.specs.Prelude.{◌≡◌, OnOk};
ghost use Rattle.std.specs.Io.KnownBytes.{Appends};
ghost use Rattle.command_words.specs.rules.Prints.{PrintsOneLine};
ghost use Rattle.command_words.specs.rules.Texts.{letter_of, printed};

use crate::printer::Printer;
use itoa::Buffer;
use std::io::{self, Write};
use wasi_calls_rules::OutputStream;

/// The letter of a stream, between two spaces.
fn letter(stream: OutputStream) -> &'static [u8]
    ensures { result.now ≡ letter_of stream }
{
    match stream {
        OutputStream::Stdout => b" o ",
        OutputStream::Stderr => b" e ",
    }
}

/// Spells a line: its number, the letter of its stream, its text and a newline.
pub fn spell_line<W: Write>(
    out: &mut W,
    number: u64,
    stream: OutputStream,
    text: &[u8],
) -> io::Result<()>
    ensures { OnOk result (Appends (W.contents out.old) (W.contents out.new)
        (printed number (record { stream = stream; text = text.now }))) }
{
    write!(out, "{number}")?;
    out.write_all(letter(stream))?;
    out.write_all(text)?;
    out.write_all(b"\n")
}

/// Writes the parts of a line, one after another.
fn write_parts<W: Write + Drop>(
    out: &mut Printer<W>,
    number: u64,
    stream: OutputStream,
    text: &[u8],
) -> io::Result<()>
    ensures { PrintsOneLine out.old number (record { stream = stream; text = text.now }) result
        out.new }
{
    out.write_all(Buffer::new().format(number).as_bytes())?;
    out.write_all(letter(stream))?;
    out.write_all(text)?;
    out.write_all(b"\n")
}

/// Spells a line in `line`, in place of what is there, and writes it whole. Where there is no
/// memory for that, it writes one part after another.
fn write_line<W: Write + Drop>(
    out: &mut Printer<W>,
    line: &mut Vec<u8>,
    number: u64,
    stream: OutputStream,
    text: &[u8],
) -> io::Result<()>
    ensures { PrintsOneLine out.old number (record { stream = stream; text = text.now }) result
        out.new }
{
    line.clear();
    match spell_line(line, number, stream, text) {
        Ok(()) => out.write_all(line.as_slice()),
        Err(_) => write_parts(out, number, stream, text),
    }
}

/// Prints a line, which is spelled in `line` first. Then the writer is flushed.
pub fn print_line<W: Write + Drop>(
    out: &mut Printer<W>,
    line: &mut Vec<u8>,
    number: u64,
    stream: OutputStream,
    text: &[u8],
) -> io::Result<()>
    ensures { PrintsOneLine out.old number (record { stream = stream; text = text.now }) result
        out.new }
{
    write_line(out, line, number, stream, text)?;
    out.flush()
}

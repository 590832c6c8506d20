//! Lines of a reader.

ghost use Rattle.std.specs.Prelude.{◌≡◌, ◌≢◌, ◌<◌, ◌^◌, true, false, [], IfOk, IfErr, OnOk, IfSome};
ghost use Rattle.std.specs.List.{AllByRecursion};
ghost use Rattle.std.specs.Io.{StopsAt};
ghost use Rattle.std.specs.Io.BufRead.{take_through, first_piece, strip_last, DropsThrough};
ghost use Rattle.std.specs.Io.KnownBytes.{IsAtEnd};
ghost use Rattle.wasi_abi.specs.rules.Answers.{IsNoNewline, newline};
ghost use Rattle.command_words.specs.Lines.Reads.{IsFaultOfLine};

use crate::lines::fault::LineFault;
use crate::lines::reader::LineReader;

/// So many bytes beside the text are no line: more than a number, a letter, two spaces and a
/// newline.
pub(super) const TOO_LONG: usize = 24;

/// Reads a line with its newline. Its text may have `limit` bytes.
fn read_through<R: LineReader>(
    reader: &mut R,
    limit: usize,
    line: &mut Vec<u8>,
) -> Result<(), LineFault>
    requires { limit < 2 ^ 32 }
    ensures stops { OnOk result (StopsAt line.new.items newline) }
    ensures bytes { OnOk result (IfSome (R.unread reader.old)
        (λ xs. line.new.items ≡ take_through newline xs)) }
    ensures rest { OnOk result (DropsThrough (R.unread reader.old) (R.unread reader.new) newline) }
    ensures steady { OnOk result (R.has_failed reader.new ≡ R.has_failed reader.old) }
    ensures fewer { OnOk result (R.pieces_left reader.new < R.pieces_left reader.old) }
    ensures failed { IfErr result (IsFaultOfLine limit (R.unread reader.old)
        (R.has_failed reader.old) (R.has_failed reader.new)) }
{
    line.clear();
    loop {
        let is_done = reader.read_piece(limit + TOO_LONG, line)?;
        if is_done {
            return Ok(());
        }
    }
}

/// Takes the newline from the end of a line, where one is there.
pub(super) fn cut_newline(line: &mut Vec<u8>)
    ensures one_line { StopsAt line.old.items newline → AllByRecursion IsNoNewline line.new.items }
    ensures items { line.new.items ≡ strip_last newline line.old.items }
{
    if line.last() == Some(&b'\n') {
        line.pop();
    }
}

/// Reads the next line, without its newline. There is none at the end. A line that is too long for
/// a text of `limit` bytes is refused, and the reader is within it then.
pub fn read_line<R: LineReader>(
    reader: &mut R,
    limit: usize,
    line: &mut Vec<u8>,
) -> Result<bool, LineFault>
    requires { limit < 2 ^ 32 }
    ensures one_line { OnOk result (AllByRecursion IsNoNewline line.new.items) }
    ensures bytes { OnOk result (IfSome (R.unread reader.old)
        (λ xs. line.new.items ≡ first_piece newline xs)) }
    ensures rest { OnOk result (DropsThrough (R.unread reader.old) (R.unread reader.new) newline) }
    ensures end { IfOk result (λ is_there. is_there ≡ false → IsAtEnd (R.unread reader.old)) }
    ensures some { IfOk result (λ is_there. is_there ≡ true
        → IfSome (R.unread reader.old) (λ bytes. bytes ≢ [])) }
    ensures steady { OnOk result (R.has_failed reader.new ≡ R.has_failed reader.old) }
    ensures fewer { OnOk result (R.pieces_left reader.new < R.pieces_left reader.old) }
    ensures failed { IfErr result (IsFaultOfLine limit (R.unread reader.old)
        (R.has_failed reader.old) (R.has_failed reader.new)) }
{
    read_through(reader, limit, line)?;
    let is_there = !line.is_empty();
    cut_newline(line);
    Ok(is_there)
}

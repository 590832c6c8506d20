//! What request lines are read from.
//!
//! # Promises
//!
//! - `LineReader` is what request lines are read from. `BufferedLines` is one over any `BufRead`.
//!   `ReadAhead` is a reader that may have read further. What it has read no clause says.
//!
//! # Choices
//!
//! - **Request lines come from a trait of this project's own**, `LineReader`, with one method. Its
//!   contract has three values of the reader. These are the bytes that are still to come, whether a
//!   read has failed, and how many pieces are given at most. `BufRead` of the standard library has
//!   the first alone, and says nothing of an error. With it code would be proved that answers a
//!   failed read where none was. Now only the implementation can say that a read has failed, which
//!   is a few lines.
//! - **The third value is a measure.** Lines may go on for ever, and a loop has to end. A loop that
//!   gave up after 2^64 lines would have to tell some fault that isn't true. Now the reader fails
//!   after 2^64 - 1 pieces, and says so.

use crate::lines::fault::LineFault;
use std::io::{BufReader, Read};

/// A reader whose bytes come in pieces. What contracts say of it they say by the bytes that are
/// still to come, and by whether a read of it has failed. Only a call can make it fail.
pub trait LineReader {
    ghost use Rattle.std.specs.Prelude.{◌≡◌, ◌<◌, ℕ, Bool, List, Option, IfOk, IfErr, OnOk, IfSome};
    ghost use Rattle.command_words.specs.Lines.Reads.{MovesPiece, IsFaultOfReading, GrowsTooLong};
    ghost use Rattle.command_words.specs.Lines.Reads.{AreSome};

    // The bytes that are still to come, where they are known.
    ghost unread: { Self → Option (List ℕ) };

    // Whether a read has failed.
    ghost has_failed: { Self → Bool };

    // How many pieces come at most.
    ghost pieces_left: { Self → ℕ };

    /// Moves the next bytes to the line, through a newline at most. Answers whether the line is
    /// done: by a newline, or by the end of the bytes. A line of `limit` bytes is refused.
    fn read_piece(&mut self, limit: usize, line: &mut Vec<u8>) -> Result<bool, LineFault>
        ensures moved { IfOk result (MovesPiece (unread self.old) (unread self.new) line.old.items
            line.new.items) }
        ensures steady { OnOk result (has_failed self.new ≡ has_failed self.old) }
        ensures fewer { OnOk result (pieces_left self.new < pieces_left self.old) }
        ensures failed { IfErr result (IsFaultOfReading
            (IfSome (unread self.old) (GrowsTooLong limit line.old.items))
            (IfSome (unread self.old) AreSome)
            (has_failed self.old) (has_failed self.new)) };
}

/// A reader that may have read bytes ahead.
pub trait ReadAhead {
    /// The bytes that were read and aren't taken yet.
    fn ahead(&self) -> &[u8];
}

impl<R: Read + Drop> ReadAhead for BufReader<R> {
    fn ahead(&self) -> &[u8] {
        self.buffer()
    }
}

impl ReadAhead for &[u8] {
    fn ahead(&self) -> &[u8] {
        self
    }
}

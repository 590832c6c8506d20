//! Lines of a buffered reader.
//!
//! # Choices
//!
//! - **The piece that makes a line too long is looked at, and not consumed.** A piece is at most
//!   what a buffer holds. So most such lines have a length that can be told, and none is read on
//!   for.

ghost use Rattle.std.specs.Prelude.{◌≡◌, ◌≢◌, ◌≤◌, ◌<◌, ◌-◌, false, IfOk, IfErr, All, length, take};
ghost use Rattle.std.specs.Io.Buffered.{reader_buffer};
ghost use Rattle.std.specs.IoError.{error_kind};
ghost use Rattle.wasi_abi.specs.rules.Answers.{newline};
ghost use Rattle.command_words.specs.Lines.Reads.{MovesPiece, IsFaultOfRead, IsPieceFault};

use crate::lines::fault::LineFault;
use crate::lines::line::cut_newline;
use crate::lines::reader::{LineReader, ReadAhead};
use std::io::{BufRead, BufReader, Error, ErrorKind, Read};

/// Why no piece comes.
#[derive(Clone, Copy, Debug, PartialEq, Eq)]
pub(crate) enum PieceFault {
    /// The reader failed, and it is told so.
    Reader(LineFault),
    /// The line would be too long.
    TooLong,
    /// There is no room for a longer line.
    Memory,
}

/// How many bytes there are through the first newline, or in all.
fn line_length(bytes: &[u8]) -> usize
    ensures bound { result ≤ length bytes.now }
    ensures some { 0 < length bytes.now → 0 < result }
    ensures before { All (λ x. x ≢ newline) (take (result - 1) bytes.now) }
{
    let mut at = 0;
    while at < bytes.len() {
        if bytes[at] == b'\n' {
            return at + 1;
        }
        at += 1;
    }
    at
}

/// The fault of a reader that failed with this error.
fn fault_of_read(error: &Error) -> LineFault
    ensures { IsFaultOfRead (error_kind error.now) result }
{
    if error.kind() == ErrorKind::OutOfMemory {
        LineFault::Memory
    } else {
        LineFault::Read
    }
}

/// Moves what the reader has at hand to the line, through a newline. Answers whether the line is
/// done. A piece that makes the line too long is put there where there is room, and not consumed.
fn take_piece<R: BufRead>(
    reader: &mut R,
    limit: usize,
    line: &mut Vec<u8>,
) -> Result<bool, PieceFault>
    ensures moved { IfOk result (MovesPiece (R.remaining reader.old) (R.remaining reader.new)
        line.old.items line.new.items) }
    ensures failed { IfErr result (IsPieceFault (R.remaining reader.old) limit line.old.items) }
{
    let available = match reader.fill_buf() {
        Ok(available) => available,
        Err(error) if error.kind() == ErrorKind::Interrupted => return Ok(false),
        Err(error) => return Err(PieceFault::Reader(fault_of_read(&error))),
    };
    let end = line_length(available);
    if end == 0 {
        return Ok(true);
    }
    if end >= limit.saturating_sub(line.len()) {
        let _ = line.extend_from_slice(&available[..end]);
        return Err(PieceFault::TooLong);
    }
    if line.extend_from_slice(&available[..end]).is_err() {
        return Err(PieceFault::Memory);
    }
    let is_done = available[end - 1] == b'\n';
    reader.consume(end);
    Ok(is_done)
}

/// The pieces of a buffered reader. It fails where that one does, and after 2^64 - 1 pieces.
#[derive(Drop)]
pub struct BufferedLines<R: BufRead + Drop> {
    reader: R,
    pieces_left: u64,
    has_failed: bool,
    /// How many lines were begun.
    begun: u64,
    /// Whether the last one was too long, and its end wasn't read.
    is_cut: bool,
}

/// So many lines are begun after a piece, which may be the first one of its line.
fn begun_with(begun: u64, is_first: bool) -> u64 {
    if is_first {
        begun.saturating_add(1)
    } else {
        begun
    }
}

impl<R: BufRead + Drop> BufferedLines<R> {
    /// Nothing is read yet.
    pub fn new(reader: R) -> Self
        ensures reader { result.reader ≡ reader }
        ensures unfailed { result.has_failed ≡ false }
    {
        BufferedLines {
            reader,
            pieces_left: u64::MAX,
            has_failed: false,
            begun: 0,
            is_cut: false,
        }
    }

    /// Whether the line that was begun last was too long, and its end wasn't read.
    pub fn is_cut(&self) -> bool
        ensures { result ≡ self.now.is_cut }
    {
        self.is_cut
    }

    /// The number of the line that was begun last, from 1 on.
    pub fn line_number(&self) -> u64
        ensures { result ≡ self.now.begun }
    {
        self.begun
    }
}

impl<R: Read + Drop> BufferedLines<BufReader<R>> {
    /// What was read ahead.
    pub fn read_ahead(&self) -> &[u8]
        ensures { result.now ≡ reader_buffer self.now.reader }
    {
        self.reader.buffer()
    }
}

impl<R: BufRead + ReadAhead + Drop> ReadAhead for BufferedLines<R> {
    fn ahead(&self) -> &[u8] {
        self.reader.ahead()
    }
}

impl<R: BufRead + Drop> LineReader for BufferedLines<R> {
    ghost unread = { λ r. R.remaining r.reader };

    ghost has_failed = { λ r. r.has_failed };

    ghost pieces_left = { λ r. r.pieces_left };

    fn read_piece(&mut self, limit: usize, line: &mut Vec<u8>) -> Result<bool, LineFault> {
        if self.pieces_left == 0 {
            self.has_failed = true;
            return Err(LineFault::Read);
        }
        self.pieces_left -= 1;
        self.begun = begun_with(self.begun, line.is_empty());
        match take_piece(&mut self.reader, limit, line) {
            Ok(is_done) => Ok(is_done),
            Err(PieceFault::Reader(fault)) => {
                self.has_failed = true;
                Err(fault)
            }
            Err(PieceFault::TooLong) => {
                self.is_cut = line.last() != Some(&b'\n');
                cut_newline(line);
                Err(LineFault::Form)
            }
            Err(PieceFault::Memory) => Err(LineFault::Memory),
        }
    }
}

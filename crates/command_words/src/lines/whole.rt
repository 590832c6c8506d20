//! Whole lines of a reader.
//!
//! # Choices
//!
//! - **A last line without its newline may be the front of one**, whose writer was stopped or goes
//!   on writing. A worker that takes it as a request never takes the whole line, which has the same
//!   number. So it can be left.
//! - **A rest that is longer than any request line is given as it is.** Its line is refused for its
//!   length, and no more memory is taken for it.
//! - **A run that takes all lines reads from the reader itself**, so nothing is copied for it.

ghost use Rattle.std.specs.Prelude.{◌≡◌, ◌≢◌, ◌≤◌, ◌+◌, true, false, [], ◌++◌};
ghost use Rattle.std.specs.Prelude.{IfOk, OnOk, drop, length, take};
ghost use Rattle.command_words.specs.rules.WholeLines.{GivesWhole, IsGivable, ReadsBehind};
ghost use Rattle.command_words.specs.rules.WholeLines.{TakesIn};

use crate::lines::later::whole_lines;
use crate::lines::line::TOO_LONG;
use std::alloc::{AllocError, Global};
use std::io::{self, Read};

/// The most bytes of a rest that is left: no request line is longer.
const MOST_LEFT: usize = 65_536 + TOO_LONG;

/// What may be given of these bytes: the whole lines, or all where the rest is too long to be left.
fn givable(bytes: &[u8]) -> &[u8]
    ensures { IsGivable bytes.now result.now }
{
    let whole = whole_lines(bytes);
    if bytes.len() - whole.len() > MOST_LEFT {
        bytes
    } else {
        whole
    }
}

/// A reader that gives whole lines, where that is asked for: what is behind the last newline it
/// leaves. Else it gives all.
#[derive(Drop)]
pub struct WholeLines<R: Read + Drop> {
    reader: R,
    leaves_rest: bool,
    /// What may be given, and how many bytes of it were.
    lines: Vec<u8>,
    given: usize,
    /// What is behind it.
    rest: Vec<u8>,
    has_ended: bool,
}

impl<R: Read + Drop> WholeLines<R> {
    /// Nothing is read yet.
    pub fn new(alloc: Global, reader: R, leaves_rest: bool) -> Self
        ensures reader { result.reader ≡ reader }
        ensures leaves { result.leaves_rest ≡ leaves_rest }
        ensures nothing { (result.lines.items ≡ []) × (result.rest.items ≡ []) }
        ensures begun { (result.given ≡ 0) × (result.has_ended ≡ false) }
    {
        WholeLines {
            reader,
            leaves_rest,
            lines: Vec::new(alloc),
            given: 0,
            rest: Vec::new(alloc),
            has_ended: false,
        }
    }

    /// Whether the reader is at its end, and its last line was left.
    pub fn has_left(&self) -> bool
        ensures left { result ≡ true → (self.now.has_ended ≡ true) × (self.now.rest.items ≢ []) }
        ensures none { self.now.has_ended ≡ true → result ≡ false → self.now.rest.items ≡ [] }
    {
        self.has_ended && !self.rest.is_empty()
    }

    /// Puts what was read behind the rest, and moves whole lines from there. Answers whether there
    /// are some.
    fn take_in(&mut self, bytes: &[u8]) -> Result<bool, AllocError>
        ensures taken { IfOk result (λ some. TakesIn bytes.now self.old.lines.items
            self.old.rest.items some self.new.lines.items self.new.rest.items) }
        ensures reader { self.new.reader ≡ self.old.reader }
        ensures leaves { self.new.leaves_rest ≡ self.old.leaves_rest }
        ensures given { self.new.given ≡ self.old.given }
    {
        self.rest.extend_from_slice(bytes)?;
        let given = givable(self.rest.as_slice());
        self.lines.extend_from_slice(given)?;
        let count = given.len();
        drop(self.rest.drain(..count));
        Ok(count > 0)
    }

    /// Reads on through this room, until some bytes may be given, or to the end. Those that might
    /// be given before are gone.
    fn read_on(&mut self, room: &mut [u8]) -> io::Result<()>
        ensures read { OnOk result (ReadsBehind (R.remaining self.old.reader)
            (R.remaining self.new.reader) self.old.rest.items
            (self.new.lines.items ++ self.new.rest.items)) }
        ensures whole { IsGivable self.old.rest.items [] → OnOk result
            (GivesWhole self.new.lines.items self.new.rest.items) }
        ensures leaves { OnOk result (self.new.leaves_rest ≡ self.old.leaves_rest) }
        ensures begun { OnOk result (self.new.given ≡ 0) }
        ensures ended { OnOk result (self.new.lines.items ≡ [] → self.new.has_ended ≡ true) }
    {
        self.lines.clear();
        self.given = 0;
        loop {
            let count = self.reader.read(room)?;
            if count == 0 {
                self.has_ended = true;
                return Ok(());
            }
            if self.take_in(&room[..count])? {
                return Ok(());
            }
        }
    }

    /// Gives what may be given, as much as there is room for. Answers how many bytes that are.
    fn give(&mut self, room: &mut [u8]) -> usize
        ensures bound { result ≤ length room.new }
        ensures bytes { take result room.new
            ≡ take result (drop self.old.given self.old.lines.items) }
        ensures moved { self.new ≡ record self.old { given = self.old.given + result } }
    {
        let Some(ahead) = self.lines.get(self.given..) else {
            return 0;
        };
        let count = ahead.len().min(room.len());
        room[..count].copy_from_slice(&ahead[..count]);
        self.given += count;
        count
    }
}

impl<R: Read + Drop> Read for WholeLines<R> {
    // Of whole lines no clause says which bytes they are.
    ghost use Rattle.std.specs.Prelude.{None, if◌then◌else◌};

    ghost remaining = { λ r. if r.leaves_rest then None else R.remaining r.reader };

    fn read(&mut self, buf: &mut [u8]) -> io::Result<usize> {
        if !self.leaves_rest || buf.is_empty() {
            return self.reader.read(buf);
        }
        if self.given >= self.lines.len() {
            self.read_on(buf)?;
        }
        Ok(self.give(buf))
    }
}

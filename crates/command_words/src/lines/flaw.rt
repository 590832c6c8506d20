//! What is wrong with a line that is refused.

ghost use Rattle.std.specs.Prelude.{◌≡◌};
ghost use Rattle.command_words.specs.rules.Flaws.{IsFlawIn, IsFlawOf, excess_words};
ghost use Rattle.command_words.specs.rules.Flaws.{text_limit_words};

use crate::lines::fault::LineFault;
use crate::lines::request::{is_far_request, read_request};
use wasi_abi::Version;

/// What is wrong with a line of another form.
#[derive(Clone, Copy, Debug, PartialEq, Eq)]
pub enum LineFlaw {
    /// It is a request, with a text of so many bytes: too many.
    Long { bytes: usize },
    /// It begins as a request does, is longer than one may be, and its end wasn't read.
    Cut,
    /// It would be a request, but its number is 2^63 or more.
    Far,
    /// It is no request, however long a text may be, and none begins so.
    Form,
}

/// What is wrong with a line that says nothing, of which the reader has left a rest or not.
fn flaw_of(is_cut: bool, line: &[u8]) -> LineFlaw
    ensures { IsFlawOf is_cut line.now result }
{
    match read_request(usize::MAX, line) {
        Some(_) if is_cut => LineFlaw::Cut,
        Some(request) => LineFlaw::Long {
            bytes: request.text_length(),
        },
        None if is_far_request(line) => LineFlaw::Far,
        None => LineFlaw::Form,
    }
}

/// What is wrong with the last line that was read, if it was refused for its form.
pub fn flaw_in(fault: Option<LineFault>, is_cut: bool, line: &[u8]) -> Option<LineFlaw>
    ensures { IsFlawIn fault is_cut line.now result }
{
    match fault {
        Some(LineFault::Form) => Some(flaw_of(is_cut, line)),
        _ => None,
    }
}

/// How long a text a worker of this version takes.
pub fn words_of_limit(version: Version) -> &'static str
    ensures { result.now ≡ text_limit_words version }
{
    match version {
        Version::One => "version 1 takes 4096",
        Version::Two => "version 2 takes 65536",
    }
}

/// That a line whose end wasn't read is longer than a worker of this version takes.
pub fn words_of_cut(version: Version) -> &'static str
    ensures { result.now ≡ excess_words version }
{
    match version {
        Version::One => "more than 4096 bytes, and version 1 takes 4096",
        Version::Two => "more than 65536 bytes, and version 2 takes 65536",
    }
}

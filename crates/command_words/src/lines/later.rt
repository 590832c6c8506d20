//! Requests that were read ahead, and that aren't taken yet.
//!
//! # Choices
//!
//! - **A request is at hand only with its newline**, and where its number is beyond those taken.
//!   Else lines of a batch would wait while the source reads on: for the rest of a line, or for one
//!   that isn't passed over. No clause says so: `scripts/runs/program-rows` has rows of it.

ghost use Rattle.std.specs.Prelude.{◌≡◌, true, false};
ghost use Rattle.command_words.specs.rules.Pieces.{lines_of};
ghost use Rattle.command_words.specs.rules.Later.{CountsLater, IsLaterLine, IsOtherLine};
ghost use Rattle.command_words.specs.rules.WholeLines.{IsWholeFront};

use crate::lines::request::read_request;
use crate::pieces::cut_line;

/// Whether a line is that of a request beyond those that were taken, with a text of at most `limit`
/// bytes.
fn is_later(limit: usize, line: &[u8], taken: u64) -> bool
    ensures later { result ≡ true → IsLaterLine limit taken line.now }
    ensures other { result ≡ false → IsOtherLine limit taken line.now }
{
    match read_request(limit, line) {
        Some(request) => request.number() > taken,
        None => false,
    }
}

/// How many lines of a text are such.
pub fn count_later(limit: usize, text: &[u8], taken: u64) -> usize
    ensures { CountsLater limit taken (lines_of text.now) result }
{
    let mut rest = text;
    let mut count = 0;
    while !rest.is_empty() {
        let (line, behind) = cut_line(rest);
        rest = behind;
        if is_later(limit, line, taken) {
            count += 1;
        }
    }
    count
}

/// The bytes through the last newline.
pub(super) fn whole_lines(bytes: &[u8]) -> &[u8]
    ensures { IsWholeFront bytes.now result.now }
{
    let mut end = bytes.len();
    while end > 0 && bytes[end - 1] != b'\n' {
        end -= 1;
    }
    &bytes[..end]
}

/// Whether one of the whole lines of a text is such.
pub(crate) fn has_later(limit: usize, text: &[u8], taken: u64) -> bool {
    let mut rest = whole_lines(text);
    while !rest.is_empty() {
        let (line, behind) = cut_line(rest);
        rest = behind;
        if is_later(limit, line, taken) {
            return true;
        }
    }
    false
}

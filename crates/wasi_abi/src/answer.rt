//! What a process asks of the outside, and what it is given.

ghost use Rattle.std.specs.Prelude.{◌≡◌, ◌↔◌, false, IsTrue};
ghost use Rattle.std.specs.List.{AllByRecursion};
ghost use Rattle.wasi_abi.specs.rules.Answers.{Fits, IsNoNewline, IsRequestText};
ghost use Rattle.wasi_abi.specs.rules.Answers.{AreSoManyBytes, IsTime};

use wasm_syntax::ItemList;

/// What is asked for.
#[derive(Clone, Copy, Debug, PartialEq, Eq)]
pub enum Question {
    /// A line of input, or its end.
    Request,
    /// Nanoseconds since the epoch.
    Realtime,
    /// Nanoseconds of a clock that the guest never sees fall: it is given the greatest so far.
    Monotonic,
    /// So many random bytes.
    Random { length: u32 },
}

/// What is given.
#[derive(Debug, Drop)]
pub enum Answer {
    /// A line without its newline.
    Request { text: ItemList<u8> },
    /// There are no more lines.
    End,
    Realtime { nanoseconds: u64 },
    Monotonic { nanoseconds: u64 },
    Random { bytes: ItemList<u8> },
}

/// Whether the answer is one to what was asked for, where a line has at most `limit` bytes.
pub fn fits(limit: usize, question: Question, answer: &Answer) -> bool
    ensures { IsTrue result ↔ Fits limit question answer.now }
{
    match (question, answer) {
        (Question::Request, Answer::Request { text }) => is_request(limit, text.as_slice()),
        (Question::Request, Answer::End) => true,
        (Question::Realtime, Answer::Realtime { nanoseconds }) => is_time(*nanoseconds),
        (Question::Monotonic, Answer::Monotonic { nanoseconds }) => is_time(*nanoseconds),
        (Question::Random { length }, Answer::Random { bytes }) => {
            has_length(length as usize, bytes.as_slice())
        }
        _ => false,
    }
}

fn is_request(limit: usize, text: &[u8]) -> bool
    ensures { IsTrue result ↔ IsRequestText limit text.now }
{
    text.len() <= limit && !has_newline(text)
}

/// Whether a byte is a newline. It looks at all bytes, so that many are compared at once.
fn has_newline(bytes: &[u8]) -> bool
    ensures { (result ≡ false) ↔ AllByRecursion IsNoNewline bytes.now }
{
    let mut found = false;
    for byte in bytes {
        found |= *byte == b'\n';
    }
    found
}

/// Any value of 64 bits is one.
fn is_time(_nanoseconds: u64) -> bool
    ensures { IsTrue result ↔ IsTime _nanoseconds }
{
    true
}

fn has_length(length: usize, bytes: &[u8]) -> bool
    ensures { IsTrue result ↔ AreSoManyBytes length bytes.now }
{
    bytes.len() == length
}

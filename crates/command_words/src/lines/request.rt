//! Request lines.
//!
//! # Promises
//!
//! - `read_request`: what one line says, where it is a request line with a text of at most so many
//!   bytes (`spelled`, `found`). `trap_name`: how last words call a trap.

ghost use Rattle.std.specs.Prelude.{◌≡◌, ◌≢◌, ◌⊎◌, ◌↔◌, ◌<◌, ◌≤◌, ◌^◌, ℕ, List, ◌∷◌, ◌++◌, Some};
ghost use Rattle.std.specs.Prelude.{IfSome, IsSome, IsSomeAnd, IsTrue, true, codes, length};
ghost use Rattle.std.specs.Prelude.{slice_index};
ghost use Rattle.std.specs.Char.{is_ascii_digit};
ghost use Rattle.std.specs.Fmt.{decimal};
ghost use Rattle.std.specs.List.{list_all};
ghost use Rattle.command_words.specs.rules.Flaws.{IsFarRequest, is_numeral, text_length};
ghost use Rattle.command_words.specs.rules.Texts.{IsShortRequest, IsRequestLine, request_line};
ghost use Rattle.command_words.specs.rules.Numbers.{IsNumberedRequest, request_number};

use itoa::Buffer;
use wasi_abi::NUMBERS_END;

/// What a request line says.
#[derive(Clone, Copy, Debug, PartialEq, Eq)]
pub enum Request<'a> {
    Text { number: u64, text: &'a [u8] },
    /// There are no more requests.
    End { number: u64 },
}

impl Request<'_> {
    pub fn number(&self) -> u64
        ensures { result ≡ request_number self.now }
    {
        match self {
            Request::Text { number, .. } | Request::End { number } => *number,
        }
    }

    /// How many bytes its text has; the end has none.
    pub(crate) fn text_length(&self) -> usize
        ensures { result ≡ text_length self.now }
    {
        match self {
            Request::Text { text, .. } => text.len(),
            Request::End { .. } => 0,
        }
    }
}

/// The number that these digits spell, zeros in front or not.
fn parse_digits(digits: &[u8]) -> Option<u64>
    ensures { (n : ℕ) → n < 2 ^ 64 → digits.now ≡ decimal n → result ≡ Some n }
{
    match std::str::from_utf8(digits) {
        Ok(text) => text.parse().ok(),
        Err(_) => None,
    }
}

/// A number in decimal, below 2^64, without zeros in front.
pub fn read_decimal(digits: &[u8]) -> Option<u64>
    ensures spelled { IfSome result (λ n. digits.now ≡ decimal n) }
    ensures bound { IfSome result (λ n. n < 2 ^ 64) }
    ensures found { (n : ℕ) → n < 2 ^ 64 → digits.now ≡ decimal n → result ≡ Some n }
{
    let number = parse_digits(digits)?;
    let mut buffer = Buffer::new();
    if buffer.format(number).as_bytes() != digits {
        return None;
    }
    Some(number)
}

/// A number in decimal, from 1 on and below 2^63, without zeros in front.
fn read_number(digits: &[u8]) -> Option<u64>
    ensures spelled { IfSome result (λ n. digits.now ≡ decimal n) }
    ensures bounds { IfSome result (λ n. (1 ≤ n) × (n < 2 ^ 63)) }
    ensures found { (n : ℕ) → 1 ≤ n → n < 2 ^ 63 → digits.now ≡ decimal n → result ≡ Some n }
{
    let number = read_decimal(digits)?;
    if number == 0 || number >= NUMBERS_END {
        return None;
    }
    Some(number)
}

/// Where the first space is.
fn first_space(line: &[u8]) -> Option<usize>
    ensures there { IfSome result (λ i. (i < length line.now) × (slice_index line.now i ≡ 32)) }
    ensures first { IfSome result (λ i. (k : ℕ) → k < i → slice_index line.now k ≢ 32) }
    ensures none { (k : ℕ) → k < length line.now → slice_index line.now k ≡ 32 → IsSome result }
{
    line.iter().position(|byte| *byte == b' ')
}

/// What is before the first space, and what after it.
pub fn split_at_space(line: &[u8]) -> Option<(&[u8], &[u8])>
    ensures parts { IfSome result (λ r. line.now ≡ r.0.now ++ 32 ∷ r.1.now) }
    ensures found { (front back : List ℕ) → line.now ≡ front ++ 32 ∷ back
        → ((k : ℕ) → k < length front → slice_index front k ≢ 32)
        → IsSomeAnd result (λ r. (r.0.now ≡ front) × (r.1.now ≡ back)) }
{
    let space = first_space(line)?;
    Some((&line[..space], &line[space + 1..]))
}

fn all_digits(bytes: &[u8]) -> bool
    ensures { result ≡ list_all is_ascii_digit bytes.now }
{
    bytes.iter().all(|byte| byte.is_ascii_digit())
}

/// Whether these are the digits of a number from 1 on, without zeros in front.
fn is_numeral(digits: &[u8]) -> bool
    ensures { result ≡ is_numeral digits.now }
{
    match digits {
        [] | [b'0', ..] => false,
        _ => all_digits(digits),
    }
}

/// Whether a text comes behind a number, as in the line of a request.
fn is_text_said(said: &[u8]) -> bool
    ensures { IsTrue result ↔ ((text : List ℕ) × (said.now ≡ codes "r " ++ text)) }
{
    matches!(said, [b'r', b' ', ..])
}

/// Whether a text of any length comes behind a number, or the end of all requests.
fn is_request_said(said: &[u8]) -> bool
    ensures { IsTrue result ↔ ((said.now ≡ codes "e")
        ⊎ ((text : List ℕ) × (said.now ≡ codes "r " ++ text))) }
{
    if said == b"e".as_slice() {
        return true;
    }
    is_text_said(said)
}

/// Whether digits are of a number from 2^63 on, without zeros in front.
fn is_far_number(digits: &[u8]) -> bool
    ensures { IsTrue result ↔ ((is_numeral digits.now ≡ true)
        × ((n : ℕ) → n < 2 ^ 63 → digits.now ≡ decimal n → ⊥)) }
{
    match read_number(digits) {
        Some(_) => false,
        None => is_numeral(digits),
    }
}

/// Whether it is the line of a request but for its number, which is 2^63 or more.
pub(crate) fn is_far_request(line: &[u8]) -> bool
    ensures { IsTrue result ↔ IsFarRequest line.now }
{
    let Some((digits, said)) = split_at_space(line) else {
        return false;
    };
    if !is_far_number(digits) {
        return false;
    }
    is_request_said(said)
}

/// What is said after the number and its space: `r text`, with a text of at most `limit` bytes, or
/// `e`.
fn read_said<'a>(limit: usize, number: u64, said: &'a [u8]) -> Option<Request<'a>>
    ensures spelled { IfSome result (λ read. decimal number ++ 32 ∷ said.entry.now
        ≡ request_line read) }
    ensures same { IfSome result (λ read. request_number read ≡ number) }
    ensures short { IfSome result (IsShortRequest limit) }
    ensures text { (bytes : List ℕ) → said.entry.now ≡ codes "r " ++ bytes
        → length bytes ≤ limit → IsSome result }
    ensures end { said.entry.now ≡ codes "e" → IsSome result }
{
    match said {
        [b'e'] => Some(Request::End { number }),
        [b'r', b' ', text @ ..] if text.len() <= limit => Some(Request::Text { number, text }),
        _ => None,
    }
}

/// What a line without its newline says: `N r text` or `N e`. A line with a text of more than
/// `limit` bytes says nothing.
pub fn read_request<'a>(limit: usize, line: &'a [u8]) -> Option<Request<'a>>
    ensures spelled { IfSome result (λ read. line.entry.now ≡ request_line read) }
    ensures numbered { IfSome result IsNumberedRequest }
    ensures short { IfSome result (IsShortRequest limit) }
    ensures found { IsRequestLine limit line.entry.now → IsSome result }
{
    let (digits, said) = split_at_space(line)?;
    let number = read_number(digits)?;
    read_said(limit, number, said)
}

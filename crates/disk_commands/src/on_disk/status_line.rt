//! Reading of a status line.
//!
//! # Choices
//!
//! - **A status line is read without its values.** Each number is spelled again, and compared, so
//!   that only one spelling of it is read. A line is written by one write. A program that is killed
//!   then leaves an empty file or a whole line, which the next run removes.

ghost use Rattle.std.specs.Prelude.{◌≡◌, ◌≤◌, ◌<◌, ◌^◌, ◌↔◌, ◌++◌, ◌∷◌, ℕ, List, codes, length};
ghost use Rattle.std.specs.Prelude.{IfSome, IsSomeAnd, IsTrue};
ghost use Rattle.std.specs.Fmt.{decimal};
ghost use Rattle.wasm_syntax.specs.declared.value.Trap.{Trap};
ghost use Rattle.command_words.specs.rules.Texts.{trap_text};
ghost use Rattle.disk_commands.specs.StatusLines.{IsBehindNumber, IsBehindNumbers, IsExitWords};
ghost use Rattle.disk_commands.specs.StatusLines.{IsLeftWords, IsStateWords, IsTrapWords};
ghost use Rattle.disk_commands.specs.StatusLines.{IsOnWords, IsWatchWords};
ghost use Rattle.disk_commands.specs.rules.Watchings.{IsStatusLine};

use command_words::{read_decimal, split_at_space, trap_name};
use wasm_syntax::Trap;

/// The bytes of the longest status line.
pub(super) const LONGEST: usize = 215;

const TRAPS: [Trap; 8] = [
    Trap::Unreachable,
    Trap::DivideByZero,
    Trap::IntegerOverflow,
    Trap::MemoryOutOfBounds,
    Trap::UndefinedElement,
    Trap::UninitializedElement,
    Trap::IndirectCallTypeMismatch,
    Trap::StackExhausted,
];

/// What is behind this front.
pub(super) fn behind<'a>(bytes: &'a [u8], front: &[u8]) -> Option<&'a [u8]>
    ensures spelled { IfSome result (λ rest. bytes.entry.now ≡ front.now ++ rest.now) }
    ensures found { (back : List ℕ) → bytes.entry.now ≡ front.now ++ back
        → IsSomeAnd result (λ rest. rest.now ≡ back) }
{
    bytes.strip_prefix(front)
}

/// What is before the newline at the end.
pub(super) fn before_newline(bytes: &[u8]) -> Option<&[u8]>
    ensures spelled { IfSome result (λ line. bytes.now ≡ line.now ++ codes "\n") }
    ensures found { (front : List ℕ) → bytes.now ≡ front ++ codes "\n"
        → IsSomeAnd result (λ line. line.now ≡ front) }
{
    bytes.strip_suffix(b"\n")
}

/// What is behind a name, a space, a number of 64 bits and a space.
fn behind_number<'a>(bytes: &'a [u8], name: &[u8]) -> Option<&'a [u8]>
    ensures spelled { IfSome result (λ rest.
        (n : ℕ) × IsBehindNumber name.now n bytes.entry.now rest.now) }
    ensures found { (n : ℕ) (back : List ℕ) → IsBehindNumber name.now n bytes.entry.now back
        → IsSomeAnd result (λ rest. rest.now ≡ back) }
{
    let (digits, rest) = split_at_space(behind(bytes, name)?)?;
    read_decimal(digits)?;
    Some(rest)
}

/// What is behind the four numbers.
fn behind_numbers(bytes: &[u8]) -> Option<&[u8]>
    ensures spelled { IfSome result (λ rest. IsBehindNumbers bytes.now rest.now) }
    ensures found { (back : List ℕ) → IsBehindNumbers bytes.now back
        → IsSomeAnd result (λ rest. rest.now ≡ back) }
{
    let steps = behind_number(bytes, b"generation ")?;
    let answers = behind_number(steps, b"steps ")?;
    let lines = behind_number(answers, b"answers ")?;
    behind_number(lines, b"lines ")
}

/// What is between this front and the newline at the end.
fn between<'a>(words: &'a [u8], front: &[u8]) -> Option<&'a [u8]>
    ensures spelled { IfSome result (λ text.
        words.entry.now ≡ front.now ++ text.now ++ codes "\n") }
    ensures found { (text : List ℕ) → words.entry.now ≡ front.now ++ text ++ codes "\n"
        → IsSomeAnd result (λ found. found.now ≡ text) }
{
    behind(before_newline(words)?, front)
}

/// Whether these digits are an exit code.
fn is_exit_code(digits: &[u8]) -> bool
    ensures { IsTrue result ↔ ((code : ℕ) × (code < 2 ^ 32) × (digits.now ≡ decimal code)) }
{
    match read_decimal(digits) {
        Some(code) => code <= u32::MAX as u64,
        None => false,
    }
}

/// Whether these words say that a worker has exited.
fn is_exit(words: &[u8]) -> bool
    ensures { IsTrue result ↔ IsExitWords words.now }
{
    match between(words, b"exited ") {
        Some(digits) => is_exit_code(digits),
        None => false,
    }
}

/// Whether this is the name of a trap.
fn is_trap_name(name: &[u8]) -> bool
    ensures { IsTrue result ↔ ((why : Trap) × (name.now ≡ trap_text why)) }
{
    for why in &TRAPS {
        if trap_name(*why).as_bytes() == name {
            return true;
        }
    }
    false
}

/// Whether these words say that a worker has trapped.
fn is_trapped(words: &[u8]) -> bool
    ensures { IsTrue result ↔ IsTrapWords words.now }
{
    match between(words, b"trapped ") {
        Some(name) => is_trap_name(name),
        None => false,
    }
}

/// Whether these bytes are this text.
fn is_text(bytes: &[u8], text: &[u8]) -> bool
    ensures { IsTrue result ↔ bytes.now ≡ text.now }
{
    bytes == text
}

/// Whether these words say that a worker runs on, or waits.
fn is_on(words: &[u8]) -> bool
    ensures { IsTrue result ↔ IsOnWords words.now }
{
    is_text(words, b"running\n") || is_text(words, b"waits for a request\n")
}

/// Whether these words say that a worker runs on or waits, or how it is over.
fn is_watch_words(words: &[u8]) -> bool
    ensures { IsTrue result ↔ IsWatchWords words.now }
{
    if is_on(words) || is_text(words, b"parked\n") {
        return true;
    }
    is_exit(words) || is_trapped(words)
}

/// Whether these words say what a worker is. The number of its sectors that are left may come
/// first.
fn is_left(rest: &[u8]) -> bool
    ensures { IsTrue result ↔ IsLeftWords rest.now }
{
    if is_watch_words(rest) {
        return true;
    }
    match behind_number(rest, b"journal_left ") {
        Some(last) => is_watch_words(last),
        None => false,
    }
}

/// Whether these words say what a worker is. The number of its requests may come first, and behind
/// that the number of its sectors that are left.
fn is_state(words: &[u8]) -> bool
    ensures { IsTrue result ↔ IsStateWords words.now }
{
    if is_watch_words(words) {
        return true;
    }
    match behind_number(words, b"requests ") {
        Some(rest) => is_left(rest),
        None => false,
    }
}

/// Whether these bytes are a status line: its numbers without zeros in front, and its newline at
/// the end. An older program's line lacks the sectors that are left, or the requests, too.
pub(super) fn is_status_line(bytes: &[u8]) -> bool
    ensures exact { IsTrue result ↔ IsStatusLine bytes.now }
    ensures short { IsTrue result → length bytes.now ≤ LONGEST }
{
    match behind_numbers(bytes) {
        Some(words) => is_state(words),
        None => false,
    }
}

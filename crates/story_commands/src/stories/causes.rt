//! Why a line is refused.

ghost use Rattle.std.specs.Prelude.{◌≡◌, IfOk};
ghost use Rattle.story_commands.specs.rules.Scripts.{alone_cause, batch_cause, bounded_cause};
ghost use Rattle.story_commands.specs.rules.Scripts.{line_cause, number_cause};
ghost use Rattle.story_commands.specs.rules.Scripts.{point_cause, second_cause};
ghost use Rattle.story_commands.specs.rules.Scripts.{stands_alone, takes_more, takes_number};
ghost use Rattle.story_commands.specs.rules.Scripts.{takes_point, text_cause, with_cause};
ghost use Rattle.story_commands.specs.rules.Sweeps.{swept_cause};

use crate::stories::fault::LineCause;
use crate::stories::keywords::read_line;
use crate::stories::line::ScriptLine;
use crate::stories::numbers::{all_digits, read_front, read_number};
use command_words::split_once;
use std::alloc::{AllocError, Global};

/// Why bytes spell no number.
fn number_cause(digits: &[u8]) -> LineCause
    ensures { result ≡ number_cause digits.now }
{
    if !all_digits(digits) {
        return LineCause::NotANumber;
    }
    if digits.is_empty() {
        return LineCause::NotANumber;
    }
    LineCause::NumberTooLarge
}

/// Why bytes spell no number, or else that it is out of a bound.
fn bounded_cause(digits: &[u8], bound: LineCause) -> LineCause
    ensures { result ≡ bounded_cause bound digits.now }
{
    match read_number(digits) {
        Some(_) => bound,
        None => number_cause(digits),
    }
}

/// Why a text is no call, from 1 on, a space and a front.
fn point_cause(text: &[u8]) -> LineCause
    ensures { result ≡ point_cause text.now }
{
    let (digits, behind) = split_once(text, b' ');
    let Some(behind) = behind else {
        return bounded_cause(digits, LineCause::SecondNumberMissing);
    };
    if read_number(digits).is_none() {
        return number_cause(digits);
    }
    match read_front(behind) {
        Some(_) => LineCause::NumberIsZero,
        None => bounded_cause(behind, LineCause::FrontTooLarge),
    }
}

/// Why a text is no number, a space and a number from 1 on.
fn batch_cause(text: &[u8]) -> LineCause
    ensures { result ≡ batch_cause text.now }
{
    let (digits, behind) = split_once(text, b' ');
    let Some(behind) = behind else {
        return bounded_cause(digits, LineCause::SecondNumberMissing);
    };
    if read_number(digits).is_none() {
        return number_cause(digits);
    }
    bounded_cause(behind, LineCause::NumberIsZero)
}

/// Whether one number must follow a word, and nothing else.
fn takes_number(word: &[u8]) -> bool
    ensures { result ≡ takes_number word.now }
{
    if word == b"realtime".as_slice() {
        return true;
    }
    if word == b"monotonic".as_slice() {
        return true;
    }
    word == b"slice".as_slice()
}

/// Whether a call and a front must follow a word.
fn takes_point(word: &[u8]) -> bool
    ensures { result ≡ takes_point word.now }
{
    if word == b"stop".as_slice() {
        return true;
    }
    word == b"fail".as_slice()
}

/// Whether a space and more must follow a word.
fn takes_more(word: &[u8]) -> bool
    ensures { result ≡ takes_more word.now }
{
    if takes_number(word) {
        return true;
    }
    if takes_point(word) {
        return true;
    }
    if word == b"request".as_slice() {
        return true;
    }
    if word == b"refuse".as_slice() {
        return true;
    }
    if word == b"batch".as_slice() {
        return true;
    }
    word == b"tears".as_slice()
}

/// Whether nothing may follow a word.
fn stands_alone(word: &[u8]) -> bool
    ensures { result ≡ stands_alone word.now }
{
    if word == b"life".as_slice() {
        return true;
    }
    if word == b"end".as_slice() {
        return true;
    }
    if word == b"checkpoint".as_slice() {
        return true;
    }
    word == b"upgrade".as_slice()
}

/// Why a word without a space behind it says nothing.
fn alone_cause(word: &[u8]) -> LineCause
    ensures { result ≡ alone_cause word.now }
{
    if word.is_empty() {
        return LineCause::Empty;
    }
    if takes_more(word) {
        return LineCause::WordLacksMore;
    }
    LineCause::UnknownWord
}

/// Why a word and what is after its space say nothing.
fn with_cause(word: &[u8], rest: &[u8]) -> LineCause
    ensures { result ≡ with_cause word.now rest.now }
{
    if takes_number(word) {
        return number_cause(rest);
    }
    if takes_point(word) {
        return point_cause(rest);
    }
    if word == b"refuse".as_slice() {
        return bounded_cause(rest, LineCause::NumberIsZero);
    }
    if word == b"batch".as_slice() {
        return batch_cause(rest);
    }
    if word == b"random".as_slice() {
        return LineCause::NotHexadecimal;
    }
    if word == b"tears".as_slice() {
        return LineCause::NotFronts;
    }
    if stands_alone(word) {
        return LineCause::WordStandsAlone;
    }
    LineCause::UnknownWord
}

/// Why a text says nothing.
fn text_cause(text: &[u8]) -> LineCause
    ensures { result ≡ text_cause text.now }
{
    let (word, behind) = split_once(text, b' ');
    match behind {
        Some(rest) => with_cause(word, rest),
        None => alone_cause(word),
    }
}

/// Why a line may not be in a life that is begun: that has one already.
fn second_cause(line: &ScriptLine) -> LineCause
    ensures { result ≡ second_cause line.now }
{
    match line {
        ScriptLine::Stop { .. } => LineCause::SecondStop,
        ScriptLine::Fail { .. } => LineCause::SecondFail,
        ScriptLine::Refuse { .. } => LineCause::SecondRefuse,
        ScriptLine::Tears { .. } => LineCause::SecondTears,
        ScriptLine::Life | ScriptLine::Answer { .. } | ScriptLine::Act { .. } => {
            LineCause::NoLifeBegun
        }
    }
}

/// Why the line of a story that a text spells is refused, where a life is begun, or where none is.
pub(super) fn line_cause(
    alloc: Global,
    is_begun: bool,
    text: &[u8],
) -> Result<LineCause, AllocError>
    ensures { IfOk result (λ cause. cause ≡ line_cause second_cause is_begun text.now) }
{
    let Some(line) = read_line(alloc, text)? else {
        return Ok(text_cause(text));
    };
    if is_begun {
        return Ok(second_cause(&line));
    }
    Ok(LineCause::NoLifeBegun)
}

/// The same of a sweep, in whose lives nothing may befall the worker.
pub(super) fn swept_line_cause(
    alloc: Global,
    is_begun: bool,
    text: &[u8],
) -> Result<LineCause, AllocError>
    ensures { IfOk result (λ cause. cause ≡ line_cause swept_cause is_begun text.now) }
{
    if read_line(alloc, text)?.is_none() {
        return Ok(text_cause(text));
    }
    if is_begun {
        return Ok(LineCause::NotSwept);
    }
    Ok(LineCause::NoLifeBegun)
}

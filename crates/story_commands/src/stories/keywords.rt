//! Lines of a script, by their keywords: their first words.

ghost use Rattle.std.specs.Prelude.{◌≡◌, IfOk, option_and_then};
ghost use Rattle.story_commands.specs.rules.Scripts.{said_by, said_alone, said_counted, said_with};
ghost use Rattle.story_commands.specs.rules.Scripts.{said_with_number, hex_bytes, fronts_between};
ghost use Rattle.story_commands.specs.rules.Scripts.{number_spelled};

use crate::stories::line::ScriptLine;
use crate::stories::numbers::{read_batch, read_count, read_front, read_number, read_point};
use command_words::split_once;
use hex::FromHexError;
use std::alloc::{AllocError, Global};
use wasi_abi::Answer;
use wasm_syntax::ItemList;
use worker::story::PlannedAct;

/// The bytes that hexadecimal digits of either case spell, two for each.
fn read_bytes(alloc: Global, digits: &[u8]) -> Result<Option<ItemList<u8>>, AllocError>
    ensures { IfOk result (λ read. read ≡ hex_bytes digits.now) }
{
    match hex::decode(alloc, digits) {
        Ok(bytes) => Ok(Some(ItemList::from_vec(bytes))),
        Err(FromHexError::OutOfMemory) => Err(AllocError),
        Err(_) => Ok(None),
    }
}

/// Fronts with one of these bytes between each two.
pub(crate) fn read_fronts(
    alloc: Global,
    text: &[u8],
    separator: u8,
) -> Result<Option<ItemList<u16>>, AllocError>
    ensures { IfOk result (λ read. read ≡ fronts_between separator text.now) }
{
    let mut fronts = ItemList::new(alloc);
    let mut rest = text;
    loop {
        let (digits, behind) = split_once(rest, separator);
        let Some(front) = read_front(digits) else {
            return Ok(None);
        };
        fronts.push(front)?;
        let Some(next) = behind else {
            return Ok(Some(fronts));
        };
        rest = next;
    }
}

/// What a word says after which no space is.
fn read_alone(alloc: Global, word: &[u8]) -> Option<ScriptLine>
    ensures { result ≡ said_alone word.now }
{
    if word == b"life".as_slice() {
        return Some(ScriptLine::Life);
    }
    if word == b"end".as_slice() {
        return Some(ScriptLine::Answer {
            answer: Answer::End,
        });
    }
    if word == b"random".as_slice() {
        let bytes = ItemList::new(alloc);
        return Some(ScriptLine::Answer {
            answer: Answer::Random { bytes },
        });
    }
    if word == b"checkpoint".as_slice() {
        return Some(ScriptLine::Act {
            act: PlannedAct::Checkpoint,
        });
    }
    if word == b"upgrade".as_slice() {
        return Some(ScriptLine::Act {
            act: PlannedAct::Upgrade,
        });
    }
    None
}

/// What a word and one number say.
fn say_number(word: &[u8], number: u64) -> Option<ScriptLine>
    ensures { result ≡ said_with_number word.now number }
{
    if word == b"realtime".as_slice() {
        let answer = Answer::Realtime {
            nanoseconds: number,
        };
        return Some(ScriptLine::Answer { answer });
    }
    if word == b"monotonic".as_slice() {
        let answer = Answer::Monotonic {
            nanoseconds: number,
        };
        return Some(ScriptLine::Answer { answer });
    }
    if word == b"slice".as_slice() {
        return Some(ScriptLine::Act {
            act: PlannedAct::Slice { fuel: number },
        });
    }
    None
}

/// What a word and the number after its space say.
fn read_numbered(word: &[u8], rest: &[u8]) -> Option<ScriptLine>
    ensures { result ≡ option_and_then (said_with_number word.now) (number_spelled rest.now) }
{
    let number = read_number(rest)?;
    say_number(word, number)
}

/// What a word and the point, the count, the numbers of a batch or the number after its space say.
fn read_counted(word: &[u8], rest: &[u8]) -> Option<ScriptLine>
    ensures { result ≡ said_counted word.now rest.now }
{
    if word == b"stop".as_slice() {
        let point = read_point(rest)?;
        return Some(ScriptLine::Stop { point });
    }
    if word == b"fail".as_slice() {
        let point = read_point(rest)?;
        return Some(ScriptLine::Fail { point });
    }
    if word == b"refuse".as_slice() {
        let number = read_count(rest)?;
        return Some(ScriptLine::Refuse { number });
    }
    if word == b"batch".as_slice() {
        let act = read_batch(rest)?;
        return Some(ScriptLine::Act { act });
    }
    read_numbered(word, rest)
}

/// What a word and what is after its space say.
fn read_with(alloc: Global, word: &[u8], rest: &[u8]) -> Result<Option<ScriptLine>, AllocError>
    ensures { IfOk result (λ said. said ≡ said_with word.now rest.now) }
{
    if word == b"request".as_slice() {
        let text = ItemList::from_vec(rest.to_vec(alloc)?);
        return Ok(Some(ScriptLine::Answer {
            answer: Answer::Request { text },
        }));
    }
    if word == b"random".as_slice() {
        let Some(bytes) = read_bytes(alloc, rest)? else {
            return Ok(None);
        };
        return Ok(Some(ScriptLine::Answer {
            answer: Answer::Random { bytes },
        }));
    }
    if word == b"tears".as_slice() {
        let Some(fronts) = read_fronts(alloc, rest, b' ')? else {
            return Ok(None);
        };
        return Ok(Some(ScriptLine::Tears { fronts }));
    }
    Ok(read_counted(word, rest))
}

/// What a line without its newline says.
pub(super) fn read_line(alloc: Global, text: &[u8]) -> Result<Option<ScriptLine>, AllocError>
    ensures { IfOk result (λ said. said ≡ said_by text.now) }
{
    let (word, behind) = split_once(text, b' ');
    match behind {
        Some(rest) => read_with(alloc, word, rest),
        None => Ok(read_alone(alloc, word)),
    }
}

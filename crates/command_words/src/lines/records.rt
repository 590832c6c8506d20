//! Answers from the outside, and the records that a journal has of them, spelled.
//!
//! # Promises
//!
//! - `spell_answer`: an answer as a script of `story` says it (`answer_words`). `spell_record`: a
//!   record on a line, as `history` prints it (`record_line`).
//! - `spell_told_text`: a text, or its digits where it isn't printable (`told_text`). `files` tells
//!   paths so, too.
//!
//! # Choices
//!
//! - **A text with control bytes is told by digits**, under a letter of its own. Each record is
//!   then one line that a terminal only shows, and every other text is as it was, with no byte
//!   escaped.

ghost use Rattle.std.specs.Prelude.{◌≡◌, [], ◌∷◌, OnOk};
ghost use Rattle.std.specs.Char.{is_ascii_control};
ghost use Rattle.std.specs.List.{list_any};
ghost use Rattle.std.specs.Str.{is_utf8};
ghost use Rattle.std.specs.Io.KnownBytes.{Appends};
ghost use Rattle.hex.specs.Hex.{encode_lower};
ghost use Rattle.wasi_abi.specs.declared.answer.Answer.TheVariants as answers;
ghost use Rattle.command_words.specs.rules.Records.{answer_words, is_printable, numbered_words};
ghost use Rattle.command_words.specs.rules.Records.{numbered_request, record_line};
ghost use Rattle.command_words.specs.rules.Records.{request_letter, told_text};

use disk_layout::Record;
use std::io::{self, Write};
use wasi_abi::Answer;

/// Whether bytes are UTF-8.
fn is_utf8(bytes: &[u8]) -> bool
    ensures { result ≡ is_utf8 bytes.now }
{
    str::from_utf8(bytes).is_ok()
}

/// Whether a byte is a control byte: one below 32, or 127.
fn has_control(bytes: &[u8]) -> bool
    ensures { result ≡ list_any is_ascii_control bytes.now }
{
    bytes.iter().any(|byte| byte.is_ascii_control())
}

/// Whether a text is UTF-8 without control bytes.
pub fn is_printable(text: &[u8]) -> bool
    ensures { result ≡ is_printable text.now }
{
    is_utf8(text) && !has_control(text)
}

/// The two hexadecimal digits of a byte.
fn digits_of(byte: u8) -> [u8; 2]
    ensures { result ≡ encode_lower (byte ∷ []) }
{
    let mut digits = [0; 2];
    match hex::encode_to_slice([byte], &mut digits) {
        Ok(()) | Err(_) => digits,
    }
}

/// Spells bytes by their hexadecimal digits, two for each.
fn spell_digits<W: Write>(out: &mut W, bytes: &[u8]) -> io::Result<()>
    ensures { OnOk result (Appends (W.contents out.old) (W.contents out.new)
        (encode_lower bytes.now)) }
{
    for byte in bytes {
        out.write_all(&digits_of(*byte))?;
    }
    Ok(())
}

/// Spells a text, or its digits where it isn't printable.
pub fn spell_told_text<W: Write>(out: &mut W, text: &[u8]) -> io::Result<()>
    ensures { OnOk result (Appends (W.contents out.old) (W.contents out.new)
        (told_text text.now)) }
{
    if is_printable(text) {
        return out.write_all(text);
    }
    spell_digits(out, text)
}

/// Spells a text of a script after its word.
fn spell_text<W: Write>(out: &mut W, text: &[u8]) -> io::Result<()>
    ensures { OnOk result (Appends (W.contents out.old) (W.contents out.new)
        (answer_words (answers.Request text.now))) }
{
    out.write_all(b"request ")?;
    out.write_all(text)
}

/// Spells random bytes of a script after their word.
fn spell_random<W: Write>(out: &mut W, bytes: &[u8]) -> io::Result<()>
    ensures { OnOk result (Appends (W.contents out.old) (W.contents out.new)
        (answer_words (answers.Random bytes.now))) }
{
    out.write_all(b"random ")?;
    spell_digits(out, bytes)
}

/// Spells an answer as a script says it, without a newline.
pub fn spell_answer<W: Write>(out: &mut W, answer: &Answer) -> io::Result<()>
    ensures { OnOk result (Appends (W.contents out.old) (W.contents out.new)
        (answer_words answer.now)) }
{
    match answer {
        Answer::Request { text } => spell_text(out, text.as_slice()),
        Answer::End => out.write_all(b"end"),
        Answer::Realtime { nanoseconds } => write!(out, "realtime {nanoseconds}"),
        Answer::Monotonic { nanoseconds } => write!(out, "monotonic {nanoseconds}"),
        Answer::Random { bytes } => spell_random(out, bytes.as_slice()),
    }
}

/// Spells whether a request's text comes as it is or by its digits.
fn spell_letter<W: Write>(out: &mut W, text: &[u8]) -> io::Result<()>
    ensures { OnOk result (Appends (W.contents out.old) (W.contents out.new)
        (request_letter text.now)) }
{
    if is_printable(text) {
        out.write_all(b" r ")
    } else {
        out.write_all(b" x ")
    }
}

/// Spells a request of this number.
fn spell_request<W: Write>(out: &mut W, number: u128, text: &[u8]) -> io::Result<()>
    ensures { OnOk result (Appends (W.contents out.old) (W.contents out.new)
        (numbered_request number text.now)) }
{
    write!(out, "{number}")?;
    spell_letter(out, text)?;
    spell_told_text(out, text)
}

/// Spells what was answered. A request, or their end, has this number.
fn spell_numbered<W: Write>(out: &mut W, number: u128, answer: &Answer) -> io::Result<()>
    ensures { OnOk result (Appends (W.contents out.old) (W.contents out.new)
        (numbered_words number answer.now)) }
{
    match answer {
        Answer::Request { text } => {
            out.write_all(b"request ")?;
            spell_request(out, number, text.as_slice())
        }
        Answer::End => write!(out, "end {number} e"),
        Answer::Realtime { .. } | Answer::Monotonic { .. } | Answer::Random { .. } => {
            spell_answer(out, answer)
        }
    }
}

/// Spells a record on a line, where the next request has this number.
pub fn spell_record<W: Write>(out: &mut W, number: u128, entry: &Record) -> io::Result<()>
    ensures { OnOk result (Appends (W.contents out.old) (W.contents out.new)
        (record_line number entry.now)) }
{
    write!(out, "{} ", entry.step)?;
    spell_numbered(out, number, &entry.answer)?;
    out.write_all(b"\n")
}

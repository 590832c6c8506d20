//! Modules that rows of text spell.

use machine::ModuleFault;
use std::alloc::{AllocError, AllocFailed, Global};
use wasm_decode::DecodeFault;
use wasm_validate::ValidFault;

pub const HEADER: &str = "0061736d01000000";

/// Why a test has nothing to compare.
#[derive(Clone, Copy, Debug)]
pub enum Refused {
    Memory,
    /// A row's text spells no bytes, or too many.
    Misspelled,
    Module(ModuleFault),
}

impl From<AllocError> for Refused {
    fn from(_error: AllocError) -> Refused {
        Refused::Memory
    }
}

impl<T: Drop> From<AllocFailed<T>> for Refused {
    fn from(_error: AllocFailed<T>) -> Refused {
        Refused::Memory
    }
}

impl From<ModuleFault> for Refused {
    fn from(fault: ModuleFault) -> Refused {
        if fault.is_want_of_memory() {
            Refused::Memory
        } else {
            Refused::Module(fault)
        }
    }
}

impl From<DecodeFault> for Refused {
    fn from(fault: DecodeFault) -> Refused {
        Refused::from(ModuleFault::Decode(fault))
    }
}

impl From<ValidFault> for Refused {
    fn from(fault: ValidFault) -> Refused {
        Refused::from(ModuleFault::Valid(fault))
    }
}

/// The number that a hexadecimal digit stands for.
fn digit(letter: u8) -> Option<u8> {
    match letter {
        b'0'..=b'9' => Some(letter - b'0'),
        b'a'..=b'f' => Some(letter - b'a' + 10),
        _ => None,
    }
}

/// Appends the byte of a pair, if the first digit of one stands before this one. Else this one is
/// that.
fn append_digit(bytes: &mut Vec<u8>, high: Option<u8>, letter: u8) -> Result<Option<u8>, Refused> {
    let Some(low) = digit(letter) else {
        return Err(Refused::Misspelled);
    };
    let Some(first) = high else {
        return Ok(Some(low));
    };
    bytes.push((first << 4) | low)?;
    Ok(None)
}

/// Appends the bytes that pairs of digits spell, with spaces between some, and the letters of names
/// in quotes.
pub fn append(bytes: &mut Vec<u8>, text: &str) -> Result<(), Refused> {
    let mut high = None;
    let mut quoted = false;
    for letter in text.bytes() {
        if letter == b'\'' && high.is_none() {
            quoted = !quoted;
        } else if quoted {
            bytes.push(letter)?;
        } else if letter != b' ' || high.is_some() {
            high = append_digit(bytes, high, letter)?;
        }
    }
    if quoted || high.is_some() {
        return Err(Refused::Misspelled);
    }
    Ok(())
}

fn append_each(bytes: &mut Vec<u8>, texts: &[&str]) -> Result<(), Refused> {
    for text in texts {
        append(bytes, text)?;
    }
    Ok(())
}

/// The bytes that texts spell one after another.
pub fn spell_each(alloc: Global, texts: &[&str]) -> Result<Vec<u8>, Refused> {
    let mut bytes = Vec::new(alloc);
    append_each(&mut bytes, texts)?;
    Ok(bytes)
}

/// The bytes that two texts spell together.
pub fn spell(alloc: Global, first: &str, second: &str) -> Result<Vec<u8>, Refused> {
    spell_each(alloc, &[first, second])
}

/// Puts the number of bytes behind a place there.
fn put_size(bytes: &mut Vec<u8>, at: usize) -> Result<(), Refused> {
    let size = bytes.len().saturating_sub(at).saturating_sub(1);
    match bytes.get_mut(at) {
        Some(byte) if size < 128 => {
            *byte = size as u8;
            Ok(())
        }
        _ => Err(Refused::Misspelled),
    }
}

/// Appends a code section whose entries two texts spell: their number and some of them, and a last
/// one.
fn append_code(bytes: &mut Vec<u8>, others: &str, last: &str) -> Result<(), Refused> {
    bytes.push(10)?;
    let section = bytes.len();
    bytes.push(0)?;
    append(bytes, others)?;
    let entry = bytes.len();
    bytes.push(0)?;
    append(bytes, last)?;
    put_size(bytes, entry)?;
    put_size(bytes, section)
}

fn append_with_code(
    bytes: &mut Vec<u8>,
    front: &str,
    others: &str,
    last: &str,
    rest: &str,
) -> Result<(), Refused> {
    append(bytes, front)?;
    append_code(bytes, others, last)?;
    append(bytes, rest)
}

/// What is before a module's code section, that section without sizes, as its number of entries
/// with some of them and a last entry, and what is after it.
pub fn with_code(
    alloc: Global,
    front: &str,
    others: &str,
    last: &str,
    rest: &str,
) -> Result<Vec<u8>, Refused> {
    let mut bytes = Vec::new(alloc);
    append_with_code(&mut bytes, front, others, last, rest)?;
    Ok(bytes)
}

//! Bytes that are read from the front.

ghost use Rattle.std.specs.Prelude.{◌≡◌, ◌↔◌, IsTrue, [], ◌∷◌, ◌++◌, length};
ghost use Rattle.std.specs.Option.{option_map};
ghost use Rattle.wasi_abi.specs.rules.Layouts.{u16_bytes, u32_bytes, u64_bytes};
ghost use Rattle.state_image.specs.rules.ProcessImage.{flag_of, text_bytes};
ghost use Rattle.state_image.specs.rules.Ranges.{IsIn, IsShort};
ghost use Rattle.state_image.specs.rules.Reading.{ReadsField};

use byteorder::{ByteOrder, LittleEndian};
use std::marker::Model;

/// The bytes that are left, which is what contracts see. Each method gives the field whose bytes
/// are in front, and leaves those after it. Where there is no such field, it gives nothing. Then an
/// end of the bytes is left, and nothing further is to be read.
#[derive(Drop)]
pub struct ProcessImageReader<'a> {
    rest: &'a [u8],
}

impl<'a> Model for ProcessImageReader<'a> {
    ghost use Rattle.std.specs.Prelude.{ℕ, List};

    ghost Value = { List ℕ };

    ghost view = { λ r. r.rest.now };
}

impl<'a> ProcessImageReader<'a> {
    pub fn new(bytes: &'a [u8]) -> Self
        ensures { result ≡ bytes.now }
    {
        ProcessImageReader { rest: bytes }
    }

    pub fn is_empty(&self) -> bool
        ensures { IsTrue result ↔ (self.now ≡ []) }
    {
        self.rest.is_empty()
    }

    /// What is left.
    pub fn rest(&self) -> &'a [u8]
        ensures { result.now ≡ self.now }
    {
        self.rest
    }

    /// The next bytes, so many.
    pub fn bytes(&mut self, count: usize) -> Option<&'a [u8]>
        ensures { ReadsField (λ b. b) (λ b. length b ≡ count) (option_map (λ b. b.now) result)
            self.old self.new }
    {
        if self.rest.len() < count {
            return None;
        }
        let (front, rest) = self.rest.split_at(count);
        self.rest = rest;
        Some(front)
    }

    pub fn u8(&mut self) -> Option<u8>
        ensures { ReadsField (λ b. b ∷ []) (IsIn 1) result self.old self.new }
    {
        match self.rest {
            [] => None,
            [first, rest @ ..] => {
                self.rest = rest;
                Some(*first)
            }
        }
    }

    pub fn u16(&mut self) -> Option<u16>
        ensures { ReadsField u16_bytes (IsIn 2) result self.old self.new }
    {
        let bytes = self.bytes(2)?;
        Some(u16_in(bytes))
    }

    pub fn u32(&mut self) -> Option<u32>
        ensures { ReadsField u32_bytes (IsIn 4) result self.old self.new }
    {
        let bytes = self.bytes(4)?;
        Some(u32_in(bytes))
    }

    pub fn u64(&mut self) -> Option<u64>
        ensures { ReadsField u64_bytes (IsIn 8) result self.old self.new }
    {
        let bytes = self.bytes(8)?;
        Some(u64_in(bytes))
    }

    /// How many items are after, in 32 bits.
    pub fn count(&mut self) -> Option<u32>
        ensures { ReadsField u32_bytes (IsIn 4) result self.old self.new }
    {
        self.u32()
    }

    /// A byte that is 1 or 0, and no other one.
    pub fn flag(&mut self) -> Option<bool>
        ensures { ReadsField (λ flag. flag_of flag ∷ []) (λ flag. Unit {0}) result
            self.old self.new }
    {
        match self.u8()? {
            0 => Some(false),
            1 => Some(true),
            _ => None,
        }
    }

    /// A length in 32 bits, and the bytes.
    pub fn text(&mut self) -> Option<&'a [u8]>
        ensures { ReadsField text_bytes IsShort (option_map (λ text. text.now) result)
            self.old self.new }
    {
        let length = self.u32()?;
        self.bytes(length as usize)
    }

    /// A length in 16 bits, and the bytes.
    pub fn short_text(&mut self) -> Option<&'a [u8]>
        ensures { ReadsField (λ text. u16_bytes (length text) ++ text)
            (λ text. IsIn 2 (length text)) (option_map (λ text. text.now) result)
            self.old self.new }
    {
        let length = self.u16()?;
        self.bytes(usize::from(length))
    }

    /// A length in 64 bits, and the bytes.
    pub fn long_text(&mut self) -> Option<&'a [u8]>
        ensures { ReadsField (λ text. u64_bytes (length text) ++ text)
            (λ text. IsIn 8 (length text)) (option_map (λ text. text.now) result)
            self.old self.new }
    {
        let length = self.u64()?;
        self.bytes(length as usize)
    }
}

fn u16_in(bytes: &[u8]) -> u16
    requires { length bytes.now ≡ 2 }
    ensures { u16_bytes result ≡ bytes.now }
{
    LittleEndian::read_u16(bytes)
}

fn u32_in(bytes: &[u8]) -> u32
    requires { length bytes.now ≡ 4 }
    ensures { u32_bytes result ≡ bytes.now }
{
    LittleEndian::read_u32(bytes)
}

fn u64_in(bytes: &[u8]) -> u64
    requires { length bytes.now ≡ 8 }
    ensures { u64_bytes result ≡ bytes.now }
{
    LittleEndian::read_u64(bytes)
}

//! Bytes and integers (sections 5.2.1 and 5.2.2).

ghost use Rattle.std.specs.Prelude.{◌≡◌, ◌≤◌, ◌<◌, ◌^◌, ◌-◌, ◌↔◌, IsTrue, IsOk, nat_lt, [], length};
ghost use Rattle.std.specs.Prelude.{IfSome, take, drop};
ghost use Rattle.wasm_decode.specs.Items.Answers.{FindsItem, TakesItem};
ghost use Rattle.wasm_syntax.specs.laws.ReadingItems.{byte_at, exactly_at, unsigned_at};
ghost use Rattle.wasm_syntax.specs.laws.ReadingItems.{last_signed, signed_at, leb_u32_at, part_at};

use crate::items::fault::ReadRefusal;
use crate::items::span::Span;
use std::marker::Model;

/// Whether a number fits so many bits.
fn is_below(byte: u8, bits: u8) -> bool
    requires { byte < 128 }
    ensures { result ≡ nat_lt byte (2 ^ bits) }
{
    bits >= 7 || byte < 1 << bits
}

/// The number, in two's complement of so many bits, that the last byte of a signed integer stands
/// for.
#[tactic(auto, unfolding(wasm_syntax::specs::laws::ReadingItems::last_signed))]
fn last_signed(byte: u8, bits: u8) -> Option<u64>
    requires byte { byte < 128 }
    requires bits { (1 ≤ bits) × (bits ≤ 64) }
    ensures gives { result ≡ last_signed bits byte }
    ensures fits { IfSome result (λ n. n < 2 ^ bits) }
{
    let half = 1u64 << (bits - 1);
    let number = u64::from(byte);
    if number < 64 {
        if number < half {
            return Some(number);
        }
        return None;
    }
    if number + half < 128 {
        return None;
    }
    Some(number + half - 128 + half)
}

/// The bytes that are left, which is what contracts see, and the offset of the first of them in all
/// bytes. Behind an error it is anywhere: nothing further is to be read.
#[derive(Drop)]
pub struct Decoder<'a> {
    rest: &'a [u8],
    at: usize,
}

impl<'a> Model for Decoder<'a> {
    ghost use Rattle.std.specs.Prelude.{ℕ, List, length, ◌+◌, ◌^◌, ◌<◌};

    ghost Value = { List ℕ };

    ghost view = { λ d. d.rest.now };

    ghost invariant = { λ d. d.at + length d.rest.now < 2 ^ 64 };
}

impl<'a> Decoder<'a> {
    pub fn new(bytes: &'a [u8]) -> Self
        ensures { result ≡ bytes.now }
    {
        Decoder { rest: bytes, at: 0 }
    }

    pub fn is_empty(&self) -> bool
        ensures { IsTrue result ↔ (self.now ≡ []) }
    {
        self.rest.is_empty()
    }

    pub fn at(&self) -> usize {
        self.at
    }

    /// The next byte, if there is one.
    pub fn byte(&mut self) -> Option<u8>
        ensures { FindsItem result self.new (byte_at self.old) }
    {
        match self.rest {
            [] => None,
            [first, rest @ ..] => {
                self.rest = rest;
                self.at += 1;
                Some(*first)
            }
        }
    }

    /// This one byte.
    pub fn expect_byte(&mut self, wanted: u8) -> Result<(), ReadRefusal>
        ensures { TakesItem result self.new (exactly_at wanted self.old) }
    {
        let start = self.at;
        match self.byte() {
            Some(byte) if byte == wanted => Ok(()),
            _ => Err(ReadRefusal::Malformed(start)),
        }
    }

    /// An unsigned integer of at most so many bits.
    #[tactic(auto, unfolding(wasm_syntax::specs::laws::ReadingItems::unsigned_at))]
    fn read_unsigned(&mut self, bits: u8) -> Option<u64>
        requires { bits ≤ 64 }
        ensures gives { FindsItem result self.new (unsigned_at bits self.old) }
        ensures fits { IfSome result (λ n. n < 2 ^ bits) }
    {
        let byte = self.byte()?;
        if byte < 128 {
            return is_below(byte, bits).then_some(u64::from(byte));
        }
        if bits <= 7 {
            return None;
        }
        let high = self.read_unsigned(bits - 7)?;
        Some(high * 128 + u64::from(byte - 128))
    }

    /// A signed integer of at most so many bits, as its two's complement.
    #[tactic(auto, unfolding(wasm_syntax::specs::laws::ReadingItems::signed_at))]
    fn read_signed(&mut self, bits: u8) -> Option<u64>
        requires { (1 ≤ bits) × (bits ≤ 64) }
        ensures gives { FindsItem result self.new (signed_at bits self.old) }
        ensures fits { IfSome result (λ n. n < 2 ^ bits) }
    {
        let byte = self.byte()?;
        if byte < 128 {
            return last_signed(byte, bits);
        }
        if bits <= 7 {
            return None;
        }
        let high = self.read_signed(bits - 7)?;
        Some(high * 128 + u64::from(byte - 128))
    }

    pub fn s32(&mut self) -> Result<u32, ReadRefusal>
        ensures { TakesItem result self.new (signed_at 32 self.old) }
    {
        let start = self.at;
        match self.read_signed(32) {
            Some(number) => Ok(number as u32),
            None => Err(ReadRefusal::Malformed(start)),
        }
    }

    pub fn s64(&mut self) -> Result<u64, ReadRefusal>
        ensures { TakesItem result self.new (signed_at 64 self.old) }
    {
        let start = self.at;
        match self.read_signed(64) {
            Some(number) => Ok(number),
            None => Err(ReadRefusal::Malformed(start)),
        }
    }

    pub fn u32(&mut self) -> Result<u32, ReadRefusal>
        ensures { TakesItem result self.new (leb_u32_at self.old) }
    {
        let start = self.at;
        match self.read_unsigned(32) {
            Some(number) => Ok(number as u32),
            None => Err(ReadRefusal::Malformed(start)),
        }
    }

    /// The next bytes, so many, as a decoder of their own.
    pub fn part(&mut self, len: usize, fault_at: usize) -> Result<Decoder<'a>, ReadRefusal>
        ensures { TakesItem result self.new (part_at len self.old) }
    {
        if self.rest.len() < len {
            return Err(ReadRefusal::Malformed(fault_at));
        }
        let (part, rest) = self.rest.split_at(len);
        let at = self.at;
        self.rest = rest;
        self.at += len;
        Ok(Decoder { rest: part, at })
    }

    /// All bytes that are left.
    pub fn into_bytes(self) -> &'a [u8]
        ensures { result.now ≡ self.entry }
    {
        self.into_span().bytes
    }

    /// All bytes that are left, and where they are.
    pub fn into_span(self) -> Span<'a>
        ensures { result.bytes.now ≡ self.entry }
    {
        Span {
            bytes: self.rest,
            at: self.at,
        }
    }

    pub fn at_span(span: Span<'a>) -> Self
        ensures { result ≡ span.entry.bytes.now }
    {
        Decoder {
            rest: span.bytes,
            at: span.at,
        }
    }

    /// That nothing is left; else the first byte that is left is at fault.
    pub fn expect_end(&self) -> Result<(), ReadRefusal>
        ensures { IsOk result ↔ (self.now ≡ []) }
    {
        if self.is_empty() {
            Ok(())
        } else {
            Err(ReadRefusal::Malformed(self.at))
        }
    }
}

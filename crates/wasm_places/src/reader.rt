//! Bytes of a module, read from the front: integers and sized parts (sections 5.1 and 5.2).

ghost use Rattle.std.specs.Prelude.{◌≡◌, ◌≤◌, ◌<◌, ◌^◌, ◌↔◌, IsTrue, IfSome, nat_lt, [], length};
ghost use Rattle.std.specs.Str.{is_utf8};
ghost use Rattle.wasm_decode.specs.Items.Answers.{FindsItem};
ghost use Rattle.wasm_syntax.specs.laws.ReadingItems.{byte_at, unsigned_at, leb_u32_at, part_at};
ghost use Rattle.wasm_syntax.specs.laws.ReadingItems.{bytes_at, name_at, exactly_at};

use std::marker::Model;

/// Bytes of a module.
#[derive(Clone, Copy)]
pub struct Part<'a> {
    pub bytes: &'a [u8],
}

/// The bytes that are left, which is what contracts see.
#[derive(Drop)]
pub struct Reader<'a> {
    rest: &'a [u8],
}

impl<'a> Model for Reader<'a> {
    ghost use Rattle.std.specs.Prelude.{ℕ, List};

    ghost Value = { List ℕ };

    ghost view = { λ r. r.rest.now };
}

/// Whether a number fits so many bits.
fn is_below(byte: u8, bits: u8) -> bool
    requires { byte < 128 }
    ensures { result ≡ nat_lt byte (2 ^ bits) }
{
    bits >= 7 || byte < 1 << bits
}

/// Whether the bytes are UTF-8.
fn is_text(bytes: &[u8]) -> bool
    ensures { result ≡ is_utf8 bytes.now }
{
    str::from_utf8(bytes).is_ok()
}

impl<'a> Reader<'a> {
    pub fn new(bytes: &'a [u8]) -> Self
        ensures { result ≡ bytes.now }
    {
        Reader { rest: bytes }
    }

    pub fn of(part: Part<'a>) -> Self
        ensures { result ≡ part.entry.bytes.now }
    {
        Reader { rest: part.bytes }
    }

    /// All bytes that are left.
    pub fn into_part(self) -> Part<'a>
        ensures { result.bytes.now ≡ self.entry }
    {
        Part { bytes: self.rest }
    }

    /// How many bytes are left.
    pub fn len(&self) -> usize
        ensures { result ≡ length self.now }
    {
        self.rest.len()
    }

    pub fn is_empty(&self) -> bool
        ensures { IsTrue result ↔ (self.now ≡ []) }
    {
        self.rest.is_empty()
    }

    /// The next byte, if there is one.
    pub fn byte(&mut self) -> Option<u8>
        ensures { FindsItem result self.new (byte_at self.old) }
    {
        match self.rest {
            [] => None,
            [first, rest @ ..] => {
                self.rest = rest;
                Some(*first)
            }
        }
    }

    /// This one byte.
    pub fn expect_byte(&mut self, wanted: u8) -> Option<()>
        ensures { FindsItem result self.new (exactly_at wanted self.old) }
    {
        match self.byte() {
            Some(byte) if byte == wanted => Some(()),
            _ => None,
        }
    }

    /// An unsigned integer of at most so many bits.
    #[tactic(auto, unfolding(wasm_syntax::specs::laws::ReadingItems::unsigned_at))]
    fn read_unsigned(&mut self, bits: u8) -> Option<u64>
        requires { bits ≤ 64 }
        ensures gives { FindsItem result self.new (unsigned_at bits self.old) }
        ensures fits { IfSome result (λ n. n < 2 ^ bits) }
    {
        let byte = self.byte()?;
        if byte < 128 {
            return is_below(byte, bits).then_some(u64::from(byte));
        }
        if bits <= 7 {
            return None;
        }
        let high = self.read_unsigned(bits - 7)?;
        Some(high * 128 + u64::from(byte - 128))
    }

    pub fn u32(&mut self) -> Option<u32>
        ensures { FindsItem result self.new (leb_u32_at self.old) }
    {
        match self.read_unsigned(32) {
            Some(number) => Some(number as u32),
            None => None,
        }
    }

    /// The next bytes, so many, as a reader of their own.
    fn part(&mut self, len: usize) -> Option<Reader<'a>>
        ensures { FindsItem result self.new (part_at len self.old) }
    {
        if self.rest.len() < len {
            return None;
        }
        let (part, rest) = self.rest.split_at(len);
        self.rest = rest;
        Some(Reader { rest: part })
    }

    /// A length, and so many bytes.
    #[tactic(auto, unfolding(wasm_syntax::specs::laws::ReadingItems::bytes_at))]
    pub fn bytes(&mut self) -> Option<Reader<'a>>
        ensures { FindsItem result self.new (bytes_at self.old) }
    {
        let len = self.u32()?;
        self.part(len as usize)
    }

    /// A length, and so many bytes of UTF-8.
    #[tactic(auto, unfolding(wasm_syntax::specs::laws::ReadingItems::name_at))]
    pub fn name(&mut self) -> Option<Reader<'a>>
        ensures { FindsItem result self.new (name_at self.old) }
    {
        let bytes = self.bytes()?;
        if is_text(bytes.rest) {
            Some(bytes)
        } else {
            None
        }
    }
}

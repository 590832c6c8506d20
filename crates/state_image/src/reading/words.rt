//! Words of 64 bits that are lent as bytes.

ghost use Rattle.std.specs.Prelude.{◌≡◌, ◌*◌, ◌∷◌, [], length, MatchOption};
ghost use Rattle.std.specs.List.{flat_map};
ghost use Rattle.wasi_abi.specs.rules.Layouts.{u64_bytes};
ghost use Rattle.state_image.specs.rules.ProcessImage.{items_bytes};
ghost use Rattle.state_image.specs.rules.Ranges.{AreWords};
ghost use Rattle.state_image.specs.rules.Reading.{ReadsField};

use crate::reading::cursor::ProcessImageReader;
use byteorder::{ByteOrder, LittleEndian};
use std::marker::Model;

/// Words of 64 bits that are lent as bytes. Contracts see their list.
#[derive(Debug, Drop)]
pub struct Words<'a> {
    count: u32,
    bytes: &'a [u8],
}

impl<'a> Model for Words<'a> {
    ghost use Rattle.std.specs.Prelude.{◌≡◌, ◌*◌, ℕ, List, length};
    ghost use Rattle.state_image.specs.laws.WordLists.{numbers_in};

    ghost Value = { List ℕ };

    ghost view = { λ w. numbers_in w.count w.bytes.now };

    ghost invariant = { λ w. length w.bytes.now ≡ 8 * w.count };
}

impl<'a> Words<'a> {
    pub fn len(&self) -> usize
        ensures { result ≡ length self.now }
    {
        self.count as usize
    }

    /// The first word, which is taken away.
    pub fn next(&mut self) -> Option<u64>
        ensures { MatchOption result ((self.old ≡ []) × (self.new ≡ []))
            (λ word. self.old ≡ word ∷ self.new) }
    {
        if self.count == 0 {
            return None;
        }
        let (front, rest) = self.bytes.split_at(8);
        self.count -= 1;
        self.bytes = rest;
        Some(LittleEndian::read_u64(front))
    }
}

/// How many words there are, and the words.
pub fn read_word_list<'a>(reader: &mut ProcessImageReader<'a>) -> Option<Words<'a>>
    ensures { ReadsField (items_bytes u64_bytes) AreWords result reader.old reader.new }
{
    let count = reader.count()?;
    let bytes = reader.bytes(8 * count as usize)?;
    Some(words_in(count, bytes))
}

fn words_in<'a>(count: u32, bytes: &'a [u8]) -> Words<'a>
    requires { length bytes.now ≡ 8 * count }
    ensures spelled { flat_map u64_bytes result ≡ bytes.now }
    ensures few { AreWords result }
{
    Words { count, bytes }
}

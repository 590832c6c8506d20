//! Entries of the sections of types and of code.

ghost use Rattle.std.specs.Prelude.{MatchOption, ℕ};
ghost use Rattle.wasm_places.specs.Answers.{Skips};
ghost use Rattle.wasm_places.specs.Entries.{section_entry_at, type_at};
ghost use Rattle.wasm_places.specs.rules.Places.{IsInEntry};

use crate::reader::{Part, Reader};

/// Of which section they are.
#[derive(Clone, Copy, Debug, PartialEq, Eq)]
pub enum Entries {
    Types,
    /// The code of functions.
    Codes,
}

/// A type is passed over.
#[tactic(auto, unfolding(crate::specs::Entries::type_at))]
fn skip_type(reader: &mut Reader) -> Option<()>
    ensures { Skips result reader.new (type_at reader.old) }
{
    reader.expect_byte(0x60)?;
    reader.bytes()?;
    reader.bytes()?;
    Some(())
}

/// An entry is passed over.
fn skip_entry(entries: Entries, reader: &mut Reader) -> Option<()>
    ensures { Skips result reader.new (section_entry_at entries reader.old) }
{
    match entries {
        Entries::Types => skip_type(reader),
        Entries::Codes => {
            reader.bytes()?;
            Some(())
        }
    }
}

/// The number of the entry, from 0 on, in which a byte of a section lies. So many bytes of the
/// section are left from it on.
pub fn entry_around(entries: Entries, section: Part, left: usize) -> Option<u32>
    ensures { MatchOption result
        ((number : ℕ) → IsInEntry entries section.entry.bytes.now left number → ⊥)
        (IsInEntry entries section.entry.bytes.now left) }
{
    let mut rest = Reader::of(section);
    let count = rest.u32()?;
    if rest.len() < left {
        return None;
    }
    for number in 0..count {
        skip_entry(entries, &mut rest)?;
        if rest.len() < left {
            return Some(number);
        }
    }
    None
}

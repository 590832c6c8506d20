//! Entries of an environment without a name.

ghost use Rattle.std.specs.Prelude.{◌↔◌, IfSome, IsTrue};
ghost use Rattle.wasi_abi.specs.rules.Configs.{HasEquals, IsNamed};
ghost use Rattle.command_words.specs.rules.Entries.{IsUnnamedEntry, IsUnnamedPlace};

use wasm_syntax::ItemList;

/// Whether a `=` is in a text.
fn has_equals(text: &[u8]) -> bool
    ensures { IsTrue result ↔ HasEquals text.now }
{
    text.contains(&b'=')
}

/// Whether a name is before the first `=` of an entry.
fn is_named(entry: &[u8]) -> bool
    ensures { IsTrue result ↔ IsNamed entry.now }
{
    match entry {
        [] => false,
        [first, rest @ ..] => *first != b'=' && has_equals(rest),
    }
}

/// Where the first entry without a name is, if there is one.
fn unnamed_place(entries: &[ItemList<u8>]) -> Option<usize>
    ensures { IfSome result (IsUnnamedPlace entries.now) }
{
    entries.iter().position(|entry| !is_named(entry.as_slice()))
}

/// The number of the first entry without a name, from 1 on, if there is one.
pub(crate) fn unnamed_entry(entries: &[ItemList<u8>]) -> Option<usize>
    ensures { IfSome result (IsUnnamedEntry entries.now) }
{
    let place = unnamed_place(entries)?;
    Some(place + 1)
}

//! Names that nodes may have.

ghost use Rattle.std.specs.Prelude.{◌≡◌, ◌↔◌, ◌⊎◌, ◌∷◌, [], IsTrue};
ghost use Rattle.std.specs.List.{AllByRecursion};
ghost use Rattle.std.specs.Str.{IsUtf8};
ghost use Rattle.file_tree.specs.rules.Files.{IsNodeName, IsNameByte, dot};

use crate::limits::NAME_BYTES;

/// Whether a node may have this name: 1 to 255 bytes of UTF-8, no zero byte and no slash, and
/// neither `.` nor `..`.
pub fn is_name(name: &[u8]) -> bool
    ensures { IsTrue result ↔ IsNodeName name.now }
{
    if name.is_empty() || name.len() > NAME_BYTES {
        return false;
    }
    if !has_name_bytes(name) || !is_utf8(name) {
        return false;
    }
    !is_dots(name)
}

fn is_utf8(name: &[u8]) -> bool
    ensures { IsTrue result ↔ IsUtf8 name.now }
{
    str::from_utf8(name).is_ok()
}

// Whether no byte is zero or a slash.
fn has_name_bytes(name: &[u8]) -> bool
    ensures { IsTrue result ↔ AllByRecursion IsNameByte name.now }
{
    for index in 0..name.len() {
        if name[index] == 0 || name[index] == b'/' {
            return false;
        }
    }
    true
}

fn is_dots(name: &[u8]) -> bool
    ensures { IsTrue result ↔ ((name.now ≡ dot ∷ []) ⊎ (name.now ≡ dot ∷ dot ∷ [])) }
{
    name == b".".as_slice() || name == b"..".as_slice()
}

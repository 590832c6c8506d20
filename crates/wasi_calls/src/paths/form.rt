//! The form of a path, and the names that it goes along.

ghost use Rattle.std.specs.Prelude.{◌≡◌, ◌≢◌, ◌<◌, ◌==◌, [], ◌∷◌, length, if◌then◌else◌};
ghost use Rattle.std.specs.List.{list_any};
ghost use Rattle.std.specs.Str.{is_utf8};
ghost use Rattle.file_tree.specs.rules.Files.{slash};
ghost use Rattle.wasi_calls_rules.specs.Paths.{begins_with, is_dropped, names_of};

use file_tree::limits::{NAME_BYTES, PATH_BYTES};
use std::marker::Model;
use wasi_abi::Errno;

/// The names of a path that are left to walk. Empty parts and `.` are none of them, but `..` is.
#[derive(Drop)]
pub struct PathNames<'a> {
    rest: &'a [u8],
}

impl<'a> Model for PathNames<'a> {
    ghost use Rattle.std.specs.Prelude.{List};
    ghost use Rattle.file_tree.specs.rules.Files.{Name};
    ghost use Rattle.wasi_calls_rules.specs.Paths.{names_of};

    ghost Value = { List Name };

    ghost view = { λ p. names_of p.rest.now };
}

impl<'a> PathNames<'a> {
    ghost use Rattle.std.specs.Prelude.{◌≡◌, ◌↔◌, [], IfOk, IsTrue, option_map};
    ghost use Rattle.std.specs.Prelude.{not, nat_le, length};
    ghost use Rattle.std.specs.List.{list_all};
    ghost use Rattle.file_tree.specs.rules.Files.{Name};
    ghost use Rattle.file_tree.specs.declared.limits.TheConstants.{NAME_BYTES};
    ghost use Rattle.wasi_calls_rules.specs.Paths.{formed};
    ghost use Rattle.wasi_calls.specs.Places.{AreWalked, TakesName};
    ghost use Rattle.wasi_calls.specs.Steps.{GivesValue};

    /// The names of a path, or why it has no right form.
    pub fn of(bytes: &'a [u8]) -> Result<PathNames<'a>, Errno>
        ensures gives { GivesValue (λ names. names) result (formed bytes.now) }
        ensures walked { IfOk result AreWalked }
    {
        if bytes.is_empty() {
            return Err(Errno::Noent);
        }
        if bytes.len() > PATH_BYTES {
            return Err(Errno::Nametoolong);
        }
        if !is_text(bytes) {
            return Err(Errno::Ilseq);
        }
        if has_zero(bytes) {
            return Err(Errno::Inval);
        }
        if is_whole(bytes) {
            return Err(Errno::Notcapable);
        }
        let names = PathNames { rest: bytes };
        if names.has_long() {
            return Err(Errno::Nametoolong);
        }
        Ok(names)
    }

    /// The next name.
    pub fn next(&mut self) -> Option<&'a [u8]>
        ensures { TakesName (option_map (λ s. s.now) result) self.old self.new }
    {
        while !self.rest.is_empty() {
            let (part, rest) = split(self.rest);
            self.rest = rest;
            if !is_dropped(part) {
                return Some(part);
            }
        }
        None
    }

    /// Whether no name is left.
    pub fn is_empty(&self) -> bool
        ensures { IsTrue result ↔ (self.now ≡ []) }
    {
        PathNames { rest: self.rest }.next().is_none()
    }

    /// Whether a name is too long.
    fn has_long(&self) -> bool
        ensures { not result
            ≡ list_all (λ (name : Name). nat_le (length name) NAME_BYTES) self.now }
    {
        let mut names = PathNames { rest: self.rest };
        while let Some(name) = names.next() {
            if name.len() > NAME_BYTES {
                return true;
            }
        }
        false
    }
}

/// Whether it is UTF-8.
fn is_text(bytes: &[u8]) -> bool
    ensures { result ≡ is_utf8 bytes.now }
{
    str::from_utf8(bytes).is_ok()
}

/// Whether a zero byte is there.
fn has_zero(bytes: &[u8]) -> bool
    ensures { result ≡ list_any (λ b. b == 0) bytes.now }
{
    for byte in bytes {
        if *byte == 0 {
            return true;
        }
    }
    false
}

/// Whether it begins with a slash, and so at the root.
fn is_whole(bytes: &[u8]) -> bool
    ensures { result ≡ begins_with bytes.now slash }
{
    match bytes {
        [first, ..] => *first == b'/',
        [] => false,
    }
}

/// Whether no walk goes along a part: an empty one, or `.`.
fn is_dropped(part: &[u8]) -> bool
    ensures { result ≡ is_dropped part.now }
{
    match part {
        [] => true,
        [byte] => *byte == b'.',
        _ => false,
    }
}

/// The part before the first slash, and what is after it. Where there is no slash nothing is.
fn split(bytes: &[u8]) -> (&[u8], &[u8])
    ensures names { names_of bytes.now ≡ (if is_dropped result.0.now then names_of result.1.now
        else result.0.now ∷ names_of result.1.now) }
    ensures shorter { bytes.now ≢ [] → length result.1.now < length bytes.now }
{
    for index in 0..bytes.len() {
        if bytes[index] == b'/' {
            return (&bytes[..index], &bytes[index + 1..]);
        }
    }
    (bytes, b"")
}

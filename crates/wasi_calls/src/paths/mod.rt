//! Paths that a guest gives: their bytes, their form, and where they lead.

pub mod entries;
mod form;
mod walk;

ghost use Rattle.wasi_calls_rules.specs.Checks.{lent};
ghost use Rattle.wasi_calls.specs.Steps.{GivesValue};

pub use form::PathNames;
use guest_memory::Memory;
pub use walk::{PathEnd, place_of_names, place_of_path};
use wasi_abi::Errno;

/// The bytes of a path, or `Fault`.
pub fn path_bytes(memory: &Memory, path: u32, len: u32) -> Result<&[u8], Errno>
    ensures { GivesValue (λ s. s.now) result (lent memory.now.bytes path len) }
{
    memory.part(path, len).ok_or(Errno::Fault)
}

//! Why bytes are no module.

ghost use Rattle.std.specs.Prelude.{◌≡◌};
ghost use Rattle.wasm_decode.specs.declared.items.fault.ItemFault.TheVariants.{Refused, Memory};

use crate::items::limit::{ModuleLimit, PassedLimit};
use std::alloc::{AllocError, AllocFailed};

/// What is wrong with the bytes: the first fault from the front. Offsets are in bytes, from the
/// first of all bytes, and name the first byte of the item at fault.
#[derive(Clone, Copy, Debug, PartialEq, Eq)]
pub enum ReadRefusal {
    /// An item can't be at this offset.
    Malformed(usize),
    /// A float type or instruction is at this offset.
    Float(usize),
    /// A limit is passed.
    Limit(PassedLimit),
}

impl ReadRefusal {
    /// That this limit is passed at this offset.
    pub fn past(limit: ModuleLimit, at: usize) -> ReadRefusal {
        ReadRefusal::Limit(PassedLimit { limit, at })
    }
}

/// Why nothing was read.
#[derive(Debug, Drop)]
pub enum ItemFault {
    Refused(ReadRefusal),
    Memory,
}

impl From<ReadRefusal> for ItemFault {
    ghost from_gives = { λ refusal e. e ≡ Refused refusal };

    fn from(refusal: ReadRefusal) -> ItemFault {
        ItemFault::Refused(refusal)
    }
}

impl From<AllocError> for ItemFault {
    ghost from_gives = { λ _ e. e ≡ Memory };

    fn from(_error: AllocError) -> ItemFault {
        ItemFault::Memory
    }
}

impl<T: Drop> From<AllocFailed<T>> for ItemFault {
    ghost from_gives = { λ _ e. e ≡ Memory };

    fn from(_error: AllocFailed<T>) -> ItemFault {
        ItemFault::Memory
    }
}

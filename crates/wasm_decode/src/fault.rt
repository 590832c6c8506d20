//! Why bytes are not decoded.

ghost use Rattle.std.specs.Prelude.{◌≡◌, Some, None};
ghost use Rattle.wasm_decode.specs.rules.Faults.{decode_fault, passed_of, place_of};

use crate::items::{ItemFault, PassedLimit, ReadRefusal};
use thiserror::Error;

/// Why bytes are no module, or out of memory. Bytes are counted from 0, and read from the front:
/// the number is that of the byte at which something begins that can't be there, be it a fixed
/// byte, a number, or a name or vector together with its length.
#[derive(Clone, Copy, Debug, PartialEq, Eq, Error)]
pub enum DecodeFault {
    #[error("B1 Malformed")]
    Malformed(usize),
    /// A type or an instruction of floats is there.
    #[error("B2 Float")]
    Float(usize),
    /// A limit of modules is passed.
    #[error("B3 Limit")]
    Limit(PassedLimit),
    #[error("B4 Memory")]
    Memory,
}

impl DecodeFault {
    /// The offset of the item at fault. `passed_limit` has that of a limit.
    pub fn place(&self) -> Option<usize>
        ensures { result ≡ place_of self.now }
    {
        match self {
            DecodeFault::Malformed(at) | DecodeFault::Float(at) => Some(*at),
            DecodeFault::Limit(_) | DecodeFault::Memory => None,
        }
    }

    /// The limit that is passed, and where.
    pub fn passed_limit(&self) -> Option<PassedLimit>
        ensures { result ≡ passed_of self.now }
    {
        match self {
            DecodeFault::Limit(passed) => Some(*passed),
            DecodeFault::Malformed(_) | DecodeFault::Float(_) | DecodeFault::Memory => None,
        }
    }
}

impl From<ItemFault> for DecodeFault {
    ghost from_gives = { λ error fault. fault ≡ decode_fault error };

    fn from(error: ItemFault) -> DecodeFault {
        match error {
            ItemFault::Refused(ReadRefusal::Malformed(at)) => DecodeFault::Malformed(at),
            ItemFault::Refused(ReadRefusal::Float(at)) => DecodeFault::Float(at),
            ItemFault::Refused(ReadRefusal::Limit(passed)) => DecodeFault::Limit(passed),
            ItemFault::Memory => DecodeFault::Memory,
        }
    }
}

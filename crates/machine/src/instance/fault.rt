//! Why a module can't be linked.

ghost use Rattle.std.specs.Prelude.{◌≡◌};
ghost use Rattle.machine.specs.declared.instance.fault.LinkFault.TheVariants as faults;

use guest_memory::MemoryFault;
use std::alloc::{AllocError, AllocFailed};
use thiserror::Error;

/// The first fault in this order, or out of memory.
#[derive(Clone, Copy, Debug, PartialEq, Eq, Error)]
pub enum LinkFault {
    /// No function without parameters and results is exported as `_start`.
    #[error("L1 NoStart")]
    NoStart,
    /// No memory is exported as `memory`.
    #[error("L2 NoMemory")]
    NoMemory,
    /// The first import that isn't offered has a name that the host doesn't offer.
    #[error("L3 UnknownImport")]
    UnknownImport,
    /// The first import that isn't offered has another type than the host's function of this name.
    #[error("L4 ImportType")]
    ImportType,
    /// A segment reaches beyond the end of its table or memory.
    #[error("L5 InitRange")]
    InitRange,
    /// Memory begins with more pages than it may have.
    #[error("L6 TooManyPages")]
    TooManyPages,
    #[error("L7 Memory")]
    Memory,
}

impl From<AllocError> for LinkFault {
    ghost from_gives = { λ _ e. e ≡ faults.Memory };

    fn from(_error: AllocError) -> LinkFault {
        LinkFault::Memory
    }
}

impl<T: Drop> From<AllocFailed<T>> for LinkFault {
    ghost from_gives = { λ _ e. e ≡ faults.Memory };

    fn from(_error: AllocFailed<T>) -> LinkFault {
        LinkFault::Memory
    }
}

impl From<MemoryFault> for LinkFault {
    ghost from_gives = { λ _ e. e ≡ faults.Memory };

    fn from(_error: MemoryFault) -> LinkFault {
        LinkFault::Memory
    }
}

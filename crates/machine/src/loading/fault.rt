//! Why a machine isn't taken.

ghost use Rattle.std.specs.Prelude.{◌≡◌};
ghost use Rattle.machine.specs.declared.loading.fault.LoadFault.TheVariants as faults;

use guest_memory::MemoryFault;
use std::alloc::{AllocError, AllocFailed};
use thiserror::Error;

/// Why a machine can't be put together from its parts.
#[derive(Clone, Copy, Debug, PartialEq, Eq, Error)]
pub enum LoadFault {
    /// The parts show no configuration of a program of the module, or there is no room for them.
    #[error("U1 Unfit")]
    Unfit,
    #[error("U2 Memory")]
    Memory,
}

impl From<AllocError> for LoadFault {
    ghost from_gives = { λ _ e. e ≡ faults.Memory };

    fn from(_error: AllocError) -> LoadFault {
        LoadFault::Memory
    }
}

impl<T: Drop> From<AllocFailed<T>> for LoadFault {
    ghost from_gives = { λ _ e. e ≡ faults.Memory };

    fn from(_error: AllocFailed<T>) -> LoadFault {
        LoadFault::Memory
    }
}

impl From<MemoryFault> for LoadFault {
    ghost from_gives = { λ _ e. e ≡ faults.Memory };

    fn from(_error: MemoryFault) -> LoadFault {
        LoadFault::Memory
    }
}

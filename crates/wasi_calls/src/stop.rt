//! Why a call has changed nothing.
//!
//! **Checks take no memory and come first.** Out of memory is a kind of stop of its own beside
//! refusals, so that a refused call can't be answered as one.

ghost use Rattle.std.specs.Prelude.{◌≡◌};
ghost use Rattle.wasi_calls.specs.declared.stop.CallStop.TheVariants.{Refused};
ghost use Rattle.wasi_calls.specs.declared.stop.CallStop.TheVariants.{Memory as WantOfMemory};

use std::alloc::AllocError;
use wasi_abi::{Errno, Question};

/// Why a step of a call didn't give what it is to give.
#[derive(Clone, Copy, Debug, PartialEq, Eq)]
pub enum CallStop {
    Refused(Errno),
    Asks(Question),
    Memory,
}

impl From<Errno> for CallStop {
    ghost from_gives = { λ error stop. stop ≡ Refused error };

    fn from(error: Errno) -> CallStop {
        CallStop::Refused(error)
    }
}

impl From<AllocError> for CallStop {
    ghost from_gives = { λ _ stop. stop ≡ WantOfMemory };

    fn from(_error: AllocError) -> CallStop {
        CallStop::Memory
    }
}

//! Why bytes are made nothing again.

ghost use Rattle.std.specs.Prelude.{◌≡◌};
ghost use Rattle.state_image.specs.declared.restoring.fault.RestoreFault.TheVariants as fault;

use std::alloc::AllocError;
use thiserror::Error;

/// Why bytes are made nothing again.
#[derive(Clone, Copy, Debug, PartialEq, Eq, Error)]
pub enum RestoreFault {
    /// No image that is accepted has these bytes.
    #[error("I1 NotAnImage")]
    NotAnImage,
    /// Memory ran out.
    #[error("I2 Memory")]
    Memory,
}

impl From<AllocError> for RestoreFault {
    ghost from_gives = { λ _ made. made ≡ fault.Memory };

    fn from(_error: AllocError) -> RestoreFault {
        RestoreFault::Memory
    }
}

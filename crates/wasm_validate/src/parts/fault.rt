//! Why a module is not valid.
//!
//! **The kind of a fault is one that the module has** (`HasFault`). Indices and limits are read off
//! the module. A wrong type is harder: what isn't defined has no type. `Typing` says that no
//! context with more in it would give the body a type, nor labels around it. Such a body has a
//! fault of typing whatever its indices name. The proof checks the body within further open
//! sequences.

ghost use Rattle.std.specs.Prelude.{◌≡◌};
ghost use Rattle.wasm_validate.specs.declared.parts.fault.ValidFault.TheVariants as faults;

use std::alloc::{AllocError, AllocFailed};
use thiserror::Error;

/// The first fault, or out of memory. Types are checked first, then imports, functions, tables,
/// memories, globals, exports, the start function, element segments and data segments, and bodies
/// last.
#[derive(Clone, Copy, Debug, PartialEq, Eq, Error)]
pub enum ValidFault {
    /// Operands, results or a constant expression have another type.
    #[error("V1 Typing")]
    Typing,
    /// An index names nothing.
    #[error("V2 Index")]
    Index,
    /// Limits are out of order or range, there is a second table, memory or result, or an alignment
    /// is above the natural one.
    #[error("V3 Limits")]
    Limits,
    /// Two exports have one name.
    #[error("V4 DuplicateExport")]
    DuplicateExport,
    #[error("V5 Memory")]
    Memory,
}

impl From<AllocError> for ValidFault {
    ghost from_gives = { λ _ e. e ≡ faults.Memory };

    fn from(_error: AllocError) -> ValidFault {
        ValidFault::Memory
    }
}

impl<T: Drop> From<AllocFailed<T>> for ValidFault {
    ghost from_gives = { λ _ e. e ≡ faults.Memory };

    fn from(_error: AllocFailed<T>) -> ValidFault {
        ValidFault::Memory
    }
}

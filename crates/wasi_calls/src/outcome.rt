//! How a call ends.

use wasi_abi::{Errno, Question};

/// What a caller is told.
#[derive(Clone, Copy, Debug, PartialEq, Eq)]
pub enum CallOutcome {
    /// The call is done. The guest gets `success`, the error number 0.
    Done,
    /// It is refused: the guest gets this error's number.
    Refused(Errno),
    /// It wants this answer, and then to be called again.
    Ask(Question),
    /// The process ends with this code.
    Exit(u32),
    /// There was no memory for it.
    Memory,
}

//! Why a worker has nothing to hand over.

use crate::recover_fault::RecoverFault;
use thiserror::Error;

/// Nothing was written.
#[derive(Clone, Copy, Debug, PartialEq, Eq, Error)]
pub enum LeaveFault {
    /// Records come after its snapshot. Or its process has not ended, and asks for no request.
    #[error("N9 NotParked")]
    NotParked,
    /// The change of code would be a step beyond the last one.
    #[error("P3 StepsSpent")]
    StepsSpent,
    /// No worker was found.
    #[error("{0}")]
    Recover(RecoverFault),
}

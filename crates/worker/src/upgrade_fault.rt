//! Why a worker isn't upgraded.

use thiserror::Error;

/// Nothing was asked of the disk.
#[derive(Clone, Copy, Debug, PartialEq, Eq, Error)]
pub enum UpgradeFault {
    /// The journal has too few sectors for the longest record of version 2.
    #[error("N7 JournalTooSmall")]
    JournalTooSmall,
    /// Lines beyond the process may have been told in an earlier life: in this one the worker was
    /// recovered, has asked for nothing yet, and hasn't ended.
    #[error("N8 NotCaughtUp")]
    NotCaughtUp,
}

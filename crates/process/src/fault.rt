//! Why a process can't do a step.

use thiserror::Error;

/// The process is as it was after its last whole step.
#[derive(Clone, Copy, Debug, PartialEq, Eq, Error)]
pub enum ProcessFault {
    /// The answer doesn't fit what is asked for, or nothing is asked for: a line waits, or the
    /// process has ended.
    #[error("P1 WrongAnswer")]
    WrongAnswer,
    /// There is no memory for the next step.
    #[error("P2 Memory")]
    Memory,
    /// Steps are numbered below 2^63, and lines below 2^63 - 2, unfinished ones counted. The next
    /// step would go beyond.
    #[error("P3 StepsSpent")]
    StepsSpent,
}

//! What is on a worker's disk, in numbers.

use wasi_abi::Version;

/// The process that was saved last, in numbers, and how many records lie after it.
#[derive(Clone, Copy, Debug, PartialEq, Eq)]
pub struct Survey {
    pub generation: u64,
    /// Steps that the saved process has taken.
    pub steps: u64,
    /// Answers that it has taken.
    pub answers: u64,
    /// Lines that it has emitted.
    pub lines: u64,
    pub records: u64,
    /// The version of the saved process, which is that of the newest head.
    pub version: Version,
}

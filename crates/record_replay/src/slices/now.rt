//! Why a slice is over.

use process::ProcessEnd;

#[derive(Clone, Copy, Debug, PartialEq, Eq)]
pub enum Now {
    /// All steps of the slice were taken.
    Spent,
    /// The next step wants an answer that isn't there yet.
    Waiting,
    Ended(ProcessEnd),
}

//! Why there is no answer.

use thiserror::Error;

#[derive(Clone, Copy, Debug, PartialEq, Eq, Error)]
pub enum LineFault {
    /// A request beyond the next one.
    #[error("refused request {given}, wanted {wanted}")]
    Number { given: u64, wanted: u64 },
    /// A line of another form, or with a text that is too long.
    #[error("refused request line")]
    Form,
    /// The reader failed. The standard input may be one that has nothing now and doesn't wait.
    #[error("failed N2 Source\nthe standard input can't be read, or doesn't wait (O_NONBLOCK)")]
    Read,
    #[error("failed N4 Memory")]
    Memory,
    /// The machine's clock can't be read.
    #[error("failed N2 Source\nthe machine's clock can't be read")]
    Clock,
    /// The words of the seed can't be counted further.
    #[error("failed N2 Source\nthe random words of the seed are used up")]
    Words,
}

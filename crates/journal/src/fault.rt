//! Why a journal's call failed.
use sector_disk::DiskFault;
use thiserror::Error;

#[derive(Clone, Copy, Debug, PartialEq, Eq, Error)]
pub enum JournalFault {
    /// The record is longer than the room that is left, in bytes.
    #[error("J1 Full")]
    Full,
    /// The payload is longer than the journal's version allows.
    #[error("J2 TooLong")]
    TooLong,
    /// The disk failed.
    #[error("J3 Disk")]
    Disk(DiskFault),
    /// Memory ran out.
    #[error("J4 Memory")]
    Memory,
    /// An earlier call failed.
    #[error("J5 Failed")]
    Failed,
}

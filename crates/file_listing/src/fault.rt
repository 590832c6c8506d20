//! Why no file is read.

use thiserror::Error;

/// Why there are no bytes under a path.
#[derive(Clone, Copy, Debug, PartialEq, Eq, Error)]
pub enum PathFault {
    /// No node is listed so.
    #[error("F1 Missing")]
    Missing,
    /// It is a directory.
    #[error("F2 Directory")]
    Directory,
    /// There is no memory for the list, or for the bytes.
    #[error("F3 Memory")]
    Memory,
}

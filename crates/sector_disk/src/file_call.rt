//! What a file was asked for.

use crate::SECTOR_SIZE;

/// A call that a file was asked for, with its answer. Its bytes are beside it in the log, and are
/// `NO_BYTES` of a call that has none.
#[derive(Clone, Copy, Debug)]
pub(crate) enum FileCall {
    /// It read these bytes in this sector.
    Read(u64),
    /// It wrote these bytes to this sector.
    Wrote(u64),
    /// It failed to write these bytes to this sector, and may have left a prefix of them.
    Tore(u64),
    Synced,
    /// A call that failed and wrote nothing.
    Failed(Failure),
}

/// Which call of a file failed.
#[derive(Clone, Copy, Debug)]
pub(crate) enum Failure {
    OfRead,
    OfSync,
    /// One that the file wasn't asked for, since an earlier write or sync of it had failed.
    Refused,
}

pub(crate) const NO_BYTES: [u8; SECTOR_SIZE] = [0; SECTOR_SIZE];

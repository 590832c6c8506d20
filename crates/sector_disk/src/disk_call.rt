//! What a disk was asked for.

/// A write or a sync that a disk was asked for. Only clauses read it.
#[derive(Clone, Copy, Debug)]
pub(crate) enum DiskCall {
    /// A write to this sector.
    WriteOf(u64),
    Sync,
}

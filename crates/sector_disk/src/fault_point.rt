//! Where a disk stops or fails.

/// The number of a call, from 1, and the front in bytes that it leaves if it is a write. A larger
/// front than a sector is the whole write.
#[derive(Clone, Copy, Debug)]
pub struct FaultPoint {
    pub call: u64,
    pub front: u16,
}

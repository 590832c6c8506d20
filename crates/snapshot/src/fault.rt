//! Why a snapshot isn't read or written.
ghost use Rattle.std.specs.Prelude.{◌≡◌};
ghost use Rattle.snapshot.specs.declared.fault.SnapshotFault.TheVariants.{Disk, Memory};

use sector_disk::DiskFault;
use std::alloc::AllocError;
use thiserror::Error;

#[derive(Clone, Copy, Debug, PartialEq, Eq, Error)]
pub enum SnapshotFault {
    /// The image is longer than its area, or the generation is 2^63 or later.
    #[error("S1 TooBig")]
    TooBig,
    /// The newest head names an image that its area doesn't hold.
    #[error("S2 Damaged")]
    Damaged,
    /// The disk failed.
    #[error("S3 Disk")]
    Disk(DiskFault),
    /// Memory ran out.
    #[error("S4 Memory")]
    Memory,
    /// An earlier call failed.
    #[error("S5 Failed")]
    Failed,
}

impl From<DiskFault> for SnapshotFault {
    ghost from_gives = { λ fault e. e ≡ Disk fault };

    fn from(fault: DiskFault) -> Self {
        SnapshotFault::Disk(fault)
    }
}

impl From<AllocError> for SnapshotFault {
    ghost from_gives = { λ _ e. e ≡ Memory };

    fn from(_: AllocError) -> Self {
        SnapshotFault::Memory
    }
}

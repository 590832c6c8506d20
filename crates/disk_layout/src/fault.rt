//! Why a disk shows no worker.
use crate::damage::Damage;
use sector_disk::DiskFault;
use std::alloc::AllocError;
use thiserror::Error;

#[derive(Clone, Copy, Debug, PartialEq, Eq, Error)]
pub enum LayoutFault {
    /// A mark of the super is missing.
    #[error("Y1 NotAWorker")]
    NotAWorker,
    /// The layout, or the version of the newest head, is none that is known.
    #[error("Y2 Version")]
    Version,
    /// The disk has too few sectors.
    #[error("Y3 TooSmall")]
    TooSmall,
    /// Fields disagree with one another, or contents with their digest. The second line says which.
    #[error("Y4 Damaged\n{0}")]
    Damaged(Damage),
    /// Memory ran out.
    #[error("Y5 Memory")]
    Memory,
    /// The disk failed.
    #[error("{0}")]
    Disk(DiskFault),
}

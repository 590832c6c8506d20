//! Why a call of a store failed.

ghost use Rattle.std.specs.Prelude.{◌≡◌};
ghost use Rattle.worker_store.specs.declared.fault.StoreFault.TheVariants.{Disk, Memory};
ghost use Rattle.worker_store.specs.rules.Faults.{fault_of_journal, fault_of_snapshot};
ghost use Rattle.worker_store.specs.rules.Faults.{fault_of_layout};

use disk_layout::LayoutFault;
use journal::JournalFault;
use sector_disk::DiskFault;
use snapshot::SnapshotFault;
use std::alloc::AllocError;
use thiserror::Error;

#[derive(Clone, Copy, Debug, PartialEq, Eq, Error)]
pub enum StoreFault {
    /// A record is longer than the room that is left in the journal, in bytes.
    #[error("J1 Full")]
    Full,
    /// The payload of a record is longer than this version allows.
    #[error("J2 TooLong")]
    TooLong,
    /// The image is longer than its area, or the generation is 2^63 or later.
    #[error("S1 TooBig")]
    TooBig,
    /// No head is complete, or the newest one names an image that its area doesn't hold.
    #[error("S2 Damaged")]
    Damaged,
    /// The disk shows no worker that is known, or is too small for one.
    #[error("{0}")]
    Layout(LayoutFault),
    /// The disk failed.
    #[error("{0}")]
    Disk(DiskFault),
    /// Memory ran out.
    #[error("out of memory")]
    Memory,
    /// An earlier call failed.
    #[error("an earlier call failed")]
    Failed,
}

impl From<JournalFault> for StoreFault {
    ghost from_gives = { λ fault e. e ≡ fault_of_journal fault };

    fn from(fault: JournalFault) -> Self {
        match fault {
            JournalFault::Full => StoreFault::Full,
            JournalFault::TooLong => StoreFault::TooLong,
            JournalFault::Disk(fault) => StoreFault::Disk(fault),
            JournalFault::Memory => StoreFault::Memory,
            JournalFault::Failed => StoreFault::Failed,
        }
    }
}

impl From<SnapshotFault> for StoreFault {
    ghost from_gives = { λ fault e. e ≡ fault_of_snapshot fault };

    fn from(fault: SnapshotFault) -> Self {
        match fault {
            SnapshotFault::TooBig => StoreFault::TooBig,
            SnapshotFault::Damaged => StoreFault::Damaged,
            SnapshotFault::Disk(fault) => StoreFault::Disk(fault),
            SnapshotFault::Memory => StoreFault::Memory,
            SnapshotFault::Failed => StoreFault::Failed,
        }
    }
}

impl From<LayoutFault> for StoreFault {
    ghost from_gives = { λ fault e. e ≡ fault_of_layout fault };

    fn from(fault: LayoutFault) -> Self {
        match fault {
            LayoutFault::Memory => StoreFault::Memory,
            LayoutFault::Disk(fault) => StoreFault::Disk(fault),
            other => StoreFault::Layout(other),
        }
    }
}

impl From<DiskFault> for StoreFault {
    ghost from_gives = { λ fault e. e ≡ Disk fault };

    fn from(fault: DiskFault) -> Self {
        StoreFault::Disk(fault)
    }
}

impl From<AllocError> for StoreFault {
    ghost from_gives = { λ _ e. e ≡ Memory };

    fn from(_: AllocError) -> Self {
        StoreFault::Memory
    }
}

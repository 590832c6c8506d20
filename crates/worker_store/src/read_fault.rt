//! Why a worker isn't read from its disk.

ghost use Rattle.std.specs.Prelude.{◌≡◌};
ghost use Rattle.worker_store.specs.rules.ReadFaults.{read_of_layout, read_of_snapshot};
ghost use Rattle.worker_store.specs.rules.ReadFaults.{read_of_journal};

use disk_layout::LayoutFault;
use journal::JournalFault;
use sector_disk::DiskFault;
use snapshot::SnapshotFault;
use thiserror::Error;

/// The fault of the layer that has found it, under its own name. What the disk says is handed on
/// as that.
#[derive(Clone, Copy, Debug, PartialEq, Eq, Error)]
pub enum ReadFault {
    /// The disk failed.
    #[error("{0}")]
    Disk(DiskFault),
    /// The disk shows no worker that is known, or is too small for one.
    #[error("{0}")]
    Layout(LayoutFault),
    /// No head is complete, or the newest one names an image that its area doesn't hold.
    #[error("{0}")]
    Snapshot(SnapshotFault),
    /// The records can't be read.
    #[error("{0}")]
    Journal(JournalFault),
}

impl From<LayoutFault> for ReadFault {
    ghost from_gives = { λ fault e. e ≡ read_of_layout fault };

    fn from(fault: LayoutFault) -> Self {
        match fault {
            LayoutFault::Disk(fault) => ReadFault::Disk(fault),
            other => ReadFault::Layout(other),
        }
    }
}

impl From<SnapshotFault> for ReadFault {
    ghost from_gives = { λ fault e. e ≡ read_of_snapshot fault };

    fn from(fault: SnapshotFault) -> Self {
        match fault {
            SnapshotFault::Disk(fault) => ReadFault::Disk(fault),
            other => ReadFault::Snapshot(other),
        }
    }
}

impl From<JournalFault> for ReadFault {
    ghost from_gives = { λ fault e. e ≡ read_of_journal fault };

    fn from(fault: JournalFault) -> Self {
        match fault {
            JournalFault::Disk(fault) => ReadFault::Disk(fault),
            other => ReadFault::Journal(other),
        }
    }
}

//! Why a recovery fails.

ghost use Rattle.std.specs.Prelude.{◌≡◌};
ghost use Rattle.worker.specs.declared.fault.WorkFault.TheVariants as work;
ghost use Rattle.worker.specs.declared.recover_fault.RecoverFault.TheVariants as recover;
ghost use Rattle.worker.specs.rules.WorkFaults.{fault_of_store};
ghost use Rattle.worker.specs.rules.RecoverFaults.{fault_of_read, wants_memory};

use crate::fault::WorkFault;
use disk_layout::LayoutFault;
use journal::JournalFault;
use machine::ModuleFault;
use record_replay::{ReplayFault, SliceFault};
use sector_disk::DiskFault;
use snapshot::SnapshotFault;
use state_image::restoring::RestoreFault;
use thiserror::Error;
use worker_store::{ReadFault, StoreFault};

/// The fault of the layer that has found it, under its own name. So it says which of them wants
/// memory.
#[derive(Clone, Copy, Debug, PartialEq, Eq, Error)]
pub enum RecoverFault {
    /// What any call of a worker on its disk may say. Of a recovery it is a fault of the disk, or
    /// the next generation is too big.
    #[error("{0}")]
    Worker(WorkFault),
    /// The super, the configuration and the module's bytes, the version of the newest head, or a
    /// later generation in the journal than that of this head.
    #[error("{0}")]
    Layout(LayoutFault),
    /// The module is decoded, validated and linked.
    #[error("{0}")]
    Module(ModuleFault),
    /// The newest head, and the image that it names.
    #[error("{0}")]
    Snapshot(SnapshotFault),
    /// The process is made of its image again.
    #[error("{0}")]
    ProcessImage(RestoreFault),
    /// The records after it.
    #[error("{0}")]
    Journal(JournalFault),
    /// The process takes its records, and its lines are released once more.
    #[error("{0}")]
    Replay(ReplayFault),
}

impl RecoverFault {
    /// Whether a layer wanted memory, which says nothing of the disk.
    pub fn is_want_of_memory(&self) -> bool
        ensures { result ≡ wants_memory self.now }
    {
        match self {
            RecoverFault::Module(fault) => fault.is_want_of_memory(),
            RecoverFault::Worker(WorkFault::Work(SliceFault::Memory))
            | RecoverFault::Layout(LayoutFault::Memory)
            | RecoverFault::Snapshot(SnapshotFault::Memory)
            | RecoverFault::ProcessImage(RestoreFault::Memory)
            | RecoverFault::Journal(JournalFault::Memory)
            | RecoverFault::Replay(ReplayFault::Memory) => true,
            _ => false,
        }
    }
}

impl From<DiskFault> for RecoverFault {
    ghost from_gives = { λ fault e. e ≡ recover.Worker (work.Disk fault) };

    fn from(fault: DiskFault) -> RecoverFault {
        RecoverFault::Worker(WorkFault::Disk(fault))
    }
}

impl From<StoreFault> for RecoverFault {
    ghost from_gives = { λ fault e. e ≡ recover.Worker (fault_of_store fault) };

    fn from(fault: StoreFault) -> RecoverFault {
        RecoverFault::Worker(WorkFault::from(fault))
    }
}

impl From<ReadFault> for RecoverFault {
    ghost from_gives = { λ fault e. e ≡ fault_of_read fault };

    fn from(fault: ReadFault) -> RecoverFault {
        match fault {
            ReadFault::Disk(fault) => RecoverFault::Worker(WorkFault::Disk(fault)),
            ReadFault::Layout(fault) => RecoverFault::Layout(fault),
            ReadFault::Snapshot(fault) => RecoverFault::Snapshot(fault),
            ReadFault::Journal(fault) => RecoverFault::Journal(fault),
        }
    }
}

impl From<ModuleFault> for RecoverFault {
    ghost from_gives = { λ fault e. e ≡ recover.Module fault };

    fn from(fault: ModuleFault) -> RecoverFault {
        RecoverFault::Module(fault)
    }
}

impl From<RestoreFault> for RecoverFault {
    ghost from_gives = { λ fault e. e ≡ recover.ProcessImage fault };

    fn from(fault: RestoreFault) -> RecoverFault {
        RecoverFault::ProcessImage(fault)
    }
}

impl From<ReplayFault> for RecoverFault {
    ghost from_gives = { λ fault e. e ≡ recover.Replay fault };

    fn from(fault: ReplayFault) -> RecoverFault {
        RecoverFault::Replay(fault)
    }
}

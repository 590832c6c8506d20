//! Why a call of a worker on its disk fails.

ghost use Rattle.std.specs.Prelude.{◌≡◌};
ghost use Rattle.worker.specs.declared.fault.WorkFault.TheVariants.{Work};
ghost use Rattle.record_replay.specs.declared.slices.fault.SliceFault.TheVariants as slice;
ghost use Rattle.record_replay.specs.rules.Refusals.{slice_fault};
ghost use Rattle.worker.specs.rules.WorkFaults.{fault_of_store};

use crate::upgrade_fault::UpgradeFault;
use process::ProcessFault;
use record_replay::{OutletFault, SliceFault};
use sector_disk::DiskFault;
use thiserror::Error;
use worker_store::StoreFault;

/// What a worker without a disk says, what its disk says, what the store refuses, or why it isn't
/// upgraded.
#[derive(Clone, Copy, Debug, PartialEq, Eq, Error)]
pub enum WorkFault {
    #[error("{0}")]
    Work(SliceFault),
    #[error("N1 Disk")]
    Disk(DiskFault),
    /// Neither out of memory nor a fault of the disk.
    #[error("{0}")]
    Store(StoreFault),
    #[error("{0}")]
    Upgrade(UpgradeFault),
}

impl From<SliceFault> for WorkFault {
    ghost from_gives = { λ fault e. e ≡ Work fault };

    fn from(fault: SliceFault) -> WorkFault {
        WorkFault::Work(fault)
    }
}

impl From<ProcessFault> for WorkFault {
    ghost from_gives = { λ fault e. e ≡ Work (slice_fault fault) };

    fn from(fault: ProcessFault) -> WorkFault {
        WorkFault::Work(SliceFault::from(fault))
    }
}

impl From<OutletFault> for WorkFault {
    ghost from_gives = { λ _ e. e ≡ Work slice.Outlet };

    fn from(_fault: OutletFault) -> WorkFault {
        WorkFault::Work(SliceFault::Outlet)
    }
}

impl From<StoreFault> for WorkFault {
    ghost from_gives = { λ fault e. e ≡ fault_of_store fault };

    fn from(fault: StoreFault) -> WorkFault {
        match fault {
            StoreFault::Disk(fault) => WorkFault::Disk(fault),
            StoreFault::Memory => WorkFault::Work(SliceFault::Memory),
            StoreFault::Failed => WorkFault::Work(SliceFault::Failed),
            other => WorkFault::Store(other),
        }
    }
}

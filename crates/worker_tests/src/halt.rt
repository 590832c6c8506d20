//! Why a test of lives has nothing to compare: one name for each case of out of memory.

use disk_layout::LayoutFault;
use record_replay::ReplayFault;
use sector_disk::DiskFault;
use std::alloc::{AllocError, AllocFailed};
use wasi_abi::ConfigFault;
use worker::story::StoryFault;
use worker::{RecoverFault, SliceFault, WorkFault};

/// Want of memory, wherever it is found, or what else a step refuses.
#[derive(Clone, Copy, Debug, PartialEq, Eq)]
pub(crate) enum Halt {
    Memory,
    Settings(ConfigFault),
    Disk(DiskFault),
    Work(WorkFault),
    Recovery(RecoverFault),
    /// More answers were taken than there were requests.
    Answers,
}

/// No worker was ever made on the disk.
pub(crate) const NO_WORKER: Halt = Halt::Recovery(RecoverFault::Layout(LayoutFault::NotAWorker));

impl From<AllocError> for Halt {
    fn from(_error: AllocError) -> Halt {
        Halt::Memory
    }
}

impl<T: Drop> From<AllocFailed<T>> for Halt {
    fn from(_error: AllocFailed<T>) -> Halt {
        Halt::Memory
    }
}

impl From<ConfigFault> for Halt {
    fn from(fault: ConfigFault) -> Halt {
        Halt::Settings(fault)
    }
}

impl From<DiskFault> for Halt {
    fn from(fault: DiskFault) -> Halt {
        match fault {
            DiskFault::Memory => Halt::Memory,
            _ => Halt::Disk(fault),
        }
    }
}

impl From<SliceFault> for Halt {
    fn from(fault: SliceFault) -> Halt {
        Halt::from(WorkFault::Work(fault))
    }
}

/// The outlet of the lives fails only when out of memory, here and in a replay.
impl From<WorkFault> for Halt {
    fn from(fault: WorkFault) -> Halt {
        match fault {
            WorkFault::Work(SliceFault::Memory | SliceFault::Outlet) => Halt::Memory,
            _ => Halt::Work(fault),
        }
    }
}

impl From<RecoverFault> for Halt {
    fn from(fault: RecoverFault) -> Halt {
        match fault {
            RecoverFault::Worker(fault) => Halt::from(fault),
            RecoverFault::Replay(ReplayFault::Outlet) => Halt::Memory,
            _ => {
                if fault.is_want_of_memory() {
                    Halt::Memory
                } else {
                    Halt::Recovery(fault)
                }
            }
        }
    }
}

impl From<StoryFault> for Halt {
    fn from(_fault: StoryFault) -> Halt {
        Halt::Memory
    }
}

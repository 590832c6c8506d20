//! Why a test of images has nothing to compare: one name for each case of out of memory.

use hex::FromHexError;
use machine::ModuleFault;
use process::ProcessFault;
use state_image::restoring::RestoreFault;
use std::alloc::{AllocError, AllocFailed};
use wasi_abi::ConfigFault;

/// Want of memory, wherever it is found, or what else a step refuses.
#[derive(Clone, Copy, Debug)]
pub(crate) enum ProcessImageStop {
    Memory,
    Text(FromHexError),
    Module(ModuleFault),
    Settings(ConfigFault),
    Step(ProcessFault),
    ProcessImage(RestoreFault),
    /// The step at this place went otherwise than told.
    Wrong(usize),
}

impl From<AllocError> for ProcessImageStop {
    fn from(_error: AllocError) -> ProcessImageStop {
        ProcessImageStop::Memory
    }
}

impl<T: Drop> From<AllocFailed<T>> for ProcessImageStop {
    fn from(_error: AllocFailed<T>) -> ProcessImageStop {
        ProcessImageStop::Memory
    }
}

impl From<FromHexError> for ProcessImageStop {
    fn from(error: FromHexError) -> ProcessImageStop {
        match error {
            FromHexError::OutOfMemory => ProcessImageStop::Memory,
            _ => ProcessImageStop::Text(error),
        }
    }
}

impl From<ModuleFault> for ProcessImageStop {
    fn from(fault: ModuleFault) -> ProcessImageStop {
        if fault.is_want_of_memory() {
            ProcessImageStop::Memory
        } else {
            ProcessImageStop::Module(fault)
        }
    }
}

impl From<ConfigFault> for ProcessImageStop {
    fn from(fault: ConfigFault) -> ProcessImageStop {
        ProcessImageStop::Settings(fault)
    }
}

impl From<ProcessFault> for ProcessImageStop {
    fn from(fault: ProcessFault) -> ProcessImageStop {
        match fault {
            ProcessFault::Memory => ProcessImageStop::Memory,
            _ => ProcessImageStop::Step(fault),
        }
    }
}

impl From<RestoreFault> for ProcessImageStop {
    fn from(fault: RestoreFault) -> ProcessImageStop {
        match fault {
            RestoreFault::Memory => ProcessImageStop::Memory,
            RestoreFault::NotAnImage => ProcessImageStop::ProcessImage(fault),
        }
    }
}

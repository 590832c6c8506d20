//! Why a worker fails.

ghost use Rattle.std.specs.Prelude.{◌≡◌};
ghost use Rattle.machine.specs.declared.from_bytes.fault.ModuleFault.TheVariants as module_fault;
ghost use Rattle.record_replay.specs.rules.Refusals.{slice_fault, refusal_of};
ghost use Rattle.record_replay.specs.declared.slices.fault.SliceFault.TheVariants as slice;

use crate::OutletFault;
use machine::{LinkFault, ModuleFault};
use process::ProcessFault;
use thiserror::Error;

/// What is refused, under its own name.
#[derive(Clone, Copy, Debug, PartialEq, Eq, Error)]
pub enum Refusal {
    #[error("{0}")]
    Module(ModuleFault),
    /// Steps and lines are numbered below 2^63, and the next step would go beyond.
    #[error("P3 StepsSpent")]
    StepsSpent,
}

/// Why a call of a worker failed. A refusal is printed as what is refused.
#[derive(Clone, Copy, Debug, PartialEq, Eq, Error)]
pub enum SliceFault {
    /// The source failed, or gave an answer that doesn't fit.
    #[error("N2 Source")]
    Source,
    #[error("N3 Outlet")]
    Outlet,
    #[error("N4 Memory")]
    Memory,
    /// An earlier call failed.
    #[error("N5 Failed")]
    Failed,
    #[error("{0}")]
    Refused(Refusal),
}

impl From<ProcessFault> for SliceFault {
    ghost from_gives = { λ fault e. e ≡ slice_fault fault };

    fn from(fault: ProcessFault) -> SliceFault {
        match fault {
            ProcessFault::WrongAnswer => SliceFault::Source,
            ProcessFault::Memory => SliceFault::Memory,
            ProcessFault::StepsSpent => SliceFault::Refused(Refusal::StepsSpent),
        }
    }
}

impl From<OutletFault> for SliceFault {
    ghost from_gives = { λ _ e. e ≡ slice.Outlet };

    fn from(_fault: OutletFault) -> SliceFault {
        SliceFault::Outlet
    }
}

impl From<ModuleFault> for SliceFault {
    ghost from_gives = { λ fault e. e ≡ refusal_of fault };

    fn from(fault: ModuleFault) -> SliceFault {
        if fault.is_want_of_memory() {
            SliceFault::Memory
        } else {
            SliceFault::Refused(Refusal::Module(fault))
        }
    }
}

impl From<LinkFault> for SliceFault {
    ghost from_gives = { λ fault e. e ≡ refusal_of (module_fault.Link fault) };

    fn from(fault: LinkFault) -> SliceFault {
        SliceFault::from(ModuleFault::Link(fault))
    }
}

//! Why a source, an outlet or a replay failed. What a source or an outlet met it keeps itself, for
//! whoever owns it.

ghost use Rattle.std.specs.Prelude.{◌≡◌};
ghost use Rattle.record_replay.specs.Plays.{replay_fault};
ghost use Rattle.record_replay.specs.declared.fault.ReplayFault.TheVariants as replay;

use process::ProcessFault;
use thiserror::Error;

/// A source couldn't tell whether there is an answer.
#[derive(Clone, Copy, Debug, PartialEq, Eq, Error)]
#[error("the source failed")]
pub struct SourceFault;

/// An outlet may not have taken a line.
#[derive(Clone, Copy, Debug, PartialEq, Eq, Error)]
#[error("the outlet failed")]
pub struct OutletFault;

/// Why a replay is refused.
#[derive(Clone, Copy, Debug, PartialEq, Eq, Error)]
pub enum ReplayFault {
    /// The answer of a record fits nothing that the process asks for at its step. Or a step up to
    /// there, or a line, would have a number that is too large.
    #[error("Q1 Diverged")]
    Diverged,
    #[error("Q2 Memory")]
    Memory,
    /// The outlet has refused a line.
    #[error("Q3 Outlet")]
    Outlet,
}

impl From<ProcessFault> for ReplayFault {
    ghost from_gives = { λ fault e. e ≡ replay_fault fault };

    fn from(fault: ProcessFault) -> ReplayFault {
        match fault {
            ProcessFault::WrongAnswer | ProcessFault::StepsSpent => ReplayFault::Diverged,
            ProcessFault::Memory => ReplayFault::Memory,
        }
    }
}

impl From<OutletFault> for ReplayFault {
    ghost from_gives = { λ _ e. e ≡ replay.Outlet };

    fn from(_fault: OutletFault) -> ReplayFault {
        ReplayFault::Outlet
    }
}

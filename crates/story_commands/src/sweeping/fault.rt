//! Why a sweep ends early.

ghost use Rattle.std.specs.Prelude.{◌≡◌};
ghost use Rattle.story_commands.specs.declared.sweeping.fault.SweepFault.TheVariants.{Memory};

use crate::sweeping::running::RunLives;
use record_replay::OutletFault;
use std::alloc::AllocError;
use worker::RecoverFault;
use worker::story::StoryFault;

#[derive(Debug, Drop)]
pub(crate) enum SweepFault {
    /// Memory was refused, or there are more cuts than 64 bits count.
    Memory,
    /// The life of this number, from 1 on, ends by an error in the run without a cut.
    Plan { number: u64, why: RecoverFault },
    /// The life of this number, from 1 on, takes so many of all answers that the script has for it.
    AnswersLeft { number: u64, taken: u64, all: u64 },
    /// Where the upgrade is done again without a cut, these lives don't tell the same lines.
    Upgrade { run: RunLives },
    /// One of these lives wasn't opened or hasn't done all, or a line of them is missing or has two
    /// texts, or their lines aren't those of the run without a cut.
    Differs { run: RunLives },
}

impl From<AllocError> for SweepFault {
    ghost from_gives = { λ _ e. e ≡ Memory };

    fn from(_fault: AllocError) -> SweepFault {
        SweepFault::Memory
    }
}

impl From<OutletFault> for SweepFault {
    ghost from_gives = { λ _ e. e ≡ Memory };

    fn from(_fault: OutletFault) -> SweepFault {
        SweepFault::Memory
    }
}

impl From<StoryFault> for SweepFault {
    ghost from_gives = { λ _ e. e ≡ Memory };

    fn from(_fault: StoryFault) -> SweepFault {
        SweepFault::Memory
    }
}

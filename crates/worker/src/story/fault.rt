//! Why there is no report.

ghost use Rattle.std.specs.Prelude.{◌≡◌};
ghost use Rattle.worker.specs.declared.story.fault.StoryFault.TheVariants.{Memory};

use sector_disk::DiskFault;
use std::alloc::AllocError;
use thiserror::Error;

/// Want of memory inside of a life ends that life, and is none of these.
#[derive(Clone, Copy, Debug, PartialEq, Eq, Error)]
pub enum StoryFault {
    /// Memory was refused for the disk, for a cut of it, for the lists that are put into a life or
    /// for the report.
    #[error("G1 Memory")]
    Memory,
}

impl From<AllocError> for StoryFault {
    ghost from_gives = { λ _ e. e ≡ Memory };

    fn from(_fault: AllocError) -> StoryFault {
        StoryFault::Memory
    }
}

impl From<DiskFault> for StoryFault {
    ghost from_gives = { λ _ e. e ≡ Memory };

    fn from(_fault: DiskFault) -> StoryFault {
        StoryFault::Memory
    }
}

//! What a call meets on a disk that is told to stop or to fail.
ghost use Rattle.std.specs.Prelude.{◌≡◌};
ghost use Rattle.sector_disk.specs.rules.Trouble.{trouble_fault};

use crate::DiskFault;

/// What a call meets in place of the disk below. A write leaves a prefix of so many bytes.
#[derive(Clone, Copy, Debug)]
pub(crate) enum Trouble {
    /// The machine stops at this call.
    Stops(usize),
    /// It has stopped at an earlier one.
    Stopped,
    /// This call fails.
    Fails(usize),
}

impl Trouble {
    /// What such a call answers.
    pub(crate) fn fault(self) -> DiskFault
        ensures { result ≡ trouble_fault self }
    {
        match self {
            Trouble::Stops(_) | Trouble::Stopped => DiskFault::Cut,
            Trouble::Fails(_) => DiskFault::Io,
        }
    }
}

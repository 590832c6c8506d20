//! What each disk does.
ghost use Rattle.std.specs.Prelude.{◌≡◌};
ghost use Rattle.sector_disk.specs.rules.Medium.{Medium, Reads, Writes, SyncsMedium};

use crate::{DiskFault, SECTOR_SIZE};

/// Sectors of `SECTOR_SIZE` bytes that are read, written and synced, numbered from 0. What a
/// contract says of a disk it says of its `medium`. That is what reads give, what a cut now may
/// leave, and what a cut may have left since an earlier moment.
pub trait Disk {
    ghost medium: { Self → Medium };

    /// How many sectors there are. No call changes it.
    fn sectors(&self) -> u64
        ensures { result ≡ (medium self.now).sectors };

    /// Reads a sector. After an error nothing is said of `into`.
    fn read(&mut self, sector: u64, into: &mut [u8; SECTOR_SIZE]) -> Result<(), DiskFault>
        ensures { Reads sector into.new result (medium self.old) (medium self.new) };

    /// Writes a sector. Until a good sync a cut may leave any front of it, and so may a write that
    /// fails.
    fn write(&mut self, sector: u64, from: &[u8; SECTOR_SIZE]) -> Result<(), DiskFault>
        ensures { Writes sector from.now result (medium self.old) (medium self.new) };

    /// After it, a cut leaves what reads give. One that fails makes nothing durable.
    fn sync(&mut self) -> Result<(), DiskFault>
        ensures { SyncsMedium result (medium self.old) (medium self.new) };
}

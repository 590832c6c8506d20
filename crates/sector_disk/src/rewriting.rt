//! All sectors of a disk, written back as they are read.
//!
//! **What failed in an earlier life is written again.** Each sector that was written as it was read
//! is dirty, so the sync has something to do. The work can be stopped at any moment. A torn sector
//! keeps a prefix of what reads give, which the model always allows (`may_keep`). Whether there was
//! such a life only a person knows, so no code calls it by itself.
ghost use Rattle.std.specs.Prelude.{◌⊎◌, ◌*◌, ◌+◌, ◌<◌, [], ◌∷◌, OnOk, IsErr};
ghost use Rattle.sector_disk.specs.rules.Medium.{LeavesOnly, IsAllSynced, CountsUpTo};
ghost use Rattle.sector_disk.specs.rules.Medium.{PerformsCalls, CallsUpTo, FailsInside, spare};
ghost use Rattle.sector_disk.specs.rules.Calls.{rising_writes, synced_writes};
ghost use Rattle.sector_disk.specs.rules.Rewrite.{AddsNothing, WritesBack};
ghost use Rattle.sector_disk.specs.declared.disk_call.DiskCall.TheVariants.{WriteOf};

use crate::{Disk, DiskFault, SECTOR_SIZE};

/// Writes one sector back as it reads it.
fn write_back<D: Disk>(disk: &mut D, sector: u64) -> Result<(), DiskFault>
    requires { sector < (D.medium disk.old).sectors }
    ensures { WritesBack (WriteOf sector ∷ []) 1 result (D.medium disk.old) (D.medium disk.new) }
{
    let mut bytes = [0; SECTOR_SIZE];
    disk.read(sector, &mut bytes)?;
    disk.write(sector, &bytes)
}

/// Writes each sector back as it reads it, in rising order.
fn write_all_back<D: Disk>(disk: &mut D) -> Result<(), DiskFault>
    ensures { WritesBack (rising_writes 0 (D.medium disk.old).sectors) (D.medium disk.old).sectors
        result (D.medium disk.old) (D.medium disk.new) }
{
    for sector in 0..disk.sectors() {
        write_back(disk, sector)?;
    }
    Ok(())
}

/// Writes each sector back as it reads it, in rising order, and syncs. It is for a disk whose write
/// or sync failed in an earlier life. What reads give may then never have reached the device, and a
/// sync alone would answer well all the same. It ends at the first error.
pub fn rewrite<D: Disk>(disk: &mut D) -> Result<(), DiskFault>
    // Reads give what they gave, and with it a cut leaves only what it could have left before.
    ensures same { AddsNothing (D.medium disk.old) (D.medium disk.new) }

    // A cut at any moment leaves only what one before could have left.
    ensures any_moment { LeavesOnly (D.medium disk.old) (D.medium disk.new)
        (D.medium disk.old).crash_images }

    // Once it has answered Ok, each cut leaves what reads give.
    ensures all_synced { OnOk result (IsAllSynced (D.medium disk.new)) }

    // At no moment in between were there more unsynced writes than before and one a sector.
    ensures counts { CountsUpTo ((D.medium disk.old).unsynced + (D.medium disk.old).sectors)
        (D.medium disk.old) (D.medium disk.new) }

    // One write to each sector, in rising order, and then one sync. After an error these are begun.
    ensures calls { PerformsCalls (synced_writes 0 (D.medium disk.old).sectors) result
        (D.medium disk.old) (D.medium disk.new) }

    // It fails only where the disk does, or where there is no room for so many writes before a
    // sync.
    ensures cause { IsErr result → (spare (D.medium disk.old) < (D.medium disk.old).sectors)
        ⊎ ((D.medium disk.old).faults < (D.medium disk.new).faults) }
    ensures which_fault { FailsInside result }

    // Two calls for each of the sectors, and the sync.
    ensures asks { CallsUpTo (2 * (D.medium disk.old).sectors + 1) (D.medium disk.old)
        (D.medium disk.new) }
{
    write_all_back(disk)?;
    disk.sync()
}

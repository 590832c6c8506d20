//! Disks that are too small.
ghost use Rattle.std.specs.Prelude.{◌≡◌, ◌<◌, ◌≤◌, OnOk, IfErr};

use sector_disk::{Disk, DiskFault};

/// Tests that a disk has so many sectors. It makes no call of the disk.
pub fn test_sectors<D: Disk>(disk: &D, needed: u64) -> Result<(), DiskFault>
    ensures enough { OnOk result (needed ≤ (D.medium disk.now).sectors) }
    ensures too_few { IfErr result (λ fault. (fault ≡ DiskFault.Range)
        × ((D.medium disk.now).sectors < needed)) }
{
    if disk.sectors() < needed {
        return Err(DiskFault::Range);
    }
    Ok(())
}

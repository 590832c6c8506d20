//! Sectors that are written one after another.
ghost use Rattle.std.specs.Prelude.{◌+◌, ◌≤◌, length};
ghost use Rattle.sector_disk.specs.rules.Run.{StoresRun, WritesRun};

use crate::{Disk, DiskFault, SECTOR_SIZE};

/// Writes these sectors one after another, the first of them at `at`. It ends at the first error.
pub fn write_run<D: Disk>(
    disk: &mut D,
    at: u64,
    sectors: &[[u8; SECTOR_SIZE]],
) -> Result<(), DiskFault>
    requires { at + length sectors.now ≤ (D.medium disk.old).sectors }
    ensures { WritesRun at sectors.now result (D.medium disk.old) (D.medium disk.new) }
{
    let mut next = at;
    for sector in sectors {
        disk.write(next, sector)?;
        next += 1;
    }
    Ok(())
}

/// Writes these sectors one after another, the first of them at `at`, and syncs.
pub fn store_run<D: Disk>(
    disk: &mut D,
    at: u64,
    sectors: &[[u8; SECTOR_SIZE]],
) -> Result<(), DiskFault>
    requires { at + length sectors.now ≤ (D.medium disk.old).sectors }
    ensures { StoresRun at sectors.now result (D.medium disk.old) (D.medium disk.new) }
{
    write_run(disk, at, sectors)?;
    disk.sync()
}

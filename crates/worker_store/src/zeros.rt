//! Sectors of zeros.

ghost use Rattle.std.specs.Prelude.{◌≤◌, ◌+◌, replicate};
ghost use Rattle.wasi_abi.specs.rules.Layouts.{padding};
ghost use Rattle.sector_disk.specs.declared.sector.TheConstants.{SECTOR_SIZE};
ghost use Rattle.sector_disk.specs.rules.Run.{WritesRun};

use sector_disk::{Disk, DiskFault, SECTOR_SIZE};

/// Writes zeros to so many sectors one after another, the first of them at `at`. It ends at the
/// first error.
pub(crate) fn write_zeros<D: Disk>(disk: &mut D, at: u64, count: u32) -> Result<(), DiskFault>
    requires { at + count ≤ (D.medium disk.old).sectors }
    ensures { WritesRun at (replicate count (padding SECTOR_SIZE)) result (D.medium disk.old)
        (D.medium disk.new) }
{
    let zeros = [0; SECTOR_SIZE];
    for k in 0..u64::from(count) {
        disk.write(at + k, &zeros)?;
    }
    Ok(())
}

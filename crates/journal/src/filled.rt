//! Counting the sectors of a journal.
ghost use Rattle.std.specs.Prelude.{◌≡◌, ◌⊎◌, ◌<◌, ◌≤◌, IfOk, OnErr};
ghost use Rattle.sector_disk.specs.rules.DiskImage.{DiskImage};
ghost use Rattle.sector_disk.specs.rules.Medium.{CallsUpTo};
ghost use Rattle.disk_layout.specs.rules.Places.{total_sectors};
ghost use Rattle.disk_layout.specs.rules.Stored.{OnlyReads};
ghost use Rattle.journal.specs.rules.Filled.{sectors_filled};

use disk_layout::{Geometry, is_of, test_sectors};
use sector_disk::{Disk, DiskFault, SECTOR_SIZE};

/// How many sectors of the journal the records of a generation fill: those of the generation, from
/// the first one on without a gap. It reads each of them once, and the one after them. It fails
/// where the disk does. On a disk with too few sectors it answers `Range`, and leaves it alone.
pub fn count_filled<D: Disk>(
    disk: &mut D,
    geometry: &Geometry,
    generation: u64,
) -> Result<u64, DiskFault>
    ensures reads { OnlyReads (D.medium disk.old) (D.medium disk.new) }
    ensures counts { IfOk result (λ count. (image : DiskImage) → (D.medium disk.new).shows image
        → count ≡ sectors_filled geometry.now image generation) }
    ensures within { IfOk result (λ count. count ≤ geometry.now.journal_sectors) }
    ensures too_few { (D.medium disk.old).sectors < total_sectors geometry.now
        → (disk.new ≡ disk.old) × (result ≡ Err DiskFault.Range) }
    ensures cause { OnErr result (((D.medium disk.old).sectors < total_sectors geometry.now)
        ⊎ ((D.medium disk.old).faults < (D.medium disk.new).faults)) }
    ensures asks { CallsUpTo geometry.now.journal_sectors (D.medium disk.old) (D.medium disk.new) }
{
    test_sectors(disk, geometry.total_sectors())?;
    let at = geometry.journal_place();
    let mut sector = [0; SECTOR_SIZE];
    for k in 0..u64::from(geometry.journal_sectors) {
        disk.read(at + k, &mut sector)?;
        if !is_of(generation, 1 + k, &sector) {
            return Ok(k);
        }
    }
    Ok(u64::from(geometry.journal_sectors))
}

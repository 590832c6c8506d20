//! Bytes on sectors of a journal.
ghost use Rattle.std.specs.Prelude.{◌≡◌, ◌⊎◌, ◌+◌, ◌<◌, ◌≤◌, ◌^◌, length, OnOk, IsErr};
ghost use Rattle.sector_disk.specs.rules.Medium.{LeavesOnly, After, Follows, IsAllSynced};
ghost use Rattle.sector_disk.specs.rules.Medium.{CallsUpTo, CountsUpTo, PerformsCalls, spare};
ghost use Rattle.sector_disk.specs.rules.Calls.{synced_writes};
ghost use Rattle.sector_disk.specs.rules.Run.{IsTornRun, IsWrittenRun};
ghost use Rattle.journal.specs.rules.Packed.{packed, sectors_for};

use disk_layout::{PAYLOAD_SIZE, journal_sector};
use sector_disk::{Disk, DiskFault};

/// How many sectors so many bytes take.
pub(crate) fn sectors_for(bytes: usize) -> usize
    ensures { result ≡ sectors_for bytes }
{
    bytes.div_ceil(PAYLOAD_SIZE)
}

/// Packs these bytes into sectors, the first of them at `at`, writes one after another, and syncs
/// once.
pub(crate) fn store_packed<D: Disk>(
    disk: &mut D,
    at: u64,
    generation: u64,
    place: u64,
    bytes: &[u8],
) -> Result<(), DiskFault>
    requires few { length bytes.now ≤ 2 ^ 63 }
    requires room { at + sectors_for (length bytes.now) ≤ (D.medium disk.old).sectors }
    requires places { place + sectors_for (length bytes.now) < 2 ^ 64 }
    ensures any_moment { LeavesOnly (D.medium disk.old) (D.medium disk.new)
        (After (IsTornRun at (packed generation place (sectors_for (length bytes.now)) bytes.now)
        (sectors_for (length bytes.now))) (D.medium disk.old).crash_images) }
    ensures stored { OnOk result
        (Follows (IsWrittenRun at
        (packed generation place (sectors_for (length bytes.now)) bytes.now)
        (sectors_for (length bytes.now))) (D.medium disk.old).shows
        (D.medium disk.new).crash_images) }
    ensures all_synced { OnOk result (IsAllSynced (D.medium disk.new)) }
    ensures unsynced { (D.medium disk.new).unsynced ≤ (D.medium disk.old).unsynced
        + sectors_for (length bytes.now) }
    ensures together { OnOk result ((D.medium disk.new).unsynced_since (D.medium disk.old).moment
        ((D.medium disk.old).unsynced + sectors_for (length bytes.now))) }
    ensures counts { CountsUpTo ((D.medium disk.old).unsynced + sectors_for (length bytes.now))
        (D.medium disk.old) (D.medium disk.new) }
    ensures calls { PerformsCalls (synced_writes at (sectors_for (length bytes.now))) result
        (D.medium disk.old) (D.medium disk.new) }
    ensures cause { IsErr result → (spare (D.medium disk.old) < sectors_for (length bytes.now))
        ⊎ ((D.medium disk.old).faults < (D.medium disk.new).faults) }
    ensures asks { CallsUpTo (sectors_for (length bytes.now) + 1) (D.medium disk.old)
        (D.medium disk.new) }
{
    let count = sectors_for(bytes.len());
    for i in 0..count {
        let start = PAYLOAD_SIZE * i;
        let end = bytes.len().min(start + PAYLOAD_SIZE);
        let sector = journal_sector(generation, place + i as u64, &bytes[start..end]);
        disk.write(at + i as u64, &sector)?;
    }
    disk.sync()
}

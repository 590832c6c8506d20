//! All of a new worker's disk that is before its first snapshot.

ghost use Rattle.std.specs.Prelude.{◌≡◌, ◌⊎◌, ◌+◌, ◌++◌, ◌<◌, ◌≤◌, ◌^◌, IsErr, OnOk, length, max};
ghost use Rattle.wasi_abi.specs.rules.Configs.{Settings};
ghost use Rattle.sector_disk.specs.rules.DiskImage.{DiskImage};
ghost use Rattle.sector_disk.specs.rules.Medium.{IsAllSynced, LeavesOnly, PerformsCalls, Passes};
ghost use Rattle.sector_disk.specs.rules.Medium.{CallsUpTo, spare, CountsUpTo};
ghost use Rattle.disk_layout.specs.rules.Places.{config_bytes, geometry_of, rounded_up};
ghost use Rattle.disk_layout.specs.rules.Places.{total_sectors};
ghost use Rattle.worker_store.specs.restart_theorem.Stands.{IsBlank};
ghost use Rattle.worker_store.specs.laws.Creations.{AwaitsHead, HasNoSuper};
ghost use Rattle.worker_store.specs.rules.Savepoints.{LeavesAll};
ghost use Rattle.worker_store.specs.rules.Creations.{behind_calls, contents_calls};
ghost use Rattle.worker_store.specs.Filling.{behind_sectors};

use crate::zeros::write_zeros;
use disk_layout::{Geometry, write_contents};
use sector_disk::{Disk, DiskFault, SECTOR_SIZE, store_run, write_run};

/// Writes zeros over the super, and syncs. Then it writes configuration and module, and zeros to
/// the heads and to the journal, and syncs.
pub(crate) fn lay_contents<D: Disk>(
    disk: &mut D,
    geometry: &Geometry,
    config: &[u8],
    wasm: &[u8],
) -> Result<(), DiskFault>
    requires few { length config.now + length wasm.now ≤ 2 ^ 62 }
    requires module_sectors { geometry.now.module_sectors
        ≡ rounded_up (length config.now + length wasm.now) }
    requires room { total_sectors geometry.now ≤ (D.medium disk.old).sectors }

    // A cut at any moment leaves a blank disk.
    ensures blank { LeavesAll (D.medium disk.old) IsBlank
        → LeavesOnly (D.medium disk.old) (D.medium disk.new) IsBlank }

    // Once it has answered Ok, each cut leaves all of it.
    ensures awaits { (settings : Settings) → config.now ≡ config_bytes settings
        → geometry.now ≡ geometry_of settings (length wasm.now)
        → OnOk result (LeavesAll (D.medium disk.new) (AwaitsHead settings wasm.now)) }
    ensures all_synced { OnOk result (IsAllSynced (D.medium disk.new)) }
    ensures passes { Passes (D.medium disk.old) (D.medium disk.new) (λ _. Unit {0}) }
    ensures none { OnOk result (LeavesAll (D.medium disk.new) HasNoSuper) }
    ensures calls { PerformsCalls (contents_calls geometry.now) result (D.medium disk.old)
        (D.medium disk.new) }
    ensures cause { IsErr result → (spare (D.medium disk.old) ≡ 0)
        ⊎ ((D.medium disk.old).room < behind_sectors geometry.now)
        ⊎ ((D.medium disk.old).faults < (D.medium disk.new).faults) }
    ensures asks { CallsUpTo (behind_sectors geometry.now + 3) (D.medium disk.old)
        (D.medium disk.new) }

    // At no moment were there more unsynced writes than before and the super's, or than those after
    // it.
    ensures counts { CountsUpTo
        (max ((D.medium disk.old).unsynced + 1) (behind_sectors geometry.now))
        (D.medium disk.old) (D.medium disk.new) }
{
    store_run(disk, 0, &[[0; SECTOR_SIZE]])?;
    write_behind(disk, geometry, config, wasm)?;
    disk.sync()
}

/// Writes configuration and module, and zeros to the heads and to the journal. It makes no sync.
fn write_behind<D: Disk>(
    disk: &mut D,
    geometry: &Geometry,
    config: &[u8],
    wasm: &[u8],
) -> Result<(), DiskFault>
    requires few { length config.now + length wasm.now ≤ 2 ^ 62 }
    requires module_sectors { geometry.now.module_sectors
        ≡ rounded_up (length config.now + length wasm.now) }
    requires room { total_sectors geometry.now ≤ (D.medium disk.old).sectors }
    ensures none { LeavesAll (D.medium disk.old) HasNoSuper
        → LeavesOnly (D.medium disk.old) (D.medium disk.new) HasNoSuper }
    ensures awaits { (settings : Settings) → config.now ≡ config_bytes settings
        → geometry.now ≡ geometry_of settings (length wasm.now)
        → LeavesAll (D.medium disk.old) HasNoSuper
        → OnOk result ((image : DiskImage) → (D.medium disk.new).shows image
        → AwaitsHead settings wasm.now image) }
    ensures passes { Passes (D.medium disk.old) (D.medium disk.new) (λ _. Unit {0}) }
    ensures calls { PerformsCalls (behind_calls geometry.now) result (D.medium disk.old)
        (D.medium disk.new) }
    ensures cause { IsErr result → (spare (D.medium disk.old) < behind_sectors geometry.now)
        ⊎ ((D.medium disk.old).faults < (D.medium disk.new).faults) }
    ensures asks { CallsUpTo (behind_sectors geometry.now) (D.medium disk.old)
        (D.medium disk.new) }
    ensures unsynced { OnOk result ((D.medium disk.new).unsynced
        ≤ (D.medium disk.old).unsynced + behind_sectors geometry.now) }
    ensures counts { CountsUpTo ((D.medium disk.old).unsynced + behind_sectors geometry.now)
        (D.medium disk.old) (D.medium disk.new) }
{
    write_contents(disk, config, wasm)?;
    write_run(disk, 1, &[[0; SECTOR_SIZE], [0; SECTOR_SIZE]])?;
    write_zeros(disk, geometry.journal_place(), geometry.journal_sectors)
}

//! Sectors that are stored where they differ, and one that is written behind a sync.
ghost use Rattle.std.specs.Prelude.{◌<◌, [], ◌∷◌};
ghost use Rattle.sector_disk.specs.declared.disk_call.DiskCall.TheVariants.{WriteOf, Sync};
ghost use Rattle.sector_disk.specs.rules.Medium.{IsAllSynced, SyncsMedium};
ghost use Rattle.snapshot.specs.Store.{StoresSector, WritesDurably};

use crate::writing::Writing;
use block_lanes::same;
use sector_disk::{Disk, DiskFault, SECTOR_SIZE};

/// Writes a sector, or of one that reads give already nothing.
pub(crate) fn store_sector<D: Disk>(
    disk: &mut D,
    at: u64,
    sector: &[u8; SECTOR_SIZE],
    writing: Writing,
) -> Result<(), DiskFault>
    requires { at < (D.medium disk.old).sectors }
    ensures { StoresSector at sector.now writing result (D.medium disk.old) (D.medium disk.new) }
{
    match writing {
        Writing::Whole => store_always(disk, at, sector),
        Writing::Changes => store_changed(disk, at, sector),
    }
}

/// Writes a sector.
fn store_always<D: Disk>(disk: &mut D, at: u64, sector: &[u8; SECTOR_SIZE]) -> Result<(), DiskFault>
    requires { at < (D.medium disk.old).sectors }
    ensures { StoresSector at sector.now Writing.Whole result (D.medium disk.old)
        (D.medium disk.new) }
{
    disk.write(at, sector)
}

/// Writes a sector where reads give other bytes.
fn store_changed<D: Disk>(
    disk: &mut D,
    at: u64,
    sector: &[u8; SECTOR_SIZE],
) -> Result<(), DiskFault>
    requires { at < (D.medium disk.old).sectors }
    ensures { StoresSector at sector.now Writing.Changes result (D.medium disk.old)
        (D.medium disk.new) }
{
    let mut held = [0; SECTOR_SIZE];
    disk.read(at, &mut held)?;
    if same(&held, sector) {
        Ok(())
    } else {
        disk.write(at, sector)
    }
}

/// Syncs, writes a sector, and syncs.
pub(crate) fn write_durably<D: Disk>(
    disk: &mut D,
    at: u64,
    sector: &[u8; SECTOR_SIZE],
) -> Result<(), DiskFault>
    requires { at < (D.medium disk.old).sectors }
    ensures { WritesDurably at sector.now (Sync ∷ WriteOf at ∷ Sync ∷ []) result
        (D.medium disk.old) (D.medium disk.new) }
{
    make_durable(disk)?;
    write_and_sync(disk, at, sector)
}

/// Makes what was written durable.
fn make_durable<D: Disk>(disk: &mut D) -> Result<(), DiskFault>
    ensures { SyncsMedium result (D.medium disk.old) (D.medium disk.new) }
{
    disk.sync()
}

/// Writes a sector of a disk where all is synced, and syncs.
fn write_and_sync<D: Disk>(
    disk: &mut D,
    at: u64,
    sector: &[u8; SECTOR_SIZE],
) -> Result<(), DiskFault>
    requires inside { at < (D.medium disk.old).sectors }
    requires all_synced { IsAllSynced (D.medium disk.old) }
    ensures { WritesDurably at sector.now (Sync ∷ WriteOf at ∷ []) result
        (D.medium disk.old) (D.medium disk.new) }
{
    disk.write(at, sector)?;
    make_durable(disk)
}

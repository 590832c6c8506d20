//! What lives have left on their disk, from which others go on, time after time.

ghost use Rattle.std.specs.Prelude.{◌≡◌, [], length, IfOk, IfSome, OnOk};
ghost use Rattle.sector_disk.specs.rules.Memory.{memory_state_of, shown_by};
ghost use Rattle.worker.specs.Going.{HasSize, kept_at};

use block_lanes::same;
use sector_disk::{Disk, DiskFault, MemDisk, SECTOR_SIZE};
use std::alloc::{AllocError, Global};

/// What a disk holds of which no write waits for a sync.
#[derive(Drop)]
pub struct StoryStart {
    pub(super) sectors: Vec<[u8; SECTOR_SIZE]>,
    /// How many writes it takes between two syncs.
    pub(super) writes: usize,
}

impl StoryStart {
    /// What this disk holds, or none where a write waits for a sync. The disk stays as it is. It
    /// fails only when out of memory.
    pub(super) fn of(alloc: Global, disk: &mut MemDisk) -> Result<Option<StoryStart>, AllocError>
        ensures same { disk.new ≡ disk.old }
        ensures kept { IfOk result (λ found. IfSome found (λ start.
            memory_state_of disk.old ≡ kept_at start)) }
    {
        if disk.unsynced_count() > 0 {
            return Ok(None);
        }
        let sectors = sectors_of(alloc, disk)?;
        Ok(Some(StoryStart {
            sectors,
            writes: disk.write_limit(),
        }))
    }

    /// Makes a disk of this size hold the same. Only sectors that differ are written, and no write
    /// waits for a sync.
    pub(super) fn put_on(&self, disk: &mut MemDisk) -> Result<(), DiskFault>
        requires size { HasSize (length self.now.sectors.items) self.now.writes disk.old }
        requires synced { (memory_state_of disk.old).pending ≡ [] }
        ensures { OnOk result (memory_state_of disk.new ≡ kept_at self.now) }
    {
        let mut held = [0; SECTOR_SIZE];
        let mut place = 0;
        while place < self.sectors.len() {
            let sector = &self.sectors[place];
            disk.read(place as u64, &mut held)?;
            if !same(&held, sector) {
                disk.write(place as u64, sector)?;
                disk.sync()?;
            }
            place += 1;
        }
        Ok(())
    }
}

/// What reads of all sectors give.
fn sectors_of(alloc: Global, disk: &mut MemDisk) -> Result<Vec<[u8; SECTOR_SIZE]>, AllocError>
    ensures same { disk.new ≡ disk.old }
    ensures shown { IfOk result (λ sectors. sectors.items ≡ shown_by (memory_state_of disk.old)) }
{
    let mut sectors = Vec::new(alloc);
    for place in 0..disk.sectors() {
        let mut sector = [0; SECTOR_SIZE];
        let Ok(()) = disk.read(place, &mut sector) else {
            unreachable!()
        };
        sectors.push(sector)?;
    }
    Ok(sectors)
}

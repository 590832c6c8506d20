//! Configuration and module on a disk.
//!
//! # Choices
//!
//! - Configuration and module are taken apart, and each sector is built of a part of each: no
//!   joined copy is made.
//! - The sync is left to the caller, so that one sync serves all that a new disk is given. The
//!   clause speaks of reads and of a cut together (`BothFollow`). A later sync, with other writes
//!   before it or not, then makes durable what reads give.

ghost use Rattle.std.specs.Prelude.{◌≡◌, ◌≤◌, ◌+◌, ◌^◌, ◌++◌, length};
ghost use Rattle.guest_memory.specs.rules.Bytes.{part};
ghost use Rattle.sector_disk.specs.declared.sector.TheConstants.{SECTOR_SIZE};
ghost use Rattle.disk_layout.specs.declared.geometry.TheConstants.{MODULE_PLACE};
ghost use Rattle.disk_layout.specs.rules.Places.{rounded_up};
ghost use Rattle.disk_layout.specs.rules.Contents.{WritesContents, filled};

use crate::fields::put;
use crate::geometry::{MODULE_PLACE, sectors_of};
use sector_disk::{Disk, DiskFault, SECTOR_SIZE};

/// Writes configuration and module after the super and the heads, with zeros up to the end of their
/// last sector. It makes no sync: nothing of it is durable before a later one.
pub fn write_contents<D: Disk>(disk: &mut D, config: &[u8], wasm: &[u8]) -> Result<(), DiskFault>
    requires few { length config.now + length wasm.now ≤ 2 ^ 62 }
    requires room { MODULE_PLACE + rounded_up (length config.now + length wasm.now)
        ≤ (D.medium disk.old).sectors }
    ensures { WritesContents config.now wasm.now result (D.medium disk.old) (D.medium disk.new) }
{
    let count = sectors_of((config.len() + wasm.len()) as u64);
    for i in 0..count {
        let sector = sector_of(config, wasm, SECTOR_SIZE * i as usize);
        disk.write(MODULE_PLACE + i, &sector)?;
    }
    Ok(())
}

/// The bytes from `start` on of configuration and module, one after the other, with zeros after
/// them.
fn sector_of(config: &[u8], wasm: &[u8], start: usize) -> [u8; SECTOR_SIZE]
    requires few { length config.now + length wasm.now ≤ 2 ^ 62 }
    requires start { start ≤ 2 ^ 62 }
    ensures { result ≡ filled (part (config.now ++ wasm.now) start SECTOR_SIZE) }
{
    let first = part_of(config, start, SECTOR_SIZE);
    let second = part_of(
        wasm,
        start.saturating_sub(config.len()),
        SECTOR_SIZE - first.len(),
    );
    let mut sector = [0; SECTOR_SIZE];
    put(&mut sector, 0, first);
    put(&mut sector, first.len(), second);
    sector
}

/// At most so many bytes from `start` on.
fn part_of(bytes: &[u8], start: usize, most: usize) -> &[u8]
    requires start { start ≤ 2 ^ 62 }
    requires most { most ≤ SECTOR_SIZE }
    ensures value { result.now ≡ part bytes.now start most }
    ensures within { length result.now ≤ most }
{
    let start = start.min(bytes.len());
    let end = bytes.len().min(start + most);
    &bytes[start..end]
}

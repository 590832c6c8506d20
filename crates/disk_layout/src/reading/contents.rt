//! What a worker's disk holds after its super.

ghost use Rattle.std.specs.Prelude.{◌≡◌, ◌<◌, ◌≤◌, Err, IfOk};
ghost use Rattle.sector_disk.specs.rules.DiskImage.{DiskImage};
ghost use Rattle.sector_disk.specs.rules.Medium.{CallsUpTo};
ghost use Rattle.disk_layout.specs.rules.Places.{total_sectors};
ghost use Rattle.disk_layout.specs.rules.Stored.{OnlyReads, HasItsLengths};
ghost use Rattle.disk_layout.specs.rules.Held.{GivesContents};
ghost use Rattle.disk_layout.specs.Held.{Agrees};

use crate::reading::configuration::config_from;
use crate::{Damage, Geometry, LayoutFault, Stored, read_super};
use sector_disk::{Disk, DiskFault};
use std::alloc::Global;
use wasi_abi::Config;
use wasm_syntax::ItemList;

/// A worker's configuration and module, and where its things lie.
#[derive(Debug, Drop)]
pub struct Contents {
    pub geometry: Geometry,
    pub config: Config,
    pub wasm: ItemList<u8>,
}

/// Reads the super, and the configuration and the module after it. What is wrong is found in this
/// order:
///
/// - a mark of the super is missing (`NotAWorker`)
/// - the layout is none that is known (`Version`)
/// - the super's lengths and sectors disagree (`Damaged` with `ModuleSectors`)
/// - the disk ends before the module does (`TooSmall`)
/// - the digest differs (`Damaged` with `ContentsDigest`)
/// - the bytes are no configuration's (`Damaged` with `Configuration`)
/// - the sectors of an area, and then those of the journal, aren't those of the configuration
///   (`Damaged` with `AreaSectors` or `JournalSectors`)
/// - the disk ends before the journal does (`TooSmall`)
///
/// Want of memory and a fault of the disk may come before any of these.
pub fn read_contents<D: Disk>(alloc: Global, disk: &mut D) -> Result<Contents, LayoutFault>
    ensures reads { OnlyReads (D.medium disk.old) (D.medium disk.new) }
    ensures gives { (image : DiskImage) → (D.medium disk.new).shows image
        → GivesContents (D.medium disk.old).sectors image result }
    ensures room { IfOk result (λ c. total_sectors c.geometry ≤ (D.medium disk.old).sectors) }
    ensures cause { (fault : DiskFault) → result ≡ Err (LayoutFault.Disk fault)
        → (D.medium disk.old).faults < (D.medium disk.new).faults }
    ensures asks { CallsUpTo (D.medium disk.old).sectors (D.medium disk.old) (D.medium disk.new) }
{
    let sectors = disk.sectors();
    let stored = read_super(alloc, disk)?;
    agree(alloc, stored, sectors)
}

/// The configuration that the stored bytes spell, if the super's numbers are those of it.
fn agree(alloc: Global, stored: Stored, sectors: u64) -> Result<Contents, LayoutFault>
    requires { HasItsLengths stored }
    ensures { Agrees sectors stored result }
{
    let Stored {
        geometry,
        config,
        wasm,
    } = stored;
    let Ok(parsed) = config_from(alloc, config.as_slice()) else {
        return Err(LayoutFault::Memory);
    };
    let Some(config) = parsed else {
        return Err(LayoutFault::Damaged(Damage::Configuration));
    };
    let wanted = Geometry::of(&config, geometry.wasm);
    if geometry.area_sectors != wanted.area_sectors {
        return Err(LayoutFault::Damaged(Damage::AreaSectors));
    }
    if geometry.journal_sectors != wanted.journal_sectors {
        return Err(LayoutFault::Damaged(Damage::JournalSectors));
    }
    if sectors < geometry.total_sectors() {
        return Err(LayoutFault::TooSmall);
    }
    Ok(Contents {
        geometry,
        config,
        wasm,
    })
}

//! The super, in sector 0.

ghost use Rattle.std.specs.Prelude.{◌≡◌, ◌↔◌, IsTrue};
ghost use Rattle.disk_layout.specs.rules.Sectors.{super_bytes, super_of, IsMarked};
ghost use Rattle.disk_layout.specs.rules.Stored.{ReadsSuper};

use crate::fault::LayoutFault;
use crate::fields::{DIGEST_BYTES, digest_from, put, put_u32, u32_from};
use crate::geometry::Geometry;
use sector_disk::SECTOR_SIZE;

/// With it a super begins.
pub const SUPER_MARK: [u8; 8] = *b"DWORKER!";

/// With it a super ends.
pub const SUPER_END_MARK: [u8; 8] = *b"!REKROWD";

/// The layout of a disk that is known.
pub const LAYOUT: u32 = 1;

/// Where a super's layout is.
pub const LAYOUT_AT: usize = 8;

/// Where the length of its configuration is.
pub const CONFIG_LENGTH_AT: usize = 12;

/// Where the length of its module is.
pub const WASM_LENGTH_AT: usize = 16;

/// Where it says how many sectors these two take.
pub const MODULE_SECTORS_AT: usize = 20;

/// Where it says how many sectors an area has.
pub const AREA_SECTORS_AT: usize = 24;

/// Where it says how many sectors the journal has.
pub const JOURNAL_SECTORS_AT: usize = 28;

/// Where the digest of configuration and module is.
pub const CONTENTS_DIGEST_AT: usize = 32;

/// Where its second mark is.
pub const END_MARK_AT: usize = 504;

/// What the super says: where things lie, and the SHA-256 of configuration and module.
#[derive(Clone, Copy, Debug, PartialEq, Eq)]
pub struct Super {
    pub geometry: Geometry,
    pub digest: [u8; DIGEST_BYTES],
}

impl Super {
    /// Its sector.
    pub fn sector(&self) -> [u8; SECTOR_SIZE]
        ensures { result ≡ super_bytes self.now.geometry self.now.digest }
    {
        let mut sector = [0; SECTOR_SIZE];
        put(&mut sector, 0, &SUPER_MARK);
        put_u32(&mut sector, LAYOUT_AT, LAYOUT);
        put_u32(&mut sector, CONFIG_LENGTH_AT, self.geometry.config);
        put_u32(&mut sector, WASM_LENGTH_AT, self.geometry.wasm);
        put_u32(&mut sector, MODULE_SECTORS_AT, self.geometry.module_sectors);
        put_u32(&mut sector, AREA_SECTORS_AT, self.geometry.area_sectors);
        put_u32(
            &mut sector,
            JOURNAL_SECTORS_AT,
            self.geometry.journal_sectors,
        );
        put(&mut sector, END_MARK_AT, &SUPER_END_MARK);
        put(&mut sector, CONTENTS_DIGEST_AT, &self.digest);
        sector
    }

    /// The fields that a sector holds. It fails where a mark is missing (`NotAWorker`), and where
    /// the layout is none that is known (`Version`). Zeros are not looked at.
    pub fn read(sector: &[u8; SECTOR_SIZE]) -> Result<Super, LayoutFault>
        ensures { ReadsSuper sector.now result }
    {
        if !is_marked(sector) {
            return Err(LayoutFault::NotAWorker);
        }
        if u32_from(sector, LAYOUT_AT) != LAYOUT {
            return Err(LayoutFault::Version);
        }
        Ok(Super {
            geometry: geometry_from(sector),
            digest: digest_from(sector, CONTENTS_DIGEST_AT),
        })
    }
}

fn is_marked(sector: &[u8; SECTOR_SIZE]) -> bool
    ensures { IsTrue result ↔ IsMarked sector.now }
{
    &sector[..8] == SUPER_MARK.as_slice() && &sector[END_MARK_AT..] == SUPER_END_MARK.as_slice()
}

fn geometry_from(sector: &[u8; SECTOR_SIZE]) -> Geometry
    ensures { result ≡ (super_of sector.now).geometry }
{
    Geometry {
        config: u32_from(sector, CONFIG_LENGTH_AT),
        wasm: u32_from(sector, WASM_LENGTH_AT),
        module_sectors: u32_from(sector, MODULE_SECTORS_AT),
        area_sectors: u32_from(sector, AREA_SECTORS_AT),
        journal_sectors: u32_from(sector, JOURNAL_SECTORS_AT),
    }
}

//! What the last bytes of a head or of a journal sector say.

ghost use Rattle.std.specs.Prelude.{◌≡◌, ◌++◌, take};
ghost use Rattle.disk_layout.specs.rules.Sectors.{stamp_bytes, stamp_of, shown_at};
ghost use Rattle.disk_layout.specs.declared.stamp.TheConstants.{GENERATION_AT};

use crate::fields::{put_u64, u64_from};
use sector_disk::SECTOR_SIZE;

/// Where a stamp's generation is in its sector.
pub const GENERATION_AT: usize = 496;

/// Where its place is.
pub const PLACE_AT: usize = 504;

/// The last 16 bytes of a sector: a generation, and the place that the sector has among its kind.
#[derive(Clone, Copy, Debug, PartialEq, Eq)]
pub struct Stamp {
    pub generation: u64,
    pub place: u64,
}

impl Stamp {
    /// Puts it at the end of the sector. All bytes before it stay.
    pub fn write(&self, sector: &mut [u8; SECTOR_SIZE])
        ensures { sector.new ≡ take GENERATION_AT sector.old ++ stamp_bytes self.now }
    {
        put_u64(sector, GENERATION_AT, self.generation);
        put_u64(sector, PLACE_AT, self.place);
    }

    pub fn read(sector: &[u8; SECTOR_SIZE]) -> Self
        ensures { result ≡ stamp_of sector.now }
    {
        Stamp {
            generation: u64_from(sector, GENERATION_AT),
            place: u64_from(sector, PLACE_AT),
        }
    }

    /// The generation that it shows where this is its sector's place, else 0.
    pub fn shown_at(&self, place: u64) -> u64
        ensures { result ≡ shown_at place self.now }
    {
        if self.place == place {
            self.generation
        } else {
            0
        }
    }
}

//! The heads of the two areas.
//!
//! A torn head may show a lower generation than before, one that no commit made. What stays is the
//! latest that a head's sector shows.

ghost use Rattle.std.specs.Prelude.{◌≡◌, ◌↔◌, ◌+◌, ◌<◌, ◌^◌, IsTrue};
ghost use Rattle.disk_layout.specs.rules.Sectors.{head_bytes, head_of, IsComplete, IsOfNumber};

use crate::fields::{DIGEST_BYTES, digest_from, put, put_u32, put_u64, u32_from, u64_from};
use crate::stamp::{GENERATION_AT, PLACE_AT, Stamp};
use sector_disk::SECTOR_SIZE;
use wasi_abi::Version;

/// With it a head begins.
pub const HEAD_MARK: [u8; 8] = *b"DWAREA..";

/// Where the version of a head's image is.
pub const VERSION_AT: usize = 8;

/// Where it says how many bytes its image has.
pub const IMAGE_LENGTH_AT: usize = 16;

/// Where their digest is.
pub const IMAGE_DIGEST_AT: usize = 24;

/// The place that the stamp of a head names.
pub const HEAD_STAMP_PLACE: u64 = 1;

/// What a head says of the image in its area: the version, the number of bytes, their SHA-256 and
/// the generation.
#[derive(Clone, Copy, Debug, PartialEq, Eq)]
pub struct Head {
    pub version: u32,
    pub length_in_bytes: u64,
    pub digest: [u8; DIGEST_BYTES],
    pub generation: u64,
}

impl Head {
    /// Its sector.
    pub fn sector(&self) -> [u8; SECTOR_SIZE]
        ensures { result ≡ head_bytes self.now }
    {
        let mut sector = [0; SECTOR_SIZE];
        put(&mut sector, 0, &HEAD_MARK);
        put_u32(&mut sector, VERSION_AT, self.version);
        put_u64(&mut sector, IMAGE_LENGTH_AT, self.length_in_bytes);
        put_u64(&mut sector, GENERATION_AT, self.generation);
        put_u64(&mut sector, PLACE_AT, HEAD_STAMP_PLACE);
        put(&mut sector, IMAGE_DIGEST_AT, &self.digest);
        sector
    }

    /// The fields that a sector holds, whether or not it is a complete head.
    pub fn read(sector: &[u8; SECTOR_SIZE]) -> Self
        ensures { result ≡ head_of sector.now }
    {
        Head {
            version: u32_from(sector, VERSION_AT),
            length_in_bytes: u64_from(sector, IMAGE_LENGTH_AT),
            digest: digest_from(sector, IMAGE_DIGEST_AT),
            generation: u64_from(sector, GENERATION_AT),
        }
    }

    /// The version that it names, if one is known.
    pub fn known_version(&self) -> Option<Version>
        ensures { IsOfNumber self.now.version result }
    {
        match self.version {
            1 => Some(Version::One),
            2 => Some(Version::Two),
            _ => None,
        }
    }

    /// Whether a sector is a complete head of this area, 0 or 1. It has the mark and place 1 then,
    /// and a generation from 1 on of the area's parity.
    pub fn is_complete(area: u64, sector: &[u8; SECTOR_SIZE]) -> bool
        ensures { IsTrue result ↔ IsComplete area sector.now }
    {
        let stamp = Stamp::read(sector);
        &sector[..8] == HEAD_MARK.as_slice()
            && stamp.place == HEAD_STAMP_PLACE
            && stamp.generation >= 1
            && stamp.generation % 2 == area
    }
}

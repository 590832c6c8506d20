//! The sectors of the journal.

ghost use Rattle.std.specs.Prelude.{◌≡◌, ◌≤◌, length};
ghost use Rattle.disk_layout.specs.declared.journal_sectors.TheConstants.{PAYLOAD_SIZE};
ghost use Rattle.disk_layout.specs.rules.Journal.{journal_sector, used_length, is_of};

use crate::fields::{put, put_u16, put_u64, u16_from};
use crate::stamp::{GENERATION_AT, PLACE_AT, Stamp};
use sector_disk::SECTOR_SIZE;

/// The most bytes of a journal sector's payload.
pub const PAYLOAD_SIZE: usize = 494;

/// Where it is, after its length in 16 bits.
pub const PAYLOAD_AT: usize = 2;

/// The sector of this generation and place with a payload of at most `PAYLOAD_SIZE` bytes.
pub fn journal_sector(generation: u64, place: u64, payload: &[u8]) -> [u8; SECTOR_SIZE]
    requires { length payload.now ≤ PAYLOAD_SIZE }
    ensures { result ≡ journal_sector generation place payload.now }
{
    let mut sector = [0; SECTOR_SIZE];
    put_u16(&mut sector, 0, payload.len() as u16);
    put(&mut sector, PAYLOAD_AT, payload);
    put_u64(&mut sector, GENERATION_AT, generation);
    put_u64(&mut sector, PLACE_AT, place);
    sector
}

/// The length of a sector's payload, in bytes.
pub fn used_length(sector: &[u8; SECTOR_SIZE]) -> usize
    ensures { result ≡ used_length sector.now }
{
    usize::from(u16_from(sector, 0))
}

/// Whether a sector is one of the journal of this generation, at its place, with a payload of a
/// byte at least.
pub fn is_of(generation: u64, place: u64, sector: &[u8; SECTOR_SIZE]) -> bool
    ensures { result ≡ is_of generation place sector.now }
{
    let used = used_length(sector);
    Stamp::read(sector).shown_at(place) == generation && 0 < used && used <= PAYLOAD_SIZE
}

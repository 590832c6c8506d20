//! Bytes at a place of a sector.
ghost use Rattle.std.specs.Prelude.{◌≡◌, ◌+◌, ◌≤◌, length, replicate};
ghost use Rattle.guest_memory.specs.rules.Bytes.{with_part};
ghost use Rattle.sector_disk.specs.declared.sector.TheConstants.{SECTOR_SIZE};
ghost use Rattle.sector_disk.specs.rules.DiskImage.{front_over};

use sector_disk::SECTOR_SIZE;

/// Puts bytes at a place of a sector.
pub(crate) fn put(sector: &mut [u8; SECTOR_SIZE], at: usize, bytes: &[u8])
    requires { at + length bytes.now ≤ SECTOR_SIZE }
    ensures bytes { sector.new ≡ with_part sector.old at bytes.now }
    ensures long { length sector.old ≡ SECTOR_SIZE }
{
    sector[at..at + bytes.len()].copy_from_slice(bytes);
}

/// A prefix of a sector, and zeros after it.
pub(crate) fn pad(sector: &[u8; SECTOR_SIZE], front: usize) -> [u8; SECTOR_SIZE]
    requires { front ≤ SECTOR_SIZE }
    ensures { result ≡ front_over front sector.now (replicate SECTOR_SIZE 0) }
{
    let mut bytes = [0; SECTOR_SIZE];
    bytes[..front].copy_from_slice(&sector[..front]);
    bytes
}

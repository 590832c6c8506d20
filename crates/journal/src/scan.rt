//! Reading a journal.
ghost use Rattle.std.specs.Prelude.{◌≡◌, ◌⊎◌, ◌↔◌, ◌+◌, ◌<◌, ◌≤◌, ℕ, true, length, IfOk, IfErr};
ghost use Rattle.std.specs.Prelude.{IsTrue};
ghost use Rattle.sector_disk.specs.rules.DiskImage.{DiskImage};
ghost use Rattle.sector_disk.specs.rules.Medium.{CallsUpTo};
ghost use Rattle.disk_layout.specs.rules.Places.{journal_place, total_sectors};
ghost use Rattle.disk_layout.specs.rules.Sectors.{shown_generation};
ghost use Rattle.disk_layout.specs.Scanned.{payloads_from};
ghost use Rattle.disk_layout.specs.rules.Stored.{OnlyReads};
ghost use Rattle.journal.specs.rules.Steps.{ShowsLater};

use crate::fault::JournalFault;
use crate::scanned::Payloads;
use disk_layout::{Geometry, PAYLOAD_AT, Stamp, is_of, used_length};
use sector_disk::{Disk, DiskFault, SECTOR_SIZE};
use std::alloc::Global;

/// Whether a sector of this place is the journal's first one, and shows a later generation there.
fn is_first_of_later(generation: u64, place: u64, sector: &[u8; SECTOR_SIZE]) -> bool
    ensures { IsTrue result ↔ (place ≡ 1) × (generation < shown_generation 1 sector.now) }
{
    let shown = Stamp::read(sector).shown_at(1);
    place == 1 && generation < shown
}

/// The payloads of a generation, one after another. They go from the first sector on, up to the
/// first that isn't one of the generation at its place. Where the first sector shows a later one,
/// no other is read, and no memory is wanted.
pub(crate) fn read_payloads<D: Disk>(
    alloc: Global,
    disk: &mut D,
    geometry: &Geometry,
    generation: u64,
) -> Result<Payloads, JournalFault>
    requires { total_sectors geometry.now ≤ (D.medium disk.old).sectors }
    ensures reads { OnlyReads (D.medium disk.old) (D.medium disk.new) }
    ensures payloads { IfOk result (λ p. (image : DiskImage) → (D.medium disk.new).shows image
        → payloads_from image generation (journal_place geometry.now) 1 geometry.now.journal_sectors
        ≡ p.bytes.items) }
    ensures later { IfOk result (λ p. (image : DiskImage) → (D.medium disk.new).shows image
        → (IsTrue p.shows_later ↔ ShowsLater geometry.now generation image)) }
    ensures once { IfOk result (λ p. IsTrue p.shows_later
        → CallsUpTo 1 (D.medium disk.old) (D.medium disk.new)) }
    ensures memory { result ≡ Err JournalFault.Memory → (image : DiskImage)
        → (D.medium disk.new).shows image → ShowsLater geometry.now generation image → ⊥ }
    ensures cause { (fault : DiskFault) → result ≡ Err (JournalFault.Disk fault)
        → (D.medium disk.old).faults < (D.medium disk.new).faults }
    ensures which_fault { IfErr result (λ e. e ≡ JournalFault.Memory
        ⊎ ((fault : DiskFault) × (e ≡ JournalFault.Disk fault))) }
    ensures asks { CallsUpTo geometry.now.journal_sectors (D.medium disk.old) (D.medium disk.new) }
{
    let at = geometry.journal_place();
    let mut bytes = Vec::new(alloc);
    let mut sector = [0; SECTOR_SIZE];
    for k in 0..u64::from(geometry.journal_sectors) {
        if let Err(fault) = disk.read(at + k, &mut sector) {
            return Err(JournalFault::Disk(fault));
        }
        if !is_of(generation, 1 + k, &sector) {
            let shows_later = is_first_of_later(generation, 1 + k, &sector);
            return Ok(Payloads { bytes, shows_later });
        }
        let used = used_length(&sector);
        let Ok(()) = bytes.extend_from_slice(&sector[PAYLOAD_AT..PAYLOAD_AT + used]) else {
            return Err(JournalFault::Memory);
        };
    }
    Ok(Payloads {
        bytes,
        shows_later: false,
    })
}

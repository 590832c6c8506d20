//! An image on its way into an area.

ghost use Rattle.std.specs.Prelude.{◌≡◌, ◌≤◌, false};
ghost use Rattle.disk_layout.specs.rules.Places.{journal_place};
ghost use Rattle.snapshot.specs.rules.Snapshots.{is_idle};

use disk_layout::Geometry;
use sector_disk::Disk;
use snapshot::{SnapshotFault, Snapshots};
use state_image::Sink;

/// Takes an image that is begun, piece by piece, into the area of its generation.
#[derive(Drop)]
pub(crate) struct AreaSink<'a, D: Disk> {
    pub(crate) geometry: Geometry,
    pub(crate) snapshots: &'a mut Snapshots,
    pub(crate) disk: &'a mut D,
    ghost begun: { is_idle snapshots.now ≡ false },
    ghost room: { journal_place geometry ≤ (D.medium disk.now).sectors },
}

impl<'a, D: Disk> Sink for AreaSink<'a, D> {
    ghost use Rattle.worker_store.specs.AreaSinks.{TakesPiece};

    type Fault = SnapshotFault;

    ghost takes = { λ old piece said new. TakesPiece old piece said new };

    #[tactic(auto, using(crate::proofs::FillLemmas::takes_one))]
    fn push(&mut self, bytes: &[u8]) -> Result<(), SnapshotFault> {
        self.snapshots.push(self.disk, &self.geometry, bytes)
    }
}

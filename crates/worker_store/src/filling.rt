//! An image that is pushed into its area.

ghost use Rattle.std.specs.Prelude.{◌≡◌, ◌≤◌, false};
ghost use Rattle.disk_layout.specs.rules.Places.{journal_place};
ghost use Rattle.snapshot.specs.rules.Snapshots.{is_idle, is_failed};
ghost use Rattle.state_image.specs.rules.ProcessImage.{process_image};
ghost use Rattle.state_image.specs.rules.Saving.{saved_of};
ghost use Rattle.worker_store.specs.Filling.{TakesBytes};
ghost use Rattle.worker_store.specs.AreaSinks.{TakesPiece};

use crate::area_sink::AreaSink;
use disk_layout::Geometry;
use process::Process;
use sector_disk::Disk;
use snapshot::{SnapshotFault, Snapshots};
use state_image::write_process_image_to;

/// Pushes the image of a process into the area of the image that is begun.
pub(crate) fn fill_area<D: Disk>(
    disk: &mut D,
    geometry: &Geometry,
    snapshots: &mut Snapshots,
    process: &Process,
) -> Result<(), SnapshotFault>
    requires begun { is_idle snapshots.old ≡ false }
    requires works { is_failed snapshots.old ≡ false }
    requires places { journal_place geometry.now ≤ (D.medium disk.old).sectors }
    ensures { TakesBytes geometry.now (process_image (saved_of process.now)) result snapshots.old
        snapshots.new (D.medium disk.old) (D.medium disk.new) }
{
    let mut sink = AreaSink {
        geometry: *geometry,
        snapshots,
        disk,
    };
    push_process_image(process, &mut sink)
}

fn push_process_image<D: Disk>(
    process: &Process,
    sink: &mut AreaSink<'_, D>,
) -> Result<(), SnapshotFault>
    ensures same_snapshots { sink.new.snapshots.ghost_name ≡ sink.old.snapshots.ghost_name }
    ensures same_disk { sink.new.disk.ghost_name ≡ sink.old.disk.ghost_name }
    ensures takes { TakesPiece sink.old (process_image (saved_of process.now)) result sink.new }
{
    write_process_image_to(process, sink)
}

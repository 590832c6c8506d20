//! The snapshot of a process.

ghost use Rattle.std.specs.Prelude.{◌≡◌, ◌⊎◌, ◌*◌, ◌<◌, ◌≤◌, IsErr, OnOk, length};
ghost use Rattle.wasi_abi.specs.declared.numbers.TheConstants.{NUMBERS_END};
ghost use Rattle.sector_disk.specs.declared.fault.DiskFault.{DiskFault};
ghost use Rattle.sector_disk.specs.declared.sector.TheConstants.{SECTOR_SIZE};
ghost use Rattle.sector_disk.specs.rules.Medium.{spare};
ghost use Rattle.disk_layout.specs.rules.Places.{journal_place};
ghost use Rattle.snapshot.specs.rules.Images.{WritesImage};
ghost use Rattle.state_image.specs.rules.ProcessImage.{process_image};
ghost use Rattle.state_image.specs.rules.Saving.{saved_of};
ghost use Rattle.worker_store.specs.Filling.{snapshot_of};

use crate::filling::fill_area;
use disk_layout::Geometry;
use process::Process;
use sector_disk::Disk;
use snapshot::{HashedImage, SnapshotFault, Snapshots, Writing};

/// Pushes the image of a process into the area of a generation, syncs, writes its head, and syncs.
/// The head has the version of the process.
/// It fails where the image is longer than the area, for a generation of 2^63 or later, and where
/// the disk does. It takes no memory. Where the image has the bytes of the known one, its digest
/// isn't computed again.
pub(crate) fn write_snapshot<D: Disk>(
    disk: &mut D,
    geometry: &Geometry,
    generation: u64,
    writing: Writing,
    process: &Process,
    known: Option<HashedImage>,
) -> Result<(), SnapshotFault>
    requires { journal_place geometry.now ≤ (D.medium disk.old).sectors }
    ensures writes { WritesImage geometry.now (snapshot_of generation writing process.now) result
        (D.medium disk.old) (D.medium disk.new) }
    ensures early { OnOk result (generation < NUMBERS_END) }
    ensures late { NUMBERS_END ≤ generation → disk.new ≡ disk.old }
    ensures too_big { result ≡ Err SnapshotFault.TooBig → (NUMBERS_END ≤ generation)
        ⊎ (SECTOR_SIZE * geometry.now.area_sectors < length
        (process_image (saved_of process.now))) }
    ensures cause { IsErr result → (result ≡ Err SnapshotFault.TooBig)
        ⊎ ((fault : DiskFault) × (result ≡ Err (SnapshotFault.Disk fault))
        × ((spare (D.medium disk.old) < geometry.now.area_sectors)
        ⊎ ((D.medium disk.old).room ≡ 0)
        ⊎ ((D.medium disk.old).faults < (D.medium disk.new).faults))) }
{
    let mut snapshots = Snapshots::new();
    snapshots.begin(generation, process.version().number(), writing, known)?;
    fill_area(disk, geometry, &mut snapshots, process)?;
    snapshots.finish(disk, geometry)
}

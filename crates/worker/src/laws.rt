//! Laws of a worker on its disk. The functions do nothing: what they ensure is the law.
//!
//! **What a cut leaves has bounds** (`IsBounded`). Its generation is at most as much as has
//! happened, and the disk has all its sectors. Each call keeps these bounds. A recovery is refused
//! for the number of a generation only where so much has happened, and never for too few sectors.

ghost use Rattle.worker.specs.laws.Adding.{SlicesOnDiskAdd};
ghost use Rattle.worker.specs.laws.Bounds.{OpenWorkersKeepBounds, StayingKeepsBounds};
ghost use Rattle.worker.specs.laws.Bounds.{OpenWorkersHaveOneVersion};
ghost use Rattle.worker.specs.laws.Causes.{CheckpointCausesOfOpenWorkers};
ghost use Rattle.worker.specs.laws.Causes.{DiskFaultsOfOpenWorkers, UpgradeCausesOfOpenWorkers};
ghost use Rattle.worker.specs.laws.Followings.{SuccessorsFollow};
ghost use Rattle.worker.specs.laws.OneLife.{CallsMakeLives, AnythingComesTrue};
ghost use Rattle.worker.specs.laws.Replies.{LivesEndAsSaid};
ghost use Rattle.worker.specs.laws.Uncut.{LivesGoOnUncut};

use record_replay::{Outlet, Source};
use sector_disk::Disk;

/// A law of the layer below, for those of lives on other sources.
pub use worker_store::laws::process_images_fit_areas;

/// No image of an open worker's disk is of a later generation than as much has happened, and each
/// has all sectors of its worker. What stays so at any moment of a call is so in its end.
pub fn open_workers_keep_bounds<D: Disk>()
    ensures keeps { OpenWorkersKeepBounds D.medium }
    ensures stays { StayingKeepsBounds D.medium }
{}

/// Process, journal and savepoint of an open worker are of one version.
pub fn open_workers_have_one_version<D: Disk>()
    ensures { OpenWorkersHaveOneVersion D.medium }
{}

/// `HasActCause` says why a call fails, whatever is on the disk. Of a worker that is open fewer
/// causes are left: those of `IsCheckpointFault` and `IsUpgradeFault`. A failed upgrade then leaves
/// the process as in `LeavesOpenProcess`. A disk that fails a call has failed since, or takes too
/// few writes.
pub fn open_workers_have_few_causes<D: Disk>()
    ensures checkpoints { CheckpointCausesOfOpenWorkers D.medium }
    ensures upgrades { UpgradeCausesOfOpenWorkers D.medium }
    ensures disks { DiskFaultsOfOpenWorkers D.medium }
{
    process_images_fit_areas();
}

/// The calls of one life, each as its clause says, make a life that goes on from all that was
/// promised. Whatever its source and its outlet did may have been put into it.
pub fn calls_make_lives<D: Disk, S: Source, O: Outlet>()
    ensures made { CallsMakeLives D.medium S.gives O.takes }
    ensures put_in { AnythingComesTrue }
{
    process_images_fit_areas();
}

/// The calls of one life in which the power isn't cut make one that goes on from all that was
/// promised. Its outlet has taken each line that was told, or it ended by one that was refused.
pub fn uncut_lives_go_on<D: Disk, S: Source, O: Outlet>()
    ensures { LivesGoOnUncut D.medium S.gives O.takes }
{
    process_images_fit_areas();
}

/// Take a life without an error, in which the power isn't cut. The process that all kept answers
/// lead to is as the life's outcome says: it has ended so, or it waits.
pub fn lives_end_as_said<D: Disk, S: Source, O: Outlet>()
    ensures { LivesEndAsSaid D.medium S.gives O.takes }
{}

/// Two slices, of which the first took all its steps, are one, with checkpoints between them or
/// none.
pub fn slices_on_disk_add<S: Source, O: Outlet>()
    ensures { SlicesOnDiskAdd S.gives O.takes }
{}

/// Take a disk that was read for what its worker leaves, and one on which a worker was created from
/// that. The first worker is left at rest, with all that was promised of it. The second disk keeps
/// what is promised of a worker that goes on from there.
pub fn successors_follow<D: Disk, N: Disk>()
    ensures { SuccessorsFollow D.medium N.medium }
{}

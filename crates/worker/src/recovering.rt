//! A worker that is recovered from its disk.
//!
//! Where memory is wanting, only what the layers before have found is known. A recovery that opens
//! a worker reads heads, image and journal once, and commits once. Memory is taken for all that is
//! read.
//!
//! # Choices
//!
//! - **The promise of a recovery is of a disk that obeys the model.** Of one whose answers fit no
//!   image nothing can be known. The clause asks for one image that a cut may leave in the end.
//! - **Until a life has opened, a cut may leave any of the answers kept so far.** The opening then
//!   keeps those of the prefix on which it opens, and no others.

ghost use Rattle.std.specs.Prelude.{◌≡◌, ◌≤◌, [], is_some};
ghost use Rattle.process.specs.rules.Values.{IsProcess, waiting_in};
ghost use Rattle.disk_layout.specs.rules.Places.{total_sectors};
ghost use Rattle.worker.specs.Revivals.{OpensNext, OpensAgain, RevivesFound};

use crate::durable::Worker;
use crate::fault::WorkFault;
use crate::finding::find;
use crate::found::Found;
use crate::recover_fault::RecoverFault;
use crate::running_worker::RunningWorker;
use disk_layout::Geometry;
use process::Process;
use record_replay::{Outlet, replay};
use sector_disk::Disk;
use std::alloc::Global;
use worker_store::laws::process_images_fit_areas;
use worker_store::{HashedImage, StoreFault, WorkerStore};

/// The snapshot by which a worker was found.
#[derive(Drop)]
pub(crate) struct LastSnapshot {
    pub(crate) geometry: Geometry,
    pub(crate) generation: u64,
    pub(crate) process_image: HashedImage,
}

impl Worker {
    ghost use Rattle.worker.specs.rules.Effects.{RecoversWorker};

    /// The worker that the disk stands for goes on. Syncs the disk, and reads what it shows. Then
    /// the process takes the answers on record, and each line that it emits on the way is released.
    /// Where that leads is saved as the next generation.
    pub fn recover<D: Disk, O: Outlet>(
        alloc: Global,
        disk: &mut D,
        outlet: &mut O,
    ) -> Result<Worker, RecoverFault>
        // Nothing is written or told before a good sync. Whatever was promised is kept, by Ok or by
        // any error.
        ensures { RecoversWorker D.medium O.takes result disk.old disk.new outlet.old outlet.new }
    {
        process_images_fit_areas();
        if let Err(fault) = disk.sync() {
            return Err(RecoverFault::from(fault));
        }
        match find(alloc, disk) {
            Ok(found) => revive(alloc, disk, found, outlet),
            Err(fault) => Err(fault),
        }
    }
}

/// Runs the process that was found to where its records lead, and saves that.
fn revive<D: Disk, O: Outlet>(
    alloc: Global,
    disk: &mut D,
    found: Found,
    outlet: &mut O,
) -> Result<Worker, RecoverFault>
    requires { total_sectors found.geometry ≤ (D.medium disk.old).sectors }
    ensures { RevivesFound D.medium O.takes found result disk.old disk.new outlet.old outlet.new }
{
    let Found {
        geometry,
        generation,
        process_image,
        process,
        records,
    } = found;
    let last = LastSnapshot {
        geometry,
        generation,
        process_image,
    };
    match replay(process, records.as_slice(), outlet) {
        Ok((process, replayed)) => open_again(alloc, disk, last, process, replayed),
        Err(fault) => Err(RecoverFault::from(fault)),
    }
}

/// The worker of a process that so many steps have led to, where it can be saved.
fn open_again<D: Disk>(
    alloc: Global,
    disk: &mut D,
    last: LastSnapshot,
    process: Process,
    replayed: u64,
) -> Result<Worker, RecoverFault>
    requires sectors { total_sectors last.geometry ≤ (D.medium disk.old).sectors }
    requires none_waits { waiting_in process ≡ [] }
    requires shows { IsProcess process }
    ensures { OpensAgain last.geometry last.generation process replayed result
        (D.medium disk.old) (D.medium disk.new) }
{
    match open_next(alloc, disk, last, &process) {
        Ok(store) => {
            let is_abreast = has_ended(&process);
            Ok(Worker {
                running: RunningWorker {
                    alloc,
                    process,
                    store,
                    is_abreast,
                },
                replayed,
            })
        }
        Err(fault) => {
            drop(process);
            Err(fault)
        }
    }
}

/// Whether a process has ended. If it has, no line is beyond it.
fn has_ended(process: &Process) -> bool
    ensures { result ≡ is_some process.now.ended }
{
    process.reached_end().is_some()
}

/// Saves a process as the next generation. Where the process is still the one of the last snapshot,
/// its digest is the one that was compared, and isn't computed again.
fn open_next<D: Disk>(
    alloc: Global,
    disk: &mut D,
    last: LastSnapshot,
    process: &Process,
) -> Result<WorkerStore, RecoverFault>
    requires { total_sectors last.geometry ≤ (D.medium disk.old).sectors }
    ensures { OpensNext last.geometry last.generation process.now result (D.medium disk.old)
        (D.medium disk.new) }
{
    let LastSnapshot {
        geometry,
        generation,
        process_image,
    } = last;
    let Some(next) = generation.checked_add(1) else {
        return Err(RecoverFault::Worker(WorkFault::Store(StoreFault::TooBig)));
    };
    match WorkerStore::reopen(alloc, disk, &geometry, next, process, Some(process_image)) {
        Ok(store) => Ok(store),
        Err(fault) => Err(RecoverFault::from(fault)),
    }
}

//! What is on a worker's disk, read before anything is told or written.

ghost use Rattle.std.specs.Prelude.{◌+◌, ◌*◌, ◌≤◌, IfOk};
ghost use Rattle.sector_disk.specs.rules.DiskImage.{DiskImage};
ghost use Rattle.sector_disk.specs.rules.Medium.{CallsUpTo};
ghost use Rattle.disk_layout.specs.rules.Places.{total_sectors};
ghost use Rattle.worker.specs.rules.CallCounts.{most_behind};
ghost use Rattle.worker.specs.rules.Recoveries.{MarksDecide, SaysNoWorker};
ghost use Rattle.worker.specs.Findings.{FindsOne, FindsBehind, Searches};
ghost use Rattle.worker.specs.FoundDisks.{FindsIn, FindsBehindIn};

use crate::found::Found;
use crate::recover_fault::RecoverFault;
use disk_layout::Contents;
use machine::accept;
use sector_disk::Disk;
use state_image::laws::restored_processes_are_the_saved;
use state_image::restoring::restore_into;
use std::alloc::Global;
use worker_store::{read_newest, read_records, read_worker};

/// The process that was saved last, made again, and the records after it. It only reads: what is
/// found is what is on the image that the disk shows. What is wrong is found in one order. First
/// come the super, the configuration and the module, and whether the module is accepted. Then come
/// the newest head, its version, the journal for it, its image and the mark of that, whether it is
/// the image of a process, and whether the journal shows a later generation. Last come the records,
/// which are of the version of that process.
pub(crate) fn find<D: Disk>(alloc: Global, disk: &mut D) -> Result<Found, RecoverFault>
    ensures searches { Searches (2 * (D.medium disk.old).sectors) result (D.medium disk.old)
        (D.medium disk.new) }
    ensures few { IfOk result (λ found.
        CallsUpTo ((D.medium disk.old).sectors + most_behind found.geometry) (D.medium disk.old)
        (D.medium disk.new)) }
    ensures finds { FindsOne (D.medium disk.old).sectors (D.medium disk.new) result }
    ensures shows { (image : DiskImage) → (D.medium disk.new).shows image
        → FindsIn (D.medium disk.old).sectors image result }
    ensures marks { (image : DiskImage) → (D.medium disk.new).shows image
        → MarksDecide image result }
{
    let contents = read_worker(alloc, disk)?;
    find_linked(alloc, disk, contents)
}

/// The same, where configuration and module were read.
pub(crate) fn find_linked<D: Disk>(
    alloc: Global,
    disk: &mut D,
    contents: Contents,
) -> Result<Found, RecoverFault>
    requires { total_sectors contents.geometry ≤ (D.medium disk.old).sectors }
    ensures searches { Searches (D.medium disk.old).sectors result (D.medium disk.old)
        (D.medium disk.new) }
    ensures few { IfOk result (λ found. CallsUpTo (most_behind found.geometry)
        (D.medium disk.old) (D.medium disk.new)) }
    ensures finds { (image : DiskImage) → (D.medium disk.new).shows image
        → FindsBehind contents image result }
    ensures shows { (image : DiskImage) → (D.medium disk.new).shows image
        → FindsBehindIn contents image result }
    ensures own { SaysNoWorker result → ⊥ }
{
    let Contents {
        geometry,
        config,
        wasm,
    } = contents;
    restored_processes_are_the_saved();
    let machine = accept(alloc, wasm.as_slice(), config.pages())?;
    drop(wasm);
    let newest = match read_newest(alloc, disk, &geometry) {
        Ok(newest) => newest,
        Err(fault) => {
            drop(machine);
            drop(config);
            return Err(RecoverFault::from(fault));
        }
    };
    let process = restore_into(alloc, machine, config, newest.process_image.as_slice())?;
    match read_records(alloc, disk, &geometry, process.version(), newest.generation) {
        Ok(records) => Ok(Found {
            geometry,
            generation: newest.generation,
            process_image: newest.process_image,
            process,
            records,
        }),
        Err(fault) => {
            drop(process);
            drop(newest);
            Err(RecoverFault::from(fault))
        }
    }
}

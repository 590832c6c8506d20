//! A worker's disk that is looked into.

ghost use Rattle.std.specs.Prelude.{◌≡◌, ◌≤◌, ◌*◌, IfErr, IfOk};
ghost use Rattle.sector_disk.specs.rules.DiskImage.{DiskImage};
ghost use Rattle.sector_disk.specs.rules.Medium.{CallsUpTo};
ghost use Rattle.disk_layout.specs.rules.Places.{total_sectors};
ghost use Rattle.disk_layout.specs.rules.Stored.{OnlyReads};
ghost use Rattle.worker.specs.Findings.{HasSearchCause};
ghost use Rattle.worker.specs.Inspecting.{CountsLeft, InspectsBehind, TellsFound};
ghost use Rattle.worker.specs.rules.Inspections.{Inspects, InspectsDisk};

use crate::copying::{copy_config, copy_text};
use crate::finding::find_linked;
use crate::found::Found;
use crate::inspection::Inspection;
use crate::question::wanted_by;
use crate::recover_fault::RecoverFault;
use disk_layout::{Contents, Geometry, LayoutFault};
use journal::count_filled;
use sector_disk::Disk;
use std::alloc::{AllocError, Global};
use worker_store::read_worker;

/// Configuration and module, in memory of their own.
fn copy_contents(alloc: Global, contents: &Contents) -> Result<Contents, AllocError>
    ensures { IfOk result (λ copy. copy ≡ contents.now) }
{
    let config = copy_config(alloc, &contents.config)?;
    let wasm = copy_text(alloc, contents.wasm.as_slice())?;
    Ok(Contents {
        geometry: contents.geometry,
        config,
        wasm,
    })
}

/// How many sectors of the journal no record of this generation fills, after those that some do.
fn count_left<D: Disk>(
    disk: &mut D,
    geometry: &Geometry,
    generation: u64,
) -> Result<u64, RecoverFault>
    requires { total_sectors geometry.now ≤ (D.medium disk.old).sectors }
    ensures reads { OnlyReads (D.medium disk.old) (D.medium disk.new) }
    ensures counts { (image : DiskImage) → (D.medium disk.new).shows image
        → CountsLeft geometry.now generation image result }
    ensures cause { IfErr result (HasSearchCause (D.medium disk.old) (D.medium disk.new)) }
    ensures asks { CallsUpTo (D.medium disk.old).sectors (D.medium disk.old) (D.medium disk.new) }
{
    match count_filled(disk, geometry, generation) {
        Ok(filled) => Ok(u64::from(geometry.journal_sectors).saturating_sub(filled)),
        Err(fault) => Err(RecoverFault::from(fault)),
    }
}

/// What is told of what was found, whose journal has so many sectors left.
fn tell_found(
    contents: Contents,
    found: Found,
    left: Result<u64, RecoverFault>,
) -> Result<Inspection, RecoverFault>
    ensures { TellsFound contents found left result }
{
    let process_image_bytes = found.process_image.as_slice().len() as u64;
    let question = wanted_by(&found.process);
    match left {
        Ok(journal_left) => Ok(Inspection {
            contents,
            generation: found.generation,
            process_image_bytes,
            process: found.process,
            question,
            records: found.records,
            journal_left,
        }),
        Err(fault) => {
            drop(contents);
            drop(found);
            Err(fault)
        }
    }
}

/// What is told where configuration and module were read.
fn look_behind<D: Disk>(
    alloc: Global,
    disk: &mut D,
    contents: Contents,
) -> Result<Inspection, RecoverFault>
    requires { total_sectors contents.geometry ≤ (D.medium disk.old).sectors }
    ensures reads { OnlyReads (D.medium disk.old) (D.medium disk.new) }
    ensures tells { (image : DiskImage) → (D.medium disk.new).shows image
        → InspectsBehind contents image result }
    ensures cause { IfErr result (HasSearchCause (D.medium disk.old) (D.medium disk.new)) }
    ensures asks { CallsUpTo (2 * (D.medium disk.old).sectors) (D.medium disk.old)
        (D.medium disk.new) }
{
    let Ok(kept) = copy_contents(alloc, &contents) else {
        return Err(RecoverFault::Layout(LayoutFault::Memory));
    };
    match find_linked(alloc, disk, contents) {
        Ok(found) => {
            let left = count_left(disk, &found.geometry, found.generation);
            tell_found(kept, found, left)
        }
        Err(fault) => {
            drop(kept);
            Err(fault)
        }
    }
}

/// What is told of a disk that is only read.
fn look_into<D: Disk>(alloc: Global, disk: &mut D) -> Result<Inspection, RecoverFault>
    ensures reads { OnlyReads (D.medium disk.old) (D.medium disk.new) }
    ensures tells { (image : DiskImage) → (D.medium disk.new).shows image
        → InspectsDisk (D.medium disk.old).sectors image result }
    ensures cause { IfErr result (HasSearchCause (D.medium disk.old) (D.medium disk.new)) }
    ensures asks { CallsUpTo (3 * (D.medium disk.old).sectors) (D.medium disk.old)
        (D.medium disk.new) }
{
    match read_worker(alloc, disk) {
        Ok(contents) => look_behind(alloc, disk, contents),
        Err(fault) => Err(RecoverFault::from(fault)),
    }
}

/// Tells all that is on a worker's disk. Syncs the disk, and reads what it shows. Nothing is
/// replayed or written: the process is the one that was saved last. A disk that is refused, or that
/// fails, is told as by `read_survey`.
pub fn inspect<D: Disk>(alloc: Global, disk: &mut D) -> Result<Inspection, RecoverFault>
    ensures { Inspects result (D.medium disk.old) (D.medium disk.new) }
{
    if let Err(fault) = disk.sync() {
        return Err(RecoverFault::from(fault));
    }
    look_into(alloc, disk)
}

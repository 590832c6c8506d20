//! One life.

ghost use Rattle.std.specs.Prelude.{◌≤◌, map, Some, IfOk, OnOk};
ghost use Rattle.state_image.specs.rules.Saving.{saved_of};
ghost use Rattle.disk_layout.specs.rules.Places.{total_sectors};
ghost use Rattle.worker.specs.rules.OneLife.{CallsInOrder, recipe, undone_acts};
ghost use Rattle.worker.specs.rules.Planned.{act_of};
ghost use Rattle.worker.specs.rules.Scenes.{scene, surroundings};
ghost use Rattle.worker.specs.rules.Told.{TellsOpening};
ghost use Rattle.worker.specs.LifeCalls.{TellsGeneration, LeavesSome, DoesAct, LivesOnce};
ghost use Rattle.worker.specs.LifeCalls.{beginning_of};

use crate::story::life::PlannedAct;
use crate::story::opening::{OpenedWorker, open_worker};
use crate::story::report::Opening;
use crate::{RecoverFault, WorkFault, Worker};
use record_replay::{Outlet, Readiness, Source};
use sector_disk::Disk;
use state_image::write_process_image;
use std::alloc::{AllocError, Global};
use wasi_abi::Config;
use wasm_syntax::ItemList;

/// The bytes of a module, and its configuration.
#[derive(Clone, Copy)]
pub(crate) struct SpelledWorker<'a> {
    pub(crate) wasm: &'a [u8],
    pub(crate) config: &'a Config,
}

/// How a life was opened, and what ended it before all was done, if anything did.
#[derive(Drop)]
pub(crate) struct LivedOnce {
    pub(crate) opened: Opening,
    pub(crate) ended: Result<(), RecoverFault>,
}

/// One life on this disk: a recovery, or a creation, and then these acts up to the first error.
/// Only out of memory for what is told makes it fail.
pub(crate) fn live_once<D: Disk, S: Source + Readiness, O: Outlet>(
    alloc: Global,
    spelled: SpelledWorker,
    disk: &mut D,
    acts: &[PlannedAct],
    source: &mut S,
    outlet: &mut O,
) -> Result<LivedOnce, AllocError>
    ensures { IfOk result (λ lived. LeavesSome D.medium → LivesOnce D.medium S.gives O.takes
        (recipe spelled.entry.wasm.now spelled.entry.config.now) (map act_of acts.now)
        (surroundings disk.old source.old outlet.old) lived
        (surroundings disk.new source.new outlet.new)) }
{
    match open_worker(alloc, spelled.wasm, spelled.config, disk, outlet) {
        Ok(opened) => go_on(alloc, opened, disk, acts, source, outlet),
        Err(fault) => Ok(LivedOnce {
            opened: Opening::Unopened,
            ended: Err(fault),
        }),
    }
}

/// What comes after the opening.
fn go_on<D: Disk, S: Source + Readiness, O: Outlet>(
    alloc: Global,
    opened: OpenedWorker,
    disk: &mut D,
    acts: &[PlannedAct],
    source: &mut S,
    outlet: &mut O,
) -> Result<LivedOnce, AllocError>
    requires { total_sectors opened.worker.store.geometry ≤ (D.medium disk.old).sectors }
    ensures told { IfOk result (λ lived. TellsOpening (beginning_of opened.is_created)
        (Some (saved_of opened.worker.process)) lived.opened) }
    ensures generation { IfOk result (λ lived.
        TellsGeneration opened.is_created opened.worker.store.journal.generation lived.opened) }
    ensures done { IfOk result (λ lived. CallsInOrder D.medium S.gives O.takes (map act_of acts.now)
        (scene opened.worker disk.old source.old outlet.old) (undone_acts lived.ended)
        (surroundings disk.new source.new outlet.new)) }
{
    let OpenedWorker {
        mut worker,
        is_created,
    } = opened;
    match tell_opening(alloc, &worker, is_created) {
        Ok(opened) => {
            let ended = do_all(&mut worker, disk, acts, source, outlet);
            worker.close();
            Ok(LivedOnce { opened, ended })
        }
        Err(fault) => {
            worker.close();
            Err(fault)
        }
    }
}

/// What is told of a worker that has just been opened.
fn tell_opening(alloc: Global, worker: &Worker, is_created: bool) -> Result<Opening, AllocError>
    ensures told { IfOk result (TellsOpening (beginning_of is_created)
        (Some (saved_of worker.now.process))) }
    ensures generation { IfOk result
        (TellsGeneration is_created worker.now.store.journal.generation) }
{
    let process = worker.process();
    let process_image = ItemList::from_vec(write_process_image(alloc, process)?);
    if is_created {
        return Ok(Opening::Created { process_image });
    }
    Ok(Opening::Recovered {
        generation: worker.generation(),
        steps: process.steps(),
        answers: process.answers(),
        lines: process.lines(),
        process_image,
    })
}

/// These acts, one after another, up to the first error.
fn do_all<D: Disk, S: Source + Readiness, O: Outlet>(
    worker: &mut Worker,
    disk: &mut D,
    acts: &[PlannedAct],
    source: &mut S,
    outlet: &mut O,
) -> Result<(), RecoverFault>
    requires { total_sectors worker.old.store.geometry ≤ (D.medium disk.old).sectors }
    ensures { CallsInOrder D.medium S.gives O.takes (map act_of acts.now)
        (scene worker.old disk.old source.old outlet.old) (undone_acts result)
        (surroundings disk.new source.new outlet.new) }
{
    for act in acts {
        match do_one(worker, disk, *act, source, outlet) {
            Ok(()) => {}
            Err(fault) => return Err(RecoverFault::Worker(fault)),
        }
    }
    Ok(())
}

fn do_one<D: Disk, S: Source + Readiness, O: Outlet>(
    worker: &mut Worker,
    disk: &mut D,
    act: PlannedAct,
    source: &mut S,
    outlet: &mut O,
) -> Result<(), WorkFault>
    requires { total_sectors worker.old.store.geometry ≤ (D.medium disk.old).sectors }
    ensures does { DoesAct D.medium S.gives O.takes (act_of act)
        (scene worker.old disk.old source.old outlet.old) result
        (scene worker.new disk.new source.new outlet.new) }
    ensures room { OnOk result
        (total_sectors worker.new.store.geometry ≤ (D.medium disk.new).sectors) }
{
    match act {
        PlannedAct::Slice { fuel } => match worker.slice(disk, fuel, source, outlet) {
            Ok(_now) => Ok(()),
            Err(fault) => Err(fault),
        },
        PlannedAct::Batch { fuel, most } => match worker.batch(disk, fuel, most, source, outlet) {
            Ok(_now) => Ok(()),
            Err(fault) => Err(fault),
        },
        PlannedAct::Checkpoint => match worker.checkpoint(disk, outlet) {
            Ok(()) => Ok(()),
            Err(fault) => Err(fault),
        },
        PlannedAct::Upgrade => match worker.upgrade(disk, outlet) {
            Ok(()) => Ok(()),
            Err(fault) => Err(fault),
        },
    }
}

//! How a life opens.

ghost use Rattle.std.specs.Prelude.{◌≤◌, ◌↔◌, IfOk, IsTrue};
ghost use Rattle.disk_layout.specs.rules.Places.{total_sectors};
ghost use Rattle.worker.specs.rules.OneLife.{recipe};
ghost use Rattle.worker.specs.rules.Recoveries.{IsNoWorker};
ghost use Rattle.worker.specs.rules.Scenes.{site};
ghost use Rattle.worker.specs.LifeCalls.{LeavesSome, Opens};

use crate::{RecoverFault, Worker};
use disk_layout::LayoutFault;
use record_replay::Outlet;
use sector_disk::Disk;
use std::alloc::Global;
use wasi_abi::Config;

/// A worker that is open, and whether it was created.
pub(crate) struct OpenedWorker {
    pub(crate) worker: Worker,
    pub(crate) is_created: bool,
}

/// The worker on the disk goes on. Where there is none, one is created.
pub(crate) fn open_worker<D: Disk, O: Outlet>(
    alloc: Global,
    wasm: &[u8],
    config: &Config,
    disk: &mut D,
    outlet: &mut O,
) -> Result<OpenedWorker, RecoverFault>
    ensures opens { LeavesSome D.medium → Opens D.medium O.takes (recipe wasm.now config.now)
        (site disk.old outlet.old) result (site disk.new outlet.new) }
    ensures room { IfOk result (λ opened.
        total_sectors opened.worker.store.geometry ≤ (D.medium disk.new).sectors) }
{
    match Worker::recover(alloc, disk, outlet) {
        Ok(worker) => Ok(OpenedWorker {
            worker,
            is_created: false,
        }),
        Err(fault) => {
            if !is_no_worker(fault) {
                return Err(fault);
            }
            match Worker::create(alloc, disk, wasm, config) {
                Ok(worker) => Ok(OpenedWorker {
                    worker,
                    is_created: true,
                }),
                Err(why) => Err(RecoverFault::Worker(why)),
            }
        }
    }
}

/// Whether a recovery has failed because there is no worker on the disk.
fn is_no_worker(fault: RecoverFault) -> bool
    ensures { IsTrue result ↔ IsNoWorker fault }
{
    let RecoverFault::Layout(fault) = fault else {
        return false;
    };
    match fault {
        LayoutFault::NotAWorker => true,
        _ => false,
    }
}

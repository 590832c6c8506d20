//! A barrier, and then a commit.

ghost use Rattle.std.specs.Prelude.{◌≡◌, ◌+◌, ◌≤◌, [], false, true, IfErr, OnErr, OnOk};
ghost use Rattle.sector_disk.specs.rules.Medium.{CallsUpTo, Passes};
ghost use Rattle.state_image.specs.rules.Saving.{saved_of};
ghost use Rattle.disk_layout.specs.rules.Places.{total_sectors};
ghost use Rattle.journal.specs.rules.State.{state};
ghost use Rattle.worker_store.specs.rules.Calls.{StoresNext};
ghost use Rattle.worker.specs.rules.CallCounts.{most_saving};
ghost use Rattle.worker.specs.Savings.{HasSaveCause, LeavesFrontOrNext, SaveCalls};
ghost use Rattle.worker.specs.StoreTurns.{StoreSaves};

use process::Process;
use sector_disk::Disk;
use std::alloc::Global;
use worker_store::{StoreFault, WorkerStore};

/// Puts all records on the disk that only memory holds, and then the process, as a snapshot of the
/// next generation. No line waits in it.
pub(crate) fn save<D: Disk>(
    alloc: Global,
    disk: &mut D,
    store: &mut WorkerStore,
    process: &Process,
) -> Result<(), StoreFault>
    requires { total_sectors store.old.geometry ≤ (D.medium disk.old).sectors }

    // A cut at any moment leaves a prefix of these records after those that stood before, or the
    // new snapshot.
    ensures any_moment { LeavesFrontOrNext store.old process.now (D.medium disk.old)
        (D.medium disk.new) }

    // Once it has answered Ok, each cut leaves the new snapshot.
    ensures durable { OnOk result (StoresNext store.old store.new process.now (D.medium disk.old)
        (D.medium disk.new)) }
    ensures numbered { OnOk result
        (store.new.journal.generation ≡ store.old.journal.generation + 1) }
    ensures unnumbered { OnErr result
        (store.new.journal.generation ≡ store.old.journal.generation) }
    ensures fresh { OnOk result
        (store.new.journal ≡ state (saved_of process.now).version store.new.journal.generation 0 []
        false) }
    ensures calls { SaveCalls store.old process.now result (D.medium disk.old)
        (D.medium disk.new) }

    // What it does to any store, whatever is on the disk.
    ensures runs { StoreSaves result store.old store.new (D.medium disk.old) (D.medium disk.new) }
    ensures on_any_disk { IfErr result (λ e. HasSaveCause store.old process.now
        (D.medium disk.old) (D.medium disk.new) e) }
    ensures fails { OnErr result (store.new.journal.has_failed ≡ true) }
    ensures stays { store.new.geometry ≡ store.old.geometry }
    ensures passes { Passes (D.medium disk.old) (D.medium disk.new) (λ _. Unit {0}) }
    ensures asks { CallsUpTo (most_saving (D.medium disk.old).sectors) (D.medium disk.old)
        (D.medium disk.new) }
{
    if let Err(fault) = store.barrier(disk) {
        return Err(fault);
    }
    store.commit(alloc, disk, process)
}

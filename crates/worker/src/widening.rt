//! A barrier, and then a commit in version 2.
//!
//! The process is widened after the barrier and before the commit, once the next generation is
//! known to have a number. What it then shows is what its disk may hold.

ghost use Rattle.std.specs.Prelude.{◌≡◌, ◌+◌, ◌<◌, ◌≤◌, IfErr, OnErr, OnOk};
ghost use Rattle.process.specs.rules.Values.{IsProcess};
ghost use Rattle.sector_disk.specs.rules.Medium.{CallsUpTo, Passes};
ghost use Rattle.wasi_abi.specs.declared.numbers.TheConstants.{NUMBERS_END};
ghost use Rattle.disk_layout.specs.rules.Places.{total_sectors};
ghost use Rattle.worker_store.specs.rules.Calls.{StoresNext};
ghost use Rattle.worker.specs.rules.CallCounts.{most_saving};
ghost use Rattle.worker.specs.Savings.{HasSaveCause, LeavesFrontOrNext, SaveCalls};
ghost use Rattle.worker.specs.rules.Upgrades.{upgraded};
ghost use Rattle.worker.specs.StoreTurns.{StoreSaves};
ghost use Rattle.worker.specs.Upgrading.{BarsAndCommits, AfterFault};

use process::Process;
use sector_disk::Disk;
use std::alloc::Global;
use wasi_abi::{NUMBERS_END, Version};
use worker_store::{StoreFault, WorkerStore};

/// Puts the process into version 2, where the generation after this one has a number.
fn widen(process: &mut Process, generation: u64) -> Result<(), StoreFault>
    ensures done { OnOk result (process.new ≡ upgraded process.old) }
    ensures counted { OnOk result (generation + 1 < NUMBERS_END) }
    ensures fails { IfErr result (λ e. e ≡ StoreFault.TooBig) }
    ensures late { OnErr result (NUMBERS_END ≤ generation + 1) }
    ensures same { OnErr result (process.new ≡ process.old) }
{
    if generation >= NUMBERS_END - 1 {
        return Err(StoreFault::TooBig);
    }
    match process.version() {
        Version::One => process.widen(),
        Version::Two => {}
    }
    Ok(())
}

/// Puts all records on the disk that only memory holds. Then the process is put into version 2 and
/// saved, as a snapshot of the next generation.
pub(crate) fn save_in_two<D: Disk>(
    alloc: Global,
    disk: &mut D,
    store: &mut WorkerStore,
    process: &mut Process,
) -> Result<(), StoreFault>
    requires { total_sectors store.old.geometry ≤ (D.medium disk.old).sectors }

    // The process is in version 2, or after an error as it was. Its numbers can be counted as
    // before.
    ensures done { OnOk result (process.new ≡ upgraded process.old) }
    ensures after_fault { IfErr result (λ e. AfterFault e store.old process.old process.new) }
    ensures shows { IsProcess process.old → IsProcess process.new }

    // A cut at any moment leaves a prefix of these records after those that stood before, or the
    // new snapshot. There was a moment between the two.
    ensures any_moment { LeavesFrontOrNext store.old process.new (D.medium disk.old)
        (D.medium disk.new) }
    ensures bars { BarsAndCommits D.medium store.old process.old process.new disk.old
        disk.new }

    // Once it has answered Ok, each cut leaves the new snapshot.
    ensures durable { OnOk result (StoresNext store.old store.new process.new (D.medium disk.old)
        (D.medium disk.new)) }
    ensures numbered { OnOk result
        (store.new.journal.generation ≡ store.old.journal.generation + 1) }
    ensures unnumbered { OnErr result
        (store.new.journal.generation ≡ store.old.journal.generation) }
    ensures calls { SaveCalls store.old (upgraded process.old) result (D.medium disk.old)
        (D.medium disk.new) }

    // What it does to any store, whatever is on the disk.
    ensures runs { StoreSaves result store.old store.new (D.medium disk.old) (D.medium disk.new) }
    ensures on_any_disk { IfErr result (λ e. HasSaveCause store.old (upgraded process.old)
        (D.medium disk.old) (D.medium disk.new) e) }
    ensures stays { store.new.geometry ≡ store.old.geometry }
    ensures passes { Passes (D.medium disk.old) (D.medium disk.new) (λ _. Unit {0}) }
    ensures asks { CallsUpTo (most_saving (D.medium disk.old).sectors) (D.medium disk.old)
        (D.medium disk.new) }
{
    if let Err(fault) = store.barrier(disk) {
        return Err(fault);
    }
    if let Err(fault) = widen(process, store.generation()) {
        return Err(fault);
    }
    store.commit(alloc, disk, process)
}

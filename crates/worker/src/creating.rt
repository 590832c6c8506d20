//! A worker is created on a disk.
//!
//! A creation keeps a copy of its configuration, which is lent to it, since it is also written to
//! the disk. Memory is taken for the module, for that copy and for its bytes.

ghost use Rattle.std.specs.Prelude.{◌≡◌, [], IfErr, IfOk};
ghost use Rattle.wasi_abi.specs.rules.Configs.{AreSettingsWithinLimits};
ghost use Rattle.wasi_calls_rules.specs.laws.Laws.{IsOfBytes};
ghost use Rattle.process_rules.specs.Processes.{host_of};
ghost use Rattle.process.specs.rules.Values.{IsProcess, waiting_in};
ghost use Rattle.record_replay.specs.Turns.{working};
ghost use Rattle.record_replay.specs.rules.Faults.{IsRefusedByWorker};
ghost use Rattle.record_replay.specs.rules.Workers.{IsCreated};
ghost use Rattle.worker.specs.Laying.{worker_laid};

use crate::copying::copy_config;
use crate::durable::Worker;
use crate::fault::WorkFault;
use crate::running_worker::RunningWorker;
use machine::read;
use process::Process;
use record_replay::SliceFault;
use sector_disk::Disk;
use std::alloc::Global;
use wasi_abi::Config;
use worker_store::laws::process_images_fit_areas;
use worker_store::{StoreFault, WorkerStore, lay_out};

/// The process of the module that the bytes spell, as it begins. It has a configuration of its own.
fn begin(alloc: Global, wasm: &[u8], config: &Config) -> Result<Process, SliceFault>
    ensures begun { IfOk result (λ process. IsCreated wasm.now config.now (working process)) }
    ensures shows { IfOk result IsProcess }
    ensures within { IfOk result (λ _. AreSettingsWithinLimits config.now) }
    ensures texts { IfOk result (λ _. IsOfBytes (host_of config.now)) }
    ensures refused { IfErr result (IsRefusedByWorker config.now.pages wasm.now) }
{
    let Ok(copy) = copy_config(alloc, config) else {
        return Err(SliceFault::Memory);
    };
    start(alloc, wasm, copy)
}

/// The process of the module that the bytes spell, as it begins.
fn start(alloc: Global, wasm: &[u8], config: Config) -> Result<Process, SliceFault>
    ensures begun { IfOk result (λ process. IsCreated wasm.now config (working process)) }
    ensures shows { IfOk result IsProcess }
    ensures refused { IfErr result (IsRefusedByWorker config.pages wasm.now) }
{
    let module = read(alloc, wasm)?;
    let process = Process::start(alloc, module, config)?;
    Ok(process)
}

/// The worker of this process and of the store that was laid out for it, if one was.
fn worker_of(
    alloc: Global,
    process: Process,
    laid: Result<WorkerStore, StoreFault>,
) -> Result<Worker, WorkFault>
    requires none_waits { waiting_in process ≡ [] }
    requires shows { IsProcess process }
    ensures { result ≡ worker_laid process laid }
{
    match laid {
        Ok(store) => Ok(Worker {
            running: RunningWorker {
                alloc,
                process,
                store,
                is_abreast: true,
            },
            replayed: 0,
        }),
        Err(fault) => {
            drop(process);
            Err(WorkFault::from(fault))
        }
    }
}

impl Worker {
    ghost use Rattle.worker.specs.rules.DurableCreations.{CreationCalls, CreationKeeps};
    ghost use Rattle.worker.specs.rules.DurableCreations.{IsCreatedOn, IsNotCreatedOn};
    ghost use Rattle.worker.specs.rules.DurableCreations.{IsRefusedAtFirst, places_for};
    ghost use Rattle.worker.specs.rules.CallCounts.{most_creating};
    ghost use Rattle.sector_disk.specs.rules.Medium.{CallsUpTo, CountsUpTo};
    ghost use Rattle.std.specs.Prelude.{◌+◌, max};
    ghost use Rattle.disk_layout.specs.rules.Unsynced.{most_unsynced};

    /// A fresh worker of the module that the bytes spell, on this disk. Whatever stood on it is
    /// lost. A module that isn't accepted, and a disk with too few sectors, are refused before
    /// anything is written. So is out of memory told.
    pub fn create<D: Disk>(
        alloc: Global,
        disk: &mut D,
        wasm: &[u8],
        config: &Config,
    ) -> Result<Worker, WorkFault>
        ensures created { IfOk result (λ w. IsCreatedOn wasm.now config.now w
            (D.medium disk.new)) }
        ensures refused { IfErr result (λ why. IsNotCreatedOn wasm.now config.now
            (D.medium disk.old) (D.medium disk.new) why) }
        ensures untouched { IfErr result (λ why. IsRefusedAtFirst why → disk.new ≡ disk.old) }

        // Once it has answered Ok, the worker is open on the disk. Where no worker was on it
        // before, a cut at any moment leaves none, or this one, of which nothing was promised.
        ensures carries { CreationKeeps wasm.now config.now result (D.medium disk.old)
            (D.medium disk.new) }
        ensures calls { CreationCalls wasm.now config.now result (D.medium disk.old)
            (D.medium disk.new) }
        ensures asks { CallsUpTo (most_creating (D.medium disk.old).sectors) (D.medium disk.old)
            (D.medium disk.new) }

        // At no moment were there more unsynced writes than before and one, or than an area, the
        // contents, the journal and two heads have sectors.
        ensures counts { CountsUpTo (max ((D.medium disk.old).unsynced + 1)
            (most_unsynced (places_for config.now wasm.now))) (D.medium disk.old)
            (D.medium disk.new) }
    {
        let process = begin(alloc, wasm, config)?;
        process_images_fit_areas();
        let laid = lay_out(alloc, disk, config, wasm, &process);
        worker_of(alloc, process, laid)
    }
}

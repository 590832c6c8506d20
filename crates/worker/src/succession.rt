//! A worker that goes on from what another one left, with other code.
//!
//! The one is read and left alone. The other is created anew, on a disk of its own.

ghost use Rattle.std.specs.Prelude.{◌≡◌, ◌+◌, ◌*◌, ◌↔◌, ◌≤◌, false, true, IfErr, IfOk, IsTrue};
ghost use Rattle.std.specs.Prelude.{OnOk, length, max};
ghost use Rattle.file_tree.specs.declared.limits.TheConstants.{UNIT_BYTES};
ghost use Rattle.file_tree.specs.rules.Files.{used};
ghost use Rattle.wasi_abi.specs.rules.Configs.{AreSettingsWithinLimits};
ghost use Rattle.wasi_calls_rules.specs.laws.Laws.{IsOfBytes};
ghost use Rattle.process_rules.specs.Processes.{Guest, ProcessState, host_of};
ghost use Rattle.process.specs.rules.Legacies.{IsLegacy};
ghost use Rattle.process.specs.rules.Values.{IsProcess, ShowsProcess};
ghost use Rattle.sector_disk.specs.rules.Medium.{CallsUpTo, CountsUpTo};
ghost use Rattle.disk_layout.specs.rules.Journal.{TakesRecords};
ghost use Rattle.disk_layout.specs.rules.Unsynced.{most_unsynced};
ghost use Rattle.record_replay.specs.rules.Faults.{IsRefusedByWorker};
ghost use Rattle.worker_store.specs.restart_theorem.Successions.{IsAtRest};
ghost use Rattle.worker.specs.rules.CallCounts.{most_creating};
ghost use Rattle.worker.specs.rules.DurableCreations.{places_for};
ghost use Rattle.worker.specs.rules.Successions.{IsCreatedFrom, IsNotCreatedFrom, IsRefusedBefore};
ghost use Rattle.worker.specs.rules.Successions.{ReadsLegacy, SuccessionCalls, SuccessionKeeps};
ghost use Rattle.worker.specs.Succeeding.{BeginsFrom, HandsOverFound, IsFoundAtWork};
ghost use Rattle.worker.specs.Succeeding.{IsFoundParked, asks_request, told_of};

use crate::copying::copy_config;
use crate::fault::WorkFault;
use crate::finding::find;
use crate::found::Found;
use crate::handover::Handover;
use crate::leave_fault::LeaveFault;
use crate::question::wanted_by;
use crate::recover_fault::RecoverFault;
use crate::upgrade_fault::UpgradeFault;
use disk_layout::takes_records;
use machine::read;
use process::{Legacy, Process};
use record_replay::SliceFault;
use sector_disk::Disk;
use std::alloc::Global;
use wasi_abi::{Config, Question};
use worker_store::laws::process_images_fit_areas;
use worker_store::{StoreFault, WorkerStore, lay_out};

// ---- what a worker leaves

/// Whether a request is asked for.
fn asks_for_request(question: Option<Question>) -> bool
    ensures { result ≡ asks_request question }
{
    match question {
        Some(Question::Request) => true,
        _ => false,
    }
}

/// Whether a process has ended, or waits for a request.
fn is_at_rest(process: &Process) -> bool
    ensures { (guest : Guest) (p : ProcessState) → ShowsProcess process.now guest p
        → IsTrue result ↔ IsAtRest guest p }
{
    if process.reached_end().is_some() {
        return true;
    }
    asks_for_request(wanted_by(process))
}

/// Whether it is so, and there is no record.
fn is_parked(found: &Found) -> bool
    ensures parked { result ≡ true → IsFoundParked found.now }
    ensures at_work { result ≡ false → IsFoundAtWork found.now }
{
    if !found.records.as_slice().is_empty() {
        return false;
    }
    is_at_rest(&found.process)
}

/// How many bytes of lines are unfinished.
fn unfinished_bytes(process: &Process) -> u64
    ensures { result ≡ length process.now.host.host.first + length process.now.host.host.second }
{
    process.host().first().len() as u64 + process.host().second().len() as u64
}

/// What is handed over of what was found.
fn hand_over(found: Found) -> Result<Handover, LeaveFault>
    requires { found.process.host.host.files.next ≤ found.process.steps + 2 }
    ensures { HandsOverFound found result }
{
    if !is_parked(&found) {
        drop(found);
        return Err(LeaveFault::NotParked);
    }
    let Found { process, .. } = found;
    let dropped = unfinished_bytes(&process);
    match process.into_legacy() {
        Some(legacy) => Ok(Handover { legacy, dropped }),
        None => Err(LeaveFault::StepsSpent),
    }
}

/// What the worker on a disk leaves to the next one, where it is parked: its process, as it was
/// saved last, has ended or waits for a request, and no record comes after it. Syncs the disk, and
/// reads what it shows. Nothing is replayed or written. A disk that is refused, or that fails, is
/// told as by `read_survey`.
pub fn read_legacy<D: Disk>(alloc: Global, disk: &mut D) -> Result<Handover, LeaveFault>
    ensures { ReadsLegacy result (D.medium disk.old) (D.medium disk.new) }
{
    if let Err(fault) = disk.sync() {
        return Err(LeaveFault::Recover(RecoverFault::from(fault)));
    }
    match find(alloc, disk) {
        Ok(found) => hand_over(found),
        Err(fault) => Err(LeaveFault::Recover(fault)),
    }
}

// ---- the next worker

/// Whether the journal takes the longest record of the version that was left.
fn takes_legacy(legacy: &Legacy, config: &Config) -> bool
    ensures takes { IsTrue result ↔ TakesRecords legacy.now.version config.now.journal }
    ensures some { IsLegacy legacy.now }
{
    takes_records(legacy.version(), config.journal())
}

/// The process of the module that the bytes spell, which goes on from what was left. It has a
/// configuration of its own.
fn begin_from(
    alloc: Global,
    wasm: &[u8],
    config: &Config,
    legacy: Legacy,
) -> Result<Process, SliceFault>
    requires { used legacy.files ≤ config.now.files * UNIT_BYTES }
    ensures begun { IfOk result (λ process. BeginsFrom wasm.now config.now legacy process) }
    ensures shows { IfOk result IsProcess }
    ensures within { IfOk result (λ _. AreSettingsWithinLimits config.now) }
    ensures texts { IfOk result (λ _. IsOfBytes (host_of config.now)) }
    ensures refused { IfErr result (IsRefusedByWorker config.now.pages wasm.now) }
{
    let Ok(copy) = copy_config(alloc, config) else {
        legacy.close();
        return Err(SliceFault::Memory);
    };
    start_from(alloc, wasm, copy, legacy)
}

/// The same, of this configuration.
fn start_from(
    alloc: Global,
    wasm: &[u8],
    config: Config,
    legacy: Legacy,
) -> Result<Process, SliceFault>
    requires { used legacy.files ≤ config.files * UNIT_BYTES }
    ensures begun { IfOk result (λ process. BeginsFrom wasm.now config legacy process) }
    ensures shows { IfOk result IsProcess }
    ensures refused { IfErr result (IsRefusedByWorker config.pages wasm.now) }
{
    match read(alloc, wasm) {
        Ok(module) => match Process::start_from(alloc, module, config, legacy) {
            Ok(process) => Ok(process),
            Err(fault) => Err(SliceFault::from(fault)),
        },
        Err(fault) => {
            drop(config);
            legacy.close();
            Err(SliceFault::from(fault))
        }
    }
}

/// Nothing but that a disk was laid out, if it was.
fn tell(laid: Result<WorkerStore, StoreFault>) -> Result<(), WorkFault>
    ensures { result ≡ told_of laid }
{
    match laid {
        Ok(store) => {
            drop(store);
            Ok(())
        }
        Err(fault) => Err(WorkFault::from(fault)),
    }
}

/// Creates a worker of the module that the bytes spell, on this disk, that goes on from what
/// another one left: from its files, its counts and its last monotonic time. Whatever stood on the
/// disk is lost. It is of the other one's version. A journal that is too small for that, a module
/// that isn't accepted, and a disk with too few sectors are refused before anything is written. So
/// is out of memory told.
///
/// It opens no life: the first one begins by a recovery.
pub fn create_from<D: Disk>(
    alloc: Global,
    disk: &mut D,
    wasm: &[u8],
    config: &Config,
    legacy: Legacy,
) -> Result<(), WorkFault>
    requires { used legacy.files ≤ config.now.files * UNIT_BYTES }
    ensures created { OnOk result (IsCreatedFrom wasm.now config.now (D.medium disk.new)) }
    ensures refused { IfErr result (λ why. IsNotCreatedFrom wasm.now config.now legacy
        (D.medium disk.old) (D.medium disk.new) why) }
    ensures untouched { IfErr result (λ why. IsRefusedBefore why → disk.new ≡ disk.old) }

    // Once it has answered Ok, each cut leaves the worker that goes on from there. Where no worker
    // was on the disk before, a cut at any moment leaves none, or that one.
    ensures keeps { SuccessionKeeps wasm.now config.now legacy result (D.medium disk.old)
        (D.medium disk.new) }
    ensures calls { SuccessionCalls wasm.now config.now result (D.medium disk.old)
        (D.medium disk.new) }
    ensures asks { CallsUpTo (most_creating (D.medium disk.old).sectors) (D.medium disk.old)
        (D.medium disk.new) }

    // At no moment were there more unsynced writes than before and one, or than an area, the
    // contents, the journal and two heads have sectors.
    ensures counts { CountsUpTo (max ((D.medium disk.old).unsynced + 1)
        (most_unsynced (places_for config.now wasm.now))) (D.medium disk.old)
        (D.medium disk.new) }
{
    if !takes_legacy(&legacy, config) {
        legacy.close();
        return Err(WorkFault::Upgrade(UpgradeFault::JournalTooSmall));
    }
    let process = begin_from(alloc, wasm, config, legacy)?;
    process_images_fit_areas();
    let laid = lay_out(alloc, disk, config, wasm, &process);
    process.close();
    tell(laid)
}

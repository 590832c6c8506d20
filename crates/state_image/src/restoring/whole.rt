//! The process of an image, made again.
//!
//! # Choices
//!
//! - **`restore_into` takes the machine that `link` gave.** A recovery links before it reads the
//!   image, since a refused module is answered first. Nothing is linked twice.
//! - **A module that can't be linked has no image**: `restore` then says `I1 NotAnImage`.

ghost use Rattle.std.specs.Prelude.{◌≡◌, ◌≢◌, ◌↔◌, ℕ, [], IsTrue, IfOk, Err};
ghost use Rattle.wasm_rules.specs.Linking.{HasEntry, IsLinkable};
ghost use Rattle.machine.specs.rules.Loading.{ShowsSome};
ghost use Rattle.machine.specs.rules.Offers.{offer};
ghost use Rattle.machine.specs.rules.Runs.{HasBegun};
ghost use Rattle.process.specs.rules.Restored.{HasLinkableGuest};
ghost use Rattle.process.specs.rules.Values.{IsProcess};
ghost use Rattle.state_image.specs.declared.restoring.fault.RestoreFault.TheVariants as fault;
ghost use Rattle.state_image.specs.rules.ProcessImage.{Saved, process_image};
ghost use Rattle.state_image.specs.rules.Restored.{IsRestored};
ghost use Rattle.state_image.specs.rules.Saving.{saved_of};
ghost use Rattle.state_image.specs.rules.WellTyped.{IsWellTyped};
ghost use Rattle.state_image.specs.restoring.Processes.{IsReadProcess, process_behind, end_in};
ghost use Rattle.state_image.specs.restoring.Processes.{MayCome, MayBeAccepted, fault_of_link};

use crate::reading::{ProcessImageReader, ReadPhase};
use crate::restoring::accepting::may_be_accepted;
use crate::restoring::fault::RestoreFault;
use crate::restoring::host::restore_host;
use crate::restoring::machine_state::restore_machine;
use crate::restoring::progress::{ProcessProgress, read_progress};
use machine::{LinkFault, Machine, link};
use process::{Process, ProcessEnd, ProcessParts};
use std::alloc::Global;
use wasi_abi::Config;
use wasi_calls::WasiState;
use wasm_validate::ValidModule;

/// The process of which these bytes are the image, of this module under this configuration.
/// `NotAnImage` also where the module can't be linked.
pub fn restore(
    alloc: Global,
    module: ValidModule,
    config: Config,
    bytes: &[u8],
) -> Result<Process, RestoreFault>
    ensures restored { IfOk result (IsRestored «module» config bytes.now) }
    ensures refused { result ≡ Err fault.NotAnImage → IsLinkable offer config.pages «module»
        → (s : Saved) → IsWellTyped «module» config s → bytes.now ≢ process_image s }
{
    let machine = link(alloc, module, config.pages())?;
    restore_into(alloc, machine, config, bytes)
}

/// The process of which these bytes are the image, under this configuration. The machine is one
/// that `link` gave of its module. Each byte is read once, and no more memory is taken than what
/// was read wants.
pub fn restore_into(
    alloc: Global,
    machine: Machine,
    config: Config,
    bytes: &[u8],
) -> Result<Process, RestoreFault>
    requires { HasBegun config.pages machine.guest machine }
    ensures restored { IfOk result (IsRestored machine.guest config bytes.now) }
    ensures shows { IfOk result IsProcess }
    ensures refused { result ≡ Err fault.NotAnImage → (s : Saved)
        → IsWellTyped machine.guest config s → bytes.now ≢ process_image s }
{
    let mut reader = ProcessImageReader::new(bytes);
    let process = read_process(alloc, machine, config, &mut reader)?;
    if is_accepted(&process, &reader) {
        Ok(process)
    } else {
        process.close();
        Err(RestoreFault::NotAnImage)
    }
}

/// Whether nothing is left after a process that was read, and it is one whose image is accepted.
fn is_accepted(process: &Process, reader: &ProcessImageReader) -> bool
    requires { MayCome process.now.machine.guest process.now.machine.state.later }
    ensures { (entry : ℕ) → HasEntry process.now.machine.guest entry → IsTrue result
        ↔ ((reader.now ≡ []) × MayBeAccepted process.now.machine.guest entry
        (saved_of process.now)) }
{
    if !reader.is_empty() {
        return false;
    }
    may_be_accepted(process)
}

/// The process whose image is next, in the place of what the machine shows.
fn read_process(
    alloc: Global,
    machine: Machine,
    config: Config,
    reader: &mut ProcessImageReader,
) -> Result<Process, RestoreFault>
    requires { HasBegun config.pages machine.guest machine }
    ensures read { IfOk result (IsReadProcess machine config reader.old reader.new) }
    ensures shows { IfOk result IsProcess }
    ensures refused { result ≡ Err fault.NotAnImage → (s : Saved)
        → IsWellTyped machine.guest config s → reader.old ≢ process_image s }
{
    let Some(progress) = read_progress(reader) else {
        machine.close();
        return Err(RestoreFault::NotAnImage);
    };
    let machine = restore_machine(alloc, machine, progress.end.phase, reader)?;
    match restore_host(alloc, config, progress, reader) {
        Ok(host) => put_together(alloc, machine, host, &progress),
        Err(fault) => {
            machine.close();
            Err(fault)
        }
    }
}

/// The process with this machine, this host and these counts, if there is one.
fn put_together(
    alloc: Global,
    machine: Machine,
    host: WasiState,
    progress: &ProcessProgress,
) -> Result<Process, RestoreFault>
    requires shows { ShowsSome machine }
    requires linked { HasLinkableGuest machine }
    ensures made { IfOk result (λ p. p ≡ process_behind progress.now machine host) }
    ensures shows { IfOk result IsProcess }
    ensures refused { result ≡ Err fault.NotAnImage
        → IsProcess (process_behind progress.now machine host) → ⊥ }
{
    let parts = ProcessParts {
        machine,
        host,
        steps: progress.counts.steps,
        answers: progress.counts.answers,
        requests: progress.counts.requests,
        ended: end_in(progress.end.phase),
    };
    match Process::from_parts(alloc, parts) {
        Some(process) => Ok(process),
        None => Err(RestoreFault::NotAnImage),
    }
}

/// How a process has ended in this phase, if it has.
fn end_in(phase: ReadPhase) -> Option<ProcessEnd>
    ensures { result ≡ end_in phase }
{
    match phase {
        ReadPhase::Starting | ReadPhase::Running => None,
        ReadPhase::Exited(code) => Some(ProcessEnd::Exited(code)),
        ReadPhase::Trapped(why) => Some(ProcessEnd::Trapped(why)),
    }
}

impl From<LinkFault> for RestoreFault {
    ghost from_gives = { λ fault made. made ≡ fault_of_link fault };

    fn from(fault: LinkFault) -> RestoreFault {
        match fault {
            LinkFault::Memory => RestoreFault::Memory,
            _ => RestoreFault::NotAnImage,
        }
    }
}

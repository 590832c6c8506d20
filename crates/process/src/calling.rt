//! A call of the guest.
//!
//! A process that a machine's last counted step, a trap or `proc_exit` ends has a machine without a
//! thread (`Machine::stop`). What is kept of it is its memory and its globals.

ghost use Rattle.std.specs.Prelude.{true, false, ◌≡◌, ◌↔◌, option_copied, IsTrue};
ghost use Rattle.wasm_rules.specs.Configuration.{Program, Configuration};
ghost use Rattle.wasi_abi.specs.rules.Calls.{parameters_of};
ghost use Rattle.wasi_calls_rules.specs.CallRules.{IsSync};
ghost use Rattle.wasi_calls_rules.specs.WasiStates.{WasiState as TheWasiState};
ghost use Rattle.wasi_calls.specs.rules.Held.{ShowsWasiState};
ghost use Rattle.wasi_calls.specs.rules.Calls.{AreArguments};
ghost use Rattle.machine.specs.rules.Answers.{call_results};
ghost use Rattle.machine.specs.rules.Values.{HoldsMemory, IsSameMachine, ShowsIn};
ghost use Rattle.machine.specs.rules.Runs.{WaitsFor};
ghost use Rattle.process.specs.Parts.{HasFewLines, WaitsAtCall};
ghost use Rattle.process.specs.Callings.{PerformsCall, HasNumbers, HasNoNumbers, HasCalled};
ghost use Rattle.process.specs.Callings.{EndsAt, IsEndedBy, HasFinished};

use crate::fault::ProcessFault;
use crate::stop::ProcessEnd;
use guest_memory::laws::are_bytes;
use machine::Machine;
use std::alloc::Global;
use wasi_abi::{Answer, Call, NUMBERS_END, Question};
use wasi_calls::{CallOutcome, WasiState, lines_begun};
use wasi_calls_rules::limits::MOVED_BYTES;

/// What a call of the guest comes to.
#[derive(Clone, Copy, Debug, PartialEq, Eq)]
pub enum Called {
    /// It is performed. `synced` says that it was a sync that answered 0.
    Performed {
        synced: bool,
        ended: Option<ProcessEnd>,
    },
    /// It wants this answer.
    Asks(Question),
}

/// Numbers of lines are below this one, unfinished lines counted.
pub const LINES_END: u64 = NUMBERS_END - 2;

/// The error number `success`, which a call gives that is done.
const SUCCESS: u32 = 0;

/// Ends the process where the program has come to its end.
pub fn end_with_program(
    alloc: Global,
    machine: &Machine,
    host: &mut WasiState,
) -> Option<ProcessEnd>
    requires few { HasFewLines host.old }
    ensures few { HasFewLines host.new }
    ensures released { host.new.released ≡ host.old.released }
    ensures host { IsEndedBy result host.old host.new }
    ensures ends { (program : Program) (d : Configuration) (h : TheWasiState)
        → ShowsIn machine.now program d → ShowsWasiState host.old h → EndsAt d host.new h result }
{
    if !machine.has_ended() {
        return None;
    }
    host.end(alloc);
    Some(ProcessEnd::Exited(0))
}

/// Whether the call is a sync.
fn is_sync(call: Call) -> bool
    ensures { IsTrue result ↔ IsSync call }
{
    matches!(call, Call::FdSync | Call::FdDatasync)
}

/// Whether the lines that there are after this call can be numbered, unfinished ones counted. An
/// end adds none to these.
fn has_numbers(machine: &Machine, host: &WasiState, call: Call, arguments: &[u64]) -> bool
    requires typed { AreArguments (parameters_of call) arguments.now }
    requires few { HasFewLines host.now }
    ensures few { result ≡ true → HasNumbers machine.now host.now call arguments.now }
    ensures many { result ≡ false → HasNoNumbers machine.now host.now call arguments.now }
{
    let unfinished = host.unfinished_line_count() as u64;
    let lines = host.released_count() + host.waiting_lines().len() as u64 + unfinished;
    if lines < LINES_END - MOVED_BYTES as u64 {
        return true;
    }
    let more = lines_begun(host, machine.memory(), call, arguments);
    lines + (more as u64) < LINES_END
}

/// Has the host perform the call, on the memory of the machine.
fn call_host(
    alloc: Global,
    machine: &mut Machine,
    host: &mut WasiState,
    call: Call,
    arguments: &[u64],
    answer: Option<&Answer>,
) -> CallOutcome
    requires typed { AreArguments (parameters_of call) arguments.now }
    ensures called { HasCalled machine.old host.old call arguments.now
        (option_copied answer.entry) result machine.new host.new }
{
    let outcome = wasi_calls::call(alloc, host, machine.memory_mut(), call, arguments, answer);
    are_bytes(machine.memory().bytes());
    outcome
}

/// Gives the guest the error number of a call, and ends the process where the program has come to
/// its end by that.
fn finish(
    alloc: Global,
    machine: &mut Machine,
    host: &mut WasiState,
    number: u32,
) -> Option<ProcessEnd>
    requires waits { WaitsFor (call_results (Some number)) machine.old }
    requires few { HasFewLines host.old }
    ensures same { IsSameMachine machine.old machine.new }
    ensures holds { HoldsMemory machine.new }
    ensures few { HasFewLines host.new }
    ensures released { host.new.released ≡ host.old.released }
    ensures finishes { HasFinished machine.old host.old number result machine.new host.new }
{
    machine.finish(Some(number));
    end_with_program(alloc, machine, host)
}

/// Performs a call that waits, with the answer that it wanted, where there is one. After an error
/// nothing has changed.
pub fn perform(
    alloc: Global,
    machine: &mut Machine,
    host: &mut WasiState,
    call: Call,
    arguments: &[u64],
    answer: Option<&Answer>,
) -> Result<Called, ProcessFault>
    requires typed { AreArguments (parameters_of call) arguments.now }
    requires holds { HoldsMemory machine.old }
    requires waits { WaitsAtCall machine.old host.old call arguments.now }
    requires few { HasFewLines host.old }
    ensures holds { HoldsMemory machine.new }
    ensures few { HasFewLines host.new }
    ensures released { host.new.released ≡ host.old.released }
    ensures guest { machine.new.guest ≡ machine.old.guest }
    ensures calls { PerformsCall machine.old host.old call arguments.now
        (option_copied answer.entry) result machine.new host.new }
{
    if !has_numbers(machine, host, call, arguments) {
        return Err(ProcessFault::StepsSpent);
    }
    match call_host(alloc, machine, host, call, arguments, answer) {
        CallOutcome::Done => {
            let synced = is_sync(call);
            let ended = finish(alloc, machine, host, SUCCESS);
            Ok(Called::Performed { synced, ended })
        }
        CallOutcome::Refused(error) => {
            let ended = finish(alloc, machine, host, error.number());
            Ok(Called::Performed {
                synced: false,
                ended,
            })
        }
        CallOutcome::Ask(question) => Ok(Called::Asks(question)),
        CallOutcome::Exit(code) => {
            machine.stop();
            host.end(alloc);
            let ended = Some(ProcessEnd::Exited(code));
            Ok(Called::Performed {
                synced: false,
                ended,
            })
        }
        CallOutcome::Memory => Err(ProcessFault::Memory),
    }
}

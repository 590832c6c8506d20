//! Answers from outside, given to the call that wants them.

ghost use Rattle.std.specs.Prelude.{◌≡◌, ◌↔◌, IsTrue, Some};
ghost use Rattle.wasi_abi.specs.rules.Calls.{parameters_of};
ghost use Rattle.wasi_calls.specs.rules.Calls.{AreArguments};
ghost use Rattle.machine.specs.rules.Values.{HoldsMemory};
ghost use Rattle.process_rules.specs.Processes.{Guest, ProcessState};
ghost use Rattle.process_rules.specs.Runs.{IsWanted, request_taken};
ghost use Rattle.process.specs.Parts.{ShowsParts, IsAtCall, IsRunning, HasFewLines};
ghost use Rattle.process.specs.Callings.{AnswersCall};

use crate::calling::{Called, perform};
use crate::fault::ProcessFault;
use crate::stop::ProcessEnd;
use machine::Machine;
use std::alloc::Global;
use wasi_abi::{Answer, Call, fits};
use wasi_calls::{WasiState, wanted_answer};

/// How many requests such an answer counts as: one, or none.
pub fn count_requests(answer: &Answer) -> u64
    ensures { result ≡ request_taken (Some answer.now) }
{
    match answer {
        Answer::Request { .. } | Answer::End => 1,
        _ => 0,
    }
}

/// Whether a call that waits wants this answer.
fn wants(
    machine: &Machine,
    host: &WasiState,
    call: Call,
    arguments: &[u64],
    answer: &Answer,
) -> bool
    requires typed { AreArguments (parameters_of call) arguments.now }
    ensures { (guest : Guest) (p : ProcessState) → ShowsParts machine.now host.now guest p
        → IsAtCall guest p.configuration call arguments.now
        → IsTrue result ↔ IsWanted guest p (Some answer.now) }
{
    match wanted_answer(host, machine.memory(), call, arguments) {
        Some(question) => fits(host.version().text_limit(), question, answer),
        None => false,
    }
}

/// Makes the call that waits with this answer, where that is the one it wants. After an error
/// nothing has changed, and nothing runs.
pub fn answer_call(
    alloc: Global,
    machine: &mut Machine,
    host: &mut WasiState,
    answer: &Answer,
) -> Result<Option<ProcessEnd>, ProcessFault>
    requires holds { HoldsMemory machine.old }
    requires runs { IsRunning machine.old host.old }
    requires few { HasFewLines host.old }
    ensures holds { HoldsMemory machine.new }
    ensures few { HasFewLines host.new }
    ensures released { host.new.released ≡ host.old.released }
    ensures guest { machine.new.guest ≡ machine.old.guest }
    ensures answers { AnswersCall machine.old host.old answer.now result machine.new host.new }
{
    let Some(asked) = machine.waits() else {
        return Err(ProcessFault::WrongAnswer);
    };
    let arguments = asked.arguments.as_slice();
    if !wants(machine, host, asked.call, arguments, answer) {
        return Err(ProcessFault::WrongAnswer);
    }
    match perform(alloc, machine, host, asked.call, arguments, Some(answer))? {
        Called::Performed { ended, .. } => Ok(ended),
        Called::Asks(_) => unreachable!(),
    }
}

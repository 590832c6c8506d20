//! What a process waits for.

ghost use Rattle.std.specs.Prelude.{◌≡◌, None};
ghost use Rattle.machine.specs.rules.Values.{HoldsMemory};
ghost use Rattle.process.specs.Parts.{IsRunning, ShowsParts};
ghost use Rattle.process_rules.specs.Processes.{Guest, ProcessState};
ghost use Rattle.worker.specs.rules.Questions.{HasQuestion, TellsQuestion};

use machine::Machine;
use process::Process;
use wasi_abi::Question;
use wasi_calls::{WasiState, wanted_answer};

/// The answer that the next step wants of a machine and a host that run.
fn next_question(machine: &Machine, host: &WasiState) -> Option<Question>
    requires holds { HoldsMemory machine.now }
    requires runs { IsRunning machine.now host.now }
    ensures { (guest : Guest) (p : ProcessState) → ShowsParts machine.now host.now guest p
        → p.ended ≡ None → HasQuestion guest p result }
{
    let Some(asked) = machine.waits() else {
        return None;
    };
    wanted_answer(
        host,
        machine.memory(),
        asked.call,
        asked.arguments.as_slice(),
    )
}

/// The answer from outside that the next step of a process wants, if it wants one. Nothing runs.
pub(crate) fn wanted_by(process: &Process) -> Option<Question>
    ensures { TellsQuestion process.now result }
{
    if process.reached_end().is_some() {
        return None;
    }
    next_question(process.machine(), process.host())
}

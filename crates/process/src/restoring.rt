//! A process that is put together from its parts.

ghost use Rattle.std.specs.Prelude.{◌≡◌, ◌↔◌, IsTrue, IsSome, IfSome, None};
ghost use Rattle.wasm_rules.specs.Configuration.{Program, Configuration};
ghost use Rattle.wasm_rules.specs.Steps.{IsEnded};
ghost use Rattle.machine.specs.rules.Loading.{ShowsSome};
ghost use Rattle.machine.specs.rules.Values.{ShowsIn};
ghost use Rattle.process.specs.Parts.{HasFewLines};
ghost use Rattle.process.specs.rules.Values.{IsProcess};
ghost use Rattle.process.specs.rules.Restored.{process_from, HasLinkableGuest};
ghost use Rattle.process.specs.TestedParts.{AreCounted};

use crate::calling::LINES_END;
use crate::process::Process;
use crate::stop::ProcessEnd;
use machine::Machine;
use std::alloc::Global;
use wasi_abi::NUMBERS_END;
use wasi_calls::WasiState;

/// What a process is made of.
#[derive(Drop)]
pub struct ProcessParts {
    /// Its machine.
    pub machine: Machine,
    /// The host's side of it.
    pub host: WasiState,
    /// How many counted steps were taken.
    pub steps: u64,
    /// How many answers from outside were taken.
    pub answers: u64,
    /// How many of those were a request, or the end of requests.
    pub requests: u64,
    /// How it has ended, if it has.
    pub ended: Option<ProcessEnd>,
}

/// Whether steps can be counted, no more answers were taken than steps, but for the widening, and
/// no more requests than answers.
fn are_counted(parts: &ProcessParts) -> bool
    ensures { IsTrue result ↔ AreCounted parts.now.host.host.version parts.now.steps
        parts.now.answers parts.now.requests }
{
    let widenings = parts.host.version().widenings();
    parts.steps < NUMBERS_END
        && parts.answers <= parts.steps + widenings
        && parts.requests <= parts.answers
}

/// Whether the lines can be numbered, unfinished ones counted.
fn has_few_lines(host: &WasiState) -> bool
    ensures { IsTrue result ↔ HasFewLines host.now }
{
    let waiting = host.waiting_lines().len() as u64;
    let unfinished = host.unfinished_line_count() as u64;
    host.released_count()
        .saturating_add(waiting)
        .saturating_add(unfinished)
        < LINES_END
}

/// Whether the program has not come to its end, where the process has not ended.
fn is_open(machine: &Machine, ended: Option<ProcessEnd>) -> bool
    ensures { (program : Program) (d : Configuration) → ShowsIn machine.now program d
        → IsTrue result ↔ (ended ≡ None → IsEnded d → ⊥) }
{
    match ended {
        Some(_) => true,
        None => !machine.has_ended(),
    }
}

/// Whether these parts are those of a process.
fn is_process(parts: &ProcessParts) -> bool
    requires shows { ShowsSome parts.now.machine }
    requires linked { HasLinkableGuest parts.now.machine }
    ensures { IsTrue result ↔ IsProcess (process_from parts.now) }
{
    if !are_counted(parts) {
        return false;
    }
    if !has_few_lines(&parts.host) {
        return false;
    }
    is_open(&parts.machine, parts.ended)
}

impl Process {
    /// The process with these parts, where a process has them. No memory is taken.
    pub fn from_parts(alloc: Global, parts: ProcessParts) -> Option<Process>
        requires shows { ShowsSome parts.machine }
        requires linked { HasLinkableGuest parts.machine }
        ensures made { IfSome result (λ p. p ≡ process_from parts) }
        ensures exact { IsSome result ↔ IsProcess (process_from parts) }
    {
        if !is_process(&parts) {
            parts.close();
            return None;
        }
        Some(Process {
            alloc,
            machine: parts.machine,
            host: parts.host,
            steps: parts.steps,
            answers: parts.answers,
            requests: parts.requests,
            ended: parts.ended,
        })
    }
}

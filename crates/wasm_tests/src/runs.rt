//! What comes of running a module under two pages of memory.

use crate::spelled::{Refused, with_code};
use machine::{HostCall, Machine, ModuleFault, Pause, accept};
use std::alloc::Global;
use wasi_abi::Call;
use wasm_syntax::Trap;

/// Enough for each row that ends.
const FUEL: u64 = 10_000;

/// What is looked at once a module has run.
#[derive(Drop)]
pub enum Outcome {
    /// `_start` returns, and leaves this number at address 0.
    Leaves(u64),
    /// How the run ends: it returns, spends its fuel, traps, or asks for a call with arguments.
    Returns,
    Spends,
    Traps(Trap),
    Asks(Call, &'static [u64]),
    /// What the machine tells then: its end, a call that waits, or neither.
    TellsEnd,
    TellsCall(Call, &'static [u64]),
    TellsNeither,
}

fn is_asked(asked: &HostCall, call: Call, arguments: &[u64]) -> bool {
    asked.call == call && asked.arguments.as_slice() == arguments
}

fn has_trapped(why: &Pause, wanted: Trap) -> bool {
    match why {
        Pause::Trapped(trap) => *trap == wanted,
        _ => false,
    }
}

fn has_asked(why: &Pause, call: Call, arguments: &[u64]) -> bool {
    match why {
        Pause::Host(asked) => is_asked(asked, call, arguments),
        _ => false,
    }
}

fn waits_for(waits: Option<&HostCall>, call: Call, arguments: &[u64]) -> bool {
    match waits {
        Some(asked) => is_asked(asked, call, arguments),
        None => false,
    }
}

/// Whether a machine that has this call waiting tells the outcome.
fn tells(machine: &Machine, waits: Option<&HostCall>, outcome: &Outcome) -> bool {
    match outcome {
        Outcome::TellsEnd => machine.has_ended(),
        Outcome::TellsCall(call, arguments) => {
            !machine.has_ended() && waits_for(waits, *call, arguments)
        }
        Outcome::TellsNeither => !machine.has_ended() && waits.is_none(),
        _ => false,
    }
}

/// Whether a machine that paused so, and has this call waiting, has come to the outcome.
fn has_come_to(
    machine: &Machine,
    why: &Pause,
    waits: Option<&HostCall>,
    outcome: &Outcome,
) -> bool {
    match outcome {
        Outcome::Leaves(number) => {
            matches!(why, Pause::Returned) && machine.memory().load_u64(0, 0) == Some(*number)
        }
        Outcome::Returns => matches!(why, Pause::Returned),
        Outcome::Spends => matches!(why, Pause::Spent),
        Outcome::Traps(trap) => has_trapped(why, *trap),
        Outcome::Asks(call, arguments) => has_asked(why, *call, arguments),
        outcome => tells(machine, waits, outcome),
    }
}

pub fn comes_to(alloc: Global, bytes: &[u8], outcome: &Outcome) -> Result<bool, ModuleFault> {
    let mut machine = accept(alloc, bytes, 2)?;
    let why = machine.run(FUEL).why;
    let waits = machine.waits();
    let is_so = has_come_to(&machine, &why, waits.as_ref(), outcome);
    drop(machine);
    Ok(is_so)
}

/// A name, locals and body of a function, and what comes of its module.
pub type Run = (&'static str, &'static str, Outcome);

/// Functions of one module: what is before the code section, the number of entries and the first of
/// them, and what is after it. Then the last entries, each of which makes a module.
pub type Runs = (&'static str, &'static str, &'static str, &'static [Run]);

pub fn runs_so(alloc: Global, runs: &Runs, run: &Run) -> Result<bool, Refused> {
    let bytes = with_code(alloc, runs.0, runs.1, run.1, runs.2)?;
    let told = comes_to(alloc, bytes.as_slice(), &run.2);
    drop(bytes);
    Ok(told?)
}

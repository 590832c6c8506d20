//! Stretches of a process: the machine runs, and then the host is called, or the process ends.
//!
//! Lines are numbered below 2^63 - 2, and those that an end would emit are counted among them. An
//! end always has numbers then (`HasLineNumbers`). `StepsSpent` is answered to the call whose lines
//! would go beyond, and to step 2^63. The lines that a call begins are counted before it is
//! performed. Near step 2^63 `advance` may answer `StepsSpent` where it would answer `Spent` or
//! `Asks` with more numbers.

ghost use Rattle.std.specs.Prelude.{◌≡◌, [], false};
ghost use Rattle.wasi_calls.specs.rules.Calls.{AreArguments};
ghost use Rattle.wasi_abi.specs.rules.Calls.{parameters_of};
ghost use Rattle.wasi_calls_rules.specs.WasiStates.{WasiState as TheWasiState};
ghost use Rattle.wasi_calls_rules.specs.Lines.{lines_ended};
ghost use Rattle.wasi_calls.specs.rules.Held.{ShowsWasiState, held_ended};
ghost use Rattle.machine.specs.rules.Values.{HoldsMemory};
ghost use Rattle.process.specs.Parts.{IsRunning, HasFewLines, WaitsAtCall};
ghost use Rattle.process.specs.Stretches.{Stretches, StepsAt, stop_after, stretch_of};

use crate::calling::{Called, perform};
use crate::fault::ProcessFault;
use crate::stop::{ProcessEnd, Stop};
use machine::{Machine, Pause, Paused};
use std::alloc::Global;
use wasi_abi::Call;
use wasi_calls::WasiState;

/// So many steps, how the process has ended by them, and why they stop, unless they can go on.
#[derive(Clone, Copy, Debug)]
pub struct Stretch {
    pub steps: u64,
    pub ended: Option<ProcessEnd>,
    pub stop: Option<Result<Stop, ProcessFault>>,
}

/// The stretch up to where the process stops.
#[derive(Clone, Copy, Debug)]
pub struct Run {
    pub steps: u64,
    pub ended: Option<ProcessEnd>,
    pub stop: Result<Stop, ProcessFault>,
}

/// Why a process stops after a step, where no line waited before it.
fn stop_after(
    host: &WasiState,
    synced: bool,
    ended: Option<ProcessEnd>,
) -> Option<Result<Stop, ProcessFault>>
    ensures { result ≡ stop_after synced host.now.host.lines ended }
{
    if synced || !host.waiting_lines().is_empty() {
        return Some(Ok(Stop::Owes));
    }
    match ended {
        Some(end) => Some(Ok(Stop::Ended(end))),
        None => None,
    }
}

/// The last of so many steps has ended the process.
fn end(alloc: Global, host: &mut WasiState, steps: u64, end: ProcessEnd) -> Stretch
    requires { HasFewLines host.old }
    ensures few { HasFewLines host.new }
    ensures ended { host.new ≡ held_ended host.old }
    ensures shown { (h : TheWasiState) → ShowsWasiState host.old h
        → ShowsWasiState host.new (lines_ended h) }
    ensures is { result ≡ record {
      steps = steps;
      ended = Some end;
      stop = stop_after false host.new.host.lines (Some end);
    } }
{
    host.end(alloc);
    Stretch {
        steps,
        ended: Some(end),
        stop: stop_after(host, false, Some(end)),
    }
}

/// The stretch of a call's step.
fn stretch_of(host: &WasiState, performed: Result<Called, ProcessFault>) -> Stretch
    ensures { result ≡ stretch_of performed host.now.host.lines }
{
    match performed {
        Ok(Called::Performed { synced, ended }) => Stretch {
            steps: 1,
            ended,
            stop: stop_after(host, synced, ended),
        },
        Ok(Called::Asks(question)) => Stretch {
            steps: 0,
            ended: None,
            stop: Some(Ok(Stop::Asks(question))),
        },
        Err(fault) => Stretch {
            steps: 0,
            ended: None,
            stop: Some(Err(fault)),
        },
    }
}

/// The step of a call that waits.
fn step(
    alloc: Global,
    machine: &mut Machine,
    host: &mut WasiState,
    call: Call,
    arguments: &[u64],
) -> Stretch
    requires typed { AreArguments (parameters_of call) arguments.now }
    requires holds { HoldsMemory machine.old }
    requires waits { WaitsAtCall machine.old host.old call arguments.now }
    requires none_waits { host.old.host.lines ≡ [] }
    requires few { HasFewLines host.old }
    ensures holds { HoldsMemory machine.new }
    ensures few { HasFewLines host.new }
    ensures released { host.new.released ≡ host.old.released }
    ensures guest { machine.new.guest ≡ machine.old.guest }
    ensures steps { StepsAt machine.old host.old call arguments.now result machine.new host.new }
{
    let performed = perform(alloc, machine, host, call, arguments, None);
    stretch_of(host, performed)
}

/// The machine runs to its next pause, and what that asks for is done.
fn run_stretch(alloc: Global, machine: &mut Machine, host: &mut WasiState, fuel: u64) -> Stretch
    requires holds { HoldsMemory machine.old }
    requires runs { IsRunning machine.old host.old }
    requires none_waits { host.old.host.lines ≡ [] }
    requires few { HasFewLines host.old }
    ensures holds { HoldsMemory machine.new }
    ensures few { HasFewLines host.new }
    ensures released { host.new.released ≡ host.old.released }
    ensures guest { machine.new.guest ≡ machine.old.guest }
    ensures stretches { Stretches machine.old host.old fuel result machine.new host.new }
{
    let Paused { why, fuel_left } = machine.run(fuel);
    let ran = fuel - fuel_left;
    match why {
        Pause::Spent => Stretch {
            steps: ran,
            ended: None,
            stop: Some(Ok(Stop::Spent)),
        },
        Pause::Host(asked) => {
            let arguments = asked.arguments.as_slice();
            let next = step(alloc, machine, host, asked.call, arguments);
            Stretch {
                steps: ran + next.steps,
                ended: next.ended,
                stop: next.stop,
            }
        }
        Pause::Returned => end(alloc, host, ran, ProcessEnd::Exited(0)),
        Pause::Trapped(why) => end(alloc, host, ran, ProcessEnd::Trapped(why)),
    }
}

/// Takes steps up to where the process stops.
pub fn take_steps(alloc: Global, machine: &mut Machine, host: &mut WasiState, fuel: u64) -> Run
    requires holds { HoldsMemory machine.old }
    requires runs { IsRunning machine.old host.old }
    requires none_waits { host.old.host.lines ≡ [] }
    requires few { HasFewLines host.old }
    ensures holds { HoldsMemory machine.new }
    ensures few { HasFewLines host.new }
    ensures released { host.new.released ≡ host.old.released }
    ensures guest { machine.new.guest ≡ machine.old.guest }
    ensures stretches { Stretches machine.old host.old fuel (record {
      steps = result.steps;
      ended = result.ended;
      stop = Some result.stop;
    }) machine.new host.new }
{
    let mut steps = 0;
    loop {
        let next = run_stretch(alloc, machine, host, fuel - steps);
        steps += next.steps;
        if let Some(stop) = next.stop {
            return Run {
                steps,
                ended: next.ended,
                stop,
            };
        }
    }
}

//! A machine and what it does.
//!
//! # Choices
//!
//! - **A contract is stated for every configuration that is shown**, and asks that there is one.
//!   Nothing has to be known of which one is shown. No clause of `run` or `finish` names a slot, a
//!   frame or a routine.
//! - **The machine's invariant holds whatever its memory is**: with each memory of the program's
//!   limit, its state stands for a reduced configuration. The memory can be lent whole, and any
//!   memory may be written back. What runs asks only that the memory's limit is the one that the
//!   machine was linked with. Whole pages and bytes below 256 are known by types.
//! - **A machine is asked what it waits for and whether it is over; nothing runs to learn it.**
//!   Both answers are read off the innermost frame. A process then reduces a configuration once a
//!   call. A machine that was just made at a call, and never ran, answers the same.
//! - **The host may write memory while a call waits.** What a call asks for is no question of the
//!   bytes in memory. The machine then shows what is written, and waits at the same call
//!   (`memory_may_be_written`).

ghost use Rattle.std.specs.Prelude.{◌≡◌};

use crate::execution::{Executable, HostCall, Paused, State, clear, go_on, waiting_call};
use guest_memory::Memory;
use guest_memory::laws::memories_are_of_bytes;
use std::marker::Model;
use wasm_validate::ValidModule;

/// A linked module that runs. Contracts see its module and what it shows of a configuration.
#[derive(Debug, Drop)]
pub struct Machine {
    pub(crate) code: Executable,
    pub(crate) state: State,
    /// How many pages memory may have.
    pub(crate) most_pages: u32,
}

impl Model for Machine {
    ghost use Rattle.machine.specs.rules.Values.{MachineValue};
    ghost use Rattle.machine.specs.Insides.{seen, IsMachine};

    ghost Value = { MachineValue };

    ghost view = { λ m. seen m.code m.state m.most_pages };

    ghost invariant = { λ m. IsMachine m.code m.state m.most_pages };
}

impl Machine {
    ghost use Rattle.machine.specs.rules.Values.{HoldsMemory, IsSameMachine, memory_of};
    ghost use Rattle.machine.specs.rules.Values.{without_thread};
    ghost use Rattle.std.specs.Borrow.{sem};
    ghost use Rattle.machine.specs.rules.Answers.{call_results};
    ghost use Rattle.machine.specs.rules.Runs.{RunsOnFuel, Stops, TellsEnd, TellsWaiting, WaitsFor};
    ghost use Rattle.machine.specs.rules.Runs.{Answers};
    ghost use Rattle.machine.specs.rules.Lends.{LendsMemory};

    /// Applies rules until the program has ended or trapped, a call of the host waits, or so much
    /// fuel is spent. A counted step takes one unit.
    pub fn run(&mut self, fuel: u64) -> Paused
        requires { HoldsMemory self.old }
        ensures same { IsSameMachine self.old self.new }
        ensures holds { HoldsMemory self.new }
        ensures runs { RunsOnFuel self.old fuel result self.new }
    {
        memories_are_of_bytes(&self.state.memory);
        go_on(&self.code, &mut self.state, fuel)
    }

    /// Drops the thread: frames, operands, and the calls to come. Memory, globals and table remain.
    pub fn stop(&mut self)
        ensures same { IsSameMachine self.old self.new }
        ensures holds { HoldsMemory self.old → HoldsMemory self.new }
        ensures drops { self.new ≡ without_thread self.old }
        ensures stops { Stops self.old self.new }
    {
        clear(&mut self.state);
    }

    /// Answers the call of the host that waits. If the call gives a result, that is put in the
    /// place of what the call took. Then the administrative steps are taken. Takes no
    /// memory.
    pub fn finish(&mut self, answer: Option<u32>)
        requires waits { WaitsFor (call_results answer) self.old }
        ensures same { IsSameMachine self.old self.new }
        ensures holds { HoldsMemory self.new }
        ensures answers { Answers (call_results answer) self.old self.new }
    {
        memories_are_of_bytes(&self.state.memory);
        crate::hosting::answer(&self.code, &mut self.state, answer);
        let _ = go_on(&self.code, &mut self.state, 0);
    }

    /// The call of the host that waits for its answer, if one does. Nothing runs.
    pub fn waits(&self) -> Option<HostCall>
        requires { HoldsMemory self.now }
        ensures { TellsWaiting self.now result }
    {
        memories_are_of_bytes(&self.state.memory);
        waiting_call(&self.code, &self.state)
    }

    /// Whether the program is over: the last function that the host called has returned, or the
    /// machine trapped or was stopped. Nothing runs.
    pub fn has_ended(&self) -> bool
        ensures { TellsEnd self.now result }
    {
        self.state.frames.is_empty()
    }

    /// The guest's memory.
    pub fn memory(&self) -> &Memory
        ensures { result.now ≡ memory_of self.now }
    {
        &self.state.memory
    }

    /// The guest's memory, to be written. Nothing else changes. A memory with another limit of
    /// pages may be put there, or one below the module's minimum. But `run`, `finish` and `waits`
    /// ask that the limit is the machine's, and that there are as many pages.
    pub fn memory_mut(&mut self) -> &mut Memory
        ensures* writes_back { sem 𝓛 (LendsMemory self.entry result) }
        ensures memory { result.now ≡ memory_of self.old }
    {
        let state = &mut self.state;
        &mut state.memory
    }

    /// The module that it runs.
    pub fn module(&self) -> &ValidModule
        ensures { result.now ≡ self.now.guest }
    {
        &self.code.module
    }

    /// Lets the machine go. Its memory is given back.
    pub fn close(self) {}

    /// Gives the module back. No memory is taken.
    pub fn unlink(self) -> ValidModule
        ensures { result ≡ self.guest }
    {
        let Machine { code, .. } = self;
        code.module
    }
}

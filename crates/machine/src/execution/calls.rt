//! Frames that are entered and left.
//!
//! # Choices
//!
//! - The results of the last frame are dropped: a function that the host calls may give one, as far
//!   as the definitions go.
//! - Frames and words are cleared at a trap, so that a trapped machine shows what the rules leave:
//!   the store and no thread.

ghost use Rattle.std.specs.Prelude.{◌≡◌, ◌<◌, ◌≤◌, ◌+◌, ◌-◌, ◌++◌, length, replicate};
ghost use Rattle.machine_slots.specs.declared.slots.TheConstants.{SLOTS};
ghost use Rattle.wasm_syntax.specs.declared.limits.TheConstants.{PARAMETERS, LOCALS};
ghost use Rattle.machine.specs.Execution.Cycles.{CanLeave, Entered, EntersOrTraps, HasFrameRoom};
ghost use Rattle.machine.specs.Execution.Cycles.{IsCleared, LeavesFrame, TrapsWith};

use crate::execution::cycle::Cycle;
use crate::execution::pause::{Pause, Paused};
use crate::execution::state::State;
use crate::routines::Routine;
use machine_frame::StackFrame;
use machine_slots::Slots;
use machine_slots::limits::{FRAMES, HELD_VALUES};
use wasm_syntax::Trap;

/// Puts zeros on top. A few are put there one by one, since a fill of any length is a call.
#[inline(always)]
fn push_zeros(slots: &mut Slots, count: usize)
    requires { count + length slots.old ≤ SLOTS }
    ensures { slots.new ≡ replicate count 0 ++ slots.old }
{
    if count == 0 {
        return;
    }
    slots.push(0);
    if count == 1 {
        return;
    }
    slots.push(0);
    if count == 2 {
        return;
    }
    slots.push(0);
    if count == 3 {
        return;
    }
    slots.push(0);
    if count > 4 {
        slots.push_zeros(count - 4);
    }
}

/// Enters a function whose parameters are on top of the words.
#[inline(always)]
pub fn enter(state: &mut State, function: u32, parameters: usize, declared: usize)
    requires parameters { parameters ≤ length state.old.slots }
    requires room { HasFrameRoom declared state.old }
    ensures { Entered function parameters declared state.old state.new }
{
    let base = state.slots.len() - parameters;
    state.frames.push(StackFrame {
        function,
        position: 0,
        base,
    });
    push_zeros(&mut state.slots, declared);
}

/// Leaves no frames, words and calls to come: the thread is over.
pub fn clear(state: &mut State)
    ensures { IsCleared state.old state.new }
{
    state.frames.clear();
    state.slots.truncate(0);
    state.later.clear();
}

/// A trap, which is one of the rules that the fuel is for, where the innermost frame is.
pub fn trap(state: &mut State, why: Trap, fuel: u64) -> Cycle
    requires { 0 < fuel }
    ensures cleared { IsCleared state.old state.new }
    ensures traps { TrapsWith why fuel result }
{
    state.frames.fall();
    clear(state);
    trapped(why, fuel)
}

/// The same, where the innermost frame has come to this position of its body by register code.
pub fn trap_at(state: &mut State, position: u16, why: Trap, fuel: u64) -> Cycle
    requires { 0 < fuel }
    ensures cleared { IsCleared state.old state.new }
    ensures traps { TrapsWith why fuel result }
{
    state.frames.fall_at(position as usize);
    clear(state);
    trapped(why, fuel)
}

/// The pause of a trap on so much fuel.
fn trapped(why: Trap, fuel: u64) -> Cycle
    requires { 0 < fuel }
    ensures { TrapsWith why fuel result }
{
    Cycle::Waits(Paused {
        why: Pause::Trapped(why),
        fuel_left: fuel - 1,
    })
}

/// Enters a function of the module's own, whose parameters are on top, if there is room for its
/// frame and locals.
pub fn enter_or_trap(state: &mut State, function: u32, routine: &Routine, fuel: u64) -> Cycle
    requires some { 0 < fuel }
    requires parameters { routine.now.parameters ≤ length state.old.slots }
    requires locals { routine.now.parameters ≤ routine.now.locals }
    requires few { routine.now.locals ≤ PARAMETERS + LOCALS }
    ensures { EntersOrTraps function routine.now.parameters (routine.now.locals
        - routine.now.parameters) state.old fuel result state.new }
{
    let declared = routine.locals - routine.parameters;
    if state.frames.len() >= FRAMES || declared + state.slots.len() > HELD_VALUES {
        return trap(state, Trap::StackExhausted, fuel);
    }
    enter(state, function, routine.parameters, declared);
    Cycle::On(fuel - 1)
}

/// Leaves the running frame with so many results, which the frame that waits for them is given.
#[inline(always)]
pub fn leave(state: &mut State, results: usize)
    requires { CanLeave results state.old }
    ensures { LeavesFrame results state.old state.new }
{
    let frame = state.frames.pop();
    if state.frames.is_empty() {
        state.slots.fall(0, frame.base);
    } else {
        state.slots.fall(results, frame.base);
        let waiting = state.frames.top();
        state.frames.set_position(waiting.position + 1);
    }
}

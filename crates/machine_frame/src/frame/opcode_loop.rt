//! A frame that runs opcode by opcode, until it has to wait, returns, ends, traps or has no fuel.

ghost use Rattle.std.specs.Prelude.{◌≡◌, ◌<◌, length};
ghost use Rattle.machine_slots.specs.Frames.{cells};
ghost use Rattle.machine_frame.specs.Frame.Moves.{SomeFrameIsAt, HasFrameAt, running};
ghost use Rattle.machine_frame.specs.Frame.Runs.{RunsOn, HaltsWithoutFuel};

use crate::frame::running_frame::RunningFrame;
use crate::frame::step::{pass_ends, step};
use crate::frame::stops::{FrameHalt, FrameStop, StepResult};
use crate::frame::straight::run_straight;
use guest_memory::Memory;
use machine_jumps::BranchTable;
use machine_slots::Slots;
use wasm_syntax::Instruction;

/// Where a frame without fuel is: after all ends that follow.
#[inline(always)]
fn halt_without_fuel(opcodes: &[Instruction], table: &BranchTable, position: usize) -> FrameStop
    requires { HasFrameAt opcodes.now table.now position }
    ensures { HaltsWithoutFuel opcodes.now table.now position result }
{
    let position = pass_ends(opcodes, table, position);
    if position < opcodes.len() {
        FrameStop::at(position, 0, FrameHalt::Spent)
    } else {
        FrameStop::at(position, 0, FrameHalt::Ended)
    }
}

/// Runs a frame opcode by opcode from a position on: at most `fuel` counted steps, and those that
/// aren't counted after each. Takes no memory.
pub fn run_by_opcodes(
    frame: RunningFrame<'_>,
    position: usize,
    fuel: u64,
    slots: &mut Slots,
    globals: &mut [u64],
    memory: &mut Memory,
) -> FrameStop
    requires { SomeFrameIsAt (running frame.opcodes.now frame.table.now frame.base frame.floor)
        position (cells slots.old globals.old memory.old) }
    ensures { RunsOn (running frame.entry.opcodes.now frame.entry.table.now frame.entry.base
        frame.entry.floor) position fuel (cells slots.old globals.old memory.old) result
        (cells slots.new globals.new memory.new) }
{
    let end = frame.opcodes.len();
    let mut fuel_left = fuel;
    let mut next = position;
    if next >= end {
        return FrameStop::at(next, fuel_left, FrameHalt::Ended);
    }
    while fuel_left > 0 {
        let stop = run_straight(frame, next, fuel_left, slots, globals, memory);
        fuel_left = stop.fuel_left;
        next = stop.position;
        if let Some(trap) = stop.trap {
            return FrameStop::at(next, fuel_left, FrameHalt::Trapped(trap));
        }
        match step(frame, next, slots, globals, memory) {
            StepResult::On(to) => {
                next = to;
                fuel_left -= 1;
            }
            StepResult::To(to) => {
                fuel_left -= 1;
                if to >= end {
                    return FrameStop::at(to, fuel_left, FrameHalt::Ended);
                }
                next = to;
            }
            StepResult::Out(to) => {
                if to >= end {
                    return FrameStop::at(to, fuel_left, FrameHalt::Ended);
                }
                next = to;
            }
            StepResult::Halts(halt) => return FrameStop::at(next, fuel_left, halt),
        }
    }
    halt_without_fuel(frame.opcodes, frame.table, next)
}

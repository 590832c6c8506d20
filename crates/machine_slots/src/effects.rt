//! Any instruction that is no jump and no call.
//!
//! One match decides what an instruction is: `operate` does nothing for those that lead elsewhere,
//! and says so. Two matches, one in the other's default arm, stay two jump tables.

ghost use Rattle.std.specs.Prelude.{◌<◌, length};
ghost use Rattle.machine_slots.specs.Frames.{cells};
ghost use Rattle.machine_slots.specs.Outcomes.{HasEffect, IsReadyFor};

use crate::integers::{apply_binary, apply_comparison, apply_conversion, apply_unary, eqz};
use crate::linear_memory::{load, memory_copy, memory_fill, memory_grow, memory_size, store};
use crate::outcome::{EffectOutcome, outcome_of};
use crate::parametric::{constant, drop_top, select};
use crate::slots::{SLOTS, Slots};
use crate::variables::{global_get, global_set, local_get, local_set, local_tee};
use guest_memory::Memory;
use wasm_syntax::Instruction;

/// Does what the instruction does to the frame whose first local is at `base`, counted from the
/// bottom. At a trap globals and memory are as they were. Nothing is done for an instruction that
/// leads elsewhere than to the next one, or nowhere: so one match decides of all of them.
#[inline(always)]
pub fn operate(
    instruction: &Instruction,
    base: usize,
    slots: &mut Slots,
    globals: &mut [u64],
    memory: &mut Memory,
) -> EffectOutcome
    requires room { length slots.old < SLOTS }
    requires ready { IsReadyFor instruction.now base (cells slots.old globals.old memory.old) }
    ensures { HasEffect instruction.now base (cells slots.old globals.old memory.old) result
        (cells slots.new globals.new memory.new) }
{
    match instruction {
        Instruction::Nop => EffectOutcome::Done,
        Instruction::Load { operator, argument } => {
            outcome_of(load(slots, memory, *operator, argument.offset))
        }
        Instruction::Store { operator, argument } => {
            outcome_of(store(slots, memory, *operator, argument.offset))
        }
        Instruction::Binary {
            value_type,
            operator,
        } => outcome_of(apply_binary(slots, *value_type, *operator)),
        Instruction::Drop => {
            drop_top(slots);
            EffectOutcome::Done
        }
        Instruction::Select => {
            select(slots);
            EffectOutcome::Done
        }
        Instruction::LocalGet { local } => {
            local_get(slots, base + *local as usize);
            EffectOutcome::Done
        }
        Instruction::LocalSet { local } => {
            local_set(slots, base + *local as usize);
            EffectOutcome::Done
        }
        Instruction::LocalTee { local } => {
            local_tee(slots, base + *local as usize);
            EffectOutcome::Done
        }
        Instruction::GlobalGet { global } => {
            global_get(slots, globals, *global);
            EffectOutcome::Done
        }
        Instruction::GlobalSet { global } => {
            global_set(slots, globals, *global);
            EffectOutcome::Done
        }
        Instruction::MemorySize => {
            memory_size(slots, memory);
            EffectOutcome::Done
        }
        Instruction::MemoryGrow => {
            memory_grow(slots, memory);
            EffectOutcome::Done
        }
        Instruction::MemoryCopy => outcome_of(memory_copy(slots, memory)),
        Instruction::MemoryFill => outcome_of(memory_fill(slots, memory)),
        Instruction::Const { value } => {
            constant(slots, *value);
            EffectOutcome::Done
        }
        Instruction::Eqz { .. } => {
            eqz(slots);
            EffectOutcome::Done
        }
        Instruction::Compare {
            value_type,
            operator,
        } => {
            apply_comparison(slots, *value_type, *operator);
            EffectOutcome::Done
        }
        Instruction::Unary {
            value_type,
            operator,
        } => {
            apply_unary(slots, *value_type, *operator);
            EffectOutcome::Done
        }
        Instruction::Convert { operator } => {
            apply_conversion(slots, *operator);
            EffectOutcome::Done
        }
        _ => EffectOutcome::Elsewhere,
    }
}

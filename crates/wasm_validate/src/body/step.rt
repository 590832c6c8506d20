//! One opcode of a body.

ghost use Rattle.std.specs.Prelude.{◌≡◌};
ghost use Rattle.wasm_rules.specs.Typing.{Context as Typing};
ghost use Rattle.wasm_validate.specs.Body.Answers.{LevelsFollow, Performs};
ghost use Rattle.wasm_validate.specs.laws.Checking.{levels_after};
ghost use Rattle.wasm_validate.specs.laws.FirstFault.{opcode_fault};
ghost use Rattle.wasm_validate.specs.Body.Transfers.{IsTransfer};
ghost use Rattle.wasm_validate.specs.Body.Scopes.{IsScopeOf};

use crate::body::levels::Levels;
use crate::body::scope::Scope;
use crate::parts::ValidFault;
use wasm_syntax::{Instruction, ValueType};

const I32: ValueType = ValueType::I32;

impl Levels {
    /// An instruction of numbers, locals, globals or memory.
    fn operate(&mut self, scope: &Scope, instruction: &Instruction) -> Result<(), ValidFault>
        ensures { (c : Typing) → IsScopeOf c scope.now
            → Performs c instruction.now result self.old self.new }
    {
        match instruction {
            Instruction::Drop => self.drop_operand(),
            Instruction::Select => self.select(),
            Instruction::LocalGet { local } => self.local_get(scope, *local),
            Instruction::LocalSet { local } => self.local_set(scope, *local),
            Instruction::LocalTee { local } => self.local_tee(scope, *local),
            Instruction::GlobalGet { global } => self.global_get(scope, *global),
            Instruction::GlobalSet { global } => self.global_set(scope, *global),
            Instruction::Load { operator, argument } => self.load(scope, *operator, *argument),
            Instruction::Store { operator, argument } => self.store(scope, *operator, *argument),
            Instruction::MemorySize => self.memory_size(scope),
            Instruction::MemoryGrow => self.memory_grow(scope),
            Instruction::MemoryCopy => self.memory_copy(scope),
            Instruction::MemoryFill => self.memory_fill(scope),
            Instruction::Const { value } => self.constant(*value),
            Instruction::Eqz { value_type } => self.apply(&[*value_type], &[I32]),
            Instruction::Compare { value_type, .. } => {
                self.apply(&[*value_type, *value_type], &[I32])
            }
            Instruction::Unary { value_type, .. } => self.apply(&[*value_type], &[*value_type]),
            Instruction::Binary { value_type, .. } => {
                self.apply(&[*value_type, *value_type], &[*value_type])
            }
            Instruction::Convert { operator } => self.convert(*operator),
            _ => self.transfer(scope, instruction),
        }
    }

    /// An instruction that hands control on, or none.
    fn transfer(&mut self, scope: &Scope, instruction: &Instruction) -> Result<(), ValidFault>
        ensures { (c : Typing) → IsScopeOf c scope.now → IsTransfer instruction.now
            → Performs c instruction.now result self.old self.new }
    {
        match instruction {
            Instruction::Unreachable => {
                self.set_unreachable();
                Ok(())
            }
            Instruction::Nop => self.apply(&[], &[]),
            Instruction::Br { label } => self.branch(*label),
            Instruction::BrIf { label } => self.branch_if(*label),
            Instruction::BrTable { labels, default } => self.branch_table(labels, *default),
            Instruction::Return => self.return_from(scope),
            Instruction::Call { function } => self.call(scope, *function),
            Instruction::CallIndirect { function_type } => {
                self.call_indirect(scope, *function_type)
            }
            _ => Err(ValidFault::Typing),
        }
    }

    /// Any opcode.
    pub fn step(&mut self, scope: &Scope, instruction: &Instruction) -> Result<(), ValidFault>
        ensures { (c : Typing) → IsScopeOf c scope.now
            → LevelsFollow (opcode_fault c instruction.now self.old) result self.new
            (levels_after c instruction.now self.old) }
    {
        if self.is_empty() {
            return Err(ValidFault::Typing);
        }
        match instruction {
            Instruction::Block { block_type } => self.open(*block_type, *block_type, false),
            Instruction::Loop { block_type } => self.open(None, *block_type, false),
            Instruction::If { block_type } => {
                self.expect(I32)?;
                self.open(*block_type, *block_type, true)
            }
            Instruction::Else => self.part(),
            Instruction::End => self.end(),
            _ => self.operate(scope, instruction),
        }
    }
}

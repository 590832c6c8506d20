//! Constant expressions (section 3.3.7).

ghost use Rattle.std.specs.Prelude.{◌≡◌, ◌≢◌, [], ◌∷◌, MatchOption};
ghost use Rattle.wasm_syntax.specs.declared.instruction.Instruction.{Instruction as Opcode};
ghost use Rattle.wasm_syntax.specs.declared.instruction.Instruction.TheVariants as instr;
ghost use Rattle.wasm_rules.specs.Types.{IsOf};
ghost use Rattle.wasm_rules.specs.Validity.{IsConstant, IsIndex};
ghost use Rattle.wasm_validate.specs.rules.Answers.{Demands, DemandsInTurn};
ghost use Rattle.wasm_validate.specs.rules.Faults.{NamesGlobal};
ghost use Rattle.wasm_validate.specs.Parts.Parts.{IsConstantGlobal};

use crate::parts::fault::ValidFault;
use wasm_syntax::{GlobalType, Instruction, Mutability, Value, ValueType};

/// The one instruction of an expression.
fn only_instruction(expression: &[Instruction]) -> Option<&Instruction>
    ensures { MatchOption result ((i : Opcode)
        → expression.now ≢ i ∷ instr.End ∷ []) (λ i. expression.now ≡ i.now ∷ instr.End ∷ []) }
{
    match expression {
        [only, Instruction::End] => Some(only),
        _ => None,
    }
}

fn check_value(value: Value, value_type: ValueType) -> Result<(), ValidFault>
    ensures { Demands ValidFault.Typing result (IsOf value_type value) }
{
    match (value, value_type) {
        (Value::I32(_), ValueType::I32) | (Value::I64(_), ValueType::I64) => Ok(()),
        _ => Err(ValidFault::Typing),
    }
}

fn check_global(globals: &[GlobalType], x: u32, value_type: ValueType) -> Result<(), ValidFault>
    ensures { DemandsInTurn result ValidFault.Index (IsIndex globals.now x) ValidFault.Typing
        (IsConstantGlobal globals.now x value_type) }
{
    let Some(global) = globals.get(x as usize) else {
        return Err(ValidFault::Index);
    };
    if global.mutability == Mutability::Constant && global.value_type == value_type {
        Ok(())
    } else {
        Err(ValidFault::Typing)
    }
}

/// The expression is one constant of this type, or one constant global of these, of this type.
/// `Index` where it is one global that is none of these, `Typing` otherwise.
pub fn check_constant(
    globals: &[GlobalType],
    expression: &[Instruction],
    value_type: ValueType,
) -> Result<(), ValidFault>
    ensures { DemandsInTurn result ValidFault.Index (NamesGlobal globals.now expression.now)
        ValidFault.Typing (IsConstant globals.now expression.now value_type) }
{
    let Some(only) = only_instruction(expression) else {
        return Err(ValidFault::Typing);
    };
    match only {
        Instruction::Const { value } => check_value(*value, value_type),
        Instruction::GlobalGet { global } => check_global(globals, *global, value_type),
        _ => Err(ValidFault::Typing),
    }
}

//! What a frame's function is, and what a call takes at which a frame waits.

ghost use Rattle.std.specs.Prelude.{◌≡◌, ◌↔◌, ℕ, IsTrue, MatchOption, Some, option_copied};
ghost use Rattle.std.specs.Prelude.{slice_get};
ghost use Rattle.wasm_syntax.specs.declared.module.Function.{Function as OneFunction};
ghost use Rattle.wasm_rules.specs.Typing.{Context as Typing};
ghost use Rattle.wasm_validate.specs.Parts.Contexts.{IsContextOf};
ghost use Rattle.machine.specs.Loading.Bodies.{CallTakes, HasMore, IsOwnAt};

use crate::execution::{Executable, is_same};
use wasm_syntax::{Function, FunctionType, Instruction};
use wasm_validate::ModuleContext;

/// The function at a place, if there is one.
fn function_at(functions: &[Function], place: usize) -> Option<&Function>
    ensures { option_copied result ≡ slice_get functions.now place }
{
    functions.get(place)
}

/// The opcode at a position of a body, if there is one.
pub fn opcode_at(body: &[Instruction], position: usize) -> Option<&Instruction>
    ensures { option_copied result ≡ slice_get body.now position }
{
    body.get(position)
}

/// The module's own function with this number, if it is one.
pub fn own_function(code: &Executable, function: u32) -> Option<&Function>
    ensures { (g : OneFunction) → (option_copied result ≡ Some g) ↔ IsOwnAt code.now function g }
{
    let imported = code.calls.as_slice().len();
    let number = function as usize;
    if number < imported {
        return None;
    }
    function_at(code.module.module().functions.as_slice(), number - imported)
}

/// Whether something is left to execute at a position of a body, in its innermost sequence.
pub fn has_more(body: &[Instruction], position: usize) -> bool
    ensures { IsTrue result ↔ HasMore body.now position }
{
    let Some(instruction) = opcode_at(body, position) else {
        return false;
    };
    match instruction {
        Instruction::End => false,
        Instruction::Else => false,
        _ => true,
    }
}

/// How many operands a call takes at this instruction, if it is one of a function of this type.
pub fn taken_by(
    context: &ModuleContext,
    instruction: &Instruction,
    above: &FunctionType,
) -> Option<usize>
    ensures { (c : Typing) → IsContextOf c context.now
        → MatchOption result ((n : ℕ) → CallTakes c instruction.now above.now n → ⊥)
        (λ n. CallTakes c instruction.now above.now n) }
{
    match instruction {
        Instruction::Call { function } => {
            let Some(called) = context.function_type(*function) else {
                return None;
            };
            if !is_same(called, above) {
                return None;
            }
            Some(above.parameters.as_slice().len())
        }
        Instruction::CallIndirect { function_type } => {
            let Some(called) = context.type_at(*function_type) else {
                return None;
            };
            if !is_same(called, above) {
                return None;
            }
            Some(above.parameters.as_slice().len() + 1)
        }
        _ => None,
    }
}

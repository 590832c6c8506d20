//! The functions of a machine's code.

ghost use Rattle.std.specs.Prelude.{◌≡◌, ◌↔◌, ◌-◌, IsTrue, Some, length, slice_get};
ghost use Rattle.wasm_syntax.specs.declared.types.FunctionType.{FunctionType as Signature};
ghost use Rattle.machine.specs.Routines.Routines.{opcodes_in};
ghost use Rattle.machine.specs.Execution.Codes.{HasSignature, HasOwnFunction, HaveSignatures};

use crate::execution::code::Executable;
use crate::routines::Routine;
use wasm_syntax::{FunctionType, Instruction};

/// What an own function of the module needs.
#[inline(always)]
pub fn routine_of(code: &Executable, function: u32) -> &Routine
    requires { HasOwnFunction code.now function }
    ensures { slice_get code.now.routines.items (function - length code.now.calls.items)
        ≡ Some result.now }
{
    let place = function as usize - code.calls.as_slice().len();
    &code.routines.as_slice()[place]
}

/// The opcodes of an own function of the module.
#[inline(always)]
pub fn opcodes_of(code: &Executable, function: u32) -> &[Instruction]
    requires { HasOwnFunction code.now function }
    ensures { result.now ≡ opcodes_in code.now.«module» function }
{
    let place = function as usize - code.calls.as_slice().len();
    let own = code.module.module().functions.as_slice();
    own[place].code.body.as_slice()
}

/// Whether two types are the same.
pub fn is_same(a: &FunctionType, b: &FunctionType) -> bool
    ensures { IsTrue result ↔ (a.now ≡ b.now) }
{
    a.parameters.as_slice() == b.parameters.as_slice()
        && a.results.as_slice() == b.results.as_slice()
}

/// Whether a function has the type with this index.
pub fn has_signature(code: &Executable, function: u32, function_type: u32) -> bool
    requires { HaveSignatures code.now function function_type }
    ensures { (f g : Signature) → HasSignature code.now function f
        → slice_get code.now.«module».types function_type ≡ Some g → IsTrue result ↔ (g ≡ f) }
{
    let types = code.module.module().types.as_slice();
    let type_index = code.type_indices.as_slice()[function as usize];
    is_same(&types[function_type as usize], &types[type_index as usize])
}

//! The call of the host that waits for its answer.
//!
//! How many words a waiting call takes is read from the types. At a `call` that is the function's
//! type. At a `call_indirect` it is the one that it names, which the called function has. An answer
//! looks into no table, and a pause has nothing to keep.

ghost use Rattle.std.specs.Prelude.{◌≡◌, ◌<◌, ◌≤◌, ◌+◌, ℕ, Some, length, slice_get};
ghost use Rattle.wasm_syntax.specs.declared.types.FunctionType.{FunctionType as Signature};
ghost use Rattle.wasm_syntax.specs.declared.instruction.Instruction.TheVariants as instr;
ghost use Rattle.wasi_abi.specs.rules.Calls.{parameters_of};
ghost use Rattle.machine.specs.Execution.Codes.{HasSignature, StandsForSome};
ghost use Rattle.machine.specs.Execution.Cycles.{StateIsAtOpcode};
ghost use Rattle.machine.specs.Execution.Waiting.{IsAsking, IsCallBelow, TakesWords, TellsOfState};

use crate::execution::code::Executable;
use crate::execution::functions::{has_signature, opcodes_of};
use crate::execution::pause::{Arguments, HostCall};
use crate::execution::state::State;
use wasi_abi::Call;
use wasm_syntax::Instruction;

/// This call, whose arguments lie below so many words.
pub fn call_below(state: &State, call: Call, above: usize) -> HostCall
    requires { length (parameters_of call) + above ≤ length state.now.slots }
    ensures { IsCallBelow state.now.slots call above result }
{
    let words = state.slots.as_slice();
    let end = words.len() - above;
    let start = end - call.parameters().len();
    let arguments = Arguments::of(&words[start..end]);
    HostCall { call, arguments }
}

/// What waits at a `call` of this function.
fn waiting_direct(code: &Executable, state: &State, function: u32) -> Option<HostCall>
    requires stands { StandsForSome code.now state.now }
    requires here { StateIsAtOpcode code.now state.now (instr.Call function) }
    ensures { TellsOfState code.now state.now result }
{
    match code.calls.as_slice().get(function as usize) {
        Some(call) => Some(call_below(state, *call, 0)),
        None => None,
    }
}

/// What waits at a `call_indirect` with this type, which has the entry's place on top.
fn waiting_indirect(code: &Executable, state: &State, function_type: u32) -> Option<HostCall>
    requires stands { StandsForSome code.now state.now }
    requires here { StateIsAtOpcode code.now state.now (instr.CallIndirect function_type) }
    ensures { TellsOfState code.now state.now result }
{
    let place = state.slots.top();
    let Some(entry) = code.table.as_slice().get(place as usize) else {
        return None;
    };
    let Some(function) = *entry else {
        return None;
    };
    if !has_signature(code, function, function_type) {
        return None;
    }
    match code.calls.as_slice().get(function as usize) {
        Some(call) => Some(call_below(state, *call, 1)),
        None => None,
    }
}

/// The call of the host that the next counted step asks for, if it asks for one. Nothing runs.
pub fn waiting_call(code: &Executable, state: &State) -> Option<HostCall>
    requires { StandsForSome code.now state.now }
    ensures { TellsOfState code.now state.now result }
{
    if state.frames.is_empty() {
        return None;
    }
    let frame = state.frames.top();
    let Some(instruction) = opcodes_of(code, frame.function).get(frame.position) else {
        return None;
    };
    match instruction {
        Instruction::Call { function } => waiting_direct(code, state, *function),
        Instruction::CallIndirect { function_type } => {
            waiting_indirect(code, state, *function_type)
        }
        _ => None,
    }
}

/// How many parameters the type with this index has.
fn parameters_in(code: &Executable, function_type: u32) -> usize
    requires { function_type < length code.now.«module».types }
    ensures { (signature : Signature) → slice_get code.now.«module».types function_type
        ≡ Some signature → result ≡ length signature.parameters }
{
    let types = code.module.module().types.as_slice();
    types[function_type as usize].parameters.len()
}

/// How many words the call takes at which the innermost frame waits. They are its arguments, and of
/// a `call_indirect` also the entry's place, which is above them.
pub fn words_taken(code: &Executable, state: &State) -> usize
    requires { IsAsking code.now state.now }
    ensures { TakesWords code.now state.now result }
{
    let frame = state.frames.top();
    match &opcodes_of(code, frame.function)[frame.position] {
        Instruction::Call { function } => {
            parameters_in(code, code.type_indices.as_slice()[*function as usize])
        }
        Instruction::CallIndirect { function_type } => parameters_in(code, *function_type) + 1,
        _ => unreachable!(),
    }
}

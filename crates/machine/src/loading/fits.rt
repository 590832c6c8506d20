//! Whether the parts of a machine show some configuration.

ghost use Rattle.std.specs.Prelude.{◌≡◌, ◌*◌, ◌≤◌, ◌↔◌, List, [], length, IsTrue, IfOk};
ghost use Rattle.wasm_syntax.specs.declared.types.FunctionType.{FunctionType as Signature};
ghost use Rattle.guest_memory.specs.rules.Bytes.{page_size};
ghost use Rattle.wasm_rules.specs.Configuration.{Program};
ghost use Rattle.wasm_rules.specs.Validity.{module_context};
ghost use Rattle.machine_frame.specs.laws.Fitting.{FitsProgram};
ghost use Rattle.machine_frame.specs.rules.Stacked.{AreStacked};
ghost use Rattle.machine_frame.specs.rules.Threads.{machine_state_of};
ghost use Rattle.machine.specs.Execution.Codes.{IsExecutable, parts_of_state};
ghost use Rattle.machine.specs.Loading.Checks.{FitsAround, IsSomeCode, TellsFit};

use crate::execution::{Executable, State};
use crate::loading::frames::fit_frames;
use crate::loading::limits::{are_entries, hold_few};
use crate::loading::typed_words::are_globals;
use crate::routines::context_of;
use guest_memory::laws::memories_are_of_bytes;
use std::alloc::{AllocError, Global};
use wasm_validate::{BodyChecker, ModuleContext};

/// Whether there is a frame where something is to come.
fn is_called(state: &State) -> bool
    ensures { IsTrue result ↔ (state.now.frames ≡ [] → state.now.later.items ≡ []) }
{
    if !state.frames.is_empty() {
        return true;
    }
    state.later.as_slice().is_empty()
}

/// Whether globals, calls to come and the count of values fit.
fn fits_around(code: &Executable, context: &ModuleContext, state: &State) -> bool
    requires { AreStacked state.now.frames state.now.slots }
    ensures { TellsFit code.now context.now result (λ c program. FitsAround c program state.now) }
{
    if !is_called(state) {
        return false;
    }
    if !are_globals(context.globals(), state.globals.as_slice()) {
        return false;
    }
    if !are_entries(code, context, state.later.as_slice()) {
        return false;
    }
    hold_few(code, context, &state.frames, &state.slots)
}

/// Whether the state shows some configuration of the code's program. Fails only where memory is
/// refused.
pub fn fits_program(alloc: Global, code: &Executable, state: &State) -> Result<bool, AllocError>
    requires stacked { AreStacked state.now.frames state.now.slots }
    requires code { IsSomeCode code.now }
    ensures { (functions : List Signature) (program : Program)
        → IsExecutable code.now functions program
        → state.now.memory.limit ≡ program.most_pages
        → program.least_pages * page_size ≤ length state.now.memory.bytes
        → IfOk result (λ told. IsTrue told
        ↔ FitsProgram (module_context code.now.«module» functions) program
        (machine_state_of (parts_of_state state.now))) }
{
    memories_are_of_bytes(&state.memory);
    let _ = state.frames.len();
    let context = context_of(alloc, code.module.module())?;
    let around = fits_around(code, &context, state);
    if !around {
        return Ok(false);
    }
    let mut checker = BodyChecker::new(alloc);
    fit_frames(code, &context, &mut checker, &state.frames, &state.slots)
}

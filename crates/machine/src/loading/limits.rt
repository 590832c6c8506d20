//! The limits of the stack, and the calls to come.

ghost use Rattle.std.specs.Prelude.{◌≡◌, [], reverse};
ghost use Rattle.std.specs.List.{AllByRecursion};
ghost use Rattle.wasm_rules.specs.Typed.{IsEntry};
ghost use Rattle.machine_frame.specs.laws.Fitting.{FewHeld};
ghost use Rattle.machine_frame.specs.rules.Stacked.{AreStacked};
ghost use Rattle.machine_frame.specs.rules.Threads.{places_of};
ghost use Rattle.machine.specs.Loading.Checks.{TellsFit};

use crate::execution::Executable;
use crate::frames::Frames;
use crate::loading::bodies::own_function;
use machine_slots::Slots;
use machine_slots::limits::HELD_VALUES;
use wasm_validate::ModuleContext;

/// Whether the frames hold few values: the locals of the running one, and all slots of those that
/// wait.
pub fn hold_few(code: &Executable, context: &ModuleContext, frames: &Frames, slots: &Slots) -> bool
    requires { AreStacked frames.now slots.now }
    ensures { TellsFit code.now context.now result
        (λ c program. FewHeld program (places_of frames.now slots.now)) }
{
    if frames.is_empty() {
        return true;
    }
    let top = frames.top();
    let Some(function) = own_function(code, top.function) else {
        return true;
    };
    let Some(function_type) = context.function_type(top.function) else {
        return true;
    };
    let Some(room) = HELD_VALUES.checked_sub(top.base) else {
        return false;
    };
    function_type.parameters.as_slice().len() + function.code.locals.as_slice().len() <= room
}

/// Whether the host may call this function: it is one of the module's own, without parameters.
fn is_entry(code: &Executable, context: &ModuleContext, function: u32) -> bool
    ensures { TellsFit code.now context.now result (λ c program. IsEntry program function) }
{
    let Some(_) = own_function(code, function) else {
        return false;
    };
    let Some(function_type) = context.function_type(function) else {
        return false;
    };
    function_type.parameters.as_slice().is_empty()
}

/// Whether the host may call all of these.
pub fn are_entries(code: &Executable, context: &ModuleContext, later: &[u32]) -> bool
    ensures { TellsFit code.now context.now result
        (λ c program. AllByRecursion (IsEntry program) later.now) }
{
    for function in later {
        if !is_entry(code, context, *function) {
            return false;
        }
    }
    true
}

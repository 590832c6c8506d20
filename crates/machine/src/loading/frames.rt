//! Whether frames fit the program, each with the one above it.

ghost use Rattle.std.specs.Prelude.{◌≡◌, IfOk};
ghost use Rattle.machine_frame.specs.laws.Fitting.{FitFrames};
ghost use Rattle.machine_frame.specs.rules.Stacked.{AreStacked};
ghost use Rattle.machine_frame.specs.rules.Threads.{places_of};
ghost use Rattle.machine.specs.rules.LentFrames.{lent_frame};
ghost use Rattle.machine.specs.Loading.Checks.{CanLookUp, FitsBelow, FitsTop, TellsFit};

use crate::execution::Executable;
use crate::frames::Frames;
use crate::loading::bodies::{has_more, opcode_at, own_function, taken_by};
use crate::loading::typed_words::are_slots;
use crate::shown::{LentFrame, lent_frame_at};
use machine_slots::Slots;
use std::alloc::AllocError;
use wasm_syntax::FunctionType;
use wasm_validate::{BodyChecker, ModuleContext};

/// Whether the running frame fits. Typing reaches its position then, where something is left to
/// execute. Its slots are of the types of its locals and of the operands there.
fn fits_running(
    code: &Executable,
    context: &ModuleContext,
    checker: &mut BodyChecker,
    place: &LentFrame,
) -> Result<bool, AllocError>
    requires { CanLookUp code.now context.now }
    ensures { IfOk result (λ told. TellsFit code.now context.now told
        (λ c program. FitsTop c program (lent_frame place.now))) }
{
    let Some(function) = own_function(code, place.function) else {
        return Ok(false);
    };
    let Some(function_type) = context.function_type(place.function) else {
        return Ok(false);
    };
    let own = &function.code;
    if !has_more(own.body.as_slice(), place.position) {
        return Ok(false);
    }
    let Some(operands) = checker.operand_types(context, function_type, own, place.position)? else {
        return Ok(false);
    };
    let parameters = function_type.parameters.as_slice();
    let locals = own.locals.as_slice();
    Ok(are_slots(parameters, locals, &operands, operands.len(), place.slots))
}

/// Whether a frame fits that waits for a function of this type. Its position is then that of a call
/// of such a function. Its slots are of the types of its locals and of the operands that the call
/// leaves.
fn fits_waiting(
    code: &Executable,
    context: &ModuleContext,
    checker: &mut BodyChecker,
    place: &LentFrame,
    above: &FunctionType,
) -> Result<bool, AllocError>
    requires { CanLookUp code.now context.now }
    ensures { IfOk result (λ told. TellsFit code.now context.now told
        (λ c program. FitsBelow c program above.now (lent_frame place.now))) }
{
    let Some(function) = own_function(code, place.function) else {
        return Ok(false);
    };
    let Some(function_type) = context.function_type(place.function) else {
        return Ok(false);
    };
    let own = &function.code;
    let Some(instruction) = opcode_at(own.body.as_slice(), place.position) else {
        return Ok(false);
    };
    let Some(taken) = taken_by(context, instruction, above) else {
        return Ok(false);
    };
    let Some(types) = checker.operand_types(context, function_type, own, place.position)? else {
        return Ok(false);
    };
    let Some(count_left) = types.len().checked_sub(taken) else {
        return Ok(false);
    };
    let parameters = function_type.parameters.as_slice();
    Ok(are_slots(
        parameters,
        own.locals.as_slice(),
        &types,
        count_left,
        place.slots,
    ))
}

/// Whether all frames fit, from the running one out.
pub fn fit_frames(
    code: &Executable,
    context: &ModuleContext,
    checker: &mut BodyChecker,
    frames: &Frames,
    slots: &Slots,
) -> Result<bool, AllocError>
    requires stacked { AreStacked frames.now slots.now }
    requires code { CanLookUp code.now context.now }
    ensures { IfOk result (λ told. TellsFit code.now context.now told
        (λ c program. FitFrames c program (places_of frames.now slots.now))) }
{
    let count = frames.len();
    if count == 0 {
        return Ok(true);
    }
    let top = lent_frame_at(frames, slots, count - 1);
    let runs = fits_running(code, context, checker, &top)?;
    if !runs {
        return Ok(false);
    }
    let mut above = top.function;
    for number in 1..count {
        let Some(called) = context.function_type(above) else {
            return Ok(false);
        };
        let place = lent_frame_at(frames, slots, count - 1 - number);
        let waits = fits_waiting(code, context, checker, &place, called)?;
        if !waits {
            return Ok(false);
        }
        above = place.function;
    }
    Ok(true)
}

//! The bodies of all functions (section 3.4.1).

ghost use Rattle.std.specs.List.{AllByRecursion};
ghost use Rattle.wasm_rules.specs.Validity.{IsFunctionValid};
ghost use Rattle.wasm_validate.specs.Bodies.{FaultIn, JudgesIn};
ghost use Rattle.wasm_validate.specs.Parts.Parts.{IsFaultInFunctions, IsFaultOfFunction};

use crate::body::BodyChecker;
use crate::parts::{ModuleContext, ValidFault};
use std::alloc::Global;
use wasm_syntax::Function;

/// One function: `Index` where its type doesn't exist, `Limits` where it gives two values, and else
/// the first fault of its body.
fn check_function(
    checker: &mut BodyChecker,
    context: &ModuleContext,
    function: &Function,
) -> Result<(), ValidFault>
    ensures valid { JudgesIn context.now result
        (λ m functions. IsFunctionValid m functions function.now) }
    ensures fault { FaultIn context.now result
        (λ m functions. IsFaultOfFunction m functions function.now) }
{
    let Some(function_type) = context.type_at(function.function_type) else {
        return Err(ValidFault::Index);
    };
    if function_type.results.len() > 1 {
        return Err(ValidFault::Limits);
    }
    checker.check(context, function_type, &function.code)
}

/// The functions of a module whose types are valid, in their order. All bodies are checked over the
/// same memory.
pub fn check_functions(
    alloc: Global,
    context: &ModuleContext,
    own: &[Function],
) -> Result<(), ValidFault>
    ensures valid { JudgesIn context.now result
        (λ m functions. AllByRecursion (IsFunctionValid m functions) own.now) }
    ensures fault { FaultIn context.now result
        (λ m functions. IsFaultInFunctions m functions own.now) }
{
    let mut checker = BodyChecker::new(alloc);
    for function in own {
        check_function(&mut checker, context, function)?;
    }
    Ok(())
}

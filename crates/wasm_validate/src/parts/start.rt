//! The start function (section 3.4.7).

ghost use Rattle.std.specs.Prelude.{IfSome};
ghost use Rattle.wasm_rules.specs.Typing.{Context as Typing};
ghost use Rattle.wasm_rules.specs.Validity.{IsIndex, IsStartValid};
ghost use Rattle.wasm_validate.specs.rules.Answers.{DemandsInTurn};
ghost use Rattle.wasm_validate.specs.Parts.Contexts.{IsContextOf};

use crate::parts::context::ModuleContext;
use crate::parts::fault::ValidFault;

/// The start function, if there is one, takes and gives nothing. `Index` where there is no such
/// function, `Typing` where it takes or gives something.
pub fn check_start(context: &ModuleContext, start: Option<u32>) -> Result<(), ValidFault>
    ensures { (c : Typing) → IsContextOf c context.now
        → DemandsInTurn result ValidFault.Index (IfSome start (IsIndex c.functions))
        ValidFault.Typing (IsStartValid c.functions start) }
{
    let Some(x) = start else {
        return Ok(());
    };
    let Some(function_type) = context.function_type(x) else {
        return Err(ValidFault::Index);
    };
    if function_type.parameters.is_empty() && function_type.results.is_empty() {
        Ok(())
    } else {
        Err(ValidFault::Typing)
    }
}

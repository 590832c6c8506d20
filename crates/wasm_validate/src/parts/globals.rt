//! Globals (section 3.4.4).

ghost use Rattle.std.specs.Prelude.{IfErr};
ghost use Rattle.std.specs.List.{AllByRecursion};
ghost use Rattle.wasm_rules.specs.Types.{imported_globals};
ghost use Rattle.wasm_rules.specs.Validity.{IsConstant, IsGlobalValid};
ghost use Rattle.wasm_validate.specs.rules.Answers.{Decides};
ghost use Rattle.wasm_validate.specs.Parts.Contexts.{HasFunctionTypes, IsContextOfModule};
ghost use Rattle.wasm_validate.specs.Parts.Parts.{IsFaultInGlobals};

use crate::parts::constants::check_constant;
use crate::parts::context::ModuleContext;
use crate::parts::counts::imported_global_count;
use crate::parts::fault::ValidFault;
use wasm_syntax::{Global, GlobalType, Module};

/// Each global begins with a constant of its type, in which these may be, and no others.
fn check_initial_values(imported: &[GlobalType], globals: &[Global]) -> Result<(), ValidFault>
    ensures valid { Decides result (AllByRecursion
        (λ g. IsConstant imported.now g.initial g.global_type.value_type) globals.now) }
    ensures fault { IfErr result (IsFaultInGlobals imported.now globals.now) }
{
    for global in globals {
        let value_type = global.global_type.value_type;
        check_constant(imported, global.initial.as_slice(), value_type)?;
    }
    Ok(())
}

/// Each global begins with a constant of its type, in which imported globals may be. `Index`
/// where it begins with a global that isn't imported, `Typing` otherwise.
pub fn check_globals(module: &Module, context: &ModuleContext) -> Result<(), ValidFault>
    requires types { HasFunctionTypes «module».now }
    requires context { IsContextOfModule «module».now context.now }
    ensures valid { Decides result
        (AllByRecursion (IsGlobalValid «module».now) «module».now.globals) }
    ensures fault { IfErr result
        (IsFaultInGlobals (imported_globals «module».now.imports) «module».now.globals) }
{
    let count = imported_global_count(module.imports.as_slice());
    let imported = &context.globals()[..count];
    check_initial_values(imported, module.globals.as_slice())
}

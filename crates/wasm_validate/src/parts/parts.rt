//! The checks of a whole module but the bodies (section 3.4.10), in this order: types, imports,
//! functions, tables, memories, globals, exports, the start function, element segments, data
//! segments.
//!
//! Types and imports have a pass of their own before the types of functions are looked up, for the
//! sake of that order. The clause of this pass (`IsFirstTypeFault`) names its first fault. Of the
//! others tests show the order.

ghost use Rattle.std.specs.Prelude.{List, IfErr, OnOk};
ghost use Rattle.std.specs.List.{AllByRecursion};
ghost use Rattle.wasm_syntax.specs.declared.types.FunctionType.{FunctionType as Signature};
ghost use Rattle.wasm_rules.specs.Validity.{AreFunctionTypes, IsFunctionTypeValid, IsValid};
ghost use Rattle.wasm_validate.specs.rules.Answers.{Decides, Denies, Judges};
ghost use Rattle.wasm_validate.specs.rules.Faults.{HasFault};
ghost use Rattle.wasm_validate.specs.Parts.Contexts.{HasFunctionTypes, IsContextOfModule};
ghost use Rattle.wasm_validate.specs.Parts.Parts.{AreTypesValid, IsFirstTypeFault};
ghost use Rattle.wasm_validate.specs.Parts.Parts.{IsValidBeforeData, AreDataValid};
ghost use Rattle.wasm_validate.specs.Parts.Parts.{WasValidBeforeData};

use crate::parts::context::ModuleContext;
use crate::parts::exports::check_exports;
use crate::parts::fault::ValidFault;
use crate::parts::globals::check_globals;
use crate::parts::imports::check_imports;
use crate::parts::limits::{check_function_types, check_memories, check_tables};
use crate::parts::segments::{check_data_segments, check_elements};
use crate::parts::start::check_start;
use std::alloc::Global;
use wasm_syntax::Module;

/// Types, and then imports, each from the front. `Limits` for a type with two results, and else the
/// fault of the first import that isn't valid.
pub fn check_types(module: &Module) -> Result<(), ValidFault>
    ensures valid { OnOk result (AreTypesValid «module».now) }
    ensures refused { IfErr result (IsFirstTypeFault «module».now) }
    ensures only { IfErr result (λ e. Denies e (IsValid «module».now)) }
    ensures fault { IfErr result (HasFault «module».now) }
{
    let types = module.types.as_slice();
    check_function_types(types)?;
    check_imports(types, module.imports.as_slice())
}

/// What is checked before data segments: tables, memories, globals, exports, the start function and
/// element segments. The context is the module's own. It takes time in proportion to the module,
/// but for the names of exports, whose bytes take n log n. It takes memory for as many slices as
/// there are exports.
pub fn check_before_data(
    alloc: Global,
    module: &Module,
    context: &ModuleContext,
) -> Result<(), ValidFault>
    requires sound { AllByRecursion IsFunctionTypeValid «module».now.types }
    requires types { HasFunctionTypes «module».now }
    requires context { IsContextOfModule «module».now context.now }
    ensures valid { (functions : List Signature) → AreFunctionTypes «module».now functions
        → Judges result (IsValidBeforeData «module».now functions) }
    ensures fault { IfErr result (HasFault «module».now) }
{
    check_tables(module)?;
    check_memories(module)?;
    check_globals(module, context)?;
    check_exports(alloc, context, module.exports.as_slice())?;
    check_start(context, module.start)?;
    check_elements(context, module.elements.as_slice())
}

/// Data segments. The context is the module's own, and what is checked before them is valid.
pub fn check_data(module: &Module, context: &ModuleContext) -> Result<(), ValidFault>
    requires before { WasValidBeforeData «module».now }
    requires context { IsContextOfModule «module».now context.now }
    ensures valid { Decides result (AreDataValid «module».now) }
    ensures fault { IfErr result (HasFault «module».now) }
{
    check_data_segments(context, module.data_segments.as_slice())
}

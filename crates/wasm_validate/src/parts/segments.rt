//! Element and data segments (sections 3.4.5 and 3.4.6).

ghost use Rattle.std.specs.Prelude.{List, IfErr};
ghost use Rattle.std.specs.List.{AllByRecursion};
ghost use Rattle.wasm_syntax.specs.declared.module.Module.{Module as TheModule};
ghost use Rattle.wasm_syntax.specs.declared.types.FunctionType.{FunctionType as Signature};
ghost use Rattle.wasm_rules.specs.Validity.{IsElementValid, IsDataValid};
ghost use Rattle.wasm_validate.specs.rules.Answers.{Decides};
ghost use Rattle.wasm_validate.specs.Parts.Parts.{IsFaultInData, IsFaultInElements, IsFaultOfData};
ghost use Rattle.wasm_validate.specs.Parts.Parts.{IsFaultOfElement, IsModuleContext};

use crate::parts::constants::check_constant;
use crate::parts::context::ModuleContext;
use crate::parts::fault::ValidFault;
use crate::parts::indices::{are_below, is_memory, is_table};
use guest_memory::laws::are_bytes;
use wasm_syntax::{Data, Element, ValueType};

/// `Index` where there is no such table, then `check_constant`'s faults of the offset, then `Index`
/// where there is no such function.
fn check_element(context: &ModuleContext, element: &Element) -> Result<(), ValidFault>
    ensures valid { (m : TheModule) (functions : List Signature)
        → IsModuleContext m functions context.now
        → Decides result (IsElementValid m functions element.now) }
    ensures fault { (m : TheModule) (functions : List Signature)
        → IsModuleContext m functions context.now
        → IfErr result (IsFaultOfElement m functions element.now) }
{
    if !is_table(context, element.table) {
        return Err(ValidFault::Index);
    }
    check_constant(context.globals(), element.offset.as_slice(), ValueType::I32)?;
    if are_below(element.functions.as_slice(), context.function_count()) {
        Ok(())
    } else {
        Err(ValidFault::Index)
    }
}

/// `Index` where there is no such memory, then `check_constant`'s faults of the offset.
fn check_data_segment(context: &ModuleContext, segment: &Data) -> Result<(), ValidFault>
    ensures valid { (m : TheModule) (functions : List Signature)
        → IsModuleContext m functions context.now → Decides result (IsDataValid m segment.now) }
    ensures fault { (m : TheModule) (functions : List Signature)
        → IsModuleContext m functions context.now → IfErr result (IsFaultOfData m segment.now) }
{
    if !is_memory(context, segment.memory) {
        return Err(ValidFault::Index);
    }
    are_bytes(segment.bytes.as_slice());
    check_constant(context.globals(), segment.offset.as_slice(), ValueType::I32)
}

/// Each element segment goes to a table, from a constant offset on, and names functions that exist.
pub fn check_elements(context: &ModuleContext, elements: &[Element]) -> Result<(), ValidFault>
    ensures valid { (m : TheModule) (functions : List Signature)
        → IsModuleContext m functions context.now
        → Decides result (AllByRecursion (IsElementValid m functions) elements.now) }
    ensures fault { (m : TheModule) (functions : List Signature)
        → IsModuleContext m functions context.now
        → IfErr result (IsFaultInElements m functions elements.now) }
{
    for element in elements {
        check_element(context, element)?;
    }
    Ok(())
}

/// Each data segment goes to a memory, from a constant offset on.
pub fn check_data_segments(context: &ModuleContext, segments: &[Data]) -> Result<(), ValidFault>
    ensures valid { (m : TheModule) (functions : List Signature)
        → IsModuleContext m functions context.now
        → Decides result (AllByRecursion (IsDataValid m) segments.now) }
    ensures fault { (m : TheModule) (functions : List Signature)
        → IsModuleContext m functions context.now → IfErr result (IsFaultInData m segments.now) }
{
    for segment in segments {
        check_data_segment(context, segment)?;
    }
    Ok(())
}

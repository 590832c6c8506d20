//! Exports (sections 3.4.8 and 3.4.10).
//!
//! Names go through a set in order, n log n in their bytes. A hash with a fixed seed would let a
//! hostile module make it slow.

ghost use Rattle.std.specs.Prelude.{◌↔◌, IsTrue, List};
ghost use Rattle.std.specs.List.{AllByRecursion};
ghost use Rattle.wasm_syntax.specs.declared.module.Module.{Module as TheModule};
ghost use Rattle.wasm_syntax.specs.declared.types.FunctionType.{FunctionType as Signature};
ghost use Rattle.wasm_rules.specs.Validity.{IsExportItemValid, HaveDistinctNames};
ghost use Rattle.wasm_validate.specs.rules.Answers.{JudgesExports};
ghost use Rattle.wasm_validate.specs.Parts.Parts.{IsModuleContext};

use crate::parts::context::ModuleContext;
use crate::parts::fault::ValidFault;
use crate::parts::indices::{is_function, is_global, is_memory, is_table};
use std::alloc::Global;
use std::collections::BTreeSet;
use wasm_syntax::{Export, ExportItem};

/// Whether there is what is exported.
fn exists(context: &ModuleContext, item: ExportItem) -> bool
    ensures { (m : TheModule) (functions : List Signature) → IsModuleContext m functions context.now
        → IsTrue result ↔ IsExportItemValid m functions item }
{
    match item {
        ExportItem::Function(x) => is_function(context, x),
        ExportItem::Table(x) => is_table(context, x),
        ExportItem::Memory(x) => is_memory(context, x),
        ExportItem::Global(x) => is_global(context, x),
    }
}

/// Each export names something, and no two have one name. For each in turn, `Index` where there is
/// nothing that it names, and then `DuplicateExport` where its name came before. It takes n log n
/// time in the bytes of the names.
pub fn check_exports(
    alloc: Global,
    context: &ModuleContext,
    exports: &[Export],
) -> Result<(), ValidFault>
    ensures { (m : TheModule) (functions : List Signature) → IsModuleContext m functions context.now
        → JudgesExports result
        (AllByRecursion (λ e. IsExportItemValid m functions e.item) exports.now)
        (HaveDistinctNames exports.now) }
{
    let mut names = BTreeSet::new(alloc);
    for export in exports {
        if !exists(context, export.item) {
            return Err(ValidFault::Index);
        }
        let is_new = names.insert(export.name.as_slice())?;
        if !is_new {
            return Err(ValidFault::DuplicateExport);
        }
    }
    Ok(())
}

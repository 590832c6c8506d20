//! What a host needs of a module's exports: a function to begin with, and the memory.

ghost use Rattle.std.specs.Prelude.{◌≡◌, ◌≢◌, ◌↔◌, ◌++◌, ℕ, List, IsTrue, IfSome, IfNone, Some};
ghost use Rattle.std.specs.Prelude.{slice_get, option_copied, map};
ghost use Rattle.wasm_syntax.specs.declared.types.FunctionType.{FunctionType as Signature};
ghost use Rattle.wasm_syntax.specs.declared.module.ExportItem.{ExportItem as Item};
ghost use Rattle.wasm_syntax.specs.rules.Modules.{function_type_of};
ghost use Rattle.wasm_rules.specs.Validity.{AreFunctionTypes, HaveDistinctNames, IsValid};
ghost use Rattle.wasm_rules.specs.Types.{imported_functions};
ghost use Rattle.wasm_rules.specs.Linking.{Exports, HasEntry, HasExportedMemory};

use wasm_syntax::{Export, ExportItem, FunctionType, ImportItem, Module};

/// What the first export with this name is.
fn find_export(exports: &[Export], name: &[u8]) -> Option<ExportItem>
    ensures there { IfSome result (Exports exports.now name.now) }
    ensures only { HaveDistinctNames exports.now → (item : Item) → Exports exports.now name.now item
        → result ≡ Some item }
{
    for export in exports {
        if export.name.as_slice() == name {
            return Some(export.item);
        }
    }
    None
}

/// The index of a function's type. Imported functions come first.
fn function_type_index(module: &Module, function: u32) -> Option<u32>
    ensures { result ≡ slice_get (imported_functions module.now.imports
        ++ map function_type_of module.now.functions) function }
{
    let mut index_left = function;
    for import in module.imports.as_slice() {
        if let ImportItem::Function(index) = import.item {
            if index_left == 0 {
                return Some(index);
            }
            index_left -= 1;
        }
    }
    let own = module.functions.get(index_left as usize)?;
    Some(own.function_type)
}

/// The type of a function.
fn function_type(module: &Module, function: u32) -> Option<&FunctionType>
    ensures { (functions : List Signature) → AreFunctionTypes module.now functions
        → option_copied result ≡ slice_get functions function }
{
    let index = function_type_index(module, function)?;
    module.types.get(index as usize)
}

/// The function that is exported as `_start`, if it is one without parameters and results.
pub fn entry_of(module: &Module) -> Option<u32>
    requires { IsValid module.now }
    ensures found { IfSome result (HasEntry module.now) }
    ensures none { IfNone result ((entry : ℕ) → HasEntry module.now entry → ⊥) }
{
    let ExportItem::Function(entry) = find_export(module.exports.as_slice(), b"_start")? else {
        return None;
    };
    let function_type = function_type(module, entry)?;
    if function_type.parameters.is_empty() && function_type.results.is_empty() {
        Some(entry)
    } else {
        None
    }
}

/// Whether a memory is exported as `memory`.
pub fn exports_memory(module: &Module) -> bool
    requires { IsValid module.now }
    ensures { IsTrue result ↔ HasExportedMemory module.now }
{
    match find_export(module.exports.as_slice(), b"memory") {
        Some(ExportItem::Memory(_)) => true,
        _ => false,
    }
}

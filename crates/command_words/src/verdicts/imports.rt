//! The import for which a module isn't accepted.

ghost use Rattle.std.specs.Prelude.{◌≡◌, ◌↔◌, IfSome, IsTrue, slice_get};
ghost use Rattle.wasi_abi.specs.rules.Calls.{call_type_of};
ghost use Rattle.machine.specs.rules.Offers.{imported_call};
ghost use Rattle.command_words.specs.rules.Verdicts.{IsFirstRefused, IsImportOffered};

use wasi_abi::{Call, MODULE_NAME};
use wasm_syntax::{FunctionType, Import, ImportItem, Module};

/// The call that an import names, if there is one.
pub(super) fn call_of(import: &Import) -> Option<Call>
    ensures { result ≡ imported_call import.now }
{
    if import.module_name.as_slice() != MODULE_NAME.as_bytes() {
        return None;
    }
    let name = import.name.as_slice();
    for call in Call::ALL {
        if call.name().as_bytes() == name {
            return Some(call);
        }
    }
    None
}

/// Whether the function has the type of the call.
fn has_type(function_type: &FunctionType, call: Call) -> bool
    ensures { IsTrue result ↔ (function_type.now ≡ call_type_of call) }
{
    function_type.parameters.as_slice() == call.parameters()
        && function_type.results.as_slice() == call.results()
}

/// Whether an import is a function with the type of the call that it names.
pub(super) fn is_offered(types: &[FunctionType], import: &Import) -> bool
    ensures { IsTrue result ↔ IsImportOffered types.now import.now }
{
    let Some(call) = call_of(import) else {
        return false;
    };
    let ImportItem::Function(index) = import.item else {
        return false;
    };
    match types.get(index as usize) {
        Some(function_type) => has_type(function_type, call),
        None => false,
    }
}

/// The first import that isn't offered, if there is one.
pub(crate) fn first_refused(module: &Module) -> Option<&Import>
    ensures { IfSome result (λ i. IsFirstRefused module.now i.now) }
{
    let types = module.types.as_slice();
    for import in module.imports.as_slice() {
        if !is_offered(types, import) {
            return Some(import);
        }
    }
    None
}

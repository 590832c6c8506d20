//! The calls that the host offers, and those that a module imports.

ghost use Rattle.std.specs.Prelude.{◌≡◌, ◌↔◌, IfOk, IfErr, OnOk, IsTrue, List};
ghost use Rattle.std.specs.List.{AllByRecursion};
ghost use Rattle.wasm_syntax.specs.declared.types.FunctionType.{FunctionType as Signature};
ghost use Rattle.wasi_abi.specs.rules.Calls.{call_type_of};
ghost use Rattle.wasm_rules.specs.Linking.{IsOffered};
ghost use Rattle.machine.specs.rules.Offers.{offer, offered_call, imported_call, AreImportedCalls};
ghost use Rattle.machine.specs.rules.Refusals.{IsImportRefused, AreImportsRefused};

use crate::instance::fault::LinkFault;
use crate::instance::items::at;
use std::alloc::{AllocError, Global};
use wasi_abi::{Call, MODULE_NAME};
use wasm_syntax::{FunctionType, Import, ImportItem};

/// The call that the host offers to an import.
fn call_of(import: &Import) -> Option<Call>
    ensures { result ≡ imported_call import.now }
{
    if import.module_name.as_slice() != MODULE_NAME.as_bytes() {
        return None;
    }
    let name = import.name.as_slice();
    for call in Call::ALL {
        if call.name().as_bytes() == name {
            return Some(call);
        }
    }
    None
}

/// Whether the function has the type of the call.
fn has_type(function_type: &FunctionType, call: Call) -> bool
    ensures { IsTrue result ↔ (function_type.now ≡ call_type_of call) }
{
    function_type.parameters.as_slice() == call.parameters()
        && function_type.results.as_slice() == call.results()
}

/// The host offers what is imported. `UnknownImport` where it offers nothing under this name, and
/// `ImportType` where what is imported isn't a function of the call's type.
fn check_import(types: &[FunctionType], import: &Import) -> Result<(), LinkFault>
    ensures offered { OnOk result (IsOffered offer types.now import.now) }
    ensures refused { IfErr result (IsImportRefused types.now import.now) }
{
    let Some(call) = call_of(import) else {
        return Err(LinkFault::UnknownImport);
    };
    let ImportItem::Function(index) = import.item else {
        return Err(LinkFault::ImportType);
    };
    match at(types, index) {
        Some(function_type) if has_type(function_type, call) => Ok(()),
        _ => Err(LinkFault::ImportType),
    }
}

/// The host offers every import, and otherwise the fault of the first that it doesn't offer.
pub fn check_imports(types: &[FunctionType], imports: &[Import]) -> Result<(), LinkFault>
    ensures offered { OnOk result (AllByRecursion (IsOffered offer types.now) imports.now) }
    ensures refused { IfErr result (AreImportsRefused types.now imports.now) }
{
    for import in imports {
        check_import(types, import)?;
    }
    Ok(())
}

/// The calls that the imports name, in their order, where the host offers all of them.
pub fn imported_calls(alloc: Global, imports: &[Import]) -> Result<Vec<Call>, AllocError>
    requires { (types : List Signature) × AllByRecursion (IsOffered offer types) imports.now }
    ensures { IfOk result (λ calls. AreImportedCalls imports.now calls.items) }
{
    let mut calls = Vec::with_capacity(alloc, imports.len())?;
    for import in imports {
        calls.push(call_of(import).unwrap())?;
    }
    Ok(calls)
}

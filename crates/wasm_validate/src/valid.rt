//! Valid modules.

ghost use Rattle.std.specs.Prelude.{◌≡◌, IfOk, IfErr, OnOk};
ghost use Rattle.wasm_syntax.specs.rules.Limits.{IsLimited};
ghost use Rattle.wasm_rules.specs.Validity.{IsValid};
ghost use Rattle.wasm_validate.specs.rules.Answers.{Denies, Judges};
ghost use Rattle.wasm_validate.specs.rules.Faults.{HasFault};

use crate::bodies::check_functions;
use crate::parts::{ModuleContext, ValidFault, check_before_data, check_data, check_types};
use std::alloc::Global;
use std::marker::Model;
use wasm_syntax::{LimitedModule, Module};

/// A module that is valid, and whose types and bodies are within the limits, by its type. Contracts
/// see the module.
#[derive(Debug, Drop)]
pub struct ValidModule {
    module: LimitedModule,
}

impl Model for ValidModule {
    ghost use Rattle.wasm_syntax.specs.declared.module.Module.{Module as TheModule};
    ghost use Rattle.wasm_rules.specs.Validity.{IsValid};

    ghost Value = { TheModule };

    ghost view = { λ a. a.module };

    ghost invariant = { λ a. IsValid a.module };
}

impl ValidModule {
    /// The module itself.
    pub fn module(&self) -> &Module
        ensures same { result.now ≡ self.now }
        ensures valid { IsValid result.now }
        ensures limited { IsLimited result.now }
    {
        self.module.module()
    }
}

/// The first fault, in this order: types, imports, functions' types, tables, memories, globals,
/// exports, the start function, element segments, data segments, bodies.
fn check(alloc: Global, module: &Module) -> Result<(), ValidFault>
    ensures valid { Judges result (IsValid «module».now) }
    ensures fault { IfErr result (HasFault «module».now) }
{
    check_types(module)?;
    let context = ModuleContext::of(alloc, module)?;
    check_before_data(alloc, module, &context)?;
    check_data(module, &context)?;
    check_functions(alloc, &context, module.functions.as_slice())
}

/// Decides whether a module is valid, whose types and bodies are within the limits. A fault other
/// than `Memory` says that it is not, and is the first one. Types, imports, functions' types,
/// tables, memories, globals, exports, the start function, element segments and data segments come
/// before bodies. Each is checked from the front. It takes time in proportion to the module, but
/// for the names of exports, whose bytes take n log n. Each call in a body takes time in proportion
/// to its parameters. Memory is taken in proportion to the functions, globals, exports and the
/// longest body.
pub fn validate(alloc: Global, module: LimitedModule) -> Result<ValidModule, ValidFault>
    ensures same { IfOk result (λ v. v ≡ «module») }
    ensures valid { OnOk result (IsValid «module») }
    ensures only { IfErr result (λ e. Denies e (IsValid «module»)) }
    ensures fault { IfErr result (HasFault «module») }
{
    check(alloc, module.module())?;
    Ok(ValidModule { module })
}

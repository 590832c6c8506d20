//! Modules whose types and bodies are within the limits.

ghost use Rattle.std.specs.Prelude.{◌≡◌, ◌↔◌, IsTrue, IsSome, IfSome};
ghost use Rattle.std.specs.List.{AllByRecursion};
ghost use Rattle.wasm_syntax.specs.rules.Limits.{HasFewParameters, IsLimited, IsSmallFunction};

use crate::limits::{INSTRUCTIONS, LOCALS, PARAMETERS};
use crate::module::{Function, Module};
use crate::types::FunctionType;
use std::marker::Model;

/// A module whose types and bodies are within the limits, by its type. Contracts see the module.
#[derive(Debug, Drop)]
pub struct LimitedModule {
    module: Module,
}

impl Model for LimitedModule {
    ghost use Rattle.wasm_syntax.specs.declared.module.Module.{Module as TheModule};
    ghost use Rattle.wasm_syntax.specs.rules.Limits.{IsLimited};

    ghost Value = { TheModule };

    ghost view = { λ a. a.module };

    ghost invariant = { λ a. IsLimited a.module };
}

/// Whether each type has few parameters.
fn have_few_parameters(types: &[FunctionType]) -> bool
    ensures { IsTrue result ↔ AllByRecursion HasFewParameters types.now }
{
    for signature in types {
        if signature.parameters.len() > PARAMETERS {
            return false;
        }
    }
    true
}

/// Whether each function has few locals and a short body.
fn are_small(functions: &[Function]) -> bool
    ensures { IsTrue result ↔ AllByRecursion IsSmallFunction functions.now }
{
    for function in functions {
        if function.code.locals.len() > LOCALS {
            return false;
        }
        if function.code.body.len() > INSTRUCTIONS {
            return false;
        }
    }
    true
}

impl LimitedModule {
    /// The module, where its types and bodies are within the limits, and else nothing. Takes time
    /// in proportion to the types and functions, and no memory.
    pub fn of(module: Module) -> Option<LimitedModule>
        ensures same { IfSome result (λ m. m ≡ «module») }
        ensures exact { IsSome result ↔ IsLimited «module» }
    {
        if !have_few_parameters(module.types.as_slice()) {
            return None;
        }
        if !are_small(module.functions.as_slice()) {
            return None;
        }
        Some(LimitedModule { module })
    }

    /// The module itself.
    pub fn module(&self) -> &Module
        ensures same { result.now ≡ self.now }
        ensures limited { IsLimited result.now }
    {
        &self.module
    }

    /// The module itself, which may be changed then.
    pub fn into_module(self) -> Module
        ensures same { result ≡ self }
        ensures limited { IsLimited result }
    {
        let LimitedModule { module } = self;
        module
    }
}

//! What globals begin with.

ghost use Rattle.std.specs.Prelude.{IfOk, List};
ghost use Rattle.wasm_syntax.specs.declared.value.Value.{Value as Number};
ghost use Rattle.wasm_rules.specs.Instantiation.{AreInitial};

use crate::instance::constants::initial_value;
use std::alloc::{AllocError, Global};
use wasm_syntax::{Global as ModuleGlobal, Value};

/// The globals' initial values, in their order.
pub fn initial_globals(alloc: Global, globals: &[ModuleGlobal]) -> Result<Vec<Value>, AllocError>
    requires { (values : List Number) × AreInitial globals.now values }
    ensures { IfOk result (λ values. AreInitial globals.now values.items) }
{
    let mut values = Vec::with_capacity(alloc, globals.len())?;
    for global in globals {
        values.push(initial_value(global.initial.as_slice()).unwrap())?;
    }
    Ok(values)
}

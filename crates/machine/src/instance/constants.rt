//! Constant expressions of a module that imports no globals (section 4.5.4).

ghost use Rattle.std.specs.Prelude.{◌≡◌, [], List, slice_get};
ghost use Rattle.wasm_syntax.specs.declared.value.Value.{Value as Number};
ghost use Rattle.wasm_rules.specs.Instantiation.{AreInitial, constant_of, offset_of};

use crate::instance::items::at;
use wasm_syntax::{Global, Instruction, Value};

/// The value of a constant expression, in which no globals are.
pub fn initial_value(expression: &[Instruction]) -> Option<Value>
    ensures { result ≡ constant_of [] expression.now }
{
    match expression.first() {
        Some(Instruction::Const { value }) => Some(*value),
        _ => None,
    }
}

/// The value that a global begins with.
fn global_value(globals: &[Global], x: u32) -> Option<Value>
    ensures { (values : List Number) → AreInitial globals.now values → result ≡ slice_get values x }
{
    let global = at(globals, x)?;
    initial_value(global.initial.as_slice())
}

/// The value of a constant expression, in which these globals may be.
fn constant(globals: &[Global], expression: &[Instruction]) -> Option<Value>
    ensures { (values : List Number) → AreInitial globals.now values
        → result ≡ constant_of values expression.now }
{
    match expression.first() {
        Some(Instruction::Const { value }) => Some(*value),
        Some(Instruction::GlobalGet { global }) => global_value(globals, *global),
        _ => None,
    }
}

/// Where a segment begins.
pub fn offset(globals: &[Global], expression: &[Instruction]) -> Option<u32>
    ensures { (values : List Number) → AreInitial globals.now values
        → result ≡ offset_of values expression.now }
{
    match constant(globals, expression) {
        Some(Value::I32(from)) => Some(from),
        _ => None,
    }
}

//! Parts of code and state.

ghost use Rattle.std.specs.Prelude.{◌≡◌, IfOk, map, reverse};
ghost use Rattle.wasm_rules.specs.Types.{number_in};
ghost use Rattle.wasm_rules.specs.Instantiation.{calls_of};

use std::alloc::{AllocError, Global};
use wasm_syntax::Value;

/// The number of a value.
fn word_of(value: Value) -> u64
    ensures { result ≡ number_in value }
{
    match value {
        Value::I32(number) => u64::from(number),
        Value::I64(number) => number,
    }
}

/// The numbers of values.
pub fn words_of(alloc: Global, values: &[Value]) -> Result<Vec<u64>, AllocError>
    ensures { IfOk result (λ v. v.items ≡ map number_in values.now) }
{
    let mut words = Vec::with_capacity(alloc, values.len())?;
    for value in values {
        words.push(word_of(*value))?;
    }
    Ok(words)
}

/// What the host calls, the first one last.
pub fn first_calls(alloc: Global, start: Option<u32>, entry: u32) -> Result<Vec<u32>, AllocError>
    ensures { IfOk result (λ v. v.items ≡ reverse (calls_of start entry)) }
{
    let mut calls = vec![in alloc; entry]?;
    if let Some(function) = start {
        calls.push(function)?;
    }
    Ok(calls)
}

//! Whether words are numbers of values of their types.

ghost use Rattle.std.specs.Prelude.{◌≡◌, ◌≤◌, ◌↔◌, ◌++◌, List, IsTrue, MatchOption, length, map};
ghost use Rattle.std.specs.Prelude.{slice_get, take};
ghost use Rattle.wasm_syntax.specs.declared.types.ValueType.{ValueType as TheValueType};
ghost use Rattle.wasm_rules.specs.Types.{IsOf, value_of, value_type_of};
ghost use Rattle.machine_frame.specs.laws.Fitting.{AreWordsOf};

use wasm_syntax::{GlobalType, ValueType};
use wasm_validate::OperandTypes;

/// Whether a word is the number of a value of this type: an i32 has zeros above.
fn is_of(value_type: ValueType, word: u64) -> bool
    ensures { IsTrue result ↔ IsOf value_type (value_of value_type word) }
{
    match value_type {
        ValueType::I32 => word <= u64::from(u32::MAX),
        ValueType::I64 => true,
    }
}

/// Whether words are of these types, one by one.
fn are_of(types: &[ValueType], words: &[u64]) -> bool
    ensures { IsTrue result ↔ AreWordsOf types.now words.now }
{
    if types.len() != words.len() {
        return false;
    }
    for place in 0..types.len() {
        if !is_of(types[place], words[place]) {
            return false;
        }
    }
    true
}

/// The type of the global with this number, if there is one.
fn global_at(types: &[GlobalType], place: usize) -> Option<GlobalType>
    ensures { result ≡ slice_get types.now place }
{
    types.get(place).copied()
}

/// Whether words are of the types of these globals, one by one.
pub fn are_globals(types: &[GlobalType], words: &[u64]) -> bool
    ensures { IsTrue result ↔ AreWordsOf (map value_type_of types.now) words.now }
{
    if types.len() != words.len() {
        return false;
    }
    for place in 0..types.len() {
        let Some(global_type) = global_at(types, place) else {
            return false;
        };
        if !is_of(global_type.value_type, words[place]) {
            return false;
        }
    }
    true
}

/// Whether words are of the types of the first so many operands, one by one.
fn are_operands(types: &OperandTypes, count: usize, words: &[u64]) -> bool
    requires { count ≤ length types.now }
    ensures { IsTrue result ↔ AreWordsOf (take count types.now) words.now }
{
    if count != words.len() {
        return false;
    }
    for place in 0..count {
        let Some(value_type) = types.get(place) else {
            return false;
        };
        if !is_of(value_type, words[place]) {
            return false;
        }
    }
    true
}

/// The words after those of these types, if the first ones are of these types, one by one.
fn words_behind<'a>(types: &[ValueType], words: &'a [u64]) -> Option<&'a [u64]>
    ensures { (others : List TheValueType) → MatchOption result
        (AreWordsOf (types.now ++ others) words.now → ⊥)
        (λ rest. AreWordsOf (types.now ++ others) words.now ↔ AreWordsOf others rest.now) }
{
    if words.len() < types.len() {
        return None;
    }
    let (first, rest) = words.split_at(types.len());
    if are_of(types, first) {
        Some(rest)
    } else {
        None
    }
}

/// Whether these are slots of a frame: its parameters, its declared locals, and so many of its
/// operands, the first one first.
pub fn are_slots(
    parameters: &[ValueType],
    declared: &[ValueType],
    operands: &OperandTypes,
    count: usize,
    slots: &[u64],
) -> bool
    requires { count ≤ length operands.now }
    ensures { IsTrue result ↔ AreWordsOf ((parameters.now ++ declared.now)
        ++ take count operands.now) slots.now }
{
    let Some(above) = words_behind(parameters, slots) else {
        return false;
    };
    let Some(rest) = words_behind(declared, above) else {
        return false;
    };
    are_operands(operands, count, rest)
}

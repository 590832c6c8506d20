//! What operators make of words.

ghost use Rattle.std.specs.Prelude.{◌≡◌};
ghost use Rattle.int_ops.specs.rules.Integers.{unary_of, binary_of, compare_of, convert_of};
ghost use Rattle.wasm_rules.specs.Types.{width_of, conversion_takes};
ghost use Rattle.machine_slots.specs.Words.{IsWordOf};

use wasm_syntax::{BinaryOperator, Comparison, Conversion, Trap, UnaryOperator, ValueType};

#[inline(always)]
pub fn unary_word(value_type: ValueType, operator: UnaryOperator, a: u64) -> u64
    requires { IsWordOf value_type a }
    ensures { result ≡ unary_of (width_of value_type) operator a }
{
    match value_type {
        ValueType::I32 => int_ops::unary(operator, a as u32) as u64,
        ValueType::I64 => int_ops::unary(operator, a),
    }
}

/// Calculates with two words, `a` the first operand, the one deeper on the stack.
#[inline(always)]
pub fn binary_word(
    value_type: ValueType,
    operator: BinaryOperator,
    a: u64,
    b: u64,
) -> Result<u64, Trap>
    requires first { IsWordOf value_type a }
    requires second { IsWordOf value_type b }
    ensures { result ≡ binary_of (width_of value_type) operator a b }
{
    match value_type {
        ValueType::I32 => match int_ops::binary(operator, a as u32, b as u32) {
            Ok(answer) => Ok(answer as u64),
            Err(trap) => Err(trap),
        },
        ValueType::I64 => int_ops::binary(operator, a, b),
    }
}

/// Tests the relation of `a`, the first operand, to `b`.
#[inline(always)]
pub fn compare_word(value_type: ValueType, operator: Comparison, a: u64, b: u64) -> bool
    requires first { IsWordOf value_type a }
    requires second { IsWordOf value_type b }
    ensures { result ≡ compare_of (width_of value_type) operator a b }
{
    match value_type {
        ValueType::I32 => int_ops::compare(operator, a as u32, b as u32),
        ValueType::I64 => int_ops::compare(operator, a, b),
    }
}

#[inline(always)]
pub fn convert_word(operator: Conversion, a: u64) -> u64
    requires { IsWordOf (conversion_takes operator) a }
    ensures { result ≡ convert_of operator a }
{
    int_ops::convert(operator, a)
}

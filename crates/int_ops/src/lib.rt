//! Integer arithmetic of WebAssembly (Core Specification 1.0, section 4.3.2), over `u32` and `u64`.
//!
//! # Example
//!
//! ```text
//! let sum = binary(BinaryOperator::Add, 2u32, 3u32)?;
//! let quotient = binary(BinaryOperator::DivU, 7u64, 0u64);
//! let is_less = compare(Comparison::LtS, sum, 0);
//! let wide = convert(Conversion::I64ExtendI32S, 0xffff_ffff);
//! ```
//!
//! Here `sum` is 5, and `quotient` is `Err(Trap::DivideByZero)`.
//!
//! # Promises
//!
//! - `unary` equals `unary_of`: how many bits are 0 at either end, or 1.
//! - `binary` equals `binary_of`: the result, or the trap, exactly where the definition has it.
//!   Only division and remainder trap.
//! - `compare` equals `compare_of`.
//! - `convert` equals `convert_of`, where an i32 is a number below 2^32 on either side.
//! - `Integer` is the trait of both types, with a width and the number of a value. Each number is
//!   that of one value (`same_from_number`).
//! - `results_fit`: what an operator, a test, a conversion or a sign extension gives is an integer
//!   of its width (`unary`, `binary`, `truth`, `conversion`, `extension`).
//! - `worked_examples`: the definitions give the standard's values on twenty-one examples.
//!
//! # Definitions to read
//!
//! In `specs/rules/Integers.antt`: `unary_of`, `binary_of`, `compare_of`, `convert_of` and
//! `sign_extended`, each once for every width. An integer of width w is a number below 2^N, with N
//! bits.
//!
//! # Who may touch what
//!
//! There is no representation to hide: integers are Rust's own. `machine_slots` and `machine_frame`
//! call the operators, and `wasm_rules` cites the definitions. `wasm_syntax` names operators
//! and traps. No memory is taken. The only errors are `Trap::DivideByZero` and
//! `Trap::IntegerOverflow`.
#![tactic(auto)]

ghost use Rattle.std.specs.Prelude.{◌≡◌, ◌<◌, ◌%◌, ◌^◌};
ghost use mir.Val.{bits};
ghost use Rattle.int_ops.specs.rules.Integers.{convert_of, converted_from};

mod integer;
mod integer_32;
mod integer_64;
mod laws;

pub use integer::{Integer, binary, compare, unary};
pub use laws::{results_fit, worked_examples};
use wasm_syntax::Conversion;

/// The lowest 8 bits.
#[inline]
fn low_8(a: u64) -> u8
    ensures { result ≡ a % 2 ^ 8 }
{
    (a & 0xff) as u8
}

/// The lowest 16 bits.
#[inline]
fn low_16(a: u64) -> u16
    ensures { result ≡ a % 2 ^ 16 }
{
    (a & 0xffff) as u16
}

/// The lowest 32 bits.
#[inline]
fn low_32(a: u64) -> u32
    ensures { result ≡ a % 2 ^ 32 }
{
    (a & 0xffff_ffff) as u32
}

/// Converts an integer, where an i32 is a number below 2 ^ 32 on either side.
#[inline]
pub fn convert(operator: Conversion, a: u64) -> u64
    requires { a < 2 ^ bits (converted_from operator) }
    ensures { result ≡ convert_of operator a }
{
    match operator {
        Conversion::I32WrapI64 => a & 0xffff_ffff,
        Conversion::I64ExtendI32S => ((a as u32).cast_signed() as i64).cast_unsigned(),
        Conversion::I64ExtendI32U => a,
        Conversion::I32Extend8S => (low_8(a).cast_signed() as i32).cast_unsigned() as u64,
        Conversion::I32Extend16S => (low_16(a).cast_signed() as i32).cast_unsigned() as u64,
        Conversion::I64Extend8S => (low_8(a).cast_signed() as i64).cast_unsigned(),
        Conversion::I64Extend16S => (low_16(a).cast_signed() as i64).cast_unsigned(),
        Conversion::I64Extend32S => (low_32(a).cast_signed() as i64).cast_unsigned(),
    }
}

//! Values of integer operations, worked by hand from the standard.

use crate::rows::{assert_number, assert_row};
use int_ops::{binary, compare, convert, unary};
use wasm_syntax::BinaryOperator::{self, DivS, DivU, RemS, RemU, Rotl, Rotr, Shl, ShrS};
use wasm_syntax::Comparison::{self, GeS, LtS, LtU};
use wasm_syntax::Conversion::{I32WrapI64, I64ExtendI32S, I64ExtendI32U};
use wasm_syntax::Trap::{self, DivideByZero, IntegerOverflow};
use wasm_syntax::UnaryOperator::{self, Clz, Ctz, Popcnt};

const LEAST_32: u32 = 0x8000_0000;

const LEAST_64: u64 = 0x8000_0000_0000_0000;

const MINUS_1: u32 = 0xffff_ffff;

const MINUS_3: u32 = 0xffff_fffd;

const MINUS_7: u32 = 0xffff_fff9;

/// An operator, the integers that it takes, and what it gives.
enum Operation {
    Binary32(BinaryOperator, u32, u32, Result<u32, Trap>),
    Binary64(BinaryOperator, u64, u64, Result<u64, Trap>),
    Unary32(UnaryOperator, u32, u32),
    Unary64(UnaryOperator, u64, u64),
    Compared32(Comparison, u32, u32, bool),
    Compared64(Comparison, u64, u64, bool),
}

static OPERATIONS: [Operation; 17] = [
    Operation::Binary32(Shl, 1, 33, Ok(2)),
    Operation::Binary32(Rotr, 0x8000_0001, 1, Ok(0xc000_0000)),
    Operation::Binary32(DivS, MINUS_7, 2, Ok(MINUS_3)),
    Operation::Binary32(RemS, MINUS_7, 2, Ok(MINUS_1)),
    Operation::Binary32(DivS, LEAST_32, MINUS_1, Err(IntegerOverflow)),
    Operation::Binary32(DivU, 7, 0, Err(DivideByZero)),
    Operation::Unary32(Clz, 0, 32),
    Operation::Unary32(Popcnt, 0xff00_ff00, 16),
    Operation::Compared32(LtS, MINUS_1, 0, true),
    Operation::Compared32(LtU, MINUS_1, 0, false),
    Operation::Binary64(RemS, LEAST_64, u64::MAX, Ok(0)),
    Operation::Binary64(ShrS, u64::MAX, 63, Ok(u64::MAX)),
    Operation::Binary64(Rotl, 0x8000_0000_0000_0001, 65, Ok(3)),
    Operation::Binary64(DivS, LEAST_64, u64::MAX, Err(IntegerOverflow)),
    Operation::Binary64(RemU, 7, 0, Err(DivideByZero)),
    Operation::Unary64(Ctz, 0, 64),
    Operation::Compared64(GeS, 0, u64::MAX, true),
];

fn is_given(operation: &Operation) -> bool {
    match operation {
        Operation::Binary32(operator, a, b, gives) => binary(*operator, *a, *b) == *gives,
        Operation::Binary64(operator, a, b, gives) => binary(*operator, *a, *b) == *gives,
        Operation::Unary32(operator, a, gives) => unary(*operator, *a) == *gives,
        Operation::Unary64(operator, a, gives) => unary(*operator, *a) == *gives,
        Operation::Compared32(operator, a, b, gives) => compare(*operator, *a, *b) == *gives,
        Operation::Compared64(operator, a, b, gives) => compare(*operator, *a, *b) == *gives,
    }
}

/// The same of conversions. What each requires of its operand isn't known of a row.
fn are_converted_so() -> bool {
    convert(I32WrapI64, 0x1_0000_0005) == 5
        && convert(I64ExtendI32S, 0x8000_0000) == 0xffff_ffff_8000_0000
        && convert(I64ExtendI32U, 0x8000_0000) == 0x8000_0000
}

#[test]
fn operations_have_the_values_of_the_standard(rt: HostRuntime) {
    for (place, operation) in OPERATIONS.iter().enumerate() {
        assert_number(&rt, is_given(operation), place);
    }
    assert_row(&rt, Ok(are_converted_so()), "conversions");
}

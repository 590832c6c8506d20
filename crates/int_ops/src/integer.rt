//! The operators over both integer types.

ghost use Rattle.std.specs.Prelude.{◌≡◌, ℕ, Result, Ok, Err};
ghost use Rattle.std.specs.Int.{Width};
ghost use Rattle.wasm_syntax.specs.declared.value.Trap.{Trap};
ghost use Rattle.int_ops.specs.rules.Integers.{unary_of, binary_of, compare_of};

use wasm_syntax::{BinaryOperator, Comparison, Trap, UnaryOperator};

/// An integer type of WebAssembly: `u32` is i32, and `u64` is i64. There is no other.
pub trait Integer: Copy {
    ghost width: { Width };

    /// What a value is, read with no sign.
    ghost number: { Self → ℕ };

    /// A result, with its number in the place of the value.
    ghost outcome: { Result Self Trap → Result ℕ Trap };

    /// Counts bits.
    fn unary(self, operator: UnaryOperator) -> Self
        ensures { number result ≡ unary_of width operator (number self) };

    /// Calculates with two integers. `self` is the first operand, the one deeper on the stack.
    fn binary(self, operator: BinaryOperator, other: Self) -> Result<Self, Trap>
        ensures { outcome result ≡ binary_of width operator (number self) (number other) };

    /// Tests the relation of `self`, the first operand, to `other`.
    fn compare(self, operator: Comparison, other: Self) -> bool
        ensures { result ≡ compare_of width operator (number self) (number other) };

    /// A value is its number, and nothing else.
    ghost same_from_number: { (a b : Self) → number a ≡ number b → a ≡ b };

    ghost outcome_ok: { (a : Self) → outcome (Ok a) ≡ Ok (number a) };

    ghost outcome_err: { (trap : Trap) → outcome (Err trap) ≡ Err trap };
}

/// Applies an operator of one operand.
#[inline(always)]
pub fn unary<N: Integer>(operator: UnaryOperator, a: N) -> N
    ensures { N.number result ≡ unary_of N.width operator (N.number a) }
{
    a.unary(operator)
}

/// Applies an operator of two operands, `a` the first. Only division and remainder trap.
#[inline(always)]
pub fn binary<N: Integer>(operator: BinaryOperator, a: N, b: N) -> Result<N, Trap>
    ensures { N.outcome result ≡ binary_of N.width operator (N.number a) (N.number b) }
{
    a.binary(operator, b)
}

/// Tests the relation of `a`, the first operand, to `b`.
#[inline(always)]
pub fn compare<N: Integer>(operator: Comparison, a: N, b: N) -> bool
    ensures { result ≡ compare_of N.width operator (N.number a) (N.number b) }
{
    a.compare(operator, b)
}

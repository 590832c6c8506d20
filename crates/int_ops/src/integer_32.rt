//! The operators of i32.

ghost use Rattle.std.specs.Prelude.{◌≡◌, refl};
ghost use Rattle.std.specs.Int.{w32};
ghost use Rattle.int_ops.specs.rules.Integers.{unary_of, binary_of, compare_of, signed_quotient};
ghost use Rattle.int_ops.specs.rules.Integers.{signed_remainder};

use super::Integer;
use wasm_syntax::{BinaryOperator, Comparison, Trap, UnaryOperator};

impl Integer for u32 {
    ghost width = { w32 };

    ghost number = { λ n. n };

    ghost outcome = { λ r. r };

    ghost same_from_number = { λ a b same. same };

    ghost outcome_ok = { λ a. refl };

    ghost outcome_err = { λ trap. refl };

    #[inline]
    fn unary(self, operator: UnaryOperator) -> u32 {
        match operator {
            UnaryOperator::Clz => self.leading_zeros(),
            UnaryOperator::Ctz => self.trailing_zeros(),
            UnaryOperator::Popcnt => self.count_ones(),
        }
    }

    #[inline]
    fn binary(self, operator: BinaryOperator, other: u32) -> Result<u32, Trap> {
        match operator {
            BinaryOperator::Add => Ok(self.wrapping_add(other)),
            BinaryOperator::Sub => Ok(self.wrapping_sub(other)),
            BinaryOperator::Mul => Ok(self.wrapping_mul(other)),
            BinaryOperator::DivS => signed_quotient(self, other),
            BinaryOperator::DivU => self.checked_div(other).ok_or(Trap::DivideByZero),
            BinaryOperator::RemS => signed_remainder(self, other),
            BinaryOperator::RemU => self.checked_rem(other).ok_or(Trap::DivideByZero),
            BinaryOperator::And => Ok(self & other),
            BinaryOperator::Or => Ok(self | other),
            BinaryOperator::Xor => Ok(self ^ other),
            BinaryOperator::Shl => Ok(self << (other % 32)),
            BinaryOperator::ShrS => Ok((self.cast_signed() >> (other % 32)).cast_unsigned()),
            BinaryOperator::ShrU => Ok(self >> (other % 32)),
            BinaryOperator::Rotl => Ok(self.rotate_left(other)),
            BinaryOperator::Rotr => Ok(self.rotate_right(other)),
        }
    }

    #[inline]
    fn compare(self, operator: Comparison, other: u32) -> bool {
        match operator {
            Comparison::Eq => self == other,
            Comparison::Ne => self != other,
            Comparison::LtS => self.cast_signed() < other.cast_signed(),
            Comparison::LtU => self < other,
            Comparison::GtS => self.cast_signed() > other.cast_signed(),
            Comparison::GtU => self > other,
            Comparison::LeS => self.cast_signed() <= other.cast_signed(),
            Comparison::LeU => self <= other,
            Comparison::GeS => self.cast_signed() >= other.cast_signed(),
            Comparison::GeU => self >= other,
        }
    }
}

#[inline]
fn signed_quotient(a: u32, b: u32) -> Result<u32, Trap>
    ensures { result ≡ signed_quotient w32 a b }
{
    if b == 0 {
        return Err(Trap::DivideByZero);
    }
    let quotient = a.cast_signed().checked_div(b.cast_signed());
    Ok(quotient.ok_or(Trap::IntegerOverflow)?.cast_unsigned())
}

#[inline]
fn signed_remainder(a: u32, b: u32) -> Result<u32, Trap>
    ensures { result ≡ signed_remainder w32 a b }
{
    if b == 0 {
        return Err(Trap::DivideByZero);
    }
    let remainder = a.cast_signed().wrapping_rem(b.cast_signed());
    Ok(remainder.cast_unsigned())
}

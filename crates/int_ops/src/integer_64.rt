//! The operators of i64.

ghost use Rattle.std.specs.Prelude.{◌≡◌, refl};
ghost use Rattle.std.specs.Int.{w64};
ghost use Rattle.int_ops.specs.rules.Integers.{unary_of, binary_of, compare_of, signed_quotient};
ghost use Rattle.int_ops.specs.rules.Integers.{signed_remainder};

use super::Integer;
use wasm_syntax::{BinaryOperator, Comparison, Trap, UnaryOperator};

impl Integer for u64 {
    ghost width = { w64 };

    ghost number = { λ n. n };

    ghost outcome = { λ r. r };

    ghost same_from_number = { λ a b same. same };

    ghost outcome_ok = { λ a. refl };

    ghost outcome_err = { λ trap. refl };

    #[inline]
    fn unary(self, operator: UnaryOperator) -> u64 {
        match operator {
            UnaryOperator::Clz => u64::from(self.leading_zeros()),
            UnaryOperator::Ctz => u64::from(self.trailing_zeros()),
            UnaryOperator::Popcnt => u64::from(self.count_ones()),
        }
    }

    #[inline]
    fn binary(self, operator: BinaryOperator, other: u64) -> Result<u64, Trap> {
        match operator {
            BinaryOperator::Add => Ok(self.wrapping_add(other)),
            BinaryOperator::Sub => Ok(self.wrapping_sub(other)),
            BinaryOperator::Mul => Ok(self.wrapping_mul(other)),
            BinaryOperator::DivS => signed_quotient(self, other),
            BinaryOperator::DivU => self.checked_div(other).ok_or(Trap::DivideByZero),
            BinaryOperator::RemS => signed_remainder(self, other),
            BinaryOperator::RemU => self.checked_rem(other).ok_or(Trap::DivideByZero),
            BinaryOperator::And => Ok(self & other),
            BinaryOperator::Or => Ok(self | other),
            BinaryOperator::Xor => Ok(self ^ other),
            BinaryOperator::Shl => Ok(self << (other % 64)),
            BinaryOperator::ShrS => Ok((self.cast_signed() >> (other % 64)).cast_unsigned()),
            BinaryOperator::ShrU => Ok(self >> (other % 64)),
            BinaryOperator::Rotl => Ok(self.rotate_left((other % 64) as u32)),
            BinaryOperator::Rotr => Ok(self.rotate_right((other % 64) as u32)),
        }
    }

    #[inline]
    fn compare(self, operator: Comparison, other: u64) -> bool {
        match operator {
            Comparison::Eq => self == other,
            Comparison::Ne => self != other,
            Comparison::LtS => self.cast_signed() < other.cast_signed(),
            Comparison::LtU => self < other,
            Comparison::GtS => self.cast_signed() > other.cast_signed(),
            Comparison::GtU => self > other,
            Comparison::LeS => self.cast_signed() <= other.cast_signed(),
            Comparison::LeU => self <= other,
            Comparison::GeS => self.cast_signed() >= other.cast_signed(),
            Comparison::GeU => self >= other,
        }
    }
}

#[inline]
fn signed_quotient(a: u64, b: u64) -> Result<u64, Trap>
    ensures { result ≡ signed_quotient w64 a b }
{
    if b == 0 {
        return Err(Trap::DivideByZero);
    }
    let quotient = a.cast_signed().checked_div(b.cast_signed());
    Ok(quotient.ok_or(Trap::IntegerOverflow)?.cast_unsigned())
}

#[inline]
fn signed_remainder(a: u64, b: u64) -> Result<u64, Trap>
    ensures { result ≡ signed_remainder w64 a b }
{
    if b == 0 {
        return Err(Trap::DivideByZero);
    }
    let remainder = a.cast_signed().wrapping_rem(b.cast_signed());
    Ok(remainder.cast_unsigned())
}

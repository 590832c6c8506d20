//! Operators on the words on top (section 4.4.1).

ghost use Rattle.std.specs.Prelude.{◌≡◌, ◌<◌, ℕ, List, ◌∷◌, ◌==◌, length};
ghost use Rattle.int_ops.specs.rules.Integers.{unary_of, binary_of, compare_of, convert_of, truth};
ghost use Rattle.wasm_rules.specs.Types.{width_of, conversion_takes};
ghost use Rattle.machine_slots.specs.Words.{HasOne, HasTwo, LeavesWord};

use crate::slots::Slots;
use crate::words::{binary_word, compare_word, convert_word, unary_word};
use wasm_syntax::{BinaryOperator, Comparison, Conversion, Trap, UnaryOperator, ValueType};

/// Whether the word on top is zero, as 1 or 0 in its place.
#[inline(always)]
pub fn eqz(slots: &mut Slots)
    requires { 0 < length slots.old }
    ensures { (a : ℕ) (under : List ℕ) → slots.old ≡ a ∷ under
        → slots.new ≡ truth (a == 0) ∷ under }
{
    let a = slots.pop();
    slots.push((a == 0) as u64);
}

/// Whether the relation holds of the word below the topmost to that on top, as 1 or 0.
#[inline(always)]
pub fn apply_comparison(slots: &mut Slots, value_type: ValueType, operator: Comparison)
    requires { HasTwo value_type value_type slots.old }
    ensures { (b a : ℕ) (under : List ℕ) → slots.old ≡ b ∷ a ∷ under
        → slots.new ≡ truth (compare_of (width_of value_type) operator a b) ∷ under }
{
    let b = slots.pop();
    let a = slots.pop();
    slots.push(compare_word(value_type, operator, a, b) as u64);
}

/// An operator on the word on top.
#[inline(always)]
pub fn apply_unary(slots: &mut Slots, value_type: ValueType, operator: UnaryOperator)
    requires { HasOne value_type slots.old }
    ensures { (a : ℕ) (under : List ℕ) → slots.old ≡ a ∷ under
        → slots.new ≡ unary_of (width_of value_type) operator a ∷ under }
{
    let a = slots.pop();
    slots.push(unary_word(value_type, operator, a));
}

/// An operator on the word below the topmost, its first operand, and that on top.
#[inline(always)]
pub fn apply_binary(
    slots: &mut Slots,
    value_type: ValueType,
    operator: BinaryOperator,
) -> Result<(), Trap>
    requires { HasTwo value_type value_type slots.old }
    ensures { (b a : ℕ) (under : List ℕ) → slots.old ≡ b ∷ a ∷ under
        → LeavesWord (binary_of (width_of value_type) operator a b) result slots.new under }
{
    let b = slots.pop();
    let a = slots.pop();
    match binary_word(value_type, operator, a, b) {
        Ok(answer) => {
            slots.push(answer);
            Ok(())
        }
        Err(trap) => Err(trap),
    }
}

/// The word on top, at the other type.
#[inline(always)]
pub fn apply_conversion(slots: &mut Slots, operator: Conversion)
    requires { HasOne (conversion_takes operator) slots.old }
    ensures { (a : ℕ) (under : List ℕ) → slots.old ≡ a ∷ under
        → slots.new ≡ convert_of operator a ∷ under }
{
    let a = slots.pop();
    slots.push(convert_word(operator, a));
}

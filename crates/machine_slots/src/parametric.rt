//! Constants, `drop` and `select` (sections 4.4.1 and 4.4.2).

ghost use Rattle.std.specs.Prelude.{◌≡◌, ◌<◌, ◌≤◌, ℕ, List, ◌∷◌, length};
ghost use Rattle.wasm_rules.specs.Types.{number_in};
ghost use Rattle.machine_slots.specs.Words.{selected_word};

use crate::slots::{SLOTS, Slots};
use wasm_syntax::Value;

/// A constant on top.
#[inline(always)]
pub fn constant(slots: &mut Slots, value: Value)
    requires { length slots.old < SLOTS }
    ensures { slots.new ≡ number_in value ∷ slots.old }
{
    slots.push(match value {
        Value::I32(number) => number as u64,
        Value::I64(number) => number,
    });
}

/// Without the word on top.
#[inline(always)]
pub fn drop_top(slots: &mut Slots)
    requires { 0 < length slots.old }
    ensures { (word : ℕ) (under : List ℕ) → slots.old ≡ word ∷ under → slots.new ≡ under }
{
    slots.pop();
}

/// Of the two words below the topmost, the first one, unless that on top is zero.
#[inline(always)]
pub fn select(slots: &mut Slots)
    requires { 3 ≤ length slots.old }
    ensures { (n b a : ℕ) (under : List ℕ) → slots.old ≡ n ∷ b ∷ a ∷ under
        → slots.new ≡ selected_word n a b ∷ under }
{
    let condition = slots.pop();
    let second = slots.pop();
    let first = slots.pop();
    slots.push(if condition == 0 { second } else { first });
}

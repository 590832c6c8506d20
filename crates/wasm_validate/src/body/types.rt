//! The types of the operands at a position.

ghost use Rattle.std.specs.Prelude.{◌≡◌, length, slice_get};
ghost use Rattle.wasm_validate.specs.Body.Known.{are_known, types_if_known};

use std::marker::Model;
use wasm_syntax::ValueType;

/// The types of a function's operands, which contracts see as a list, the first one first.
#[derive(Debug, Drop)]
pub struct OperandTypes<'a> {
    known: &'a [Option<ValueType>],
}

impl<'a> Model for OperandTypes<'a> {
    ghost use Rattle.std.specs.Prelude.{◌≡◌, List, true};
    ghost use Rattle.wasm_syntax.specs.declared.types.ValueType.{ValueType};
    ghost use Rattle.wasm_validate.specs.Body.Known.{are_known, known_types};

    ghost Value = { List ValueType };

    ghost view = { λ a. known_types a.known.now };

    ghost invariant = { λ a. are_known a.known.now ≡ true };
}

/// Whether all are known.
fn are_known(operands: &[Option<ValueType>]) -> bool
    ensures { result ≡ are_known operands.now }
{
    for operand in operands {
        if operand.is_none() {
            return false;
        }
    }
    true
}

/// What is known of the operand with this number, if there are so many.
fn operand_at(operands: &[Option<ValueType>], number: usize) -> Option<Option<ValueType>>
    ensures { result ≡ slice_get operands.now number }
{
    operands.get(number).copied()
}

impl<'a> OperandTypes<'a> {
    /// The types of operands, if all are known.
    pub(crate) fn of(operands: &'a [Option<ValueType>]) -> Option<Self>
        ensures { result ≡ types_if_known operands.now }
    {
        if are_known(operands) {
            Some(OperandTypes { known: operands })
        } else {
            None
        }
    }

    /// How many operands there are.
    pub fn len(&self) -> usize
        ensures { result ≡ length self.now }
    {
        self.known.len()
    }

    /// The type of the operand with this number, the first one being 0.
    pub fn get(&self, number: usize) -> Option<ValueType>
        ensures { result ≡ slice_get self.now number }
    {
        match operand_at(self.known, number) {
            Some(known) => known,
            None => None,
        }
    }
}

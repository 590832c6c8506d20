//! The open sequences of a body and their operands.

ghost use Rattle.std.specs.Prelude.{◌≡◌, ◌∷◌, [], reverse, slice_get, OnOk, OnErr, IsTrue, ◌↔◌};
ghost use Rattle.std.specs.Prelude.{Some, option_map};
ghost use Rattle.wasm_validate.specs.declared.parts.fault.ValidFault.TheVariants as fault;
ghost use Rattle.wasm_validate.specs.Body.Answers.{Pops, FindsLabel, LevelsFollow, OnlyMemory};
ghost use Rattle.wasm_validate.specs.Body.Tops.{top_popped, top_pushed, top_unreached, top_closed};
ghost use Rattle.wasm_validate.specs.laws.Checking.{new_level, labels_of};
ghost use Rattle.wasm_validate.specs.laws.Reached.{are_reached, all_operands};
ghost use Rattle.wasm_validate.specs.Body.Views.{IsInnermost};

use crate::body::stack::Stack;
use crate::parts::ValidFault;
use std::alloc::Global;
use std::marker::Model;
use wasm_syntax::ValueType;

/// An open sequence.
#[derive(Clone, Copy, Debug, PartialEq, Eq)]
pub struct Control {
    /// What a branch to its label takes.
    pub label: Option<ValueType>,
    /// What it gives.
    pub results: Option<ValueType>,
    /// Whether it is the first part of an `if`.
    pub is_first: bool,
    /// Whether no jump is before.
    pub is_reached: bool,
    /// How many operands there were when it was opened.
    pub height: usize,
}

/// The open sequences with what is known of their operands: a type, or none where any type may
/// are, after a jump.
#[derive(Debug, Drop)]
pub struct Levels {
    controls: Stack<Control>,
    operands: Stack<Option<ValueType>>,
}

impl Model for Levels {
    ghost use Rattle.std.specs.Prelude.{List, length};
    ghost use Rattle.wasm_validate.specs.laws.Checking.{Level};
    ghost use Rattle.wasm_validate.specs.Body.Views.{levels_of, AreHeights};

    ghost Value = { List Level };

    ghost view = { λ a. levels_of a.controls a.operands };

    ghost invariant = { λ a. AreHeights a.controls (length a.operands) };
}

impl Levels {
    pub fn new(alloc: Global) -> Self
        ensures { result ≡ [] }
    {
        Levels {
            controls: Stack::new(alloc),
            operands: Stack::new(alloc),
        }
    }

    /// Leaves nothing open. The memory is kept.
    pub fn clear(&mut self)
        ensures { self.new ≡ [] }
    {
        self.controls.clear();
        self.operands.clear();
    }

    pub fn is_empty(&self) -> bool
        ensures { IsTrue result ↔ (self.now ≡ []) }
    {
        self.controls.len() == 0
    }

    /// Takes the topmost operand of the innermost sequence. Behind a jump there are always more.
    pub fn pop(&mut self) -> Result<Option<ValueType>, ValidFault>
        ensures { Pops result self.new (top_popped self.old) }
    {
        let Some(control) = self.controls.get(0) else {
            return Err(ValidFault::Typing);
        };
        if self.operands.len() > control.height {
            return self.operands.pop().ok_or(ValidFault::Typing);
        }
        if control.is_reached {
            return Err(ValidFault::Typing);
        }
        Ok(None)
    }

    /// Adds an operand to those of the innermost sequence.
    pub fn push(&mut self, operand: Option<ValueType>) -> Result<(), ValidFault>
        ensures pushed { OnOk result (self.new ≡ top_pushed operand self.old) }
        ensures memory { OnlyMemory result }
    {
        self.operands.push(operand)?;
        Ok(())
    }

    /// The innermost sequence.
    pub fn innermost_control(&self) -> Option<Control>
        ensures { IsInnermost result self.now }
    {
        self.controls.get(0)
    }

    /// What a branch to this label takes, the innermost label being 0. `Index` where there is none.
    pub fn label(&self, number: u32) -> Result<Option<ValueType>, ValidFault>
        ensures { FindsLabel result (labels_of self.now) number }
    {
        match self.controls.get(number as usize) {
            Some(control) => Ok(control.label),
            None => Err(ValidFault::Index),
        }
    }

    /// Opens a sequence inside of the innermost one.
    pub fn open(
        &mut self,
        label: Option<ValueType>,
        results: Option<ValueType>,
        is_first: bool,
    ) -> Result<(), ValidFault>
        ensures opened { OnOk result (self.new ≡ new_level label results is_first ∷ self.old) }
        ensures memory { OnlyMemory result }
    {
        self.controls.push(Control {
            label,
            results,
            is_first,
            is_reached: true,
            height: self.operands.len(),
        })?;
        Ok(())
    }

    /// Closes the innermost sequence, which has to have no operands left.
    pub fn close(&mut self) -> Result<(), ValidFault>
        ensures { LevelsFollow ValidFault.Typing result self.new (top_closed self.old) }
    {
        let Some(control) = self.controls.get(0) else {
            return Err(ValidFault::Typing);
        };
        if self.operands.len() > control.height {
            return Err(ValidFault::Typing);
        }
        self.controls.pop();
        Ok(())
    }

    /// Goes on after a jump: operands of the innermost sequence are gone, and any may follow.
    pub fn set_unreachable(&mut self)
        ensures { self.new ≡ top_unreached self.old }
    {
        let Some(control) = self.controls.get(0) else {
            return;
        };
        self.operands.truncate(control.height);
        self.controls.replace(Control {
            is_reached: false,
            ..control
        });
    }

    /// Whether a jump is before in no open sequence.
    pub fn are_reached(&self) -> bool
        ensures { result ≡ are_reached self.now }
    {
        for control in self.controls.as_slice() {
            if !control.is_reached {
                return false;
            }
        }
        true
    }

    /// The operands of all open sequences, the first one first.
    pub fn all_operands(&self) -> &[Option<ValueType>]
        ensures { result.now ≡ reverse (all_operands self.now) }
    {
        let Some(outermost) = self.controls.bottom() else {
            return &[];
        };
        let operands = self.operands.as_slice();
        prove!(outermost.height <= operands.len());
        &operands[outermost.height..]
    }
}

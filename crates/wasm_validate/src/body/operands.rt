//! What instructions take and give.

ghost use Rattle.std.specs.Prelude.{◌≡◌, ◌∷◌, [], reverse, OnOk};
ghost use Rattle.wasm_syntax.specs.declared.types.ValueType.TheVariants as value_type;
ghost use Rattle.wasm_rules.specs.Types.{results_of};
ghost use Rattle.wasm_validate.specs.Body.Answers.{LevelsFollow, OnlyMemory};
ghost use Rattle.wasm_validate.specs.laws.Checking.{Fixed, Jump, Dropping, Selecting};
ghost use Rattle.wasm_validate.specs.Body.Tops.{top_taken, top_all_taken, top_all_pushed};
ghost use Rattle.wasm_validate.specs.Body.Tops.{top_applied, top_selected};

use crate::body::levels::Levels;
use crate::parts::ValidFault;
use wasm_syntax::ValueType;

impl Levels {
    /// Takes an operand of this type.
    pub fn expect(&mut self, value_type: ValueType) -> Result<(), ValidFault>
        ensures { LevelsFollow ValidFault.Typing result self.new (top_taken value_type self.old) }
    {
        match self.pop()? {
            Some(found) if found != value_type => Err(ValidFault::Typing),
            _ => Ok(()),
        }
    }

    /// Takes operands of these types, of which the last one is on top.
    pub fn expect_all(&mut self, types: &[ValueType]) -> Result<(), ValidFault>
        ensures { LevelsFollow ValidFault.Typing result self.new
            (top_all_taken (reverse types.now) self.old) }
    {
        for value_type in types.iter().rev() {
            self.expect(*value_type)?;
        }
        Ok(())
    }

    /// Takes what a block gives.
    pub fn expect_results(&mut self, results: Option<ValueType>) -> Result<(), ValidFault>
        ensures { LevelsFollow ValidFault.Typing result self.new
            (top_all_taken (results_of results) self.old) }
    {
        match results {
            Some(value_type) => self.expect(value_type),
            None => Ok(()),
        }
    }

    /// Adds operands of these types, the last one on top.
    pub fn push_all(&mut self, types: &[ValueType]) -> Result<(), ValidFault>
        ensures pushed { OnOk result (self.new ≡ top_all_pushed (reverse types.now) self.old) }
        ensures memory { OnlyMemory result }
    {
        for value_type in types {
            self.push(Some(*value_type))?;
        }
        Ok(())
    }

    /// Adds what a block gives.
    pub fn push_results(&mut self, results: Option<ValueType>) -> Result<(), ValidFault>
        ensures pushed { OnOk result (self.new ≡ top_all_pushed (results_of results) self.old) }
        ensures memory { OnlyMemory result }
    {
        match results {
            Some(value_type) => self.push(Some(value_type)),
            None => Ok(()),
        }
    }

    /// An instruction that takes and gives operands of fixed types.
    pub fn apply(&mut self, takes: &[ValueType], gives: &[ValueType]) -> Result<(), ValidFault>
        ensures { LevelsFollow ValidFault.Typing result self.new
            (top_applied (Fixed (reverse takes.now) (reverse gives.now)) self.old) }
    {
        self.expect_all(takes)?;
        self.push_all(gives)
    }

    /// `drop`.
    pub fn drop_operand(&mut self) -> Result<(), ValidFault>
        ensures { LevelsFollow ValidFault.Typing result self.new (top_applied Dropping self.old) }
    {
        self.pop()?;
        Ok(())
    }

    /// `select`: of the two operands below the condition nothing, or the type of one, may be known.
    pub fn select(&mut self) -> Result<(), ValidFault>
        ensures { LevelsFollow ValidFault.Typing result self.new (top_applied Selecting self.old) }
    {
        self.expect(ValueType::I32)?;
        let second = self.pop()?;
        let first = self.pop()?;
        match (second, first) {
            (Some(known), Some(other)) if known != other => Err(ValidFault::Typing),
            (Some(known), _) => self.push(Some(known)),
            (None, _) => self.push(first),
        }
    }
}

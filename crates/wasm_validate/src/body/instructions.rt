//! What each instruction does to the open sequences and their operands.

ghost use Rattle.std.specs.Prelude.{◌≡◌, ◌≢◌, []};
ghost use Rattle.wasm_syntax.specs.declared.instruction.Instruction.TheVariants as instr;
ghost use Rattle.wasm_rules.specs.Types.{are_same_types, results_of};
ghost use Rattle.wasm_rules.specs.Typing.{Context as Typing};
ghost use Rattle.wasm_validate.specs.Body.Answers.{LevelsFollow, Performs, Tests};
ghost use Rattle.wasm_validate.specs.laws.Checking.{are_labels, labels_of, levels_after};
ghost use Rattle.wasm_validate.specs.laws.FirstFault.{labels_fault};
ghost use Rattle.wasm_validate.specs.Body.Scopes.{IsScopeOf};

use crate::body::levels::Levels;
use crate::body::operators::{
    converted_types, is_aligned, loaded_bytes, loaded_type, stored_bytes, stored_type,
};
use crate::body::scope::Scope;
use crate::parts::ValidFault;
use wasm_syntax::{
    Conversion, ItemList, LoadOperator, MemoryArgument, Mutability, StoreOperator, Value, ValueType,
};

/// Whether two labels take the same.
fn is_same(label: Option<ValueType>, other: Option<ValueType>) -> bool
    ensures { result ≡ are_same_types (results_of label) (results_of other) }
{
    match (label, other) {
        (None, None) => true,
        (Some(value_type), Some(other_type)) => value_type == other_type,
        _ => false,
    }
}

impl Levels {
    pub fn branch(&mut self, label: u32) -> Result<(), ValidFault>
        ensures { (c : Typing) → Performs c (instr.Br label) result self.old self.new }
    {
        let takes = self.label(label)?;
        self.expect_results(takes)?;
        self.set_unreachable();
        Ok(())
    }

    pub fn branch_if(&mut self, label: u32) -> Result<(), ValidFault>
        ensures { (c : Typing) → Performs c (instr.BrIf label) result self.old self.new }
    {
        let takes = self.label(label)?;
        self.expect(ValueType::I32)?;
        self.expect_results(takes)?;
        self.push_results(takes)
    }

    /// Whether each of these labels takes what the default one of a table takes. It is `Index`
    /// where there is no such label, and `Typing` where it takes something else.
    fn expect_labels(&self, labels: &[u32], takes: Option<ValueType>) -> Result<(), ValidFault>
        ensures { Tests result (are_labels (labels_of self.now) (results_of takes) labels.now)
            (labels_fault (labels_of self.now) (results_of takes) labels.now) }
    {
        for label in labels {
            if !is_same(self.label(*label)?, takes) {
                return Err(ValidFault::Typing);
            }
        }
        Ok(())
    }

    pub fn branch_table(&mut self, labels: &ItemList<u32>, default: u32) -> Result<(), ValidFault>
        ensures { (c : Typing)
            → Performs c (instr.BrTable labels.now default) result self.old self.new }
    {
        let takes = self.label(default)?;
        self.expect_labels(labels.as_slice(), takes)?;
        self.expect(ValueType::I32)?;
        self.expect_results(takes)?;
        self.set_unreachable();
        Ok(())
    }

    pub fn return_from(&mut self, scope: &Scope) -> Result<(), ValidFault>
        ensures { (c : Typing) → IsScopeOf c scope.now
            → Performs c instr.Return result self.old self.new }
    {
        self.expect_all(scope.returns)?;
        self.set_unreachable();
        Ok(())
    }

    pub fn call(&mut self, scope: &Scope, function: u32) -> Result<(), ValidFault>
        ensures { (c : Typing) → IsScopeOf c scope.now
            → Performs c (instr.Call function) result self.old self.new }
    {
        let Some(signature) = scope.context.function_type(function) else {
            return Err(ValidFault::Index);
        };
        self.apply(
            signature.parameters.as_slice(),
            signature.results.as_slice(),
        )
    }

    pub fn call_indirect(&mut self, scope: &Scope, type_index: u32) -> Result<(), ValidFault>
        ensures { (c : Typing) → IsScopeOf c scope.now
            → Performs c (instr.CallIndirect type_index) result self.old self.new }
    {
        let Some(signature) = scope.context.type_at(type_index) else {
            return Err(ValidFault::Index);
        };
        if !scope.context.has_table() {
            return Err(ValidFault::Index);
        }
        self.expect(ValueType::I32)?;
        self.apply(
            signature.parameters.as_slice(),
            signature.results.as_slice(),
        )
    }

    pub fn local_get(&mut self, scope: &Scope, local: u32) -> Result<(), ValidFault>
        ensures { (c : Typing) → IsScopeOf c scope.now
            → Performs c (instr.LocalGet local) result self.old self.new }
    {
        let value_type = scope.local(local)?;
        self.apply(&[], &[value_type])
    }

    pub fn local_set(&mut self, scope: &Scope, local: u32) -> Result<(), ValidFault>
        ensures { (c : Typing) → IsScopeOf c scope.now
            → Performs c (instr.LocalSet local) result self.old self.new }
    {
        let value_type = scope.local(local)?;
        self.apply(&[value_type], &[])
    }

    pub fn local_tee(&mut self, scope: &Scope, local: u32) -> Result<(), ValidFault>
        ensures { (c : Typing) → IsScopeOf c scope.now
            → Performs c (instr.LocalTee local) result self.old self.new }
    {
        let value_type = scope.local(local)?;
        self.apply(&[value_type], &[value_type])
    }

    pub fn global_get(&mut self, scope: &Scope, global: u32) -> Result<(), ValidFault>
        ensures { (c : Typing) → IsScopeOf c scope.now
            → Performs c (instr.GlobalGet global) result self.old self.new }
    {
        let global_type = scope.global(global)?;
        self.apply(&[], &[global_type.value_type])
    }

    pub fn global_set(&mut self, scope: &Scope, global: u32) -> Result<(), ValidFault>
        ensures { (c : Typing) → IsScopeOf c scope.now
            → Performs c (instr.GlobalSet global) result self.old self.new }
    {
        let global_type = scope.global(global)?;
        match global_type.mutability {
            Mutability::Constant => Err(ValidFault::Typing),
            Mutability::Variable => self.apply(&[global_type.value_type], &[]),
        }
    }

    pub fn load(
        &mut self,
        scope: &Scope,
        operator: LoadOperator,
        argument: MemoryArgument,
    ) -> Result<(), ValidFault>
        ensures { (c : Typing) → IsScopeOf c scope.now
            → Performs c (instr.Load operator argument) result self.old self.new }
    {
        if !scope.context.has_memory() {
            return Err(ValidFault::Index);
        }
        if !is_aligned(argument.align, loaded_bytes(operator)) {
            return Err(ValidFault::Limits);
        }
        self.apply(&[ValueType::I32], &[loaded_type(operator)])
    }

    pub fn store(
        &mut self,
        scope: &Scope,
        operator: StoreOperator,
        argument: MemoryArgument,
    ) -> Result<(), ValidFault>
        ensures { (c : Typing) → IsScopeOf c scope.now
            → Performs c (instr.Store operator argument) result self.old self.new }
    {
        if !scope.context.has_memory() {
            return Err(ValidFault::Index);
        }
        if !is_aligned(argument.align, stored_bytes(operator)) {
            return Err(ValidFault::Limits);
        }
        self.apply(&[ValueType::I32, stored_type(operator)], &[])
    }

    pub fn memory_size(&mut self, scope: &Scope) -> Result<(), ValidFault>
        ensures { (c : Typing) → IsScopeOf c scope.now
            → Performs c instr.MemorySize result self.old self.new }
    {
        if !scope.context.has_memory() {
            return Err(ValidFault::Index);
        }
        self.apply(&[], &[ValueType::I32])
    }

    pub fn memory_grow(&mut self, scope: &Scope) -> Result<(), ValidFault>
        ensures { (c : Typing) → IsScopeOf c scope.now
            → Performs c instr.MemoryGrow result self.old self.new }
    {
        if !scope.context.has_memory() {
            return Err(ValidFault::Index);
        }
        self.apply(&[ValueType::I32], &[ValueType::I32])
    }

    pub fn memory_copy(&mut self, scope: &Scope) -> Result<(), ValidFault>
        ensures { (c : Typing) → IsScopeOf c scope.now
            → Performs c instr.MemoryCopy result self.old self.new }
    {
        if !scope.context.has_memory() {
            return Err(ValidFault::Index);
        }
        self.apply(&[ValueType::I32, ValueType::I32, ValueType::I32], &[])
    }

    pub fn memory_fill(&mut self, scope: &Scope) -> Result<(), ValidFault>
        ensures { (c : Typing) → IsScopeOf c scope.now
            → Performs c instr.MemoryFill result self.old self.new }
    {
        if !scope.context.has_memory() {
            return Err(ValidFault::Index);
        }
        self.apply(&[ValueType::I32, ValueType::I32, ValueType::I32], &[])
    }

    pub fn constant(&mut self, value: Value) -> Result<(), ValidFault>
        ensures { (c : Typing) → Performs c (instr.Const value) result self.old self.new }
    {
        let value_type = match value {
            Value::I32(_) => ValueType::I32,
            Value::I64(_) => ValueType::I64,
        };
        self.apply(&[], &[value_type])
    }

    pub fn convert(&mut self, operator: Conversion) -> Result<(), ValidFault>
        ensures { (c : Typing) → Performs c (instr.Convert operator) result self.old self.new }
    {
        let (from, to) = converted_types(operator);
        self.apply(&[from], &[to])
    }

    /// The `else` between the parts of an `if`.
    pub fn part(&mut self) -> Result<(), ValidFault>
        ensures { (c : Typing) → LevelsFollow ValidFault.Typing result self.new
            (levels_after c instr.Else self.old) }
    {
        let Some(control) = self.innermost_control() else {
            return Err(ValidFault::Typing);
        };
        if !control.is_first {
            return Err(ValidFault::Typing);
        }
        self.expect_results(control.results)?;
        self.close()?;
        self.open(control.label, control.results, false)
    }

    /// The end of a sequence. An `if` without `else` can give nothing.
    pub fn end(&mut self) -> Result<(), ValidFault>
        ensures { (c : Typing) → LevelsFollow ValidFault.Typing result self.new
            (levels_after c instr.End self.old) }
    {
        let Some(control) = self.innermost_control() else {
            return Err(ValidFault::Typing);
        };
        if control.is_first && control.results.is_some() {
            return Err(ValidFault::Typing);
        }
        self.expect_results(control.results)?;
        self.close()?;
        self.push_results(control.results)
    }
}

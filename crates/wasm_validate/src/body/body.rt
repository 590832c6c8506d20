//! The body of a function.

ghost use Rattle.std.specs.Prelude.{◌≡◌, ◌≢◌, ◌≤◌, ◌∷◌, [], false, length, IfErr, IfOk};
ghost use Rattle.std.specs.Prelude.{MatchResult, OnOk};
ghost use Rattle.wasm_rules.specs.Types.{gives_of, results_of};
ghost use Rattle.wasm_rules.specs.Typing.{Context as Typing, body_context};
ghost use Rattle.wasm_rules.specs.Shapes.{body_shape};
ghost use Rattle.wasm_validate.specs.declared.parts.fault.ValidFault.TheVariants as faults;
ghost use Rattle.wasm_validate.specs.rules.Answers.{Judges};
ghost use Rattle.wasm_validate.specs.rules.Operands.{types_at};
ghost use Rattle.wasm_validate.specs.Parts.Contexts.{IsContextOf};
ghost use Rattle.wasm_validate.specs.Body.Answers.{IsReached, TellsReach, LevelsFollow, OnlyMemory};
ghost use Rattle.wasm_validate.specs.Body.Bodies.{HasBody, IsFaultOfBody};
ghost use Rattle.wasm_validate.specs.laws.Checking.{checked, new_level};
ghost use Rattle.wasm_validate.specs.laws.FirstFault.{fault_in};
ghost use Rattle.wasm_validate.specs.Body.Scopes.{IsScopeOf};

use crate::body::levels::Levels;
use crate::body::scope::Scope;
use crate::body::types::OperandTypes;
use crate::parts::{ModuleContext, ValidFault};
use std::alloc::{AllocError, Global};
use wasm_syntax::{Code, FunctionType, Instruction, ValueType};

impl Levels {
    /// One opcode after another.
    fn steps(&mut self, scope: &Scope, body: &[Instruction]) -> Result<(), ValidFault>
        ensures { (c : Typing) → IsScopeOf c scope.now
            → LevelsFollow (fault_in c body.now self.old) result self.new
            (checked c body.now self.old) }
    {
        for instruction in body {
            self.step(scope, instruction)?;
        }
        Ok(())
    }
}

/// What a function gives, if it gives one value at most.
fn result_of(function_type: &FunctionType) -> Option<ValueType>
    requires { length function_type.now.results ≤ 1 }
    ensures { results_of result ≡ gives_of function_type.now }
{
    function_type.results.get(0).copied()
}

/// What the body of a function looks up.
fn scope_of<'a, 'm>(
    context: &'a ModuleContext<'m>,
    function_type: &'a FunctionType,
    code: &'a Code,
) -> Scope<'a, 'm>
    ensures { (c : Typing) → IsContextOf c context.now
        → IsScopeOf (body_context c function_type.now code.now.locals) result }
{
    Scope {
        context,
        parameters: function_type.parameters.as_slice(),
        declared: code.locals.as_slice(),
        returns: function_type.results.as_slice(),
    }
}

/// Want of memory. Any other fault is that of a body without a type, which no position reaches.
fn only_memory(fault: ValidFault) -> Result<bool, AllocError>
    ensures { MatchResult result (λ reached. (reached ≡ false) × (fault ≢ faults.Memory))
        (λ _. fault ≡ faults.Memory) }
{
    match fault {
        ValidFault::Memory => Err(AllocError),
        _ => Ok(false),
    }
}

/// Checks bodies one after another, over the same memory.
#[derive(Debug, Drop)]
pub struct BodyChecker {
    levels: Levels,
}

impl BodyChecker {
    /// Takes no memory yet.
    pub fn new(alloc: Global) -> Self {
        BodyChecker {
            levels: Levels::new(alloc),
        }
    }

    /// Checks the body of a function. The fault is the first from the front: `Typing`, `Index`,
    /// `Limits` for an alignment, or `Memory`. Behind all opcodes it is `Typing` where something is
    /// still open. It takes time linear in the opcodes, the labels of tables and the parameters of
    /// calls. It takes memory for the operands and blocks that are at a time, which the next body
    /// uses again.
    pub fn check(
        &mut self,
        context: &ModuleContext,
        function_type: &FunctionType,
        code: &Code,
    ) -> Result<(), ValidFault>
        requires { length function_type.now.results ≤ 1 }
        ensures typed { (c : Typing) → IsContextOf c context.now
            → Judges result (HasBody c function_type.now code.now) }
        ensures fault { (c : Typing) → IsContextOf c context.now
            → IfErr result (IsFaultOfBody c function_type.now code.now) }
    {
        self.begin(result_of(function_type))?;
        let scope = scope_of(context, function_type, code);
        self.levels.steps(&scope, code.body.as_slice())?;
        if self.levels.is_empty() {
            Ok(())
        } else {
            Err(ValidFault::Typing)
        }
    }

    /// Opens the sequence of a function, and no other.
    fn begin(&mut self, result_type: Option<ValueType>) -> Result<(), ValidFault>
        ensures opened { OnOk result
            (self.new.levels ≡ new_level result_type result_type false ∷ []) }
        ensures memory { OnlyMemory result }
    {
        self.levels.clear();
        self.levels.open(result_type, result_type, false)
    }

    /// Goes over the opcodes before a position. Whether typing reaches it, if the body has its
    /// function's type.
    fn go_to(
        &mut self,
        context: &ModuleContext,
        function_type: &FunctionType,
        code: &Code,
        position: usize,
    ) -> Result<bool, ValidFault>
        requires { length function_type.now.results ≤ 1 }
        ensures { (c : Typing) → IsContextOf c context.now
            → (has : HasBody c function_type.now code.now) → TellsReach result self.new.levels
            (body_shape (body_context c function_type.now code.now.locals) has.sequence position) }
    {
        let result_type = result_of(function_type);
        self.begin(result_type)?;
        let body = code.body.as_slice();
        if position == body.len() {
            self.levels.push_results(result_type)?;
            return Ok(true);
        }
        if position > body.len() {
            return Ok(false);
        }
        let scope = scope_of(context, function_type, code);
        self.levels.steps(&scope, &body[..position])?;
        Ok(self.levels.are_reached())
    }

    /// Whether typing reaches a position, to which the checker goes. Fails only where memory is
    /// refused.
    fn reaches(
        &mut self,
        context: &ModuleContext,
        function_type: &FunctionType,
        code: &Code,
        position: usize,
    ) -> Result<bool, AllocError>
        requires { length function_type.now.results ≤ 1 }
        ensures { (c : Typing) → IsContextOf c context.now
            → (has : HasBody c function_type.now code.now)
            → IfOk result (λ reached. IsReached reached self.new.levels
            (body_shape (body_context c function_type.now code.now.locals) has.sequence
            position)) }
    {
        match self.go_to(context, function_type, code, position) {
            Ok(reached) => Ok(reached),
            Err(fault) => only_memory(fault),
        }
    }

    /// The types of all operands of the function at a position of its body. A position is the
    /// number of an opcode, counted from 0 with each `else` and `end`. `None` where typing doesn't
    /// reach the position: after a jump, up to the `else` or `end` of its block, and beyond the
    /// body. Behind the last `end` they are the function's results. Nothing is said of a body that
    /// doesn't have its function's type. It takes time linear in the position, the labels of tables
    /// and the parameters of calls, and memory as a check does. Fails only where memory is refused.
    pub fn operand_types(
        &mut self,
        context: &ModuleContext,
        function_type: &FunctionType,
        code: &Code,
        position: usize,
    ) -> Result<Option<OperandTypes<'_>>, AllocError>
        requires { length function_type.now.results ≤ 1 }
        ensures { (c : Typing) → IsContextOf c context.now
            → (has : HasBody c function_type.now code.now) → IfOk result (λ found. found
            ≡ types_at (body_context c function_type.now code.now.locals) has.sequence position) }
    {
        let reached = self.reaches(context, function_type, code, position)?;
        if !reached {
            return Ok(None);
        }
        Ok(OperandTypes::of(self.levels.all_operands()))
    }
}

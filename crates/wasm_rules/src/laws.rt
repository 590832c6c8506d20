//! Laws of the definitions, over all programs and configurations. The functions do nothing: what
//! they ensure is the law.

ghost use Rattle.wasm_rules.specs.Configuration.{Store};
ghost use Rattle.wasm_rules.specs.laws.TypedShapes.{ReachedShapesAreTyped};
ghost use Rattle.wasm_rules.specs.laws.Laws.{OneSequence, OneRun, HeightsAreSmall};
ghost use Rattle.wasm_rules.specs.laws.Examples.{TypingExamples, HelloRuns, StepExamples};
ghost use Rattle.wasm_rules.specs.laws.LimitExamples.{StackExamples, BranchExamples, TableExamples};
ghost use Rattle.wasm_rules.specs.laws.LimitExamples.{MemoryGrows, MoveExamples};
ghost use Rattle.wasm_rules.specs.laws.Soundness.{NeverStuck, AdministrativeTyped, AnswersTyped};
ghost use Rattle.wasm_rules.specs.laws.Soundness.{StepsTyped, ProgramsTyped, BeginsTyped};

/// In a typed body each position that typing reaches has a typed shape.
pub fn reached_shapes_are_typed()
    ensures { ReachedShapesAreTyped }
{}

/// A position has no more values than there are opcodes before it.
pub fn heights_are_small()
    ensures { HeightsAreSmall }
{}

/// Flat opcodes and counted steps leave nothing open.
pub fn nothing_is_left_open()
    ensures one_sequence { OneSequence }
    ensures one_run { OneRun }
{}

/// The definitions give on examples what the standard gives.
pub fn worked_examples()
    ensures typing { TypingExamples }
    ensures hello { (store : Store) → HelloRuns store }
    ensures steps { StepExamples }
{}

/// The limits of the stack from both sides, branches that leave values after, calls through the
/// table, memory that grows up to its limit, and copies and fills up to its end.
pub fn limits_on_examples()
    ensures stack { StackExamples }
    ensures branches { BranchExamples }
    ensures table { TableExamples }
    ensures memory { MemoryGrows }
    ensures moves { MoveExamples }
{}

// Laws over all programs and configurations. The functions do nothing: what they ensure is the law.

/// Type soundness: a typed configuration is never stuck, and what follows from it is typed again.
pub fn typed_configurations_go_on()
    ensures never_stuck { NeverStuck }
    ensures administrative_typed { AdministrativeTyped }
    ensures answers_typed { AnswersTyped }
    ensures steps_typed { StepsTyped }
{}

/// The program of a valid module is typed, and linked to a host it begins reduced and typed.
pub fn valid_modules_begin_typed()
    ensures programs { ProgramsTyped }
    ensures begins { BeginsTyped }
{}

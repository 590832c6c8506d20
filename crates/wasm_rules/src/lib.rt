//! The rules of WebAssembly as definitions: which modules are valid, how they begin and what they
//! do (Core Specification 1.0, chapters 3 and 4 and appendix A.5). Which ones are accepted, and the
//! limits on the stack, are this project's own.
//!
//! # Example
//!
//! A contract cites a definition by its name:
//!
//! ```text
//! ghost use Rattle.wasm_rules.specs.Validity.{IsValid};
//!
//! pub fn validate(alloc: Global, module: LimitedModule) -> Result<ValidModule, ValidFault>
//!     ensures valid { OnOk result (IsValid «module») }
//! ```
//!
//! # Promises
//!
//! The calls of `laws` do nothing; what they ensure is proved of the definitions.
//!
//! - `typed_configurations_go_on`: type soundness. A reduced, typed configuration has ended or a
//!   counted step applies (`never_stuck`), and what follows is typed.
//! - `valid_modules_begin_typed`: the program of a valid module is typed, and once it is linked it
//!   begins reduced and typed (`begins`).
//! - `nothing_is_left_open`: opcodes spell one sequence at most, and counted steps lead to one
//!   configuration at most.
//! - `reached_shapes_are_typed`, `heights_are_small`: each position that typing reaches has a typed
//!   shape, and no more values than opcodes before it.
//! - `worked_examples`, `limits_on_examples`: typing, the first steps of programs, and limits.
//!
//! # Definitions to read
//!
//! In `specs/`: `HasType` (`Typing.antt`); `IsValid` (`Validity.antt`); `Configuration`
//! (`Configuration.antt`); `counted_step`, `administrative_step`, `Steps` (`Steps.antt`); `Begins`
//! (`Instantiation.antt`); `IsLinkable` (`Linking.antt`); `IsAccepted` (`Acceptance.antt`);
//! `IsTyped` (`Typed.antt`). Where the standard leaves a choice, `grown` and `is_exhausted` say
//! which one is taken.
//!
//! # Who may touch what
//!
//! There is no code here but the empty functions of `laws`. Validation, the machine, processes and
//! workers cite the rules. The crate takes no memory, and has no errors.
//!
//! # Choices
//!
//! - **Operands are listed from the top of the stack down.** The frame rule is then an append.
//! - **A function's body runs inside a label of its own**, as the standard has it. A branch to the
//!   outermost label is a return. After the last `end` a branch out of the whole body has a place.
//! - **The thread is read from inside**: frames, each with its labels, values and remaining
//!   instructions. No rule needs the standard's evaluation contexts.
//! - **The host's calls to come are part of a configuration** (`later`). Going on from one to the
//!   next is an administrative step, so a start function that returns needs no case of its own.
//! - **A host call names the thread that waits for it.** Its answer puts the results there, the
//!   same for `call` and `call_indirect`, and counts as the one step of the call.
//! - **What the host offers is a parameter** of linking (`Offer`). `BeginsTyped` has the premise
//!   that it offers no function from nothing to nothing: none is ever the start function.
//! - **A constant expression is one constant or one constant global.** The standard's rule by
//!   sequences allows no others, since each such instruction leaves one value.
//! - **Signed constants are kept as their two's complement.** A negative z is spelled as z + 2^N.
#![tactic(auto)]

pub mod laws;

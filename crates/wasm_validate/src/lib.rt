//! Validation: whether a module is valid, exactly as the typing rules say (Core Specification 1.0,
//! chapter 3).
//!
//! # Example
//!
//! ```text
//! let module = decode(alloc, bytes)?;
//! let valid = validate(alloc, module)?;
//! let context = ModuleContext::of(alloc, valid.module())?;
//! let of_first = context.function_type(0);
//! ```
//!
//! # Promises
//!
//! - `validate`: the module that it answers is the one that it was given (`same`), and is valid
//!   (`valid`). A fault other than out of memory comes only where it is not valid (`only`), and is
//!   of a kind that is there (`fault`). Where one kind alone applies, it is told. Which of several
//!   is told no clause says, but for types and imports.
//! - `ValidModule` is a valid module by its type, whose types and bodies are within the limits.
//! - `ModuleContext` looks up what typing looks up, each in constant time. `function_type_indices`
//!   has the index of the type of each function, imported ones first.
//! - `BodyChecker::check` judges one body after another (`typed`, `fault`).
//! - `BodyChecker::operand_types`: the types of a function's operands at a position of its typed
//!   body, the first operand's being 0. The answer is `None` where typing doesn't reach the
//!   position (`types_at`).
//! - `laws`: checking opcodes from the front passes exactly what the rules type
//!   (`checking_is_typing`). At each position it comes to what typing gives there
//!   (`checking_finds_shapes`).
//!
//! # Definitions to read
//!
//! `validate` speaks of `IsValid` of `wasm_rules` (`specs/Validity.antt`). What a module lacks
//! where a fault is told is `Denies` (`specs/rules/Answers.antt`) and `HasFault`
//! (`specs/rules/Faults.antt`). Other crates use `IsContextOf` (`specs/Parts/Contexts.antt`) and
//! `HasBody` (`specs/Body/Bodies.antt`).
//!
//! # Who may touch what
//!
//! Only this crate makes a `ValidModule`. `machine` calls `validate`. `machine`, `process` and
//! `state_image` use the type. `machine`, `machine_jumps` and `machine_frame` use the context,
//! and `machine_jumps` the `Stack` of `body`. Memory is taken in proportion to functions, globals,
//! exports and the longest body. Out of memory is `V5 Memory`. After any fault the module is gone.
#![tactic(auto)]

mod bodies;
mod body;
pub mod laws;
mod parts;
mod valid;

pub use body::stack::Stack;
pub use body::{BodyChecker, OperandTypes};
pub use parts::{ModuleContext, ValidFault, function_type_indices};
pub use valid::{ValidModule, validate};

//! Checking of function bodies from the front (Core Specification 1.0, section 3.3, by the
//! algorithm of its appendix A.3). Also the stack on which walks over bodies keep what is open.
//!
//! # Choices
//!
//! - **Checking is a definition of its own.** `checked` goes over the opcodes from the front and
//!   keeps what is known of the open sequences and their operands. One theorem says that it passes
//!   exactly what is typed. The code is proved equal to it, step by step, so no proof about code
//!   speaks of typing.
//! - What is known of an operand is its type or nothing, and after a jump there are always more.
//!   Nothing is guessed, and a body is checked in time linear in its opcodes.

mod body;
mod instructions;
mod levels;
mod operands;
mod operators;
mod scope;
pub mod stack;
mod step;
mod types;

pub use body::BodyChecker;
pub use types::OperandTypes;

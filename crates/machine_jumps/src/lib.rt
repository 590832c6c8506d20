//! The branch table of a function's body: where execution goes on after each branch, `if` and
//! `else`, and which values it keeps. A table does what sections 4.4.5 and 4.4.6 of the Core
//! Specification 1.0 say, without labels at run time.
//!
//! # Example
//!
//! The first jump of a `br` at a position, which leads to an opcode of the same body:
//!
//! ```text
//! let table = branch_table(alloc, &context, function_type, code)?;
//! let jump = table.jump_at(position, 0);
//! let next = jump.to;
//! ```
//!
//! # Promises
//!
//! - `branch_table`: the table is right at each position that typing reaches, if the body has its
//!   function's type (`IsTableOf`). Functions have to give one value at most, and there are fewer
//!   than 2^32 opcodes (`ones`, `one`, `few`).
//! - `BranchTable::jump` is the jump with this number of an opcode (`entry`). Of an opcode without
//!   such a jump it is another one, or none. `jump_at` is the same where there is such a jump.
//! - `laws::opcodes_are_first`, `laws::positions_lead_on`: what is at a position of a typed body,
//!   and at the next one where no jump is made.
//! - `laws::tables_are_right`: the table of one pass over the opcodes of a typed body is right.
//!
//! # Definitions to read
//!
//! In `specs/`: `Table`, `entry`, `IsTable` (`Tables.antt`); `JumpsTo`, `IsJump`, `IsExit`
//! (`Jumps.antt`); `IsTableOf`, `GivesOnes` (`Contexts.antt`). Positions and shapes are those of
//! `wasm_rules` (`body_shape`).
//!
//! # Who may touch what
//!
//! Only this crate knows how jumps are stored and found. `machine` makes tables, and
//! `machine_frame` reads them. `wasm_validate` has what typing looks up, and the stack that a walk
//! uses. `branch_table` takes memory, and out of memory is its only error. Looking up a jump takes
//! none.
#![tactic(auto)]

mod body;
mod closings;
pub mod jump;
pub mod laws;
mod open;
mod operands;
pub mod table;
mod walk;

pub use body::branch_table;
pub use jump::Jump;
pub use table::BranchTable;

//! What each of a module's own functions needs to be executed (Core Specification 1.0, section
//! 4.2.6): its branch table, its register code, and how many parameters, locals and results it has.
//! Linking makes it once.

mod making;
mod routine;

pub use making::{context_of, routines};
pub use routine::Routine;

//! From a module's bytes to a machine, or the reason why there is none: decoding, validation and
//! linking, one after another. Which modules are accepted is this project's own choice among the
//! valid modules of the Core Specification 1.0.
//!
//! # Choices
//!
//! - **Front end and start are apart** (`read`, then `Process::start`). A recovery makes its
//!   process of an image, and starts none.

mod fault;
mod steps;

pub use fault::ModuleFault;
pub use steps::{accept, read};

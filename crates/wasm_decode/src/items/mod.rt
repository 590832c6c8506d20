//! Reading the binary format from the front (Core Specification 1.0, chapter 5): bytes, integers,
//! vectors, names, types, instructions, expressions and what sections hold. The readers keep to
//! this project's limits, and say where the first fault is.

mod codes;
mod decoder;
mod entries;
mod expressions;
mod fault;
mod instructions;
mod item;
mod limit;
mod operators;
mod span;
mod step;
mod types;
mod vectors;

pub use codes::{code, whole_code};
pub use decoder::Decoder;
pub use entries::import;
pub use expressions::expression;
pub use fault::{ItemFault, ReadRefusal};
pub use item::Item;
pub use limit::{ModuleLimit, PassedLimit};
pub use span::Span;
pub use vectors::{name, skip_name, take_sized, vector, vector_up_to};

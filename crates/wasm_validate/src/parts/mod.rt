//! Everything of a module's validity except the bodies of its functions (Core Specification 1.0,
//! sections 3.2 and 3.4), and what typing looks up.

mod constants;
mod context;
mod counts;
mod exports;
mod fault;
mod globals;
mod imports;
mod indices;
mod limits;
mod parts;
mod segments;
mod start;

pub use context::{ModuleContext, function_type_indices};
pub use fault::ValidFault;
pub use parts::{check_before_data, check_data, check_types};

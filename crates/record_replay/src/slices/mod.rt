//! What it means that a process is run slice by slice, answered from outside, and that its lines
//! are released. `worker` runs one so.
//!
//! - A process's exchanges with the outside are one list, in their order. Each question is what the
//!   calls before it have led the process to want. All lines that were emitted before it had been
//!   released, and no question is asked again in one slice.
//! - Any error of a slice but a refused line is one of a next step that some fuel is left for. Out
//!   of memory is one of a call of the host: no other step takes memory.

mod fault;
mod laws;
mod now;

pub use fault::{Refusal, SliceFault};
pub use laws::{one_slice, slices_add, slices_add_in_vain};
pub use now::Now;

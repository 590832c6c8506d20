//! What the host does to a machine. A machine is begun with all memory that running needs (Core
//! Specification 1.0, section 4.5.4), and its calls are answered (section 4.4.7).

mod answering;
mod parts;
pub mod starting;

pub use answering::answer;
pub use starting::{MachineStart, begin};

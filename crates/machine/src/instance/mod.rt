//! Linking a valid module to the host (Core Specification 1.0, section 4.5.4). Found are calls and
//! entry, and the memory, globals and table with which the module begins. `LinkFault` says why a
//! module can't be linked.
//!
//! # Choices
//!
//! - A fault is pinned: it names the first thing that isn't there, in the order of the faults.
//! - Whether segments are inside is decided before any memory is taken, from sizes alone.
//! - An instance has public fields, so that `hosting` can take it apart and keep each part.

mod calls;
mod constants;
mod exports;
mod fault;
mod globals;
mod instance;
mod items;
mod memory;
mod segments;
mod table;

pub use exports::entry_of;
pub use fault::LinkFault;
pub use instance::Instance;
pub use memory::first_pages;

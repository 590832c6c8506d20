//! The process of an image, made again, and what it is made of.

mod accepting;
mod creating;
mod descriptors;
mod fault;
mod files;
mod hanging;
mod host;
mod list_readers;
mod machine_state;
mod opened;
mod parts;
mod progress;
mod tree;
mod whole;
mod whole_node;

pub use fault::RestoreFault;
pub use files::restore_files;
pub use host::restore_host;
pub use machine_state::restore_machine;
pub use opened::descriptor_of;
pub use progress::ProcessProgress;
pub use tree::tree_of;
pub use whole::{restore, restore_into};
pub use whole_node::{WholeContent, WholeNode};

//! The files of a tree, listed by their paths (this project's own).
//!
//! # Example
//!
//! ```text
//! for node in list_nodes(alloc, host.tree())? { .. }
//! let bytes = read_path(alloc, host.tree(), b"notes/today")?;
//! ```
//!
//! # Promises
//!
//! - `list_nodes`: the nodes that have a path, but for the root, by rising numbers. Each has its
//!   number, whether it is a directory, its size and its path (`listing_in`). A node that was
//!   removed isn't among them, though a descriptor may name it still. Each path is UTF-8 without a
//!   byte 0, and none of its names is empty, `.` or `..` (`HaveNames`). The directory of each is
//!   listed, too, but the root (`HaveParents`).
//! - `read_path`: the bytes of the file that is listed under a path. Or no node is listed so, or it
//!   is a directory (`ReadsPath`). `read_node`: the bytes of the node with a number.
//!
//! # Definitions to read
//!
//! In `specs/rules/`: `path_text`, `listing_in`, `IsPathText`, `ReadsPath` (`Listed.antt`). The
//! words are those of `file_tree`.
//!
//! # Who may touch what
//!
//! A tree is only asked. All three functions take memory, and out of memory is the only error of
//! the first and the last one.
//!
//! # Choices
//!
//! - **A path is text as it is printed**: its names with a `/` between each two. No name has a `/`
//!   in it, so a text is that of one path at most. The root has no name, so it isn't listed.
#![tactic(auto)]

mod fault;
mod listed;
mod listing;
mod reading;

pub use fault::PathFault;
pub use listed::ListedNode;
pub use listing::list_nodes;
pub use reading::{read_node, read_path};

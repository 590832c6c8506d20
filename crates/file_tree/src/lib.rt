//! The file system of a worker: a tree of files and directories in memory (this project's own).
//!
//! # Example
//!
//! A file is made in the root, which is node 1, gets room, and then bytes:
//!
//! ```text
//! let mut tree = Tree::new(alloc)?;
//! let file = tree.create(alloc, 1, b"notes", NodeType::File)?;
//! tree.resize(file, 5)?;
//! tree.write(file, 0, b"hello");
//! let mut bytes = [0; 5];
//! let count = tree.read(file, 0, &mut bytes);
//! ```
//!
//! Whoever changes a tree has first tested what a change requires, by the tree's questions.
//! `create` wants a free name in a directory that has a path (`is_directory`, `has_path`, `child`,
//! `is_name`), and room (`len`, `next`).
//!
//! # Promises
//!
//! - A `Tree` is a file system of the definitions at any time (`len`: `shape`). `Tree::new` is the
//!   fresh one, an empty root.
//! - Each question answers what the definitions do. `entry` goes by the order of names, `number_at`
//!   by rising numbers, `entry_after` by a name, whether or not an entry has that.
//! - Each change is the one of the definitions. `create`, `create_removed` and `resize` may be out
//!   of memory, and then nothing has changed (`unchanged`). `write`, `remove`, `forget`,
//!   `forget_removed`, `rename`, `hang` and `raise_next` can't fail.
//! - By `create_removed`, `hang` and `raise_next` a tree is built anew from what was told of it.
//! - Files lie in chunks of 4,096 bytes, as many as their bytes need (`chunks`).
//! - `laws`: a rename moves what lies below a path and no other path. Entries tell paths, and a
//!   tree of the same nodes and entries is the same one.
//! - `limits` has the numbers that code and definitions share, as `NODES` and `FILE_BYTES`.
//!
//! # Definitions to read
//!
//! In `specs/rules/`: `Files`, `IsFiles` and the changes (`Files.antt`, `Bytes.antt`); `chunks_of`
//! (`Chunks.antt`); `number_at` (`Listings.antt`); what changes ask for, as `IsFree` and `CanMove`
//! (`Changes.antt`).
//!
//! # Who may touch what
//!
//! Only this crate knows that nodes lie in a slab, with two orders beside it, by number and by
//! name. Each node names its directory by number. A file's bytes lie in chunks of one more slab,
//! and its node has their keys and its length. `wasi_calls` changes a tree, and `state_image` reads
//! one and builds it anew. The crate uses no other one of this repository. `new`, `create`,
//! `create_removed`, `resize` and `ByteList::copy_of` take memory, and out of memory is the only
//! error.
//!
//! # Choices
//!
//! - **The tree answers out of memory alone.** Which error number a call gives is the host's to
//!   say. Each change asks for what the caller has tested.
//! - **The room for all files is the caller's**, too. The tree knows no such setting, and counts
//!   the bytes (`used_bytes`).
#![tactic(auto)]

mod children;
mod forgetting;
pub mod laws;
pub mod limits;
mod lookup;
mod names;
mod node_type;
mod store;
mod tree;

pub use crate::store::ByteList;
pub use names::is_name;
pub use node_type::NodeType;
pub use tree::Tree;

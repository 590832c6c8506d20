//! What a file tree is stored in. Nodes are in a slab, which contracts see as a list in the order
//! in which they were pushed. The bytes of all files are in the chunks of one more slab, and a file
//! has the keys of its chunks. Names have bytes of their own.
//!
//! # Choices
//!
//! - **Two orders are beside the slab.** Each is a vector of keys. In one all nodes are by rising
//!   numbers: a new node has the largest number yet, so it is put at the end. In the other those
//!   that hang in directories are by directory, and there by name. A node is found by its number,
//!   or by a directory and a name, by halving: in ten steps among 1,024. What is after a name, and
//!   what is at a place of a directory, is a step from there. A change moves keys within a vector,
//!   8 KiB at most. Trees would have more parts to prove, and gain nothing at this size.
//! - **A name's room is taken when the node is made.** A rename takes a key out of the order of
//!   names and puts it in at another place, which needs no room. A removal takes it out. Neither
//!   can need memory.
//! - **Nodes stay apart from chunks.** The slab of nodes and its two orders know nothing of bytes.
//!   Around them a container has the chunks, and shows nodes with bytes (`FileNodes`). To all code
//!   above it a file is a list of bytes.

mod bytes;
mod chunks;
mod file;
mod file_nodes;
mod named;
mod node;
mod nodes;

pub use bytes::ByteList;
pub use file::FileChunks;
pub use file_nodes::FileNodes;
pub use node::{Hook, Node, NodeContent};

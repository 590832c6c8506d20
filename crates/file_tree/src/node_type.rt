//! Types of nodes.

/// What a new node is.
#[derive(Clone, Copy, Debug, PartialEq, Eq)]
pub enum NodeType {
    /// A directory without entries.
    Directory,
    /// A file without bytes.
    File,
}

//! Nodes with all that an image tells of them.

use crate::reading::ReadEntry;

/// The entries of a directory, or the bytes of a file.
#[derive(Drop)]
pub enum WholeContent<'a> {
    Directory(Vec<ReadEntry<'a>>),
    File(&'a [u8]),
}

/// A node's number, and what it holds.
#[derive(Drop)]
pub struct WholeNode<'a> {
    pub number: u64,
    pub content: WholeContent<'a>,
}

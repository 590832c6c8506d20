//! Nodes of a file tree.
//!
//! # Choices
//!
//! - **A node names its directory by number, never by its key in the slab.** A number that a
//!   descriptor holds means the same whatever is removed. No number is used again: the next one
//!   only rises, and a dropped node's isn't given out.
//! - **A path isn't kept.** Climbing from a node to the root finds it, and a rename changes one
//!   node. Climbing ends, since the numbers on the way differ and lie below the next one.

ghost use Rattle.std.specs.Prelude.{◌≡◌, ◌+◌, ◌≤◌, ◌++◌, [], false, length, take, drop, OnOk};
ghost use Rattle.std.specs.Prelude.{OnErr};
ghost use Rattle.file_tree.specs.declared.limits.TheConstants.{FILE_BYTES};
ghost use Rattle.file_tree.specs.rules.Bytes.{written, resized};
ghost use Rattle.file_tree.specs.rules.Chunks.{chunk_of};
ghost use Rattle.file_tree.specs.Store.Bodies.{keys_of, len_of, bytes_of_file, HasChunks, Rekeys};
ghost use Rattle.file_tree.specs.Store.Bodies.{TurnsInto};
ghost use Rattle.file_tree.specs.Store.Joined.{file_body, node_keys};

use crate::store::bytes::ByteList;
use crate::store::chunks::Chunk;
use crate::store::file::FileChunks;
use slab::Slab;
use std::alloc::AllocError;

/// Where a node hangs.
#[derive(Debug, Drop)]
pub enum Hook {
    /// It is the root.
    Root,
    /// It was removed.
    Removed,
    /// In the directory with this number, under this name.
    In(u64, ByteList),
}

/// What a node holds.
#[derive(Debug, Drop)]
pub enum NodeContent {
    /// It is a directory.
    Directory,
    /// It is a file, whose bytes lie in these chunks.
    File(FileChunks),
}

/// A file or a directory.
#[derive(Debug, Drop)]
pub struct Node {
    /// Its number, by which the tree names it.
    pub number: u64,
    /// Where it hangs.
    pub hook: Hook,
    /// What it holds.
    pub content: NodeContent,
}

impl NodeContent {
    ghost use Rattle.file_tree.specs.rules.Files.{is_directory_content};
    ghost use Rattle.file_tree.specs.Links.{content_shown};

    /// Puts bytes in the place of others of a file.
    pub fn write(&self, chunks: &mut Slab<Chunk>, from: usize, bytes: &[u8])
        requires file { is_directory_content (content_shown self.now) ≡ false }
        requires held { HasChunks chunks.old (file_body self.now) }
        requires within { from + length bytes.now ≤ len_of (file_body self.now) }
        ensures { TurnsInto chunks.old chunks.new (file_body self.now) (file_body self.now)
            (written (bytes_of_file chunks.old (file_body self.now)) from bytes.now) }
    {
        match self {
            NodeContent::Directory => {}
            NodeContent::File(file) => file.write(chunks, from, bytes),
        }
    }

    /// Cuts a file to a size, or puts zeros after its bytes up to it. It fails only when out of
    /// memory, and then nothing is changed.
    pub fn resize(&mut self, chunks: &mut Slab<Chunk>, size: usize) -> Result<(), AllocError>
        requires file { is_directory_content (content_shown self.old) ≡ false }
        requires held { HasChunks chunks.old (file_body self.old) }
        requires size { size ≤ FILE_BYTES }
        ensures file { is_directory_content (content_shown self.new) ≡ false }
        ensures resized { OnOk result
            (TurnsInto chunks.old chunks.new (file_body self.old) (file_body self.new)
            (resized (bytes_of_file chunks.old (file_body self.old)) size)) }
        ensures unchanged { OnErr result (self.new ≡ self.old) }
        ensures kept { OnErr result (Rekeys chunks.old chunks.new [] []) }
    {
        match self {
            NodeContent::Directory => Ok(()),
            NodeContent::File(file) => file.resize(chunks, size),
        }
    }

    /// Gives back all chunks of a file.
    pub fn free(&mut self, chunks: &mut Slab<Chunk>)
        requires { HasChunks chunks.old (file_body self.old) }
        ensures { Rekeys chunks.old chunks.new (keys_of (file_body self.old)) [] }
    {
        match self {
            NodeContent::Directory => {}
            NodeContent::File(file) => file.free(chunks),
        }
    }

    /// The bytes of a file in its chunk at a place.
    pub fn chunk<'a>(&self, chunks: &'a Slab<Chunk>, index: usize) -> &'a [u8]
        requires { HasChunks chunks.now (file_body self.now) }
        ensures { result.now ≡ chunk_of (bytes_of_file chunks.now (file_body self.now)) index }
    {
        match self {
            NodeContent::Directory => b"",
            NodeContent::File(file) => file.chunk(chunks, index),
        }
    }

    /// Puts a file's bytes from one of them on into `into`, as many as there are and fit, and gives
    /// how many.
    pub fn read(&self, chunks: &Slab<Chunk>, from: usize, into: &mut [u8]) -> usize
        requires { HasChunks chunks.now (file_body self.now) }
        ensures count { result ≡ length (take (length into.old)
            (drop from (bytes_of_file chunks.now (file_body self.now)))) }
        ensures bytes { into.new
            ≡ take (length into.old) (drop from (bytes_of_file chunks.now (file_body self.now)))
            ++ drop result into.old }
    {
        match self {
            NodeContent::Directory => 0,
            NodeContent::File(file) => file.read(chunks, from, into),
        }
    }
}

/// Drops a node, and gives back the chunks of its file.
pub fn free_node(chunks: &mut Slab<Chunk>, mut node: Node)
    requires { HasChunks chunks.old (file_body node.content) }
    ensures { Rekeys chunks.old chunks.new (node_keys node) [] }
{
    node.content.free(chunks);
}

//! Nodes with the bytes of their files, which lie in the chunks of one slab.

ghost use Rattle.std.specs.Prelude.{◌≡◌, ◌+◌, ◌<◌, ◌≤◌, ◌++◌, ◌∷◌, [], ℕ, length, slice_index_or};
ghost use Rattle.std.specs.Prelude.{None, option_copied, option_map, OnOk, OnErr, false, take};
ghost use Rattle.std.specs.Prelude.{drop};
ghost use Rattle.std.specs.List.{AllByRecursion, remove};
ghost use Rattle.file_tree.specs.declared.limits.TheConstants.{FILE_BYTES};
ghost use Rattle.file_tree.specs.rules.Chunks.{chunk_of};
ghost use Rattle.file_tree.specs.rules.Files.{is_directory_content};
ghost use Rattle.file_tree.specs.Links.{child_in, content_shown, file_bytes_of, chunks_in};
ghost use Rattle.file_tree.specs.Nearest.{nearest_node, node_listed, IsCountListed};
ghost use Rattle.file_tree.specs.Store.Bodies.{InChunks};
ghost use Rattle.file_tree.specs.Store.Changes.{with_hook, node_written, node_resized};
ghost use Rattle.file_tree.specs.Store.Cuts.{AreOrdered};
ghost use Rattle.file_tree.specs.Store.Joined.{file_body, kept_number, new_node, IsKeptAs};
ghost use Rattle.file_tree.specs.Store.Kept.{IsLower};
ghost use Rattle.file_tree.specs.Store.Named.{IsFreeHook};
ghost use Rattle.file_tree.specs.Store.Stored.{changed};
ghost use Rattle.file_tree.specs.declared.store.node.Hook.TheVariants.{Removed, In};

use crate::store::bytes::ByteList;
use crate::store::chunks::Chunk;
use crate::store::node::{Node, free_node};
use crate::store::nodes::Nodes;
use slab::Slab;
use std::alloc::{AllocError, Global};
use std::marker::Model;

/// Nodes, and the chunks of all their files. Contracts see a list of nodes with bytes. Each chunk
/// is one of one file, and a chunk that a file has no more is used again.
#[derive(Drop)]
pub struct FileNodes {
    nodes: Nodes,
    chunks: Slab<Chunk>,
}

impl Model for FileNodes {
    ghost use Rattle.std.specs.Prelude.{List};
    ghost use Rattle.file_tree.specs.declared.store.node.Node.{Node as TheNode};

    ghost Value = { List TheNode };

    ghost use Rattle.file_tree.specs.Store.Joined.{joined_nodes, KeepsFiles};

    ghost view = { λ s. joined_nodes s.chunks s.nodes };

    ghost invariant = { λ s. KeepsFiles s.chunks s.nodes };
}

impl FileNodes {
    ghost use Rattle.file_tree.specs.declared.store.node.Node.{Node as TheNode};

    /// No nodes. It takes no memory.
    pub fn new(alloc: Global) -> Self
        ensures { result ≡ [] }
    {
        FileNodes {
            nodes: Nodes::new(alloc),
            chunks: Slab::new(alloc),
        }
    }

    /// How many nodes there are. Their numbers rise.
    pub fn len(&self) -> usize
        ensures count { result ≡ length self.now }
        ensures rising { AreOrdered IsLower self.now }
    {
        self.nodes.len()
    }

    /// How many chunks all files have.
    pub fn chunks(&self) -> usize
        ensures { result ≡ chunks_in self.now }
    {
        self.chunks.len()
    }

    /// Puts a node after the others, whose numbers are lower. It has no bytes, and nothing hangs
    /// where it does. The room to hang it is taken too, wherever it hangs now. It fails only when
    /// out of memory, and then nothing is changed.
    pub fn push(&mut self, node: Node) -> Result<(), AllocError>
        requires number { AllByRecursion (λ (n : TheNode). n.number < node.number) self.old }
        requires free { IsFreeHook node.hook self.old }
        requires empty { file_body node.content ≡ InChunks [] 0 }
        ensures pushed { OnOk result (self.new ≡ self.old ++ new_node node ∷ []) }
        ensures unchanged { OnErr result (self.new ≡ self.old) }
    {
        self.nodes.push(node)
    }

    /// The number of the node that hangs in a directory under a name.
    pub fn child(&self, directory: u64, name: &[u8]) -> Option<u64>
        ensures { result ≡ child_in self.now directory name.now }
    {
        self.nodes.child(directory, name)
    }

    /// The node that hangs in a directory under the least name after this one, by its number.
    pub fn nearest_after(&self, directory: u64, name: &[u8]) -> Option<&Node>
        ensures { option_map kept_number (option_copied result)
            ≡ option_map kept_number (nearest_node directory name.now None self.now) }
    {
        self.nodes.nearest_after(directory, name)
    }

    /// The node at a place in a directory, by the order of names, by its number.
    pub fn entry(&self, directory: u64, place: usize) -> Option<&Node>
        ensures { option_map kept_number (option_copied result)
            ≡ option_map kept_number (node_listed self.now directory place) }
    {
        self.nodes.entry(directory, place)
    }

    /// How many nodes hang in a directory. Each step halves those that are left.
    pub fn count_in(&self, directory: u64) -> usize
        ensures { IsCountListed self.now directory result }
    {
        self.nodes.count_in(directory)
    }

    /// The node at a place, all but its bytes.
    pub fn get(&self, place: usize) -> &Node
        requires { place < length self.now }
        ensures { IsKeptAs result.now (slice_index_or self.now place result.now) }
    {
        self.nodes.get(place)
    }

    /// Puts the bytes of the file at a place from one of them on into `into`, as many as there are
    /// and fit, and gives how many. What is after them in `into` stays.
    pub fn read(&self, place: usize, from: usize, into: &mut [u8]) -> usize
        requires { place < length self.now }
        ensures count { (n : TheNode) → n ≡ slice_index_or self.now place n
            → result ≡ length (take (length into.old) (drop from (file_bytes_of n))) }
        ensures bytes { (n : TheNode) → n ≡ slice_index_or self.now place n
            → into.new
            ≡ take (length into.old) (drop from (file_bytes_of n)) ++ drop result into.old }
    {
        let node = self.nodes.get(place);
        node.content.read(&self.chunks, from, into)
    }

    /// The bytes of the file at a place in its chunk at another one.
    pub fn chunk(&self, place: usize, index: usize) -> &[u8]
        requires { place < length self.now }
        ensures { (n : TheNode) → n ≡ slice_index_or self.now place n
            → result.now ≡ chunk_of (file_bytes_of n) index }
    {
        let node = self.nodes.get(place);
        node.content.chunk(&self.chunks, index)
    }

    /// Takes the node at a place off its hook.
    pub fn unhang(&mut self, place: usize)
        requires { place < length self.old }
        ensures { self.new ≡ changed (with_hook Removed) place self.old }
    {
        self.nodes.unhang(place);
    }

    /// Hangs the node at a place in a directory under a name, wherever it hung before. Nothing
    /// hangs there. It takes no memory.
    pub fn move_to(&mut self, place: usize, directory: u64, name: ByteList)
        requires place { place < length self.old }
        requires free { child_in self.old directory name ≡ None }
        ensures { self.new ≡ changed (with_hook (In directory name)) place self.old }
    {
        self.nodes.move_to(place, directory, name);
    }

    /// Puts bytes in the place of others of the file at a place.
    pub fn write(&mut self, place: usize, from: usize, bytes: &[u8])
        requires place { place < length self.old }
        requires file { (n : TheNode) → n ≡ slice_index_or self.old place n
            → is_directory_content (content_shown n.content) ≡ false }
        requires within { (n : TheNode) → n ≡ slice_index_or self.old place n
            → from + length bytes.now ≤ length (file_bytes_of n) }
        ensures { self.new ≡ changed (node_written from bytes.now) place self.old }
    {
        let node = self.nodes.get(place);
        node.content.write(&mut self.chunks, from, bytes);
    }

    /// Cuts the file at a place to a size, or puts zeros after its bytes up to it. It fails only
    /// when out of memory, and then nothing is changed.
    pub fn resize(&mut self, place: usize, size: usize) -> Result<(), AllocError>
        requires place { place < length self.old }
        requires size { size ≤ FILE_BYTES }
        requires file { (n : TheNode) → n ≡ slice_index_or self.old place n
            → is_directory_content (content_shown n.content) ≡ false }
        ensures resized { OnOk result (self.new ≡ changed (node_resized size) place self.old) }
        ensures unchanged { OnErr result (self.new ≡ self.old) }
    {
        self.nodes.resize(&mut self.chunks, place, size)
    }

    /// Drops the node at a place. The chunks of its file are free from then on.
    pub fn remove(&mut self, place: usize)
        requires { place < length self.old }
        ensures { self.new ≡ remove self.old place }
    {
        let node = self.nodes.remove(place);
        free_node(&mut self.chunks, node);
    }
}

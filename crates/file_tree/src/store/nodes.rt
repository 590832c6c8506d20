//! Nodes in a slab, in the order in which they were pushed, and in that of their directories and
//! names.

ghost use Rattle.std.specs.Prelude.{◌≡◌, ◌+◌, ◌<◌, ◌≤◌, ◌++◌, ◌∷◌, [], length, slice_index_or};
ghost use Rattle.std.specs.Prelude.{None, option_copied, OnOk, OnErr, false};
ghost use Rattle.std.specs.List.{AllByRecursion, remove};
ghost use Rattle.file_tree.specs.declared.limits.TheConstants.{FILE_BYTES};
ghost use Rattle.file_tree.specs.Store.Stored.{changed};
ghost use Rattle.file_tree.specs.Store.Bodies.{HasChunks, Rekeys};
ghost use Rattle.file_tree.specs.Store.Changes.{with_hook};
ghost use Rattle.file_tree.specs.Store.Cuts.{AreOrdered};
ghost use Rattle.file_tree.specs.Store.Kept.{IsLower};
ghost use Rattle.file_tree.specs.Store.Named.{IsFreeHook};
ghost use Rattle.file_tree.specs.Links.{child_in, is_hooked};
ghost use Rattle.file_tree.specs.rules.Files.{is_same_name};
ghost use Rattle.file_tree.specs.Nearest.{nearest_node, node_listed, IsCountListed};
ghost use Rattle.file_tree.specs.declared.store.node.Hook.TheVariants.{Removed, In};

use crate::store::bytes::ByteList;
use crate::store::chunks::Chunk;
use crate::store::named::{count_up_to, node_named, put_key, take_key};
use crate::store::node::{Hook, Node};
use slab::Slab;
use std::alloc::{AllocError, Global};
use std::marker::Model;

/// Nodes, which contracts see as a list. A node stays where it is in memory, whatever is removed
/// before it.
#[derive(Drop)]
pub struct Nodes {
    slab: Slab<Node>,
    // the keys of all nodes, by their numbers
    order: Vec<usize>,
    // the keys of those that hang in directories, by these and their names
    names: Vec<usize>,
}

impl Model for Nodes {
    ghost use Rattle.std.specs.Prelude.{List};
    ghost use Rattle.file_tree.specs.declared.store.node.Node.{Node as TheNode};

    ghost Value = { List TheNode };

    ghost use Rattle.file_tree.specs.Store.Stored.{stored};
    ghost use Rattle.file_tree.specs.Store.Kept.{AreStoredNodes};

    ghost view = { λ a. stored a.slab a.order.items };

    ghost use Rattle.std.specs.Prelude.{◌≤◌};
    ghost use Rattle.std.specs.Vec.{vec_len, vec_capacity};

    // there is room for the keys of all nodes
    ghost invariant = { λ a. AreStoredNodes a.slab a.order.items a.names.items
        × (vec_len a.names ≤ vec_capacity a.names) × (vec_len a.order ≤ vec_capacity a.names) };
}

impl Nodes {
    ghost use Rattle.file_tree.specs.declared.store.node.Node.{Node as TheNode};
    ghost use Rattle.file_tree.specs.rules.Files.{is_directory_content};
    ghost use Rattle.file_tree.specs.Links.{content_shown};
    ghost use Rattle.file_tree.specs.Store.Joined.{file_body, ResizesAt};

    /// No nodes. It takes no memory.
    pub fn new(alloc: Global) -> Self
        ensures { result ≡ [] }
    {
        Nodes {
            slab: Slab::new(alloc),
            order: Vec::new(alloc),
            names: Vec::new(alloc),
        }
    }

    /// How many nodes there are. Their numbers rise.
    pub fn len(&self) -> usize
        ensures count { result ≡ length self.now }
        ensures rising { AreOrdered IsLower self.now }
    {
        self.order.len()
    }

    /// Puts a node after the others, whose numbers are lower. Nothing hangs where it does. The room
    /// to hang it is taken too, wherever it hangs now. It fails only when out of memory, and then
    /// nothing is changed.
    pub fn push(&mut self, node: Node) -> Result<(), AllocError>
        requires number { AllByRecursion (λ (n : TheNode). n.number < node.number) self.old }
        requires free { IsFreeHook node.hook self.old }
        ensures pushed { OnOk result (self.new ≡ self.old ++ node ∷ []) }
        ensures unchanged { OnErr result (self.new ≡ self.old) }
    {
        self.slab.reserve(1)?;
        self.names.reserve(self.order.len() + 1 - self.names.len())?;
        let key = self.slab.vacant_key();
        self.order.push(key)?;
        self.slab.insert_reserved(node);
        put_key(&self.slab, &mut self.names, key);
        Ok(())
    }

    /// The number of the node that hangs in a directory under a name.
    pub fn child(&self, directory: u64, name: &[u8]) -> Option<u64>
        ensures { result ≡ child_in self.now directory name.now }
    {
        let names = self.names.as_slice();
        let behind = count_up_to(&self.slab, names, directory, name);
        if behind == 0 {
            return None;
        }
        let node = &self.slab[names[behind - 1]];
        if hangs_under(&node.hook, directory, name) {
            return Some(node.number);
        }
        None
    }

    /// The node that hangs in a directory under the least name after this one.
    pub fn nearest_after(&self, directory: u64, name: &[u8]) -> Option<&Node>
        ensures { option_copied result ≡ nearest_node directory name.now None self.now }
    {
        let names = self.names.as_slice();
        let place = count_up_to(&self.slab, names, directory, name);
        node_named(&self.slab, names, place, directory)
    }

    /// The node at a place in a directory, by the order of names.
    pub fn entry(&self, directory: u64, place: usize) -> Option<&Node>
        ensures { option_copied result ≡ node_listed self.now directory place }
    {
        let names = self.names.as_slice();
        let first = count_up_to(&self.slab, names, directory, b"");
        if place >= names.len() - first {
            return None;
        }
        node_named(&self.slab, names, place + first, directory)
    }

    /// How many nodes hang in a directory. Each step halves those that are left.
    pub fn count_in(&self, directory: u64) -> usize
        ensures { IsCountListed self.now directory result }
    {
        let keys = self.names.as_slice();
        let first = count_up_to(&self.slab, keys, directory, b"");
        let mut low = first;
        let mut high = keys.len();
        while low < high {
            let middle = low + (high - low) / 2;
            if node_named(&self.slab, keys, middle, directory).is_some() {
                low = middle + 1;
            } else {
                high = middle;
            }
        }
        low - first
    }

    /// The node at a place.
    pub fn get(&self, place: usize) -> &Node
        requires { place < length self.now }
        ensures { result.now ≡ slice_index_or self.now place result.now }
    {
        match self.slab.get(self.order[place]) {
            Some(node) => node,
            None => unreachable!(),
        }
    }

    /// Takes the node at a place off its hook.
    pub fn unhang(&mut self, place: usize)
        requires { place < length self.old }
        ensures { self.new ≡ changed (with_hook Removed) place self.old }
    {
        let key = self.order[place];
        take_key(&self.slab, &mut self.names, key);
        self.slab[key].hook = Hook::Removed;
    }

    /// Hangs the node at a place in a directory under a name, wherever it hung before. Nothing
    /// hangs there. It takes no memory.
    pub fn move_to(&mut self, place: usize, directory: u64, name: ByteList)
        requires place { place < length self.old }
        requires free { child_in self.old directory name ≡ None }
        ensures { self.new ≡ changed (with_hook (In directory name)) place self.old }
    {
        let key = self.order[place];
        take_key(&self.slab, &mut self.names, key);
        self.slab[key].hook = Hook::In(directory, name);
        put_key(&self.slab, &mut self.names, key);
    }

    /// Cuts the file at a place to a size, or puts zeros after its bytes up to it. It fails only
    /// when out of memory, and then nothing is changed.
    pub fn resize(
        &mut self,
        chunks: &mut Slab<Chunk>,
        place: usize,
        size: usize,
    ) -> Result<(), AllocError>
        requires place { place < length self.old }
        requires size { size ≤ FILE_BYTES }
        requires file { (n : TheNode) → n ≡ slice_index_or self.old place n
            → is_directory_content (content_shown n.content) ≡ false }
        requires held { (n : TheNode) → n ≡ slice_index_or self.old place n
            → HasChunks chunks.old (file_body n.content) }
        ensures resized { OnOk result
            (ResizesAt chunks.old chunks.new self.old self.new place size) }
        ensures unchanged { OnErr result (self.new ≡ self.old) }
        ensures kept { OnErr result (Rekeys chunks.old chunks.new [] []) }
    {
        let key = self.order[place];
        match self.slab.get_mut(key) {
            Some(node) => node.content.resize(chunks, size),
            None => unreachable!(),
        }
    }

    /// Takes out the node at a place.
    pub fn remove(&mut self, place: usize) -> Node
        requires { place < length self.old }
        ensures node { result ≡ slice_index_or self.old place result }
        ensures others { self.new ≡ remove self.old place }
    {
        let key = self.order.remove(place);
        take_key(&self.slab, &mut self.names, key);
        match self.slab.try_remove(key) {
            Some(node) => node,
            None => unreachable!(),
        }
    }
}

// Whether a node with this hook hangs in a directory under a name.
fn hangs_under(hook: &Hook, directory: u64, name: &[u8]) -> bool
    ensures { result ≡ is_hooked directory name.now hook.now }
{
    match hook {
        Hook::Root => false,
        Hook::Removed => false,
        Hook::In(parent, other) => *parent == directory && is_same(other.as_slice(), name),
    }
}

// Whether two names are the same.
fn is_same(name: &[u8], other: &[u8]) -> bool
    ensures { result ≡ is_same_name name.now other.now }
{
    name == other
}

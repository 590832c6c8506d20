//! A tree of files.
//!
//! # Choices
//!
//! - **Limits are the caller's**: fewer than 1,024 nodes (`len`), and a file of 1 MiB at most.
//!   Another number has to be left as well (`next`), which the counted steps of a process give.
//!   Asked for so, the first two hold of every tree.
//! - **What has no node is left as it is.** A write, a removal and the like do nothing for a number
//!   that no node has, as the definitions say.
//! - **A write needs no memory**: it puts bytes in the place of others. Who writes beyond the end
//!   first makes room by `resize`, which alone can fail. Several pieces then need no joined copy.
//! - **A directory's entries are asked for by place** (`entry`), which is what a cookie names. No
//!   list is made. What an entry is called is `name`.
//! - `rename` takes its name as bytes that the caller has copied, so it can't fail. What is at the
//!   target may be removed before it.
//! - `is_within` and `parent` follow the directories' numbers and take no memory, so a walk needs
//!   no list of the directories after it.

ghost use Rattle.std.specs.Prelude.{◌≡◌, ◌<◌, ◌^◌, ◌++◌, ◌∷◌, [], length, ℕ, ◌+◌, ◌≢◌, Some};
ghost use Rattle.std.specs.Prelude.{slice_get, option_map, IfSome, IfNone, ◌≤◌, ◌==◌, drop, false};
ghost use Rattle.std.specs.Prelude.{IfOk, OnOk, OnErr, is_some};
ghost use Rattle.file_tree.specs.rules.Bytes.{written, resized};
ghost use Rattle.file_tree.specs.rules.Files.{Name, Path, Entry, IsFiles, fresh, node_of};
ghost use Rattle.file_tree.specs.rules.Files.{is_directory, bytes_of_node, used, path_of, child};
ghost use Rattle.file_tree.specs.rules.Files.{entries_of, created};
ghost use Rattle.file_tree.specs.rules.Files.{created_removed, hung, with_next};
ghost use Rattle.file_tree.specs.rules.Files.{with_file_bytes, removed, forgotten, renamed};
ghost use Rattle.file_tree.specs.rules.Chunks.{chunks_of, chunk_of};
ghost use Rattle.file_tree.specs.rules.Listings.{number_at, number_at_place, number_after};
ghost use Rattle.file_tree.specs.rules.Listings.{HasNameAtPlace};
ghost use Rattle.file_tree.specs.rules.Changes.{IsFree, CanHang, CanLose, CanMove, IsParent};
ghost use Rattle.file_tree.specs.rules.Changes.{is_within, empty, path_at, read_from};
ghost use Rattle.file_tree.specs.declared.limits.TheConstants.{NODES, FILE_BYTES};

use crate::children::{leads_to, parent_of};
use crate::lookup::{
    chunk_held, holds_directory, holds_node, holds_path, name_held, new_content, node_index,
    node_of, number_held, read_held, size_held,
};
use crate::node_type::NodeType;
use crate::store::{ByteList, FileNodes, Hook, Node, NodeContent};
use std::alloc::{AllocError, Global};
use std::marker::Model;

/// Files and directories, which contracts see by their numbers and whole paths.
#[derive(Drop)]
pub struct Tree {
    nodes: FileNodes,
    next: u64,
    used: u64,
}

impl Model for Tree {
    ghost use Rattle.std.specs.Prelude.{◌≡◌};
    ghost use Rattle.file_tree.specs.rules.Files.{Files};

    ghost Value = { Files };

    ghost use Rattle.file_tree.specs.Links.{files, AreNodes, used_in};

    ghost view = { λ t. files t.nodes t.next };

    ghost invariant = { λ t. AreNodes t.nodes t.next × (t.used ≡ used_in t.nodes) };
}

impl Tree {
    /// A fresh tree: the root alone, which is node 1. It fails only when out of memory.
    pub fn new(alloc: Global) -> Result<Self, AllocError>
        ensures { IfOk result (λ tree. tree ≡ fresh) }
    {
        let mut nodes = FileNodes::new(alloc);
        nodes.push(Node {
            number: 1,
            hook: Hook::Root,
            content: NodeContent::Directory,
        })?;
        Ok(Tree {
            nodes,
            next: 2,
            used: 0,
        })
    }

    /// Whether a directory has this number.
    pub fn is_directory(&self, number: u64) -> bool
        ensures { result ≡ is_directory self.now number }
    {
        holds_directory(node_of(&self.nodes, number))
    }

    /// How many bytes the file with this number has; a directory has none.
    pub fn size(&self, number: u64) -> u64
        ensures { result ≡ length (bytes_of_node self.now number) }
    {
        size_held(node_of(&self.nodes, number)) as u64
    }

    /// How many bytes all files have, removed ones that are still there included.
    pub fn used_bytes(&self) -> u64
        ensures { result ≡ used self.now }
    {
        self.used
    }

    /// How many chunks all files have, removed ones that are still there included: what they take
    /// of memory.
    pub fn chunks(&self) -> usize
        ensures { result ≡ chunks_of self.now }
    {
        self.nodes.chunks()
    }

    /// Whether the node with this number has a path: it is there, and wasn't removed.
    pub fn has_path(&self, number: u64) -> bool
        ensures { result ≡ is_some (path_of self.now number) }
    {
        holds_path(node_of(&self.nodes, number))
    }

    /// Whether a node has this number, a removed one that is still there included.
    pub fn has_node(&self, number: u64) -> bool
        ensures { result ≡ is_some (node_of self.now number) }
    {
        holds_node(node_of(&self.nodes, number))
    }

    /// The number of the next new node.
    pub fn next(&self) -> u64
        ensures { result ≡ self.now.next }
    {
        self.next
    }

    /// How many nodes there are, removed ones that are still there included.
    pub fn len(&self) -> usize
        ensures count { result ≡ length self.now.nodes }
        ensures shape { IsFiles self.now }
    {
        self.nodes.len()
    }

    /// The number of the node at a place, from 0 on, by rising numbers. Its cost doesn't grow with
    /// the number of nodes.
    pub fn number_at(&self, place: usize) -> Option<u64>
        ensures { result ≡ number_at self.now place }
    {
        if place >= self.len() {
            return None;
        }
        Some(self.nodes.get(place).number)
    }

    /// The number of the node under a name in a directory. A removed directory has none.
    pub fn child(&self, directory: u64, name: &[u8]) -> Option<u64>
        ensures { result ≡ child self.now directory name.now }
    {
        self.nodes.child(directory, name)
    }

    /// Whether a directory has no entries. A removed one has none, nor has a file.
    pub fn is_empty(&self, directory: u64) -> bool
        ensures { result ≡ (length (entries_of self.now directory) == 0) }
    {
        self.nodes.nearest_after(directory, b"").is_none()
    }

    /// How many entries a directory has. A removed one has none, nor has a file. It halves the
    /// nodes that are left until it has found the first and the last one.
    pub fn entry_count(&self, directory: u64) -> usize
        ensures { result ≡ length (entries_of self.now directory) }
    {
        self.nodes.count_in(directory)
    }

    /// The number of the node at a place, from 0 on, among a directory's entries in the order of
    /// their names. It takes no memory. It halves the nodes that are left until it has found the
    /// first entry, and goes to the place at once.
    pub fn entry(&self, directory: u64, place: usize) -> Option<u64>
        ensures { result ≡ number_at_place self.now directory place }
    {
        number_held(self.nodes.entry(directory, place))
    }

    /// The number of the node of a directory with the least name after this one, by the order of
    /// names. It is right after the entry of this name. No bytes come before any name, so they lead
    /// to the first entry. It takes no memory.
    pub fn entry_after(&self, directory: u64, name: &[u8]) -> Option<u64>
        ensures after { result ≡ number_after self.now directory name.now }
        ensures next { (i : ℕ) → HasNameAtPlace self.now directory i name.now
            → result ≡ number_at_place self.now directory (i + 1) }
        ensures first { name.now ≡ [] → result ≡ number_at_place self.now directory 0 }
    {
        number_held(self.nodes.nearest_after(directory, name))
    }

    /// Puts a file's bytes from one of them on into `into`, as many as there are and fit, and gives
    /// how many. What is after them in `into` stays.
    pub fn read(&self, number: u64, from: u64, into: &mut [u8]) -> usize
        ensures count { result ≡ length (read_from self.now number from (length into.old)) }
        ensures bytes { into.new ≡ read_from self.now number from (length into.old)
            ++ drop result into.old }
    {
        read_held(&self.nodes, number, from as usize, into)
    }

    /// The bytes of a file in its chunk at a place, from 0 on. The last one may have fewer. Where
    /// there is no such chunk, nor such a file, there are none. They are lent as they lie.
    pub fn chunk(&self, number: u64, index: usize) -> &[u8]
        ensures { result.now ≡ chunk_of (bytes_of_node self.now number) index }
    {
        chunk_held(&self.nodes, number, index)
    }

    /// The directory above a node: none above the root, a removed node, or one that isn't there.
    pub fn parent(&self, number: u64) -> Option<u64>
        ensures above { IfSome result (IsParent self.now number) }
        ensures none { IfNone result ((path : Path) (name : Name)
            → path_of self.now number ≢ Some (path ++ name ∷ [])) }
        ensures of_child { (d : ℕ) (name : Name) → child self.now d name ≡ Some number
            → result ≡ Some d }
    {
        parent_of(&self.nodes, number)
    }

    /// The last name of a node's path: no bytes for the root, a removed node, or one that isn't
    /// there.
    pub fn name(&self, number: u64) -> &[u8]
        ensures last { (path : Path) (name : Name)
            → path_of self.now number ≡ Some (path ++ name ∷ []) → result.now ≡ name }
        ensures none { ((path : Path) (name : Name)
            → path_of self.now number ≢ Some (path ++ name ∷ [])) → result.now ≡ [] }
        ensures of_entry { (d i : ℕ) → number_at_place self.now d i ≡ Some number
            → HasNameAtPlace self.now d i result.now }
    {
        name_held(node_of(&self.nodes, number))
    }

    /// Whether a directory that has a path is the node with this number, or lies below it.
    pub fn is_within(&self, number: u64, directory: u64) -> bool
        ensures { result ≡ is_within self.now number directory }
    {
        leads_to(&self.nodes, self.next, number, directory)
    }

    /// Makes a node under a name in a directory, and gives its number. The caller has tested that
    /// the directory is one and has a path (`is_directory`, `has_path`). The name is one
    /// (`is_name`) under which nothing is (`child`), and there is room (`len`, `next`). It fails
    /// only when out of memory, and then nothing is changed.
    pub fn create(
        &mut self,
        alloc: Global,
        directory: u64,
        name: &[u8],
        node_type: NodeType,
    ) -> Result<u64, AllocError>
        requires free { IsFree self.old directory name.now }
        requires room { length self.old.nodes < NODES }
        requires number { self.old.next + 1 < 2 ^ 64 }
        ensures number { IfOk result (λ number. number ≡ self.old.next) }
        ensures created { OnOk result (self.new ≡ created (path_at self.old directory
            ++ name.now ∷ []) (empty node_type) self.old) }
        ensures unchanged { OnErr result (self.new ≡ self.old) }
    {
        let number = self.next;
        let name = ByteList::copy_of(alloc, name)?;
        self.nodes.push(Node {
            number,
            hook: Hook::In(directory, name),
            content: new_content(alloc, node_type),
        })?;
        self.next = number + 1;
        Ok(number)
    }

    /// Puts bytes in the place of others of a file. The caller has tested that it is no directory
    /// (`is_directory`), and that all of them lie within its size (`size`). Else room is made
    /// first (`resize`). It takes no memory, and can't fail. Where no node has the number there are
    /// no bytes to put, and nothing is changed.
    pub fn write(&mut self, number: u64, from: u64, bytes: &[u8])
        requires file { is_directory self.old number ≡ false }
        requires within { from + length bytes.now ≤ length (bytes_of_node self.old number) }
        ensures { self.new
            ≡ with_file_bytes number (written (bytes_of_node self.old number) from bytes.now)
            self.old }
    {
        if let Some(place) = node_index(&self.nodes, number) {
            self.nodes.write(place, from as usize, bytes);
        }
    }

    /// Cuts a file to so many bytes, or puts zeros after them. The caller has tested that it is no
    /// directory (`is_directory`), and that the size is within its limit. It fails only when out of
    /// memory, and then nothing is changed. Where no node has the number nothing is changed either.
    pub fn resize(&mut self, number: u64, size: u64) -> Result<(), AllocError>
        requires file { is_directory self.old number ≡ false }
        requires size { size ≤ FILE_BYTES }
        ensures resized { OnOk result (self.new
            ≡ with_file_bytes number (resized (bytes_of_node self.old number) size) self.old) }
        ensures unchanged { OnErr result (self.new ≡ self.old) }
    {
        let Some(place) = node_index(&self.nodes, number) else {
            return Ok(());
        };
        let bytes = size_held(Some(self.nodes.get(place))) as u64;
        self.nodes.resize(place, size as usize)?;
        self.used = self.used - bytes + size;
        Ok(())
    }

    /// Takes a node's path away; the node stays until it is forgotten. The caller has tested that
    /// it isn't the root, and that a directory has no entries (`is_directory`, `is_empty`). Where
    /// no node has the number nothing is changed.
    pub fn remove(&mut self, number: u64)
        requires { CanLose self.old number }
        ensures { self.new ≡ removed number self.old }
    {
        if let Some(place) = node_index(&self.nodes, number) {
            self.nodes.unhang(place);
        }
    }

    /// Drops a node that was removed, with its bytes. The caller has tested that it has no path
    /// (`has_path`). Where no node has the number nothing is changed. Its number isn't used again.
    pub fn forget(&mut self, number: u64)
        requires { is_some (path_of self.old number) ≡ false }
        ensures { self.new ≡ forgotten number self.old }
    {
        if let Some(place) = node_index(&self.nodes, number) {
            let bytes = size_held(Some(self.nodes.get(place))) as u64;
            self.nodes.remove(place);
            self.used -= bytes;
        }
    }

    /// Makes a node without a path, like one that was removed, under a number that is no less than
    /// that of the next new node. The next one then comes after it. The caller has tested that
    /// there is room (`len`, `next`). With `hang` and `raise_next` any file system is built from a
    /// fresh one. It fails only when out of memory, and then nothing is changed.
    pub fn create_removed(
        &mut self,
        alloc: Global,
        number: u64,
        node_type: NodeType,
    ) -> Result<(), AllocError>
        requires next { self.old.next ≤ number }
        requires room { length self.old.nodes < NODES }
        requires number { number + 1 < 2 ^ 64 }
        ensures created { OnOk result (self.new ≡ created_removed number
            (empty node_type) self.old) }
        ensures unchanged { OnErr result (self.new ≡ self.old) }
    {
        self.nodes.push(Node {
            number,
            hook: Hook::Removed,
            content: new_content(alloc, node_type),
        })?;
        self.next = number + 1;
        Ok(())
    }

    /// Gives a node without a path one: a name in a directory. The caller has tested that it has
    /// none (`has_path`), and that the name is free as for a new node. It takes no memory. Where no
    /// node has the number nothing is changed.
    pub fn hang(&mut self, number: u64, directory: u64, name: ByteList)
        requires { CanHang self.old number directory name }
        ensures { self.new ≡ hung number (path_at self.old directory ++ name ∷ []) self.old }
    {
        if let Some(at) = node_index(&self.nodes, number) {
            self.nodes.move_to(at, directory, name);
        }
    }

    /// Raises the number of the next new node. Those below it that no node has aren't used again.
    pub fn raise_next(&mut self, next: u64)
        requires { self.old.next ≤ next }
        ensures { self.new ≡ with_next next self.old }
    {
        self.next = next;
    }

    /// Moves a node, with all that lies below it, to a name in a directory. The caller has tested
    /// that it isn't the root and has a path (`has_path`). The name is free as for a new node, and
    /// the directory isn't below the node (`is_within`).
    pub fn rename(&mut self, number: u64, directory: u64, name: ByteList)
        requires { CanMove self.old number directory name }
        ensures { self.new ≡ renamed (path_at self.old number) (path_at self.old directory
            ++ name ∷ []) self.old }
    {
        if let Some(place) = node_index(&self.nodes, number) {
            self.nodes.move_to(place, directory, name);
        }
    }
}

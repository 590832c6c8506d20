//! Nodes of a host's files: those that paths lead to, new ones and removed ones.
//!
//! **A new node's number is the next one, which only rises.** No clause bounds it. Where 2^64 - 1
//! is reached, a call answers out of memory. A process ends its count of steps long before.

ghost use Rattle.std.specs.Prelude.{◌≡◌, ◌<◌, ◌++◌, ◌∷◌, [], Some, length, ℕ, true, is_some};
ghost use Rattle.std.specs.Prelude.{IfOk, OnOk, OnErr};
ghost use Rattle.file_tree.specs.rules.Files.{Name, child, is_directory, path_of, created};
ghost use Rattle.file_tree.specs.rules.Changes.{IsFree, empty, path_at};
ghost use Rattle.file_tree.specs.declared.limits.TheConstants.{NODES};
ghost use Rattle.wasi_calls_rules.specs.WasiStates.{IsWasiState};
ghost use Rattle.wasi_calls_rules.specs.Entries.{a_free_node, is_directory_empty, whole_path};
ghost use Rattle.wasi_calls_rules.specs.Entries.{without};
ghost use Rattle.wasi_calls_rules.specs.Paths.{directory_entered, node_at};
ghost use Rattle.wasi_calls.specs.Places.{walk_end_of};
ghost use Rattle.wasi_calls.specs.Steps.{GivesValue};

use crate::descriptor::Names;
use crate::host::WasiState;
use crate::host::descriptors::sweep;
use crate::paths::PathEnd;
use file_tree::NodeType;
use file_tree::limits::NODES;
use std::alloc::{AllocError, Global};
use wasi_abi::Errno;

impl WasiState {
    /// The node under a name in a directory.
    pub(crate) fn child(&self, directory: u64, name: &[u8]) -> Option<u64>
        ensures { result ≡ child self.now.host.files directory name.now }
    {
        self.tree.child(directory, name)
    }

    /// The node at a place.
    pub(crate) fn node_at(&self, place: PathEnd<'_>) -> Option<u64>
        ensures { result ≡ node_at self.now.host.files (walk_end_of place.entry) }
    {
        match place {
            PathEnd::Directory(directory) => Some(directory),
            PathEnd::Leaf(directory, name) => self.child(directory, name),
        }
    }

    /// The directory above one that is below another.
    pub(crate) fn parent(&self, directory: u64) -> u64
        requires { (d : ℕ) × (name : Name) × (child self.now.host.files d name ≡ Some directory) }
        ensures { (d : ℕ) (name : Name) → child self.now.host.files d name ≡ Some directory
            → result ≡ d }
    {
        self.tree.parent(directory).unwrap()
    }

    /// The directory under a name in another. `Noent` where nothing is there, and `Notdir` where a
    /// file is.
    pub(crate) fn subdirectory(&self, directory: u64, name: &[u8]) -> Result<u64, Errno>
        ensures gives { GivesValue (λ k. k) result
            (directory_entered self.now.host.files (child self.now.host.files directory name.now)) }
        ensures child { IfOk result (λ k. child self.now.host.files directory name.now ≡ Some k) }
        ensures directory { IfOk result (λ k. is_directory self.now.host.files k ≡ true) }
        ensures shape { IfOk result (λ _. IsWasiState self.now.host) }
    {
        let node = self.child(directory, name).ok_or(Errno::Noent)?;
        if !self.tree.is_directory(node) {
            return Err(Errno::Notdir);
        }
        Ok(node)
    }

    /// Whether a directory has no entries.
    pub(crate) fn is_empty(&self, directory: u64) -> bool
        ensures { result ≡ is_directory_empty self.now.host.files directory }
    {
        self.tree.is_empty(directory)
    }

    /// Nothing where names in a directory have a whole path. `Noent` where it was removed.
    pub(crate) fn check_path(&self, directory: u64) -> Result<(), Errno>
        ensures gives { (name : Name) → GivesValue
            (λ _. path_at self.now.host.files directory ++ name ∷ []) result
            (whole_path self.now.host.files directory name) }
        ensures path { IfOk result (λ _. is_some (path_of self.now.host.files directory) ≡ true) }
    {
        if self.tree.has_path(directory) {
            Ok(())
        } else {
            Err(Errno::Noent)
        }
    }

    /// Nothing where there may be one more node, else `Nospc`.
    pub(crate) fn check_free_node(&self) -> Result<(), Errno>
        ensures gives { GivesValue (λ x. x) result (a_free_node self.now.host.files) }
        ensures room { IfOk result (λ _. length self.now.host.files.nodes < NODES) }
    {
        if self.tree.len() >= NODES {
            return Err(Errno::Nospc);
        }
        Ok(())
    }

    /// Makes a node under a free name in a directory, and gives its number. It fails only when out
    /// of memory, and changes nothing then. So it does where all numbers below 2^64 were given,
    /// though no process lives that long.
    pub(crate) fn create(
        &mut self,
        alloc: Global,
        directory: u64,
        name: &[u8],
        node_type: NodeType,
    ) -> Result<u64, AllocError>
        requires free { IsFree self.old.host.files directory name.now }
        requires room { length self.old.host.files.nodes < NODES }
        ensures number { IfOk result (λ number. number ≡ self.old.host.files.next) }
        ensures created { OnOk result (self.new ≡ record self.old {
          host = record self.old.host {
            files = created (path_at self.old.host.files directory ++ name.now ∷ [])
                (empty node_type) self.old.host.files;
          };
        }) }
        ensures unchanged { OnErr result (self.new ≡ self.old) }
    {
        if self.tree.next() == u64::MAX {
            return Err(AllocError);
        }
        self.tree.create(alloc, directory, name, node_type)
    }

    /// Takes a node's path away. It is forgotten if no descriptor names it.
    pub(crate) fn remove(&mut self, node: u64)
        requires there { (d : ℕ) × (name : Name)
            × (child self.old.host.files d name ≡ Some node) }
        requires empty { is_directory self.old.host.files node ≡ true
            → is_directory_empty self.old.host.files node ≡ true }
        ensures { self.new ≡ record self.old { host = without node self.old.host } }
    {
        self.tree.remove(node);
        sweep(&mut self.tree, &self.descriptors, Names::Node(node));
    }
}

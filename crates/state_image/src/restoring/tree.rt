//! A tree of what an image tells of its nodes.
//!
//! **A file system is built anew by three changes**: a node without a path, a path for it, a higher
//! next number. Directories are filled from the root on, since a path needs that of its directory.

ghost use Rattle.std.specs.Prelude.{◌≡◌, ◌↔◌, IsTrue, IfOk, OnOk, map};
ghost use Rattle.file_tree.specs.rules.Files.{fresh};
ghost use Rattle.state_image.specs.restoring.SavedNodes.{lent_whole, MayStay, MayAllStay};
ghost use Rattle.state_image.specs.restoring.SavedNodes.{IsSavedFiles, RefusesSaved};

use crate::restoring::creating::create_nodes;
use crate::restoring::fault::RestoreFault;
use crate::restoring::hanging::{entries_of, hang_all};
use crate::restoring::whole_node::WholeNode;
use file_tree::Tree;
use std::alloc::Global;

/// The tree whose next new node has this number, and of whose nodes this is told.
pub fn tree_of(alloc: Global, next: u64, nodes: &[WholeNode]) -> Result<Tree, RestoreFault>
    ensures made { IfOk result (λ tree. IsSavedFiles tree next (map lent_whole nodes.now)) }
    ensures refused { RefusesSaved result next (map lent_whole nodes.now) }
{
    let mut tree = Tree::new(alloc)?;
    restore_nodes(alloc, &mut tree, next, nodes)?;
    Ok(tree)
}

/// Makes the nodes of a fresh tree, and hangs them.
fn restore_nodes(
    alloc: Global,
    tree: &mut Tree,
    next: u64,
    nodes: &[WholeNode],
) -> Result<(), RestoreFault>
    requires { tree.old ≡ fresh }
    ensures made { OnOk result (IsSavedFiles tree.new next (map lent_whole nodes.now)) }
    ensures refused { RefusesSaved result next (map lent_whole nodes.now) }
{
    create_nodes(alloc, tree, nodes)?;
    if next < tree.next() {
        return Err(RestoreFault::NotAnImage);
    }
    tree.raise_next(next);
    hang_all(alloc, tree, nodes)?;
    if !may_all_stay(tree, nodes) {
        return Err(RestoreFault::NotAnImage);
    }
    Ok(())
}

/// Whether no entries are told of nodes without a path.
fn may_all_stay(tree: &Tree, nodes: &[WholeNode]) -> bool
    ensures { IsTrue result ↔ MayAllStay tree.now nodes.now }
{
    for place in 0..nodes.len() {
        if !may_stay(tree, &nodes[place]) {
            return false;
        }
    }
    true
}

/// Whether a node has a path, or no entries are told of it.
fn may_stay(tree: &Tree, node: &WholeNode) -> bool
    ensures { IsTrue result ↔ MayStay tree.now (lent_whole node.now) }
{
    tree.has_path(node.number) || entries_of(&node.content).is_empty()
}

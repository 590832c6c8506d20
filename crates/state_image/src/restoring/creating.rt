//! Nodes that are made without paths.

ghost use Rattle.std.specs.Prelude.{◌≡◌, ◌↔◌, ◌+◌, ◌<◌, ◌≤◌, ◌^◌, ◌∷◌, [], ℕ, IsTrue, OnOk};
ghost use Rattle.std.specs.Prelude.{length, map, Err};
ghost use Rattle.file_tree.specs.declared.limits.TheConstants.{NODES};
ghost use Rattle.file_tree.specs.rules.Files.{Directory, File, IsSmallContent, created_removed};
ghost use Rattle.file_tree.specs.rules.Files.{fresh};
ghost use Rattle.state_image.specs.declared.restoring.fault.RestoreFault.TheVariants as fault;
ghost use Rattle.state_image.specs.restoring.SavedNodes.{lent_held, lent_whole, saved_content};
ghost use Rattle.state_image.specs.restoring.SavedNodes.{CanCreate};
ghost use Rattle.state_image.specs.restoring.SavedNodes.{BeginsWithRoot, IsMadeOf, RefusesSaved};

use crate::restoring::fault::RestoreFault;
use crate::restoring::whole_node::{WholeContent, WholeNode};
use file_tree::limits::{FILE_BYTES, NODES};
use file_tree::{NodeType, Tree};
use guest_memory::laws::are_bytes;
use std::alloc::{AllocError, Global};
use wasi_calls::ROOT;

/// Makes the nodes after the root of a fresh tree.
pub(crate) fn create_nodes(
    alloc: Global,
    tree: &mut Tree,
    nodes: &[WholeNode],
) -> Result<(), RestoreFault>
    requires { tree.old ≡ fresh }
    ensures made { OnOk result (IsMadeOf (map lent_whole nodes.now) tree.new) }
    ensures refused { (next : ℕ) → RefusesSaved result next (map lent_whole nodes.now) }
{
    if !begins_with_root(nodes) {
        return Err(RestoreFault::NotAnImage);
    }
    for place in 1..nodes.len() {
        create_node(alloc, tree, &nodes[place])?;
    }
    Ok(())
}

/// Whether the first node is a directory under the root's number.
fn begins_with_root(nodes: &[WholeNode]) -> bool
    ensures { IsTrue result ↔ BeginsWithRoot (map lent_whole nodes.now) }
{
    match nodes {
        [] => false,
        [root, ..] => is_root(root),
    }
}

fn is_root(node: &WholeNode) -> bool
    ensures { IsTrue result ↔ BeginsWithRoot (lent_whole node.now ∷ []) }
{
    node.number == ROOT && is_directory(&node.content)
}

fn is_directory(content: &WholeContent) -> bool
    ensures { IsTrue result ↔ (saved_content (lent_held content.now) ≡ Directory) }
{
    match content {
        WholeContent::Directory(_) => true,
        WholeContent::File(_) => false,
    }
}

/// Makes a node after the others, without a path.
fn create_node(alloc: Global, tree: &mut Tree, node: &WholeNode) -> Result<(), RestoreFault>
    ensures can { OnOk result (CanCreate tree.old (lent_whole node.now)) }
    ensures created { OnOk result (tree.new ≡ created_removed (lent_whole node.now).number
        (saved_content (lent_whole node.now).held) tree.old) }
    ensures refused { result ≡ Err fault.NotAnImage
        → ¬ CanCreate tree.old (lent_whole node.now) }
{
    if !can_create(tree, node) {
        return Err(RestoreFault::NotAnImage);
    }
    match &node.content {
        WholeContent::Directory(_) => {
            tree.create_removed(alloc, node.number, NodeType::Directory)?;
        }
        WholeContent::File(bytes) => create_file(alloc, tree, node.number, bytes)?,
    }
    Ok(())
}

/// Whether a node can be made after the others.
fn can_create(tree: &Tree, node: &WholeNode) -> bool
    ensures { IsTrue result ↔ CanCreate tree.now (lent_whole node.now) }
{
    if node.number < tree.next() || node.number == u64::MAX {
        return false;
    }
    tree.len() < NODES && is_small(&node.content)
}

/// Whether a node may hold so much.
fn is_small(content: &WholeContent) -> bool
    ensures { IsTrue result ↔ IsSmallContent (saved_content (lent_held content.now)) }
{
    match content {
        WholeContent::Directory(_) => true,
        WholeContent::File(bytes) => is_small_file(bytes),
    }
}

fn is_small_file(bytes: &[u8]) -> bool
    ensures { IsTrue result ↔ IsSmallContent (File bytes.now) }
{
    are_bytes(bytes);
    bytes.len() as u64 <= FILE_BYTES
}

/// Makes a file of these bytes, without a path.
fn create_file(alloc: Global, tree: &mut Tree, number: u64, bytes: &[u8]) -> Result<(), AllocError>
    requires next { tree.old.next ≤ number }
    requires room { length tree.old.nodes < NODES }
    requires number { number + 1 < 2 ^ 64 }
    requires small { IsSmallContent (File bytes.now) }
    ensures { OnOk result (tree.new ≡ created_removed number (File bytes.now) tree.old) }
{
    let _nodes = tree.len();
    tree.create_removed(alloc, number, NodeType::File)?;
    tree.resize(number, bytes.len() as u64)?;
    tree.write(number, 0, bytes);
    Ok(())
}

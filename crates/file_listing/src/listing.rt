//! The nodes of a tree, by their paths.

ghost use Rattle.std.specs.Prelude.{◌≡◌, ◌++◌, IfOk, OnOk, Some, option_to_list};
ghost use Rattle.file_tree.specs.rules.Changes.{path_at};
ghost use Rattle.file_tree.specs.rules.Files.{FileNode, node_of};
ghost use Rattle.file_listing.specs.rules.Listed.{HaveNames, HaveParents, path_text, listed_of};
ghost use Rattle.file_listing.specs.rules.Listed.{listing_in};
ghost use Rattle.file_listing.specs.Separators.{separator_behind};

use crate::listed::ListedNode;
use file_tree::Tree;
use std::alloc::{AllocError, Global};
use wasm_syntax::ItemList;

/// What is between the path of a directory and a name in it: nothing after the root.
fn separator(tree: &Tree, directory: u64) -> &'static [u8]
    ensures { result.now ≡ separator_behind (path_at tree.now directory) }
{
    match tree.parent(directory) {
        Some(_) => b"/",
        None => b"",
    }
}

/// Puts the text of a node's path after another one: nothing of the root.
fn spell_path(tree: &Tree, number: u64, text: &mut Vec<u8>) -> Result<(), AllocError>
    ensures { OnOk result (text.new.items ≡ text.old.items ++ path_text (path_at tree.now number)) }
{
    let Some(directory) = tree.parent(number) else {
        return Ok(());
    };
    spell_path(tree, directory, text)?;
    text.extend_from_slice(separator(tree, directory))?;
    text.extend_from_slice(tree.name(number))
}

/// What is listed of a node: nothing of the root, and of one without a path.
fn listed_node(alloc: Global, tree: &Tree, number: u64) -> Result<Option<ListedNode>, AllocError>
    ensures { IfOk result (λ found. (n : FileNode) → node_of tree.now number ≡ Some n
        → n.number ≡ number → found ≡ listed_of n) }
{
    let Some(_) = tree.parent(number) else {
        return Ok(None);
    };
    let mut path = Vec::new(alloc);
    spell_path(tree, number, &mut path)?;
    Ok(Some(ListedNode {
        number,
        is_directory: tree.is_directory(number),
        size: tree.size(number),
        path: ItemList::from_vec(path),
    }))
}

/// Puts a node after others, where there is one.
fn push_some(nodes: &mut Vec<ListedNode>, node: Option<ListedNode>) -> Result<(), AllocError>
    ensures { OnOk result (nodes.new.items ≡ nodes.old.items ++ option_to_list node) }
{
    if let Some(node) = node {
        nodes.push(node)?;
    }
    Ok(())
}

/// The nodes of a tree that have a path, but for the root, by rising numbers. It fails only when
/// out of memory.
pub fn list_nodes(alloc: Global, tree: &Tree) -> Result<Vec<ListedNode>, AllocError>
    ensures all { IfOk result (λ nodes. nodes.items ≡ listing_in tree.now) }
    ensures named { IfOk result (λ nodes. HaveNames nodes.items) }
    ensures parents { IfOk result (λ nodes. HaveParents nodes.items) }
{
    let mut nodes = Vec::new(alloc);
    let count = tree.len();
    for place in 0..count {
        let number = tree.number_at(place).unwrap();
        let node = listed_node(alloc, tree, number)?;
        push_some(&mut nodes, node)?;
    }
    Ok(nodes)
}

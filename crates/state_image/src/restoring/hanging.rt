//! Nodes that get their paths.

ghost use Rattle.std.specs.Prelude.{◌≡◌, ◌↔◌, ◌<◌, ◌+◌, ◌++◌, ◌∷◌, [], IsTrue, IfOk, OnOk, map};
ghost use Rattle.std.specs.Prelude.{vec_len, true, false, is_some, None, Err, ℕ};
ghost use Rattle.file_tree.specs.rules.Files.{is_directory, path_of, node_of, child, hung};
ghost use Rattle.file_tree.specs.rules.Changes.{path_at};
ghost use Rattle.file_tree.specs.rules.Listings.{number_after};
ghost use Rattle.state_image.specs.rules.Fronts.{lent_entry};
ghost use Rattle.state_image.specs.declared.restoring.fault.RestoreFault.TheVariants as fault;
ghost use Rattle.state_image.specs.restoring.SavedNodes.{lent_held, lent_whole, saved_entries};
ghost use Rattle.state_image.specs.restoring.SavedNodes.{listed_node, CanTake, RefusesSaved};
ghost use Rattle.state_image.specs.restoring.Hanging.{directory_alone, HangsUpTo, IsHung};

use crate::reading::ReadEntry;
use crate::restoring::fault::RestoreFault;
use crate::restoring::whole_node::{WholeContent, WholeNode};
use file_tree::{ByteList, Tree, is_name};
use std::alloc::{AllocError, Global};
use wasi_calls::ROOT;

/// Hangs the nodes of a tree in their directories, from the root on.
pub(crate) fn hang_all(
    alloc: Global,
    tree: &mut Tree,
    nodes: &[WholeNode],
) -> Result<(), RestoreFault>
    requires { HangsUpTo (map lent_whole nodes.now) tree.old (1 ∷ []) 0 0 }
    ensures hung { OnOk result (IsHung (map lent_whole nodes.now) tree.new) }
    ensures next { OnOk result (tree.new.next ≡ tree.old.next) }
    ensures refused { (next : ℕ) → RefusesSaved result next (map lent_whole nodes.now) }
{
    let mut waiting = root_alone(alloc)?;
    let mut done = 0;
    while done < waiting.len() {
        hang_entries(alloc, tree, nodes, &mut waiting, done)?;
        done += 1;
    }
    Ok(())
}

/// The number of the root, and no other one.
fn root_alone(alloc: Global) -> Result<Vec<u64>, AllocError>
    ensures { IfOk result (λ numbers. numbers.items ≡ 1 ∷ []) }
{
    let mut numbers = Vec::new(alloc);
    numbers.push(ROOT)?;
    Ok(numbers)
}

/// Hangs the entries that are told of the directory at a place of those that wait. Directories
/// among them are put after these.
fn hang_entries(
    alloc: Global,
    tree: &mut Tree,
    nodes: &[WholeNode],
    waiting: &mut Vec<u64>,
    place: usize,
) -> Result<(), RestoreFault>
    requires place { place < vec_len waiting.old }
    requires so_far { HangsUpTo (map lent_whole nodes.now) tree.old waiting.old.items place 0 }
    ensures hung { OnOk result
        (HangsUpTo (map lent_whole nodes.now) tree.new waiting.new.items (place + 1) 0) }
    ensures next { OnOk result (tree.new.next ≡ tree.old.next) }
    ensures refused { (next : ℕ) → RefusesSaved result next (map lent_whole nodes.now) }
{
    let directory = waiting[place];
    for entry in listed_node(nodes, directory) {
        hang_entry(alloc, tree, directory, entry)?;
        note_directory(tree, entry.number, waiting)?;
    }
    Ok(())
}

/// The entries that are told of the node with this number.
fn listed_node<'a, 'b>(nodes: &'a [WholeNode<'b>], number: u64) -> &'a [ReadEntry<'b>]
    ensures { map lent_entry result.now ≡ listed_node (map lent_whole nodes.now) number }
{
    for node in nodes {
        if node.number == number {
            return entries_of(&node.content);
        }
    }
    &[]
}

/// The entries that are told of a node.
pub(crate) fn entries_of<'a, 'b>(content: &'a WholeContent<'b>) -> &'a [ReadEntry<'b>]
    ensures { map lent_entry result.now ≡ saved_entries (lent_held content.now) }
{
    match content {
        WholeContent::Directory(entries) => entries.as_slice(),
        WholeContent::File(_) => &[],
    }
}

/// Hangs a node under the name of an entry, after all that hang in the directory.
fn hang_entry(
    alloc: Global,
    tree: &mut Tree,
    directory: u64,
    entry: &ReadEntry,
) -> Result<(), RestoreFault>
    requires directory { is_directory tree.old directory ≡ true }
    requires path { is_some (path_of tree.old directory) ≡ true }
    ensures can { OnOk result (CanTake tree.old directory (lent_entry entry.now)) }
    ensures hung { OnOk result (tree.new
        ≡ hung (lent_entry entry.now).number (path_at tree.old directory
        ++ (lent_entry entry.now).name ∷ []) tree.old) }
    ensures refused { result ≡ Err fault.NotAnImage
        → ¬ CanTake tree.old directory (lent_entry entry.now) }
{
    if !can_take(tree, directory, entry) {
        return Err(RestoreFault::NotAnImage);
    }
    let name = ByteList::copy_of(alloc, entry.name)?;
    tree.hang(entry.number, directory, name);
    Ok(())
}

/// Puts a number after those of directories that wait, if it is one's.
fn note_directory(tree: &Tree, number: u64, waiting: &mut Vec<u64>) -> Result<(), AllocError>
    ensures { OnOk result (waiting.new.items
        ≡ waiting.old.items ++ directory_alone (is_directory tree.now number) number) }
{
    if tree.is_directory(number) {
        waiting.push(number)?;
    }
    Ok(())
}

/// Whether a node is there, and has no path.
fn is_loose(tree: &Tree, number: u64) -> bool
    ensures { IsTrue result ↔ ((is_some (node_of tree.now number) ≡ true)
        × (is_some (path_of tree.now number) ≡ false)) }
{
    tree.has_node(number) && !tree.has_path(number)
}

/// Whether a name is free in a directory, and is after all that are there.
fn is_last_name(tree: &Tree, directory: u64, name: &[u8]) -> bool
    ensures { IsTrue result ↔ ((child tree.now directory name.now ≡ None)
        × (number_after tree.now directory name.now ≡ None)) }
{
    tree.child(directory, name).is_none() && tree.entry_after(directory, name).is_none()
}

/// Whether a node can be hung in a directory as an entry that is after all that are there.
fn can_take(tree: &Tree, directory: u64, entry: &ReadEntry) -> bool
    ensures { IsTrue result ↔ CanTake tree.now directory (lent_entry entry.now) }
{
    if !is_loose(tree, entry.number) {
        return false;
    }
    is_name(entry.name) && is_last_name(tree, directory, entry.name)
}

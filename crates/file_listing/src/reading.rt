//! A file of a tree, by its path.

ghost use Rattle.std.specs.Prelude.{◌≡◌, ◌≢◌, Contains, All, IfOk, IfSome, IfNone};
ghost use Rattle.file_tree.specs.rules.Files.{bytes_of_node};
ghost use Rattle.file_listing.specs.declared.listed.ListedNode.{ListedNode};
ghost use Rattle.file_listing.specs.rules.Listed.{ReadsPath};

use crate::fault::PathFault;
use crate::listed::ListedNode;
use crate::listing::list_nodes;
use file_tree::Tree;
use std::alloc::{AllocError, Global};

/// The node that is listed under a path.
fn find_path<'a>(nodes: &'a [ListedNode], path: &[u8]) -> Option<&'a ListedNode>
    ensures there { IfSome result (λ node. Contains nodes.now node.now
        × (node.now.path ≡ path.now)) }
    ensures missing { IfNone result (All (λ (node : ListedNode). node.path ≢ path.now) nodes.now) }
{
    for node in nodes {
        if node.path.as_slice() == path {
            return Some(node);
        }
    }
    None
}

/// The bytes of a file: none of a directory. It fails only when out of memory.
pub fn read_node(alloc: Global, tree: &Tree, number: u64) -> Result<Vec<u8>, AllocError>
    ensures { IfOk result (λ bytes. bytes.items ≡ bytes_of_node tree.now number) }
{
    let mut bytes = vec![in alloc; 0; tree.size(number) as usize]?;
    tree.read(number, 0, &mut bytes);
    Ok(bytes)
}

/// The bytes of the file under a path, as `list_nodes` has it. Or it says that no node is listed
/// so, or that it is a directory.
pub fn read_path(alloc: Global, tree: &Tree, path: &[u8]) -> Result<Vec<u8>, PathFault>
    ensures { ReadsPath tree.now path.now result }
{
    let Ok(nodes) = list_nodes(alloc, tree) else {
        return Err(PathFault::Memory);
    };
    let Some(node) = find_path(nodes.as_slice(), path) else {
        return Err(PathFault::Missing);
    };
    if node.is_directory {
        return Err(PathFault::Directory);
    }
    match read_node(alloc, tree, node.number) {
        Ok(bytes) => Ok(bytes),
        Err(_) => Err(PathFault::Memory),
    }
}

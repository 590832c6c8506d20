//! The way up from a node to the root.

ghost use Rattle.std.specs.Prelude.{◌≡◌, option_copied};
ghost use Rattle.file_tree.specs.Links.{hook_held, hook_of, comes_to};
ghost use Rattle.file_tree.specs.Steps.{step_of, parent_in};

use crate::lookup::node_of;
use crate::store::{FileNodes, Hook, Node};

/// What the way up from a node goes on with.
pub enum UpStep {
    /// The node is the root.
    Top,
    /// The node hangs in the directory with this number.
    Up(u64),
    /// The node was removed, or isn't there.
    Nowhere,
}

/// Where the way up from a node leads.
pub fn step_up(nodes: &FileNodes, number: u64) -> UpStep
    ensures { result ≡ step_of (hook_of nodes.now number) }
{
    step_from(node_of(nodes, number))
}

fn step_from(node: Option<&Node>) -> UpStep
    ensures { result ≡ step_of (hook_held (option_copied node.entry)) }
{
    match node {
        Some(node) => match &node.hook {
            Hook::Root => UpStep::Top,
            Hook::Removed => UpStep::Nowhere,
            Hook::In(parent, _) => UpStep::Up(*parent),
        },
        None => UpStep::Nowhere,
    }
}

/// Whether the way up from a directory, of at most so many steps, comes to a node.
pub fn leads_to(nodes: &FileNodes, most: u64, number: u64, directory: u64) -> bool
    ensures { result ≡ comes_to most (hook_of nodes.now) number directory }
{
    let mut at = directory;
    for _ in 0..most {
        match step_up(nodes, at) {
            UpStep::Nowhere => return false,
            UpStep::Top => return at == number,
            UpStep::Up(parent) => {
                if at == number {
                    return true;
                }
                at = parent;
            }
        }
    }
    false
}

/// The number of the directory in which a node hangs.
pub fn parent_of(nodes: &FileNodes, number: u64) -> Option<u64>
    ensures { result ≡ parent_in nodes.now number }
{
    match step_up(nodes, number) {
        UpStep::Top => None,
        UpStep::Up(parent) => Some(parent),
        UpStep::Nowhere => None,
    }
}

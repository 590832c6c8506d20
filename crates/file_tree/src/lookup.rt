//! Nodes by their numbers, and what they hold.

ghost use Rattle.std.specs.Prelude.{◌≡◌, ◌<◌, ◌≤◌, ◌++◌, [], take, drop, length, IfSome, IfNone};
ghost use Rattle.std.specs.Prelude.{is_some, option_copied, option_map};
ghost use Rattle.file_tree.specs.Store.Cuts.{AreOrdered, IsCut};
ghost use Rattle.file_tree.specs.Store.Kept.{IsLower, HasLower, HasNoLower};
ghost use Rattle.file_tree.specs.Links.{IsPlace, IsNowhere, node_in, hook_held, content_held};
ghost use Rattle.file_tree.specs.Links.{holds_directory_node, bytes_held_in, is_hung, name_of_hook};
ghost use Rattle.file_tree.specs.Links.{content_shown};
ghost use Rattle.file_tree.specs.rules.Changes.{empty};
ghost use Rattle.file_tree.specs.rules.Chunks.{chunk_of};
ghost use Rattle.file_tree.specs.Store.Bodies.{InChunks};
ghost use Rattle.file_tree.specs.Store.Joined.{AreKeptAs, kept_number, len_held, file_body};
ghost use Rattle.file_tree.specs.Store.Joined.{new_content as seen_content};

use crate::node_type::NodeType;
use crate::store::{FileChunks, FileNodes, Hook, Node, NodeContent};
use std::alloc::Global;

// How many nodes have a lower number than this one. Each step halves those that are left, since
// numbers rise.
fn count_below(nodes: &FileNodes, number: u64) -> usize
    ensures cut { IsCut (HasLower number) (HasNoLower number) nodes.now result }
    ensures within { result ≤ length nodes.now }
    ensures rising { AreOrdered IsLower nodes.now }
{
    let mut low = 0;
    let mut high = nodes.len();
    while low < high {
        let middle = low + (high - low) / 2;
        if nodes.get(middle).number < number {
            low = middle + 1;
        } else {
            high = middle;
        }
    }
    low
}

/// The place of the node with this number.
pub fn node_index(nodes: &FileNodes, number: u64) -> Option<usize>
    ensures there { IfSome result (λ place. IsPlace nodes.now number place) }
    ensures within { IfSome result (λ place. place < length nodes.now) }
    ensures nowhere { IfNone result (IsNowhere nodes.now number) }
{
    let place = count_below(nodes, number);
    if place >= nodes.len() {
        return None;
    }
    if nodes.get(place).number == number {
        return Some(place);
    }
    None
}

/// The node with this number, all but its bytes.
pub fn node_of(nodes: &FileNodes, number: u64) -> Option<&Node>
    ensures { AreKeptAs (option_copied result) (node_in nodes.now number) }
{
    match node_index(nodes, number) {
        Some(place) => Some(nodes.get(place)),
        None => None,
    }
}

/// Whether a directory is there.
pub fn holds_directory(node: Option<&Node>) -> bool
    ensures { result ≡ holds_directory_node (content_held (option_copied node.entry)) }
{
    match node {
        Some(node) => match &node.content {
            NodeContent::Directory => true,
            NodeContent::File(_) => false,
        },
        None => false,
    }
}

/// How many bytes a file has that is there; a directory has none.
pub fn size_held(node: Option<&Node>) -> usize
    ensures { result ≡ len_held (option_copied node.entry) }
{
    match node {
        Some(node) => match &node.content {
            NodeContent::Directory => 0,
            NodeContent::File(file) => file.len(),
        },
        None => 0,
    }
}

/// The bytes of the file with this number in its chunk at a place, where the file is there.
pub fn chunk_held(nodes: &FileNodes, number: u64, index: usize) -> &[u8]
    ensures { result.now ≡ chunk_of (bytes_held_in (node_in nodes.now number)) index }
{
    match node_index(nodes, number) {
        Some(place) => nodes.chunk(place, index),
        None => b"",
    }
}

/// Puts the bytes of the file with this number from one of them on into `into`, as many as there
/// are and fit, and gives how many. Where no file is there, there are none.
pub fn read_held(nodes: &FileNodes, number: u64, from: usize, into: &mut [u8]) -> usize
    ensures count { result ≡ length (take (length into.old)
        (drop from (bytes_held_in (node_in nodes.now number)))) }
    ensures copied { into.new
        ≡ take (length into.old) (drop from (bytes_held_in (node_in nodes.now number)))
        ++ drop result into.old }
{
    match node_index(nodes, number) {
        Some(place) => nodes.read(place, from, into),
        None => 0,
    }
}

/// The name under which a node hangs; none of the root or of a removed node.
pub fn name_held(node: Option<&Node>) -> &[u8]
    ensures { result.now ≡ name_of_hook (hook_held (option_copied node.entry)) }
{
    match node {
        Some(node) => match &node.hook {
            Hook::Root => b"",
            Hook::In(_, name) => name.as_slice(),
            Hook::Removed => b"",
        },
        None => b"",
    }
}

/// The number of a node that is there.
pub fn number_held(node: Option<&Node>) -> Option<u64>
    ensures { result ≡ option_map kept_number (option_copied node.entry) }
{
    match node {
        Some(node) => Some(node.number),
        None => None,
    }
}

/// Whether a node is there.
pub fn holds_node(node: Option<&Node>) -> bool
    ensures { result ≡ is_some (option_copied node.entry) }
{
    match node {
        Some(_) => true,
        None => false,
    }
}

/// Whether a node is there that wasn't removed.
pub fn holds_path(node: Option<&Node>) -> bool
    ensures { result ≡ is_hung (hook_held (option_copied node.entry)) }
{
    match node {
        Some(node) => match &node.hook {
            Hook::Root => true,
            Hook::In(_, _) => true,
            Hook::Removed => false,
        },
        None => false,
    }
}

/// The contents of a new node. It takes no memory.
pub fn new_content(alloc: Global, node_type: NodeType) -> NodeContent
    ensures shown { content_shown (seen_content result) ≡ empty node_type }
    ensures none { file_body result ≡ InChunks [] 0 }
{
    match node_type {
        NodeType::Directory => NodeContent::Directory,
        NodeType::File => NodeContent::File(FileChunks::new(alloc)),
    }
}

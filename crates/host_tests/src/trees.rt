//! A tree is made and changed where there is memory, and a caller can test what is asked of it.

use crate::rows::assert_row;
use crate::trees::Step::{
    Add, Child, Chunk, ChunkLength, Chunks, Entries, Entry, Forget, ForgetRemoved, Hang, HasPath,
    IsEmpty, Make, Move, Name, Next, NumberAt, Parent, Put, RaiseNext, Read, Remove, Resize, Used,
};
use file_tree::NodeType::{Directory, File};
use file_tree::limits::NODES;
use file_tree::{ByteList, NodeType, Tree, is_name};
use std::alloc::{AllocError, Global};

fn make_node(
    alloc: Global,
    tree: &mut Tree,
    directory: u64,
    name: &[u8],
    node_type: NodeType,
) -> Result<u64, AllocError> {
    if !tree.is_directory(directory) || !tree.has_path(directory) || !is_name(name) {
        return Ok(0);
    }
    if tree.child(directory, name).is_some() || tree.len() >= NODES || tree.next() >= 1_000 {
        return Ok(0);
    }
    tree.create(alloc, directory, name, node_type)
}

fn move_node(
    alloc: Global,
    tree: &mut Tree,
    number: u64,
    directory: u64,
) -> Result<bool, AllocError> {
    if number == 1 || !tree.has_path(number) || tree.is_within(number, directory) {
        return Ok(false);
    }
    if !tree.is_directory(directory) || !tree.has_path(directory) {
        return Ok(false);
    }
    if tree.child(directory, b"a").is_some() || !is_name(b"a") {
        return Ok(false);
    }
    let name = ByteList::copy_of(alloc, b"a")?;
    tree.rename(number, directory, name);
    Ok(true)
}

fn remove_node(tree: &mut Tree, number: u64) {
    if number != 1 && tree.is_empty(number) {
        tree.remove(number);
    }
}

fn forget_node(tree: &mut Tree, number: u64) {
    if !tree.has_path(number) {
        tree.forget(number);
    }
}

fn set_size(tree: &mut Tree, number: u64, size: u64) -> Result<bool, AllocError> {
    if tree.is_directory(number) || size > 8_192 {
        return Ok(false);
    }
    tree.resize(number, size)?;
    Ok(true)
}

fn put_bytes(tree: &mut Tree, number: u64, from: u64, bytes: &[u8]) {
    let size = tree.size(number);
    if !tree.is_directory(number) && from <= size && bytes.len() as u64 <= size - from {
        tree.write(number, from, bytes);
    }
}

fn add_node(
    alloc: Global,
    tree: &mut Tree,
    number: u64,
    node_type: NodeType,
) -> Result<bool, AllocError> {
    if number < tree.next() || number >= 1_000 || tree.len() >= NODES {
        return Ok(false);
    }
    tree.create_removed(alloc, number, node_type)?;
    Ok(true)
}

fn hang_node(
    alloc: Global,
    tree: &mut Tree,
    number: u64,
    directory: u64,
    name: &[u8],
) -> Result<bool, AllocError> {
    if tree.has_path(number) || !tree.is_directory(directory) || !tree.has_path(directory) {
        return Ok(false);
    }
    if tree.child(directory, name).is_some() || !is_name(name) {
        return Ok(false);
    }
    let bytes = ByteList::copy_of(alloc, name)?;
    tree.hang(number, directory, bytes);
    Ok(true)
}

/// What is done to a tree, where it may be, or what is seen of it then. Nodes have numbers, of
/// which the root is 1.
enum Step {
    /// A directory, a name, a type, and the number of the node that is made so.
    Make(u64, &'static [u8], NodeType, u64),
    /// A node goes into a directory, as `a`.
    Move(u64, u64),
    Remove(u64),
    Forget(u64),
    ForgetRemoved,
    Resize(u64, u64),
    /// Bytes are written into a file, from here on.
    Put(u64, u64, &'static [u8]),
    /// A node with this number is made that has no path.
    Add(u64, NodeType),
    /// It goes into a directory, under a name.
    Hang(u64, u64, &'static [u8]),
    /// The next number is this one at least.
    RaiseNext(u64),
    Next(u64),
    Child(u64, &'static [u8], Option<u64>),
    Parent(u64, Option<u64>),
    Name(u64, &'static [u8]),
    HasPath(u64, bool),
    IsEmpty(u64, bool),
    /// A directory, a place in it, and the node there. Then how many there are in all.
    Entry(u64, usize, Option<u64>),
    Entries(u64, usize),
    /// A place among all nodes, and the node there.
    NumberAt(usize, Option<u64>),
    Used(u64),
    Chunks(usize),
    /// A file's bytes in one of its chunks, or how many there are.
    Chunk(u64, usize, &'static [u8]),
    ChunkLength(u64, usize, usize),
    /// A file is read from here on into so much room, which gives so many bytes. Over six of 7 they
    /// are these then.
    Read(u64, u64, usize, usize, [u8; 6]),
}

#[rattlefmt::skip]
static STORIES: [(&str, &[Step]); 3] = [
    // a file is made, moved, written and removed
    ("changes", &[
        Make(1, b"a", File, 2), Make(1, b"d", Directory, 3), Move(2, 3), Child(1, b"a", None),
        Child(3, b"a", Some(2)), Parent(2, Some(3)), Name(2, b"a"), IsEmpty(3, false),
        Entry(1, 0, Some(3)), Entry(1, 1, None), Resize(2, 5), Put(2, 2, b"abc"), Resize(2, 4),
        Used(4), Read(2, 1, 3, 3, [0, b'a', b'b', 7, 7, 7]),
        // a directory is removed once it is empty, and not before
        Remove(3), HasPath(3, true), Remove(2), Remove(3), HasPath(3, false),
        // a removed file keeps its bytes until it is forgotten
        Used(4), Forget(2), Used(0),
        // nor is the directory there any more, once all removed nodes are forgotten; its number
        // stays its own
        ForgetRemoved, NumberAt(0, Some(1)), NumberAt(1, None), Make(1, b"a", File, 4),
    ]),
    // bytes that were cut off are zeros
    ("cuts", &[
        Make(1, b"a", File, 2), Resize(2, 5_000), Put(2, 0, &[b'a'; 5_000]), Chunks(2),
        Resize(2, 4_100), Resize(2, 5_000), Read(2, 4_094, 6, 6, [b'a'; 6]),
        Read(2, 4_098, 6, 6, [b'a', b'a', 0, 0, 0, 0]), Read(2, 4_997, 6, 3, [0, 0, 0, 7, 7, 7]),
        Resize(2, 4_096), Chunks(1),
    ]),
    // a tree is built anew: of nodes without a path, which go into directories then
    ("what is built anew", &[
        Add(3, File), Add(5, Directory), RaiseNext(8), Next(8), HasPath(3, false), Hang(5, 1, b"d"),
        Hang(3, 5, b"f"), Child(5, b"f", Some(3)), Entries(5, 1), Entries(3, 0),
        NumberAt(1, Some(3)), NumberAt(3, None), Resize(3, 4_098), Put(3, 4_096, b"ab"),
        ChunkLength(3, 0, 4_096), Chunk(3, 1, b"ab"), Chunk(3, 2, b""),
    ]),
];

fn raise_next(tree: &mut Tree, next: u64) {
    if tree.next() <= next {
        tree.raise_next(next);
    }
}

fn reads(tree: &Tree, number: u64, from: u64, room: usize) -> (usize, [u8; 6]) {
    let mut bytes = [7; 6];
    match bytes.get_mut(..room) {
        Some(part) => {
            let count = tree.read(number, from, part);
            (count, bytes)
        }
        None => (usize::MAX, bytes),
    }
}

/// Whether that is seen of a tree.
fn is_seen(tree: &Tree, step: &Step) -> bool {
    match step {
        Step::Next(next) => tree.next() == *next,
        Step::Child(directory, name, number) => tree.child(*directory, name) == *number,
        Step::Parent(number, parent) => tree.parent(*number) == *parent,
        Step::Name(number, name) => tree.name(*number) == *name,
        Step::HasPath(number, has) => tree.has_path(*number) == *has,
        Step::IsEmpty(number, is) => tree.is_empty(*number) == *is,
        Step::Entry(directory, place, number) => tree.entry(*directory, *place) == *number,
        Step::Entries(directory, count) => tree.entry_count(*directory) == *count,
        Step::NumberAt(place, number) => tree.number_at(*place) == *number,
        Step::Used(bytes) => tree.used_bytes() == *bytes,
        Step::Chunks(count) => tree.chunks() == *count,
        Step::Chunk(number, index, bytes) => tree.chunk(*number, *index) == *bytes,
        Step::ChunkLength(number, index, len) => tree.chunk(*number, *index).len() == *len,
        Step::Read(number, from, room, count, bytes) => {
            reads(tree, *number, *from, *room) == (*count, *bytes)
        }
        _ => false,
    }
}

/// Whether a step that takes no memory goes so.
fn is_done(tree: &mut Tree, step: &Step) -> bool {
    match step {
        Step::Remove(number) => remove_node(tree, *number),
        Step::Forget(number) => forget_node(tree, *number),
        Step::ForgetRemoved => tree.forget_removed(),
        Step::Put(number, from, bytes) => put_bytes(tree, *number, *from, bytes),
        Step::RaiseNext(next) => raise_next(tree, *next),
        step => return is_seen(tree, step),
    }
    true
}

/// Whether a step goes so.
fn goes_so(alloc: Global, tree: &mut Tree, step: &Step) -> Result<bool, AllocError> {
    match step {
        Step::Make(directory, name, node_type, number) => {
            Ok(make_node(alloc, tree, *directory, name, *node_type)? == *number)
        }
        Step::Move(number, directory) => move_node(alloc, tree, *number, *directory),
        Step::Resize(number, size) => set_size(tree, *number, *size),
        Step::Add(number, node_type) => add_node(alloc, tree, *number, *node_type),
        Step::Hang(number, directory, name) => hang_node(alloc, tree, *number, *directory, name),
        step => Ok(is_done(tree, step)),
    }
}

/// How many steps go so, before one that doesn't.
fn count_steps(alloc: Global, tree: &mut Tree, steps: &[Step]) -> Result<usize, AllocError> {
    for (place, step) in steps.iter().enumerate() {
        if !goes_so(alloc, tree, step)? {
            return Ok(place);
        }
    }
    Ok(steps.len())
}

fn count_told(alloc: Global, steps: &[Step]) -> Result<usize, AllocError> {
    let mut tree = Tree::new(alloc)?;
    let count = count_steps(alloc, &mut tree, steps);
    drop(tree);
    count
}

/// `scripts/runs/refused-allocations` refuses each allocation in turn, and then this ends in that.
#[test]
fn changes_with_memory(rt: HostRuntime) -> Result<(), AllocError> {
    for (name, steps) in &STORIES {
        let told = count_told(rt.alloc(), steps)?;
        assert_row(&rt, told == steps.len(), &(*name, told));
    }
    Ok(())
}

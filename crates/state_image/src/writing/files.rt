//! The files of a process.

ghost use Rattle.std.specs.Prelude.{◌≡◌, ◌<◌, ◌∷◌, ◌++◌, Some, length, slice_get, if◌then◌else◌};
ghost use Rattle.wasi_abi.specs.rules.Layouts.{u64_bytes};
ghost use Rattle.wasi_abi.specs.rules.Numbers.{directory_type, regular_file};
ghost use Rattle.file_tree.specs.rules.Files.{FileNode, Entry, node_of, is_directory};
ghost use Rattle.file_tree.specs.rules.Files.{bytes_of_node, entries_of};
ghost use Rattle.file_tree.specs.rules.Chunks.{chunks_for};
ghost use Rattle.state_image.specs.rules.ProcessImage.{items_bytes, entry_bytes, content_bytes};
ghost use Rattle.state_image.specs.rules.ProcessImage.{node_bytes, files_bytes};
ghost use Rattle.state_image.specs.rules.Sinks.{Pushes};

use crate::sink::Sink;
use crate::writing::numbers::{push_bytes, push_count, push_short_length, push_u8, push_u64};
use file_tree::Tree;
use file_tree::limits::CHUNK_BYTES;
use wasi_abi::FileType;

/// The number of the next new node, how many nodes there are, and each of them, by rising number.
pub(crate) fn push_files<S: Sink>(tree: &Tree, sink: &mut S) -> Result<(), S::Fault>
    ensures { Pushes S.takes sink.old (files_bytes tree.now) result sink.new }
{
    push_u64(tree.next(), sink)?;
    push_nodes(tree, sink)
}

/// The number that stands for the type of a node.
pub(crate) fn type_number_of(tree: &Tree, number: u64) -> u8
    ensures { result ≡ (if is_directory tree.now number then directory_type else regular_file) }
{
    if tree.is_directory(number) {
        FileType::Directory.number()
    } else {
        FileType::RegularFile.number()
    }
}

fn push_nodes<S: Sink>(tree: &Tree, sink: &mut S) -> Result<(), S::Fault>
    ensures { Pushes S.takes sink.old (items_bytes (node_bytes tree.now) tree.now.nodes)
        result sink.new }
{
    let count = tree.len();
    push_count(count, sink)?;
    for place in 0..count {
        let number = tree.number_at(place).unwrap();
        push_node(tree, number, sink)?;
    }
    Ok(())
}

fn push_node<S: Sink>(tree: &Tree, number: u64, sink: &mut S) -> Result<(), S::Fault>
    ensures { (n : FileNode) → node_of tree.now number ≡ Some n → n.number ≡ number
        → Pushes S.takes sink.old (node_bytes tree.now n) result sink.new }
{
    push_u64(number, sink)?;
    push_content(tree, number, sink)
}

/// The type, and the bytes of a file or the entries of a directory.
fn push_content<S: Sink>(tree: &Tree, number: u64, sink: &mut S) -> Result<(), S::Fault>
    ensures { (n : FileNode) → node_of tree.now number ≡ Some n
        → Pushes S.takes sink.old (content_bytes tree.now number n.content) result sink.new }
{
    if tree.is_directory(number) {
        push_directory(tree, number, sink)
    } else {
        push_file(tree, number, sink)
    }
}

fn push_directory<S: Sink>(tree: &Tree, number: u64, sink: &mut S) -> Result<(), S::Fault>
    ensures { Pushes S.takes sink.old
        (directory_type ∷ items_bytes entry_bytes (entries_of tree.now number)) result sink.new }
{
    push_u8(FileType::Directory.number(), sink)?;
    push_entries(tree, number, sink)
}

/// How many entries a directory has, and each of them, by the order of their names.
fn push_entries<S: Sink>(tree: &Tree, directory: u64, sink: &mut S) -> Result<(), S::Fault>
    ensures { Pushes S.takes sink.old (items_bytes entry_bytes (entries_of tree.now directory))
        result sink.new }
{
    let count = tree.entry_count(directory);
    push_count(count, sink)?;
    for place in 0..count {
        push_entry(tree, directory, place, sink)?;
    }
    Ok(())
}

/// The entry at a place of a directory: the length of its name, its name, and its node.
fn push_entry<S: Sink>(
    tree: &Tree,
    directory: u64,
    place: usize,
    sink: &mut S,
) -> Result<(), S::Fault>
    requires { place < length (entries_of tree.now directory) }
    ensures { (e : Entry) → slice_get (entries_of tree.now directory) place ≡ Some e
        → Pushes S.takes sink.old (entry_bytes e) result sink.new }
{
    let number = tree.entry(directory, place).unwrap();
    let name = tree.name(number);
    push_short_length(name.len(), sink)?;
    push_bytes(name, sink)?;
    push_u64(number, sink)
}

fn push_file<S: Sink>(tree: &Tree, number: u64, sink: &mut S) -> Result<(), S::Fault>
    ensures { Pushes S.takes sink.old
        (regular_file ∷ (u64_bytes (length (bytes_of_node tree.now number))
        ++ bytes_of_node tree.now number)) result sink.new }
{
    push_u8(FileType::RegularFile.number(), sink)?;
    push_u64(tree.size(number), sink)?;
    push_chunks(tree, number, sink)
}

/// The bytes of a file, as its chunks have them.
fn push_chunks<S: Sink>(tree: &Tree, number: u64, sink: &mut S) -> Result<(), S::Fault>
    ensures { Pushes S.takes sink.old (bytes_of_node tree.now number) result sink.new }
{
    for index in 0..chunk_count(tree.size(number)) {
        push_bytes(tree.chunk(number, index), sink)?;
    }
    Ok(())
}

/// How many chunks a file of so many bytes has.
fn chunk_count(size: u64) -> usize
    ensures { result ≡ chunks_for size }
{
    size.div_ceil(CHUNK_BYTES as u64) as usize
}

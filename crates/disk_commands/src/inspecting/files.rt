//! `wasmhost files`.

ghost use Rattle.std.specs.Prelude.{◌≡◌, IfOk, OnOk, Some, None, Ok, Err, option_map};
ghost use Rattle.std.specs.List.{flat_map};
ghost use Rattle.std.specs.Io.KnownBytes.{Appends};
ghost use Rattle.command_words.specs.rules.Printers.{printers};
ghost use Rattle.command_words.specs.rules.Reports.{SaysLine};
ghost use Rattle.disk_commands.specs.rules.Inspectings.{SaysFile, SaysFiles, TellsFiles};
ghost use Rattle.disk_commands.specs.rules.Inspectings.{listed_path, listing_text, node_line};
ghost use Rattle.disk_commands.specs.rules.Inspectings.{node_mark, path_words, status_of_path};

use crate::on_disk::{OnDiskFault, say_disk_fault};
use command_words::{
    Obstacle, Printer, Status, is_printable, report, say_line, say_text, spell_told_text,
};
use file_listing::{ListedNode, PathFault, list_nodes, read_path};
use file_tree::Tree;
use sector_disk::Disk;
use std::alloc::Global;
use std::io::{self, Write};
use worker::inspect;

/// Spells the letter of a listed node, and whether its path comes as it is or by its digits.
fn spell_mark<W: Write>(out: &mut W, letter: &str, path: &[u8]) -> io::Result<()>
    ensures { OnOk result (Appends (W.contents out.old) (W.contents out.new)
        (node_mark letter.now path.now)) }
{
    if is_printable(path) {
        write!(out, "{letter} ")
    } else {
        write!(out, "{letter}x ")
    }
}

/// Spells a listed node.
fn spell_node<W: Write>(out: &mut W, node: &ListedNode) -> io::Result<()>
    ensures { OnOk result (Appends (W.contents out.old) (W.contents out.new)
        (node_line node.now)) }
{
    let path = node.path.as_slice();
    if node.is_directory {
        spell_mark(out, "d", path)?;
    } else {
        spell_mark(out, "f", path)?;
        write!(out, "{} ", node.size)?;
    }
    spell_told_text(out, path)?;
    out.write_all(b"\n")
}

/// Spells listed nodes, one a line.
fn spell_nodes<W: Write>(out: &mut W, nodes: &[ListedNode]) -> io::Result<()>
    ensures { OnOk result (Appends (W.contents out.old) (W.contents out.new)
        (flat_map node_line nodes.now)) }
{
    for node in nodes {
        spell_node(out, node)?;
    }
    Ok(())
}

/// The text of a tree's list.
fn text_of(alloc: Global, tree: &Tree) -> io::Result<Vec<u8>>
    ensures { IfOk result (λ text. text.items ≡ listing_text tree.now) }
{
    let nodes = list_nodes(alloc, tree)?;
    let mut text = Vec::new(alloc);
    spell_nodes(&mut text, nodes.as_slice())?;
    Ok(text)
}

/// Lists the files of a tree. Answers the exit status.
fn say_list<W: Write + Drop, E: Write + Drop>(
    alloc: Global,
    tree: &Tree,
    out: &mut Printer<W>,
    err: &mut Printer<E>,
) -> Status
    ensures { SaysFiles tree.now None (printers out.old err.old) (printers out.new err.new)
        result }
{
    match text_of(alloc, tree) {
        Ok(text) => say_text(out, text.as_slice()),
        Err(_) => report(err, Obstacle::Memory),
    }
}

/// The exit status of a path that isn't that of a file.
fn status_of_path(fault: PathFault) -> Status
    ensures { result ≡ status_of_path fault }
{
    match fault {
        PathFault::Memory => Status::OutOfMemory,
        PathFault::Missing | PathFault::Directory => Status::Refused,
    }
}

/// What is said of such a path, and what to do.
fn words_of_path(fault: PathFault) -> &'static str
    ensures { result.now ≡ path_words fault }
{
    match fault {
        PathFault::Memory => "failed F3 Memory",
        PathFault::Missing => {
            "failed F1 Missing\nno file is listed under this path: without PATH all are listed"
        }
        PathFault::Directory => "failed F2 Directory\nit is a directory: --all FOLDER writes all",
    }
}

/// Says why there are no bytes under a path. Answers the exit status.
fn say_path_fault<E: Write + Drop>(err: &mut Printer<E>, fault: PathFault) -> Status
    ensures { SaysLine (path_words fault) (status_of_path fault) err.old result err.new }
{
    say_line(err, status_of_path(fault), words_of_path(fault))
}

/// A path without a `/` in front, as it is listed.
fn listed_path(path: &[u8]) -> &[u8]
    ensures { result.now ≡ listed_path path.now }
{
    match path {
        [b'/', listed @ ..] => listed,
        _ => path,
    }
}

/// Writes the file under a path, which may have a `/` in front. Answers the exit status.
fn say_file<W: Write + Drop, E: Write + Drop>(
    alloc: Global,
    tree: &Tree,
    path: &[u8],
    out: &mut Printer<W>,
    err: &mut Printer<E>,
) -> Status
    ensures { SaysFiles tree.now (Some path.now) (printers out.old err.old)
        (printers out.new err.new) result }
{
    match read_path(alloc, tree, listed_path(path)) {
        Ok(bytes) => say_text(out, bytes.as_slice()),
        Err(fault) => say_path_fault(err, fault),
    }
}

/// Lists the files of a tree, or writes the one under a path. Answers the exit status.
fn say_files<W: Write + Drop, E: Write + Drop>(
    alloc: Global,
    tree: &Tree,
    path: Option<&str>,
    out: &mut Printer<W>,
    err: &mut Printer<E>,
) -> Status
    ensures { SaysFiles tree.now (option_map (λ text. text.now) path.entry)
        (printers out.old err.old) (printers out.new err.new) result }
{
    match path {
        Some(path) => say_file(alloc, tree, path.as_bytes(), out, err),
        None => say_list(alloc, tree, out, err),
    }
}

/// Lists the files of the process that was saved last on a worker's disk, or writes the one under a
/// path. Nothing is changed on the disk, but that it is synced. Answers the exit status: `Done`
/// where they are listed or written, `Refused` for a disk that is refused or a path that isn't that
/// of a file, `IoError` where the disk fails, `OutOfMemory`, `Unwritten` where a write of a printer
/// has failed.
pub fn list_files<D: Disk, W: Write + Drop, E: Write + Drop>(
    alloc: Global,
    disk: &mut D,
    path: Option<&str>,
    out: &mut Printer<W>,
    err: &mut Printer<E>,
) -> Status
    ensures { TellsFiles (option_map (λ text. text.now) path.entry) (D.medium disk.old)
        (D.medium disk.new) (printers out.old err.old) (printers out.new err.new) result }
{
    match inspect(alloc, disk) {
        Ok(told) => {
            let status = say_files(alloc, told.process.host().tree(), path, out, err);
            told.close();
            status
        }
        Err(fault) => say_disk_fault(err, OnDiskFault::from(fault)),
    }
}

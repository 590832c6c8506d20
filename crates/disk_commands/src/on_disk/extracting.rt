//! `wasmhost files --all`.
//!
//! # Promises
//!
//! - `extract_file`: of the worker's disk at the path the files of the process that was saved last
//!   are written into a new folder (`ExtractsFile`). `Done` says that the folder was made, and each
//!   listed node below it: a directory, or a file with its bytes, all of it durable. How many is
//!   printed. Else it is said why not. What was made is removed again, the last first, and what
//!   stays is named (`ClearsAll`). By `NewTrees` nothing is made but that folder, and below it what
//!   the tree lists, and nothing else is removed.
//!
//! # Choices
//!
//! - **Nodes are made by the order of their paths**, so each directory comes before what is in it
//!   (`ParentsComeFirst`). By number it may come later, since a file can be moved into a younger
//!   directory.
//! - **The host can have each name.** A node's name is UTF-8 without a `/` or a byte 0, and it is
//!   neither `.` nor `..`. It may have a newline.
//! - **All is synced**, each file before the next node is made, and each folder in the end. So an
//!   error that the device has later is one of this command.
//! - **There is room to remember all nodes before the folder is made**, so none is made that can't
//!   be remembered.

ghost use Rattle.std.specs.Prelude.{◌≡◌, ◌≤◌, ◌<◌, ◌+◌, ◌≢◌};
ghost use Rattle.std.specs.Prelude.{All, Contains, IfErr, IfOk, IsTrue, OnErr};
ghost use Rattle.std.specs.Prelude.{OnOk, [], ◌∷◌, ◌++◌, true, length, map, reverse, string_bytes};
ghost use Rattle.std.specs.Prelude.{vec_len, vec_capacity};
ghost use Rattle.std.specs.IoError.{error_kind};
ghost use Rattle.std.specs.List.Sorted.{IsPermutation};
ghost use Rattle.file_listing.specs.rules.Listed.{HaveNames, IsPathText, listing_in};
ghost use Rattle.sector_disk.specs.rules.Known.{MayOpen};
ghost use Rattle.command_words.specs.rules.Printers.{IsPrinted, printers};
ghost use Rattle.command_words.specs.rules.Reports.{SaysOnOutput};
ghost use Rattle.command_words.specs.declared.status.Status.TheVariants as exit;
ghost use Rattle.disk_commands.specs.NodeOrders.{ParentsComeFirst};
ghost use Rattle.disk_commands.specs.MadeNodes.{AddsMade, AreMadeFor, EndsFile, EndsNode};
ghost use Rattle.disk_commands.specs.MadeNodes.{HasStoppedAmong, HaveMade, IsUnfilled};
ghost use Rattle.disk_commands.specs.MadeNodes.{SaysNodeUnmade, SaysOneUnsynced, made_path};
ghost use Rattle.disk_commands.specs.MadeNodes.{made_place};
ghost use Rattle.disk_commands.specs.rules.ClearedTrees.{ClearsAll};
ghost use Rattle.disk_commands.specs.rules.ExtractedTrees.{AreSynced, ExtractsDisk, ExtractsFile};
ghost use Rattle.disk_commands.specs.rules.ExtractedTrees.{IsFilled, IsMadeBelow, SaysUnwritten};
ghost use Rattle.disk_commands.specs.rules.ExtractedTrees.{WritesTree, directories_in};
ghost use Rattle.disk_commands.specs.rules.ExtractedTrees.{written_line};
ghost use Rattle.disk_commands.specs.rules.NewTrees.{IsBelow, IsFileOf, IsListedBelow};
ghost use Rattle.disk_commands.specs.rules.NewTrees.{LiesInMadeFolder, below};
ghost use Rattle.disk_commands.specs.rules.Openings.{command_run};

use crate::on_disk::clearing::{MadeNode, clear_tree};
use crate::on_disk::disk_file::{Seen, open_to_look};
use crate::on_disk::fault::{OnDiskFault, say_disk_fault};
use crate::on_disk::live::picture_of;
use crate::on_disk::new_trees::{Mark, NewTree, NewTrees, NodeFile};
use crate::on_disk::opening::report_unread;
use command_words::{Obstacle, Printer, Status, report};
use file_listing::{ListedNode, list_nodes, read_node};
use file_tree::Tree;
use sector_disk::{Disk, DiskFile};
use std::alloc::{AllocError, Global};
use std::io::{self, Error, ErrorKind, Write};
use worker::inspect;

/// The path of a node below a folder.
fn path_below(alloc: Global, folder: &str, path: &str) -> Result<String, AllocError>
    ensures { IfOk result (λ text. string_bytes text ≡ below folder.now path.now) }
{
    format!(in alloc; "{folder}/{path}")
}

/// What came of a node that was to be made.
#[derive(Drop)]
pub enum Outcome {
    /// It was made: a file with its bytes, durably.
    Made(Mark),
    /// A file was made, and isn't written durably.
    Unwritten(Mark, Error),
    /// Nothing was made.
    Unmade(Error),
}

/// Writes the bytes of a file that was made for them, and makes them durable.
fn write_durably<R: NewTrees>(
    files: &R,
    new: &NewTree<'_>,
    file: &mut NodeFile<'_, R::File>,
    bytes: &[u8],
) -> io::Result<()>
    requires { IsFileOf new.now.tree.now new.now.path.now file.old.path.now bytes.now }
    ensures written { OnOk result
        (IsTrue ((R.trees files.now).written file.old.path.now bytes.now)) }
    ensures synced { OnOk result (IsTrue ((R.trees files.now).synced file.old.path.now)) }
    ensures failed { IfErr result (λ error.
        IsTrue ((R.trees files.now).unwritten file.old.path.now (error_kind error))) }
{
    files.write_file(new, file, bytes)?;
    files.sync_file(file)
}

/// Makes a file of the tree at a path below a new folder, with its bytes.
fn make_file<R: NewTrees>(files: &R, new: &NewTree<'_>, path: &str, bytes: &[u8]) -> Outcome
    requires below { IsBelow new.now.path.now path.now }
    requires listed { IsFileOf new.now.tree.now new.now.path.now path.now bytes.now }
    requires parent { LiesInMadeFolder (R.trees files.now) path.now }
    ensures { EndsFile (R.trees files.now) path.now bytes.now result }
{
    let mut file = match files.make_file(new, path) {
        Ok(file) => file,
        Err(error) => return Outcome::Unmade(error),
    };
    let mark = file.mark();
    match write_durably(files, new, &mut file, bytes) {
        Ok(()) => Outcome::Made(mark),
        Err(error) => Outcome::Unwritten(mark, error),
    }
}

/// Makes a node of its tree at the node's path below a new folder.
fn make_node<R: NewTrees>(
    alloc: Global,
    files: &R,
    new: &NewTree<'_>,
    path: &str,
    node: &ListedNode,
) -> Outcome
    requires below { IsBelow new.now.path.now path.now }
    requires listed { IsListedBelow new.now.tree.now new.now.path.now path.now node.now }
    requires parent { LiesInMadeFolder (R.trees files.now) path.now }
    ensures { EndsNode (R.trees files.now) new.now.tree.now path.now node.now result }
{
    if node.is_directory {
        return match files.make_folder(new, path) {
            Ok(mark) => Outcome::Made(mark),
            Err(error) => Outcome::Unmade(error),
        };
    }
    let Ok(bytes) = read_node(alloc, new.tree(), node.number) else {
        return Outcome::Unmade(Error::from(ErrorKind::OutOfMemory));
    };
    make_file(files, new, path, bytes.as_slice())
}

/// Makes a node below a new folder, and remembers it. Where that fails, it is said, and the error
/// is the exit status. There is room for one more.
fn write_node<R: NewTrees, E: Write + Drop>(
    alloc: Global,
    files: &R,
    new: &NewTree<'_>,
    node: &ListedNode,
    made: &mut Vec<MadeNode>,
    err: &mut Printer<E>,
) -> Result<(), Status>
    requires named { IsPathText node.now.path }
    requires listed { Contains (listing_in new.now.tree.now) node.now }
    requires parent { LiesInMadeFolder (R.trees files.now)
        (below new.now.path.now node.now.path) }
    requires room { vec_len made.old < vec_capacity made.old }
    ensures whole { OnOk result
        (IsMadeBelow (R.trees files.now) new.now.path.now new.now.tree.now node.now) }
    ensures quiet { OnOk result (err.new ≡ err.old) }
    ensures added { OnOk result
        (AddsMade (R.trees files.now) new.now.path.now node.now made.old.items made.new.items) }
    ensures said { IfErr result (λ status. SaysNodeUnmade (R.trees files.now)
        new.now.path.now node.now (made.old.items, made.new.items) err.old status err.new) }
    ensures len { OnOk result (vec_len made.new ≡ vec_len made.old + 1) }
    ensures capacity { vec_capacity made.new ≡ vec_capacity made.old }
{
    let Ok(path) = path_below(alloc, new.path(), node.path_text()) else {
        return Err(report(err, Obstacle::Memory));
    };
    let is_folder = node.is_directory;
    match make_node(alloc, files, new, path.as_str(), node) {
        Outcome::Made(mark) => {
            made.push_reserved(MadeNode {
                path,
                is_folder,
                mark,
            });
            Ok(())
        }
        Outcome::Unwritten(mark, error) => {
            let status = report_unread(err, path.as_str(), error);
            made.push_reserved(MadeNode {
                path,
                is_folder,
                mark,
            });
            Err(status)
        }
        Outcome::Unmade(error) => Err(report_unread(err, path.as_str(), error)),
    }
}

/// Makes nodes below a new folder, in their order, and remembers each that was made. Where one
/// fails, it is said, and the error is the exit status. There is room for all of them.
fn write_nodes<R: NewTrees, E: Write + Drop>(
    alloc: Global,
    files: &R,
    nodes: &[ListedNode],
    new: &NewTree<'_>,
    made: &mut Vec<MadeNode>,
    err: &mut Printer<E>,
) -> Result<(), Status>
    requires named { HaveNames nodes.now }
    requires listed { All (Contains (listing_in new.now.tree.now)) nodes.now }
    requires ordered { ParentsComeFirst nodes.now }
    requires folder { IsTrue ((R.trees files.now).folder new.now.path.now) }
    requires none { made.old.items ≡ [] }
    requires room { length nodes.now ≤ vec_capacity made.old }
    ensures whole { OnOk result
        (All (IsMadeBelow (R.trees files.now) new.now.path.now new.now.tree.now) nodes.now) }
    ensures all { OnOk result (AreMadeFor new.now.path.now nodes.now made.new.items) }
    ensures quiet { OnOk result (err.new ≡ err.old) }
    ensures said { IfErr result (λ status. HasStoppedAmong (R.trees files.now) new.now.path.now
        new.now.tree.now nodes.now made.new.items err.old status err.new) }
    ensures have { HaveMade (R.trees files.now) made.new.items }
{
    for node in nodes {
        if let Err(status) = write_node(alloc, files, new, node, made, err) {
            return Err(status);
        }
    }
    Ok(())
}

/// Makes the entries of each folder durable that was made, of the new folder, and its own. Where
/// that fails, it is said, and the error is the exit status.
fn sync_folders<R: NewTrees, E: Write + Drop>(
    files: &R,
    new: &NewTree<'_>,
    made: &[MadeNode],
    err: &mut Printer<E>,
) -> Result<(), Status>
    ensures synced { OnOk result (AreSynced (R.trees files.now) (map made_place made.now)) }
    ensures top { OnOk result (IsTrue ((R.trees files.now).synced new.now.path.now)) }
    ensures entry { OnOk result (IsTrue ((R.trees files.now).entered new.now.path.now)) }
    ensures quiet { OnOk result (err.new ≡ err.old) }
    ensures said { IfErr result (λ status. SaysOneUnsynced (R.trees files.now) new.now.path.now
        (map made_path made.now) err.old status err.new) }
{
    for node in made {
        if node.is_folder {
            sync_one(files, node.path.as_str(), err)?;
        }
    }
    sync_one(files, new.path(), err)?;
    match files.sync_entry_of(new) {
        Ok(()) => Ok(()),
        Err(error) => Err(report_unread(err, new.path(), error)),
    }
}

/// Makes the entries of a folder durable. Where that fails, it is said, and the error is the exit
/// status.
fn sync_one<R: NewTrees, E: Write + Drop>(
    files: &R,
    path: &str,
    err: &mut Printer<E>,
) -> Result<(), Status>
    ensures synced { OnOk result (IsTrue ((R.trees files.now).synced path.now)) }
    ensures quiet { OnOk result (err.new ≡ err.old) }
    ensures said { IfErr result (λ status.
        SaysUnwritten (R.trees files.now) path.now err.old status err.new) }
{
    match files.sync_folder(path) {
        Ok(()) => Ok(()),
        Err(error) => Err(report_unread(err, path, error)),
    }
}

/// How many of these nodes are directories.
fn count_directories(nodes: &[ListedNode]) -> usize
    ensures counted { result ≡ directories_in nodes.now }
    ensures known { result ≤ length nodes.now }
{
    nodes.iter().filter(|node| node.is_directory).count()
}

/// Prints how many files and folders were written.
fn print_written<W: Write + Drop>(out: &mut Printer<W>, nodes: &[ListedNode]) -> io::Result<()>
    ensures printed { OnOk result (IsPrinted out.old out.new (written_line nodes.now)) }
    ensures failed { OnErr result (out.new.failed ≡ true) }
{
    let folders = count_directories(nodes);
    let count = nodes.len() - folders;
    writeln!(out, "wrote {count} files, {folders} folders")?;
    out.flush()
}

/// Says how many files and folders were written, or that this can't be. Answers the exit status.
fn say_written<W: Write + Drop, E: Write + Drop>(
    out: &mut Printer<W>,
    nodes: &[ListedNode],
    err: &mut Printer<E>,
) -> Status
    ensures { SaysOnOutput (written_line nodes.now) exit.Done (printers out.old err.old)
        (printers out.new err.new) result }
{
    match print_written(out, nodes) {
        Ok(()) => Status::Done,
        Err(_) => report(err, Obstacle::Unwritten),
    }
}

/// Fills a new folder with nodes, durably, and remembers what was made. Where that fails, it is
/// said, and the error is the exit status.
fn fill_folder<R: NewTrees, E: Write + Drop>(
    alloc: Global,
    files: &R,
    nodes: &[ListedNode],
    new: &NewTree<'_>,
    made: &mut Vec<MadeNode>,
    err: &mut Printer<E>,
) -> Result<(), Status>
    requires named { HaveNames nodes.now }
    requires listed { All (Contains (listing_in new.now.tree.now)) nodes.now }
    requires ordered { ParentsComeFirst nodes.now }
    requires folder { IsTrue ((R.trees files.now).folder new.now.path.now) }
    requires none { made.old.items ≡ [] }
    requires room { length nodes.now ≤ vec_capacity made.old }
    ensures filled { OnOk result
        (IsFilled (R.trees files.now) new.now.path.now new.now.tree.now nodes.now) }
    ensures all { OnOk result (AreMadeFor new.now.path.now nodes.now made.new.items) }
    ensures quiet { OnOk result (err.new ≡ err.old) }
    ensures said { IfErr result (λ status. IsUnfilled (R.trees files.now) new.now.path.now
        new.now.tree.now nodes.now made.new.items err.old status err.new) }
    ensures have { HaveMade (R.trees files.now) made.new.items }
{
    write_nodes(alloc, files, nodes, new, made, err)?;
    sync_folders(files, new, made.as_slice(), err)
}

/// Leaves a new folder at its path where the status is `Done`. Else what was made is removed, and
/// what stays is named. Answers the exit status.
fn keep_if_filled<R: NewTrees, E: Write + Drop>(
    files: &R,
    new: NewTree<'_>,
    made: Vec<MadeNode>,
    status: Status,
    err: &mut Printer<E>,
) -> Status
    requires folder { IsTrue ((R.trees files.now).folder new.path.now) }
    requires have { HaveMade (R.trees files.now) made.items }
    ensures keeps { status ≡ exit.Done → (result ≡ exit.Done)
        × IsTrue ((R.trees files.now).kept new.entry.path.now) × (err.new ≡ err.old) }
    ensures clears { status ≢ exit.Done → ClearsAll (R.trees files.now)
        (reverse (map made_path made.items) ++ new.entry.path.now ∷ []) err.old status result
        err.new }
{
    match status {
        Status::Done => {
            files.keep_tree(new);
            Status::Done
        }
        _ => clear_tree(files, new, made, status, err),
    }
}

/// The nodes of a tree, by the order of their paths.
fn sorted_nodes(alloc: Global, tree: &Tree) -> Result<Vec<ListedNode>, AllocError>
    ensures listed { IfOk result (λ nodes. IsPermutation (listing_in tree.now) nodes.items) }
    ensures named { IfOk result (λ nodes. HaveNames nodes.items) }
    ensures of_tree { IfOk result (λ nodes. All (Contains (listing_in tree.now)) nodes.items) }
    ensures ordered { IfOk result (λ nodes. ParentsComeFirst nodes.items) }
{
    let mut nodes = list_nodes(alloc, tree)?;
    nodes.sort_unstable_by(|node, other| node.path.as_slice().cmp(other.path.as_slice()));
    Ok(nodes)
}

/// Writes the files of a tree into a new folder. Answers the exit status.
fn write_tree<R: NewTrees, W: Write + Drop, E: Write + Drop>(
    alloc: Global,
    files: &R,
    tree: &Tree,
    folder: &str,
    out: &mut Printer<W>,
    err: &mut Printer<E>,
) -> Status
    requires { IsTrue ((R.trees files.now).allowed folder.now) }
    ensures { WritesTree (R.trees files.now) folder.now tree.now (printers out.old err.old)
        (printers out.new err.new) result }
{
    let Ok(nodes) = sorted_nodes(alloc, tree) else {
        return report(err, Obstacle::Memory);
    };
    let Ok(mut made) = Vec::with_capacity(alloc, nodes.len()) else {
        return report(err, Obstacle::Memory);
    };
    let new = match files.make_tree(folder, tree) {
        Ok(new) => new,
        Err(error) => return report_unread(err, folder, error),
    };
    let filled = match fill_folder(alloc, files, nodes.as_slice(), &new, &mut made, err) {
        Ok(()) => say_written(out, nodes.as_slice(), err),
        Err(status) => status,
    };
    keep_if_filled(files, new, made, filled, err)
}

/// Writes the files of the process that was saved last on a worker's disk into a new folder.
/// Nothing is changed on the disk, but that it is synced. Answers the exit status.
fn extract_disk<D: Disk, R: NewTrees, W: Write + Drop, E: Write + Drop>(
    alloc: Global,
    files: &R,
    disk: &mut D,
    folder: &str,
    out: &mut Printer<W>,
    err: &mut Printer<E>,
) -> Status
    requires { IsTrue ((R.trees files.now).allowed folder.now) }
    ensures { ExtractsDisk (R.trees files.now) folder.now (D.medium disk.old) (D.medium disk.new)
        (printers out.old err.old) (printers out.new err.new) result }
{
    match inspect(alloc, disk) {
        Ok(told) => {
            let status = write_tree(alloc, files, told.process.host().tree(), folder, out, err);
            told.close();
            status
        }
        Err(fault) => say_disk_fault(err, OnDiskFault::from(fault)),
    }
}

/// `wasmhost files --all`: the files of the worker on the disk in a file are written into a new
/// folder. Returns the exit status: `Done` where all are written, `Refused` for a disk that is
/// refused, `IoError` where a file or folder can't be opened or made, a disk fails or a live one
/// has changed, `OutOfMemory`, `Unwritten` where a write of a printer has failed. Where it isn't
/// `Done`, what was made is removed again, and what stays is named.
pub fn extract_file<F: DiskFile, R: NewTrees<File = F>, W: Write + Drop, E: Write + Drop>(
    alloc: Global,
    files: &R,
    seen: Seen<'_>,
    folder: &str,
    out: &mut Printer<W>,
    err: &mut Printer<E>,
) -> Status
    requires disk { MayOpen (R.known files.now) seen.is_live seen.path.now }
    requires folder { IsTrue ((R.trees files.now).allowed folder.now) }
    ensures { ExtractsFile F.known (R.known files.now) (R.trees files.now) seen.entry.path.now
        folder.now (command_run (printers out.old err.old) (printers out.new err.new) result)
        seen.entry.is_live }
{
    if seen.is_live {
        match picture_of(alloc, files, seen.path, err) {
            Ok(mut picture) => {
                let status = extract_disk(alloc, files, &mut picture, folder, out, err);
                drop(picture);
                status
            }
            Err(status) => status,
        }
    } else {
        match open_to_look(files, seen.path, err) {
            Ok(mut disk) => {
                let status = extract_disk(alloc, files, &mut disk, folder, out, err);
                files.close(disk);
                status
            }
            Err(status) => status,
        }
    }
}

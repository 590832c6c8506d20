//! What a command has made below a new folder, and its removal where the command fails.
//!
//! # Promises
//!
//! - `clear_tree`: each file and folder that was made is removed, the last first, and the new
//!   folder in the end. What can't be removed stays, and is named (`ClearsAll`). Nothing else is
//!   removed.
//!
//! # Choices
//!
//! - **Each is removed by its own name.** So what somebody else has put there stays, and the folder
//!   in which it is. What isn't at its path any more isn't named. It takes no memory and opens
//!   nothing: where these lack, all is removed still.

ghost use Rattle.std.specs.Prelude.{◌≡◌, ◌∷◌, [], ◌++◌, map, reverse, IfErr, OnOk, IsTrue};
ghost use Rattle.disk_commands.specs.MadeNodes.{HaveMade, made_path};
ghost use Rattle.disk_commands.specs.rules.ClearedTrees.{ClearsAll, is_gone, staying_text};
ghost use Rattle.disk_commands.specs.rules.NewTrees.{HasMade};
ghost use Rattle.command_words.specs.rules.Printers.{SaysText};

use crate::on_disk::new_trees::{Mark, NewTree, NewTrees};
use crate::on_disk::opening::words_of_fault;
use command_words::{Printer, Status};
use sector_disk::{OpenCause, OpenFault};
use std::io::Write;

/// A file or folder that was made below a new folder.
#[derive(Drop)]
pub struct MadeNode {
    pub(super) path: String,
    pub(super) is_folder: bool,
    pub(super) mark: Mark,
}

/// Where a file or folder was made.
#[derive(Clone, Copy)]
struct Place<'a> {
    path: &'a str,
    is_folder: bool,
    mark: Mark,
}

/// Removes what was made at a place, where it is there still: a folder where it is empty.
fn remove_made<R: NewTrees>(files: &R, place: Place<'_>) -> Result<(), OpenFault>
    requires { HasMade (R.trees files.now) place.path.now place.is_folder }
    ensures removed { OnOk result (IsTrue ((R.trees files.now).removed place.entry.path.now)) }
    ensures stays { IfErr result (λ why.
        IsTrue ((R.trees files.now).stays place.entry.path.now why)) }
{
    files.find_again(place.path, place.mark)?;
    files.remove_node(place.path, place.is_folder)
}

/// Whether nothing is there.
fn is_gone(fault: OpenFault) -> bool
    ensures { result ≡ is_gone fault }
{
    matches!(fault, OpenFault::Io(OpenCause::Missing))
}

/// Says that what was made at a path stays, and why, unless nothing is there. Answers the status,
/// or `Unwritten` where a write has failed.
fn say_stays<E: Write + Drop>(
    err: &mut Printer<E>,
    path: &str,
    fault: OpenFault,
    status: Status,
) -> Status
    ensures { SaysText (staying_text path.now fault) status err.old result err.new }
{
    if is_gone(fault) {
        return status;
    }
    let words = words_of_fault(fault);
    match writeln!(err, "{path}: stays: {words}") {
        Ok(()) => status,
        Err(_) => Status::Unwritten,
    }
}

/// Removes what was made at a place, or says that it stays. Answers the status, or `Unwritten`
/// where a write has failed.
fn clear_place<R: NewTrees, E: Write + Drop>(
    files: &R,
    place: Place<'_>,
    status: Status,
    err: &mut Printer<E>,
) -> Status
    requires { HasMade (R.trees files.now) place.path.now place.is_folder }
    ensures { ClearsAll (R.trees files.now) (place.entry.path.now ∷ []) err.old status result
        err.new }
{
    match remove_made(files, place) {
        Ok(()) => status,
        Err(fault) => say_stays(err, place.path, fault, status),
    }
}

/// Removes what was made, the last first, or says that it stays.
fn clear_nodes<R: NewTrees, E: Write + Drop>(
    files: &R,
    mut made: Vec<MadeNode>,
    status: Status,
    err: &mut Printer<E>,
) -> Status
    requires { HaveMade (R.trees files.now) made.items }
    ensures { ClearsAll (R.trees files.now) (reverse (map made_path made.items)) err.old status
        result err.new }
{
    let mut status = status;
    while let Some(node) = made.pop() {
        let place = Place {
            path: node.path.as_str(),
            is_folder: node.is_folder,
            mark: node.mark,
        };
        status = clear_place(files, place, status, err);
    }
    status
}

/// Removes what was made below a new folder, the last first, and then the folder. Says what stays.
/// Answers the status, or `Unwritten` where a write has failed.
pub(super) fn clear_tree<R: NewTrees, E: Write + Drop>(
    files: &R,
    new: NewTree<'_>,
    made: Vec<MadeNode>,
    status: Status,
    err: &mut Printer<E>,
) -> Status
    requires folder { IsTrue ((R.trees files.now).folder new.path.now) }
    requires made { HaveMade (R.trees files.now) made.items }
    ensures { ClearsAll (R.trees files.now)
        (reverse (map made_path made.items) ++ new.entry.path.now ∷ []) err.old status result
        err.new }
{
    let told = clear_nodes(files, made, status, err);
    let place = Place {
        path: new.path(),
        is_folder: true,
        mark: new.mark(),
    };
    clear_place(files, place, told, err)
}

//! A folder that is made at a path, and what is made below it.
//!
//! # Choices
//!
//! - **A tree is written by these calls alone.** A body that was given only them makes no folder
//!   but the one that it may make (`allowed`), and nothing elsewhere than below it. Each path is
//!   that of a new folder, a `/` and names of which none is `..` (`IsBelow`).
//! - **A new folder is of a tree**, and nothing is made below it but what the tree lists, each file
//!   with its bytes (`IsFolderOf`, `IsFileOf`).
//! - **A folder is made before what lies in it** (`LiesInMadeFolder`). So nothing is refused for
//!   want of its folder.
//! - **What was made is known by a mark**, the system's number for it. Nothing is removed but what
//!   was made here and was found again by its mark just before (`found`). No link is followed, and
//!   a folder is removed only where it is empty. Where the system doesn't tell the number, all
//!   stays. Between look and removal another may get there: no call of the system does both.
//! - **A new folder is kept or removed, once**: `NewTree` is lent to nobody, and each of the two
//!   takes it.

ghost use Rattle.std.specs.Prelude.{◌≡◌};

use file_tree::Tree;
use sector_disk::{DiskFiles, FileNumber, OpenCause, OpenFault};
use std::fs::{File, OpenFile};
use std::io::{self, Write};
use std::rt::Files;

/// Which file or folder it is that was made, as far as the system tells it.
#[derive(Clone, Copy)]
pub struct Mark(Option<FileNumber>);

/// A folder that was made at a path for a tree, where there was nothing.
#[derive(Drop)]
pub struct NewTree<'a> {
    path: &'a str,
    tree: &'a Tree,
    mark: Mark,
}

impl NewTree<'_> {
    /// The path at which it was made.
    pub fn path(&self) -> &str
        ensures { result.now ≡ self.now.path.now }
    {
        self.path
    }

    /// The tree that it is for.
    pub fn tree(&self) -> &Tree
        ensures { result.now ≡ self.now.tree.now }
    {
        self.tree
    }

    /// Which folder it is.
    pub(super) fn mark(&self) -> Mark {
        self.mark
    }
}

/// A file that was made at a path below a new folder, to be written.
#[derive(Drop)]
pub struct NodeFile<'a, F> {
    path: &'a str,
    file: F,
    mark: Mark,
}

impl<F> NodeFile<'_, F> {
    /// Which file it is.
    pub(super) fn mark(&self) -> Mark {
        self.mark
    }
}

/// Files among which a new folder can be made, and others below it.
pub trait NewTrees: DiskFiles {
    ghost use Rattle.std.specs.Prelude.{◌≡◌, Bool, ℕ, List, IsTrue, IfErr, IfOk, OnOk};
    ghost use Rattle.std.specs.IoError.{error_kind};
    ghost use Rattle.disk_commands.specs.rules.NewTrees.{HasMade, IsBelow, IsFileOf, IsFolderOf};
    ghost use Rattle.disk_commands.specs.rules.NewTrees.{KnownTrees, LiesInMadeFolder};

    ghost trees: { Self → KnownTrees };

    /// Makes a folder for a tree where there is no such path, not even a link.
    fn make_tree<'a>(&self, path: &'a str, tree: &'a Tree) -> io::Result<NewTree<'a>>
        requires { IsTrue ((trees self.now).allowed path.now) }
        ensures made { IfOk result (λ new. IsTrue ((trees self.now).folder path.entry.now)
            × (new.path.now ≡ path.entry.now) × (new.tree.now ≡ tree.entry.now)) }
        ensures failed { IfErr result (λ error.
            IsTrue ((trees self.now).refused path.entry.now (error_kind error))) };

    /// Makes a folder of the tree below a new one, where there is no such path. The folder in which
    /// it lies was made.
    fn make_folder(&self, new: &NewTree<'_>, path: &str) -> io::Result<Mark>
        requires below { IsBelow new.now.path.now path.now }
        requires listed { IsFolderOf new.now.tree.now new.now.path.now path.now }
        requires parent { LiesInMadeFolder (trees self.now) path.now }
        ensures made { OnOk result (IsTrue ((trees self.now).folder path.now)) }
        ensures failed { IfErr result (λ error.
            IsTrue ((trees self.now).refused path.now (error_kind error))) };

    /// Makes a file below a new folder, where there is no such path. The folder in which it lies
    /// was made.
    fn make_file<'a>(
        &self,
        new: &NewTree<'_>,
        path: &'a str,
    ) -> io::Result<NodeFile<'a, Self::File>>
        requires below { IsBelow new.now.path.now path.now }
        requires listed { (bytes : List ℕ)
            × IsFileOf new.now.tree.now new.now.path.now path.now bytes }
        requires parent { LiesInMadeFolder (trees self.now) path.now }
        ensures made { IfOk result (λ file. IsTrue ((trees self.now).begun path.entry.now)
            × (file.path.now ≡ path.entry.now)) }
        ensures failed { IfErr result (λ error.
            IsTrue ((trees self.now).refused path.entry.now (error_kind error))) };

    /// Writes to a file that was made for it the bytes that the tree has.
    fn write_file(
        &self,
        new: &NewTree<'_>,
        file: &mut NodeFile<'_, Self::File>,
        bytes: &[u8],
    ) -> io::Result<()>
        requires listed { IsFileOf new.now.tree.now new.now.path.now file.old.path.now bytes.now }
        ensures same { file.new.path.now ≡ file.old.path.now }
        ensures written { OnOk result
            (IsTrue ((trees self.now).written file.old.path.now bytes.now)) }
        ensures failed { IfErr result (λ error.
            IsTrue ((trees self.now).unwritten file.old.path.now (error_kind error))) };

    /// Makes all that was written to a file durable. An error of the device shows here, and not
    /// when the file is closed.
    fn sync_file(&self, file: &NodeFile<'_, Self::File>) -> io::Result<()>
        ensures synced { OnOk result (IsTrue ((trees self.now).synced file.now.path.now)) }
        ensures failed { IfErr result (λ error.
            IsTrue ((trees self.now).unwritten file.now.path.now (error_kind error))) };

    /// Makes the entries of a folder durable.
    fn sync_folder(&self, path: &str) -> io::Result<()>
        ensures synced { OnOk result (IsTrue ((trees self.now).synced path.now)) }
        ensures failed { IfErr result (λ error.
            IsTrue ((trees self.now).unwritten path.now (error_kind error))) };

    /// Makes the entry of a new folder durable.
    fn sync_entry_of(&self, new: &NewTree<'_>) -> io::Result<()>
        ensures synced { OnOk result (IsTrue ((trees self.now).entered new.now.path.now)) }
        ensures failed { IfErr result (λ error.
            IsTrue ((trees self.now).unwritten new.now.path.now (error_kind error))) };

    /// Looks whether a path still leads to what was made there.
    fn find_again(&self, path: &str, mark: Mark) -> Result<(), OpenFault>
        ensures found { OnOk result (IsTrue ((trees self.now).found path.now)) }
        ensures failed { IfErr result (λ why. IsTrue ((trees self.now).stays path.now why)) };

    /// Removes a file that was made, or a folder where it is empty. It was found again.
    fn remove_node(&self, path: &str, is_folder: bool) -> Result<(), OpenFault>
        requires made { HasMade (trees self.now) path.now is_folder }
        requires found { IsTrue ((trees self.now).found path.now) }
        ensures removed { OnOk result (IsTrue ((trees self.now).removed path.now)) }
        ensures failed { IfErr result (λ why. IsTrue ((trees self.now).stays path.now why)) };

    /// Leaves it at its path.
    fn keep_tree(&self, new: NewTree<'_>)
        ensures { IsTrue ((trees self.now).kept new.entry.path.now) };
}

/// The folder that has the entry of a folder's path, which may end in slashes.
fn parent_of(path: &str) -> &str {
    match path.trim_end_matches('/').rsplit_once('/') {
        None => ".",
        Some(("", _)) => "/",
        Some((parent, _)) => parent,
    }
}

/// The mark of what was just made at a path.
fn mark_at<R: Files>(files: &R, path: &str) -> Mark {
    match files.symlink_metadata(path) {
        Ok(found) => Mark(Some(FileNumber::of(&found))),
        Err(_) => Mark(None),
    }
}

// Of the system's files no more is known than what it answers.
impl<R: Files> NewTrees for R {
    ghost use Rattle.disk_commands.specs.rules.NewTrees.{all_said_of_trees};

    ghost trees = { λ _. all_said_of_trees };

    fn make_tree<'a>(&self, path: &'a str, tree: &'a Tree) -> io::Result<NewTree<'a>> {
        self.create_dir(path)?;
        let mark = mark_at(self, path);
        Ok(NewTree { path, tree, mark })
    }

    fn make_folder(&self, _new: &NewTree<'_>, path: &str) -> io::Result<Mark> {
        self.create_dir(path)?;
        Ok(mark_at(self, path))
    }

    fn make_file<'a>(
        &self,
        _new: &NewTree<'_>,
        path: &'a str,
    ) -> io::Result<NodeFile<'a, R::File>> {
        let file = File::create_new(self, path)?;
        let mark = match file.metadata() {
            Ok(found) => Mark(Some(FileNumber::of(&found))),
            Err(_) => Mark(None),
        };
        Ok(NodeFile { path, file, mark })
    }

    fn write_file(
        &self,
        _new: &NewTree<'_>,
        file: &mut NodeFile<'_, R::File>,
        bytes: &[u8],
    ) -> io::Result<()> {
        file.file.write_all(bytes)
    }

    fn sync_file(&self, file: &NodeFile<'_, R::File>) -> io::Result<()> {
        file.file.sync_all()
    }

    fn sync_folder(&self, path: &str) -> io::Result<()> {
        File::open(self, path)?.sync_all()
    }

    fn sync_entry_of(&self, new: &NewTree<'_>) -> io::Result<()> {
        File::open(self, parent_of(new.path))?.sync_all()
    }

    fn find_again(&self, path: &str, mark: Mark) -> Result<(), OpenFault> {
        let there = FileNumber::of(&self.symlink_metadata(path)?);
        match mark.0 {
            Some(number) if number == there => Ok(()),
            _ => Err(OpenFault::Io(OpenCause::Displaced)),
        }
    }

    fn remove_node(&self, path: &str, is_folder: bool) -> Result<(), OpenFault> {
        if is_folder {
            self.remove_dir(path)?;
        } else {
            self.remove_file(path)?;
        }
        Ok(())
    }

    fn keep_tree(&self, new: NewTree<'_>) {
        drop(new);
    }
}

//! The files that disks are in, by their paths.
//!
//! # Choices
//!
//! - **A disk is opened and made by these calls alone.** What a clause says of a path is then what
//!   the system has answered for it. A body that was given only these calls can't remove a file, or
//!   get another handle of it, in a way that its contract doesn't see.
//! - **A path is opened or made only by leave** (`may_write`, `may_read`, `may_make`). The system's
//!   files give it for every path. A body that has leave for one path, of whatever files, opens and
//!   makes no other one.
//! - **A new file is kept or removed, once**: `NewFile` is lent to nobody, and each of the two
//!   calls takes it.
//! - **Only the new file itself is removed**, and no other that has got its path since: the system
//!   has a number for each. Where it doesn't tell them, nothing is removed. `look_again` says
//!   whether a path still leads to the new file. Who replaces files asks for no leave: a host that
//!   found the file empty, before it was locked, may take it for a status file.
//! - **A disk is closed by a call** (`close`), which only clauses read. The call says that the disk
//!   had these answers in the end.

ghost use Rattle.std.specs.Prelude.{◌≡◌};

use crate::disk_file::has_sectors;
use crate::file_number::FileNumber;
use crate::folder::folder_of;
use crate::{FileDisk, OpenCause, OpenFault};
use std::fs::{File, OpenFile, OpenOptions};
use std::io;
use std::io::{Error, ErrorKind, Write};
use std::rt::Files;

/// Files of which one can be opened.
pub trait DiskFiles {
    ghost use Rattle.std.specs.Prelude.{IsTrue, IfErr, IfOk};
    ghost use Rattle.sector_disk.specs.declared.open_fault.OpenFault.TheVariants.{Io};
    ghost use Rattle.sector_disk.specs.rules.Known.{KnownFiles};
    ghost use Rattle.sector_disk.specs.rules.Causes.{error_cause};

    type File: Write + Drop;

    ghost known: { Self → KnownFiles Self.File };

    /// Opens the file at a path, to read and to write it.
    fn open_there(&self, path: &str) -> io::Result<Self::File>
        requires { IsTrue ((known self.now).may_write path.now) }
        ensures opened { IfOk result (λ file. IsTrue ((known self.now).opened path.now file)) }
        ensures refused { IfErr result (λ error.
            IsTrue ((known self.now).refused path.now (Io (error_cause error)))) };

    /// Opens the file at a path, to read it and nothing else. It has to be a regular file or a
    /// block device: no other one is opened, so none lets its reader wait. A FIFO that is put there
    /// between the look and the opening would.
    fn open_to_read(&self, path: &str) -> io::Result<Self::File>
        requires { IsTrue ((known self.now).may_read path.now) }
        ensures opened { IfOk result (λ file. IsTrue ((known self.now).readable path.now file)) }
        ensures refused { IfErr result (λ error.
            IsTrue ((known self.now).refused path.now (Io (error_cause error)))) };

    /// Closes a disk, so that another host may open it.
    fn close(&self, disk: FileDisk<Self::File>)
        ensures { IsTrue ((known self.now).closed disk) };
}

/// A file that was made at a path, where there was none.
#[derive(Drop)]
pub struct NewFile<'a> {
    path: &'a str,
    number: FileNumber,
}

impl NewFile<'_> {
    /// The path at which it was made.
    pub fn path(&self) -> &str
        ensures { result.now ≡ self.now.path.now }
    {
        self.path
    }
}

/// Files of which a new one can be made, and none but such a one be removed.
pub trait NewFiles: DiskFiles {
    ghost use Rattle.std.specs.Prelude.{◌≡◌, IsTrue, IfErr, IfOk, OnOk};
    ghost use Rattle.sector_disk.specs.declared.open_fault.OpenFault.TheVariants.{Io};
    ghost use Rattle.sector_disk.specs.rules.Causes.{error_cause};

    /// Makes a file where there is no such path.
    fn make_new<'a>(&self, path: &'a str) -> io::Result<(Self::File, NewFile<'a>)>
        requires { IsTrue ((Self.known self.now).may_make path.now) }
        ensures made { IfOk result (λ new.
            IsTrue ((Self.known self.now).made path.entry.now new.0)
            × (new.1.path.now ≡ path.entry.now)) }
        ensures refused { IfErr result (λ error. IsTrue ((Self.known self.now).refused
            path.entry.now (Io (error_cause error)))) };

    /// Makes the entry of a new file in its folder durable.
    fn sync_entry(&self, new: &NewFile<'_>) -> io::Result<()>
        ensures refused { IfErr result (λ error. IsTrue ((Self.known self.now).unsynced
            new.now.path.now (Io (error_cause error)))) };

    /// Looks whether its path still leads to the file that a disk is in.
    fn look_again(&self, new: &NewFile<'_>, disk: &FileDisk<Self::File>) -> Result<(), OpenFault>
        ensures in_place { OnOk result
            (IsTrue ((Self.known self.now).in_place new.now.path.now disk.now)) }
        ensures displaced { IfErr result (λ why.
            IsTrue ((Self.known self.now).displaced new.now.path.now why)) };

    /// Leaves it at its path.
    fn keep_new(&self, new: NewFile<'_>)
        ensures { IsTrue ((Self.known self.now).kept new.entry.path.now) };

    /// Removes it, unless its path has got another file. Where the system refuses that, the file
    /// stays.
    fn remove_new(&self, new: NewFile<'_>)
        ensures { IsTrue ((Self.known self.now).removed new.entry.path.now) };
}

// Of the system's files no more is known than what it answers.
impl<R: Files> DiskFiles for R {
    ghost use Rattle.std.specs.Prelude.{IsTrue};
    ghost use Rattle.sector_disk.specs.rules.Known.{all_said_of_files};

    type File = R::File;

    ghost known = { λ _. all_said_of_files };

    fn open_there(&self, path: &str) -> io::Result<R::File> {
        OpenOptions::new().read(true).write(true).open(self, path)
    }

    fn open_to_read(&self, path: &str) -> io::Result<R::File> {
        let kind = self.metadata(path)?.file_type();
        if kind.is_dir() {
            return Err(Error::from(ErrorKind::IsADirectory));
        }
        if !has_sectors(kind) {
            return Err(Error::from(ErrorKind::NotSeekable));
        }
        File::open(self, path)
    }

    fn close(&self, disk: FileDisk<R::File>)
        ensures { IsTrue (all_said_of_files.closed disk) }
    {
        drop(disk);
    }
}

impl<R: Files> NewFiles for R {
    fn make_new<'a>(&self, path: &'a str) -> io::Result<(R::File, NewFile<'a>)> {
        let file = File::create_new(self, path)?;
        let number = FileNumber::of(&file.metadata()?);
        Ok((file, NewFile { path, number }))
    }

    fn sync_entry(&self, new: &NewFile<'_>) -> io::Result<()> {
        File::open(self, folder_of(new.path))?.sync_all()
    }

    fn look_again(&self, new: &NewFile<'_>, disk: &FileDisk<R::File>) -> Result<(), OpenFault> {
        let there = FileNumber::of(&self.symlink_metadata(new.path)?);
        if there == disk.file_number()? {
            Ok(())
        } else {
            Err(OpenFault::Io(OpenCause::Displaced))
        }
    }

    fn keep_new(&self, new: NewFile<'_>) {
        drop(new);
    }

    fn remove_new(&self, new: NewFile<'_>) {
        if let Ok(there) = self.symlink_metadata(new.path) {
            if FileNumber::of(&there) == new.number {
                let _ = self.remove_file(new.path);
            }
        }
    }
}

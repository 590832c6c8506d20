//! A handle of a file that a disk can be in.
//!
//! # Choices
//!
//! - **What a call has said of a file is known by a ghost member that only this call makes true**
//!   (`known`). The kit's contracts say nothing of what a file answers. By that member no body is
//!   proved that opens a disk without its lock, of another length, or with a fault that no call has
//!   answered.
//! - **One host at a time has a file**, by the lock of its handle (`flock`). The lock is taken
//!   before the file is read, and the system frees it when the process ends. The lock keeps out
//!   those that ask for it, and not an editor. Where a file system has no locks, its files aren't
//!   opened (`Other`).
//! - **A disk has the length that its file said.** The end is sought, since the length that the
//!   system tells of a block device is 0. Of a character device it can be sought, and is no length
//!   (`/dev/null`): only a regular file and a block device are measured.
//! - **A device is taken only where one is asked for**, since what it holds is lost. Only a handle
//!   that was found to be one, and that has the lock, is filled. A device has a length and a name
//!   already: it is given neither, and its folder isn't synced. `open` takes both kinds.
//! - Clauses could also say that a file is filled and synced, but not in this order.
//!   `scripts/runs/file-calls` shows that.

use crate::SECTOR_SIZE;
use crate::file_call::NO_BYTES;
use crate::first_image::FirstImage;
use std::fs::{File, FileType, OpenFile, TryLockError};
use std::io;
use std::io::{Error, ErrorKind, Seek, SeekFrom};
use std::os::unix::fs::{FileExt, FileTypeExt};

/// A handle of a file with one lock for the whole file, which at most one handle holds.
pub trait DiskFile: OpenFile + FileExt + Drop {
    ghost use Rattle.std.specs.Prelude.{IsTrue, IfErr, IfOk, OnOk, ◌<◌, ◌^◌, ◌/◌};
    ghost use Rattle.sector_disk.specs.declared.open_fault.OpenFault.TheVariants.{Io};
    ghost use Rattle.sector_disk.specs.rules.DiskImage.{IsDiskImage};
    ghost use Rattle.sector_disk.specs.rules.Known.{KnownHandles};
    ghost use Rattle.sector_disk.specs.rules.Causes.{error_cause, lock_fault};

    ghost known: { KnownHandles Self };

    /// Takes the lock at once or not at all. It is free again when the handle is closed.
    fn try_lock(&self) -> Result<(), TryLockError>
        ensures granted { OnOk result (IsTrue (known.locked self.now)) }
        ensures refused { IfErr result (λ error.
            IsTrue (known.failed self.now (lock_fault error))) };

    /// How many bytes are before the end of the file, and what is in its whole sectors.
    fn measure(&self) -> io::Result<(u64, FirstImage)>
        ensures whole { IfOk result (λ found. IsDiskImage (found.0 / SECTOR_SIZE) found.1.image) }
        ensures measured { IfOk result (λ found.
            IsTrue (known.measured self.now found.0 found.1.image)) }
        ensures refused { IfErr result (λ error.
            IsTrue (known.failed self.now (Io (error_cause error)))) };

    /// Makes the file so many bytes long. Bytes that it gets are zeros.
    fn resize(&self, bytes: u64) -> io::Result<()>
        ensures resized { OnOk result (IsTrue (known.resized self.now bytes)) }
        ensures refused { IfErr result (λ error.
            IsTrue (known.failed self.now (Io (error_cause error)))) };

    /// Whether the file is a block device.
    fn is_block_device(&self) -> io::Result<bool>
        ensures found { IfOk result (λ is. IsTrue (known.device self.now is)) }
        ensures refused { IfErr result (λ error.
            IsTrue (known.failed self.now (Io (error_cause error)))) };

    /// Writes zeros to a sector.
    fn write_zeros(&self, sector: u64) -> io::Result<()>
        requires { sector < 2 ^ 54 }
        ensures refused { IfErr result (λ error.
            IsTrue (known.failed self.now (Io (error_cause error)))) };

    /// Makes all of the file durable.
    fn sync_whole(&self) -> io::Result<()>
        ensures refused { IfErr result (λ error.
            IsTrue (known.failed self.now (Io (error_cause error)))) };
}

/// Whether a disk can be in such a file: a regular one, or a block device.
pub(crate) fn has_sectors(kind: FileType) -> bool {
    kind.is_file() || kind.is_block_device()
}

// Of the system's file no more is known than what it answers.
impl DiskFile for File {
    ghost use Rattle.sector_disk.specs.rules.Known.{all_said_of_handles};

    ghost known = { all_said_of_handles };

    fn try_lock(&self) -> Result<(), TryLockError> {
        File::try_lock(self)
    }

    #[tactic(auto, using(crate::proofs::FirstImageLemmas::zeros_are))]
    fn measure(&self) -> io::Result<(u64, FirstImage)> {
        if !has_sectors(File::metadata(self)?.file_type()) {
            return Err(Error::from(ErrorKind::NotSeekable));
        }
        let mut handle = self;
        let bytes = handle.seek(SeekFrom::End(0))?;
        Ok((bytes, FirstImage::of(bytes / SECTOR_SIZE as u64)))
    }

    fn resize(&self, bytes: u64) -> io::Result<()> {
        self.set_len(bytes)
    }

    fn is_block_device(&self) -> io::Result<bool> {
        Ok(File::metadata(self)?.file_type().is_block_device())
    }

    fn write_zeros(&self, sector: u64) -> io::Result<()> {
        self.write_all_at(&NO_BYTES, sector * SECTOR_SIZE as u64)
    }

    fn sync_whole(&self) -> io::Result<()> {
        File::sync_all(self)
    }
}

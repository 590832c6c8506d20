//! The two paths of a status file, and that of the worker's disk: what is there, and what may be
//! done with it.

ghost use Rattle.std.specs.Prelude.{◌≡◌, ◌+◌, IfOk, IfSome, take};
ghost use Rattle.disk_commands.specs.declared.on_disk.status_line.TheConstants.{LONGEST};

use crate::on_disk::found_file::FoundFile;
use crate::on_disk::status_line::LONGEST;
use sector_disk::{DiskFile, NewFile, NewFiles};
use std::alloc::Global;
use std::fs::{File, TryLockError};
use std::io::{self, Error, ErrorKind, Read, Seek, Write};
use std::rt::Files;

/// As many bytes as the longest status line has, and one more, by which a longer file is known.
const FRONT_BYTES: u64 = LONGEST as u64 + 1;

/// The first bytes of a reader.
fn read_front<R: Read + Drop>(alloc: Global, reader: R) -> io::Result<Vec<u8>>
    ensures { IfOk result (λ front. IfSome (R.remaining reader)
        (λ bytes. front.items ≡ take (LONGEST + 1) bytes)) }
{
    let mut front = Vec::new(alloc);
    reader.take(FRONT_BYTES).read_to_end(&mut front)?;
    Ok(front)
}

/// What a regular file is. An empty one may be a disk that is being made, which is locked then.
fn look_into<F: DiskFile + Read>(alloc: Global, mut file: F) -> io::Result<FoundFile> {
    let front = read_front(alloc, &mut file)?;
    if front.is_empty() && matches!(file.try_lock(), Err(TryLockError::WouldBlock)) {
        return Ok(FoundFile::Locked);
    }
    Ok(FoundFile::Regular(front))
}

/// Paths that can be looked at, by leave. Only a status file is removed from one, and only a path
/// that was found free gets a new file.
pub trait WatchedPaths: NewFiles {
    ghost use Rattle.std.specs.Prelude.{ℕ, Bool, List, IsTrue, IfOk, OnOk};
    ghost use Rattle.disk_commands.specs.declared.on_disk.found_file.FoundFile.{FoundFile};
    ghost use Rattle.disk_commands.specs.rules.StatusFiles.{HasFoundFree, HasFoundStatusFile};

    // Whether this was found at a path.
    ghost has_found: { Self → List ℕ → FoundFile → Bool };

    // Whether a new file has got the name of another path.
    ghost has_renamed: { Self → List ℕ → List ℕ → Bool };

    /// Looks at a path. It follows no link, and opens nothing but a regular file.
    fn look_at(&self, alloc: Global, path: &str) -> io::Result<FoundFile>
        requires { IsTrue ((Self.known self.now).may_read path.now) }
        ensures { IfOk result (λ here. IsTrue (has_found self.now path.now here)) };

    /// Removes a status file.
    fn remove_status_file(&self, path: &str) -> io::Result<()>
        requires found { HasFoundStatusFile (has_found self.now path.now) }
        requires may { IsTrue ((Self.known self.now).may_make path.now) };

    /// Gives a new file the name of a path.
    fn rename_new(&self, new: &NewFile<'_>, path: &str) -> io::Result<()>
        requires free { HasFoundFree (has_found self.now path.now) }
        requires may { IsTrue ((Self.known self.now).may_make path.now) }
        ensures { OnOk result (IsTrue (has_renamed self.now new.now.path.now path.now)) };
}

// Of the system's files no more is known than what it answers.
impl<F, R> WatchedPaths for R
where
    F: DiskFile + Read + Write + Seek,
    R: Files<File = F>,
{
    ghost use Rattle.std.specs.Prelude.{true};

    ghost has_found = { λ _ _ _. true };

    ghost has_renamed = { λ _ _ _. true };

    fn look_at(&self, alloc: Global, path: &str) -> io::Result<FoundFile> {
        // Nothing can get the empty path.
        if path.is_empty() {
            return Err(Error::from(ErrorKind::NotFound));
        }
        let metadata = match self.symlink_metadata(path) {
            Ok(metadata) => metadata,
            Err(error) if error.kind() == ErrorKind::NotFound => return Ok(FoundFile::Missing),
            Err(error) => return Err(error),
        };
        if metadata.is_file() {
            return look_into(alloc, File::open(self, path)?);
        }
        if metadata.is_symlink() {
            return Ok(FoundFile::Link);
        }
        if metadata.is_dir() {
            return Ok(FoundFile::Folder);
        }
        Ok(FoundFile::Special)
    }

    fn remove_status_file(&self, path: &str) -> io::Result<()> {
        self.remove_file(path)
    }

    fn rename_new(&self, new: &NewFile<'_>, path: &str) -> io::Result<()> {
        self.rename(new.path(), path)
    }
}

//! What there is at a path.
//!
//! # Choices
//!
//! - **What is at a path is a value of its own** (`FoundFile`), and one function of it decides. The
//!   calls that look, remove and rename are a trait (`WatchedPaths`), so that a clause can say what
//!   was looked at before. The kit's calls say nothing of files. Between a look and the next call
//!   another program may change the path: no call of the kit renames only where nothing is.

ghost use Rattle.std.specs.Prelude.{◌≡◌, ◌↔◌, IsTrue};
ghost use Rattle.disk_commands.specs.rules.StatusFiles.{IsStatusText};

use crate::on_disk::metrics::is_metrics;
use crate::on_disk::status_line::is_status_line;

/// What there is at a path itself, and not where a link leads.
#[derive(Drop)]
pub enum FoundFile {
    Missing,
    /// A regular file, and its first bytes: all, or more than a status line has.
    Regular(Vec<u8>),
    /// An empty regular file that is locked: a disk that is being made, or the one of this run.
    Locked,
    Link,
    Folder,
    /// A device, a FIFO or a socket.
    Special,
}

/// Whether a file with these first bytes says where a worker is, or nothing.
fn is_status_text(bytes: &[u8]) -> bool
    ensures { IsTrue result ↔ IsStatusText bytes.now }
{
    bytes.is_empty() || is_status_line(bytes) || is_metrics(bytes)
}

impl FoundFile {
    ghost use Rattle.disk_commands.specs.rules.StatusFiles.{IsFreePath, IsStatusFile, found_words};

    /// Whether it is a status file: a regular one that is empty, has a status line and nothing
    /// else, or begins as metrics do.
    pub fn is_status_file(&self) -> bool
        ensures { IsTrue result ↔ IsStatusFile self.now }
    {
        match self {
            FoundFile::Regular(bytes) => is_status_text(bytes.as_slice()),
            FoundFile::Missing | FoundFile::Locked => false,
            FoundFile::Link | FoundFile::Folder | FoundFile::Special => false,
        }
    }

    /// Whether a status file may get the path.
    pub fn is_free(&self) -> bool
        ensures { IsTrue result ↔ IsFreePath self.now }
    {
        match self {
            FoundFile::Missing => true,
            other => other.is_status_file(),
        }
    }

    /// What a person is told of it.
    pub(crate) fn words(&self) -> &'static str
        ensures { result.now ≡ found_words self.now }
    {
        match self {
            FoundFile::Missing => "no such file or directory",
            FoundFile::Regular(_) => "has other bytes than a status line or metrics",
            FoundFile::Locked => "is locked",
            FoundFile::Link => "is a symbolic link",
            FoundFile::Folder => "is a directory",
            FoundFile::Special => "isn't a regular file",
        }
    }
}

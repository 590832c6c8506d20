//! Which file it is that a handle or a path leads to.

use std::fs::Metadata;
use std::os::unix::fs::MetadataExt;

/// The number of a file, among those of its device. No two files have one at the same time.
#[derive(Clone, Copy, PartialEq, Eq)]
pub struct FileNumber {
    device: u64,
    number: u64,
}

impl FileNumber {
    /// That of the file which the system has told of.
    pub fn of(found: &Metadata) -> FileNumber {
        FileNumber {
            device: found.dev(),
            number: found.ino(),
        }
    }
}

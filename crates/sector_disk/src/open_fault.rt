//! Why a file can't be made or opened as a disk.
//!
//! **`OpenFault` is a type of its own**, apart from `DiskFault`. A disk that is open is never busy,
//! and a fault of a path is of no use to a journal. Its cause is for a person, and the program has
//! the words. `K2 Io` stays the one word of all failures of the system.
use thiserror::Error;

#[derive(Clone, Copy, Debug, PartialEq, Eq, Error)]
pub enum OpenFault {
    /// Another host holds the file.
    #[error("K5 Busy")]
    Busy,
    /// The operating system refused, for this cause.
    #[error("K2 Io")]
    Io(OpenCause),
}

/// Why the operating system refused a path.
#[derive(Clone, Copy, Debug, PartialEq, Eq)]
pub enum OpenCause {
    /// The path is a folder.
    Folder,
    /// A part of the way to it is none.
    NoFolder,
    /// The path isn't there, or a folder on its way.
    Missing,
    Forbidden,
    /// Its file system can only be read.
    ReadOnly,
    /// The path that was to be made is there.
    Exists,
    /// The device has no room.
    NoRoom,
    /// Whoever asks may take no more room.
    Quota,
    /// No file can be so large.
    TooLarge,
    /// A name of the path is too long.
    LongName,
    /// The links of the path lead nowhere.
    Loop,
    /// The folder has something in it.
    NotEmpty,
    /// This process, or all of them, may open no more files.
    ManyFiles,
    /// The device has failed, or the way to it.
    FailedDevice,
    /// A block device is wanted, and the path is none.
    NoDevice,
    /// The path is neither a regular file nor a block device: it has no sectors.
    NoSectors,
    /// The path has got another file since its own was made.
    Displaced,
    Other,
}

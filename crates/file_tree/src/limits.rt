//! The limits of the file system.

/// Nodes at once, the root and removed ones that are open included.
pub const NODES: usize = 1_024;

/// Bytes of one file.
pub const FILE_BYTES: u64 = 1 << 20;

/// Bytes of a chunk, in which the bytes of files are kept.
pub const CHUNK_BYTES: usize = 4_096;

/// Bytes of a unit in which the room for all files is configured.
pub const UNIT_BYTES: u64 = 65_536;

/// Bytes of a path that a guest gives.
pub const PATH_BYTES: usize = 4_096;

/// Bytes of a name.
pub const NAME_BYTES: usize = 255;

//! The limits of the calls.

/// Descriptor numbers, from 0 on.
pub const DESCRIPTORS: usize = 64;

/// Buffers that one read or write names.
pub const IOVECS: usize = 1_024;

/// Bytes that one read or write moves.
pub const MOVED_BYTES: usize = 65_536;

/// Bytes of a line.
pub const LINE_BYTES: usize = 4_096;

/// Bytes of a request's text, and random bytes of one call.
pub const TEXT_BYTES: usize = 4_096;

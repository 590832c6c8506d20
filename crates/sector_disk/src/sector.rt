//! How large a sector is.

/// Bytes of a sector.
pub const SECTOR_SIZE: usize = 512;

//! How an image is written.

/// Which sectors of an image are written into its area.
#[derive(Clone, Copy, Debug, PartialEq, Eq)]
pub enum Writing {
    /// All of them. None is compared with what the area holds, as for the first image of a disk.
    Whole,
    /// Those that differ from what the area holds.
    Changes,
}

//! The limits of the machine's stack.

/// Frames at once.
pub const FRAMES: usize = 512;

/// Locals and operands of all frames, beside the operands of the running one.
pub const HELD_VALUES: usize = 65_536;

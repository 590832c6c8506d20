//! One frame.

/// A frame: its function, the position of its next opcode, counted from 0, or of the call that it
/// waits for, and the place of its first local among the words, counted from the bottom.
#[derive(Clone, Copy, Debug)]
pub struct StackFrame {
    pub function: u32,
    pub position: usize,
    pub base: usize,
}

//! Where a machine was when it trapped.
//!
//! # Choices
//!
//! - **No clause says which frames these are.** They are gone from what a machine shows, and a
//!   machine that is made of an image has none. They are for a person who looks for a fault, and
//!   nothing goes on from them.

use crate::running_machine::Machine;

/// A frame of a machine that trapped: its function, and the position of an opcode in its body. The
/// innermost one is at the opcode that trapped, and each other one at its call. Positions count
/// from 0, with each `else` and `end`.
#[derive(Clone, Copy, Debug, PartialEq, Eq)]
pub struct TrapFrame {
    pub function: u32,
    pub position: usize,
}

impl Machine {
    /// How many frames the machine had when it trapped. None where it hasn't, or where it was made
    /// of an image since. Tests alone show that.
    pub fn trap_frame_count(&self) -> usize {
        self.state.frames.fallen_count()
    }

    /// The frame with this number that the machine had when it trapped, from 0, counted from the
    /// innermost one out. Tests alone show that it is the one.
    pub fn trap_frame(&self, index: usize) -> Option<TrapFrame> {
        let frame = self.state.frames.fallen(index)?;
        Some(TrapFrame {
            function: frame.function,
            position: frame.position,
        })
    }
}

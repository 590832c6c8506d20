//! What a machine holds beside its code.

use crate::frames::Frames;
use guest_memory::Memory;
use machine_slots::Slots;

/// Frames, words, globals, memory, and the functions that the host is to call, the next one last.
#[derive(Debug, Drop)]
pub struct State {
    pub frames: Frames,
    pub slots: Slots,
    pub globals: Vec<u64>,
    pub memory: Memory,
    pub later: Vec<u32>,
}

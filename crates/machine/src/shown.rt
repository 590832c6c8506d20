//! What a machine shows, part by part: its globals, its frames, and whether the start function
//! runs.

ghost use Rattle.std.specs.Prelude.{◌≡◌, ◌≢◌, ◌↔◌, ◌<◌, ◌≤◌, ◌-◌, IsTrue, Some, [], length, drop};
ghost use Rattle.std.specs.Prelude.{reverse, slice_get, take};
ghost use Rattle.machine_slots.specs.declared.slots.TheConstants.{SLOTS};
ghost use Rattle.machine_frame.specs.rules.Stacked.{slots_held, AreStacked};
ghost use Rattle.machine_frame.specs.Stacked.{slots_end};
ghost use Rattle.machine_frame.specs.rules.Threads.{places_of};
ghost use Rattle.machine.specs.rules.LentFrames.{lent_frame};

use crate::frames::Frames;
use crate::running_machine::Machine;
use machine_slots::Slots;

/// A frame: its function, the position of an opcode in its body, and its slots. Positions count
/// from 0, with each `else` and `end`. This one is of the next counted instruction, or in a frame
/// that waits of its call. The slots are parameters, locals and operands, the first one first. The
/// arguments of a running call are none of them.
#[derive(Clone, Copy, Debug)]
pub struct LentFrame<'a> {
    pub function: u32,
    pub position: usize,
    pub slots: &'a [u64],
}

/// Where the words of the frame with this number end.
fn end_of_slots(frames: &Frames, slots: &Slots, index: usize) -> usize
    requires { index < length frames.now }
    ensures { result ≡ slots_end frames.now slots.now index }
{
    match frames.as_slice().get(index + 1) {
        Some(next) => next.base,
        None => slots.len(),
    }
}

/// The words between two places, which count from the bottom.
fn words_between(slots: &Slots, from: usize, to: usize) -> &[u64]
    requires order { from ≤ to }
    requires inside { to ≤ length slots.now }
    ensures { result.now ≡ take (to - from) (drop from (reverse slots.now)) }
{
    &slots.as_slice()[from..to]
}

/// The frame with this number, counted from the outermost one.
pub(crate) fn lent_frame_at<'a>(frames: &Frames, slots: &'a Slots, index: usize) -> LentFrame<'a>
    requires stacked { AreStacked frames.now slots.now }
    requires inside { index < length frames.now }
    ensures { slice_get (reverse (places_of frames.now slots.now)) index
        ≡ Some (lent_frame result) }
{
    let frame = frames.get(index);
    let end = end_of_slots(frames, slots, index);
    LentFrame {
        function: frame.function,
        position: frame.position,
        slots: words_between(slots, frame.base, end),
    }
}

impl Machine {
    /// The numbers of the globals, in their order. An i32 has zeros above.
    pub fn globals(&self) -> &[u64]
        ensures { result.now ≡ self.now.state.globals }
    {
        self.state.globals.as_slice()
    }

    /// How many frames there are.
    pub fn frame_count(&self) -> usize
        ensures { result ≡ length self.now.state.frames }
    {
        self.state.frames.len()
    }

    /// How many slots all frames have together.
    pub fn slot_count(&self) -> usize
        ensures count { result ≡ slots_held self.now.state.frames }
        ensures bound { result ≤ SLOTS }
    {
        self.state.slots.len()
    }

    /// The frame with this number, from 0, counted from the outermost one. Takes no memory.
    pub fn frame(&self, index: usize) -> LentFrame<'_>
        requires { index < length self.now.state.frames }
        ensures { slice_get (reverse self.now.state.frames) index ≡ Some (lent_frame result) }
    {
        lent_frame_at(&self.state.frames, &self.state.slots, index)
    }

    /// Whether calls of the host are still to come: `_start` is one while the start function runs.
    pub fn is_starting(&self) -> bool
        ensures { IsTrue result ↔ (self.now.state.later ≢ []) }
    {
        !self.state.later.as_slice().is_empty()
    }
}

//! Laws over all programs and frames. The functions do nothing: what they ensure is the law.

ghost use Rattle.machine_slots.specs.laws.StackLimits.{StackLimitNumbers};
ghost use Rattle.machine_slots.specs.laws.Laws.{BranchesFall, EntryPushesZeros};
ghost use Rattle.machine_slots.specs.laws.Laws.{LabelsTellPositions, ReturnsFall};
ghost use Rattle.machine_slots.specs.laws.Laws.{ShapesTellPositions, SlotsAreWords};
ghost use Rattle.machine_slots.specs.laws.Laws.{TypedFramesAreReady, WordsAreSlots};

/// Whoever shows a typed frame may operate on it.
pub fn typed_frames_are_ready()
    ensures { TypedFramesAreReady }
{}

/// The words of a frame and its slots from the first local on are the same, in the opposite order.
pub fn words_are_slots()
    ensures words { WordsAreSlots }
    ensures slots { SlotsAreWords }
{}

/// What branches, returns and entries of functions do to the words of a frame.
pub fn jumps_are_falls()
    ensures branches { BranchesFall }
    ensures returns { ReturnsFall }
    ensures entries { EntryPushesZeros }
{}

/// The shape at a position of a body tells which position it is. So do the labels of a frame there,
/// with how many opcodes remain.
pub fn shapes_tell_positions()
    ensures shapes { ShapesTellPositions }
    ensures labels { LabelsTellPositions }
{}

/// What each limit of the stack is.
pub fn stack_limits_are()
    ensures { StackLimitNumbers }
{}

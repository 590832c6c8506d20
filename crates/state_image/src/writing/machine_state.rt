//! The machine of a process.

ghost use Rattle.std.specs.Prelude.{reverse};
ghost use Rattle.state_image.specs.rules.ProcessImage.{place_bytes, items_bytes, memory_bytes};
ghost use Rattle.state_image.specs.rules.ProcessImage.{machine_bytes};
ghost use Rattle.state_image.specs.rules.Sinks.{Pushes};

use crate::sink::Sink;
use crate::writing::numbers::{push_bytes, push_count, push_u32, push_words};
use guest_memory::Memory;
use machine::Machine;

/// The globals, the frames from the outermost one on, and the memory.
pub(crate) fn push_machine<S: Sink>(machine: &Machine, sink: &mut S) -> Result<(), S::Fault>
    ensures { Pushes S.takes sink.old (machine_bytes machine.now.state) result sink.new }
{
    push_words(machine.globals(), sink)?;
    push_frames(machine, sink)?;
    push_memory(machine.memory(), sink)
}

fn push_frames<S: Sink>(machine: &Machine, sink: &mut S) -> Result<(), S::Fault>
    ensures { Pushes S.takes sink.old
        (items_bytes place_bytes (reverse machine.now.state.frames)) result sink.new }
{
    let count = machine.frame_count();
    push_count(count, sink)?;
    for index in 0..count {
        let place = machine.frame(index);
        push_place(place.function, place.position, place.slots, sink)?;
    }
    Ok(())
}

fn push_place<S: Sink>(
    function: u32,
    position: usize,
    slots: &[u64],
    sink: &mut S,
) -> Result<(), S::Fault>
    ensures { Pushes S.takes sink.old
        (place_bytes (record { function = function; position = position; slots = slots.now }))
        result sink.new }
{
    push_u32(function, sink)?;
    push_count(position, sink)?;
    push_words(slots, sink)
}

/// How many pages there are, and all bytes, in one piece.
fn push_memory<S: Sink>(memory: &Memory, sink: &mut S) -> Result<(), S::Fault>
    ensures { Pushes S.takes sink.old (memory_bytes memory.now.bytes) result sink.new }
{
    push_u32(memory.pages(), sink)?;
    push_bytes(memory.bytes(), sink)
}

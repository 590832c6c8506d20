//! The parts of a machine's state, as they are put together.

ghost use Rattle.std.specs.Prelude.{◌≡◌, ◌≢◌, ◌⊎◌, ◌*◌, ◌≤◌, OnOk, OnErr, IfErr, [], ◌∷◌, length};
ghost use Rattle.guest_memory.specs.rules.Bytes.{page_size};
ghost use Rattle.machine.specs.declared.loading.fault.LoadFault.TheVariants.{Unfit};
ghost use Rattle.machine.specs.rules.Loading.{BytesDenied};
ghost use Rattle.machine.specs.Loading.States.{IsFramePushed};

use crate::execution::State;
use crate::loading::fault::LoadFault;
use guest_memory::{Memory, MemoryFault, PAGE_SIZE};
use machine_frame::StackFrame;
use machine_slots::SLOTS;
use machine_slots::limits::FRAMES;
use std::alloc::Global;

/// Makes a memory so many pages long. Takes memory only where it has to be shorter.
fn resize(alloc: Global, memory: &mut Memory, pages: u32) -> Result<(), MemoryFault>
    requires { pages ≤ memory.old.limit }
    ensures len { OnOk result (length memory.new.bytes ≡ pages * page_size) }
    ensures limit { memory.new.limit ≡ memory.old.limit }
    ensures kept { OnErr result (memory.new ≡ memory.old) }
{
    let _ = memory.len();
    let before = memory.pages();
    if pages < before {
        *memory = Memory::new(alloc, pages, memory.limit())?;
        return Ok(());
    }
    match memory.grow(pages - before) {
        Some(_) => Ok(()),
        None => unreachable!(),
    }
}

/// Gives a memory these bytes, if they are so many whole pages at least, and within its limit.
pub fn set_bytes(
    alloc: Global,
    memory: &mut Memory,
    least: u32,
    bytes: &[u8],
) -> Result<(), LoadFault>
    ensures bytes { OnOk result (memory.new.bytes ≡ bytes.now) }
    ensures limit { memory.new.limit ≡ memory.old.limit }
    ensures enough { OnOk result (least * page_size ≤ length bytes.now) }
    ensures refused { IfErr result (BytesDenied bytes.now least memory.old.limit) }
    ensures kept { OnErr result (memory.new ≡ memory.old) }
{
    let page = PAGE_SIZE as usize;
    let pages = bytes.len() / page;
    if bytes.len() % page != 0 || pages > memory.limit() as usize {
        return Err(LoadFault::Unfit);
    }
    if pages < least as usize {
        return Err(LoadFault::Unfit);
    }
    resize(alloc, memory, pages as u32)?;
    memory.write(0, bytes).unwrap();
    Ok(())
}

/// Puts a frame inside all others, which has no slots yet, if there is room.
pub fn push_frame(state: &mut State, function: u32, position: usize) -> Result<(), LoadFault>
    ensures pushed { OnOk result (IsFramePushed function position state.old state.new) }
    ensures full { IfErr result (λ e. (e ≡ Unfit) × (length state.old.frames ≡ FRAMES)) }
    ensures kept { OnErr result (state.new ≡ state.old) }
{
    if state.frames.len() >= FRAMES {
        return Err(LoadFault::Unfit);
    }
    let base = state.slots.len();
    state.frames.push(StackFrame {
        function,
        position,
        base,
    });
    Ok(())
}

/// Puts a word on top, which is the last slot of the innermost frame, if there is one and room.
pub fn push_slot(state: &mut State, word: u64) -> Result<(), LoadFault>
    ensures pushed { OnOk result ((state.old.frames ≢ [])
        × (state.new ≡ record state.old { slots = word ∷ state.old.slots })) }
    ensures full { IfErr result (λ e. (e ≡ Unfit)
        × ((state.old.frames ≡ []) ⊎ (length state.old.slots ≡ SLOTS))) }
    ensures kept { OnErr result (state.new ≡ state.old) }
{
    if state.frames.is_empty() || state.slots.len() >= SLOTS {
        return Err(LoadFault::Unfit);
    }
    state.slots.push(word);
    Ok(())
}

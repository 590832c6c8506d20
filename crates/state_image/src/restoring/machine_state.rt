//! The machine of an image, put together again.
//!
//! **What fits is what shows.** `FitsProgram` says of frames and slots what a check can test. A law
//! says that this is so exactly where some configuration is shown.

ghost use Rattle.std.specs.Prelude.{◌≡◌, ◌≢◌, ◌+◌, ◌<◌, ◌≤◌, ◌∷◌, [], ℕ, List, length};
ghost use Rattle.std.specs.Prelude.{IfOk, IfErr, OnOk, Err};
ghost use Rattle.std.specs.List.{flat_map};
ghost use Rattle.wasm_rules.specs.Validity.{IsValid};
ghost use Rattle.wasi_abi.specs.rules.Layouts.{u64_bytes};
ghost use Rattle.machine_slots.specs.declared.slots.TheConstants.{SLOTS};
ghost use Rattle.machine_slots.specs.rules.Places.{ShownFrame};
ghost use Rattle.machine_frame.specs.rules.Stacked.{slots_held};
ghost use Rattle.machine.specs.rules.Loading.{emptied, ShowsSome};
ghost use Rattle.machine.specs.rules.Values.{MachineValue, HoldsMemory, least_of};
ghost use Rattle.state_image.specs.declared.restoring.fault.RestoreFault.TheVariants as fault;
ghost use Rattle.state_image.specs.rules.ProcessImage.{items_bytes, place_bytes, memory_bytes};
ghost use Rattle.state_image.specs.rules.LentFrames.{frame_of};
ghost use Rattle.state_image.specs.rules.Ranges.{AreFew, AreWords, IsPlaceIn, IsWhole};
ghost use Rattle.state_image.specs.rules.WellTyped.{slots_in};
ghost use Rattle.state_image.specs.restoring.Machines.{AreToCome, IsReadMachine, restore_fault};
ghost use Rattle.state_image.specs.restoring.Machines.{PutsField, RefusesField, PutsCalls};
ghost use Rattle.state_image.specs.restoring.Machines.{with_globals_behind, with_frame_inside};
ghost use Rattle.state_image.specs.restoring.Machines.{with_frames_inside, with_slots_behind};
ghost use Rattle.state_image.specs.restoring.Machines.{with_bytes_in, AreSoManyPlaces};
ghost use Rattle.state_image.specs.restoring.Machines.{HaveStackRoom, IsMemoryWithin};

use crate::reading::{
    ProcessImageReader, ReadFrame, ReadPhase, Words, read_frame, read_memory, read_word_list,
};
use crate::restoring::fault::RestoreFault;
use machine::{LoadFault, Loading, Machine};
use std::alloc::Global;

impl From<LoadFault> for RestoreFault {
    ghost from_gives = { λ error made. made ≡ restore_fault error };

    fn from(error: LoadFault) -> RestoreFault {
        match error {
            LoadFault::Unfit => RestoreFault::NotAnImage,
            LoadFault::Memory => RestoreFault::Memory,
        }
    }
}

/// The linked machine with the globals, frames and memory that are next in an image, and in this
/// phase the calls to come. It reads each byte once, and takes no more memory than what was read
/// wants.
pub fn restore_machine(
    alloc: Global,
    machine: Machine,
    phase: ReadPhase,
    reader: &mut ProcessImageReader,
) -> Result<Machine, RestoreFault>
    requires { HoldsMemory machine }
    ensures valid { IsValid machine.guest }
    ensures made { IfOk result (IsReadMachine machine phase reader.old reader.new) }
    ensures shows { IfOk result ShowsSome }
    ensures slots { IfOk result (λ m. slots_in m.state.frames ≤ SLOTS) }
    ensures refused { result ≡ Err fault.NotAnImage → (v : MachineValue) (rest : List ℕ)
        → IsReadMachine machine phase reader.old rest v → slots_in v.state.frames ≤ SLOTS
        → ShowsSome v → ⊥ }
{
    let mut loading = machine.into_loading();
    match load_parts(alloc, &mut loading, phase, reader) {
        Ok(()) => {
            let restored = loading.finish(alloc)?;
            let _slots = restored.slot_count();
            Ok(restored)
        }
        Err(fault) => {
            loading.close();
            Err(fault)
        }
    }
}

/// Puts the parts that are next in an image into a machine that has none.
fn load_parts(
    alloc: Global,
    machine: &mut Loading,
    phase: ReadPhase,
    reader: &mut ProcessImageReader,
) -> Result<(), RestoreFault>
    requires { machine.old ≡ emptied machine.old }
    ensures made { OnOk result
        (IsReadMachine machine.old phase reader.old reader.new machine.new) }
    ensures refused { result ≡ Err fault.NotAnImage → (v : MachineValue) (rest : List ℕ)
        → IsReadMachine machine.old phase reader.old rest v → slots_in v.state.frames ≤ SLOTS
        → ShowsSome v → ⊥ }
{
    load_calls(machine, phase)?;
    load_globals(machine, reader)?;
    load_frames(machine, reader)?;
    load_memory(alloc, machine, reader)
}

/// Puts `_start` before the calls to come, if the start function runs.
fn load_calls(machine: &mut Loading, phase: ReadPhase) -> Result<(), RestoreFault>
    ensures made { OnOk result (PutsCalls phase machine.old machine.new) }
    ensures refused { result ≡ Err fault.NotAnImage → (later : List ℕ)
        → AreToCome machine.old.guest phase later → ⊥ }
{
    match phase {
        ReadPhase::Starting => {
            machine.push_start()?;
            Ok(())
        }
        _ => Ok(()),
    }
}

/// Puts the globals that are next after the others.
fn load_globals(machine: &mut Loading, reader: &mut ProcessImageReader) -> Result<(), RestoreFault>
    ensures made { OnOk result (PutsField (items_bytes u64_bytes) AreWords with_globals_behind
        machine.old machine.new reader.old reader.new) }
    ensures refused { RefusesField result (items_bytes u64_bytes) AreWords reader.old }
{
    let Some(words) = read_word_list(reader) else {
        return Err(RestoreFault::NotAnImage);
    };
    push_globals(machine, words)
}

/// Puts these words after the globals. It fails only when out of memory.
fn push_globals(machine: &mut Loading, mut words: Words) -> Result<(), RestoreFault>
    ensures pushed { OnOk result (machine.new ≡ with_globals_behind words.entry machine.old) }
    ensures memory { IfErr result (λ e. e ≡ fault.Memory) }
{
    while let Some(word) = words.next() {
        machine.push_global(word)?;
    }
    Ok(())
}

/// Puts the frames that are next inside all others.
fn load_frames(machine: &mut Loading, reader: &mut ProcessImageReader) -> Result<(), RestoreFault>
    ensures made { OnOk result (PutsField (items_bytes place_bytes) (AreFew ShownFrame IsPlaceIn)
        with_frames_inside machine.old machine.new reader.old reader.new) }
    ensures refused { RefusesField result (items_bytes place_bytes)
        (λ places. AreFew ShownFrame IsPlaceIn places
        × HaveStackRoom machine.old.state.frames places) reader.old }
{
    let Some(count) = reader.count() else {
        return Err(RestoreFault::NotAnImage);
    };
    load_places(machine, count, reader)
}

/// Puts so many frames inside all others.
fn load_places(
    machine: &mut Loading,
    count: u32,
    reader: &mut ProcessImageReader,
) -> Result<(), RestoreFault>
    ensures made { OnOk result (PutsField (flat_map place_bytes) (AreSoManyPlaces count)
        with_frames_inside machine.old machine.new reader.old reader.new) }
    ensures refused { RefusesField result (flat_map place_bytes)
        (λ places. AreSoManyPlaces count places
        × HaveStackRoom machine.old.state.frames places) reader.old }
{
    for _ in 0..count {
        load_place(machine, reader)?;
    }
    Ok(())
}

/// Puts the frame that is next inside all others.
fn load_place(machine: &mut Loading, reader: &mut ProcessImageReader) -> Result<(), RestoreFault>
    ensures made { OnOk result (PutsField place_bytes IsPlaceIn with_frame_inside
        machine.old machine.new reader.old reader.new) }
    ensures refused { RefusesField result place_bytes
        (λ place. IsPlaceIn place × HaveStackRoom machine.old.state.frames (place ∷ []))
        reader.old }
{
    let Some(frame) = read_frame(reader) else {
        return Err(RestoreFault::NotAnImage);
    };
    push_place(machine, frame)
}

/// Puts a frame with its slots inside all others.
fn push_place(machine: &mut Loading, frame: ReadFrame) -> Result<(), RestoreFault>
    ensures pushed { OnOk result
        (machine.new ≡ with_frame_inside (frame_of frame.entry) machine.old) }
    ensures full { result ≡ Err fault.NotAnImage
        → HaveStackRoom machine.old.state.frames (frame_of frame.entry ∷ []) → ⊥ }
{
    machine.push_frame(frame.function, frame.position as usize)?;
    push_slots(machine, frame.slots)
}

/// Puts these words after the slots of the innermost frame.
fn push_slots(machine: &mut Loading, mut words: Words) -> Result<(), RestoreFault>
    requires { machine.old.state.frames ≢ [] }
    ensures pushed { OnOk result (machine.new ≡ with_slots_behind words.entry machine.old) }
    ensures full { result ≡ Err fault.NotAnImage
        → SLOTS < slots_held machine.old.state.frames + length words.entry }
{
    while let Some(word) = words.next() {
        machine.push_slot(word)?;
    }
    Ok(())
}

/// Gives memory the bytes that are next, in one copy.
fn load_memory(
    alloc: Global,
    machine: &mut Loading,
    reader: &mut ProcessImageReader,
) -> Result<(), RestoreFault>
    ensures made { OnOk result (PutsField memory_bytes IsWhole with_bytes_in
        machine.old machine.new reader.old reader.new) }
    ensures refused { RefusesField result memory_bytes
        (IsMemoryWithin (least_of machine.old.guest) machine.old.most_pages) reader.old }
{
    let Some(bytes) = read_memory(reader) else {
        return Err(RestoreFault::NotAnImage);
    };
    machine.set_memory(alloc, bytes)?;
    Ok(())
}

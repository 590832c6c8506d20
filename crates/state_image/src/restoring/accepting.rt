//! Whether a process that was read from an image is one that is accepted.
//!
//! **A well-typed image is within the limits on modules by clauses of its own** (`IsWithinBounds`):
//! functions, positions, slots in all, globals. Typing alone bounds none of these, since a module
//! of the rules may be of any size. Each field has room for what it holds, and an area for the
//! image.

ghost use Rattle.std.specs.Prelude.{◌≡◌, ◌↔◌, ◌≤◌, ◌+◌, ℕ, IsTrue, [], Some, length};
ghost use Rattle.std.specs.List.{AllByRecursion};
ghost use Rattle.wasm_rules.specs.Linking.{HasEntry};
ghost use Rattle.wasi_abi.specs.rules.Versions.{text_limit};
ghost use Rattle.machine.specs.rules.LentFrames.{lent_frame};
ghost use Rattle.state_image.specs.rules.Saving.{saved_of};
ghost use Rattle.state_image.specs.rules.WellTyped.{IsOutermost, IsCalled, IsAlive, IsPlaceWithin};
ghost use Rattle.state_image.specs.restoring.Processes.{MayCome, MayBeAccepted};

use machine::{LentFrame, Machine, entry_of};
use process::Process;
use wasm_syntax::limits::{FUNCTIONS, GLOBALS, INSTRUCTIONS};

/// Whether the host calls this function: `_start`, or the start function while `_start` is to come.
fn is_called(machine: &Machine, function: u32) -> bool
    requires { MayCome machine.now.guest machine.now.state.later }
    ensures { (entry : ℕ) → HasEntry machine.now.guest entry → IsTrue result
        ↔ IsCalled (record { start = machine.now.guest.start; entry = entry })
        machine.now.state.later function }
{
    let module = machine.module().module();
    if machine.is_starting() {
        is_function(module.start, function)
    } else {
        is_function(entry_of(module), function)
    }
}

/// Whether a function that was found, if one was, is this one.
fn is_function(found: Option<u32>, function: u32) -> bool
    ensures { IsTrue result ↔ (found ≡ Some function) }
{
    match found {
        Some(number) => number == function,
        None => false,
    }
}

/// Whether the outermost frame, if there is one, is that of a function that the host calls.
fn is_outermost(machine: &Machine) -> bool
    requires { MayCome machine.now.guest machine.now.state.later }
    ensures { (entry : ℕ) → HasEntry machine.now.guest entry → IsTrue result
        ↔ IsOutermost (record { start = machine.now.guest.start; entry = entry })
        machine.now.state.later machine.now.state.frames }
{
    if machine.frame_count() == 0 {
        return true;
    }
    is_called(machine, machine.frame(0).function)
}

/// Whether a process that runs has a frame, and one that has ended has none, nothing to come and no
/// unfinished line.
fn is_alive(process: &Process) -> bool
    ensures { IsTrue result ↔ IsAlive process.now.ended (saved_of process.now) }
{
    match process.reached_end() {
        None => process.machine().frame_count() > 0,
        Some(_) => is_over(process),
    }
}

/// Whether there is no frame, nothing to come, and no unfinished line.
fn is_over(process: &Process) -> bool
    ensures { IsTrue result ↔ (process.now.machine.state.frames ≡ [])
        × (process.now.machine.state.later ≡ []) × (process.now.host.host.first ≡ [])
        × (process.now.host.host.second ≡ []) }
{
    let machine = process.machine();
    if machine.frame_count() > 0 || machine.is_starting() {
        return false;
    }
    let host = process.host();
    host.first().is_empty() && host.second().is_empty()
}

/// Whether function and position of a frame are within the limits.
fn is_place_within(place: &LentFrame) -> bool
    ensures { IsTrue result ↔ IsPlaceWithin (lent_frame place.now) }
{
    (place.function as usize) < FUNCTIONS && place.position < INSTRUCTIONS
}

/// Whether those of all frames are.
fn are_places_within(machine: &Machine) -> bool
    ensures { IsTrue result ↔ AllByRecursion IsPlaceWithin machine.now.state.frames }
{
    for index in 0..machine.frame_count() {
        if !is_place_within(&machine.frame(index)) {
            return false;
        }
    }
    true
}

/// Whether there are no more globals than a module within the limits has, and frames are within
/// them too.
fn is_within_limits(machine: &Machine) -> bool
    ensures { IsTrue result ↔ (length machine.now.state.globals ≤ GLOBALS)
        × AllByRecursion IsPlaceWithin machine.now.state.frames }
{
    machine.globals().len() <= GLOBALS && are_places_within(machine)
}

/// Whether no more bytes are unread than a request has with its newline.
fn is_unread_short(process: &Process) -> bool
    ensures { IsTrue result ↔ (length process.now.host.host.unread
        ≤ text_limit process.now.host.host.version + 1) }
{
    let host = process.host();
    host.unread_bytes().len() <= host.version().text_limit() + 1
}

/// Whether no more nodes were made than steps were taken.
fn has_next_in_time(process: &Process) -> bool
    ensures { IsTrue result ↔ (process.now.host.host.files.next ≤ process.now.steps + 2) }
{
    process.host().tree().next() <= process.steps() + 2
}

/// Whether the process, which was made of what an image tells, is one whose image is accepted.
pub fn may_be_accepted(process: &Process) -> bool
    requires { MayCome process.now.machine.guest process.now.machine.state.later }
    ensures { (entry : ℕ) → HasEntry process.now.machine.guest entry → IsTrue result
        ↔ MayBeAccepted process.now.machine.guest entry (saved_of process.now) }
{
    let machine = process.machine();
    if !is_outermost(machine) {
        return false;
    }
    if !is_alive(process) {
        return false;
    }
    if !is_within_limits(machine) {
        return false;
    }
    if !is_unread_short(process) {
        return false;
    }
    has_next_in_time(process)
}

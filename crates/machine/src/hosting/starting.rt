//! The beginning of a machine.

ghost use Rattle.std.specs.Prelude.{◌≡◌, ◌≤◌, IfOk, IfErr};
ghost use Rattle.wasm_rules.specs.Linking.{IsLinkable};
ghost use Rattle.machine.specs.rules.Offers.{offer};
ghost use Rattle.machine.specs.rules.Refusals.{IsRefused, LinkDenies};
ghost use Rattle.machine.specs.Hosting.Beginnings.{ArePartsOf, IsOfInstance, StartStands};

use crate::execution::{Executable, State};
use crate::frames::Frames;
use crate::hosting::parts::{first_calls, words_of};
use crate::instance::{Instance, LinkFault};
use crate::routines::{Routine, routines};
use guest_memory::MOST_PAGES;
use machine_slots::Slots;
use std::alloc::{AllocError, Global};
use wasm_validate::{ValidModule, function_type_indices};

/// What a machine begins with, before the host's first call.
#[derive(Debug, Drop)]
pub struct MachineStart {
    pub code: Executable,
    pub state: State,
}

/// What running needs beside an instance.
#[derive(Drop)]
struct RunningParts {
    type_indices: Vec<u32>,
    routines: Vec<Routine>,
    later: Vec<u32>,
    globals: Vec<u64>,
    frames: Frames,
    slots: Slots,
}

/// Takes all memory that running needs. Fails only where memory is refused.
fn parts_of(alloc: Global, instance: &Instance) -> Result<RunningParts, AllocError>
    ensures { IfOk result (ArePartsOf instance.now) }
{
    let module = instance.module.module();
    let type_indices = function_type_indices(alloc, module)?;
    let routines = routines(alloc, module)?;
    let later = first_calls(alloc, module.start, instance.entry)?;
    let globals = words_of(alloc, instance.globals.as_slice())?;
    let frames = Frames::new(alloc)?;
    let slots = Slots::new(alloc)?;
    Ok(RunningParts {
        type_indices,
        routines,
        later,
        globals,
        frames,
        slots,
    })
}

/// An instance with all that running needs, before the host's first call.
fn start_of(instance: Instance, parts: RunningParts) -> MachineStart
    requires { ArePartsOf instance parts }
    ensures { IsOfInstance instance result }
{
    let code = Executable {
        module: instance.module,
        calls: instance.calls,
        type_indices: parts.type_indices,
        routines: parts.routines,
        table: instance.table,
    };
    let state = State {
        frames: parts.frames,
        slots: parts.slots,
        globals: parts.globals,
        memory: instance.memory,
        later: parts.later,
    };
    MachineStart { code, state }
}

/// Makes a machine of an instance. Fails only where memory is refused.
fn prepare(alloc: Global, instance: Instance) -> Result<MachineStart, AllocError>
    ensures { IfOk result (IsOfInstance instance) }
{
    match parts_of(alloc, &instance) {
        Ok(parts) => Ok(start_of(instance, parts)),
        Err(error) => Err(error),
    }
}

/// Links a module to the host, under so many pages of memory at most, and takes all memory that
/// running needs. The fault is the first in the order of `LinkFault`. Time in proportion to the
/// module and to its memory and table.
pub fn begin(alloc: Global, module: ValidModule, pages: u32) -> Result<MachineStart, LinkFault>
    requires pages { pages ≤ MOST_PAGES }
    ensures begun { IfOk result (StartStands pages «module») }
    ensures refused { IfErr result (IsRefused pages «module») }
    ensures only { IfErr result (LinkDenies (IsLinkable offer pages «module»)) }
{
    let instance = Instance::link(alloc, module, pages)?;
    Ok(prepare(alloc, instance)?)
}

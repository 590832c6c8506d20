//! From a module to a machine.

ghost use Rattle.std.specs.Prelude.{◌≤◌, IfOk, IfErr, OnOk};
ghost use Rattle.wasm_rules.specs.Validity.{IsValid};
ghost use Rattle.wasm_rules.specs.Linking.{IsLinkable};
ghost use Rattle.machine.specs.rules.Offers.{offer};
ghost use Rattle.machine.specs.rules.Refusals.{IsRefused, LinkDenies};
ghost use Rattle.machine.specs.rules.Runs.{HasBegun};

use crate::execution::go_on;
use crate::hosting::{MachineStart, begin};
use crate::instance::LinkFault;
use crate::running_machine::Machine;
use guest_memory::MOST_PAGES;
use std::alloc::Global;
use wasm_validate::ValidModule;

/// Links a module to the host, where its memory may have so many pages, takes all memory that
/// running needs, and begins. The fault is the first in the order of `LinkFault`.
pub fn link(alloc: Global, module: ValidModule, pages: u32) -> Result<Machine, LinkFault>
    requires pages { pages ≤ MOST_PAGES }
    ensures begun { IfOk result (HasBegun pages «module») }
    ensures valid { OnOk result (IsValid «module») }
    ensures refused { IfErr result (IsRefused pages «module») }
    ensures only { IfErr result (LinkDenies (IsLinkable offer pages «module»)) }
{
    let MachineStart { code, mut state } = begin(alloc, module, pages)?;
    let most_pages = state.memory.limit();
    let _ = go_on(&code, &mut state, 0);
    Ok(Machine {
        code,
        state,
        most_pages,
    })
}

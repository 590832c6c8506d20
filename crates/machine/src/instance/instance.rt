//! Instances: modules that are linked, and what they begin with.

ghost use Rattle.std.specs.Prelude.{◌≡◌, ◌≢◌, ◌≤◌, IfOk, IfErr};
ghost use Rattle.wasm_rules.specs.Validity.{IsValid};
ghost use Rattle.wasm_rules.specs.Linking.{IsLinkable};
ghost use Rattle.machine.specs.rules.Offers.{offer};
ghost use Rattle.machine.specs.Linked.{instance_of};
ghost use Rattle.machine.specs.rules.Initial.{IsPrepared};
ghost use Rattle.machine.specs.rules.Instances.{IsLinked};
ghost use Rattle.machine.specs.rules.Refusals.{IsRefused, LinkDenies};

use crate::instance::calls::{check_imports, imported_calls};
use crate::instance::exports::{entry_of, exports_memory};
use crate::instance::fault::LinkFault;
use crate::instance::globals::initial_globals;
use crate::instance::memory::{fits_pages, initial_memory};
use crate::instance::segments::can_begin;
use crate::instance::table::initial_table;
use guest_memory::{MOST_PAGES, Memory};
use std::alloc::Global;
use wasi_abi::Call;
use wasm_syntax::{Module, Value};
use wasm_validate::ValidModule;

/// A valid module that is linked to the host, with what it begins with.
#[derive(Debug, Drop)]
pub struct Instance {
    pub module: ValidModule,
    /// The function that is exported as `_start`.
    pub entry: u32,
    /// The calls that the imports name, in their order. They are the first functions.
    pub calls: Vec<Call>,
    pub memory: Memory,
    pub globals: Vec<Value>,
    /// The function that each entry names, if it names one.
    pub table: Vec<Option<u32>>,
}

/// What an instance has beside its module.
#[derive(Drop)]
struct Beginning {
    entry: u32,
    calls: Vec<Call>,
    memory: Memory,
    globals: Vec<Value>,
    table: Vec<Option<u32>>,
}

/// The entry of a module that can be linked, as far as memory goes.
fn check(module: &Module, pages: u32) -> Result<u32, LinkFault>
    requires { IsValid module.now }
    ensures prepared { IfOk result (IsPrepared pages module.now) }
    ensures refused { IfErr result (IsRefused pages module.now) }
    ensures known { IfErr result (λ e. e ≢ LinkFault.Memory) }
{
    let Some(entry) = entry_of(module) else {
        return Err(LinkFault::NoStart);
    };
    if !exports_memory(module) {
        return Err(LinkFault::NoMemory);
    }
    check_imports(module.types.as_slice(), module.imports.as_slice())?;
    if !can_begin(module) {
        return Err(LinkFault::InitRange);
    }
    if !fits_pages(module.memories.as_slice(), pages) {
        return Err(LinkFault::TooManyPages);
    }
    Ok(entry)
}

/// What a module begins with. The fault is the first in the order of `LinkFault`.
fn beginning_of(alloc: Global, module: &Module, pages: u32) -> Result<Beginning, LinkFault>
    requires pages { pages ≤ MOST_PAGES }
    requires valid { IsValid module.now }
    ensures linked { IfOk result (λ b. IsLinked pages module.now (instance_of module.now b)) }
    ensures refused { IfErr result (IsRefused pages module.now) }
{
    let entry = check(module, pages)?;
    let calls = imported_calls(alloc, module.imports.as_slice())?;
    let constants = module.globals.as_slice();
    let globals = initial_globals(alloc, constants)?;
    let elements = module.elements.as_slice();
    let table = initial_table(alloc, module.tables.as_slice(), constants, elements)?;
    let memories = module.memories.as_slice();
    let segments = module.data_segments.as_slice();
    let memory = initial_memory(alloc, memories, pages, constants, segments)?;
    Ok(Beginning {
        entry,
        calls,
        memory,
        globals,
        table,
    })
}

impl Instance {
    /// Links a module to the host, under so many pages of memory at most. The fault is the first in
    /// the order of `LinkFault`; memory is taken, and wanted, only where there is none. Time in
    /// proportion to the module and to its memory and table.
    pub fn link(alloc: Global, module: ValidModule, pages: u32) -> Result<Instance, LinkFault>
        requires { pages ≤ MOST_PAGES }
        ensures linked { IfOk result (IsLinked pages «module») }
        ensures refused { IfErr result (IsRefused pages «module») }
        ensures only { IfErr result (LinkDenies (IsLinkable offer pages «module»)) }
    {
        match beginning_of(alloc, module.module(), pages) {
            Ok(beginning) => Ok(Instance {
                module,
                entry: beginning.entry,
                calls: beginning.calls,
                memory: beginning.memory,
                globals: beginning.globals,
                table: beginning.table,
            }),
            Err(fault) => Err(fault),
        }
    }
}

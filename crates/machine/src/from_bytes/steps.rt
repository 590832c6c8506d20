//! Decoding, validation and linking, one after another.

ghost use Rattle.std.specs.Prelude.{◌≤◌, IfOk, IfErr};
ghost use Rattle.machine.specs.rules.Acceptance.{Accepts, ModuleFaultDenies, HasNoAcceptedModule};
ghost use Rattle.machine.specs.rules.Acceptance.{HasNoValidModule, IsRead, IsReported};
ghost use Rattle.machine.specs.rules.Acceptance.{IsReportedOfReading};

use crate::from_bytes::fault::ModuleFault;
use crate::{Machine, link};
use guest_memory::MOST_PAGES;
use std::alloc::Global;
use wasm_decode::decode;
use wasm_validate::{ValidModule, validate};

/// The valid module that the bytes spell, within the limits. A refusal is that of the first of the
/// two steps that refuses. Unless it is out of memory, it says that the bytes spell no valid
/// module.
pub fn read(alloc: Global, bytes: &[u8]) -> Result<ValidModule, ModuleFault>
    ensures read { IfOk result (IsRead bytes.now) }
    ensures reported { IfErr result (IsReportedOfReading bytes.now) }
    ensures only { IfErr result (λ e. ModuleFaultDenies e (HasNoValidModule bytes.now)) }
{
    let decoded = decode(alloc, bytes)?;
    Ok(validate(alloc, decoded)?)
}

/// The machine of the module that the bytes spell, where its memory may have so many pages. A
/// refusal is that of the first step that refuses. Unless it is out of memory, it says that the
/// bytes spell no module that is accepted.
pub fn accept(alloc: Global, bytes: &[u8], pages: u32) -> Result<Machine, ModuleFault>
    requires { pages ≤ MOST_PAGES }
    ensures accepted { IfOk result (Accepts pages bytes.now) }
    ensures reported { IfErr result (IsReported pages bytes.now) }
    ensures only { IfErr result (λ e. ModuleFaultDenies e (HasNoAcceptedModule pages bytes.now)) }
{
    let valid = read(alloc, bytes)?;
    Ok(link(alloc, valid, pages)?)
}

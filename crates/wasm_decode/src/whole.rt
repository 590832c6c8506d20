//! Whole modules (section 5.5.15).
//!
//! The sections are found first, and then read in the order of their ids. A fault inside a section
//! is answered before one between sections, and a missing code section after all others.

ghost use Rattle.std.specs.Prelude.{◌≡◌, ◌≢◌, IfOk, IfErr};
ghost use Rattle.wasm_syntax.specs.rules.Modules.{IsModule, preamble};
ghost use Rattle.wasm_syntax.specs.rules.Limits.{IsWithinLimits, HasNoModule};
ghost use Rattle.wasm_syntax.specs.laws.ReadingItems.{fixed_at};
ghost use Rattle.wasm_syntax.specs.laws.ReadingWithin.{module_within_at};
ghost use Rattle.wasm_decode.specs.Items.Answers.{TakesItem};
ghost use Rattle.wasm_decode.specs.Answers.{GivesAll};
ghost use Rattle.wasm_decode.specs.declared.fault.DecodeFault.TheVariants.{Memory};

use crate::contents::contents;
use crate::fault::DecodeFault;
use crate::items::{Decoder, ItemFault, ModuleLimit, ReadRefusal};
use crate::sections::split;
use std::alloc::Global;
use wasm_syntax::limits::MODULE_BYTES;
use wasm_syntax::{LimitedModule, Module};

/// The mark and the version.
#[tactic(auto, unfolding(wasm_syntax::specs::laws::ReadingItems::fixed_at))]
pub fn header(decoder: &mut Decoder) -> Result<(), ReadRefusal>
    ensures { TakesItem result decoder.new (fixed_at preamble decoder.old) }
{
    decoder.expect_byte(0x00)?;
    decoder.expect_byte(0x61)?;
    decoder.expect_byte(0x73)?;
    decoder.expect_byte(0x6d)?;
    decoder.expect_byte(0x01)?;
    decoder.expect_byte(0x00)?;
    decoder.expect_byte(0x00)?;
    decoder.expect_byte(0x00)
}

/// The module that is all of the bytes. A fault inside a section is told before one between
/// sections, and a missing code section after all others.
fn module(alloc: Global, bytes: &[u8]) -> Result<Module, ItemFault>
    ensures { GivesAll result (module_within_at bytes.now) }
{
    if bytes.len() > MODULE_BYTES {
        let refusal = ReadRefusal::past(ModuleLimit::Bytes, MODULE_BYTES);
        return Err(ItemFault::Refused(refusal));
    }
    let mut decoder = Decoder::new(bytes);
    header(&mut decoder)?;
    let sections = split(decoder);
    let missing_code = sections
        .fault
        .unwrap_or(ReadRefusal::Malformed(bytes.len()));
    let module = contents(alloc, &sections.bodies, missing_code)?;
    match sections.fault {
        None => Ok(module),
        Some(refusal) => Err(ItemFault::Refused(refusal)),
    }
}

/// The module that the bytes spell, within the limits. It takes time and memory in proportion to
/// the bytes, whatever counts they declare. `DecodeFault` has the first fault in the order of the
/// bytes. Its types and bodies are within the limits by its type too.
pub fn decode(alloc: Global, bytes: &[u8]) -> Result<LimitedModule, DecodeFault>
    ensures found { IfOk result (λ m. IsModule bytes.now m × IsWithinLimits bytes.now m) }
    ensures only { IfErr result (λ e. e ≢ Memory → HasNoModule bytes.now) }
{
    let decoded = module(alloc, bytes)?;
    Ok(LimitedModule::of(decoded).unwrap())
}

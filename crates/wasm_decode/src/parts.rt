//! Parts of a module, each read whatever the others hold (section 5.5.15). Of a module with several
//! faults more than the first one is then known.

ghost use Rattle.std.specs.Prelude.{IfErr, IfOk, MatchResult};
ghost use Rattle.wasm_decode.specs.Parts.{FindsPart, HasNoSections, OpensSections, TakesPart};
ghost use Rattle.wasm_decode.specs.rules.Parts.{HasCodeFaults, HasImports, HasTypes, LacksPart};

use crate::code_faults::{CodeFaults, faults_of};
use crate::contents::id;
use crate::fault::DecodeFault;
use crate::fields::{imports_of, open_section, row_of};
use crate::items::{Decoder, ItemFault, ReadRefusal};
use crate::sections::{Sections, split};
use crate::whole::header;
use std::alloc::Global;
use wasm_syntax::{FunctionType, Import, ItemList};

/// The sections that all bytes are, behind the header.
fn sections_in(bytes: &[u8]) -> Result<Sections<'_>, ReadRefusal>
    ensures { MatchResult result (λ sections. OpensSections bytes.now sections.bodies)
        (λ _. HasNoSections bytes.now) }
{
    let mut decoder = Decoder::new(bytes);
    header(&mut decoder)?;
    let sections = split(decoder);
    match sections.fault {
        None => Ok(sections),
        Some(refusal) => Err(refusal),
    }
}

fn types_in(alloc: Global, bytes: &[u8]) -> Result<ItemList<FunctionType>, ItemFault>
    ensures { FindsPart (HasTypes bytes.now) result }
{
    let sections = sections_in(bytes)?;
    row_of(alloc, &sections.bodies, id::TYPES)
}

/// The types of functions, where the bytes are sections. Only the section of types is read.
pub fn decode_types(alloc: Global, bytes: &[u8]) -> Result<ItemList<FunctionType>, DecodeFault>
    ensures found { IfOk result (HasTypes bytes.now) }
    ensures only { IfErr result (LacksPart (HasTypes bytes.now)) }
{
    Ok(types_in(alloc, bytes)?)
}

fn imports_in(alloc: Global, bytes: &[u8]) -> Result<ItemList<Import>, ItemFault>
    ensures { FindsPart (HasImports bytes.now) result }
{
    let sections = sections_in(bytes)?;
    let imports = imports_of(alloc, &sections.bodies, id::IMPORTS)?;
    Ok(imports.items)
}

/// The imports, where the bytes are sections. Only the section of imports is read.
pub fn decode_imports(alloc: Global, bytes: &[u8]) -> Result<ItemList<Import>, DecodeFault>
    ensures found { IfOk result (HasImports bytes.now) }
    ensures only { IfErr result (LacksPart (HasImports bytes.now)) }
{
    Ok(imports_in(alloc, bytes)?)
}

fn code_faults_in(alloc: Global, bytes: &[u8]) -> Result<CodeFaults, ReadRefusal>
    ensures { TakesPart (HasCodeFaults bytes.now) result }
{
    let sections = sections_in(bytes)?;
    let Some(mut decoder) = open_section(&sections.bodies, id::CODES) else {
        return Ok(CodeFaults {
            faults: ItemList::new(alloc),
            end: None,
        });
    };
    let count = decoder.u32()?;
    Ok(faults_of(alloc, &mut decoder, count))
}

/// The fault of each code entry that is no code within the limits, where the bytes are sections.
/// Only the section of code is read. It takes time and memory in proportion to the bytes.
pub fn find_code_faults(alloc: Global, bytes: &[u8]) -> Result<CodeFaults, DecodeFault>
    ensures found { IfOk result (HasCodeFaults bytes.now) }
    ensures only { IfErr result (LacksPart (HasCodeFaults bytes.now)) }
{
    match code_faults_in(alloc, bytes) {
        Ok(found) => Ok(found),
        Err(refusal) => Err(DecodeFault::from(ItemFault::Refused(refusal))),
    }
}

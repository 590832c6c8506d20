//! The name that a module's name section gives a function (appendix, "Name Section").

ghost use Rattle.std.specs.Prelude.{◌≡◌, ◌↔◌, IsTrue, MatchOption, List, ℕ, codes};
ghost use Rattle.wasm_places.specs.Answers.{FindsAs};
ghost use Rattle.wasm_places.specs.Around.{section_with};
ghost use Rattle.wasm_places.specs.FunctionNames.{InSection, InSubsection, InSubsections};
ghost use Rattle.wasm_places.specs.FunctionNames.{function_name_at, function_name_with};
ghost use Rattle.wasm_places.specs.rules.FunctionNames.{IsGoodName, IsGoodOf, IsNameSection};
ghost use Rattle.wasm_places.specs.rules.FunctionNames.{IsPrintable, LacksGood, MapNames};
ghost use Rattle.wasm_places.specs.rules.FunctionNames.{ModuleNames};

use crate::reader::{Part, Reader};
use crate::sections::{header, section};

/// The id of a custom section.
const CUSTOM: u8 = 0;

/// The id of the subsection with the names of functions.
const FUNCTION_NAMES: u8 = 1;

/// The most bytes of a name that may be printed.
const LONGEST_NAME: usize = 256;

/// A function's number, and its name.
#[derive(Clone, Copy)]
pub struct NameEntry<'a> {
    function: u32,
    name: &'a [u8],
}

/// Whether a byte may be printed.
fn is_printable(byte: u8) -> bool
    ensures { IsTrue result ↔ IsPrintable byte }
{
    0x20 <= byte && byte <= 0x7e
}

/// Whether a name may be printed: it is some printable ASCII, and short.
fn is_good_name(name: &[u8]) -> bool
    ensures { IsTrue result ↔ IsGoodName name.now }
{
    !name.is_empty() && name.len() <= LONGEST_NAME && name.iter().all(|byte| is_printable(*byte))
}

/// The next entry of a map of names.
#[tactic(auto, unfolding(crate::specs::FunctionNames::function_name_at))]
fn name_entry<'a>(reader: &mut Reader<'a>) -> Option<NameEntry<'a>>
    ensures { FindsAs function_name_with result reader.new (function_name_at reader.old) }
{
    let function = reader.u32()?;
    let name = reader.name()?.into_part().bytes;
    Some(NameEntry { function, name })
}

/// The name of a function, if this is its entry and the name may be printed.
fn name_in_entry<'a>(entry: NameEntry<'a>, function: u32) -> Option<&'a [u8]>
    ensures { MatchOption result
        (entry.entry.function ≡ function → IsGoodName entry.entry.name.now → ⊥)
        (λ name. (entry.entry.function ≡ function) × (name.now ≡ entry.entry.name.now)
        × IsGoodName name.now) }
{
    if entry.function == function && is_good_name(entry.name) {
        Some(entry.name)
    } else {
        None
    }
}

/// The name of a function in a map. Its entries have rising numbers.
fn name_in_map<'a>(map: Part<'a>, function: u32) -> Option<&'a [u8]>
    ensures { MatchOption result (LacksGood (MapNames map.entry.bytes.now function))
        (λ name. IsGoodOf (MapNames map.entry.bytes.now function) name.now) }
{
    let mut rest = Reader::of(map);
    let count = rest.u32()?;
    for _ in 0..count {
        let entry = name_entry(&mut rest)?;
        if entry.function >= function {
            return name_in_entry(entry, function);
        }
    }
    None
}

/// The name of a function in a subsection.
fn name_in_subsection<'a>(id: u8, map: Part<'a>, function: u32) -> Option<&'a [u8]>
    ensures { MatchOption result (LacksGood (InSubsection function (section_with id map.entry)))
        (λ name. IsGoodOf (InSubsection function (section_with id map.entry)) name.now) }
{
    if id == FUNCTION_NAMES {
        name_in_map(map, function)
    } else {
        None
    }
}

/// The name of a function in one of these subsections.
fn name_in_subsections<'a>(subsections: Part<'a>, function: u32) -> Option<&'a [u8]>
    ensures { MatchOption result (LacksGood (InSubsections function subsections.entry.bytes.now))
        (λ name. IsGoodOf (InSubsections function subsections.entry.bytes.now) name.now) }
{
    let mut rest = Reader::of(subsections);
    while let Some((id, map)) = section(&mut rest) {
        if let Some(name) = name_in_subsection(id, map, function) {
            return Some(name);
        }
    }
    None
}

/// Whether a custom section with this name has names of functions.
fn is_for_names(name: &[u8]) -> bool
    ensures { IsTrue result ↔ (name.now ≡ codes "name") }
{
    name == b"name".as_slice()
}

/// The subsections of a name section.
fn subsections_of<'a>(id: u8, body: Part<'a>) -> Option<Part<'a>>
    ensures { MatchOption result
        ((bytes : List ℕ) → IsNameSection (section_with id body.entry) bytes → ⊥)
        (λ part. IsNameSection (section_with id body.entry) part.bytes.now) }
{
    if id != CUSTOM {
        return None;
    }
    let mut rest = Reader::of(body);
    let name = rest.name()?.into_part().bytes;
    if is_for_names(name) {
        Some(rest.into_part())
    } else {
        None
    }
}

/// The name of a function in a section, if that is a name section.
fn name_in_section<'a>(id: u8, body: Part<'a>, function: u32) -> Option<&'a [u8]>
    ensures { MatchOption result (LacksGood (InSection function (section_with id body.entry)))
        (λ name. IsGoodOf (InSection function (section_with id body.entry)) name.now) }
{
    let subsections = subsections_of(id, body)?;
    name_in_subsections(subsections, function)
}

/// The name that a module's name section gives the function with this number, where it may be
/// printed. Imported functions come first. What isn't as the format has it gives no name.
pub fn name_of_function(module: &[u8], function: u32) -> Option<&[u8]>
    ensures { MatchOption result (LacksGood (ModuleNames module.now function))
        (λ name. IsGoodOf (ModuleNames module.now function) name.now) }
{
    let mut rest = Reader::new(module);
    header(&mut rest)?;
    while let Some((id, body)) = section(&mut rest) {
        if let Some(name) = name_in_section(id, body, function) {
            return Some(name);
        }
    }
    None
}

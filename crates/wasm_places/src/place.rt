//! The place of a byte.

ghost use Rattle.wasm_places.specs.Around.{FunctionIsIn, IsModulePlaceIn, TypeIsIn};
ghost use Rattle.wasm_places.specs.rules.Places.{LiesAt};

use crate::entries::{Entries, entry_around};
use crate::imports::imported_functions;
use crate::sections::{Around, section_around};

/// Where a byte of a module lies.
#[derive(Clone, Copy, Debug, PartialEq, Eq)]
pub enum ModulePlace {
    /// In the code of the function with this number. Imported functions come first.
    Function(u64),
    /// In the type with this number.
    Type(u64),
    /// Elsewhere in a section with this id.
    Section(u8),
}

/// The id of the section of types.
const TYPES: u8 = 1;

/// The id of the section of code.
const CODES: u8 = 10;

/// The number of the function in whose code the byte lies, if this is the section of code.
fn function_in(around: &Around) -> Option<u64>
    ensures { FunctionIsIn around.now result }
{
    if around.id != CODES {
        return None;
    }
    let imported = imported_functions(around.imports)?;
    let own = entry_around(Entries::Codes, around.body, around.left)?;
    Some(u64::from(imported) + u64::from(own))
}

/// The number of the type in which the byte lies, if this is the section of types.
fn type_in(around: &Around) -> Option<u64>
    ensures { TypeIsIn around.now result }
{
    if around.id != TYPES {
        return None;
    }
    let number = entry_around(Entries::Types, around.body, around.left)?;
    Some(u64::from(number))
}

/// The place of a byte that lies in this section.
fn place_in(around: &Around) -> ModulePlace
    ensures { IsModulePlaceIn around.now result }
{
    if let Some(number) = function_in(around) {
        return ModulePlace::Function(number);
    }
    match type_in(around) {
        Some(number) => ModulePlace::Type(number),
        None => ModulePlace::Section(around.id),
    }
}

/// The place of the byte at an offset of a module, if it lies in one of its sections.
pub fn place_of(module: &[u8], at: usize) -> Option<ModulePlace>
    ensures { LiesAt module.now at result }
{
    let around = section_around(module, at)?;
    Some(place_in(&around))
}

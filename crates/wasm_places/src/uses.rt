//! The first function that has a type (sections 5.5.5 and 5.5.6).

ghost use Rattle.std.specs.Prelude.{◌≡◌, ◌+◌, ◌≤◌, ◌<◌, ◌^◌, IfSome, None, Some, ◌++◌, List};
ghost use Rattle.wasm_places.specs.Answers.{FindsAs};
ghost use Rattle.wasm_places.specs.Imported.{import_with};
ghost use Rattle.wasm_places.specs.Parts.{part_bytes};
ghost use Rattle.wasm_places.specs.Uses.{FindsFirst, IsSearched, SearchesAll, SearchesIn};
ghost use Rattle.wasm_places.specs.Uses.{SearchesOn, declared_at, declared_in, declared_functions};
ghost use Rattle.wasm_places.specs.rules.Uses.{DeclaredFunction, IsTypeUse, imported_function};

use crate::imports::{ImportNames, NamedImport, import};
use crate::reader::{Part, Reader};
use crate::sections::function_sections;
use wasm_syntax::ImportItem;

/// A function that has the type that was asked for.
#[derive(Clone, Copy, Debug, PartialEq, Eq)]
pub struct TypedFunction<'a> {
    /// Its number. Imported functions come first.
    pub number: u64,
    /// The names of its import, if it is imported.
    pub names: Option<ImportNames<'a>>,
}

/// Which function has a type first.
#[derive(Clone, Copy, Debug, PartialEq, Eq)]
pub enum TypeUse<'a> {
    First(TypedFunction<'a>),
    /// No function has it.
    Unused,
    /// It can't be read which functions there are.
    Unread,
}

/// Which of the two sections with functions it is.
#[derive(Clone, Copy, Debug, PartialEq, Eq)]
pub enum Declaring {
    /// That of imports, of which some are functions.
    Imports,
    /// That of the types of the module's own functions.
    Own,
}

/// A function, as its section says.
#[derive(Clone, Copy)]
pub struct Declared<'a> {
    function_type: u32,
    names: Option<ImportNames<'a>>,
}

/// What is known of the functions that were read.
#[derive(Clone, Copy)]
pub struct Search<'a> {
    /// How many they are.
    functions: u64,
    /// The first one of the wanted type, if there is one.
    found: Option<TypedFunction<'a>>,
}

/// The function that an import is, if it is one.
fn imported_function(import: NamedImport<'_>) -> Option<Declared<'_>>
    ensures { declared_in result ≡ imported_function (import_with import.entry) }
{
    match import.item {
        ImportItem::Function(function_type) => Some(Declared {
            function_type,
            names: Some(import.names),
        }),
        _ => None,
    }
}

/// The function that the next item of such a section is, if it is one.
fn next_declared<'a>(declaring: Declaring, reader: &mut Reader<'a>) -> Option<Option<Declared<'a>>>
    ensures { FindsAs declared_in result reader.new (declared_at declaring reader.old) }
{
    match declaring {
        Declaring::Imports => {
            let import = import(reader)?;
            Some(imported_function(import))
        }
        Declaring::Own => {
            let function_type = reader.u32()?;
            Some(Some(Declared {
                function_type,
                names: None,
            }))
        }
    }
}

/// The first one of the wanted type, of the functions before and this one.
fn first_found<'a>(
    search: Search<'a>,
    wanted: u64,
    function: Declared<'a>,
) -> Option<TypedFunction<'a>>
    ensures { (earlier : List DeclaredFunction) → IsSearched wanted earlier search.entry
        → FindsFirst wanted (earlier ++ declared_in (Some function.entry)) result }
{
    match search.found {
        Some(found) => Some(found),
        None if u64::from(function.function_type) == wanted => Some(TypedFunction {
            number: search.functions,
            names: function.names,
        }),
        None => None,
    }
}

/// The search goes on with one more function, if there is one.
fn search_on<'a>(search: Search<'a>, wanted: u64, function: Option<Declared<'a>>) -> Search<'a>
    requires { search.functions < 2 ^ 34 }
    ensures searched { SearchesOn wanted search.entry (declared_in function.entry) result }
    ensures grows { result.functions ≤ search.entry.functions + 1 }
{
    match function {
        Some(function) => Search {
            functions: search.functions + 1,
            found: first_found(search, wanted, function),
        },
        None => search,
    }
}

/// The search goes on with all functions of such a section.
fn search_section<'a>(
    declaring: Declaring,
    section: Part<'a>,
    wanted: u64,
    before: Search<'a>,
) -> Option<Search<'a>>
    requires { before.functions ≤ 2 ^ 32 }
    ensures searched { SearchesIn wanted before.entry
        (declared_functions declaring (Some section.entry.bytes.now)) result }
    ensures grows { IfSome result (λ s. s.functions ≤ before.entry.functions + 2 ^ 32) }
{
    let mut rest = Reader::of(section);
    let count = rest.u32()?;
    let mut search = before;
    for _ in 0..count {
        let function = next_declared(declaring, &mut rest)?;
        search = search_on(search, wanted, function);
    }
    if rest.is_empty() { Some(search) } else { None }
}

/// The same, where there is such a section.
fn search_in<'a>(
    declaring: Declaring,
    section: Option<Part<'a>>,
    wanted: u64,
    before: Search<'a>,
) -> Option<Search<'a>>
    requires { before.functions ≤ 2 ^ 32 }
    ensures searched { SearchesIn wanted before.entry
        (declared_functions declaring (part_bytes section.entry)) result }
    ensures grows { IfSome result (λ s. s.functions ≤ before.entry.functions + 2 ^ 32) }
{
    match section {
        Some(section) => search_section(declaring, section, wanted, before),
        None => Some(before),
    }
}

/// All functions of a module are searched for one of the wanted type.
fn search_all(module: &[u8], wanted: u64) -> Option<Search<'_>>
    ensures { SearchesAll module.now wanted result }
{
    let sections = function_sections(module)?;
    let none = Search {
        functions: 0,
        found: None,
    };
    let imported = search_in(Declaring::Imports, sections.imports, wanted, none)?;
    search_in(Declaring::Own, sections.function_types, wanted, imported)
}

/// The first function of a module that has the type with this number, by its sections of imports
/// and of functions. What its other sections hold doesn't matter.
pub fn use_of_type(module: &[u8], number: u64) -> TypeUse<'_>
    ensures { IsTypeUse module.now number result }
{
    match search_all(module, number) {
        Some(search) => match search.found {
            Some(first) => TypeUse::First(first),
            None => TypeUse::Unused,
        },
        None => TypeUse::Unread,
    }
}

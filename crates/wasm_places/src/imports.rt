//! How many functions are imported (sections 5.3 and 5.5.5).

ghost use Rattle.std.specs.Prelude.{◌≡◌, ◌<◌, ◌^◌, ◌+◌, ◌-◌, Some};
ghost use Rattle.wasm_decode.specs.Items.Answers.{FindsItem};
ghost use Rattle.wasm_places.specs.Answers.{FindsAs};
ghost use Rattle.wasm_places.specs.Imported.{count_imported, import_with};
ghost use Rattle.wasm_decode.specs.Contents.{functions_of_item};
ghost use Rattle.wasm_places.specs.Parts.{part_bytes};
ghost use Rattle.wasm_syntax.specs.laws.ReadingItems.{value_type_at, mutability_at, limits_at};
ghost use Rattle.wasm_syntax.specs.laws.ReadingItems.{table_type_at, memory_type_at};
ghost use Rattle.wasm_syntax.specs.laws.ReadingItems.{global_type_at};
ghost use Rattle.wasm_syntax.specs.laws.ReadingModules.{import_at, import_item_at};

use crate::reader::{Part, Reader};
use wasm_syntax::{GlobalType, ImportItem, Limits, MemoryType, Mutability, TableType, ValueType};

fn value_type(reader: &mut Reader) -> Option<ValueType>
    ensures { FindsItem result reader.new (value_type_at reader.old) }
{
    match reader.byte() {
        Some(0x7f) => Some(ValueType::I32),
        Some(0x7e) => Some(ValueType::I64),
        _ => None,
    }
}

fn mutability(reader: &mut Reader) -> Option<Mutability>
    ensures { FindsItem result reader.new (mutability_at reader.old) }
{
    match reader.byte() {
        Some(0x00) => Some(Mutability::Constant),
        Some(0x01) => Some(Mutability::Variable),
        _ => None,
    }
}

#[tactic(auto, unfolding(wasm_syntax::specs::laws::ReadingItems::global_type_at))]
fn global_type(reader: &mut Reader) -> Option<GlobalType>
    ensures { FindsItem result reader.new (global_type_at reader.old) }
{
    let value_type = value_type(reader)?;
    let mutability = mutability(reader)?;
    Some(GlobalType {
        value_type,
        mutability,
    })
}

#[tactic(auto, unfolding(wasm_syntax::specs::laws::ReadingItems::limits_at))]
fn limits(reader: &mut Reader) -> Option<Limits>
    ensures { FindsItem result reader.new (limits_at reader.old) }
{
    let has_maximum = match reader.byte() {
        Some(0x00) => false,
        Some(0x01) => true,
        _ => return None,
    };
    let minimum = reader.u32()?;
    let maximum = if has_maximum {
        Some(reader.u32()?)
    } else {
        None
    };
    Some(Limits { minimum, maximum })
}

#[tactic(auto, unfolding(wasm_syntax::specs::laws::ReadingItems::table_type_at))]
fn table_type(reader: &mut Reader) -> Option<TableType>
    ensures { FindsItem result reader.new (table_type_at reader.old) }
{
    reader.expect_byte(0x70)?;
    let limits = limits(reader)?;
    Some(TableType { limits })
}

#[tactic(auto, unfolding(wasm_syntax::specs::laws::ReadingItems::memory_type_at))]
fn memory_type(reader: &mut Reader) -> Option<MemoryType>
    ensures { FindsItem result reader.new (memory_type_at reader.old) }
{
    let limits = limits(reader)?;
    Some(MemoryType { limits })
}

#[tactic(auto, unfolding(wasm_syntax::specs::laws::ReadingModules::import_item_at))]
fn import_item(reader: &mut Reader) -> Option<ImportItem>
    ensures { FindsItem result reader.new (import_item_at reader.old) }
{
    match reader.byte() {
        Some(0x00) => Some(ImportItem::Function(reader.u32()?)),
        Some(0x01) => Some(ImportItem::Table(table_type(reader)?)),
        Some(0x02) => Some(ImportItem::Memory(memory_type(reader)?)),
        Some(0x03) => Some(ImportItem::Global(global_type(reader)?)),
        _ => None,
    }
}

/// The two names of an import: its module, and the item there.
#[derive(Clone, Copy, Debug, PartialEq, Eq)]
pub struct ImportNames<'a> {
    pub module_name: &'a [u8],
    pub name: &'a [u8],
}

/// An import, as it lies in the bytes.
#[derive(Clone, Copy)]
pub struct NamedImport<'a> {
    pub names: ImportNames<'a>,
    pub item: ImportItem,
}

/// An import.
#[tactic(auto, unfolding(wasm_syntax::specs::laws::ReadingModules::import_at))]
pub fn import<'a>(reader: &mut Reader<'a>) -> Option<NamedImport<'a>>
    ensures { FindsAs import_with result reader.new (import_at reader.old) }
{
    let module_name = reader.name()?.into_part().bytes;
    let name = reader.name()?.into_part().bytes;
    let item = import_item(reader)?;
    let names = ImportNames { module_name, name };
    Some(NamedImport { names, item })
}

/// How many functions these and one more import are.
fn with_import(functions: u32, item: ImportItem) -> u32
    requires { functions < 2 ^ 32 - 1 }
    ensures { result ≡ functions + functions_of_item item }
{
    match item {
        ImportItem::Function(_) => functions + 1,
        _ => functions,
    }
}

/// How many functions a section of imports has, if all of it is imports.
fn functions_in(section: Part) -> Option<u32>
    ensures { result ≡ count_imported (Some section.entry.bytes.now) }
{
    let mut rest = Reader::of(section);
    let count = rest.u32()?;
    let mut functions = 0;
    for _ in 0..count {
        let import = import(&mut rest)?;
        functions = with_import(functions, import.item);
    }
    if rest.is_empty() {
        Some(functions)
    } else {
        None
    }
}

/// How many functions a module imports, by the bytes of its section of imports: none without it.
pub fn imported_functions(section: Option<Part>) -> Option<u32>
    ensures { result ≡ count_imported (part_bytes section.entry) }
{
    match section {
        Some(section) => functions_in(section),
        None => Some(0),
    }
}

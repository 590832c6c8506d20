//! How many tables and memories a module has, and how many globals it imports (section 3.4.10).
//!
//! Counts saturate at the largest `usize`.

ghost use Rattle.std.specs.Prelude.{◌≡◌, min, length};
ghost use Rattle.wasm_rules.specs.Types.{imported_tables, imported_memories, imported_globals};
ghost use Rattle.wasm_rules.specs.Validity.{tables_of, memories_of};

use wasm_syntax::{Import, ImportItem, Module};

fn imported_table_count(imports: &[Import]) -> usize
    ensures { result ≡ length (imported_tables imports.now) }
{
    let mut count = 0;
    for import in imports {
        if let ImportItem::Table(_) = import.item {
            count += 1;
        }
    }
    count
}

fn imported_memory_count(imports: &[Import]) -> usize
    ensures { result ≡ length (imported_memories imports.now) }
{
    let mut count = 0;
    for import in imports {
        if let ImportItem::Memory(_) = import.item {
            count += 1;
        }
    }
    count
}

pub fn imported_global_count(imports: &[Import]) -> usize
    ensures { result ≡ length (imported_globals imports.now) }
{
    let mut count = 0;
    for import in imports {
        if let ImportItem::Global(_) = import.item {
            count += 1;
        }
    }
    count
}

/// How many tables there are, imported ones included, up to the largest `usize`.
pub fn table_count(module: &Module) -> usize
    ensures { result ≡ min usize.MAX (length (tables_of «module».now)) }
{
    imported_table_count(module.imports.as_slice()).saturating_add(module.tables.len())
}

/// How many memories there are, imported ones included, up to the largest `usize`.
pub fn memory_count(module: &Module) -> usize
    ensures { result ≡ min usize.MAX (length (memories_of «module».now)) }
{
    imported_memory_count(module.imports.as_slice()).saturating_add(module.memories.len())
}

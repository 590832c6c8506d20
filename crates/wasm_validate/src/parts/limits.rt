//! Types of functions, tables and memories (section 3.2).
//!
//! A second table or memory is a fault where it is. An imported one is found among the imports, and
//! one of the module's own after the types of functions.

ghost use Rattle.std.specs.Prelude.{◌≤◌, ◌↔◌, IsTrue, length};
ghost use Rattle.std.specs.List.{AllByRecursion};
ghost use Rattle.wasm_rules.specs.Validity.{AreLimits, IsFunctionTypeValid, IsTableTypeValid};
ghost use Rattle.wasm_rules.specs.Validity.{IsMemoryTypeValid, tables_of, memories_of};
ghost use Rattle.wasm_validate.specs.rules.Answers.{Demands};
ghost use Rattle.wasm_validate.specs.Parts.Parts.{IsImportedTableValid, IsImportedMemoryValid};

use crate::parts::counts::{memory_count, table_count};
use crate::parts::fault::ValidFault;
use wasm_syntax::{FunctionType, Import, ImportItem, Limits, MemoryType, Module, TableType};

/// The most entries of a table.
const TABLE_RANGE: u64 = 0x1_0000_0000;

/// The most pages of a memory.
const MEMORY_RANGE: u64 = 0x1_0000;

/// Each function gives one result at most. `Limits` otherwise.
pub fn check_function_types(types: &[FunctionType]) -> Result<(), ValidFault>
    ensures { Demands ValidFault.Limits result (AllByRecursion IsFunctionTypeValid types.now) }
{
    if types.iter().all(|t| t.results.len() <= 1) {
        Ok(())
    } else {
        Err(ValidFault::Limits)
    }
}

/// Whether the limits are in order and within the range.
fn are_limits(limits: Limits, range: u64) -> bool
    ensures { IsTrue result ↔ AreLimits limits range }
{
    let minimum = u64::from(limits.minimum);
    match limits.maximum {
        None => minimum <= range,
        Some(most) => {
            let most = u64::from(most);
            minimum <= range && minimum <= most && most <= range
        }
    }
}

pub fn is_table_valid(table: &TableType) -> bool
    ensures { IsTrue result ↔ IsTableTypeValid table.now }
{
    are_limits(table.limits, TABLE_RANGE)
}

pub fn is_memory_valid(memory: &MemoryType) -> bool
    ensures { IsTrue result ↔ IsMemoryTypeValid memory.now }
{
    are_limits(memory.limits, MEMORY_RANGE)
}

fn is_imported_table_valid(item: &ImportItem) -> bool
    ensures { IsTrue result ↔ IsImportedTableValid item.now }
{
    match item {
        ImportItem::Table(table) => is_table_valid(table),
        ImportItem::Function(_) | ImportItem::Memory(_) | ImportItem::Global(_) => true,
    }
}

fn is_imported_memory_valid(item: &ImportItem) -> bool
    ensures { IsTrue result ↔ IsImportedMemoryValid item.now }
{
    match item {
        ImportItem::Memory(memory) => is_memory_valid(memory),
        ImportItem::Function(_) | ImportItem::Table(_) | ImportItem::Global(_) => true,
    }
}

fn are_imported_tables_valid(imports: &[Import]) -> bool
    ensures { IsTrue result ↔ AllByRecursion (λ i. IsImportedTableValid i.item) imports.now }
{
    imports.iter().all(|i| is_imported_table_valid(&i.item))
}

fn are_own_tables_valid(tables: &[TableType]) -> bool
    ensures { IsTrue result ↔ AllByRecursion IsTableTypeValid tables.now }
{
    tables.iter().all(is_table_valid)
}

fn are_imported_memories_valid(imports: &[Import]) -> bool
    ensures { IsTrue result ↔ AllByRecursion (λ i. IsImportedMemoryValid i.item) imports.now }
{
    imports.iter().all(|i| is_imported_memory_valid(&i.item))
}

fn are_own_memories_valid(memories: &[MemoryType]) -> bool
    ensures { IsTrue result ↔ AllByRecursion IsMemoryTypeValid memories.now }
{
    memories.iter().all(is_memory_valid)
}

fn are_tables_valid(module: &Module) -> bool
    ensures { IsTrue result ↔ AllByRecursion IsTableTypeValid (tables_of «module».now) }
{
    are_imported_tables_valid(module.imports.as_slice())
        && are_own_tables_valid(module.tables.as_slice())
}

fn are_memories_valid(module: &Module) -> bool
    ensures { IsTrue result ↔ AllByRecursion IsMemoryTypeValid (memories_of «module».now) }
{
    are_imported_memories_valid(module.imports.as_slice())
        && are_own_memories_valid(module.memories.as_slice())
}

/// Tables have limits in order, and there is one at most, imported ones included. `Limits`
/// otherwise.
pub fn check_tables(module: &Module) -> Result<(), ValidFault>
    ensures { Demands ValidFault.Limits result (AllByRecursion IsTableTypeValid
        (tables_of «module».now) × (length (tables_of «module».now) ≤ 1)) }
{
    if are_tables_valid(module) && table_count(module) <= 1 {
        Ok(())
    } else {
        Err(ValidFault::Limits)
    }
}

/// Memories have limits in order and within 65,536 pages, and there is one at most, imported ones
/// included. `Limits` otherwise.
pub fn check_memories(module: &Module) -> Result<(), ValidFault>
    ensures { Demands ValidFault.Limits result (AllByRecursion IsMemoryTypeValid
        (memories_of «module».now) × (length (memories_of «module».now) ≤ 1)) }
{
    if are_memories_valid(module) && memory_count(module) <= 1 {
        Ok(())
    } else {
        Err(ValidFault::Limits)
    }
}

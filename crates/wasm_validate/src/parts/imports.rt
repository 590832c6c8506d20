//! Imports (section 3.4.9).

ghost use Rattle.std.specs.Prelude.{◌≡◌, ◌↔◌, IsTrue, IfErr, OnOk};
ghost use Rattle.wasm_validate.specs.Parts.Parts.{AreImportsValid, IsFirstImportFault};
ghost use Rattle.wasm_validate.specs.Parts.Parts.{IsImportItemValid, import_fault, nothing_before};
ghost use Rattle.wasm_validate.specs.Parts.Parts.{with_import};

use crate::parts::fault::ValidFault;
use crate::parts::limits::{is_memory_valid, is_table_valid};
use wasm_syntax::{FunctionType, Import, ImportItem};

/// Whether a table and a memory were imported before. There is one of each at most.
#[derive(Clone, Copy, Debug)]
struct Before {
    table: bool,
    memory: bool,
}

/// Whether a function's type exists, and whether a table's and a memory's limits are in order, and
/// there was none before.
fn is_import_valid(types: &[FunctionType], before: Before, import: &Import) -> bool
    ensures { IsTrue result ↔ IsImportItemValid types.now before import.now.item }
{
    match import.item {
        ImportItem::Function(x) => (x as usize) < types.len(),
        ImportItem::Table(table) => is_table_valid(&table) && !before.table,
        ImportItem::Memory(memory) => is_memory_valid(&memory) && !before.memory,
        ImportItem::Global(_) => true,
    }
}

/// What was imported with this import.
fn with_import(before: Before, import: &Import) -> Before
    ensures { result ≡ with_import before import.now.item }
{
    match import.item {
        ImportItem::Table(_) => Before {
            table: true,
            memory: before.memory,
        },
        ImportItem::Memory(_) => Before {
            table: before.table,
            memory: true,
        },
        ImportItem::Function(_) | ImportItem::Global(_) => before,
    }
}

/// What is told of an import that isn't valid.
fn fault_of(import: &Import) -> ValidFault
    ensures { result ≡ import_fault import.now.item }
{
    match import.item {
        ImportItem::Function(_) => ValidFault::Index,
        ImportItem::Table(_) | ImportItem::Memory(_) | ImportItem::Global(_) => ValidFault::Limits,
    }
}

/// Each import is valid, and there is one table and one memory at most. Otherwise the fault of the
/// first that isn't. It is `Index` for a function whose type doesn't exist, and `Limits` for a
/// table's or a memory's limits, and for a second one.
pub fn check_imports(types: &[FunctionType], imports: &[Import]) -> Result<(), ValidFault>
    ensures valid { OnOk result (AreImportsValid types.now nothing_before imports.now) }
    ensures refused { IfErr result (IsFirstImportFault types.now nothing_before imports.now) }
{
    let mut before = Before {
        table: false,
        memory: false,
    };
    for import in imports {
        if !is_import_valid(types, before, import) {
            return Err(fault_of(import));
        }
        before = with_import(before, import);
    }
    Ok(())
}

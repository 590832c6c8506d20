//! What a table begins with.

ghost use Rattle.std.specs.Prelude.{◌≡◌, ◌+◌, ◌≤◌, IfOk, Some, length};
ghost use Rattle.wasm_rules.specs.Instantiation.{empty_table, with_entries};
ghost use Rattle.machine.specs.rules.Initial.{CanFillTable, FillsTable};

use crate::instance::constants::offset;
use std::alloc::{AllocError, Global};
use wasm_syntax::{Element, Global as ModuleGlobal, TableType};

/// How many entries the first table begins with.
pub fn table_size(tables: &[TableType]) -> usize
    ensures { length (empty_table tables.now) ≡ result }
{
    match tables.first() {
        Some(table) => table.limits.minimum as usize,
        None => 0,
    }
}

/// Puts functions into entries, from a place on.
fn write_entries(table: &mut [Option<u32>], from: usize, functions: &[u32])
    requires { from + length functions.now ≤ length table.old }
    ensures { with_entries table.old functions.now from ≡ Some table.new }
{
    for (i, function) in functions.iter().enumerate() {
        table[from + i] = Some(*function);
    }
}

/// Puts each element into the table, in their order.
fn fill_table(globals: &[ModuleGlobal], elements: &[Element], table: &mut [Option<u32>])
    requires { CanFillTable globals.now elements.now table.old }
    ensures { FillsTable globals.now elements.now table.old table.new }
{
    for element in elements {
        let from = offset(globals, element.offset.as_slice()).unwrap();
        write_entries(table, from as usize, element.functions.as_slice());
    }
}

/// The first table with its elements.
pub fn initial_table(
    alloc: Global,
    tables: &[TableType],
    globals: &[ModuleGlobal],
    elements: &[Element],
) -> Result<Vec<Option<u32>>, AllocError>
    requires { CanFillTable globals.now elements.now (empty_table tables.now) }
    ensures { IfOk result (λ table. FillsTable globals.now elements.now
        (empty_table tables.now) table.items) }
{
    let mut table = vec![in alloc; None; table_size(tables)]?;
    fill_table(globals, elements, &mut table);
    Ok(table)
}

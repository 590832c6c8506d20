//! The import section (section 5.5.5).

ghost use Rattle.std.specs.Prelude.{◌≡◌, ◌+◌, ◌≤◌};
ghost use Rattle.wasm_decode.specs.Items.Answers.{GivesItem};
ghost use Rattle.wasm_decode.specs.Contents.{functions_of_item, imports_at};

use crate::items::{Decoder, ItemFault, import};
use std::alloc::Global;
use wasm_syntax::limits::FUNCTIONS;
use wasm_syntax::{Import, ImportItem, ItemList};

/// What a module imports.
#[derive(Drop)]
pub struct Imports {
    pub items: ItemList<Import>,
    /// How many functions the module may have of its own.
    pub functions_left: usize,
}

/// How many functions these and one more import are.
fn with_import(functions: usize, import: &Import) -> usize
    requires { functions ≤ FUNCTIONS }
    ensures { result ≡ functions + functions_of_item import.now.item }
{
    match import.item {
        ImportItem::Function(_) => functions + 1,
        _ => functions,
    }
}

/// A vector of imports. One function too many is told where it is.
pub fn read_imports(alloc: Global, decoder: &mut Decoder) -> Result<Imports, ItemFault>
    ensures { GivesItem result decoder.new (imports_at decoder.old) }
{
    let count = decoder.u32()?;
    let mut items = ItemList::new(alloc);
    let mut functions = 0;
    for _ in 0..count {
        let item = import(alloc, decoder, functions)?;
        functions = with_import(functions, &item);
        items.push(item)?;
    }
    Ok(Imports {
        items,
        functions_left: FUNCTIONS - functions,
    })
}

//! Whether segments are inside of what they fill.

ghost use Rattle.std.specs.Prelude.{◌≡◌, ◌↔◌, IsTrue, IsSome, List, Option, ℕ, length};
ghost use Rattle.wasm_syntax.specs.declared.value.Value.{Value as Number};
ghost use Rattle.wasm_rules.specs.Validity.{IsValid};
ghost use Rattle.wasm_rules.specs.Instantiation.{AreInitial, filled_table, filled_memory};
ghost use Rattle.machine.specs.rules.Initial.{AreImportsOffered, CanBegin};
ghost use Rattle.machine.specs.Initial.{IsInside};

use crate::instance::constants::offset;
use crate::instance::memory::first_pages;
use crate::instance::table::table_size;
use guest_memory::PAGE_SIZE;
use wasm_syntax::{Data, Element, Global, Instruction, Module};

/// Whether so many items from this offset on are within so many.
fn is_inside(globals: &[Global], expression: &[Instruction], count: usize, size: usize) -> bool
    ensures { (values : List Number) → AreInitial globals.now values → IsTrue result
        ↔ IsInside values expression.now count size }
{
    let Some(from) = offset(globals, expression) else {
        return false;
    };
    let from = from as usize;
    from <= size && count <= size - from
}

/// Whether each element is within a table of so many entries.
pub fn are_elements_inside(globals: &[Global], elements: &[Element], size: usize) -> bool
    ensures { (values : List Number) (table : List (Option ℕ)) → AreInitial globals.now values
        → length table ≡ size → IsTrue result ↔ IsSome (filled_table values elements.now table) }
{
    for element in elements {
        let count = element.functions.len();
        if !is_inside(globals, element.offset.as_slice(), count, size) {
            return false;
        }
    }
    true
}

/// Whether each data segment is within a memory of so many bytes.
pub fn is_data_inside(globals: &[Global], segments: &[Data], size: usize) -> bool
    ensures { (values : List Number) (memory : List ℕ) → AreInitial globals.now values
        → length memory ≡ size → IsTrue result ↔ IsSome (filled_memory values segments.now memory) }
{
    for segment in segments {
        let count = segment.bytes.len();
        if !is_inside(globals, segment.offset.as_slice(), count, size) {
            return false;
        }
    }
    true
}

/// Whether every segment is within its table or memory.
pub fn can_begin(module: &Module) -> bool
    requires valid { IsValid module.now }
    requires offered { AreImportsOffered module.now }
    ensures { IsTrue result ↔ CanBegin module.now }
{
    let globals = module.globals.as_slice();
    let entries = table_size(module.tables.as_slice());
    let bytes = first_pages(module.memories.as_slice()) as usize * PAGE_SIZE as usize;
    are_elements_inside(globals, module.elements.as_slice(), entries)
        && is_data_inside(globals, module.data_segments.as_slice(), bytes)
}

//! What each section holds, or stands for where it is absent. Sections are given by their bytes
//! under their ids.

ghost use Rattle.std.specs.Prelude.{◌≡◌, ◌<◌, [], None, length};
ghost use Rattle.wasm_syntax.specs.laws.ReadingItems.{vector_at, vector_up_to_at};
ghost use Rattle.wasm_syntax.specs.laws.ReadingModules.{field_at, start_at};
ghost use Rattle.wasm_decode.specs.Answers.{GivesAll, TakesAll};
ghost use Rattle.wasm_decode.specs.Contents.{imports_at, no_imports, functions_at};
ghost use Rattle.wasm_decode.specs.Sections.{held};

use crate::codes::functions;
use crate::imported::{Imports, read_imports};
use crate::items::{
    Decoder, Item, ItemFault, ModuleLimit, ReadRefusal, Span, vector, vector_up_to,
};
use std::alloc::Global;
use wasm_syntax::limits::FUNCTIONS;
use wasm_syntax::{Function, ItemList};

/// The bytes of the section with this id, to be read.
pub fn open_section<'a>(bodies: &[Option<Span<'a>>], id: usize) -> Option<Decoder<'a>>
    requires { id < length bodies.now }
    ensures { result ≡ held bodies.now id }
{
    match bodies[id] {
        Some(body) => Some(Decoder::at_span(body)),
        None => None,
    }
}

/// A vector.
pub fn row_of<T: Item>(
    alloc: Global,
    bodies: &[Option<Span>],
    id: usize,
) -> Result<ItemList<T>, ItemFault>
    requires { id < length bodies.now }
    ensures { GivesAll result (field_at (vector_at T.at) [] (held bodies.now id)) }
{
    let Some(mut decoder) = open_section(bodies, id) else {
        return Ok(ItemList::new(alloc));
    };
    let items = vector(alloc, &mut decoder)?;
    decoder.expect_end()?;
    Ok(items)
}

/// A vector of at most so many items, which is this limit.
pub fn short_row_of<T: Item>(
    alloc: Global,
    bodies: &[Option<Span>],
    id: usize,
    most: usize,
    limit: ModuleLimit,
) -> Result<ItemList<T>, ItemFault>
    requires { id < length bodies.now }
    ensures { GivesAll result (field_at (vector_up_to_at T.at most) [] (held bodies.now id)) }
{
    let Some(mut decoder) = open_section(bodies, id) else {
        return Ok(ItemList::new(alloc));
    };
    let items = vector_up_to(alloc, &mut decoder, most, limit)?;
    decoder.expect_end()?;
    Ok(items)
}

/// Imports, and how many functions they leave.
pub fn imports_of(alloc: Global, bodies: &[Option<Span>], id: usize) -> Result<Imports, ItemFault>
    requires { id < length bodies.now }
    ensures { GivesAll result (field_at imports_at no_imports (held bodies.now id)) }
{
    let Some(mut decoder) = open_section(bodies, id) else {
        return Ok(Imports {
            items: ItemList::new(alloc),
            functions_left: FUNCTIONS,
        });
    };
    let imports = read_imports(alloc, &mut decoder)?;
    decoder.expect_end()?;
    Ok(imports)
}

/// The index of the start function.
#[tactic(auto, unfolding(wasm_syntax::specs::laws::ReadingModules::start_at))]
pub fn start_of(bodies: &[Option<Span>], id: usize) -> Result<Option<u32>, ReadRefusal>
    requires { id < length bodies.now }
    ensures { TakesAll result (field_at start_at None (held bodies.now id)) }
{
    let Some(mut decoder) = open_section(bodies, id) else {
        return Ok(None);
    };
    let function = decoder.u32()?;
    decoder.expect_end()?;
    Ok(Some(function))
}

/// Functions of these types with their code, or none without a code section.
pub fn functions_of(
    alloc: Global,
    bodies: &[Option<Span>],
    id: usize,
    types: &ItemList<u32>,
) -> Result<ItemList<Function>, ItemFault>
    requires { id < length bodies.now }
    ensures { GivesAll result (field_at (functions_at types.now) [] (held bodies.now id)) }
{
    let Some(mut decoder) = open_section(bodies, id) else {
        return Ok(ItemList::new(alloc));
    };
    let functions = functions(alloc, &mut decoder, types)?;
    decoder.expect_end()?;
    Ok(functions)
}

//! The code section (section 5.5.13), with the types of the functions whose code it holds.

ghost use Rattle.std.specs.Prelude.{◌≡◌, []};
ghost use Rattle.wasm_decode.specs.Items.Answers.{GivesItem};
ghost use Rattle.wasm_decode.specs.Contents.{functions_onto_at, functions_at};

use crate::items::{Decoder, ItemFault, ReadRefusal, code};
use std::alloc::Global;
use wasm_syntax::{Function, ItemList};

/// A code entry for each of these types.
fn entries(
    alloc: Global,
    decoder: &mut Decoder,
    types: &[u32],
) -> Result<ItemList<Function>, ItemFault>
    ensures { GivesItem result decoder.new (functions_onto_at types.now [] decoder.old) }
{
    let mut functions = ItemList::new(alloc);
    for function_type in types {
        let code = code(alloc, decoder)?;
        functions.push(Function {
            function_type: *function_type,
            code,
        })?;
    }
    Ok(functions)
}

/// As many code entries as there are types. Another count is at fault itself.
#[tactic(auto, unfolding(crate::specs::Contents::functions_at))]
pub fn functions(
    alloc: Global,
    decoder: &mut Decoder,
    types: &ItemList<u32>,
) -> Result<ItemList<Function>, ItemFault>
    ensures { GivesItem result decoder.new (functions_at types.now decoder.old) }
{
    let start = decoder.at();
    let count = decoder.u32()?;
    if count as usize != types.len() {
        return Err(ItemFault::Refused(ReadRefusal::Malformed(start)));
    }
    entries(alloc, decoder, types.as_slice())
}

//! Code entries (section 5.5.13).

ghost use Rattle.std.specs.Prelude.{◌≡◌, ◌≤◌, ◌++◌, [], replicate, length, OnOk, IfOk};
ghost use Rattle.wasm_decode.specs.Answers.{GivesAll};
ghost use Rattle.wasm_decode.specs.Items.Answers.{GivesItem};
ghost use Rattle.wasm_decode.specs.Items.Entries.{run_onto_at, runs_onto_at, locals_within_at};
ghost use Rattle.wasm_syntax.specs.laws.ReadingItems.{sized_at, whole_at};
ghost use Rattle.wasm_syntax.specs.laws.ReadingWithin.{code_within_at};

use crate::items::decoder::Decoder;
use crate::items::expressions::expression;
use crate::items::fault::{ItemFault, ReadRefusal};
use crate::items::limit::ModuleLimit;
use crate::items::types::value_type;
use crate::items::vectors::take_sized;
use std::alloc::{AllocFailed, Global};
use wasm_syntax::limits::LOCALS;
use wasm_syntax::{Code, ItemList, ValueType};

/// Declares so many more locals of one type.
fn declare(
    locals: &mut ItemList<ValueType>,
    count: u32,
    value_type: ValueType,
) -> Result<(), AllocFailed<ValueType>>
    ensures { OnOk result (locals.new ≡ locals.old ++ replicate count value_type) }
{
    for _ in 0..count {
        locals.push(value_type)?;
    }
    Ok(())
}

/// A run of locals, after the locals that were declared before. One local too many is told before
/// the type is read.
#[tactic(auto, unfolding(crate::specs::Items::Entries::run_onto_at))]
fn run(decoder: &mut Decoder, locals: ItemList<ValueType>) -> Result<ItemList<ValueType>, ItemFault>
    requires { length locals ≤ LOCALS }
    ensures gives { GivesItem result decoder.new (run_onto_at locals decoder.old) }
    ensures few { IfOk result (λ all. length all ≤ LOCALS) }
{
    let start = decoder.at();
    let count = decoder.u32()?;
    if count as usize > LOCALS - locals.len() {
        let refusal = ReadRefusal::past(ModuleLimit::Locals, start);
        return Err(ItemFault::Refused(refusal));
    }
    let value_type = value_type(decoder)?;
    let mut locals = locals;
    declare(&mut locals, count, value_type)?;
    Ok(locals)
}

/// So many runs of locals.
fn runs(alloc: Global, decoder: &mut Decoder, count: u32) -> Result<ItemList<ValueType>, ItemFault>
    ensures { GivesItem result decoder.new (runs_onto_at count [] decoder.old) }
{
    let mut locals = ItemList::new(alloc);
    for _ in 0..count {
        locals = run(decoder, locals)?;
    }
    Ok(locals)
}

/// The types of the declared locals, one by one.
fn locals(alloc: Global, decoder: &mut Decoder) -> Result<ItemList<ValueType>, ItemFault>
    ensures { GivesItem result decoder.new (locals_within_at decoder.old) }
{
    let count = decoder.u32()?;
    runs(alloc, decoder, count)
}

fn content(alloc: Global, decoder: &mut Decoder) -> Result<Code, ItemFault>
    ensures { GivesItem result decoder.new (code_within_at decoder.old) }
{
    let locals = locals(alloc, decoder)?;
    let body = expression(alloc, decoder)?;
    Ok(Code { locals, body })
}

/// Declared locals and a body, which are all of the bytes.
pub fn whole_code(alloc: Global, entry: Decoder) -> Result<Code, ItemFault>
    ensures { GivesAll result (whole_at code_within_at entry.entry) }
{
    let mut entry = entry;
    let code = content(alloc, &mut entry)?;
    entry.expect_end()?;
    Ok(code)
}

/// A size, and so many bytes that are declared locals and a body, all of them.
#[tactic(auto, unfolding(wasm_syntax::specs::laws::ReadingItems::sized_at))]
pub fn code(alloc: Global, decoder: &mut Decoder) -> Result<Code, ItemFault>
    ensures { GivesItem result decoder.new (sized_at code_within_at decoder.old) }
{
    let entry = take_sized(decoder)?;
    whole_code(alloc, entry)
}

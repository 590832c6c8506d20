//! Types (section 5.3).

ghost use Rattle.std.specs.Prelude.{◌≡◌};
ghost use Rattle.wasm_decode.specs.Items.Answers.{GivesItem, TakesItem};
ghost use Rattle.wasm_decode.specs.Items.Bounded.{limits_up_to_at};
ghost use Rattle.wasm_syntax.specs.laws.ReadingItems.{value_type_at, memory_type_at, mutability_at};
ghost use Rattle.wasm_syntax.specs.laws.ReadingItems.{global_type_at};
ghost use Rattle.wasm_syntax.specs.laws.ReadingWithin.{function_type_within_at};
ghost use Rattle.wasm_syntax.specs.laws.ReadingWithin.{table_type_within_at};

use crate::items::decoder::Decoder;
use crate::items::fault::{ItemFault, ReadRefusal};
use crate::items::item::Item;
use crate::items::limit::ModuleLimit;
use crate::items::vectors::{vector, vector_up_to};
use std::alloc::Global;
use wasm_syntax::limits::{PARAMETERS, TABLE_ENTRIES};
use wasm_syntax::{FunctionType, GlobalType, Limits, MemoryType, Mutability, TableType, ValueType};

/// A value type. Those of floats are told as such.
pub fn value_type(decoder: &mut Decoder) -> Result<ValueType, ReadRefusal>
    ensures { TakesItem result decoder.new (value_type_at decoder.old) }
{
    let start = decoder.at();
    match decoder.byte() {
        Some(0x7f) => Ok(ValueType::I32),
        Some(0x7e) => Ok(ValueType::I64),
        Some(0x7c | 0x7d) => Err(ReadRefusal::Float(start)),
        _ => Err(ReadRefusal::Malformed(start)),
    }
}

impl Item for ValueType {
    ghost at = { value_type_at };

    fn read(_alloc: Global, decoder: &mut Decoder) -> Result<ValueType, ItemFault> {
        Ok(value_type(decoder)?)
    }
}

impl Item for FunctionType {
    ghost at = { function_type_within_at };

    #[tactic(auto, unfolding(wasm_syntax::specs::laws::ReadingWithin::function_type_within_at))]
    fn read(alloc: Global, decoder: &mut Decoder) -> Result<FunctionType, ItemFault> {
        decoder.expect_byte(0x60)?;
        let parameters = vector_up_to(alloc, decoder, PARAMETERS, ModuleLimit::Parameters)?;
        let results = vector(alloc, decoder)?;
        Ok(FunctionType {
            parameters,
            results,
        })
    }
}

/// Limits, whose minimum is at most so much where that is given. It is judged before a maximum is
/// read.
#[tactic(auto, unfolding(wasm_syntax::specs::laws::ReadingItems::limits_at))]
fn limits(decoder: &mut Decoder, most: Option<u32>) -> Result<Limits, ReadRefusal>
    ensures { TakesItem result decoder.new (limits_up_to_at most decoder.old) }
{
    let start = decoder.at();
    let has_maximum = match decoder.byte() {
        Some(0x00) => false,
        Some(0x01) => true,
        _ => return Err(ReadRefusal::Malformed(start)),
    };
    let minimum_at = decoder.at();
    let minimum = decoder.u32()?;
    if let Some(most) = most
        && minimum > most
    {
        return Err(ReadRefusal::past(ModuleLimit::TableEntries, minimum_at));
    }
    let maximum = if has_maximum {
        Some(decoder.u32()?)
    } else {
        None
    };
    Ok(Limits { minimum, maximum })
}

/// The type of a table, with at most `TABLE_ENTRIES` at first.
pub fn table_type(decoder: &mut Decoder) -> Result<TableType, ReadRefusal>
    ensures { TakesItem result decoder.new (table_type_within_at decoder.old) }
{
    decoder.expect_byte(0x70)?;
    let limits = limits(decoder, Some(TABLE_ENTRIES))?;
    Ok(TableType { limits })
}

impl Item for TableType {
    ghost at = { table_type_within_at };

    fn read(_alloc: Global, decoder: &mut Decoder) -> Result<TableType, ItemFault> {
        Ok(table_type(decoder)?)
    }
}

/// The type of a memory, of any size.
pub fn memory_type(decoder: &mut Decoder) -> Result<MemoryType, ReadRefusal>
    ensures { TakesItem result decoder.new (memory_type_at decoder.old) }
{
    let limits = limits(decoder, None)?;
    Ok(MemoryType { limits })
}

impl Item for MemoryType {
    ghost at = { memory_type_at };

    fn read(_alloc: Global, decoder: &mut Decoder) -> Result<MemoryType, ItemFault> {
        Ok(memory_type(decoder)?)
    }
}

/// Whether a global may be written.
fn mutability(decoder: &mut Decoder) -> Result<Mutability, ReadRefusal>
    ensures { TakesItem result decoder.new (mutability_at decoder.old) }
{
    let start = decoder.at();
    match decoder.byte() {
        Some(0x00) => Ok(Mutability::Constant),
        Some(0x01) => Ok(Mutability::Variable),
        _ => Err(ReadRefusal::Malformed(start)),
    }
}

/// The type of a global.
#[tactic(auto, unfolding(wasm_syntax::specs::laws::ReadingItems::global_type_at))]
pub fn global_type(decoder: &mut Decoder) -> Result<GlobalType, ReadRefusal>
    ensures { TakesItem result decoder.new (global_type_at decoder.old) }
{
    let value_type = value_type(decoder)?;
    let mutability = mutability(decoder)?;
    Ok(GlobalType {
        value_type,
        mutability,
    })
}

impl Item for u32 {
    ghost use Rattle.wasm_syntax.specs.laws.ReadingItems.{leb_u32_at};

    ghost at = { leb_u32_at };

    fn read(_alloc: Global, decoder: &mut Decoder) -> Result<u32, ItemFault> {
        Ok(decoder.u32()?)
    }
}

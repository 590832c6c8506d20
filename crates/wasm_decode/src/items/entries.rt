//! What sections hold (sections 5.5.5 to 5.5.14), but for code.

ghost use Rattle.std.specs.Prelude.{◌≡◌};
ghost use Rattle.wasm_decode.specs.Items.Answers.{GivesItem, TakesItem};
ghost use Rattle.wasm_decode.specs.Items.Entries.{import_item_up_to_at, import_up_to_at};
ghost use Rattle.wasm_syntax.specs.laws.ReadingModules.{export_item_at, export_at};
ghost use Rattle.wasm_syntax.specs.laws.ReadingWithin.{global_within_at, element_within_at};
ghost use Rattle.wasm_syntax.specs.laws.ReadingWithin.{data_within_at};

use crate::items::decoder::Decoder;
use crate::items::expressions::expression;
use crate::items::fault::{ItemFault, ReadRefusal};
use crate::items::item::Item;
use crate::items::limit::ModuleLimit;
use crate::items::types::{global_type, memory_type, table_type};
use crate::items::vectors::{bytes, name, vector};
use std::alloc::Global;
use wasm_syntax::limits::FUNCTIONS;
use wasm_syntax::{
    Data, Element, Export, ExportItem, Global as GlobalVariable, Import, ImportItem,
};

/// What is imported, where so many functions were imported before. One function too many is told
/// before the index of its type is read.
#[tactic(auto, unfolding(wasm_syntax::specs::laws::ReadingWithin::import_item_within_at))]
fn import_item(decoder: &mut Decoder, functions: usize) -> Result<ImportItem, ReadRefusal>
    ensures { TakesItem result decoder.new (import_item_up_to_at functions decoder.old) }
{
    let start = decoder.at();
    match decoder.byte() {
        Some(0x00) if functions >= FUNCTIONS => {
            Err(ReadRefusal::past(ModuleLimit::Functions, start))
        }
        Some(0x00) => Ok(ImportItem::Function(decoder.u32()?)),
        Some(0x01) => Ok(ImportItem::Table(table_type(decoder)?)),
        Some(0x02) => Ok(ImportItem::Memory(memory_type(decoder)?)),
        Some(0x03) => Ok(ImportItem::Global(global_type(decoder)?)),
        _ => Err(ReadRefusal::Malformed(start)),
    }
}

/// An import, where so many functions were imported before.
#[tactic(auto, unfolding(crate::specs::Items::Entries::import_up_to_at))]
pub fn import(alloc: Global, decoder: &mut Decoder, functions: usize) -> Result<Import, ItemFault>
    ensures { GivesItem result decoder.new (import_up_to_at functions decoder.old) }
{
    let module_name = name(alloc, decoder)?;
    let name = name(alloc, decoder)?;
    let item = import_item(decoder, functions)?;
    Ok(Import {
        module_name,
        name,
        item,
    })
}

impl Item for GlobalVariable {
    ghost at = { global_within_at };

    #[tactic(auto, unfolding(wasm_syntax::specs::laws::ReadingWithin::global_within_at))]
    fn read(alloc: Global, decoder: &mut Decoder) -> Result<GlobalVariable, ItemFault> {
        let global_type = global_type(decoder)?;
        let initial = expression(alloc, decoder)?;
        Ok(GlobalVariable {
            global_type,
            initial,
        })
    }
}

#[tactic(auto, unfolding(wasm_syntax::specs::laws::ReadingModules::export_item_at))]
fn export_item(decoder: &mut Decoder) -> Result<ExportItem, ReadRefusal>
    ensures { TakesItem result decoder.new (export_item_at decoder.old) }
{
    let start = decoder.at();
    match decoder.byte() {
        Some(0x00) => Ok(ExportItem::Function(decoder.u32()?)),
        Some(0x01) => Ok(ExportItem::Table(decoder.u32()?)),
        Some(0x02) => Ok(ExportItem::Memory(decoder.u32()?)),
        Some(0x03) => Ok(ExportItem::Global(decoder.u32()?)),
        _ => Err(ReadRefusal::Malformed(start)),
    }
}

impl Item for Export {
    ghost at = { export_at };

    #[tactic(auto, unfolding(wasm_syntax::specs::laws::ReadingModules::export_at))]
    fn read(alloc: Global, decoder: &mut Decoder) -> Result<Export, ItemFault> {
        let name = name(alloc, decoder)?;
        let item = export_item(decoder)?;
        Ok(Export { name, item })
    }
}

impl Item for Element {
    ghost at = { element_within_at };

    #[tactic(auto, unfolding(wasm_syntax::specs::laws::ReadingWithin::element_within_at))]
    fn read(alloc: Global, decoder: &mut Decoder) -> Result<Element, ItemFault> {
        let table = decoder.u32()?;
        let offset = expression(alloc, decoder)?;
        let functions = vector(alloc, decoder)?;
        Ok(Element {
            table,
            offset,
            functions,
        })
    }
}

impl Item for Data {
    ghost at = { data_within_at };

    #[tactic(auto, unfolding(wasm_syntax::specs::laws::ReadingWithin::data_within_at))]
    fn read(alloc: Global, decoder: &mut Decoder) -> Result<Data, ItemFault> {
        let memory = decoder.u32()?;
        let offset = expression(alloc, decoder)?;
        let bytes = bytes(alloc, decoder)?;
        Ok(Data {
            memory,
            offset,
            bytes,
        })
    }
}

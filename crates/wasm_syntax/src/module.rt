//! Modules (section 2.5). Names are bytes of UTF-8, and expressions are opcodes up to and with the
//! `End` that closes them.

use crate::instruction::Instruction;
use crate::item_list::ItemList;
use crate::types::{FunctionType, GlobalType, MemoryType, TableType, ValueType};

/// What a module holds. Custom sections are not kept.
#[derive(Debug, Drop)]
pub struct Module {
    pub types: ItemList<FunctionType>,
    pub imports: ItemList<Import>,
    pub functions: ItemList<Function>,
    pub tables: ItemList<TableType>,
    pub memories: ItemList<MemoryType>,
    pub globals: ItemList<Global>,
    pub exports: ItemList<Export>,
    /// The index of the start function.
    pub start: Option<u32>,
    pub elements: ItemList<Element>,
    pub data_segments: ItemList<Data>,
}

#[derive(Debug, Drop)]
pub struct Import {
    pub module_name: ItemList<u8>,
    pub name: ItemList<u8>,
    pub item: ImportItem,
}

#[derive(Clone, Copy, Debug, PartialEq, Eq)]
pub enum ImportItem {
    /// The index of the function's type.
    Function(u32),
    Table(TableType),
    Memory(MemoryType),
    Global(GlobalType),
}

/// A function of the module itself.
#[derive(Debug, Drop)]
pub struct Function {
    /// The index of its type.
    pub function_type: u32,
    pub code: Code,
}

/// A code entry: the types of the declared locals, after the parameters, and the body.
#[derive(Debug, Drop)]
pub struct Code {
    pub locals: ItemList<ValueType>,
    pub body: ItemList<Instruction>,
}

#[derive(Debug, Drop)]
pub struct Global {
    pub global_type: GlobalType,
    pub initial: ItemList<Instruction>,
}

#[derive(Debug, Drop)]
pub struct Export {
    pub name: ItemList<u8>,
    pub item: ExportItem,
}

/// The index of what is exported.
#[derive(Clone, Copy, Debug, PartialEq, Eq)]
pub enum ExportItem {
    Function(u32),
    Table(u32),
    Memory(u32),
    Global(u32),
}

/// Functions that a table holds from an offset on.
#[derive(Debug, Drop)]
pub struct Element {
    pub table: u32,
    pub offset: ItemList<Instruction>,
    pub functions: ItemList<u32>,
}

/// Bytes that a memory holds from an offset on.
#[derive(Debug, Drop)]
pub struct Data {
    pub memory: u32,
    pub offset: ItemList<Instruction>,
    pub bytes: ItemList<u8>,
}

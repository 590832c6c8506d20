//! Types (section 2.3).

use crate::item_list::ItemList;

#[derive(Clone, Copy, Debug, PartialEq, Eq)]
pub enum ValueType {
    I32,
    I64,
}

/// What a function takes and gives, the first one first.
#[derive(Debug, Drop)]
pub struct FunctionType {
    pub parameters: ItemList<ValueType>,
    pub results: ItemList<ValueType>,
}

/// The size of a table, in entries, or of a memory, in pages of 65,536 bytes: at first and at most.
#[derive(Clone, Copy, Debug, PartialEq, Eq)]
pub struct Limits {
    pub minimum: u32,
    pub maximum: Option<u32>,
}

/// A table of functions.
#[derive(Clone, Copy, Debug, PartialEq, Eq)]
pub struct TableType {
    pub limits: Limits,
}

#[derive(Clone, Copy, Debug, PartialEq, Eq)]
pub struct MemoryType {
    pub limits: Limits,
}

#[derive(Clone, Copy, Debug, PartialEq, Eq)]
pub enum Mutability {
    Constant,
    Variable,
}

#[derive(Clone, Copy, Debug, PartialEq, Eq)]
pub struct GlobalType {
    pub value_type: ValueType,
    pub mutability: Mutability,
}

//! Instructions (section 2.4).

use crate::item_list::ItemList;
use crate::operator::{
    BinaryOperator, Comparison, Conversion, LoadOperator, StoreOperator, UnaryOperator,
};
use crate::types::ValueType;
use crate::value::Value;

/// Where a load or a store goes, beside its operand: the expected alignment as a power of two, and
/// what is added to the operand, in bytes.
#[derive(Clone, Copy, Debug, PartialEq, Eq)]
pub struct MemoryArgument {
    pub align: u32,
    pub offset: u32,
}

/// One opcode with its immediate operands. A body is a list of opcodes in their order, `Else` and
/// `End` included, so that a position in it counts opcodes.
#[derive(Debug, Drop)]
pub enum Instruction {
    Unreachable,
    Nop,
    /// The type of the one value that the block leaves, if it leaves one.
    Block {
        block_type: Option<ValueType>,
    },
    Loop {
        block_type: Option<ValueType>,
    },
    If {
        block_type: Option<ValueType>,
    },
    Else,
    End,
    /// A label counts the blocks around the instruction, the innermost being 0.
    Br {
        label: u32,
    },
    BrIf {
        label: u32,
    },
    BrTable {
        labels: ItemList<u32>,
        default: u32,
    },
    Return,
    Call {
        function: u32,
    },
    /// The index of the type that the called function has to have.
    CallIndirect {
        function_type: u32,
    },
    Drop,
    Select,
    LocalGet {
        local: u32,
    },
    LocalSet {
        local: u32,
    },
    LocalTee {
        local: u32,
    },
    GlobalGet {
        global: u32,
    },
    GlobalSet {
        global: u32,
    },
    Load {
        operator: LoadOperator,
        argument: MemoryArgument,
    },
    Store {
        operator: StoreOperator,
        argument: MemoryArgument,
    },
    MemorySize,
    MemoryGrow,
    /// So many bytes to a place from another one, which may overlap.
    MemoryCopy,
    /// The low byte of a value to so many places from one on.
    MemoryFill,
    Const {
        value: Value,
    },
    /// Whether the operand of this type is zero.
    Eqz {
        value_type: ValueType,
    },
    Compare {
        value_type: ValueType,
        operator: Comparison,
    },
    Unary {
        value_type: ValueType,
        operator: UnaryOperator,
    },
    Binary {
        value_type: ValueType,
        operator: BinaryOperator,
    },
    Convert {
        operator: Conversion,
    },
}

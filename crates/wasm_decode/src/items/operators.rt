//! Operators, by their opcodes (sections 5.4.4 and 5.4.5).

ghost use Rattle.std.specs.Prelude.{◌≡◌, slice_get, option_map};
ghost use Rattle.wasm_syntax.specs.laws.ReadingInstructions.{comparison_of, operation_of, load_of};
ghost use Rattle.wasm_syntax.specs.laws.ReadingInstructions.{store_operator_of};
ghost use Rattle.wasm_syntax.specs.declared.instruction.Instruction.TheVariants as instr;

use wasm_syntax::{
    BinaryOperator, Comparison, Conversion, Instruction, LoadOperator, StoreOperator,
    UnaryOperator, ValueType,
};

/// In the order of their opcodes.
const COMPARISONS: [Comparison; 10] = [
    Comparison::Eq,
    Comparison::Ne,
    Comparison::LtS,
    Comparison::LtU,
    Comparison::GtS,
    Comparison::GtU,
    Comparison::LeS,
    Comparison::LeU,
    Comparison::GeS,
    Comparison::GeU,
];

const UNARY_OPERATORS: [UnaryOperator; 3] = [
    UnaryOperator::Clz,
    UnaryOperator::Ctz,
    UnaryOperator::Popcnt,
];

const BINARY_OPERATORS: [BinaryOperator; 15] = [
    BinaryOperator::Add,
    BinaryOperator::Sub,
    BinaryOperator::Mul,
    BinaryOperator::DivS,
    BinaryOperator::DivU,
    BinaryOperator::RemS,
    BinaryOperator::RemU,
    BinaryOperator::And,
    BinaryOperator::Or,
    BinaryOperator::Xor,
    BinaryOperator::Shl,
    BinaryOperator::ShrS,
    BinaryOperator::ShrU,
    BinaryOperator::Rotl,
    BinaryOperator::Rotr,
];

const NARROW_LOADS: [LoadOperator; 10] = [
    LoadOperator::I32Bits8S,
    LoadOperator::I32Bits8U,
    LoadOperator::I32Bits16S,
    LoadOperator::I32Bits16U,
    LoadOperator::I64Bits8S,
    LoadOperator::I64Bits8U,
    LoadOperator::I64Bits16S,
    LoadOperator::I64Bits16U,
    LoadOperator::I64Bits32S,
    LoadOperator::I64Bits32U,
];

/// The operator at a place of a table.
fn at_place<T: Copy>(table: &[T], place: u8) -> Option<T>
    ensures { result ≡ slice_get table.now place }
{
    table.get(place as usize).copied()
}

/// The operator of a load.
pub fn load_operator(opcode: u8) -> Option<LoadOperator>
    ensures { result ≡ load_of opcode }
{
    match opcode {
        0x28 => Some(LoadOperator::I32),
        0x29 => Some(LoadOperator::I64),
        0x2c..=0x35 => at_place(&NARROW_LOADS, opcode - 0x2c),
        _ => None,
    }
}

/// The operator of a store.
pub fn store_operator(opcode: u8) -> Option<StoreOperator>
    ensures { result ≡ store_operator_of opcode }
{
    match opcode {
        0x36 => Some(StoreOperator::I32),
        0x37 => Some(StoreOperator::I64),
        0x3a => Some(StoreOperator::I32Bits8),
        0x3b => Some(StoreOperator::I32Bits16),
        0x3c => Some(StoreOperator::I64Bits8),
        0x3d => Some(StoreOperator::I64Bits16),
        0x3e => Some(StoreOperator::I64Bits32),
        _ => None,
    }
}

fn compare(value_type: ValueType, place: u8) -> Option<Instruction>
    ensures { result ≡ option_map (instr.Compare value_type) (slice_get COMPARISONS place) }
{
    let operator = at_place(&COMPARISONS, place)?;
    Some(Instruction::Compare {
        value_type,
        operator,
    })
}

fn unary(value_type: ValueType, place: u8) -> Option<Instruction>
    ensures { result ≡ option_map (instr.Unary value_type) (slice_get UNARY_OPERATORS place) }
{
    let operator = at_place(&UNARY_OPERATORS, place)?;
    Some(Instruction::Unary {
        value_type,
        operator,
    })
}

fn binary(value_type: ValueType, place: u8) -> Option<Instruction>
    ensures { result ≡ option_map (instr.Binary value_type) (slice_get BINARY_OPERATORS place) }
{
    let operator = at_place(&BINARY_OPERATORS, place)?;
    Some(Instruction::Binary {
        value_type,
        operator,
    })
}

/// A test or a comparison.
pub fn comparison(opcode: u8) -> Option<Instruction>
    ensures { result ≡ comparison_of opcode }
{
    match opcode {
        0x45 => Some(Instruction::Eqz {
            value_type: ValueType::I32,
        }),
        0x46..=0x4f => compare(ValueType::I32, opcode - 0x46),
        0x50 => Some(Instruction::Eqz {
            value_type: ValueType::I64,
        }),
        0x51..=0x5a => compare(ValueType::I64, opcode - 0x51),
        _ => None,
    }
}

/// An operator from one type to the same, or a conversion.
pub fn operation(opcode: u8) -> Option<Instruction>
    ensures { result ≡ operation_of opcode }
{
    match opcode {
        0x67..=0x69 => unary(ValueType::I32, opcode - 0x67),
        0x6a..=0x78 => binary(ValueType::I32, opcode - 0x6a),
        0x79..=0x7b => unary(ValueType::I64, opcode - 0x79),
        0x7c..=0x8a => binary(ValueType::I64, opcode - 0x7c),
        0xa7 => Some(Instruction::Convert {
            operator: Conversion::I32WrapI64,
        }),
        0xac => Some(Instruction::Convert {
            operator: Conversion::I64ExtendI32S,
        }),
        0xad => Some(Instruction::Convert {
            operator: Conversion::I64ExtendI32U,
        }),
        0xc0 => Some(Instruction::Convert {
            operator: Conversion::I32Extend8S,
        }),
        0xc1 => Some(Instruction::Convert {
            operator: Conversion::I32Extend16S,
        }),
        0xc2 => Some(Instruction::Convert {
            operator: Conversion::I64Extend8S,
        }),
        0xc3 => Some(Instruction::Convert {
            operator: Conversion::I64Extend16S,
        }),
        0xc4 => Some(Instruction::Convert {
            operator: Conversion::I64Extend32S,
        }),
        _ => None,
    }
}

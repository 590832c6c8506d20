//! What loads and stores take and give.

ghost use Rattle.std.specs.Prelude.{◌≡◌, ◌≤◌, ◌^◌, nat_le};
ghost use Rattle.wasm_rules.specs.Types.{loaded_type as type_of_load, loaded_width};
ghost use Rattle.wasm_rules.specs.Types.{stored_type as type_of_store, stored_width};
ghost use Rattle.wasm_rules.specs.Types.{bytes_in, conversion_takes, conversion_gives};

use wasm_syntax::{Conversion, LoadOperator, StoreOperator, ValueType};

pub fn loaded_type(operator: LoadOperator) -> ValueType
    ensures { result ≡ type_of_load operator }
{
    match operator {
        LoadOperator::I32
        | LoadOperator::I32Bits8S
        | LoadOperator::I32Bits8U
        | LoadOperator::I32Bits16S
        | LoadOperator::I32Bits16U => ValueType::I32,
        _ => ValueType::I64,
    }
}

/// How many bytes a load reads.
pub fn loaded_bytes(operator: LoadOperator) -> u32
    ensures { result ≡ bytes_in (loaded_width operator) }
{
    match operator {
        LoadOperator::I32Bits8S
        | LoadOperator::I32Bits8U
        | LoadOperator::I64Bits8S
        | LoadOperator::I64Bits8U => 1,
        LoadOperator::I32Bits16S
        | LoadOperator::I32Bits16U
        | LoadOperator::I64Bits16S
        | LoadOperator::I64Bits16U => 2,
        LoadOperator::I32 | LoadOperator::I64Bits32S | LoadOperator::I64Bits32U => 4,
        LoadOperator::I64 => 8,
    }
}

pub fn stored_type(operator: StoreOperator) -> ValueType
    ensures { result ≡ type_of_store operator }
{
    match operator {
        StoreOperator::I32 | StoreOperator::I32Bits8 | StoreOperator::I32Bits16 => ValueType::I32,
        _ => ValueType::I64,
    }
}

/// How many bytes a store writes.
pub fn stored_bytes(operator: StoreOperator) -> u32
    ensures { result ≡ bytes_in (stored_width operator) }
{
    match operator {
        StoreOperator::I32Bits8 | StoreOperator::I64Bits8 => 1,
        StoreOperator::I32Bits16 | StoreOperator::I64Bits16 => 2,
        StoreOperator::I32 | StoreOperator::I64Bits32 => 4,
        StoreOperator::I64 => 8,
    }
}

/// Whether two to this power is at most the number of bytes, of which there are at most 8.
pub fn is_aligned(align: u32, bytes: u32) -> bool
    requires { bytes ≤ 8 }
    ensures { result ≡ nat_le (2 ^ align) bytes }
{
    align < 4 && (1u32 << align) <= bytes
}

pub fn converted_types(operator: Conversion) -> (ValueType, ValueType)
    ensures { (result.0 ≡ conversion_takes operator) × (result.1 ≡ conversion_gives operator) }
{
    match operator {
        Conversion::I32WrapI64 => (ValueType::I64, ValueType::I32),
        Conversion::I64ExtendI32S | Conversion::I64ExtendI32U => (ValueType::I32, ValueType::I64),
        Conversion::I32Extend8S | Conversion::I32Extend16S => (ValueType::I32, ValueType::I32),
        Conversion::I64Extend8S | Conversion::I64Extend16S | Conversion::I64Extend32S => {
            (ValueType::I64, ValueType::I64)
        }
    }
}

//! Operators: what instructions of one shape differ in (section 2.4), in the order of their
//! opcodes.

/// From one integer to one of the same type.
#[derive(Clone, Copy, Debug, PartialEq, Eq)]
pub enum UnaryOperator {
    Clz,
    Ctz,
    Popcnt,
}

/// From two integers to one of the same type.
#[derive(Clone, Copy, Debug, PartialEq, Eq)]
pub enum BinaryOperator {
    Add,
    Sub,
    Mul,
    DivS,
    DivU,
    RemS,
    RemU,
    And,
    Or,
    Xor,
    Shl,
    ShrS,
    ShrU,
    Rotl,
    Rotr,
}

/// From two integers of one type to a truth value, an i32 of 1 or 0.
#[derive(Clone, Copy, Debug, PartialEq, Eq)]
pub enum Comparison {
    Eq,
    Ne,
    LtS,
    LtU,
    GtS,
    GtU,
    LeS,
    LeU,
    GeS,
    GeU,
}

/// From an integer of one type to one of the other, or from so many low bits of an integer, with
/// their sign, to one of the same type.
#[derive(Clone, Copy, Debug, PartialEq, Eq)]
pub enum Conversion {
    I32WrapI64,
    I64ExtendI32S,
    I64ExtendI32U,
    I32Extend8S,
    I32Extend16S,
    I64Extend8S,
    I64Extend16S,
    I64Extend32S,
}

/// The type of the loaded value, then, where they are fewer than the type's, the bits that are read
/// and whether they are extended with their sign.
#[derive(Clone, Copy, Debug, PartialEq, Eq)]
pub enum LoadOperator {
    I32,
    I64,
    I32Bits8S,
    I32Bits8U,
    I32Bits16S,
    I32Bits16U,
    I64Bits8S,
    I64Bits8U,
    I64Bits16S,
    I64Bits16U,
    I64Bits32S,
    I64Bits32U,
}

/// The type of the stored value, then, where they are fewer than the type's, the low bits that are
/// written.
#[derive(Clone, Copy, Debug, PartialEq, Eq)]
pub enum StoreOperator {
    I32,
    I64,
    I32Bits8,
    I32Bits16,
    I64Bits8,
    I64Bits16,
    I64Bits32,
}

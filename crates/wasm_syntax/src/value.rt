//! Values (section 4.2.1) and traps.

/// A value on the operand stack, in a local or in a global. An integer is its bits: whether it is
/// read with a sign is the operator's choice.
#[derive(Clone, Copy, Debug, PartialEq, Eq)]
pub enum Value {
    I32(u32),
    I64(u64),
}

/// Why an instruction can't be executed. The numbers are those of the process image.
#[derive(Clone, Copy, Debug, PartialEq, Eq)]
pub enum Trap {
    /// `unreachable` was executed.
    Unreachable = 1,
    DivideByZero = 2,
    /// A signed quotient has no representation.
    IntegerOverflow = 3,
    MemoryOutOfBounds = 4,
    /// An indirect call went outside the table.
    UndefinedElement = 5,
    /// An indirect call met an empty table entry.
    UninitializedElement = 6,
    IndirectCallTypeMismatch = 7,
    StackExhausted = 8,
}

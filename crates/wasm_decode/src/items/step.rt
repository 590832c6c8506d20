//! What an instruction does to an expression.

/// Whether the expression goes on after an instruction.
#[derive(Clone, Copy, Debug, PartialEq, Eq)]
pub enum BodyStep {
    GoesOn,
    Closes,
    /// The instruction can't be there.
    Misplaced,
}

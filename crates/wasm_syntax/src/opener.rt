//! What is open inside an expression.

/// What an `end` closes.
#[derive(Clone, Copy, Debug, PartialEq, Eq)]
pub enum Opener {
    /// A block, a loop, or what follows an `else`.
    Unconditional,
    /// An `if`, in which an `else` may be.
    Conditional,
}

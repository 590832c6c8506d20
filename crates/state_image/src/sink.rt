//! Where the bytes of an image go.
//!
//! **A sink is known by one relation of a push.** `Pushes` says that all bytes were pushed, in some
//! pieces, or a prefix of them up to the first refusal. How they are cut is left open.

/// Whoever takes bytes, piece by piece. What a contract says of a sink it says by one relation of
/// each push, `takes`. The pushes of a call follow one another by `Pushes`.
pub trait Sink {
    /// Why a piece was refused.
    type Fault;

    ghost use Rattle.std.specs.Prelude.{ℕ, List, Result};

    // The sink before, the bytes, what it said, and the sink after.
    ghost takes: { Self → List ℕ → Result (Unit {0}) Self.Fault → Self → Type 0 };

    /// Takes these bytes, after those that it has taken before.
    fn push(&mut self, bytes: &[u8]) -> Result<(), Self::Fault>
        ensures { takes self.old bytes.now result self.new };
}

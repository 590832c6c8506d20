//! Where answers come from.
//!
//! # Choices
//!
//! - A source, or an outlet, is known by one relation of four things. Two are its values before and
//!   after a call. The others are the question or the line, and what it answers. No value stores a
//!   history: lists of calls are folded with the relation (`AnswersInOrder`, `Releases`). One list
//!   of both in their order is two such facts (`Exchanges`), since neither knows of the other.

use crate::SourceFault;
use wasi_abi::{Answer, Question};

/// Whoever answers what a process asks of the outside. What a contract says of a source it says by
/// one relation of each call, `gives`; lists of calls are folded with it.
pub trait Source {
    ghost use Rattle.wasi_abi.specs.declared.answer.Question.{Question};
    ghost use Rattle.wasi_abi.specs.declared.answer.Answer.{Answer};
    ghost use Rattle.record_replay.specs.declared.fault.SourceFault.{SourceFault};
    ghost use Rattle.std.specs.Prelude.{Option, Result};

    // The source before, what was asked, what it said, and the source after.
    ghost gives: { Self → Question → Result (Option Answer) SourceFault → Self → Type 0 };

    /// The next answer, or none where there is none yet. Whether it fits what was asked is for the
    /// caller to look at.
    fn answer(&mut self, question: Question) -> Result<Option<Answer>, SourceFault>
        ensures { gives self.old question result self.new };
}

/// What may say of a source whether it would answer at once.
pub trait Readiness {
    /// Whether the next call would return without waiting. A hint: nothing is promised.
    fn is_ready(&self, question: Question) -> bool;
}

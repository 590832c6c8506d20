//! A source of answers that are known beforehand.
//!
//! Answers are handed out owned, so that handing one out takes no memory and can't fail.

ghost use Rattle.std.specs.Prelude.{◌≡◌};

use crate::{Readiness, Source, SourceFault};
use std::collections::VecDeque;
use std::marker::Model;
use wasi_abi::{Answer, Question};

/// Answers that are handed out in their order, whatever is asked for. Contracts see the list of
/// those that are left. It never fails, and handing one out takes no memory.
#[derive(Debug, Drop)]
pub struct AnswerList {
    answers_left: VecDeque<Answer>,
}

impl Model for AnswerList {
    ghost use Rattle.std.specs.Prelude.{List};
    ghost use Rattle.wasi_abi.specs.declared.answer.Answer.{Answer};

    ghost Value = { List Answer };

    ghost view = { λ a. a.answers_left.items };
}

impl AnswerList {
    /// Takes the vector as it is.
    pub fn new(answers: Vec<Answer>) -> Self
        ensures { result ≡ answers.items }
    {
        AnswerList {
            answers_left: VecDeque::from(answers),
        }
    }
}

impl Source for AnswerList {
    ghost use Rattle.record_replay.specs.rules.Lists.{HandsOut};

    ghost gives = { λ old _ said new. HandsOut old said new };

    fn answer(&mut self, _question: Question) -> Result<Option<Answer>, SourceFault> {
        Ok(self.answers_left.pop_front())
    }
}

/// It never waits, also where it has no answer left.
impl Readiness for AnswerList {
    fn is_ready(&self, _question: Question) -> bool {
        true
    }
}

//! A law of scripts. The function does nothing: what it ensures is the law.
//!
//! # Promises
//!
//! - `laws::answers_are_read_back`: a line that says an answer, as `history --story` prints it, is
//!   read as that answer.

ghost use Rattle.story_commands.specs.laws.ReadBack.{AnswersAreReadBack};

/// What a script says of an answer is read as that answer.
pub fn answers_are_read_back()
    ensures { AnswersAreReadBack }
{}

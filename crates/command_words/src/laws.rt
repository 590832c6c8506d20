//! Laws of the command line. The functions do nothing: what they ensure is the law.
//!
//! # Promises
//!
//! - `laws::faultless_words_mean`, `laws::worked_examples`: words without a fault mean an order,
//!   with numbers in their ranges; over a hundred command lines. What `--version` is told of the
//!   program is `version_words` (`HasVersion`).

ghost use Rattle.command_words.specs.laws.Examples.{HelpExamples, MeaningExamples, OptionMistakes};
ghost use Rattle.command_words.specs.laws.Examples.{PathMistakes};
ghost use Rattle.command_words.specs.laws.Words.{FaultlessWordsMean};

/// Command lines, and what they mean.
pub fn worked_examples()
    ensures meanings { MeaningExamples }
    ensures wrong_paths { PathMistakes }
    ensures wrong_options { OptionMistakes }
    ensures help { HelpExamples }
{}

/// Words without a mistake mean an order.
pub fn faultless_words_mean()
    ensures { FaultlessWordsMean }
{}

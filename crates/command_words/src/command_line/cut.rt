//! The words of a creation, cut at the first `--`.

ghost use Rattle.std.specs.Prelude.{◌≡◌, IfOk, codes, map};
ghost use Rattle.std.specs.Str.{bytes_eq};
ghost use Rattle.command_words.specs.rules.Commands.{behind_dashes, before_dashes, guest_words};
ghost use Rattle.command_words.specs.rules.Commands.{is_create, own_words};
ghost use Rattle.command_words.specs.rules.Texts.{texts_in};

use std::alloc::{AllocError, Global};
use std::convert::AsStr;

/// Whether the second word is that of a creation.
fn is_for_create<S: AsStr>(words: &[S]) -> bool
    ensures { result ≡ is_create (map S.text words.now) }
{
    match words {
        [_, command, ..] => command.as_str() == "create",
        _ => false,
    }
}

/// Whether a word is `--`.
fn is_dashes<S: AsStr>(word: &S) -> bool
    ensures { result ≡ bytes_eq (S.text word.now) (codes "--") }
{
    word.as_str() == "--"
}

/// What is in front of the first `--`, and what after it.
fn cut_at_dashes<'a, S: AsStr>(words: &'a [S]) -> (&'a [S], &'a [S])
    ensures front { map S.text result.0.now ≡ before_dashes (map S.text words.entry.now) }
    ensures back { map S.text result.1.now ≡ behind_dashes (map S.text words.entry.now) }
{
    let mut at = 0;
    while at < words.len() {
        if is_dashes(&words[at]) {
            return (&words[..at], &words[at + 1..]);
        }
        at += 1;
    }
    (words, &words[at..])
}

/// The words that the command reads, and those that a creation hands to its guest.
pub(crate) fn cut_words<'a, S: AsStr>(words: &'a [S]) -> (&'a [S], &'a [S])
    ensures own { map S.text result.0.now ≡ own_words (map S.text words.entry.now) }
    ensures guest { map S.text result.1.now ≡ guest_words (map S.text words.entry.now) }
{
    if is_for_create(words) {
        return cut_at_dashes(words);
    }
    (words, &words[..0])
}

/// The texts of words.
pub(crate) fn texts_of<'a, S: AsStr>(
    alloc: Global,
    words: &'a [S],
) -> Result<Vec<&'a str>, AllocError>
    ensures { IfOk result (λ texts. texts_in texts.items ≡ map S.text words.entry.now) }
{
    let mut texts = Vec::new(alloc);
    for word in words {
        texts.push(word.as_str())?;
    }
    Ok(texts)
}

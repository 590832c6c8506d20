//! What of a configuration is out of its bounds.
//!
//! # Choices
//!
//! - **`C1 Range` prints its bounds.** `configure` looks for what is out of them before it asks
//!   `Config::new`, which answers only that something is. Both are proved to have the same bounds.

ghost use Rattle.std.specs.Prelude.{◌≡◌, ◌↔◌, ℕ, List, IfSome, IsNone, IsTrue};
ghost use Rattle.std.specs.List.{AllByRecursion};
ghost use Rattle.wasi_abi.specs.rules.Configs.{IsInRange, IsShortText, settings};
ghost use Rattle.command_words.specs.rules.Bounds.{AreNumbersInRange, IsOutOfBounds, range_words};

use crate::configuring::Sizes;
use wasm_syntax::ItemList;

/// The most pages of a memory.
pub(crate) const PAGES_BOUND: u64 = 256;

/// The most units of files.
const FILES_BOUND: u64 = 64;

/// The fewest sectors of a journal.
const LEAST_SECTORS: u64 = 64;

/// The most sectors of a journal.
const MOST_SECTORS: u64 = 65_536;

/// The most arguments, and the most entries of an environment.
const TEXTS_BOUND: usize = 64;

/// The most bytes of a text.
const TEXT_BOUND: usize = 1024;

/// What of a configuration is out of its bounds.
#[derive(Clone, Copy, Debug, PartialEq, Eq)]
pub enum Bound {
    /// The pages of the guest's memory.
    Pages,
    /// The units of its files.
    Files,
    /// The sectors of the journal.
    Journal,
    /// The count of arguments.
    Arguments,
    /// The length of an argument.
    Argument,
    /// The count of entries of the environment.
    Entries,
    /// The length of such an entry.
    Entry,
}

/// Whether each text is short enough.
fn are_short(texts: &[ItemList<u8>]) -> bool
    ensures { IsTrue result ↔ AllByRecursion IsShortText texts.now }
{
    texts.iter().all(|text| text.len() <= TEXT_BOUND)
}

/// What is out of its bounds among the numbers, if anything is.
fn number_beyond(sizes: Sizes) -> Option<Bound>
    ensures found { (arguments environment : List (List ℕ)) → IfSome result (IsOutOfBounds
        (settings sizes.pages sizes.files sizes.journal arguments environment)) }
    ensures none { IsNone result → AreNumbersInRange sizes }
{
    if !(1..=PAGES_BOUND).contains(&sizes.pages) {
        return Some(Bound::Pages);
    }
    if !(1..=FILES_BOUND).contains(&sizes.files) {
        return Some(Bound::Files);
    }
    if !(LEAST_SECTORS..=MOST_SECTORS).contains(&sizes.journal) {
        return Some(Bound::Journal);
    }
    None
}

/// The first thing that is out of its bounds, if anything is.
pub(crate) fn bound_of(
    sizes: Sizes,
    arguments: &[ItemList<u8>],
    environment: &[ItemList<u8>],
) -> Option<Bound>
    ensures found { IfSome result (IsOutOfBounds (settings sizes.pages sizes.files sizes.journal
        arguments.now environment.now)) }
    ensures none { IsNone result → IsInRange (settings sizes.pages sizes.files sizes.journal
        arguments.now environment.now) }
{
    if let Some(bound) = number_beyond(sizes) {
        return Some(bound);
    }
    if arguments.len() > TEXTS_BOUND {
        return Some(Bound::Arguments);
    }
    if !are_short(arguments) {
        return Some(Bound::Argument);
    }
    if environment.len() > TEXTS_BOUND {
        return Some(Bound::Entries);
    }
    if !are_short(environment) {
        return Some(Bound::Entry);
    }
    None
}

/// What is told of it.
pub(crate) fn words_of_range(bound: Bound) -> &'static str
    ensures { result.now ≡ range_words bound }
{
    match bound {
        Bound::Pages => "failed C1 Range\n--pages is from 1 to 256",
        Bound::Files => "failed C1 Range\n--files is from 1 to 64",
        Bound::Journal => "failed C1 Range\n--journal is from 64 to 65536",
        Bound::Arguments => "failed C1 Range\nat most 63 arguments stand behind --",
        Bound::Argument => "failed C1 Range\nan argument has at most 1024 bytes",
        Bound::Entries => "failed C1 Range\n--env stands at most 64 times",
        Bound::Entry => "failed C1 Range\n--env has at most 1024 bytes",
    }
}

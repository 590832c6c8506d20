//! Arguments that exclude each other.
//!
//! # Promises
//!
//! - `judge_conflict`: PATH beside `--all` of `files` is refused, and nothing else
//!   (`JudgesConflict`).
//!
//! # Choices
//!
//! - **`clap` isn't told of it.** Its contract lists the faults of words only where no argument has
//!   a rule on another one.

ghost use Rattle.std.specs.Prelude.{◌≡◌};
ghost use Rattle.clap.specs.Words.{found_of, rows_of};
ghost use Rattle.command_words.specs.Commands.{JudgesConflict};
ghost use Rattle.command_words.specs.rules.Commands.{has_conflict};

use super::WordsFault;
use super::commands::path_beside_all;
use super::matches::text_of;
use clap::ArgMatches;
use std::alloc::Global;

/// Whether PATH and `--all` of `files` are both there.
fn has_conflict(name: &str, matches: &ArgMatches<'_>) -> bool
    ensures { result ≡ has_conflict (name.now, rows_of (found_of matches.now)) }
{
    let is_files = name == "files";
    let has_path = text_of(matches, "PATH").is_some();
    let has_folder = text_of(matches, "FOLDER").is_some();
    is_files && has_path && has_folder
}

/// Refuses arguments that exclude each other.
pub(crate) fn judge_conflict(
    alloc: Global,
    name: &str,
    matches: &ArgMatches<'_>,
) -> Result<(), WordsFault>
    ensures { JudgesConflict (name.now, rows_of (found_of matches.now)) result }
{
    if !has_conflict(name, matches) {
        return Ok(());
    }
    Err(WordsFault::Words(path_beside_all(alloc)?))
}

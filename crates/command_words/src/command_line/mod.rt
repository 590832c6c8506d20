//! The command line: words in, an order out, or the fault that is told instead (`read_words`).
//!
//! # Promises
//!
//! - `read_words`: an order is exactly what the words mean. A fault is one that the rules of the
//!   command line list for them, or out of memory (`IsReading`).
//!
//! # Choices
//!
//! - **The words of a run are cut at its first `--` before `clap` reads them.** By `clap` alone it
//!   would be a positional that only `--` reaches, and for such a command `clap`'s contract doesn't
//!   say what the words mean. A plain positional of several values would also take words without
//!   `--`.

ghost use Rattle.std.specs.Prelude.{◌≡◌, map};
ghost use Rattle.command_words.specs.rules.Commands.{IsParse, IsReading, IsStatusOf, IsWordsFault};
ghost use Rattle.command_words.specs.declared.command_line.WordsFault.TheVariants as fault;

mod commands;
mod conflicts;
mod cut;
mod matches;

use crate::status::Status;
use clap::error::ErrorKind;
use clap::{ArgMatches, Error};
use commands::command;
use conflicts::judge_conflict;
use cut::{cut_words, texts_of};
use matches::order_of;
use std::alloc::{AllocError, Global};
use std::convert::AsStr;
use std::num::NonZeroU64;
use thiserror::Error as FaultText;

/// What the words say of a check.
#[derive(Clone, Copy, Debug)]
pub struct CheckOrder<'a> {
    /// The file of the module.
    pub path: &'a str,
    /// Pages of 65,536 bytes that its memory may have.
    pub pages: u64,
    /// Whether each import and each function that is in the way is listed.
    pub lists_all: bool,
}

/// What the words say of a creation.
#[derive(Debug, Drop)]
pub struct CreateOrder<'a> {
    /// The file of the disk, which is to be made, or the block device.
    pub disk: &'a str,
    /// The file of the module.
    pub module: &'a str,
    /// Pages of 65,536 bytes that the guest's memory may have.
    pub pages: u64,
    /// Units of 65,536 bytes that all files may have.
    pub files: u64,
    /// Sectors of the journal.
    pub journal: u64,
    /// Entries of the guest's environment, in their order.
    pub environment: Vec<&'a str>,
    /// Whether the disk is a block device that is there.
    pub on_device: bool,
    /// The file of the disk whose worker the new one succeeds.
    pub predecessor: Option<&'a str>,
    /// The guest's arguments after its name.
    pub arguments: Vec<&'a str>,
}

/// What the words say of a run.
#[derive(Debug, Drop)]
pub struct RunOrder<'a> {
    /// The file of the disk.
    pub disk: &'a str,
    /// Steps of a slice.
    pub fuel: NonZeroU64,
    /// Slices between two checkpoints.
    pub every: NonZeroU64,
    /// How many lines one sync may serve, at most 65,536.
    pub batch: NonZeroU64,
    /// What `--seed` says, digits or not.
    pub seed: Option<&'a str>,
    /// The nanoseconds that both clocks show.
    pub clock: Option<u64>,
    /// Whether every sector of the disk is written back first.
    pub rewrites: bool,
    /// The file that says where the worker is.
    pub status: Option<&'a str>,
    /// The file that says the same as metrics.
    pub metrics: Option<&'a str>,
    /// Whether the error output says what a terminal is told.
    pub is_verbose: bool,
    /// The file with a seed.
    pub seed_file: Option<&'a str>,
    /// Whether a last line that lacks its newline isn't taken.
    pub whole_lines: bool,
}

/// What the words say of a story.
#[derive(Debug, Drop)]
pub struct StoryOrder<'a> {
    /// The file of the script.
    pub script: &'a str,
    /// The file of the module.
    pub module: &'a str,
    /// Pages of 65,536 bytes that the guest's memory may have.
    pub pages: u64,
    /// Units of 65,536 bytes that all files may have.
    pub files: u64,
    /// Sectors of the journal.
    pub journal: u64,
}

/// What the words say of a sweep.
#[derive(Debug, Drop)]
pub struct SweepOrder<'a> {
    /// The file of the script.
    pub script: &'a str,
    /// The file of the module.
    pub module: &'a str,
    /// Pages of 65,536 bytes that the guest's memory may have.
    pub pages: u64,
    /// Units of 65,536 bytes that all files may have.
    pub files: u64,
    /// Sectors of the journal.
    pub journal: u64,
    /// What `--fronts` says, numbers or not.
    pub fronts: Option<&'a str>,
    /// The number of the swept life, from 1 on. It is the last one where there is none.
    pub life: Option<u64>,
}

/// What the words ask for of a worker's files.
#[derive(Clone, Copy, Debug)]
pub enum FilesOrder<'a> {
    /// A list of all.
    List,
    /// The bytes of the one at this path.
    File(&'a str),
    /// That all are written into this folder, which is made.
    Tree(&'a str),
}

/// A command with its options, borrowed from the words.
#[derive(Debug, Drop)]
pub enum Order<'a> {
    /// Says whether the module in a file is accepted with so many pages.
    Check(CheckOrder<'a>),
    /// Makes a disk with a fresh worker of a module.
    Create(CreateOrder<'a>),
    /// Runs the worker of a disk, so many steps at a time.
    Run(RunOrder<'a>),
    /// Says where the worker of the disk in this file is. Here and below `is_live` says that the
    /// disk is only looked at, while its worker may run.
    Show {
        path: &'a str,
        is_live: bool,
    },
    /// Says all that is on the disk in this file, one fact a line or as one JSON value.
    Inspect {
        path: &'a str,
        as_json: bool,
        is_live: bool,
    },
    /// Says what is asked for of the files of the worker of the disk in this file.
    Files {
        disk: &'a str,
        asked: FilesOrder<'a>,
        is_live: bool,
    },
    /// Lists the records of the journal of the disk in this file, as lines of their own or as a
    /// script of `story`.
    History {
        path: &'a str,
        as_story: bool,
        is_live: bool,
    },
    /// Brings the worker of the disk in this file to version 2.
    Upgrade {
        path: &'a str,
    },
    /// Copies the disk in this file, a worker's, to a new file.
    Save {
        disk: &'a str,
        copy: &'a str,
        is_live: bool,
    },
    /// Tells the lives of a worker on a disk in memory, as a script says.
    Story(StoryOrder<'a>),
    /// Tells lives with the power cut at each call of the disk in one of them, and compares them.
    Sweep(SweepOrder<'a>),
}

/// Why the words give no order.
#[derive(Debug, Drop, FaultText)]
pub enum WordsFault {
    /// The words are wrong, or ask for help: what to print.
    #[error("{0}")]
    Words(Error),
    #[error("failed N4 Memory")]
    Memory,
}

impl WordsFault {
    /// The exit status: done for help, or what a mistake or out of memory is.
    pub fn status(&self) -> Status
        ensures { IsStatusOf self.now result }
    {
        match self {
            WordsFault::Words(error) if error.use_stderr() => Status::Usage,
            WordsFault::Words(_) => Status::Done,
            WordsFault::Memory => Status::OutOfMemory,
        }
    }
}

impl From<AllocError> for WordsFault {
    ghost from_gives = { λ _ e. e ≡ fault.Memory };

    fn from(_refused: AllocError) -> WordsFault {
        WordsFault::Memory
    }
}

impl From<Error> for WordsFault {
    ghost from_gives = { λ told e. IsWordsFault told e };

    fn from(error: Error) -> WordsFault {
        if error.kind() == ErrorKind::OutOfMemory {
            return WordsFault::Memory;
        }
        WordsFault::Words(error)
    }
}

/// The matches of a command line.
fn matches_of<'a, S: AsStr>(alloc: Global, words: &'a [S]) -> Result<ArgMatches<'a>, WordsFault>
    ensures { IsParse (map S.text words.entry.now) result }
{
    let matches = command(alloc)?.try_get_matches_from(words)?;
    Ok(matches)
}

/// Reads the words of a command line, of which the first is the program's name. Words after the
/// first `--` of a creation are its guest's. Fails with `Words` where they are a mistake or ask for
/// help, and with `Memory` where memory runs out.
pub fn read_words<'a, S: AsStr>(alloc: Global, words: &'a [S]) -> Result<Order<'a>, WordsFault>
    ensures { IsReading (map S.text words.entry.now) result }
{
    let (own, guest) = cut_words(words);
    let matches = matches_of(alloc, own)?;
    let Some((name, inner)) = matches.subcommand() else {
        unreachable!()
    };
    judge_conflict(alloc, name, inner)?;
    let arguments = texts_of(alloc, guest)?;
    let order = order_of(alloc, name, inner, arguments)?;
    Ok(order)
}

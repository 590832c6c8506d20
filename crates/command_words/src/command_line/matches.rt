//! Orders, read from what `clap` has matched.

ghost use Rattle.std.specs.Prelude.{◌≡◌, ◌<◌, ◌≤◌, IfOk, IsSome, Some, codes, option_map};
ghost use Rattle.std.specs.Int.NonZero.{non_zero_u64_get};
ghost use Rattle.clap.specs.Words.{first_of, found_of, rows_of};
ghost use Rattle.command_words.specs.rules.Texts.{texts_in};
ghost use Rattle.command_words.specs.rules.Commands.{TakesFlag, TakesNumber, TakesOptions};
ghost use Rattle.command_words.specs.rules.Commands.{check_in, create_in, create_said};
ghost use Rattle.command_words.specs.rules.Commands.{environment_in, files_in, files_said, flag_in};
ghost use Rattle.command_words.specs.rules.Commands.{live_in, meaning_below, meaning_of};
ghost use Rattle.command_words.specs.rules.Commands.{number_given, number_or, run_in, run_said};
ghost use Rattle.command_words.specs.rules.Commands.{story_in, story_said, sweep_in, sweep_said};
ghost use Rattle.command_words.specs.Commands.{IsTaken};
ghost use Rattle.command_words.specs.declared.command_line.Order.TheVariants.{Check};

use super::{CheckOrder, CreateOrder, FilesOrder, Order, RunOrder, StoryOrder, SweepOrder};
use crate::configuring::{FILES, JOURNAL, PAGES};
use clap::ArgMatches;
use std::alloc::{AllocError, Global};
use std::num::NonZeroU64;

/// The steps of a slice, where no number is given.
const FUEL: u64 = 100_000;

/// The slices between two checkpoints, where no number is given.
const EVERY: u64 = 100;

/// The lines that one sync may serve, where no number is given.
const BATCH: u64 = 1;

/// Pages of 65,536 bytes with which a module is checked, where no number is given.
const CHECK_PAGES: u64 = 256;

/// Pages of 65,536 bytes that the guest of a story or a sweep may have, where no number is given.
const STORY_PAGES: u64 = 1;

/// Units of 65,536 bytes of its files, where no number is given.
const STORY_FILES: u64 = 1;

/// Sectors of its journal, where no number is given.
const STORY_JOURNAL: u64 = 64;

/// The path that is at an argument which has to be given.
fn path_of<'a>(matches: &ArgMatches<'a>, name: &str) -> &'a str
    requires { IsSome (first_of name.now (rows_of (found_of matches.now))) }
    ensures { first_of name.now (rows_of (found_of matches.now)) ≡ Some result.now }
{
    let Some(path) = matches.get_str(name) else {
        unreachable!()
    };
    path
}

/// The number that an option gives, if it is there.
fn number_of(matches: &ArgMatches<'_>, name: &str) -> Option<u64>
    requires { TakesNumber 0 name.now (rows_of (found_of matches.now)) }
    ensures { result ≡ number_given name.now (rows_of (found_of matches.now)) }
{
    matches.get_one::<u64>(name)
}

/// The number from 1 on that an option gives, if it is there.
fn positive_of(matches: &ArgMatches<'_>, name: &str) -> Option<u64>
    requires { TakesNumber 1 name.now (rows_of (found_of matches.now)) }
    ensures { result ≡ number_given name.now (rows_of (found_of matches.now)) }
{
    matches.get_one::<u64>(name)
}

/// The number that an option gives, or another one.
fn number_or_else(matches: &ArgMatches<'_>, name: &str, other: u64) -> u64
    requires { TakesNumber 0 name.now (rows_of (found_of matches.now)) }
    ensures { result ≡ number_or name.now other (rows_of (found_of matches.now)) }
{
    matches.get_one::<u64>(name).unwrap_or(other)
}

/// The number from 1 on that an option gives, or another one.
fn positive_or_else(matches: &ArgMatches<'_>, name: &str, other: u64) -> NonZeroU64
    requires from_one { TakesNumber 1 name.now (rows_of (found_of matches.now)) }
    requires positive { 1 ≤ other }
    ensures { non_zero_u64_get result
        ≡ number_or name.now other (rows_of (found_of matches.now)) }
{
    let given = matches.get_one::<u64>(name).unwrap_or(other);
    let Some(positive) = NonZeroU64::new(given) else {
        unreachable!()
    };
    positive
}

/// Whether a flag is there.
fn flag_of(matches: &ArgMatches<'_>, name: &str) -> bool
    requires { TakesFlag name.now (rows_of (found_of matches.now)) }
    ensures { result ≡ flag_in name.now (rows_of (found_of matches.now)) }
{
    matches.get_flag(name)
}

/// Whether `--live` is there.
fn live_of(matches: &ArgMatches<'_>) -> bool
    requires { TakesFlag (codes "live") (rows_of (found_of matches.now)) }
    ensures { result ≡ live_in (rows_of (found_of matches.now)) }
{
    flag_of(matches, "live")
}

/// The text that an option or an argument gives, if it is there.
pub(crate) fn text_of<'a>(matches: &ArgMatches<'a>, name: &str) -> Option<&'a str>
    ensures { option_map (λ text. text.now) result
        ≡ first_of name.now (rows_of (found_of matches.now)) }
{
    matches.get_str(name)
}

/// What `--env` says each time, in order.
fn environment_of<'a>(alloc: Global, matches: &ArgMatches<'a>) -> Result<Vec<&'a str>, AllocError>
    ensures { IfOk result (λ entries. texts_in entries.items
        ≡ environment_in (rows_of (found_of matches.now))) }
{
    match matches.get_strs("env") {
        Some(entries) => Vec::from_slice(alloc, entries),
        None => Ok(Vec::new(alloc)),
    }
}

/// The order of a check.
fn check_of<'a>(matches: &ArgMatches<'a>, path: &'a str) -> CheckOrder<'a>
    requires { TakesOptions (rows_of (found_of matches.now)) }
    ensures { meaning_of (Check result)
        ≡ check_in (rows_of (found_of matches.now)) path.now }
{
    CheckOrder {
        path,
        pages: number_or_else(matches, "pages", CHECK_PAGES),
        lists_all: flag_of(matches, "all"),
    }
}

/// The order of a creation, from what was read in front of `--`, and with the words after it.
fn create_of<'a>(
    alloc: Global,
    matches: &ArgMatches<'a>,
    disk: &'a str,
    module: &'a str,
    arguments: Vec<&'a str>,
) -> Result<CreateOrder<'a>, AllocError>
    requires { TakesOptions (rows_of (found_of matches.now)) }
    ensures { IfOk result (λ order. create_said order ≡ create_in
        (rows_of (found_of matches.now)) (texts_in arguments.entry.items) disk.now «module».now) }
{
    Ok(CreateOrder {
        disk,
        module,
        pages: number_or_else(matches, "pages", PAGES),
        files: number_or_else(matches, "files", FILES),
        journal: number_or_else(matches, "journal", JOURNAL),
        environment: environment_of(alloc, matches)?,
        on_device: flag_of(matches, "device"),
        predecessor: text_of(matches, "from"),
        arguments,
    })
}

/// The order of a run.
fn run_of<'a>(matches: &ArgMatches<'a>, disk: &'a str) -> RunOrder<'a>
    requires { TakesOptions (rows_of (found_of matches.now)) }
    ensures { run_said result ≡ run_in (rows_of (found_of matches.now)) disk.now }
{
    RunOrder {
        disk,
        fuel: positive_or_else(matches, "fuel", FUEL),
        every: positive_or_else(matches, "every", EVERY),
        batch: positive_or_else(matches, "batch", BATCH),
        seed: text_of(matches, "seed"),
        clock: number_of(matches, "clock"),
        rewrites: flag_of(matches, "rewrite"),
        status: text_of(matches, "status"),
        metrics: text_of(matches, "metrics"),
        is_verbose: flag_of(matches, "verbose"),
        seed_file: text_of(matches, "seed-file"),
        whole_lines: flag_of(matches, "whole-lines"),
    }
}

/// What is asked for of files, where not both PATH and `--all` are there.
fn files_of<'a>(matches: &ArgMatches<'a>) -> FilesOrder<'a>
    ensures { files_said result ≡ files_in (rows_of (found_of matches.now)) }
{
    if let Some(folder) = text_of(matches, "FOLDER") {
        return FilesOrder::Tree(folder);
    }
    match text_of(matches, "PATH") {
        Some(path) => FilesOrder::File(path),
        None => FilesOrder::List,
    }
}

/// The order of a story.
fn story_of<'a>(matches: &ArgMatches<'a>, script: &'a str, module: &'a str) -> StoryOrder<'a>
    requires { TakesOptions (rows_of (found_of matches.now)) }
    ensures { story_said result
        ≡ story_in (rows_of (found_of matches.now)) script.now «module».now }
{
    StoryOrder {
        script,
        module,
        pages: number_or_else(matches, "pages", STORY_PAGES),
        files: number_or_else(matches, "files", STORY_FILES),
        journal: number_or_else(matches, "journal", STORY_JOURNAL),
    }
}

/// The order of a sweep.
fn sweep_of<'a>(matches: &ArgMatches<'a>, script: &'a str, module: &'a str) -> SweepOrder<'a>
    requires { TakesOptions (rows_of (found_of matches.now)) }
    ensures { sweep_said result
        ≡ sweep_in (rows_of (found_of matches.now)) script.now «module».now }
{
    SweepOrder {
        script,
        module,
        pages: number_or_else(matches, "pages", STORY_PAGES),
        files: number_or_else(matches, "files", STORY_FILES),
        journal: number_or_else(matches, "journal", STORY_JOURNAL),
        fronts: text_of(matches, "fronts"),
        life: positive_of(matches, "life"),
    }
}

/// The order of a command, from what was read in front of `--`, and with the words after it.
pub(crate) fn order_of<'a>(
    alloc: Global,
    name: &str,
    matches: &ArgMatches<'a>,
    arguments: Vec<&'a str>,
) -> Result<Order<'a>, AllocError>
    requires { IsTaken (name.now, rows_of (found_of matches.now)) }
    ensures { IfOk result (λ order. meaning_below (texts_in arguments.entry.items)
        (name.now, rows_of (found_of matches.now)) ≡ Some (meaning_of order)) }
{
    match name {
        "check" => Ok(Order::Check(check_of(matches, path_of(matches, "MODULE")))),
        "create" => {
            let disk = path_of(matches, "DISK");
            let module = path_of(matches, "MODULE");
            Ok(Order::Create(create_of(alloc, matches, disk, module, arguments)?))
        }
        "run" => Ok(Order::Run(run_of(matches, path_of(matches, "DISK")))),
        "show" => Ok(Order::Show {
            path: path_of(matches, "DISK"),
            is_live: live_of(matches),
        }),
        "inspect" => Ok(Order::Inspect {
            path: path_of(matches, "DISK"),
            as_json: flag_of(matches, "json"),
            is_live: live_of(matches),
        }),
        "files" => Ok(Order::Files {
            disk: path_of(matches, "DISK"),
            asked: files_of(matches),
            is_live: live_of(matches),
        }),
        "history" => Ok(Order::History {
            path: path_of(matches, "DISK"),
            as_story: flag_of(matches, "story"),
            is_live: live_of(matches),
        }),
        "upgrade" => Ok(Order::Upgrade {
            path: path_of(matches, "DISK"),
        }),
        "save" => Ok(Order::Save {
            disk: path_of(matches, "DISK"),
            copy: path_of(matches, "COPY"),
            is_live: live_of(matches),
        }),
        "story" => {
            let script = path_of(matches, "SCRIPT");
            let wasm = path_of(matches, "MODULE");
            Ok(Order::Story(story_of(matches, script, wasm)))
        }
        _ => Ok(Order::Sweep(sweep_of(
            matches,
            path_of(matches, "SCRIPT"),
            path_of(matches, "MODULE"),
        ))),
    }
}

//! The commands of the program, as `clap` is told of them.

ghost use Rattle.std.specs.Prelude.{◌≡◌, IfOk, codes};
ghost use Rattle.clap.specs.Words.{kind_of};
ghost use Rattle.command_words.specs.CommandLine.{HasVersion, IsArgument, IsCommand, version_words};
ghost use Rattle.command_words.specs.rules.CommandLine.{bare_app, bare_create_app, bare_script_app};
ghost use Rattle.command_words.specs.rules.CommandLine.{check_app, create_app, disk_app, disks_app};
ghost use Rattle.command_words.specs.rules.CommandLine.{env_rule, files_app, flag_rule};
ghost use Rattle.command_words.specs.rules.CommandLine.{folder_rule, half_app, live_rule};
ghost use Rattle.command_words.specs.rules.CommandLine.{cares_app, history_app, save_app};
ghost use Rattle.command_words.specs.rules.CommandLine.{inspect_app, last_rule, looks_app};
ghost use Rattle.command_words.specs.rules.CommandLine.{number_rule, paced_run_app, path_rule};
ghost use Rattle.command_words.specs.rules.CommandLine.{range_rule, run_app, script_app};
ghost use Rattle.command_words.specs.rules.CommandLine.{seeded_run_app, show_app, sized_create_app};
ghost use Rattle.command_words.specs.rules.CommandLine.{story_app, sweep_app, text_rule};
ghost use Rattle.command_words.specs.rules.CommandLine.{upgrade_app, wasmhost, watched_run_app};

use clap::error::ErrorKind;
use clap::{Arg, ArgAction, Command, Error, value_parser};
use std::alloc::{AllocError, Global};

/// What `--version` says: the version of the program, of the disks that it makes, and the kit.
const VERSION: &str = "0.1.0, disk layout 1, logic dac8208d650f15bf";

/// What MODULE is.
const MODULE: &str = "File of the WebAssembly module";

/// What DISK is, where its worker is there already.
const WORKER_DISK: &str = "File of the disk";

/// What `--live` says.
const LIVE: &str = "Only look at the disk, while its worker may run";

/// What is said of PATH beside `--all`.
const PATH_BESIDE_ALL: &str = "the argument '--all <FOLDER>' cannot be used with '[PATH]'";

/// How requests are given to a run.
const REQUESTS: &str = "\
Requests are lines of the standard input. N r TEXT is request N, from 1 on, and N e the end
of all requests. For example: 1 r hello";

/// What comes before an upgrade, and what it isn't.
const LINES_FIRST: &str = "\
It prints the lines that the worker owes, and then a line of its own. To keep the worker's lines
with the others, first: wasmhost run DISK </dev/null >>LINES
New code is no upgrade: wasmhost create NEW MODULE --from DISK";

/// A path, which has to be given.
fn path_argument<'a>(alloc: Global, name: &'a str, help: &'a str) -> Arg<'a>
    ensures { IsArgument (path_rule name.entry.now) result }
{
    Arg::new(alloc, name)
        .help(help)
        .required(true)
        .action(ArgAction::Set)
}

/// A path, which may be given after others.
fn last_argument<'a>(alloc: Global, name: &'a str, help: &'a str) -> Arg<'a>
    ensures { IsArgument (last_rule name.entry.now) result }
{
    Arg::new(alloc, name).help(help).action(ArgAction::Set)
}

/// An option with any number of 64 bits.
fn number_option<'a>(alloc: Global, name: &'a str, help: &'a str) -> Arg<'a>
    ensures { IsArgument (number_rule name.entry.now 0) result }
{
    Arg::new(alloc, name)
        .long(name)
        .help(help)
        .value_name("N")
        .value_parser(value_parser!(u64))
}

/// An option with a number from 1 on.
fn positive_option<'a>(alloc: Global, name: &'a str, help: &'a str) -> Arg<'a>
    ensures { IsArgument (number_rule name.entry.now 1) result }
{
    Arg::new(alloc, name)
        .long(name)
        .help(help)
        .value_name("N")
        .value_parser(value_parser!(u64).range(1..))
}

/// The option `--batch`, with a number from 1 to 65,536.
fn batch_option<'a>(alloc: Global) -> Arg<'a>
    ensures { IsArgument (range_rule (codes "batch") 1 65536) result }
{
    Arg::new(alloc, "batch")
        .long("batch")
        .help("Lines that one sync may serve, default 1")
        .value_name("N")
        .value_parser(value_parser!(u64).range(1..=65_536))
}

/// An option with any text.
fn text_option<'a>(alloc: Global, name: &'a str, value_name: &'a str, help: &'a str) -> Arg<'a>
    ensures { IsArgument (text_rule name.entry.now) result }
{
    Arg::new(alloc, name)
        .long(name)
        .help(help)
        .value_name(value_name)
}

/// An option without a value.
fn flag<'a>(alloc: Global, name: &'a str, help: &'a str) -> Arg<'a>
    ensures { IsArgument (flag_rule name.entry.now) result }
{
    Arg::new(alloc, name)
        .long(name)
        .help(help)
        .action(ArgAction::SetTrue)
}

/// The flag `--live`.
fn live_flag<'a>(alloc: Global) -> Arg<'a>
    ensures { IsArgument live_rule result }
{
    flag(alloc, "live", LIVE)
}

/// The option `--all` of `files`, with the path of a folder.
fn folder_option<'a>(alloc: Global) -> Arg<'a>
    ensures { IsArgument folder_rule result }
{
    Arg::new(alloc, "FOLDER")
        .long("all")
        .help("Write all folders and files of the worker into this new folder")
        .value_name("FOLDER")
}

/// The option `--env`, which may be repeated.
fn env_option<'a>(alloc: Global) -> Arg<'a>
    ensures { IsArgument env_rule result }
{
    Arg::new(alloc, "env")
        .long("env")
        .help("An entry of the guest's environment; may be repeated")
        .value_name("NAME=VALUE")
        .action(ArgAction::Append)
}

fn check_command<'a>(alloc: Global) -> Result<Command<'a>, AllocError>
    ensures { IfOk result (IsCommand check_app) }
{
    let pages = "Pages of 65536 bytes that its memory may have, default 256";
    let all = "List each import and each function that is in the way";
    Command::new(alloc, "check")
        .about("Say whether a module is accepted")
        .arg(path_argument(alloc, "MODULE", MODULE))?
        .arg(number_option(alloc, "pages", pages))?
        .arg(flag(alloc, "all", all))
}

/// A command with the path of a disk.
fn disk_command<'a>(
    alloc: Global,
    name: &'a str,
    about: &'a str,
    disk: &'a str,
) -> Result<Command<'a>, AllocError>
    ensures { IfOk result (IsCommand (disk_app name.entry.now)) }
{
    Command::new(alloc, name)
        .about(about)
        .arg(path_argument(alloc, "DISK", disk))
}

/// The command `create`, with its paths.
fn bare_create_command<'a>(alloc: Global) -> Result<Command<'a>, AllocError>
    ensures { IfOk result (IsCommand bare_create_app) }
{
    let about = "Make a disk with a fresh worker; arguments after -- go to the worker";
    let disk = "File of the disk, which must not be there yet";
    disk_command(alloc, "create", about, disk)?
        .override_usage("wasmhost create [OPTIONS] <DISK> <MODULE> [-- ARG..]")
        .arg(path_argument(alloc, "MODULE", MODULE))
}

/// The same with the options `--pages`, `--files` and `--journal`.
fn sized_create_command<'a>(alloc: Global) -> Result<Command<'a>, AllocError>
    ensures { IfOk result (IsCommand sized_create_app) }
{
    let pages = "Pages of 65536 bytes of its memory, default 16";
    let files = "Units of 65536 bytes of its files, default 16";
    let journal = "Sectors of its journal, default 256";
    bare_create_command(alloc)?
        .arg(number_option(alloc, "pages", pages))?
        .arg(number_option(alloc, "files", files))?
        .arg(number_option(alloc, "journal", journal))
}

fn create_command<'a>(alloc: Global) -> Result<Command<'a>, AllocError>
    ensures { IfOk result (IsCommand create_app) }
{
    let device = "DISK is a block device, whose first sectors are overwritten";
    let from = "Disk of the worker whose files and numbers the new one goes on from";
    sized_create_command(alloc)?
        .arg(env_option(alloc))?
        .arg(flag(alloc, "device", device))?
        .arg(text_option(alloc, "from", "OLD", from))
}

/// The command `run`, with its path and the options `--fuel`, `--every` and `--batch`.
fn paced_run_command<'a>(alloc: Global) -> Result<Command<'a>, AllocError>
    ensures { IfOk result (IsCommand paced_run_app) }
{
    let about = "Run the worker of a disk: request lines in, its lines out";
    let fuel = "Steps of a slice, default 100000";
    let every = "Slices between two checkpoints, default 100";
    disk_command(alloc, "run", about, WORKER_DISK)?
        .after_help(REQUESTS)
        .arg(positive_option(alloc, "fuel", fuel))?
        .arg(positive_option(alloc, "every", every))?
        .arg(batch_option(alloc))
}

/// The same with the options `--seed` and `--clock`.
fn seeded_run_command<'a>(alloc: Global) -> Result<Command<'a>, AllocError>
    ensures { IfOk result (IsCommand seeded_run_app) }
{
    let seed = "Seed of random bytes, 64 hexadecimal digits; default zeros";
    let clock = "Nanoseconds of both clocks, default the machine's time";
    paced_run_command(alloc)?
        .arg(text_option(alloc, "seed", "HEX", seed))?
        .arg(number_option(alloc, "clock", clock))
}

/// The same with the options `--rewrite`, `--status` and `--metrics`.
fn watched_run_command<'a>(alloc: Global) -> Result<Command<'a>, AllocError>
    ensures { IfOk result (IsCommand watched_run_app) }
{
    let rewrite = "Write every sector back first, after a disk fault";
    let status = "File that says where the worker is, kept current";
    let metrics = "File that says it as Prometheus metrics";
    seeded_run_command(alloc)?
        .arg(flag(alloc, "rewrite", rewrite))?
        .arg(text_option(alloc, "status", "FILE", status))?
        .arg(text_option(alloc, "metrics", "FILE", metrics))
}

fn run_command<'a>(alloc: Global) -> Result<Command<'a>, AllocError>
    ensures { IfOk result (IsCommand run_app) }
{
    let verbose = "Say on the error output what a terminal is told";
    let seed_file = "File with the seed, in place of --seed";
    let whole_lines = "Don't take a last line that lacks its newline";
    watched_run_command(alloc)?
        .arg(flag(alloc, "verbose", verbose))?
        .arg(text_option(alloc, "seed-file", "FILE", seed_file))?
        .arg(flag(alloc, "whole-lines", whole_lines))
}

fn show_command<'a>(alloc: Global) -> Result<Command<'a>, AllocError>
    ensures { IfOk result (IsCommand show_app) }
{
    let about = "Say where the worker of a disk stands";
    disk_command(alloc, "show", about, WORKER_DISK)?.arg(live_flag(alloc))
}

fn inspect_command<'a>(alloc: Global) -> Result<Command<'a>, AllocError>
    ensures { IfOk result (IsCommand inspect_app) }
{
    let about = "Say all that stands on a disk, one fact a line";
    let json = "Say it as one JSON value";
    disk_command(alloc, "inspect", about, WORKER_DISK)?
        .arg(flag(alloc, "json", json))?
        .arg(live_flag(alloc))
}

fn files_command<'a>(alloc: Global) -> Result<Command<'a>, AllocError>
    ensures { IfOk result (IsCommand files_app) }
{
    let about = "List the files of the worker of a disk, or write one or all of them";
    let path = "Path of the file to write, as it is listed";
    disk_command(alloc, "files", about, WORKER_DISK)?
        .arg(last_argument(alloc, "PATH", path))?
        .arg(folder_option(alloc))?
        .arg(live_flag(alloc))
}

/// The error that PATH is there beside `--all`.
pub(crate) fn path_beside_all(alloc: Global) -> Result<Error, AllocError>
    ensures { IfOk result (λ told. kind_of told ≡ ErrorKind.ArgumentConflict) }
{
    let usage = "wasmhost files [OPTIONS] <DISK> [PATH]";
    let mut files = files_command(alloc)?.override_usage(usage);
    files.error(ErrorKind::ArgumentConflict, PATH_BESIDE_ALL)
}

fn history_command<'a>(alloc: Global) -> Result<Command<'a>, AllocError>
    ensures { IfOk result (IsCommand history_app) }
{
    let about = "List what the worker of a disk was given since its newest snapshot";
    let story = "List it as a script for story";
    disk_command(alloc, "history", about, WORKER_DISK)?
        .arg(flag(alloc, "story", story))?
        .arg(live_flag(alloc))
}

fn upgrade_command<'a>(alloc: Global) -> Result<Command<'a>, AllocError>
    ensures { IfOk result (IsCommand upgrade_app) }
{
    let about = "Bring the worker of a disk to version 2, with texts of 65536 bytes";
    Ok(disk_command(alloc, "upgrade", about, WORKER_DISK)?.after_help(LINES_FIRST))
}

fn save_command<'a>(alloc: Global) -> Result<Command<'a>, AllocError>
    ensures { IfOk result (IsCommand save_app) }
{
    let about = "Copy the disk of a worker to a new file";
    let copy = "Path of the new file";
    disk_command(alloc, "save", about, WORKER_DISK)?
        .arg(path_argument(alloc, "COPY", copy))?
        .arg(live_flag(alloc))
}

/// A command with the paths of a script and of a module.
fn bare_script_command<'a>(
    alloc: Global,
    name: &'a str,
    about: &'a str,
) -> Result<Command<'a>, AllocError>
    ensures { IfOk result (IsCommand (bare_script_app name.entry.now)) }
{
    Command::new(alloc, name)
        .about(about)
        .arg(path_argument(alloc, "SCRIPT", "File of the script"))?
        .arg(path_argument(alloc, "MODULE", MODULE))
}

/// The same with the options `--pages`, `--files` and `--journal`.
fn script_command<'a>(
    alloc: Global,
    name: &'a str,
    about: &'a str,
) -> Result<Command<'a>, AllocError>
    ensures { IfOk result (IsCommand (script_app name.entry.now)) }
{
    let pages = "Pages of 65536 bytes of its memory, default 1";
    let files = "Units of 65536 bytes of its files, default 1";
    let journal = "Sectors of its journal, default 64";
    bare_script_command(alloc, name, about)?
        .arg(number_option(alloc, "pages", pages))?
        .arg(number_option(alloc, "files", files))?
        .arg(number_option(alloc, "journal", journal))
}

fn story_command<'a>(alloc: Global) -> Result<Command<'a>, AllocError>
    ensures { IfOk result (IsCommand story_app) }
{
    let about = "Tell the lives of a worker on a disk in memory, as a script says";
    script_command(alloc, "story", about)
}

fn sweep_command<'a>(alloc: Global) -> Result<Command<'a>, AllocError>
    ensures { IfOk result (IsCommand sweep_app) }
{
    let about = "Cut the power at each call of the disk in a script's life, and compare the lines";
    let fronts = "Bytes that a cut leaves of a write, default 0,1,256,511,512";
    let life = "Number of the life that is cut, default the last one";
    script_command(alloc, "sweep", about)?
        .arg(text_option(alloc, "fronts", "N,N,..", fronts))?
        .arg(positive_option(alloc, "life", life))
}

/// The program, without its commands.
fn bare_command<'a>(alloc: Global) -> Command<'a>
    ensures command { IsCommand bare_app result }
    ensures version { HasVersion version_words result }
{
    Command::new(alloc, "wasmhost")
        .about("Durable WebAssembly workers")
        .version(VERSION)
        .subcommand_required(true)
}

/// The program, with the commands for modules.
fn half_command<'a>(alloc: Global) -> Result<Command<'a>, AllocError>
    ensures { IfOk result (IsCommand half_app) }
{
    bare_command(alloc)
        .subcommand(check_command(alloc)?)?
        .subcommand(create_command(alloc)?)
}

/// The program, with the commands for modules and for disks.
fn disks_command<'a>(alloc: Global) -> Result<Command<'a>, AllocError>
    ensures { IfOk result (IsCommand disks_app) }
{
    half_command(alloc)?
        .subcommand(run_command(alloc)?)?
        .subcommand(show_command(alloc)?)
}

/// The program, with the commands that look into a disk, too.
fn looks_command<'a>(alloc: Global) -> Result<Command<'a>, AllocError>
    ensures { IfOk result (IsCommand looks_app) }
{
    disks_command(alloc)?
        .subcommand(inspect_command(alloc)?)?
        .subcommand(files_command(alloc)?)?
        .subcommand(history_command(alloc)?)
}

/// The program with the commands that upgrade and copy a disk, too.
fn cares_command<'a>(alloc: Global) -> Result<Command<'a>, AllocError>
    ensures { IfOk result (IsCommand cares_app) }
{
    looks_command(alloc)?
        .subcommand(upgrade_command(alloc)?)?
        .subcommand(save_command(alloc)?)
}

/// The program, with all its commands.
pub(crate) fn command<'a>(alloc: Global) -> Result<Command<'a>, AllocError>
    ensures { IfOk result (IsCommand wasmhost) }
{
    cares_command(alloc)?
        .subcommand(story_command(alloc)?)?
        .subcommand(sweep_command(alloc)?)
}

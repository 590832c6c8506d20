//! What a creation needs, looked at before its disk is made.
//!
//! # Promises
//!
//! - `prepare`: an error says that the configuration is out of its limits, that the module isn't
//!   accepted, or that memory ran out (`refused`). Else the module is accepted with the pages of
//!   the configuration, and the sectors are those that its worker needs (`prepared`). No disk is
//!   known here, so the program refuses a module before it makes one.
//! - `report_unprepared` answers the status of what it tells, or `Unwritten`. Told are the bounds
//!   of what is out of them (`range`), and which entry of an environment has no name (`entry`). Of
//!   a module the limit that it passes is told with its place (`limit`), and what else is known of
//!   it (`more`).

ghost use Rattle.std.specs.Prelude.{◌≡◌, ◌<◌, ◌≤◌, ◌^◌, IfErr, IfOk, OnErr, OnOk, Some, codes};
ghost use Rattle.std.specs.Prelude.{length, true, ℕ};
ghost use Rattle.wasi_abi.specs.rules.Configs.{AreSettingsWithinLimits};
ghost use Rattle.machine.specs.rules.Acceptance.{HasAcceptedModule, passed_in};
ghost use Rattle.wasm_decode.specs.declared.items.limit.PassedLimit.{PassedLimit};
ghost use Rattle.command_words.specs.rules.Texts.{texts_in};
ghost use Rattle.command_words.specs.rules.Preparations.{IsMeasured, IsPreparedAs, IsUnaccepted};
ghost use Rattle.command_words.specs.rules.Preparations.{IsUnprepared, config_as, disk_sectors};
ghost use Rattle.command_words.specs.rules.Preparations.{passed_by, status_unprepared};
ghost use Rattle.command_words.specs.Preparations.{prepared_with};
ghost use Rattle.command_words.specs.rules.Bounds.{range_words};
ghost use Rattle.command_words.specs.rules.Entries.{entry_text};
ghost use Rattle.command_words.specs.rules.ModuleLimits.{SaysLimit};
ghost use Rattle.command_words.specs.rules.Printers.{IsSaid, SaysText};
ghost use Rattle.command_words.specs.rules.Reports.{SaysLine};
ghost use Rattle.command_words.specs.rules.Verdicts.{EndsWithMore, SaysMore};
ghost use Rattle.command_words.specs.declared.bounds.Bound.{Bound};
ghost use Rattle.command_words.specs.declared.status.Status.TheVariants as exit;
ghost use Rattle.machine.specs.declared.from_bytes.fault.ModuleFault.{ModuleFault};

use crate::bounds::{Bound, words_of_range};
use crate::configuring::{Sizes, Unconfigured, configure};
use crate::module_limits::print_limit;
use crate::printer::Printer;
use crate::status::Status;
use crate::telling::say_line;
use crate::verdicts::print_more;
use disk_layout::Geometry;
use machine::{ModuleFault, accept};
use std::alloc::Global;
use std::io::{self, Write};
use thiserror::Error;
use wasi_abi::Config;
use wasm_decode::PassedLimit;

/// What a worker is created with.
#[derive(Debug, Drop)]
pub struct Prepared {
    /// The configuration of the worker.
    pub config: Config,
    /// How many sectors its disk needs.
    pub sectors: u64,
}

/// Why no worker is created.
#[derive(Clone, Copy, Debug, PartialEq, Eq, Error)]
pub enum Unprepared {
    /// A number, a count or a length of the configuration is out of its bounds.
    #[error("failed C1 Range")]
    Range(Bound),
    /// A text of it has a zero byte, or an entry of its environment has no name: the first such one
    /// has this number, from 1 on.
    #[error("failed C2 Text")]
    Text(Option<usize>),
    /// The module isn't accepted.
    #[error("failed {0}")]
    Module(ModuleFault),
    #[error("failed N4 Memory")]
    Memory,
}

impl Unprepared {
    /// The exit status.
    fn status(self) -> Status
        ensures { result ≡ status_unprepared self }
    {
        match self {
            Unprepared::Range(_) | Unprepared::Text(_) | Unprepared::Module(_) => Status::Refused,
            Unprepared::Memory => Status::OutOfMemory,
        }
    }
}

/// Whether the bytes spell a module that is accepted with so many pages.
fn judge(alloc: Global, wasm: &[u8], pages: u32) -> Result<(), Unprepared>
    requires { pages ≤ 2 ^ 16 }
    ensures accepted { OnOk result (HasAcceptedModule pages wasm.now) }
    ensures refused { IfErr result (IsUnaccepted pages wasm.now) }
{
    match accept(alloc, wasm, pages) {
        Ok(machine) => {
            drop(machine);
            Ok(())
        }
        Err(fault) if fault.is_want_of_memory() => Err(Unprepared::Memory),
        Err(fault) => Err(Unprepared::Module(fault)),
    }
}

/// How many sectors the disk of a worker of these bytes needs.
pub fn sectors_of(config: &Config, wasm: &[u8]) -> u64
    requires { length wasm.now < 2 ^ 32 }
    ensures { result ≡ disk_sectors config.now wasm.now }
{
    Geometry::of(config, wasm.len() as u32).total_sectors()
}

/// The sectors that a worker of these bytes needs, where they spell an accepted module.
fn measure(alloc: Global, wasm: &[u8], config: &Config) -> Result<u64, Unprepared>
    ensures measured { IfOk result (IsMeasured config.now wasm.now) }
    ensures refused { IfErr result (IsUnaccepted config.now.pages wasm.now) }
    ensures within { AreSettingsWithinLimits config.now }
{
    match judge(alloc, wasm, config.pages()) {
        Ok(()) => Ok(sectors_of(config, wasm)),
        Err(fault) => Err(fault),
    }
}

/// A configuration with the sectors of its disk, if they were found.
fn with_sectors(config: Config, measured: Result<u64, Unprepared>) -> Result<Prepared, Unprepared>
    ensures { result ≡ prepared_with config measured }
{
    match measured {
        Ok(sectors) => Ok(Prepared { config, sectors }),
        Err(fault) => Err(fault),
    }
}

/// What a worker of these bytes is created with, where it is of these sizes, and has these
/// arguments and this environment. The configuration is looked at before the module.
pub fn prepare(
    alloc: Global,
    wasm: &[u8],
    sizes: Sizes,
    arguments: &[&str],
    environment: &[&str],
) -> Result<Prepared, Unprepared>
    ensures prepared { IfOk result (IsPreparedAs
        (config_as sizes (texts_in arguments.now) (texts_in environment.now)) wasm.now) }
    ensures refused { IfErr result (IsUnprepared
        (config_as sizes (texts_in arguments.now) (texts_in environment.now)) wasm.now) }
{
    let config = match configure(alloc, sizes, arguments, environment) {
        Ok(config) => config,
        Err(Unconfigured::Range(bound)) => return Err(Unprepared::Range(bound)),
        Err(Unconfigured::Text(unnamed)) => return Err(Unprepared::Text(unnamed)),
        Err(Unconfigured::Memory) => return Err(Unprepared::Memory),
    };
    let measured = measure(alloc, wasm, &config);
    with_sectors(config, measured)
}

/// Prints a fault of a creation, and answers the exit status, or `Unwritten` where a write has
/// failed.
fn say_fault<E: Write + Drop>(err: &mut Printer<E>, fault: Unprepared) -> Status
    ensures { IsSaid (status_unprepared fault) err.old result err.new }
{
    let said = writeln!(err, "{fault}");
    if said.is_ok() && err.flush().is_ok() {
        fault.status()
    } else {
        Status::Unwritten
    }
}

/// Prints that a module passes a limit, and answers the exit status, or `Unwritten` where a write
/// has failed.
fn say_limit<E: Write + Drop>(err: &mut Printer<E>, wasm: &[u8], passed: PassedLimit) -> Status
    ensures { SaysLimit wasm.now (codes "failed") passed exit.Refused err.old result err.new }
{
    match print_limit(err, wasm, "failed", passed) {
        Ok(()) => Status::Refused,
        Err(_) => Status::Unwritten,
    }
}

/// Prints that an entry of the environment has no name, and answers the exit status, or `Unwritten`
/// where a write has failed.
fn say_unnamed<E: Write + Drop>(err: &mut Printer<E>, entry: usize) -> Status
    ensures { SaysText (entry_text entry) exit.Refused err.old result err.new }
{
    match writeln!(
        err,
        "failed C2 Text\nentry {entry} of --env isn't NAME=VALUE"
    ) {
        Ok(()) => Status::Refused,
        Err(_) => Status::Unwritten,
    }
}

/// Prints a fault of a module, and on a line of its own what else is known of it.
fn print_refusal<E: Write + Drop>(
    alloc: Global,
    wasm: &[u8],
    why: ModuleFault,
    err: &mut Printer<E>,
) -> io::Result<()>
    ensures more { OnOk result (EndsWithMore wasm.now why err.new) }
    ensures steady { OnOk result (err.new.failed ≡ err.old.failed) }
    ensures failed { OnErr result (err.new.failed ≡ true) }
{
    writeln!(err, "failed {why}")?;
    print_more(alloc, wasm, why, err)
}

/// Prints why a module isn't accepted. A limit that it passes is told on a second line, and so is
/// what else is known of it. Answers the exit status, or `Unwritten` where a write has failed.
fn say_refusal<E: Write + Drop>(
    alloc: Global,
    wasm: &[u8],
    why: ModuleFault,
    err: &mut Printer<E>,
) -> Status
    ensures limit { (passed : PassedLimit) → passed_in why ≡ Some passed
        → SaysLimit wasm.now (codes "failed") passed exit.Refused err.old result err.new }
    ensures more { SaysMore wasm.now why err.new }
    ensures status { IsSaid exit.Refused err.old result err.new }
{
    if let Some(passed) = why.passed_limit() {
        return say_limit(err, wasm, passed);
    }
    match print_refusal(alloc, wasm, why, err) {
        Ok(()) => Status::Refused,
        Err(_) => Status::Unwritten,
    }
}

/// Prints why no worker of the module that the bytes spell is created. What is out of its bounds,
/// which entry has no name, and what is known of the module, is told on a second line. Answers the
/// exit status, or `Unwritten` where a write has failed.
pub fn report_unprepared<E: Write + Drop>(
    alloc: Global,
    wasm: &[u8],
    fault: Unprepared,
    err: &mut Printer<E>,
) -> Status
    ensures range { (bound : Bound) → fault ≡ Unprepared.Range bound
        → SaysLine (range_words bound) exit.Refused err.old result err.new }
    ensures entry { (number : ℕ) → fault ≡ Unprepared.Text (Some number)
        → SaysText (entry_text number) exit.Refused err.old result err.new }
    ensures limit { (passed : PassedLimit) → passed_by fault ≡ Some passed
        → SaysLimit wasm.now (codes "failed") passed exit.Refused err.old result err.new }
    ensures more { (why : ModuleFault) → fault ≡ Unprepared.Module why
        → SaysMore wasm.now why err.new }
    ensures status { IsSaid (status_unprepared fault) err.old result err.new }
{
    match fault {
        Unprepared::Range(bound) => say_line(err, Status::Refused, words_of_range(bound)),
        Unprepared::Text(Some(entry)) => say_unnamed(err, entry),
        Unprepared::Module(why) => say_refusal(alloc, wasm, why, err),
        other => say_fault(err, other),
    }
}

//! `wasmhost check`.
//!
//! # Promises
//!
//! - `check_bytes`: `Done` says that the bytes spell a module that is accepted with so many pages
//!   (`accepted`), and that `accepted` was printed, and how it is created where it begins with more
//!   than `create` allows by default (`printed`). `Refused` says that they spell none
//!   (`refused`). What else is known of it is told last, or if that is asked for all imports and
//!   functions that are in the way (`more`). All others are `OutOfMemory` and `Unwritten`
//!   (`known`), and `Unwritten` comes just where a write has failed (`heeded`).
//! - `check_module` is that, of as many pages as a worker may have, and of others it tells their
//!   bounds (`ChecksModule`).
//!
//! # Choices
//!
//! - `check` is the front end and a line of text. By default the page limit is 256. A module file
//!   is read up to one byte more than the longest module has, by which a longer one is known.
//! - `check_bytes` answers `Done` only where the bytes spell an accepted module and `accepted` was
//!   written. `Refused` is answered only where the bytes spell none, and the other statuses are
//!   `OutOfMemory` and `Unwritten`. No clause can say that `OutOfMemory` comes only for lack of
//!   memory, since the host's room is in no contract. Tests and refused allocations show it. Tests
//!   also show the text of refusals, which derived `Display`s print.

ghost use Rattle.std.specs.Prelude.{◌≡◌, ◌≤◌, ◌⊎◌, ◌^◌, true, false, Err, IfErr, IfOk, OnErr, OnOk};
ghost use Rattle.std.specs.Prelude.{MatchOption, Some, codes};
ghost use Rattle.std.specs.Io.KnownBytes.{Appends};
ghost use Rattle.machine.specs.declared.from_bytes.fault.ModuleFault.{ModuleFault};
ghost use Rattle.machine.specs.rules.Acceptance.{HasAcceptedModule, HasNoAcceptedModule};
ghost use Rattle.machine.specs.rules.Acceptance.{IsReported, passed_in};
ghost use Rattle.wasm_decode.specs.declared.items.limit.PassedLimit.{PassedLimit};
ghost use Rattle.command_words.specs.rules.Bounds.{IsOutside};
ghost use Rattle.command_words.specs.rules.Checks.{ChecksModule, EndsAsAsked, ShowsAccepted};
ghost use Rattle.command_words.specs.rules.Checks.{TellsWhy, accepted_text};
ghost use Rattle.command_words.specs.rules.Listings.{EndsWithList};
ghost use Rattle.command_words.specs.rules.ModuleLimits.{TellsLimit};
ghost use Rattle.command_words.specs.rules.Printers.{HeedsWrites, printers};
ghost use Rattle.command_words.specs.Statuses.{IsRight, status_by};
ghost use Rattle.command_words.specs.declared.status.Status.TheVariants as exit;
ghost use Rattle.command_words.specs.rules.Verdicts.{EndsWithMore};

use crate::bounds::{Bound, PAGES_BOUND, words_of_range};
use crate::configuring::PAGES;
use crate::module_limits::print_limit;
use crate::printer::Printer;
use crate::status::Status;
use crate::telling::say_line;
use crate::verdicts::{first_pages, print_list, print_more, print_unlisted};
use machine::{ModuleFault, accept};
use std::alloc::Global;
use std::io::{self, Write};

/// Whether the bytes spell a module that is accepted with so many pages, with how many its memory
/// begins, and why not.
fn verdict_on(alloc: Global, wasm: &[u8], pages: u32) -> Result<u32, ModuleFault>
    requires { pages ≤ 2 ^ 16 }
    ensures right { IsRight pages wasm.now result }
    ensures reported { IfErr result (IsReported pages wasm.now) }
{
    match accept(alloc, wasm, pages) {
        Ok(machine) => {
            let first = first_pages(machine.module().module());
            drop(machine);
            Ok(first)
        }
        Err(fault) => Err(fault),
    }
}

/// Prints a fault of a module: its code and name, and its place if it has one.
fn print_fault<W: Write + Drop>(fault: ModuleFault, out: &mut Printer<W>) -> io::Result<()>
    ensures steady { OnOk result (out.new.failed ≡ out.old.failed) }
    ensures failed { OnErr result (out.new.failed ≡ true) }
{
    match fault.place() {
        Some(at) => writeln!(out, "refused {fault} at {at}"),
        None => writeln!(out, "refused {fault}"),
    }
}

/// Prints that a module is refused. A limit that is passed is on a line of its own, and so is what
/// else is known of the module.
fn print_refusal<W: Write + Drop>(
    alloc: Global,
    wasm: &[u8],
    fault: ModuleFault,
    out: &mut Printer<W>,
) -> io::Result<()>
    ensures limit { (passed : PassedLimit) → passed_in fault ≡ Some passed
        → OnOk result (TellsLimit wasm.now (codes "refused") passed out.old out.new) }
    ensures more { OnOk result (EndsWithMore wasm.now fault out.new) }
    ensures steady { OnOk result (out.new.failed ≡ out.old.failed) }
    ensures failed { OnErr result (out.new.failed ≡ true) }
{
    if let Some(passed) = fault.passed_limit() {
        return print_limit(out, wasm, "refused", passed);
    }
    print_fault(fault, out)?;
    print_more(alloc, wasm, fault, out)
}

/// Prints that a module is refused, and all imports and functions that are in the way. What the
/// list doesn't have of the first fault is on a line of its own.
fn print_listed_refusal<W: Write + Drop>(
    alloc: Global,
    wasm: &[u8],
    fault: ModuleFault,
    out: &mut Printer<W>,
) -> io::Result<()>
    ensures more { OnOk result (EndsWithList wasm.now fault out.new) }
    ensures steady { OnOk result (out.new.failed ≡ out.old.failed) }
    ensures failed { OnErr result (out.new.failed ≡ true) }
{
    print_fault(fault, out)?;
    print_unlisted(alloc, wasm, fault, out)?;
    print_list(alloc, wasm, out)
}

/// Prints that a module is refused. All that is in the way is listed if that is asked for.
fn print_refusal_as_asked<W: Write + Drop>(
    alloc: Global,
    wasm: &[u8],
    lists_all: bool,
    fault: ModuleFault,
    out: &mut Printer<W>,
) -> io::Result<()>
    ensures limit { lists_all ≡ false → (passed : PassedLimit) → passed_in fault ≡ Some passed
        → OnOk result (TellsLimit wasm.now (codes "refused") passed out.old out.new) }
    ensures more { OnOk result (EndsAsAsked lists_all wasm.now fault out.new) }
    ensures steady { OnOk result (out.new.failed ≡ out.old.failed) }
    ensures failed { OnErr result (out.new.failed ≡ true) }
{
    if lists_all {
        print_listed_refusal(alloc, wasm, fault, out)
    } else {
        print_refusal(alloc, wasm, fault, out)
    }
}

/// Prints that a module is accepted, whose memory begins with so many pages. Where those are more
/// than `create` allows by default, the option that allows them is on a line of its own.
fn print_accepted<W: Write + Drop>(pages: u32, out: &mut Printer<W>) -> io::Result<()>
    ensures printed { OnOk result
        (Appends out.old.contents out.new.contents (accepted_text pages)) }
    ensures steady { OnOk result (out.new.failed ≡ out.old.failed) }
    ensures failed { OnErr result (out.new.failed ≡ true) }
{
    if u64::from(pages) <= PAGES {
        writeln!(out, "accepted")
    } else {
        writeln!(out, "accepted\ncreate it with --pages {pages}")
    }
}

/// Prints a verdict: `accepted`, or why not.
fn print_verdict<W: Write + Drop>(
    alloc: Global,
    wasm: &[u8],
    lists_all: bool,
    verdict: Result<u32, ModuleFault>,
    out: &mut Printer<W>,
) -> io::Result<()>
    ensures accepted { IfOk verdict (λ first.
        OnOk result (Appends out.old.contents out.new.contents (accepted_text first))) }
    ensures limit { lists_all ≡ false → (fault : ModuleFault) (passed : PassedLimit)
        → verdict ≡ Err fault → passed_in fault ≡ Some passed
        → OnOk result (TellsLimit wasm.now (codes "refused") passed out.old out.new) }
    ensures more { OnOk result (IfErr verdict (λ e. EndsAsAsked lists_all wasm.now e out.new)) }
    ensures steady { OnOk result (out.new.failed ≡ out.old.failed) }
    ensures failed { OnErr result (out.new.failed ≡ true) }
{
    match verdict {
        Ok(first) => print_accepted(first, out),
        Err(fault) => print_refusal_as_asked(alloc, wasm, lists_all, fault, out),
    }
}

/// The exit status of a verdict that is printed.
fn status_of(verdict: Result<u32, ModuleFault>) -> Status
    ensures { result ≡ status_by verdict }
{
    match verdict {
        Ok(_) => Status::Done,
        Err(fault) if fault.is_want_of_memory() => Status::OutOfMemory,
        Err(_) => Status::Refused,
    }
}

/// Says whether a module is accepted with so many pages: prints a line, and why not on a further
/// one, or lists all that is in the way if that is asked for. Answers the exit status, `Done`,
/// `Refused` where it is refused, `OutOfMemory`, `Unwritten` where a write has failed.
pub fn check_bytes<W: Write + Drop>(
    alloc: Global,
    wasm: &[u8],
    pages: u32,
    lists_all: bool,
    out: &mut Printer<W>,
) -> Status
    requires { pages ≤ 2 ^ 16 }
    ensures accepted { result ≡ exit.Done → HasAcceptedModule pages wasm.now }
    ensures printed { result ≡ exit.Done → ShowsAccepted pages wasm.now out.old out.new }
    ensures refused { result ≡ exit.Refused → HasNoAcceptedModule pages wasm.now }
    ensures more { result ≡ exit.Refused → TellsWhy lists_all pages wasm.now out.new }
    ensures heeded { HeedsWrites out.old result out.new }
    ensures known { (result ≡ exit.Done) ⊎ (result ≡ exit.Refused) ⊎ (result ≡ exit.OutOfMemory)
        ⊎ (result ≡ exit.Unwritten) }
{
    let verdict = verdict_on(alloc, wasm, pages);
    match print_verdict(alloc, wasm, lists_all, verdict, out) {
        Ok(()) => status_of(verdict),
        Err(_) => Status::Unwritten,
    }
}

/// So many pages, if a worker may have them.
fn allowed_pages(pages: u64) -> Option<u32>
    ensures { MatchOption result (IsOutside 1 256 pages)
        (λ n. (n ≡ pages) × (1 ≤ pages) × (pages ≤ 256)) }
{
    if (1..=PAGES_BOUND).contains(&pages) {
        Some(pages as u32)
    } else {
        None
    }
}

/// `wasmhost check` of a module with so many pages, which are from 1 to 256. It lists all that is
/// in the way if that is asked for. Answers the exit status.
pub fn check_module<W: Write + Drop, E: Write + Drop>(
    alloc: Global,
    wasm: &[u8],
    pages: u64,
    lists_all: bool,
    out: &mut Printer<W>,
    err: &mut Printer<E>,
) -> Status
    ensures { ChecksModule lists_all pages wasm.now (printers out.old err.old)
        (printers out.new err.new) result }
{
    match allowed_pages(pages) {
        Some(pages) => check_bytes(alloc, wasm, pages, lists_all, out),
        None => say_line(err, Status::Refused, words_of_range(Bound::Pages)),
    }
}

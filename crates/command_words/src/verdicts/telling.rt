//! What is told of a module that isn't accepted, on a second line.

ghost use Rattle.std.specs.Prelude.{◌≡◌, true, OnErr, OnOk, None};
ghost use Rattle.machine.specs.declared.from_bytes.fault.ModuleFault.TheVariants.{Link};
ghost use Rattle.command_words.specs.rules.Floats.{TellsOfFloat};
ghost use Rattle.command_words.specs.rules.Listings.{TellsOutside, TellsUnlisted};
ghost use Rattle.command_words.specs.rules.ModuleLimits.{passed_text};
ghost use Rattle.command_words.specs.rules.Printers.{IsPrinted};
ghost use Rattle.command_words.specs.rules.Verdicts.{TellsMore, TellsOfImport, TellsOfLink};
ghost use Rattle.command_words.specs.rules.Verdicts.{first_pages, import_text, pages_text};

use crate::module_limits::{function_of, print_passed};
use crate::printer::Printer;
use crate::verdicts::floats::print_float;
use crate::verdicts::imports::first_refused;
use machine::{LinkFault, ModuleFault};
use std::alloc::Global;
use std::io::{self, Write};
use wasm_decode::{DecodeFault, PassedLimit, decode};
use wasm_places::place_of;
use wasm_syntax::{Import, Module};

/// The most pages that the memory of a worker may have.
const MOST_PAGES: u32 = 256;

/// What is told of an import with another name than those of the calls.
pub(super) const UNKNOWN: &str = " isn't one of the 31 calls\n";

/// What is told of one whose item isn't what the call is.
pub(super) const MISTYPED: &str = " has another type than this call\n";

/// Prints the names of an import, and what is wrong with it.
pub(super) fn print_import<W: Write + Drop>(
    out: &mut Printer<W>,
    import: &Import,
    what: &str,
) -> io::Result<()>
    ensures printed { OnOk result (IsPrinted out.old out.new (import_text import.now what.now)) }
    ensures steady { OnOk result (out.new.failed ≡ out.old.failed) }
    ensures failed { OnErr result (out.new.failed ≡ true) }
{
    out.write_all(b"import ")?;
    out.write_all(import.module_name.as_slice())?;
    out.write_all(b".")?;
    out.write_all(import.name.as_slice())?;
    out.write_all(what.as_bytes())
}

/// Prints the first import that isn't offered, if there is one.
fn print_refused_import<W: Write + Drop>(
    out: &mut Printer<W>,
    module: &Module,
    what: &str,
) -> io::Result<()>
    ensures told { OnOk result (TellsOfImport module.now what.now out.old out.new) }
    ensures steady { OnOk result (out.new.failed ≡ out.old.failed) }
    ensures failed { OnErr result (out.new.failed ≡ true) }
{
    match first_refused(module) {
        Some(import) => print_import(out, import, what),
        None => Ok(()),
    }
}

/// How many pages the memory of a module begins with.
pub(crate) fn first_pages(module: &Module) -> u32
    ensures { result ≡ first_pages module.now }
{
    match module.memories.as_slice().first() {
        Some(memory) => memory.limits.minimum,
        None => 0,
    }
}

/// Prints how many pages a memory begins with, and the option that allows them.
fn print_pages<W: Write + Drop>(out: &mut Printer<W>, pages: u32) -> io::Result<()>
    ensures printed { OnOk result (IsPrinted out.old out.new (pages_text pages)) }
    ensures steady { OnOk result (out.new.failed ≡ out.old.failed) }
    ensures failed { OnErr result (out.new.failed ≡ true) }
{
    if pages <= MOST_PAGES {
        writeln!(out, "begins with {pages} pages: --pages {pages}")
    } else {
        writeln!(
            out,
            "begins with {pages} pages, and a worker has at most 256"
        )
    }
}

/// Prints what is known of a module that can't be linked.
fn print_link<W: Write + Drop>(
    out: &mut Printer<W>,
    module: &Module,
    fault: LinkFault,
) -> io::Result<()>
    ensures told { OnOk result (TellsOfLink module.now fault out.old out.new) }
    ensures steady { OnOk result (out.new.failed ≡ out.old.failed) }
    ensures failed { OnErr result (out.new.failed ≡ true) }
{
    match fault {
        LinkFault::UnknownImport => print_refused_import(out, module, UNKNOWN),
        LinkFault::ImportType => print_refused_import(out, module, MISTYPED),
        LinkFault::TooManyPages => print_pages(out, first_pages(module)),
        _ => Ok(()),
    }
}

/// Prints what is known of a module that is spelled, but can't be linked. Where there is no memory
/// to decode it once more, nothing is printed.
fn print_unlinked<W: Write + Drop>(
    alloc: Global,
    wasm: &[u8],
    fault: LinkFault,
    out: &mut Printer<W>,
) -> io::Result<()>
    ensures more { OnOk result (TellsMore wasm.now (Link fault) out.old out.new) }
    ensures steady { OnOk result (out.new.failed ≡ out.old.failed) }
    ensures failed { OnErr result (out.new.failed ≡ true) }
{
    let Ok(decoded) = decode(alloc, wasm) else {
        return Ok(());
    };
    let printed = print_link(out, decoded.module(), fault);
    drop(decoded);
    printed
}

/// Prints what else is known of a module that isn't accepted, on a line of its own.
pub(crate) fn print_more<W: Write + Drop>(
    alloc: Global,
    wasm: &[u8],
    why: ModuleFault,
    out: &mut Printer<W>,
) -> io::Result<()>
    ensures more { OnOk result (TellsMore wasm.now why out.old out.new) }
    ensures steady { OnOk result (out.new.failed ≡ out.old.failed) }
    ensures failed { OnErr result (out.new.failed ≡ true) }
{
    match why {
        ModuleFault::Link(fault) => print_unlinked(alloc, wasm, fault, out),
        ModuleFault::Decode(DecodeFault::Float(at)) => print_float(out, wasm, at),
        _ => Ok(()),
    }
}

/// Prints what is of floats at an offset, unless it is in a function.
fn print_float_outside<W: Write + Drop>(
    out: &mut Printer<W>,
    wasm: &[u8],
    at: usize,
) -> io::Result<()>
    ensures told { OnOk result (TellsOutside wasm.now at (TellsOfFloat wasm.now at out.old out.new)
        out.old out.new) }
    ensures steady { OnOk result (out.new.failed ≡ out.old.failed) }
    ensures failed { OnErr result (out.new.failed ≡ true) }
{
    match function_of(place_of(wasm, at)) {
        Some(_) => Ok(()),
        None => print_float(out, wasm, at),
    }
}

/// Prints a limit that is passed, unless that is in a function.
fn print_limit_outside<W: Write + Drop>(
    out: &mut Printer<W>,
    wasm: &[u8],
    passed: PassedLimit,
) -> io::Result<()>
    ensures told { OnOk result (TellsOutside wasm.now passed.at
        (IsPrinted out.old out.new (passed_text passed None)) out.old out.new) }
    ensures steady { OnOk result (out.new.failed ≡ out.old.failed) }
    ensures failed { OnErr result (out.new.failed ≡ true) }
{
    match function_of(place_of(wasm, passed.at)) {
        Some(_) => Ok(()),
        None => print_passed(out, passed, None),
    }
}

/// Prints what else is known of a module that isn't accepted, where the list of all that is in the
/// way says nothing of the first fault.
pub(crate) fn print_unlisted<W: Write + Drop>(
    alloc: Global,
    wasm: &[u8],
    why: ModuleFault,
    out: &mut Printer<W>,
) -> io::Result<()>
    ensures more { OnOk result (TellsUnlisted wasm.now why out.old out.new) }
    ensures steady { OnOk result (out.new.failed ≡ out.old.failed) }
    ensures failed { OnErr result (out.new.failed ≡ true) }
{
    match why {
        ModuleFault::Link(LinkFault::TooManyPages) => {
            print_unlinked(alloc, wasm, LinkFault::TooManyPages, out)
        }
        ModuleFault::Decode(DecodeFault::Float(at)) => print_float_outside(out, wasm, at),
        ModuleFault::Decode(DecodeFault::Limit(passed)) => print_limit_outside(out, wasm, passed),
        _ => Ok(()),
    }
}

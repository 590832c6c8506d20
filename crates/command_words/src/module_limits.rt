//! What is told of a limit that the bytes of a module pass.

ghost use Rattle.std.specs.Prelude.{◌≡◌, true, OnErr, OnOk};
ghost use Rattle.command_words.specs.rules.ModuleLimits.{TellsLimit, function_of, limit_words};
ghost use Rattle.command_words.specs.rules.ModuleLimits.{most_of, passed_text};
ghost use Rattle.command_words.specs.rules.Printers.{IsPrinted};

use crate::printer::Printer;
use std::io::{self, Write};
use wasm_decode::{ModuleLimit, PassedLimit};
use wasm_places::{ModulePlace, place_of};
use wasm_syntax::limits::{
    FUNCTIONS, GLOBALS, INSTRUCTIONS, LOCALS, MODULE_BYTES, PARAMETERS, TABLE_ENTRIES,
};

/// How many a limit allows.
fn most_of(limit: ModuleLimit) -> usize
    ensures { result ≡ most_of limit }
{
    match limit {
        ModuleLimit::Bytes => MODULE_BYTES,
        ModuleLimit::Functions => FUNCTIONS,
        ModuleLimit::Instructions => INSTRUCTIONS,
        ModuleLimit::Parameters => PARAMETERS,
        ModuleLimit::Locals => LOCALS,
        ModuleLimit::TableEntries => TABLE_ENTRIES as usize,
        ModuleLimit::Globals => GLOBALS,
    }
}

/// What it allows that many of.
fn words_of_limit(limit: ModuleLimit) -> &'static str
    ensures { result.now ≡ limit_words limit }
{
    match limit {
        ModuleLimit::Bytes => "bytes in the module",
        ModuleLimit::Functions => "functions",
        ModuleLimit::Instructions => "instructions in one expression",
        ModuleLimit::Parameters => "parameters in one type",
        ModuleLimit::Locals => "locals in one function",
        ModuleLimit::TableEntries => "entries in a new table",
        ModuleLimit::Globals => "globals",
    }
}

/// The function in whose code a byte with this place lies, if it is in one.
pub(crate) fn function_of(place: Option<ModulePlace>) -> Option<u64>
    ensures { result ≡ function_of place }
{
    match place {
        Some(ModulePlace::Function(number)) => Some(number),
        Some(ModulePlace::Type(_)) => None,
        Some(ModulePlace::Section(_)) => None,
        None => None,
    }
}

/// Prints a limit that is passed, with its place: an offset, and the function in which that lies.
pub(crate) fn print_passed<W: Write + Drop>(
    out: &mut Printer<W>,
    passed: PassedLimit,
    function: Option<u64>,
) -> io::Result<()>
    ensures printed { OnOk result (IsPrinted out.old out.new (passed_text passed function)) }
    ensures steady { OnOk result (out.new.failed ≡ out.old.failed) }
    ensures failed { OnErr result (out.new.failed ≡ true) }
{
    let most = most_of(passed.limit);
    let what = words_of_limit(passed.limit);
    let at = passed.at;
    match function {
        Some(number) => writeln!(
            out,
            "more than {most} {what}, at byte {at}, in function {number}"
        ),
        None => writeln!(out, "more than {most} {what}, at byte {at}"),
    }
}

/// Prints the verdict on a module that passes a limit, and on a line of its own that limit and its
/// place.
pub(crate) fn print_limit<W: Write + Drop>(
    out: &mut Printer<W>,
    wasm: &[u8],
    verdict: &str,
    passed: PassedLimit,
) -> io::Result<()>
    ensures told { OnOk result (TellsLimit wasm.now verdict.now passed out.old out.new) }
    ensures steady { OnOk result (out.new.failed ≡ out.old.failed) }
    ensures failed { OnErr result (out.new.failed ≡ true) }
{
    let place = place_of(wasm, passed.at);
    writeln!(out, "{verdict} B3 Limit")?;
    print_passed(out, passed, function_of(place))
}

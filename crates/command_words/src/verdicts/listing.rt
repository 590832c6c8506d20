//! All imports and functions that are in the way of a module, one line for each.

ghost use Rattle.std.specs.Prelude.{◌≡◌, ◌<◌, ◌^◌, ◌↔◌, true, IfOk, IsTrue, OnErr, OnOk, count_by};
ghost use Rattle.std.specs.List.{flat_map};
ghost use Rattle.machine.specs.rules.Offers.{imported_call};
ghost use Rattle.wasm_syntax.specs.rules.Limits.{is_function};
ghost use Rattle.command_words.specs.Listed.{TellsImport};
ghost use Rattle.command_words.specs.rules.Listings.{IsAllowed, KnowsTypes, ListsAll, ListsCode};
ghost use Rattle.command_words.specs.rules.Listings.{TellsImports, code_line, list_end, end_text};
ghost use Rattle.command_words.specs.rules.Listings.{fault_text, refusal_words};
ghost use Rattle.command_words.specs.rules.Printers.{IsPrinted};

use crate::module_limits::print_passed;
use crate::printer::Printer;
use crate::verdicts::floats::print_float_in;
use crate::verdicts::imports::{call_of, is_offered};
use crate::verdicts::telling::{MISTYPED, UNKNOWN, print_import};
use std::alloc::{AllocError, Global};
use std::io::{self, Write};
use wasm_decode::{CodeFault, DecodeFault, decode_imports, decode_types, find_code_faults};
use wasm_syntax::{FunctionType, Import, ImportItem, ItemList};

/// What is wrong with an import that is in the way.
fn words_of_refusal(import: &Import) -> &'static str
    ensures { result.now ≡ refusal_words (imported_call import.now) }
{
    match call_of(import) {
        Some(_) => MISTYPED,
        None => UNKNOWN,
    }
}

/// Whether an import is offered. Where the types aren't known, its names are judged alone.
fn is_allowed(types: &Option<ItemList<FunctionType>>, import: &Import) -> bool
    ensures { IsTrue result ↔ IsAllowed types.now import.now }
{
    match types {
        Some(types) => is_offered(types.as_slice(), import),
        None => call_of(import).is_some(),
    }
}

/// Prints an import, if it is in the way.
fn print_if_refused<W: Write + Drop>(
    out: &mut Printer<W>,
    types: &Option<ItemList<FunctionType>>,
    import: &Import,
) -> io::Result<()>
    ensures told { OnOk result (TellsImport types.now import.now out.old out.new) }
    ensures steady { OnOk result (out.new.failed ≡ out.old.failed) }
    ensures failed { OnErr result (out.new.failed ≡ true) }
{
    if is_allowed(types, import) {
        return Ok(());
    }
    print_import(out, import, words_of_refusal(import))
}

/// Prints each import that is in the way.
fn print_refused_imports<W: Write + Drop>(
    out: &mut Printer<W>,
    types: &Option<ItemList<FunctionType>>,
    imports: &[Import],
) -> io::Result<()>
    ensures told { OnOk result (TellsImports types.now imports.now out.old out.new) }
    ensures steady { OnOk result (out.new.failed ≡ out.old.failed) }
    ensures failed { OnErr result (out.new.failed ≡ true) }
{
    for import in imports {
        print_if_refused(out, types, import)?;
    }
    Ok(())
}

/// Prints the fault of the function with this number.
fn print_fault_in<W: Write + Drop>(
    out: &mut Printer<W>,
    wasm: &[u8],
    number: u64,
    why: DecodeFault,
) -> io::Result<()>
    ensures printed { OnOk result (IsPrinted out.old out.new (fault_text wasm.now number why)) }
    ensures steady { OnOk result (out.new.failed ≡ out.old.failed) }
    ensures failed { OnErr result (out.new.failed ≡ true) }
{
    match why {
        DecodeFault::Malformed(at) => {
            writeln!(out, "malformed at byte {at}, in function {number}")
        }
        DecodeFault::Float(at) => print_float_in(out, wasm, at, number),
        DecodeFault::Limit(passed) => print_passed(out, passed, Some(number)),
        DecodeFault::Memory => Ok(()),
    }
}

/// Prints the fault of a code entry, where so many functions are imported.
fn print_code_fault<W: Write + Drop>(
    out: &mut Printer<W>,
    wasm: &[u8],
    imported: u32,
    fault: CodeFault,
) -> io::Result<()>
    ensures printed { OnOk result (IsPrinted out.old out.new (code_line wasm.now imported fault)) }
    ensures steady { OnOk result (out.new.failed ≡ out.old.failed) }
    ensures failed { OnErr result (out.new.failed ≡ true) }
{
    let number = u64::from(imported) + u64::from(fault.number);
    print_fault_in(out, wasm, number, fault.why)
}

/// Prints the faults of code entries, where so many functions are imported.
fn print_code_faults<W: Write + Drop>(
    out: &mut Printer<W>,
    wasm: &[u8],
    imported: u32,
    faults: &[CodeFault],
) -> io::Result<()>
    ensures printed { OnOk result (IsPrinted out.old out.new
        (flat_map (code_line wasm.now imported) faults.now)) }
    ensures steady { OnOk result (out.new.failed ≡ out.old.failed) }
    ensures failed { OnErr result (out.new.failed ≡ true) }
{
    for fault in faults {
        print_code_fault(out, wasm, imported, *fault)?;
    }
    Ok(())
}

/// Prints why a list isn't whole.
fn print_end<W: Write + Drop>(out: &mut Printer<W>, fault: DecodeFault) -> io::Result<()>
    ensures printed { OnOk result (IsPrinted out.old out.new (end_text fault)) }
    ensures steady { OnOk result (out.new.failed ≡ out.old.failed) }
    ensures failed { OnErr result (out.new.failed ≡ true) }
{
    match fault {
        DecodeFault::Malformed(at) => writeln!(out, "no more is listed: B1 Malformed at {at}"),
        DecodeFault::Float(at) => writeln!(out, "no more is listed: B2 Float at {at}"),
        DecodeFault::Limit(passed) => {
            let at = passed.at;
            writeln!(out, "no more is listed: B3 Limit at {at}")
        }
        DecodeFault::Memory => writeln!(out, "no more is listed: B4 Memory"),
    }
}

/// The same, if it isn't.
fn print_end_if<W: Write + Drop>(out: &mut Printer<W>, fault: Option<DecodeFault>) -> io::Result<()>
    ensures printed { OnOk result (IsPrinted out.old out.new (list_end fault)) }
    ensures steady { OnOk result (out.new.failed ≡ out.old.failed) }
    ensures failed { OnErr result (out.new.failed ≡ true) }
{
    match fault {
        Some(fault) => print_end(out, fault),
        None => Ok(()),
    }
}

/// Prints the faults of a module's functions, of which so many are imported.
fn print_code<W: Write + Drop>(
    alloc: Global,
    wasm: &[u8],
    imported: u32,
    out: &mut Printer<W>,
) -> io::Result<()>
    ensures listed { OnOk result (ListsCode wasm.now imported out.old out.new) }
    ensures steady { OnOk result (out.new.failed ≡ out.old.failed) }
    ensures failed { OnErr result (out.new.failed ≡ true) }
{
    match find_code_faults(alloc, wasm) {
        Ok(found) => {
            print_code_faults(out, wasm, imported, found.faults.as_slice())?;
            print_end_if(out, found.end)
        }
        Err(fault) => print_end(out, fault),
    }
}

/// Whether it is the import of a function.
fn is_function(import: &Import) -> bool
    ensures { result ≡ is_function import.now }
{
    matches!(import.item, ImportItem::Function(_))
}

/// How many of these imports are functions.
fn count_functions(imports: &[Import]) -> u32
    requires { count_by is_function imports.now < 2 ^ 32 }
    ensures { result ≡ count_by is_function imports.now }
{
    imports.iter().filter(|import| is_function(import)).count() as u32
}

/// The types of a module's functions, if they can be read.
fn known_types(alloc: Global, wasm: &[u8]) -> Result<Option<ItemList<FunctionType>>, AllocError>
    ensures { IfOk result (KnowsTypes wasm.now) }
{
    match decode_types(alloc, wasm) {
        Ok(types) => Ok(Some(types)),
        Err(DecodeFault::Memory) => Err(AllocError),
        Err(_) => Ok(None),
    }
}

/// Prints the imports that are in the way, and then the faults of functions.
fn print_parts<W: Write + Drop>(
    alloc: Global,
    wasm: &[u8],
    types: &Option<ItemList<FunctionType>>,
    out: &mut Printer<W>,
) -> io::Result<()>
    requires { KnowsTypes wasm.now types.now }
    ensures listed { OnOk result (ListsAll wasm.now out.old out.new) }
    ensures steady { OnOk result (out.new.failed ≡ out.old.failed) }
    ensures failed { OnErr result (out.new.failed ≡ true) }
{
    match decode_imports(alloc, wasm) {
        Ok(imports) => {
            let items = imports.as_slice();
            print_refused_imports(out, types, items)?;
            print_code(alloc, wasm, count_functions(items), out)
        }
        Err(fault) => print_end(out, fault),
    }
}

/// Prints one line for each import that is in the way, and one for each function that is no code
/// within the limits, in the order of the module. What one function has doesn't change the line of
/// another.
pub(crate) fn print_list<W: Write + Drop>(
    alloc: Global,
    wasm: &[u8],
    out: &mut Printer<W>,
) -> io::Result<()>
    ensures listed { OnOk result (ListsAll wasm.now out.old out.new) }
    ensures steady { OnOk result (out.new.failed ≡ out.old.failed) }
    ensures failed { OnErr result (out.new.failed ≡ true) }
{
    match known_types(alloc, wasm) {
        Ok(types) => print_parts(alloc, wasm, &types, out),
        Err(AllocError) => print_end(out, DecodeFault::Memory),
    }
}

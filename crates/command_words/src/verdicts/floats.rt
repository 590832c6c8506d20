//! Where a module has floats.

ghost use Rattle.std.specs.Prelude.{◌≡◌, ◌++◌, true, OnErr, OnOk, codes};
ghost use Rattle.std.specs.Fmt.{decimal};
ghost use Rattle.command_words.specs.FunctionNames.{lent_bytes};
ghost use Rattle.command_words.specs.rules.Floats.{IsNameAt, IsUseAt, TellsOfFloat, first_text};
ghost use Rattle.command_words.specs.rules.Floats.{float_at, float_hint, float_name, names_text};
ghost use Rattle.command_words.specs.rules.Floats.{place_text, section_word, type_text, use_text};
ghost use Rattle.command_words.specs.rules.FunctionNames.{name_words};
ghost use Rattle.command_words.specs.rules.Printers.{IsPrinted};
ghost use Rattle.wasm_places.specs.Named.{AreFloatWords};
ghost use Rattle.wasm_places.specs.rules.Uses.{names_in};

use crate::function_names::{name_in, print_name};
use crate::printer::Printer;
use std::io::{self, Write};
use wasm_places::{
    FloatWords, ImportNames, ModulePlace, TypeUse, TypedFunction, float_words, place_of,
    use_of_type,
};

/// What the section with this id holds.
fn section_word(id: u8) -> &'static str
    ensures { result.now ≡ section_word id }
{
    match id {
        0 => "custom",
        1 => "type",
        2 => "import",
        3 => "function",
        4 => "table",
        5 => "memory",
        6 => "global",
        7 => "export",
        8 => "start",
        9 => "element",
        10 => "code",
        _ => "data",
    }
}

/// Prints the names of an import, if it is one.
fn print_names<W: Write + Drop>(
    out: &mut Printer<W>,
    names: Option<ImportNames<'_>>,
) -> io::Result<()>
    ensures printed { OnOk result (IsPrinted out.old out.new (names_text (names_in names.entry))) }
    ensures steady { OnOk result (out.new.failed ≡ out.old.failed) }
    ensures failed { OnErr result (out.new.failed ≡ true) }
{
    let Some(names) = names else {
        return Ok(());
    };
    out.write_all(b", import ")?;
    out.write_all(names.module_name)?;
    out.write_all(b".")?;
    out.write_all(names.name)
}

/// Prints the number of a function that has a type, and the names of its import.
fn print_first<W: Write + Drop>(out: &mut Printer<W>, first: TypedFunction<'_>) -> io::Result<()>
    ensures printed { OnOk result (IsPrinted out.old out.new (first_text first.entry)) }
    ensures steady { OnOk result (out.new.failed ≡ out.old.failed) }
    ensures failed { OnErr result (out.new.failed ≡ true) }
{
    let number = first.number;
    write!(out, " of function {number}")?;
    print_names(out, first.names)
}

/// Prints which function has a type first, where that is known.
fn print_use<W: Write + Drop>(out: &mut Printer<W>, found: TypeUse<'_>) -> io::Result<()>
    ensures printed { OnOk result (IsPrinted out.old out.new (use_text found.entry)) }
    ensures steady { OnOk result (out.new.failed ≡ out.old.failed) }
    ensures failed { OnErr result (out.new.failed ≡ true) }
{
    match found {
        TypeUse::First(first) => print_first(out, first),
        TypeUse::Unused => write!(out, " of no function"),
        TypeUse::Unread => Ok(()),
    }
}

/// Prints the number of a type, and which function has it first.
fn print_type<W: Write + Drop>(
    out: &mut Printer<W>,
    number: u64,
    found: TypeUse<'_>,
) -> io::Result<()>
    ensures printed { OnOk result (IsPrinted out.old out.new (type_text number found.entry)) }
    ensures steady { OnOk result (out.new.failed ≡ out.old.failed) }
    ensures failed { OnErr result (out.new.failed ≡ true) }
{
    write!(out, " in type {number}")?;
    print_use(out, found)
}

/// Prints the number of a function, and its name, if it has one.
fn print_function<W: Write + Drop>(
    out: &mut Printer<W>,
    number: u64,
    name: Option<&[u8]>,
) -> io::Result<()>
    ensures printed { OnOk result (IsPrinted out.old out.new (codes " in function "
        ++ decimal number ++ name_words (lent_bytes name.entry))) }
    ensures steady { OnOk result (out.new.failed ≡ out.old.failed) }
    ensures failed { OnErr result (out.new.failed ≡ true) }
{
    write!(out, " in function {number}")?;
    print_name(out, name)
}

/// Prints a place, if there is one. A function comes with its name, and a type with the function
/// that has it first.
fn print_place<W: Write + Drop>(
    out: &mut Printer<W>,
    place: Option<ModulePlace>,
    name: Option<&[u8]>,
    found: TypeUse<'_>,
) -> io::Result<()>
    ensures printed { OnOk result (IsPrinted out.old out.new
        (place_text place (lent_bytes name.entry) found.entry)) }
    ensures steady { OnOk result (out.new.failed ≡ out.old.failed) }
    ensures failed { OnErr result (out.new.failed ≡ true) }
{
    match place {
        Some(ModulePlace::Function(number)) => print_function(out, number, name),
        Some(ModulePlace::Type(number)) => print_type(out, number, found),
        Some(ModulePlace::Section(id)) => {
            let word = section_word(id);
            write!(out, " in the {word} section")
        }
        None => Ok(()),
    }
}

/// Prints the name of what is of floats, its place, and the hint.
fn print_words<W: Write + Drop>(
    out: &mut Printer<W>,
    words: FloatWords,
    place: Option<ModulePlace>,
    name: Option<&[u8]>,
    found: TypeUse<'_>,
) -> io::Result<()>
    ensures printed { OnOk result (IsPrinted out.old out.new (words.value_type.now
        ++ words.operation.now ++ place_text place (lent_bytes name.entry) found.entry
        ++ float_hint)) }
    ensures steady { OnOk result (out.new.failed ≡ out.old.failed) }
    ensures failed { OnErr result (out.new.failed ≡ true) }
{
    let value_type = words.value_type;
    let operation = words.operation;
    write!(out, "{value_type}{operation}")?;
    print_place(out, place, name, found)?;
    writeln!(
        out,
        "; in C printf has floats, but not with -lc-printscan-no-floating-point"
    )
}

/// Which function has a type first, where the place is one.
fn use_at(wasm: &[u8], place: Option<ModulePlace>) -> TypeUse<'_>
    ensures { IsUseAt wasm.now place result }
{
    match place {
        Some(ModulePlace::Type(number)) => use_of_type(wasm, number),
        Some(ModulePlace::Function(_)) => TypeUse::Unread,
        Some(ModulePlace::Section(_)) => TypeUse::Unread,
        None => TypeUse::Unread,
    }
}

/// The name of the function at a place, where that is one, and it may be printed.
fn name_at(wasm: &[u8], place: Option<ModulePlace>) -> Option<&[u8]>
    ensures { IsNameAt wasm.now place (lent_bytes result) }
{
    match place {
        Some(ModulePlace::Function(number)) => match u32::try_from(number) {
            Ok(number) => name_in(Some(wasm), number),
            Err(_) => None,
        },
        Some(ModulePlace::Type(_)) => None,
        Some(ModulePlace::Section(_)) => None,
        None => None,
    }
}

/// The name of what is at an offset, if it is of floats.
fn words_at(wasm: &[u8], at: usize) -> Option<FloatWords>
    ensures { AreFloatWords result (float_at wasm.now at) }
{
    let byte = wasm.get(at)?;
    float_words(*byte)
}

/// Prints what is of floats at an offset, in the function with this number.
pub(super) fn print_float_in<W: Write + Drop>(
    out: &mut Printer<W>,
    wasm: &[u8],
    at: usize,
    number: u64,
) -> io::Result<()>
    ensures printed { OnOk result (IsPrinted out.old out.new
        (float_name (float_at wasm.now at) ++ codes " in function " ++ decimal number
        ++ codes "\n")) }
    ensures steady { OnOk result (out.new.failed ≡ out.old.failed) }
    ensures failed { OnErr result (out.new.failed ≡ true) }
{
    match words_at(wasm, at) {
        Some(words) => {
            let value_type = words.value_type;
            let operation = words.operation;
            writeln!(out, "{value_type}{operation} in function {number}")
        }
        None => writeln!(out, "a float in function {number}"),
    }
}

/// Prints what is of floats at an offset, and where that is. A function is named.
pub(crate) fn print_float<W: Write + Drop>(
    out: &mut Printer<W>,
    wasm: &[u8],
    at: usize,
) -> io::Result<()>
    ensures told { OnOk result (TellsOfFloat wasm.now at out.old out.new) }
    ensures steady { OnOk result (out.new.failed ≡ out.old.failed) }
    ensures failed { OnErr result (out.new.failed ≡ true) }
{
    match words_at(wasm, at) {
        Some(words) => {
            let place = place_of(wasm, at);
            let name = name_at(wasm, place);
            print_words(out, words, place, name, use_at(wasm, place))
        }
        None => Ok(()),
    }
}

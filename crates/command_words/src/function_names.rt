//! The names of functions, as messages tell them.

ghost use Rattle.std.specs.Prelude.{◌≡◌, true, OnErr, OnOk};
ghost use Rattle.command_words.specs.FunctionNames.{lent_bytes};
ghost use Rattle.command_words.specs.rules.FunctionNames.{IsNameIn, name_words};
ghost use Rattle.command_words.specs.rules.Printers.{IsPrinted};

use crate::printer::Printer;
use std::io::{self, Write};
use wasm_places::name_of_function;

/// The name that a module gives a function, where it may be printed, and where the module is known.
pub fn name_in(module: Option<&[u8]>, function: u32) -> Option<&[u8]>
    ensures { IsNameIn (lent_bytes module.entry) function (lent_bytes result) }
{
    match module {
        Some(module) => name_of_function(module, function),
        None => None,
    }
}

/// Prints a name behind a function's number, where it has one.
pub fn print_name<W: Write + Drop>(out: &mut Printer<W>, name: Option<&[u8]>) -> io::Result<()>
    ensures printed { OnOk result (IsPrinted out.old out.new
        (name_words (lent_bytes name.entry))) }
    ensures steady { OnOk result (out.new.failed ≡ out.old.failed) }
    ensures failed { OnErr result (out.new.failed ≡ true) }
{
    match name {
        Some(name) => {
            out.write_all(b" (")?;
            out.write_all(name)?;
            out.write_all(b")")
        }
        None => Ok(()),
    }
}

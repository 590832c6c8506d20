//! Small bodies are translated into register code. No contract says which bodies are: a translation
//! that gave up at each of them would be proved.
//!
//! How many register instructions a body has at most follows from what one is. A register
//! instruction names the slots of its operands and of its word, so an opcode that only moves a word
//! has none of its own. The last register instruction of a body leaves it at its end.

use crate::branches::{context_of, first_table};
use crate::rows::assert_row;
use crate::spelled::{Refused, with_code};
use machine::read;
use machine_frame::{RegisterCode, translate};
use std::alloc::Global;
use wasm_validate::ValidModule;

/// A function from nothing to nothing, and a memory.
const FRONT: &str = "0061736d01000000 010401600000 03020100 0503010001";

/// How many locals and how many opcodes a row's function has at most.
const FEW: usize = 100;

/// The code of the first function, which has no parameters, if it is translated.
fn first_code(alloc: Global, valid: &ValidModule) -> Result<Option<RegisterCode>, Refused> {
    let Some(function) = valid.module().functions.get(0) else {
        return Err(Refused::Misspelled);
    };
    let body = function.code.body.as_slice();
    let locals = function.code.locals.len();
    if body.len() > FEW || locals > FEW {
        return Err(Refused::Misspelled);
    }
    let table = first_table(alloc, valid)?;
    let context = context_of(alloc, valid)?;
    let code = translate(alloc, &context, body, &table, locals as u16);
    drop(context);
    drop(table);
    Ok(code?)
}

fn code_of(alloc: Global, bytes: &[u8]) -> Result<Option<RegisterCode>, Refused> {
    let valid = read(alloc, bytes)?;
    let code = first_code(alloc, &valid);
    drop(valid);
    code
}

/// Whether a frame goes by register code from the body's first opcode on, of which there are few.
fn has_register_code(code: &RegisterCode, most: Option<usize>) -> bool {
    let Some(most) = most else {
        return false;
    };
    let count = code.instructions.len();
    count > 0 && count <= most && matches!(code.entries.get(0), Some(Some(_)))
}

/// A function's locals and body, and how many register instructions it has at most. None where it
/// has no code.
type Row = (&'static str, Option<usize>);

fn is_translated_so(alloc: Global, row: &Row) -> Result<bool, Refused> {
    let bytes = with_code(alloc, FRONT, "01", row.0, "")?;
    let code = code_of(alloc, bytes.as_slice());
    drop(bytes);
    let code = code?;
    let is_so = match &code {
        Some(code) => has_register_code(code, row.1),
        None => row.1.is_none(),
    };
    drop(code);
    Ok(is_so)
}

#[rattlefmt::skip]
static BODIES: [Row; 14] = [
    // nothing but the end
    ("00 0b", Some(1)),
    // a sum that goes into its local: once, and three times
    ("01017f 2000 4101 6a 2100 0b", Some(2)),
    ("01017f 2000 4101 6a 2100 2000 4101 6a 2100 2000 4101 6a 2100 0b", Some(4)),
    // a loop that counts a local down from 100
    ("01017f 41e400 2100 0340 2000 4101 6b 2200 0d00 0b 0b", Some(4)),
    // a loop that a comparison ends: one register instruction compares and jumps
    ("01017f 0340 2000 410a 49 0d00 0b 0b", Some(2)),
    // a branch table out of one block or of two, and a sum after the inner one
    ("01017f 0240 0240 2000 0e010001 0b 2000 4101 6a 2100 0b 0b", Some(3)),
    // a local is stored, and read back
    ("01017f 2000 2000 360200 2000 280200 2100 0b", Some(3)),
    // a local's low byte with its sign
    ("01017f 2000 c0 2100 0b", Some(2)),
    // a copy, and a fill of constants, which have to be in slots
    ("01037f 2000 2001 2002 fc0a0000 0b", Some(2)),
    ("00 4101 4102 4103 fc0b00 0b", Some(5)),
    // a loop after either, where a frame may enter
    ("01037f 2000 2001 2002 fc0a0000 0340 2000 0d00 0b 0b", Some(3)),
    ("01037f 2000 2001 2002 fc0b00 0340 2000 0d00 0b 0b", Some(3)),
    // a call of itself
    ("00 1000 0b", Some(2)),
    // a branch that keeps a value from under which another one goes has no register code
    ("00 027f 4101 4102 0c00 0b 1a 0b", None),
];

#[test]
fn small_bodies_are_translated(rt: HostRuntime) {
    for row in &BODIES {
        assert_row(&rt, is_translated_so(rt.alloc(), row), row.0);
    }
}

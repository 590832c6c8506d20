//! The kind of a module's first fault, part by part and in the bodies of its functions.

use crate::rows::{assert_number, assert_row};
use crate::spelled::{HEADER, Refused, spell, with_code};
use machine::{ModuleFault, read};
use std::alloc::Global;
use wasm_decode::decode;
use wasm_syntax::{
    Code, Function, Instruction, ItemList, LimitedModule, Limits, Module, TableType, Value,
};
use wasm_validate::{ValidFault, validate};

/// Some text, and the fault of the module that it belongs to.
type Row = (&'static str, Option<ModuleFault>);

const TYPING: Option<ModuleFault> = Some(ModuleFault::Valid(ValidFault::Typing));

const INDEX: Option<ModuleFault> = Some(ModuleFault::Valid(ValidFault::Index));

const LIMITS: Option<ModuleFault> = Some(ModuleFault::Valid(ValidFault::Limits));

const DUPLICATE: Option<ModuleFault> = Some(ModuleFault::Valid(ValidFault::DuplicateExport));

fn fault_of(alloc: Global, bytes: &[u8]) -> Option<ModuleFault> {
    read(alloc, bytes).err()
}

fn is_told_so(alloc: Global, front: &str, row: &Row) -> Result<bool, Refused> {
    let bytes = spell(alloc, front, row.0)?;
    Ok(fault_of(alloc, bytes.as_slice()) == row.1)
}

/// Types give one result, and exist.
const TYPES: &[Row] = &[
    ("", None),
    ("010d 02 60037f7f7f017f 6000027f7f", LIMITS),
    ("0302 01 00 0a04 01 02000b", INDEX),
    ("0104 01 600000 0205 01 00000001", INDEX),
];

/// Parts are told in the order of their sections, but for data segments, which come before bodies.
#[rattlefmt::skip]
const ORDER: &[Row] = &[
    // types, imports, functions
    ("0106 01 6000027f7f 0205 01 00000009 0302 01 09 0a04 01 02000b", LIMITS),
    ("0208 01 00000200818004 0302 01 09 0a04 01 02000b", LIMITS),
    // functions before tables, memories and globals
    ("0302 01 09 0405 01 70010201 0a04 01 02000b", INDEX),
    ("0302 01 09 0504 01 010201 0a04 01 02000b", INDEX),
    ("0302 01 09 0606 01 7f00 42000b 0a04 01 02000b", INDEX),
    // tables and memories before globals
    ("0405 01 70010201 0606 01 7f00 42000b", LIMITS),
    ("0504 01 010201 0606 01 7f00 42000b", LIMITS),
    // globals before exports
    ("0606 01 7f00 42000b 0705 01 01'a'0305", TYPING),
    ("0606 01 7f00 23000b 0709 02 01'a'0300 01'a'0300", INDEX),
    // within imports
    ("020c 02 00000009 00000200818004", INDEX),
    ("020c 02 00000200818004 00000009", LIMITS),
    // a second table or memory that is imported, among the imports; one of the module's own, later
    ("0104 01 600000 0211 02 01'a'01'b'01700000 01'a'01'b'01700000 0302 01 09 0a04 01 02000b",
        LIMITS),
    ("0104 01 600000 020f 02 01'a'01'b'020000 01'a'01'b'020000 0302 01 09 0a04 01 02000b", LIMITS),
    ("0211 03 000001700000 000001700000 00000009", LIMITS),
    ("0211 03 000001700000 00000009 000001700000", INDEX),
    ("0207 01 000001700001 0302 01 09 0404 01 700001 0a04 01 02000b", INDEX),
    ("0206 01 0000020001 0302 01 09 0503 01 0001 0a04 01 02000b", INDEX),
];

/// There is one table, of limits in order.
const TABLES: &[Row] = &[
    ("0207 01 000001700001", None),
    ("0207 01 000001700001 0404 01 700001", LIMITS),
    ("0407 02 700001 700001", LIMITS),
    ("0405 01 70010201", LIMITS),
    ("040a 01 70018020ffffffff0f", None),
];

/// There is one memory, of limits in range.
const MEMORIES: &[Row] = &[
    ("0206 01 0000020001 0503 01 0001", LIMITS),
    ("0208 01 00000200818004", LIMITS),
    ("0508 01 01808004808004", None),
    ("0504 01 010201", LIMITS),
    ("0506 01 0100818004", LIMITS),
];

/// The header, and imports of two globals: a constant one, and one that varies.
const TWO_GLOBALS: &str = "0061736d01000000 020b 02 0000037f00 0000037f01";

/// Globals begin with constants.
const GLOBALS: &[Row] = &[
    ("0606 01 7f01 23000b", None),
    ("0606 01 7f01 23010b", TYPING),
    ("060b 02 7f01 41000b 7f01 23020b", INDEX),
    ("0606 01 7f01 42000b", TYPING),
    ("0604 01 7f01 0b", TYPING),
    ("0607 01 7f01 2309010b", TYPING),
    ("060b 02 7f01 42000b 7f01 23020b", TYPING),
    ("060b 02 7f01 23020b 7f01 42000b", INDEX),
];

/// Two functions, of which the second takes an integer and gives one, a table and a memory.
const FURNISHED: &str = "0061736d01000000 0109 02 600000 60017f017f 0303 02 00 01 \
    0404 01 700001 0503 01 0001";

/// Exports exist, and have names of their own.
#[rattlefmt::skip]
const EXPORTS: &[Row] = &[
    ("0709 02 01'a'0001 01'b'0100 0a09 02 02000b 040020000b", None),
    ("0711 04 01'a'0001 01'b'0100 01'a'0200 01'c'0002 0a09 02 02000b 040020000b", DUPLICATE),
    ("070d 03 01'a'0001 01'c'0002 01'a'0200 0a09 02 02000b 040020000b", INDEX),
    ("0705 01 01'a'0101 0a09 02 02000b 040020000b", INDEX),
    ("0705 01 01'a'0201 0a09 02 02000b 040020000b", INDEX),
    ("0705 01 01'a'0300 0a09 02 02000b 040020000b", INDEX),
];

/// Start functions take and give nothing.
const START: &[Row] = &[
    ("0801 00 0a09 02 02000b 040020000b", None),
    ("0801 01 0a09 02 02000b 040020000b", TYPING),
    ("0801 02 0a09 02 02000b 040020000b", INDEX),
];

/// Segments have a place and an offset.
#[rattlefmt::skip]
const SEGMENTS: &[Row] = &[
    ("0907 01 00 41000b 0101 0a09 02 02000b 040020000b 0b08 01 00 41000b 0207ff", None),
    ("0907 01 01 41000b 0100 0a09 02 02000b 040020000b", INDEX),
    ("0907 01 00 42000b 0102 0a09 02 02000b 040020000b", TYPING),
    ("0907 01 00 41000b 0102 0a09 02 02000b 040020000b", INDEX),
    ("0a09 02 02000b 040020000b 0b08 01 01 41000b 0207ff", INDEX),
    ("0a09 02 02000b 040020000b 0b08 01 00 23000b 0207ff", INDEX),
    ("0606 01 7f01 41000b 0a09 02 02000b 040020000b 0b08 01 00 23000b 0207ff", TYPING),
];

/// Later parts are told in their order: of a module with all that these rows name.
#[rattlefmt::skip]
const LATER: &[Row] = &[
    // exports before the start function
    ("0709 02 01'a'0000 01'a'0000 0801 01 0a09 02 02000b 040020000b", DUPLICATE),
    ("0705 01 01'a'0005 0801 01 0a09 02 02000b 040020000b", INDEX),
    // the start function before element segments
    ("0801 01 0907 01 01 41000b 0100 0a09 02 02000b 040020000b", TYPING),
    ("0801 09 0907 01 00 42000b 0100 0a09 02 02000b 040020000b", INDEX),
    // element segments before data segments
    ("0907 01 00 42000b 0100 0a09 02 02000b 040020000b 0b06 01 01 41000b 00", TYPING),
    ("0907 01 00 41000b 0109 0a09 02 02000b 040020000b 0b06 01 00 42000b 00", INDEX),
    // data segments before bodies
    ("0a09 02 02000b 040020090b 0b06 01 00 42000b 00", TYPING),
    ("0a09 02 02000b 040042000b 0b06 01 01 41000b 00", INDEX),
    // segments and bodies from the front
    ("090d 02 00 42000b 0100 00 41000b 0109 0a09 02 02000b 040020000b", TYPING),
    ("090d 02 00 41000b 0109 00 42000b 0100 0a09 02 02000b 040020000b", INDEX),
    ("0a09 02 02000b 040020000b 0b0b 02 00 42000b 00 01 41000b 00", TYPING),
    ("0a09 02 02000b 040020000b 0b0b 02 01 41000b 00 00 42000b 00", INDEX),
    ("0a0b 02 040041000b 040020090b", TYPING),
    ("0a0b 02 040020090b 040042000b", INDEX),
];

/// The first sections, and what is after them.
static PARTS: [(&str, &[Row]); 9] = [
    (HEADER, TYPES),
    (HEADER, ORDER),
    (HEADER, TABLES),
    (HEADER, MEMORIES),
    (TWO_GLOBALS, GLOBALS),
    (FURNISHED, EXPORTS),
    (FURNISHED, START),
    (FURNISHED, SEGMENTS),
    (FURNISHED, LATER),
];

#[test]
fn the_first_part_at_fault_is_told(rt: HostRuntime) {
    for (front, rows) in &PARTS {
        for row in *rows {
            assert_row(&rt, is_told_so(rt.alloc(), front, row), row.0);
        }
    }
}

/// Types from nothing to nothing, and from integers of 32 and 64 bits to one of 32, a function of
/// the second and one of the first, and a constant global.
const BARE: &str = "0061736d01000000 010a 02 600000 60027f7e017f 0303 02 01 00 \
    0606 01 7f00 41000b";

/// The same with a table and a memory.
const WITH_BOTH: &str = "0061736d01000000 010a 02 600000 60027f7e017f 0303 02 01 00 \
    0404 01 700001 0503 01 0001 0606 01 7f00 41000b";

/// The first entry of two.
const FIRST: &str = "02 0400 2000 0b";

fn is_body_told_so(alloc: Global, front: &str, rest: &str, row: &Row) -> Result<bool, Refused> {
    let bytes = with_code(alloc, front, FIRST, row.0, rest)?;
    Ok(fault_of(alloc, bytes.as_slice()) == row.1)
}

/// Operands have the types that are taken.
const OPERANDS: &[Row] = &[
    ("00 4100 c0 c1 1a 0b", None),
    ("00 4200 c2 c3 c4 1a 0b", None),
    ("00 4200 c1 1a 0b", TYPING),
    ("00 4100 c2 1a 0b", TYPING),
    ("00 4100 c4 a7 1a 0b", TYPING),
    // an operand of another type, none, and one left over
    ("00 4100 4200 6a 1a 0b", TYPING),
    ("00 4100 6a 1a 0b", TYPING),
    ("00 4100 0240 1a 0b 0b", TYPING),
    ("00 4100 0b", TYPING),
    ("00 00 4100 0b", TYPING),
    ("00 4101 047f 4101 0b 1a 0b", TYPING),
    // results of a block that are missing or of another type
    ("00 027f 0b 1a 0b", TYPING),
    ("00 027f 4200 0c00 0b 1a 0b", TYPING),
    ("00 027f 00 4200 0b 1a 0b", TYPING),
    // arguments in their order, a constant global that is set, and `select` of two types
    ("00 4100 4200 1000 1a 0b", None),
    ("00 4200 4100 1000 1a 0b", TYPING),
    ("00 4100 2400 0b", TYPING),
    ("00 4100 4200 4100 1b 1a 0b", TYPING),
    // after a jump operands are of any type
    ("00 00 6a 1a 0b", None),
    ("00 0f 4200 1000 1a 0b", None),
    ("00 00 1b 1a 0b", None),
    ("00 00 4200 4100 1b 6a 1a 0b", TYPING),
];

/// Blocks leave what their labels take.
const BLOCKS: &[Row] = &[
    ("00 0b", None),
    ("00 027f 4100 0c00 0b 1a 0b", None),
    ("00 0240 0340 4100 0d00 0c01 0b 0b 0b", None),
    ("00 037f 0c00 0b 1a 0b", None),
    ("00 4100 0440 01 0b 0b", None),
    ("00 4100 047f 4100 05 4101 0b 1a 0b", None),
    // labels of a table: the same results, also where code is never reached
    ("00 0240 0240 4100 0e010001 0b 0b 0b", None),
    ("00 027f 4100 4100 0e010000 0b 1a 0b", None),
    ("00 027f 4100 4100 0e010001 0b 1a 0b", TYPING),
    ("00 027f 00 0e010001 0b 1a 0b", TYPING),
];

/// Indices in bodies name something.
const INDICES: &[Row] = &[
    ("00 0c01 0b", INDEX),
    ("00 0240 4100 0d02 0b 0b", INDEX),
    ("00 0240 4100 0e010002 0b 0b", INDEX),
    ("00 2000 1a 0b", INDEX),
    ("00 1002 0b", INDEX),
    ("00 4100 110200 0b", INDEX),
    ("00 2301 1a 0b", INDEX),
    ("00 4100 2401 0b", INDEX),
];

/// Memory and table are there where they are used.
const WITH_MEMORY_AND_TABLE: &[Row] = &[
    ("00 4100 280200 1a 0b", None),
    ("00 4100 280300 1a 0b", LIMITS),
    ("00 3f00 1a 0b", None),
    ("00 4100 4100 4100 fc0a0000 0b", None),
    ("00 4100 4100 4100 fc0b00 0b", None),
    ("00 4100 4100 fc0a0000 0b", TYPING),
    ("00 4100 4100 4200 fc0a0000 0b", TYPING),
    ("00 4100 4200 4100 fc0b00 0b", TYPING),
    ("00 4200 4100 4100 fc0b00 0b", TYPING),
    ("00 4100 4100 4100 fc0b00 1a 0b", TYPING),
    ("00 4100 110000 0b", None),
];

/// Where there is no memory, that is told before an alignment that is too large.
const WITHOUT_MEMORY_AND_TABLE: &[Row] = &[
    ("00 4100 280200 1a 0b", INDEX),
    ("00 4100 280300 1a 0b", INDEX),
    ("00 3f00 1a 0b", INDEX),
    ("00 4100 4100 4100 fc0a0000 0b", INDEX),
    ("00 4100 4100 4100 fc0b00 0b", INDEX),
    ("00 fc0a0000 0b", INDEX),
    ("00 4100 110000 0b", INDEX),
];

/// Bodies come last.
const BEFORE_SEGMENTS: &[Row] = &[("00 4100 0b", TYPING), ("00 0b", None)];

/// A data segment without a memory is told before the first body.
const BEHIND_SEGMENTS: &[Row] = &[("00 4100 0b", INDEX), ("00 0b", INDEX)];

/// What is before the code section, what is after it, and the second entries. Each is the body of a
/// function from nothing to nothing, after the `00` that declares no locals.
static BODIES: [(&str, &str, &[Row]); 7] = [
    (WITH_BOTH, "", OPERANDS),
    (WITH_BOTH, "", BLOCKS),
    (WITH_BOTH, "", INDICES),
    (WITH_BOTH, "", WITH_MEMORY_AND_TABLE),
    (BARE, "", WITHOUT_MEMORY_AND_TABLE),
    (BARE, "", BEFORE_SEGMENTS),
    (BARE, "0b06 01 00 41000b 00", BEHIND_SEGMENTS),
];

#[test]
fn the_first_body_at_fault_is_told(rt: HostRuntime) {
    for (front, rest, rows) in &BODIES {
        for row in *rows {
            assert_row(&rt, is_body_told_so(rt.alloc(), front, rest, row), row.0);
        }
    }
}

/// What no bytes spell, since the decoder would refuse it.
enum Part {
    /// A body, by the first bytes of its instructions.
    Body(&'static [u8]),
    /// The least and the greatest size of a table.
    Table(u32, u32),
}

/// A part, and the fault of a module with it alone.
#[rattlefmt::skip]
static UNSPELLED: [(Part, Option<ValidFault>); 8] = [
    // an `else` without an `if`, and a second one
    (Part::Body(&[0x05, 0x0b]), Some(ValidFault::Typing)),
    (Part::Body(&[0x02, 0x05, 0x0b, 0x0b]), Some(ValidFault::Typing)),
    (Part::Body(&[0x41, 0x04, 0x05, 0x05, 0x0b, 0x0b]), Some(ValidFault::Typing)),
    // nothing may follow the last end, and it has to come
    (Part::Body(&[0x0b, 0x01]), Some(ValidFault::Typing)),
    (Part::Body(&[0x0b, 0x0b]), Some(ValidFault::Typing)),
    (Part::Body(&[0x02, 0x0b]), Some(ValidFault::Typing)),
    // up to 2 ^ 32 entries, and limits in order
    (Part::Table(0xffff_ffff, 0xffff_ffff), None),
    (Part::Table(0xffff_ffff, 0xffff_fffe), Some(ValidFault::Limits)),
];

fn instructions(alloc: Global, opcodes: &[u8]) -> Result<ItemList<Instruction>, Refused> {
    let mut body = ItemList::new(alloc);
    for opcode in opcodes {
        body.push(match opcode {
            0x01 => Instruction::Nop,
            0x02 => Instruction::Block { block_type: None },
            0x04 => Instruction::If { block_type: None },
            0x05 => Instruction::Else,
            0x0b => Instruction::End,
            0x41 => Instruction::Const {
                value: Value::I32(0),
            },
            _ => return Err(Refused::Misspelled),
        })?;
    }
    Ok(body)
}

/// A function without locals, of the first type.
fn function(alloc: Global, body: ItemList<Instruction>) -> Function {
    let locals = ItemList::new(alloc);
    let code = Code { locals, body };
    Function {
        function_type: 0,
        code,
    }
}

fn add(alloc: Global, made: &mut Module, part: &Part) -> Result<(), Refused> {
    match part {
        Part::Body(opcodes) => {
            let body = instructions(alloc, opcodes)?;
            made.functions.push(function(alloc, body))?;
        }
        Part::Table(minimum, maximum) => {
            let limits = Limits {
                minimum: *minimum,
                maximum: Some(*maximum),
            };
            made.tables.push(TableType { limits })?;
        }
    }
    Ok(())
}

/// A type from nothing to nothing.
const TYPED: &[u8] = b"\0asm\x01\0\0\0\x01\x04\x01\x60\0\0";

fn fault_of_module(alloc: Global, made: Module) -> Result<Option<ValidFault>, Refused> {
    let Some(limited) = LimitedModule::of(made) else {
        return Err(Refused::Misspelled);
    };
    match validate(alloc, limited).err() {
        Some(ValidFault::Memory) => Err(Refused::Memory),
        told => Ok(told),
    }
}

/// The fault of a module with this part alone. No `?` is while the module is owned.
fn fault_with(alloc: Global, part: &Part) -> Result<Option<ValidFault>, Refused> {
    let mut made = decode(alloc, TYPED)?.into_module();
    let added = add(alloc, &mut made, part);
    let told = fault_of_module(alloc, made);
    added?;
    told
}

/// A module with everything that the others have.
static WHOLE: [u8; 65] =
    *b"\0asm\x01\0\0\0\x01\x0a\x02\x60\0\0\x60\x02\x7f\x7e\x01\x7f\x03\x03\x02\x01\0\x04\x04\x01\
    \x70\0\x01\x05\x03\x01\0\x01\x06\x06\x01\x7f\0\x41\0\x0b\x0a\x13\x02\x04\0\x20\0\x0b\x0c\0\x41\
    \0\x42\0\x10\0\x04\x40\x01\x0b\x0b";

fn functions_read(alloc: Global, bytes: &[u8]) -> Result<usize, ModuleFault> {
    let valid = read(alloc, bytes)?;
    let count = valid.module().functions.len();
    drop(valid);
    Ok(count)
}

/// `scripts/runs/refused-allocations` refuses each allocation in turn, and then this ends out of
/// memory.
#[test]
fn modules_are_valid_or_not(rt: HostRuntime) -> Result<(), Refused> {
    assert_row(&rt, Ok(functions_read(rt.alloc(), &WHOLE)? == 2), "WHOLE");
    for (place, (part, fault)) in UNSPELLED.iter().enumerate() {
        assert_number(&rt, fault_with(rt.alloc(), part)? == *fault, place);
    }
    Ok(())
}

//! Which bytes are modules, where the first fault of others is told, and limits at their edges.

use crate::decoding::Wanted::{Accepted, Past};
use crate::rows::{assert_number, assert_row};
use crate::spelled::{HEADER, Refused, append, spell};
use std::alloc::Global;
use wasm_decode::DecodeFault::{self, Float, Malformed};
use wasm_decode::ModuleLimit::{
    self, Bytes, Functions, Globals, Instructions, Locals, Parameters, TableEntries,
};
use wasm_decode::{PassedLimit, decode};
use wasm_syntax::{Instruction, Module, Value};

/// The header, a type from nothing to nothing, and a function of that type: 18 bytes.
const ONE_FUNCTION: &str = "0061736d01000000 010401600000 03020100";

/// What is before the code section of the small module: 44 bytes.
const BEFORE_CODE: &str = "0061736d01000000 010401600000 03020100 0503010001 \
    071302 06'_start'0000 06'memory'0200";

/// An empty function `_start` and a memory.
const IDLE: &str = "0061736d01000000 010401600000 03020100 0503010001 \
    071302 06'_start'0000 06'memory'0200 0a040102000b";

/// The same with custom sections in all places.
const CUSTOM_EVERYWHERE: &str = "0061736d01000000 000504'name' 010401600000 000504'name' \
    03020100 000504'name' 0503010001 000504'name' 071302 06'_start'0000 06'memory'0200 \
    000504'name' 0a040102000b 000504'name' 000504'name'";

/// Writes a line and exits with 7.
const HELLO: &str = "0061736d01000000 01100360000060047f7f7f7f017f60017f00 \
    024602 16'wasi_snapshot_preview1'08'fd_write'0001 \
    16'wasi_snapshot_preview1'09'proc_exit'0002 \
    03020100 0503010001 071302 06'_start'0002 06'memory'0200 \
    0a130111004101410041014110 10001a41071001 0b 0b11010041000b0b080000000300000068690a";

/// Two texts, and the fault of the bytes that they spell together.
type Told = (&'static str, &'static str, Option<DecodeFault>);

#[rattlefmt::skip]
static TOLD: [Told; 109] = [
    // whole modules
    ("", "", Some(Malformed(0))),
    ("", "0061736d02000000", Some(Malformed(4))),
    (HEADER, "", None),
    (IDLE, "", None),
    (HELLO, "", None),
    (HEADER, "01 8480808000 01600000", None),
    (HEADER, "01 848080808000 01600000", Some(Malformed(9))),
    (HEADER, "01 8480808010 01600000", Some(Malformed(9))),
    (HEADER, "0105ffffffff0f", Some(Malformed(15))),
    // unknown, twice, out of order: at the id, before the size is read
    (HEADER, "0cff", Some(Malformed(8))),
    (HEADER, "010401600000 010401600000", Some(Malformed(14))),
    (HEADER, "010401600000 01ff", Some(Malformed(14))),
    (HEADER, "03020100 010401600000", Some(Malformed(12))),
    // longer than the input, shorter than what it holds, longer than what it holds
    (HEADER, "010501600000", Some(Malformed(9))),
    (HEADER, "010301600000", Some(Malformed(13))),
    (HEADER, "01050160000000", Some(Malformed(14))),
    // custom sections anywhere, which begin with a name
    (CUSTOM_EVERYWHERE, "", None),
    (HEADER, "0000", Some(Malformed(10))),
    (HEADER, "000105", Some(Malformed(10))),
    (HEADER, "000201ff", Some(Malformed(10))),
    // an item that isn't whole within its section
    (HEADER, "0203010000", Some(Malformed(13))),
    (HEADER, "02020100 010401600000", Some(Malformed(12))),
    // a name that isn't UTF-8
    (HEADER, "07050101ff0000", Some(Malformed(11))),
    // a flag of limits, a mutability, a type of values and a kind of export that there isn't
    (HEADER, "0503010201", Some(Malformed(11))),
    (HEADER, "0606017f0241000b", Some(Malformed(12))),
    (HEADER, "01050160017000", Some(Malformed(13))),
    (HEADER, "07050101610400", Some(Malformed(13))),
    // the first fault in the order of the bytes
    (HEADER, "01020161 0cff", Some(Malformed(11))),
    // floats: a type of locals, instructions, and the type of a block
    (BEFORE_CODE, "0a06010401017d0b", Some(Float(50))),
    (BEFORE_CODE, "0a09010700 43000000000b", Some(Float(49))),
    (BEFORE_CODE, "0a070105 00 027d0b0b", Some(Float(50))),
    (BEFORE_CODE, "0a05010300c50b", Some(Malformed(49))),
    // after the prefix: numbers in more bytes, unknown ones, six bytes, and other bytes than zeros
    (BEFORE_CODE, "0a10010e00 410041004100 fc8a80000000 0b", None),
    (BEFORE_CODE, "0a11010f00 410041004100 fc8b8080800000 0b", None),
    (BEFORE_CODE, "0a0e010c00 410041004100 fc080000 0b", Some(Malformed(56))),
    (BEFORE_CODE, "0a0d010b00 410041004100 fc0c00 0b", Some(Malformed(56))),
    (BEFORE_CODE, "0a0e010c00 410041004100 fc8a0100 0b", Some(Malformed(56))),
    (BEFORE_CODE, "0a13011100 410041004100 fc8a80808080000000 0b", Some(Malformed(56))),
    (BEFORE_CODE, "0a0e010c00 410041004100 fc0a0100 0b", Some(Malformed(57))),
    (BEFORE_CODE, "0a0e010c00 410041004100 fc0a0001 0b", Some(Malformed(58))),
    (BEFORE_CODE, "0a0d010b00 410041004100 fc0b01 0b", Some(Malformed(57))),
    (BEFORE_CODE, "0a0401 0200fc", Some(Malformed(50))),
    // a count of data segments, which came later
    (BEFORE_CODE, "0c0100 0a040102000b", Some(Malformed(44))),
    // constants of more bits than their type has
    (BEFORE_CODE, "0a0b0109 00 418080808008 1a0b", Some(Malformed(50))),
    (BEFORE_CODE, "0a10010e 00 4280808080808080808001 1a0b", Some(Malformed(50))),
    // the size of an entry: beyond the section, and one byte too many in it
    (BEFORE_CODE, "0a040103000b", Some(Malformed(47))),
    (BEFORE_CODE, "0a05010300 0b01", Some(Malformed(50))),
    // a body without an end, and an `else` without an `if`
    (BEFORE_CODE, "0a040102 0001", Some(Malformed(50))),
    (BEFORE_CODE, "0a06010400 050b0b", Some(Malformed(49))),
    (BEFORE_CODE, "0a08010600 0240050b0b", Some(Malformed(51))),
    (BEFORE_CODE, "0a08010600 0440050b0b", None),
    // as many entries as functions
    (ONE_FUNCTION, "", Some(Malformed(18))),
    (ONE_FUNCTION, "0cff", Some(Malformed(18))),
    (ONE_FUNCTION, "0b0100", Some(Malformed(21))),
    (ONE_FUNCTION, "0b0101", Some(Malformed(21))),
    (ONE_FUNCTION, "0a0102", Some(Malformed(20))),
    (HEADER, "0a0101", Some(Malformed(10))),
    (HEADER, "030100 0a0100", None),
    (HEADER, "030100", None),
    (HEADER, "0a0100", None),
    // each item of a section but the code section: a type, and the type of a result
    (HEADER, "0104 01 61 0000", Some(Malformed(11))),
    (HEADER, "0105 01 6000 0170", Some(Malformed(14))),
    (HEADER, "0105 01 6000 017d", Some(Float(14))),
    // an import: names, kind, index, table, memory and global
    (HEADER, "0206 01 01ff 00 0000", Some(Malformed(11))),
    (HEADER, "0206 01 00 01ff 0000", Some(Malformed(12))),
    (HEADER, "0205 01 0000 0400", Some(Malformed(13))),
    (HEADER, "0209 01 0000 00 8080808010", Some(Malformed(14))),
    (HEADER, "0207 01 0000 01 7f0000", Some(Malformed(14))),
    (HEADER, "0207 01 0000 01 700200", Some(Malformed(15))),
    (HEADER, "0206 01 0000 02 0200", Some(Malformed(14))),
    (HEADER, "0206 01 0000 03 7000", Some(Malformed(14))),
    (HEADER, "0206 01 0000 03 7c00", Some(Float(14))),
    (HEADER, "0206 01 0000 03 7f02", Some(Malformed(15))),
    // a function, a table, a memory and a global
    (HEADER, "0306 01 8080808010", Some(Malformed(11))),
    (HEADER, "0404 01 6f0000", Some(Malformed(11))),
    (HEADER, "0404 01 700200", Some(Malformed(12))),
    (HEADER, "0507 01 00 8080808010", Some(Malformed(12))),
    (HEADER, "0606 01 7000 41000b", Some(Malformed(11))),
    (HEADER, "0606 01 7d00 41000b", Some(Float(11))),
    (HEADER, "0606 01 7f00 ff000b", Some(Malformed(13))),
    (HEADER, "0609 01 7f00 43000000000b", Some(Float(13))),
    // an export, the start function, element and data segments
    (HEADER, "0709 01 0161 00 8080808010", Some(Malformed(14))),
    (HEADER, "0805 8080808010", Some(Malformed(10))),
    (HEADER, "0906 01 8080808010", Some(Malformed(11))),
    (HEADER, "0904 01 00 ff0b", Some(Malformed(12))),
    (HEADER, "090b 01 00 41000b 01 8080808010", Some(Malformed(16))),
    (HEADER, "0b06 01 8080808010", Some(Malformed(11))),
    (HEADER, "0b06 01 00 41000b 05", Some(Malformed(15))),
    // each item of an instruction, and of its locals: how many runs, and their type
    (BEFORE_CODE, "0a08 01 06 8080808010 0b", Some(Malformed(48))),
    (BEFORE_CODE, "0a06 01 04 01 0170 0b", Some(Malformed(50))),
    // the type of a block, labels, and those of a table
    (BEFORE_CODE, "0a07 01 05 00 02700b0b", Some(Malformed(50))),
    (BEFORE_CODE, "0a0a 01 08 00 0c 8080808010 0b", Some(Malformed(50))),
    (BEFORE_CODE, "0a0a 01 08 00 0d 8080808010 0b", Some(Malformed(50))),
    (BEFORE_CODE, "0a0c 01 0a 00 0e01 8080808010 00 0b", Some(Malformed(51))),
    (BEFORE_CODE, "0a0b 01 09 00 0e00 8080808010 0b", Some(Malformed(51))),
    // calls, and the byte after an indirect one
    (BEFORE_CODE, "0a0a 01 08 00 10 8080808010 0b", Some(Malformed(50))),
    (BEFORE_CODE, "0a0b 01 09 00 11 8080808010 00 0b", Some(Malformed(50))),
    (BEFORE_CODE, "0a07 01 05 00 110001 0b", Some(Malformed(51))),
    // locals and globals
    (BEFORE_CODE, "0a0a 01 08 00 20 8080808010 0b", Some(Malformed(50))),
    (BEFORE_CODE, "0a0a 01 08 00 21 8080808010 0b", Some(Malformed(50))),
    (BEFORE_CODE, "0a0a 01 08 00 22 8080808010 0b", Some(Malformed(50))),
    (BEFORE_CODE, "0a0a 01 08 00 23 8080808010 0b", Some(Malformed(50))),
    (BEFORE_CODE, "0a0a 01 08 00 24 8080808010 0b", Some(Malformed(50))),
    // memory: alignment, offset, and the byte after its size
    (BEFORE_CODE, "0a0b 01 09 00 28 8080808010 00 0b", Some(Malformed(50))),
    (BEFORE_CODE, "0a0b 01 09 00 28 00 8080808010 0b", Some(Malformed(51))),
    (BEFORE_CODE, "0a0b 01 09 00 36 8080808010 00 0b", Some(Malformed(50))),
    (BEFORE_CODE, "0a0b 01 09 00 36 00 8080808010 0b", Some(Malformed(51))),
    (BEFORE_CODE, "0a06 01 04 00 3f01 0b", Some(Malformed(50))),
    (BEFORE_CODE, "0a06 01 04 00 4001 0b", Some(Malformed(50))),
];

/// What is told of a long module.
enum Wanted {
    Accepted,
    Malformed(usize),
    /// A limit that is passed, and where.
    Past(ModuleLimit, usize),
}

/// Two texts, a third one and how often it is after them, a fourth one, a fifth one that is as
/// often after it, and what is told of all.
type Long = (
    &'static str,
    &'static str,
    &'static str,
    usize,
    &'static str,
    &'static str,
    Wanted,
);

#[rattlefmt::skip]
static LONG: [Long; 28] = [
    // parameters of a type
    (HEADER, "018502 01 60 8002", "7f", 256, "00", "", Accepted),
    (HEADER, "0104 01 60 8102", "", 0, "", "", Past(Parameters, 12)),
    // imported functions: the one too many at its kind
    (HEADER, "02828001 8020", "0000 0000", 4096, "", "", Accepted),
    (HEADER, "02858001 8120", "0000 0000", 4096, "0000 00", "", Past(Functions, 16400)),
    (HEADER, "02878001 8120", "0000 0000", 4096, "0000 020000", "", Accepted),
    (HEADER, "02858001 8120", "0000 0000", 4096, "0000 04", "", Wanted::Malformed(16400)),
    // own ones beside imported ones
    (HEADER, "02828001 8020", "0000 0000", 4096, "030101", "", Past(Functions, 16400)),
    // functions, before the indices of their types
    (HEADER, "0302 8120", "", 0, "", "", Past(Functions, 10)),
    (HEADER, "0302 8020", "", 0, "", "", Wanted::Malformed(12)),
    // the least size of a table, before its greatest
    (HEADER, "0405 01 70 00 8020", "", 0, "", "", Accepted),
    (HEADER, "0405 01 70 00 8120", "", 0, "", "", Past(TableEntries, 13)),
    (HEADER, "0405 01 70 01 8120", "", 0, "", "", Past(TableEntries, 13)),
    (HEADER, "0208 01 0000 01 70 00 8120", "", 0, "", "", Past(TableEntries, 16)),
    // globals
    (HEADER, "068228 8008", "7f00 41000b", 1024, "", "", Accepted),
    (HEADER, "0602 8108", "", 0, "", "", Past(Globals, 10)),
    // instructions of an initialiser
    (HEADER, "068320 01 7f00", "01", 4095, "0b", "", Accepted),
    (HEADER, "068420 01 7f00", "01", 4096, "0b", "", Past(Instructions, 4110)),
    // a count decides nothing before its items are read
    (HEADER, "0105 ffffffff0f", "", 0, "", "", Wanted::Malformed(15)),
    // locals: a run too long is told before its type
    (ONE_FUNCTION, "0a07 01 05 01 8002 7f 0b", "", 0, "", "", Accepted),
    (ONE_FUNCTION, "0a05 01 03 01 8102", "", 0, "", "", Past(Locals, 23)),
    (ONE_FUNCTION, "0a0a 01 08 02 8001 7f 8001 7e 0b", "", 0, "", "", Accepted),
    (ONE_FUNCTION, "0a09 01 07 02 8001 7f 8101 7d", "", 0, "", "", Past(Locals, 26)),
    (ONE_FUNCTION, "0a0a 01 08 01 ffffffff0f 7f 0b", "", 0, "", "", Past(Locals, 23)),
    // instructions: the one too many, whatever it is
    (ONE_FUNCTION, "0a8420 01 8120 00", "01", 4095, "0b", "", Accepted),
    (ONE_FUNCTION, "0a8520 01 8220 00", "01", 4096, "0b", "", Past(Instructions, 4121)),
    (ONE_FUNCTION, "0a8520 01 8220 00", "01", 4096, "ff", "", Past(Instructions, 4121)),
    (ONE_FUNCTION, "0a8420 01 8120 00", "01", 4096, "", "", Wanted::Malformed(4121)),
    // as many functions as allowed
    (HEADER, "038220 8020", "00", 4096, "0a8260 8020", "02000b", Accepted),
];

fn fault_of(alloc: Global, bytes: &[u8]) -> Option<DecodeFault> {
    decode(alloc, bytes).err()
}

fn is_told_so(alloc: Global, row: &Told) -> Result<bool, Refused> {
    let bytes = spell(alloc, row.0, row.1)?;
    Ok(fault_of(alloc, bytes.as_slice()) == row.2)
}

fn append_times(bytes: &mut Vec<u8>, text: &str, times: usize) -> Result<(), Refused> {
    for _ in 0..times {
        append(bytes, text)?;
    }
    Ok(())
}

fn append_long(bytes: &mut Vec<u8>, row: &Long) -> Result<(), Refused> {
    append_times(bytes, row.2, row.3)?;
    append(bytes, row.4)?;
    append_times(bytes, row.5, row.3)
}

fn fault_wanted(wanted: &Wanted) -> Option<DecodeFault> {
    match wanted {
        Accepted => None,
        Wanted::Malformed(at) => Some(Malformed(*at)),
        Past(limit, at) => Some(DecodeFault::Limit(PassedLimit {
            limit: *limit,
            at: *at,
        })),
    }
}

fn is_long_told_so(alloc: Global, row: &Long) -> Result<bool, Refused> {
    let mut bytes = spell(alloc, row.0, row.1)?;
    append_long(&mut bytes, row)?;
    Ok(fault_of(alloc, bytes.as_slice()) == fault_wanted(&row.6))
}

/// The small module, of 50 bytes.
const SMALL: &[u8; 50] = b"\0asm\x01\0\0\0\x01\x04\x01\x60\0\0\x03\x02\x01\0\x05\x03\x01\0\x01\
    \x07\x13\x02\x06_start\0\0\x06memory\x02\0\x0a\x04\x01\x02\0\x0b";

/// Of its fronts the header, alone and with the types, and the whole are modules.
fn is_front_told_so(alloc: Global, len: usize) -> bool {
    let is_whole = len == 8 || len == 14 || len == 50;
    match SMALL.get(..len) {
        Some(front) => fault_of(alloc, front).is_none() == is_whole,
        None => false,
    }
}

#[test]
fn the_first_fault_is_told(rt: HostRuntime) {
    for row in &TOLD {
        assert_row(&rt, is_told_so(rt.alloc(), row), row.1);
    }
    for row in &LONG {
        assert_row(&rt, is_long_told_so(rt.alloc(), row), row.1);
    }
    for len in 0..=50 {
        assert_number(&rt, is_front_told_so(rt.alloc(), len), len);
    }
}

/// What is read of bytes, or what is at fault.
enum Read {
    Fault(DecodeFault),
    /// The greatest size of the first table.
    Size(u32),
    /// What the first global begins with.
    Constant(Value),
    /// How many types, imports, functions, exports and data segments there are.
    Counts([usize; 5]),
}

/// Reads a line, writes it, and goes on until nothing is read.
pub const ECHO: &str =
    "0061736d01000000010c0260000060047f7f7f7f017f02440216776173695f736e617073686f745f \
    70726576696577310766645f72656164000116776173695f736e617073686f745f70726576696577 \
    310866645f77726974650001030201000503010001071302065f73746172740002066d656d6f7279 \
    02000a31012f000340410041004101411010001a4110280200450d01410c41102802003602004101 \
    41084101411410011a0c000b0b0b12010041000b0c400000000010000040000000";

/// Two texts, and what is read of the bytes that they spell together: examples of the LEB128
/// description, a spelling longer than needed, numbers of all bits and of too many, and all of a
/// module.
#[rattlefmt::skip]
static READ: [(&str, &str, Read); 14] = [
    (HEADER, "0407 017001 00 e58e26", Read::Size(624_485)),
    (HEADER, "0406 017001 00 8001", Read::Size(128)),
    (HEADER, "0409 017001 00 8380808000", Read::Size(3)),
    (HEADER, "0608 017f00 41c0bb78 0b", Read::Constant(Value::I32(0xfffe_1dc0))),
    (HEADER, "0606 017f00 417f 0b", Read::Constant(Value::I32(0xffff_ffff))),
    (HEADER, "0607 017f00 41807f 0b", Read::Constant(Value::I32(0xffff_ff80))),
    (HEADER, "060a 017f00 41feffffff7f 0b", Read::Constant(Value::I32(0xffff_fffe))),
    (HEADER, "0606 017e00 427f 0b", Read::Constant(Value::I64(0xffff_ffff_ffff_ffff))),
    (HEADER, "060f 017e00 428080808080808080807f 0b",
        Read::Constant(Value::I64(0x8000_0000_0000_0000))),
    (HEADER, "0409 017001 00 8380808010", Read::Fault(Malformed(14))),
    (HEADER, "040a 017001 00 838080808000", Read::Fault(Malformed(14))),
    (HEADER, "0405 017001 00 80", Read::Fault(Malformed(14))),
    (HEADER, "060a 017f00 418080808070 0b", Read::Fault(Malformed(14))),
    (ECHO, "", Read::Counts([2, 2, 1, 2, 1])),
];

fn has_size(module: &Module, size: u32) -> bool {
    match module.tables.get(0) {
        Some(table) => table.limits.maximum == Some(size),
        None => false,
    }
}

fn has_constant(module: &Module, wanted: &Value) -> bool {
    let Some(global) = module.globals.get(0) else {
        return false;
    };
    match global.initial.get(0) {
        Some(Instruction::Const { value }) => value == wanted,
        _ => false,
    }
}

fn has_counts(module: &Module, counts: &[usize; 5]) -> bool {
    let lengths = [
        module.types.len(),
        module.imports.len(),
        module.functions.len(),
        module.exports.len(),
        module.data_segments.len(),
    ];
    lengths == *counts
}

fn has(module: &Module, wanted: &Read) -> bool {
    match wanted {
        Read::Fault(_) => false,
        Read::Size(size) => has_size(module, *size),
        Read::Constant(value) => has_constant(module, value),
        Read::Counts(counts) => has_counts(module, counts),
    }
}

fn is_fault(fault: DecodeFault, wanted: &Read) -> Result<bool, Refused> {
    match wanted {
        Read::Fault(wanted) if *wanted == fault => Ok(true),
        _ => Err(Refused::from(fault)),
    }
}

fn is_read_so(alloc: Global, row: &(&str, &str, Read)) -> Result<bool, Refused> {
    let bytes = spell(alloc, row.0, row.1)?;
    let read = decode(alloc, bytes.as_slice());
    drop(bytes);
    match read {
        Ok(module) => {
            let is_so = has(module.module(), &row.2);
            drop(module);
            Ok(is_so)
        }
        Err(fault) => is_fault(fault, &row.2),
    }
}

/// A custom section fills a module, whose size is 2 ^ 21 bytes then.
#[rattlefmt::skip]
static SIZES: [Long; 3] = [
    (HEADER, "00f4ff7f", "00", 2_097_140, "", "", Accepted),
    (HEADER, "00f5ff7f", "00", 2_097_141, "", "", Past(Bytes, 2_097_152)),
    ("", "", "00", 2_097_153, "", "", Past(Bytes, 2_097_152)),
];

/// `scripts/runs/refused-allocations` refuses each allocation in turn, and then this ends out of
/// memory.
#[test]
fn modules_are_read(rt: HostRuntime) -> Result<(), Refused> {
    for row in &READ {
        assert_row(&rt, Ok(is_read_so(rt.alloc(), row)?), row.1);
    }
    for row in &SIZES {
        assert_row(&rt, Ok(is_long_told_so(rt.alloc(), row)?), row.1);
    }
    Ok(())
}

/// What each opcode is the first byte of, sixteen in a line: an instruction of integers or of
/// memory (`i`), one of floats (`f`), or none.
static KINDS: &[u8; 256] = b"\
    iiiiii-----iiiii\
    ii--------ii----\
    iiiii---iiffiiii\
    iiiiiiiiffiiiiii\
    iiiffiiiiiiiiiii\
    iiiiiiiiiiifffff\
    fffffffiiiiiiiii\
    iiiiiiiiiiiiiiii\
    iiiiiiiiiiifffff\
    ffffffffffffffff\
    fffffffiffffiiff\
    ffffffffffffffff\
    iiiii-----------\
    ----------------\
    ----------------\
    ------------i---";

/// By the fault at place 51. Want of memory tells no kind.
fn kind_by(fault: Option<DecodeFault>) -> Result<u8, Refused> {
    match fault {
        Some(Float(51)) => Ok(b'f'),
        Some(Malformed(51)) => Ok(b'-'),
        Some(DecodeFault::Memory) => Err(Refused::Memory),
        _ => Ok(b'i'),
    }
}

/// What is told of an opcode at place 51, within an `if`.
fn kind_told(alloc: Global, opcode: u8) -> Result<u8, Refused> {
    let mut bytes = spell(alloc, BEFORE_CODE, "0a0a0108 00 0440")?;
    bytes.push(opcode)?;
    append(&mut bytes, "4000 0b0b")?;
    kind_by(fault_of(alloc, bytes.as_slice()))
}

#[test]
fn opcodes_are_of_integers_of_floats_or_none(rt: HostRuntime) -> Result<(), Refused> {
    for (opcode, kind) in KINDS.iter().enumerate() {
        assert_number(&rt, kind_told(rt.alloc(), opcode as u8)? == *kind, opcode);
    }
    Ok(())
}

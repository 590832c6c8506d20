//! Modules as bytes, and what `wasmhost check` says of them.

use crate::asking::ECHO;
use crate::rows::assert_row;
use command_words::{Printer, Status, check_bytes};
use hex::decode;
use std::alloc::Global;
use std::test::Fail;

pub const HEADER: &str = "0061736d01000000";

const TYPES: &str = "010401600000";

const FUNCTIONS: &str = "03020100";

const MEMORIES: &str = "0503010001";

const EXPORTS: &str = "071302065f737461727400 00066d656d6f72790200";

pub(crate) const EMPTY_BODY: &str = "0a040102000b";

/// All but the code section, 44 bytes, and all before the exports, 23 bytes.
pub(crate) const BEFORE_CODE: &str = "0061736d01000000 010401600000 03020100 0503010001 \
     071302065f737461727400 00066d656d6f72790200";

const BEFORE_EXPORTS: &str = "0061736d01000000 010401600000 03020100 0503010001";

/// The function exported as `_start` twice, and no memory exported.
const TWO_STARTS: &str = "071302065f73746172740000065f73746172740000";

const NO_MEMORY: &str = "070a01065f73746172740000";

/// An import of the first type of a function `f` of `env`, and of `proc_exit`.
const UNKNOWN_CALL: &str = "02090103656e7601660000";

const CALL_WITHOUT_CODE: &str =
    "02240116776173695f736e617073686f745f70726576696577310970726f635f657869740000";

/// What follows one import: the function 1 is exported as `_start`.
const BEHIND_IMPORTS: &str =
    "03020100 0503010001 071302065f737461727400 01066d656d6f72790200 0a040102000b";

/// Writes a line and exits with 7.
pub(crate) const HELLO: [&str; 8] = [
    HEADER,
    "01100360000060047f7f7f7f017f60017f00",
    "02460216776173695f736e617073686f745f70726576696577310866645f77726974650001",
    "16776173695f736e617073686f745f70726576696577310970726f635f657869740002",
    "030201000503010001071302065f73746172740002066d656d6f72790200",
    "0a1301110041014100410141101000",
    "1a410710010b",
    "0b11010041000b0b080000000300000068690a",
];

/// All of the small module.
const SMALL: [u8; 50] =
    *b"\0asm\x01\0\0\0\x01\x04\x01\x60\0\0\x03\x02\x01\0\x05\x03\x01\0\x01\x07\x13\x02\x06_start\0\
    \0\x06memory\x02\0\x0a\x04\x01\x02\0\x0b";

/// How a module is not accepted that is to be.
#[derive(Debug, Drop)]
enum Refused {
    Memory,
    Otherwise,
}

/// The bytes of these texts together, without their spaces.
pub(crate) fn bytes_of(alloc: Global, texts: &[&str]) -> Result<Vec<u8>, Fail> {
    let mut bytes = Vec::new(alloc);
    for text in texts {
        for digits in text.split(' ') {
            bytes.extend_from_slice(decode(alloc, digits)?.as_slice())?;
        }
    }
    Ok(bytes)
}

/// Texts of a module, the status, and the line.
type Row = (&'static [&'static str], Status, &'static str);

fn is_told_so(alloc: Global, row: &Row) -> Result<bool, Fail> {
    let bytes = bytes_of(alloc, row.0)?;
    let mut out = Vec::new(alloc);
    let status = check_bytes(
        alloc,
        bytes.as_slice(),
        256,
        false,
        &mut Printer::new(&mut out, false),
    );
    drop(bytes);
    let is_so = status == row.1 && out.as_slice() == row.2.as_bytes();
    drop(out);
    Ok(is_so)
}

/// An empty custom section called `name`.
const CUSTOM: &str = "0005046e616d65";

#[rattlefmt::skip]
static MODULES: [Row; 31] = [
    // whole modules
    (&[], Status::Refused, "refused B1 Malformed at 0\n"),
    (&[HEADER], Status::Refused, "refused L1 NoStart\n"),
    (&[BEFORE_CODE, EMPTY_BODY], Status::Done, "accepted\n"),
    (&HELLO, Status::Done, "accepted\n"),
    // the size of a section in more bytes than it needs
    (&[HEADER, "01848080800001600000", FUNCTIONS, MEMORIES, EXPORTS, EMPTY_BODY], Status::Done,
        "accepted\n"),
    (&[HEADER, "0184808080800001600000", FUNCTIONS, MEMORIES, EXPORTS, EMPTY_BODY], Status::Refused,
        "refused B1 Malformed at 9\n"),
    (&[HEADER, "01848080801001600000", FUNCTIONS, MEMORIES, EXPORTS, EMPTY_BODY], Status::Refused,
        "refused B1 Malformed at 9\n"),
    // the first faults of bodies
    (&[BEFORE_CODE, "0a06010401017d0b"], Status::Refused,
        "refused B2 Float at 50\n\
         f32 in function 0; in C printf has floats, but not with \
         -lc-printscan-no-floating-point\n"),
    (&[BEFORE_CODE, "0a0c010a00 4101047f41010b1a0b"], Status::Refused, "refused V1 Typing\n"),
    (&[BEFORE_CODE, "0a0a010800 41002803001a0b"], Status::Refused, "refused V3 Limits\n"),
    // other faults of the decoder and the validator, and a module without a memory for the host
    (&["0061736d02000000"], Status::Refused, "refused B1 Malformed at 4\n"),
    (&[HEADER, "01050160017d00"], Status::Refused,
        "refused B2 Float at 13\n\
         f32 in type 0 of no function; in C printf has floats, but not with \
         -lc-printscan-no-floating-point\n"),
    (&[HEADER, "010401608102"], Status::Refused,
        "refused B3 Limit\nmore than 256 parameters in one type, at byte 12\n"),
    (&[BEFORE_CODE, "0a0601040010050b"], Status::Refused, "refused V2 Index\n"),
    (&[BEFORE_EXPORTS, TWO_STARTS, EMPTY_BODY], Status::Refused, "refused V4 DuplicateExport\n"),
    (&[BEFORE_EXPORTS, NO_MEMORY, EMPTY_BODY], Status::Refused, "refused L2 NoMemory\n"),
    // imports that the host doesn't offer, or with another type; a byte of data at the last
    // place of memory, and one after it; as many pages as `check` allows, and one more
    (&[HEADER, TYPES, UNKNOWN_CALL, BEHIND_IMPORTS], Status::Refused,
        "refused L3 UnknownImport\nimport env.f isn't one of the 31 calls\n"),
    (&[HEADER, TYPES, CALL_WITHOUT_CODE, BEHIND_IMPORTS], Status::Refused,
        "refused L4 ImportType\n\
         import wasi_snapshot_preview1.proc_exit has another type than this call\n"),
    (&[BEFORE_CODE, EMPTY_BODY, "0b09010041ffff030b0100"], Status::Done, "accepted\n"),
    (&[BEFORE_CODE, EMPTY_BODY, "0b090100418080040b0100"], Status::Refused,
        "refused L5 InitRange\n"),
    (&[HEADER, TYPES, FUNCTIONS, "050401008002", EXPORTS, EMPTY_BODY], Status::Done,
        "accepted\ncreate it with --pages 256\n"),
    (&[HEADER, TYPES, FUNCTIONS, "0503010010", EXPORTS, EMPTY_BODY], Status::Done, "accepted\n"),
    (&[HEADER, TYPES, FUNCTIONS, "0503010011", EXPORTS, EMPTY_BODY], Status::Done,
        "accepted\ncreate it with --pages 17\n"),
    (&[HEADER, TYPES, FUNCTIONS, "050401008102", EXPORTS, EMPTY_BODY], Status::Refused,
        "refused L6 TooManyPages\nbegins with 257 pages, and a worker has at most 256\n"),
    // sections twice, out of order, too long and too short, and custom sections everywhere
    (&[HEADER, "0cff"], Status::Refused, "refused B1 Malformed at 8\n"),
    (&[HEADER, TYPES, TYPES], Status::Refused, "refused B1 Malformed at 14\n"),
    (&[BEFORE_EXPORTS, MEMORIES], Status::Refused, "refused B1 Malformed at 23\n"),
    (&[HEADER, FUNCTIONS, TYPES], Status::Refused, "refused B1 Malformed at 12\n"),
    (&[HEADER, "010501600000"], Status::Refused, "refused B1 Malformed at 9\n"),
    (&[HEADER, "010301600000"], Status::Refused, "refused B1 Malformed at 13\n"),
    (&[
        HEADER, CUSTOM, TYPES, CUSTOM, FUNCTIONS, CUSTOM, MEMORIES, CUSTOM, EXPORTS, CUSTOM,
        EMPTY_BODY, CUSTOM,
    ], Status::Done, "accepted\n"),
];

#[test]
fn modules_are_told(rt: HostRuntime) -> Result<(), Fail> {
    for row in &MODULES {
        assert_row(&rt, is_told_so(rt.alloc(), row)?, row);
    }
    Ok(())
}

/// The status of `check` on these bytes.
fn status_of(alloc: Global, bytes: &[u8]) -> Status {
    let out = &mut Printer::new(Vec::new(alloc), false);
    check_bytes(alloc, bytes, 256, false, out)
}

/// The length of `ECHO`, and the place after its code section, where a module may end as well.
const ECHO_LENGTH: usize = 193;

const CODE_END: usize = 173;

/// Whether a prefix of `ECHO` is accepted where it should be, and else refused.
fn is_front_told_so(alloc: Global, bytes: &[u8], end: usize) -> bool {
    let wanted = if end == CODE_END || end == ECHO_LENGTH {
        Status::Done
    } else {
        Status::Refused
    };
    match bytes.get(..end) {
        Some(front) => status_of(alloc, front) == wanted,
        None => false,
    }
}

#[test]
fn fronts(rt: HostRuntime) -> Result<(), Fail> {
    let bytes = bytes_of(rt.alloc(), &ECHO)?;
    assert_row(&rt, bytes.len() == ECHO_LENGTH, &ECHO_LENGTH);
    for end in 0..=ECHO_LENGTH {
        let is_so = is_front_told_so(rt.alloc(), bytes.as_slice(), end);
        assert_row(&rt, is_so, &end);
    }
    Ok(())
}

/// The statuses of the small module and of a prefix of it, both in one room of 8 bytes.
fn statuses_without_room(alloc: Global) -> [Status; 2] {
    let mut room = [0u8; 8];
    let room: &mut [u8] = &mut room;
    let mut out = Printer::new(room, false);
    let accepted = check_bytes(alloc, &SMALL, 256, false, &mut out);
    let refused = check_bytes(alloc, &SMALL[..9], 256, false, &mut out);
    [accepted, refused]
}

/// A line that can't be written whole.
#[test]
fn output_without_room(rt: HostRuntime) {
    let statuses = statuses_without_room(rt.alloc());
    let are_so = statuses == [Status::Unwritten, Status::Unwritten];
    assert_row(&rt, are_so, &statuses);
}

/// That the small module is accepted, in a room for its line that takes no memory.
fn accept_small(alloc: Global) -> Result<(), Refused> {
    let mut room = [0u8; 32];
    let room: &mut [u8] = &mut room;
    match check_bytes(alloc, &SMALL, 256, false, &mut Printer::new(room, false)) {
        Status::Done => Ok(()),
        Status::OutOfMemory => Err(Refused::Memory),
        _ => Err(Refused::Otherwise),
    }
}

/// `scripts/runs/refused-allocations` refuses each allocation in turn, and then the status is that
/// of out of memory.
#[test]
fn small_module(rt: HostRuntime) -> Result<(), Fail> {
    accept_small(rt.alloc())?;
    Ok(())
}

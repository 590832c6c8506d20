//! The kind of each fault of linking, two faults at once, what a machine begins with.

use crate::decoding::ECHO;
use crate::rows::{assert_number, assert_row};
use crate::runs::Outcome::{Asks, Leaves, TellsCall, TellsEnd, TellsNeither, Traps};
use crate::runs::{Runs, comes_to, runs_so};
use crate::spelled::{HEADER, Refused, spell, spell_each};
use guest_memory::Memory;
use machine::{LinkFault, Machine, ModuleFault, accept};
use std::alloc::Global;
use wasi_abi::Call;
use wasm_syntax::Trap::{UndefinedElement, UninitializedElement};

const NO_START: Option<ModuleFault> = Some(ModuleFault::Link(LinkFault::NoStart));

const NO_MEMORY: Option<ModuleFault> = Some(ModuleFault::Link(LinkFault::NoMemory));

const UNKNOWN: Option<ModuleFault> = Some(ModuleFault::Link(LinkFault::UnknownImport));

const WRONG_TYPE: Option<ModuleFault> = Some(ModuleFault::Link(LinkFault::ImportType));

const OUTSIDE: Option<ModuleFault> = Some(ModuleFault::Link(LinkFault::InitRange));

const TOO_MANY_PAGES: Option<ModuleFault> = Some(ModuleFault::Link(LinkFault::TooManyPages));

/// The header, and types: from nothing to nothing, that of `fd_write`, and that of `proc_exit`.
const TYPES: &str = "0061736d01000000 0110 03 600000 60047f7f7f7f017f 60017f00";

/// A function, a page of memory, and both exports: `_start` with the index 0, 1 or 2, after the
/// imports.
const FROM_0: &str = "0302 01 00 0503 01 0001 0713 02 06'_start'0000 06'memory'0200 0a04 01 02000b";

const FROM_1: &str = "0302 01 00 0503 01 0001 0713 02 06'_start'0001 06'memory'0200 0a04 01 02000b";

const FROM_2: &str = "0302 01 00 0503 01 0001 0713 02 06'_start'0002 06'memory'0200 0a04 01 02000b";

/// The same, and a data segment that reaches beyond the end.
const FROM_1_PAST_END: &str =
    "0302 01 00 0503 01 0001 0713 02 06'_start'0001 06'memory'0200 0a04 01 02000b \
    0b09 01 00 418080040b 01'a'";

/// The header, a type, and a function.
const FUNCTION: &str = "0061736d01000000 0104 01 600000 0302 01 00";

const EXPORTED: &str = "0713 02 06'_start'0000 06'memory'0200";

/// Texts that follow one another, and the fault of the module that they spell.
type Linked = (&'static [&'static str], Option<ModuleFault>);

#[rattlefmt::skip]
static LINKED: [Linked; 28] = [
    // a start and a memory are exported
    (&[HEADER], NO_START),
    (&[HEADER, "0105 01 60017f00 0302 01 00 070a 01 06'_start'0000 0a04 01 02000b"], NO_START),
    (&[HEADER, "0404 01 700001 070a 01 06'_start'0100"], NO_START),
    (&[
        HEADER,
        "010c 02 600000 60047f7f7f7f017f 0223 01 16'wasi_snapshot_preview1'08'fd_write'0001 070a \
         01 06'_start'0000",
    ], NO_START),
    (&[HEADER, "0104 01 600000 0302 01 00 070a 01 06'_start'0000 0a04 01 02000b"], NO_MEMORY),
    (&[
        HEADER,
        "0104 01 600000 0302 01 00 0404 01 700001 0713 02 06'_start'0000 06'memory'0100 0a04 01 \
         02000b",
    ], NO_MEMORY),
    (&[
        HEADER,
        "0104 01 600000 0302 01 00 0503 01 0000 0713 02 06'_start'0000 06'memory'0200 0a04 01 \
         02000b",
    ], None),
    // imports are calls that are offered
    (&[TYPES, "0223 01 16'wasi_snapshot_preview1'08'fd_write'0001", FROM_1], None),
    (&[
        TYPES,
        "0246 02 16'wasi_snapshot_preview1'09'proc_exit'0002 \
         16'wasi_snapshot_preview1'08'fd_write'0001",
        FROM_2,
    ], None),
    (&[TYPES, "0223 01 16'wasi_snapshot_preview1'08'fd_wrote'0001", FROM_1], UNKNOWN),
    (&[TYPES, "0210 01 03'env'08'fd_write'0001", FROM_1], UNKNOWN),
    (&[TYPES, "0223 01 16'wasi_snapshot_preview1'08'fd_write'0002", FROM_1], WRONG_TYPE),
    (&[TYPES, "0224 01 16'wasi_snapshot_preview1'08'fd_write'037f00", FROM_0], WRONG_TYPE),
    (&[
        TYPES,
        "0245 02 16'wasi_snapshot_preview1'08'fd_write'0002 \
         16'wasi_snapshot_preview1'08'fd_wrote'0001",
        FROM_2,
    ], WRONG_TYPE),
    (&[
        TYPES,
        "0245 02 16'wasi_snapshot_preview1'08'fd_wrote'0001 \
         16'wasi_snapshot_preview1'08'fd_write'0002",
        FROM_2,
    ], UNKNOWN),
    (&[TYPES, "0223 01 16'wasi_snapshot_preview1'08'fd_write'0002", FROM_1_PAST_END], WRONG_TYPE),
    // segments end where their table or memory does
    (&[FUNCTION, "0503 01 0001", EXPORTED, "0a04 01 02000b 0b08 01 00 418080040b 00"], None),
    (&[FUNCTION, "0503 01 0001", EXPORTED, "0a04 01 02000b 0b08 01 00 418180040b 00"], OUTSIDE),
    (&[FUNCTION, "0503 01 0001", EXPORTED, "0a04 01 02000b 0b09 01 00 41ffff030b 01'a'"], None),
    (&[FUNCTION, "0503 01 0001", EXPORTED, "0a04 01 02000b 0b09 01 00 418080040b 01'a'"], OUTSIDE),
    (&[FUNCTION, "0503 01 0001", EXPORTED, "0a04 01 02000b 0b08 01 00 417f0b 02'ab'"], OUTSIDE),
    (&[FUNCTION, "0404 01 700002 0503 01 0001", EXPORTED, "0907 01 00 41010b 0100 0a04 01 02000b"],
        None),
    (&[FUNCTION, "0404 01 700002 0503 01 0001", EXPORTED, "0907 01 00 41020b 0100 0a04 01 02000b"],
        OUTSIDE),
    (&[
        FUNCTION, "0503 01 0001 0608 01 7f00 41ffff030b", EXPORTED,
        "0a04 01 02000b 0b07 01 00 23000b 01'a'",
    ], None),
    (&[
        FUNCTION, "0503 01 0001 0608 01 7f00 41ffff030b", EXPORTED,
        "0a04 01 02000b 0b08 01 00 23000b 02'ab'",
    ], OUTSIDE),
    // memory begins with few pages
    (&[FUNCTION, "0503 01 0002", EXPORTED, "0a04 01 02000b"], None),
    (&[FUNCTION, "0503 01 0003", EXPORTED, "0a04 01 02000b"], TOO_MANY_PAGES),
    (&[FUNCTION, "0503 01 0003", EXPORTED, "0a04 01 02000b 0b09 01 00 4180800c0b 01'a'"], OUTSIDE),
];

/// Under two pages.
fn fault_of(alloc: Global, bytes: &[u8]) -> Option<ModuleFault> {
    accept(alloc, bytes, 2).err()
}

fn is_linked_so(alloc: Global, row: &Linked) -> Result<bool, Refused> {
    let bytes = spell_each(alloc, row.0)?;
    Ok(fault_of(alloc, bytes.as_slice()) == row.1)
}

/// Two imports, a table with a second entry, two globals, and segments of which the last goes where
/// a global says.
const WHOLE: &[u8; 181] =
    b"\0asm\x01\0\0\0\x01\x10\x03\x60\0\0\x60\x04\x7f\x7f\x7f\x7f\x01\x7f\x60\x01\x7f\0\x02\
    \x46\x02\x16wasi_snapshot_preview1\x09proc_exit\0\x02\x16wasi_snapshot_preview1\x08fd_\
    write\0\x01\x03\x02\x01\0\x04\x04\x01p\0\x03\x05\x03\x01\0\x01\x06\x0b\x02\x7f\0\x41\
    \x07\x0b\x7f\0\x41\x03\x0b\x07\x13\x02\x06_start\0\x02\x06memory\x02\0\x09\x07\x01\0\
    \x41\x01\x0b\x01\x02\x0a\x04\x01\x02\0\x0b\x0b\x11\x02\0\x41\x01\x0b\x04abcd\0\x23\x01\
    \x0b\x02yz";

/// Whether memory is one page of at most two, and begins with what the segments hold.
fn is_begun(memory: &Memory) -> bool {
    memory.len() == 65_536 && memory.limit() == 2 && memory.bytes().starts_with(b"\0abyz\0")
}

/// How many exports the machine's module has.
fn exports_of(machine: Machine) -> usize {
    let valid = machine.unlink();
    let count = valid.module().exports.len();
    drop(valid);
    count
}

fn is_linked(alloc: Global) -> Result<bool, ModuleFault> {
    let machine = accept(alloc, WHOLE, 2)?;
    let is_begun = is_begun(machine.memory());
    Ok(exports_of(machine) == 2 && is_begun)
}

/// What is before the code section of that module.
const BEFORE_CODE: &str = "0061736d01000000 0110 03 600000 60047f7f7f7f017f 60017f00 \
    0246 02 16'wasi_snapshot_preview1'09'proc_exit'0002 16'wasi_snapshot_preview1'08'fd_write'0001 \
    0302 01 00 0404 01 700003 0503 01 0001 060b 02 7f00 41070b 7f00 41030b 0713 02 06'_start'0002 \
    06'memory'0200 \
    0907 01 00 41010b 0102";

/// What is after it.
const BEHIND_CODE: &str = "0b11 02 00 41010b 04'abcd' 00 23010b 02'yz'";

/// What the module tells once one of these bodies has run.
#[rattlefmt::skip]
static TOLD: Runs = (BEFORE_CODE, "01", BEHIND_CODE, &[
    ("it returns", "00 0b", TellsEnd),
    ("it asks to exit", "00 4105 1000 0b", TellsCall(Call::ProcExit, &[5])),
    ("it asks to write", "00 4101 4102 4103 4104 1001 1a 0b",
        TellsCall(Call::FdWrite, &[1, 2, 3, 4])),
    ("it goes on", "00 0340 0c00 0b 0b", TellsNeither),
]);

/// Whether a module is accepted whose memory has one page.
fn is_accepted(alloc: Global, bytes: &[u8]) -> bool {
    match accept(alloc, bytes, 1) {
        Ok(machine) => {
            drop(machine);
            true
        }
        Err(_) => false,
    }
}

/// How long `ECHO` is, and how long up to the end of its code section.
const ECHO_LENGTH: usize = 193;

const CODE_END: usize = 173;

/// Whether a front of `ECHO` is accepted where it should be, and else refused.
fn is_front_told_so(alloc: Global, len: usize) -> Result<bool, Refused> {
    let mut front = spell(alloc, ECHO, "")?;
    front.truncate(len);
    let is_whole = len == CODE_END || len == ECHO_LENGTH;
    let is_so = front.len() == len && is_accepted(alloc, front.as_slice()) == is_whole;
    drop(front);
    Ok(is_so)
}

#[test]
fn modules_are_linked_and_tell_what_they_come_to(rt: HostRuntime) -> Result<(), Refused> {
    for row in &LINKED {
        let text = row.0.last().copied().unwrap_or("");
        assert_row(&rt, is_linked_so(rt.alloc(), row), text);
    }
    for run in TOLD.3 {
        assert_row(&rt, runs_so(rt.alloc(), &TOLD, run), run.0);
    }
    for len in 0..=ECHO_LENGTH {
        assert_number(&rt, is_front_told_so(rt.alloc(), len)?, len);
    }
    Ok(())
}

/// The first function of two: it gives its parameter where that isn't zero, and else its declared
/// local.
const CHOOSING: &str = "02 0e 01017f 2000 0440 2000 0f 0b 2001 0b";

/// The header, types from nothing to nothing and from an integer to one, two functions, a page of
/// memory, and the exports.
const CHOICE: &str = "0061736d01000000 0109 02 600000 60017f017f 0303 02 01 00 0503 01 0001 \
    0713 02 06'_start'0001 06'memory'0200";

/// What the module begins with and where its calls lead; and that calls take operands and give
/// one, where declared locals begin as zero.
#[rattlefmt::skip]
static RUNS: [Runs; 2] = [
    (BEFORE_CODE, "01", BEHIND_CODE, &[
        ("both globals", "00 4100 2300 360000 4104 2301 360000 0b", Leaves(0x3_0000_0007)),
        // It tells by the byte at 0 that it is called again.
        ("the second entry of the table is the function itself",
            "00 4100 2d0000 0440 4100 4202 370000 0f 0b 4100 4101 3a0000 4101 110000 0b",
            Leaves(2)),
        ("the segments", "00 0b", Leaves(0x7a_7962_6100)),
        ("the first entry", "00 4100 110000 0b", Traps(UninitializedElement)),
        ("the third entry", "00 4102 110000 0b", Traps(UninitializedElement)),
        ("no entry", "00 4103 110000 0b", Traps(UndefinedElement)),
        ("the first function", "00 4105 1000 0b", Asks(Call::ProcExit, &[5])),
        ("the second function", "00 4101 4102 4103 4104 1001 1a 0b",
            Asks(Call::FdWrite, &[1, 2, 3, 4])),
    ]),
    (CHOICE, CHOOSING, "", &[
        ("an operand below", "00 4100 4109 4105 1000 6a 360000 0b", Leaves(14)),
        ("a local", "00 4100 4109 4100 1000 6a 360000 0b", Leaves(9)),
        ("a local where operands stood", "00 4163 4163 1a 1a 4100 4100 1000 360000 0b", Leaves(0)),
    ]),
];

/// Whether `ECHO` is accepted, and asks for a request first.
fn asks_first(alloc: Global) -> Result<bool, Refused> {
    let echo = spell(alloc, ECHO, "")?;
    let outcome = Asks(Call::FdRead, &[0, 0, 1, 16]);
    let told = comes_to(alloc, echo.as_slice(), &outcome);
    drop(echo);
    Ok(told?)
}

/// `scripts/runs/refused-allocations` refuses each allocation in turn, and then this ends out of
/// memory.
#[test]
fn machines_begin_and_call(rt: HostRuntime) -> Result<(), Refused> {
    assert_row(&rt, Ok(is_linked(rt.alloc())?), "WHOLE");
    assert_row(&rt, Ok(asks_first(rt.alloc())?), "ECHO");
    for runs in &RUNS {
        for run in runs.3 {
            assert_row(&rt, Ok(runs_so(rt.alloc(), runs, run)?), run.0);
        }
    }
    Ok(())
}

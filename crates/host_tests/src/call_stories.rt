//! What a fresh guest does by calls, and shows: lines and their edges, answers from outside, files,
//! and refusals that change nothing. Numbers are those of WASI preview 1, and what comes of a call
//! is what the rules of this project's profile say.

use crate::call_stories::Step::{
    Begins, Chunks, Give, Holds, Lengths, Lines, Longs, Name, Number, OpenFiles, Put, PutLine,
    SizeFiles, Write,
};
use wasi_abi::Call::{
    ArgsGet, ArgsSizesGet, ClockResGet, ClockTimeGet, EnvironGet, EnvironSizesGet, FdClose,
    FdDatasync, FdFdstatGet, FdFdstatSetFlags, FdFilestatGet, FdFilestatSetSize, FdPread,
    FdPrestatDirName, FdPrestatGet, FdPwrite, FdRead, FdReaddir, FdSeek, FdSync, FdTell, FdWrite,
    PathCreateDirectory, PathFilestatGet, PathOpen, PathRemoveDirectory, PathRename,
    PathUnlinkFile, ProcExit, RandomGet, SchedYield,
};
use wasi_abi::{Call, Errno, Question};
use wasi_calls::CallOutcome::{self, Ask, Exit, Refused};
use wasi_calls_rules::OutputStream;

/// Where a write puts the number of its bytes, and other calls their result.
pub(crate) const RESULT: u32 = 64;

/// Where larger results lie, and names.
const LARGE: u32 = 128;

const NAMES: u32 = 256;

/// Where bytes lie, and where a page ends.
pub(crate) const BYTES: u32 = 1_024;

const END: u32 = 65_536;

/// The descriptor of the root, and that of the first file which a guest opens.
pub(crate) const ROOT: u64 = 3;

pub(crate) const FIRST_FILE: u32 = 4;

/// How a path is opened: one that isn't there is made, it has to be a directory, and it has to be
/// made now. Else a file is emptied.
pub(crate) const CREATE: u64 = 1;

const DIRECTORY: u64 = 2;

const EXCLUSIVE: u64 = 4;

const TRUNCATE: u64 = 8;

/// The rights of a file, of a directory, and of both together.
pub(crate) const FILE_RIGHTS: u64 = 0x0060_007f;

const DIRECTORY_RIGHTS: u64 = 0x062f_6611;

const ALL_RIGHTS: u64 = 0x066f_667f;

/// What a seek counts from.
const SET: u64 = 0;

const CURRENT: u64 = 1;

const FROM_END: u64 = 2;

/// The results' places as arguments, and one place back.
const CELL: u64 = RESULT as u64;

const AT: u64 = LARGE as u64;

const BACK: u64 = u64::MAX;

/// Where names begin in `d/a/../b`: one of each part, and two longer ones.
const PATHS: &[u8] = b"d/a/../b";

const D: u64 = NAMES as u64;

const A: u64 = D + 2;

const UP: u64 = D + 4;

const B: u64 = D + 7;

/// Opens `a`, and makes it where it isn't there. The same of `b`.
const OPEN_A: &[u64] = &[ROOT, 0, A, 1, CREATE, FILE_RIGHTS, 0, 0, CELL];

const OPEN_B: &[u64] = &[ROOT, 0, B, 1, CREATE, FILE_RIGHTS, 0, 0, CELL];

/// The streams that lines are written to.
const OUT: OutputStream = OutputStream::Stdout;

const ERR: OutputStream = OutputStream::Stderr;

/// How calls end that are done, and how those that are refused.
const DONE: CallOutcome = CallOutcome::Done;

const BADF: CallOutcome = Refused(Errno::Badf);

const EXIST: CallOutcome = Refused(Errno::Exist);

const FAULT: CallOutcome = Refused(Errno::Fault);

const FBIG: CallOutcome = Refused(Errno::Fbig);

const INVAL: CallOutcome = Refused(Errno::Inval);

const ISDIR: CallOutcome = Refused(Errno::Isdir);

const NAMETOOLONG: CallOutcome = Refused(Errno::Nametoolong);

const NOENT: CallOutcome = Refused(Errno::Noent);

const NOSPC: CallOutcome = Refused(Errno::Nospc);

const NOTDIR: CallOutcome = Refused(Errno::Notdir);

const NOTEMPTY: CallOutcome = Refused(Errno::Notempty);

const SPIPE: CallOutcome = Refused(Errno::Spipe);

const NOTCAPABLE: CallOutcome = Refused(Errno::Notcapable);

/// What a call is given from outside.
pub(crate) enum Given {
    Request(&'static [u8]),
    End,
    Realtime(u64),
    Monotonic(u64),
    Random(&'static [u8]),
}

/// What a guest does, or what is seen of it then.
pub(crate) enum Step {
    /// These bytes are put at a place.
    Put(u32, &'static [u8]),
    /// So many letters are put at `BYTES`, with a newline after them.
    PutLine(u32),
    /// An iovec at a place, of bytes from here on, so many.
    Name(u32, u32, u32),
    /// A write to a descriptor, of so many iovecs from 0 on, with its result there. What comes of
    /// it.
    Write(u32, u32, u32, CallOutcome),
    /// A call with its arguments, and what comes of it without an answer from outside.
    Call(Call, &'static [u64], CallOutcome),
    /// A call with its arguments, which is done once it is given this.
    Give(Call, &'static [u64], Given),
    /// What is unfinished is written.
    End,
    /// These bytes lie at a place.
    Holds(u32, &'static [u8]),
    /// A number of four bytes lies there.
    Number(u32, u32),
    /// Numbers of eight bytes lie there, one after another.
    Longs(u32, &'static [u64]),
    /// The streams and the lengths of the lines that wait.
    Lines(&'static [(OutputStream, usize)]),
    /// How many lines wait, and how long the first and the last of them are.
    Lengths([usize; 3]),
    /// How many lines a write of one iovec to stderr would add, an unfinished one counted.
    Begins(usize),
    /// Sixteen files are made and opened.
    OpenFiles,
    /// So many of them, from the first on, get this size.
    SizeFiles(u32, u64),
    /// How many bytes all files have, and in how many chunks.
    Chunks(u64, usize),
}

/// A name, and what a fresh guest does and shows. Each table has one function that names it: a
/// proof of one that does has all of the table in it.
pub(crate) type Story = (&'static str, &'static [Step]);

#[rattlefmt::skip]
static LINES: [Story; 9] = [
    ("a line is cut behind 4,096 bytes", &[
        PutLine(4_097), Name(0, BYTES, 4_098), Write(1, 1, RESULT, DONE), Lengths([2, 4_096, 1]),
    ]),
    ("one of 4,096 bytes is not cut", &[
        PutLine(4_096), Name(0, BYTES, 4_097), Write(1, 1, RESULT, DONE),
        Lengths([1, 4_096, 4_096]),
    ]),
    ("an empty line is one",
        &[PutLine(0), Name(0, BYTES, 1), Write(1, 1, RESULT, DONE), Lengths([1, 0, 0])]),
    ("a line is cut into two of 4,096 bytes", &[
        PutLine(8_192), Name(0, BYTES, 8_193), Write(1, 1, RESULT, DONE),
        Lengths([2, 4_096, 4_096]),
    ]),
    ("a write refuses before it writes", &[
        Put(BYTES, b"hi\n"), Name(0, BYTES, 3), Name(8, END, 1), Write(1, 2, RESULT, FAULT),
        Number(RESULT, 7), Lines(&[]), Name(8, END, 0), Write(1, 2, RESULT, DONE),
        Number(RESULT, 3), Lines(&[(OUT, 2)]),
    ]),
    ("a write looks at the cell before it writes", &[
        Put(BYTES, b"hi\n"), Name(0, BYTES, 3), Write(1, 1, END - 3, FAULT), Lines(&[]),
        Write(1, 1, END - 4, DONE), Number(END - 4, 3),
    ]),
    ("a write names its refusals", &[
        Write(0, 0, RESULT, NOTCAPABLE), Write(1, 0, RESULT, DONE), Write(2, 1_024, RESULT, DONE),
        Write(2, 1_025, RESULT, INVAL), Write(3, 0, RESULT, ISDIR), Write(4, 0, RESULT, BADF),
        Write(64, 0, RESULT, BADF), Write(4_294_967_295, 0, RESULT, BADF),
    ]),
    ("an exit has its code, and a write moves no more than its limit", &[
        Step::Call(ProcExit, &[0xdead_beef], Exit(0xdead_beef)), Name(0, 0, 40_000),
        Name(8, 0, 40_000), Write(2, 2, RESULT, DONE), Number(RESULT, 65_536),
    ]),
    ("lines of both streams are kept in order", &[
        Put(BYTES, b"a\nb\ncd"), Name(0, BYTES, 2), Write(1, 1, RESULT, DONE),
        // the second line, and the first letter after it
        Name(0, BYTES + 2, 3), Begins(2), Write(2, 1, RESULT, DONE), Name(0, BYTES + 4, 2),
        Write(1, 1, RESULT, DONE), Lines(&[(OUT, 1), (ERR, 1)]), Step::End,
        Lines(&[(OUT, 1), (ERR, 1), (OUT, 2), (ERR, 1)]),
    ]),
];

/// Lines and their edges, and an exit.
pub(crate) fn lines() -> &'static [Story] {
    &LINES
}

#[rattlefmt::skip]
static OUTSIDE: [Story; 5] = [
    ("a monotonic time never falls", &[
        Step::Call(ClockTimeGet, &[1, 0, CELL], Ask(Question::Monotonic)),
        Give(ClockTimeGet, &[1, 0, CELL], Given::Monotonic(50)), Longs(RESULT, &[50]),
        Give(ClockTimeGet, &[1, 0, CELL], Given::Monotonic(40)), Longs(RESULT, &[50]),
        Give(ClockTimeGet, &[1, 0, CELL], Given::Monotonic(60)), Longs(RESULT, &[60]),
    ]),
    ("random bytes are asked for within the limit", &[
        Step::Call(RandomGet, &[CELL, 0], DONE),
        Step::Call(RandomGet, &[CELL, 1], Ask(Question::Random { length: 1 })),
        Step::Call(RandomGet, &[CELL, 4_096], Ask(Question::Random { length: 4_096 })),
        Step::Call(RandomGet, &[CELL, 4_097], INVAL),
        // the first bytes that the seed of zeros gives, and nothing after them
        Give(RandomGet, &[CELL, 5], Given::Random(b"\x76\xb8\xe0\xad\xa0")),
        Holds(RESULT, b"\x76\xb8\xe0\xad\xa0\0"),
    ]),
    ("clocks count nanoseconds", &[
        Step::Call(ClockResGet, &[0, CELL], DONE), Longs(RESULT, &[1]),
        Step::Call(ClockResGet, &[2, CELL], INVAL), Step::Call(ClockTimeGet, &[2, 0, CELL], INVAL),
        Step::Call(ClockTimeGet, &[0, 0, CELL], Ask(Question::Realtime)),
        Give(ClockTimeGet, &[0, 0, CELL], Given::Realtime(50)), Longs(RESULT, &[50]),
        Give(ClockTimeGet, &[0, 0, CELL], Given::Realtime(40)), Longs(RESULT, &[40]),
    ]),
    ("a request is read to its newline, and then the next one is asked for", &[
        Name(0, BYTES, 4), Step::Call(FdRead, &[0, 0, 1, CELL], Ask(Question::Request)),
        Give(FdRead, &[0, 0, 1, CELL], Given::Request(b"hello")), Number(RESULT, 4),
        Holds(BYTES, b"hell\0"), Step::Call(FdRead, &[0, 0, 1, CELL], DONE), Number(RESULT, 2),
        Holds(BYTES, b"o\nll\0"), Step::Call(FdRead, &[0, 0, 1, CELL], Ask(Question::Request)),
        Give(FdRead, &[0, 0, 1, CELL], Given::End), Number(RESULT, 0), Put(RESULT, b"\x07"),
        Step::Call(FdRead, &[0, 0, 1, CELL], DONE), Number(RESULT, 0),
    ]),
    ("iovecs and the cell lie among the bytes that are read", &[
        Name(0, 0, 8), Name(8, 16, 8),
        Give(FdRead, &[0, 0, 2, 4], Given::Request(b"ABCDEFGHIJKLMNO")),
        // the cell is put last, and the second iovec is as it was
        Holds(0, b"ABCD\x10\0\0\0\x10\0\0\0\x08\0\0\0IJKLMNO\n\0"),
    ]),
];

/// Answers from outside.
pub(crate) fn outside() -> &'static [Story] {
    &OUTSIDE
}

#[rattlefmt::skip]
static BEGINNINGS: [Story; 2] = [
    ("texts are told and put", &[
        Step::Call(ArgsSizesGet, &[CELL, CELL + 4], DONE),
        // one of seven bytes with its zero
        Longs(RESULT, &[0x7_0000_0001]), Step::Call(ArgsGet, &[AT, AT + 8], DONE),
        Number(LARGE, LARGE + 8), Holds(LARGE + 8, b"worker\0"),
        Step::Call(EnvironSizesGet, &[CELL, CELL + 4], DONE), Longs(RESULT, &[0x4_0000_0001]),
        Step::Call(EnvironGet, &[AT, AT + 8], DONE), Number(LARGE, LARGE + 8),
        Holds(LARGE + 8, b"A=b\0er\0"), Step::Call(ArgsGet, &[AT, 65_530], FAULT),
        Step::Call(ArgsGet, &[AT, 65_529], DONE), Holds(65_529, b"worker\0"),
    ]),
    ("three streams and a directory are open", &[
        Step::Call(FdPrestatGet, &[3, AT], DONE), Longs(LARGE, &[0x1_0000_0000]),
        Step::Call(FdPrestatGet, &[0, AT], BADF), Step::Call(FdPrestatGet, &[4, AT], BADF),
        Step::Call(FdPrestatDirName, &[3, AT, 0], NAMETOOLONG),
        Step::Call(FdPrestatDirName, &[3, AT, 1], DONE), Holds(LARGE, b"/\0\0\0\x01"),
        // the file type, base rights, and those that it hands on
        Step::Call(FdFdstatGet, &[0, AT], DONE), Longs(LARGE, &[2, 0x0020_0002, 0]),
        Step::Call(FdFdstatGet, &[2, AT], DONE), Longs(LARGE, &[2, 0x0020_0040, 0]),
        Step::Call(FdFdstatGet, &[3, AT], DONE), Longs(LARGE, &[3, DIRECTORY_RIGHTS, ALL_RIGHTS]),
        // device, node, file type, links, size and three times
        Step::Call(FdFilestatGet, &[1, AT], DONE), Longs(LARGE, &[0, 0, 2, 1, 0, 0, 0, 0]),
        Step::Call(FdFilestatGet, &[3, AT], DONE), Longs(LARGE, &[0, 1, 3, 1, 0, 0, 0, 0]),
        Step::Call(FdDatasync, &[3], DONE), Step::Call(FdSync, &[3], DONE),
        Step::Call(FdSync, &[1], NOTCAPABLE), Step::Call(FdClose, &[3], NOTCAPABLE),
        Step::Call(FdClose, &[4], BADF), Step::Call(FdClose, &[2], DONE),
        Step::Call(FdClose, &[2], BADF), Step::Call(SchedYield, &[], DONE),
    ]),
];

/// What a guest finds.
pub(crate) fn beginnings() -> &'static [Story] {
    &BEGINNINGS
}

#[rattlefmt::skip]
static OPENINGS: [Story; 1] = [
    ("how a path may be opened", &[
        Put(NAMES, PATHS), Step::Call(PathOpen, OPEN_A, DONE),
        Step::Call(PathOpen, &[ROOT, 0, A, 1, CREATE + EXCLUSIVE, FILE_RIGHTS, 0, 0, CELL], EXIST),
        Step::Call(PathOpen, &[ROOT, 0, UP, 2, 0, FILE_RIGHTS, 0, 0, CELL], NOTCAPABLE),
        Step::Call(PathOpen, &[ROOT, 0, A, 6, 0, FILE_RIGHTS, 0, 0, CELL], NOTDIR),
        Step::Call(PathOpen, &[ROOT, 0, A, 0, 0, FILE_RIGHTS, 0, 0, CELL], NOENT),
        Step::Call(PathOpen, &[ROOT, 0, B, 1, 0, FILE_RIGHTS, 0, 0, CELL], NOENT),
        Step::Call(PathOpen, &[ROOT, 0, A, 1, 16, FILE_RIGHTS, 0, 0, CELL], INVAL),
        Step::Call(PathOpen, &[ROOT, 0, B, 1, CREATE + DIRECTORY, FILE_RIGHTS, 0, 0, CELL], INVAL),
        Step::Call(PathOpen, &[ROOT, 0, A, 1, DIRECTORY, FILE_RIGHTS, 0, 0, CELL], NOTDIR),
        // a directory isn't written, emptied or made here
        Step::Call(PathCreateDirectory, &[3, D, 1], DONE),
        Step::Call(PathOpen, &[ROOT, 0, D, 1, 0, FILE_RIGHTS, 0, 0, CELL], ISDIR),
        Step::Call(PathOpen, &[ROOT, 0, D, 1, TRUNCATE, 0, 0, 0, CELL], ISDIR),
        Step::Call(PathOpen, &[ROOT, 0, D, 1, CREATE, 0, 0, 0, CELL], ISDIR),
        Step::Call(PathOpen, &[ROOT, 0, D, 1, DIRECTORY, DIRECTORY_RIGHTS, ALL_RIGHTS, 0, CELL],
            DONE),
        Number(RESULT, 5), Step::Call(FdFdstatGet, &[5, AT], DONE),
        Longs(LARGE, &[3, DIRECTORY_RIGHTS, ALL_RIGHTS]),
        // a path begins at the directory of its descriptor
        Step::Call(PathOpen, &[5, 0, B, 1, CREATE, ALL_RIGHTS, 0, 0, CELL], DONE),
        Number(RESULT, 6), Step::Call(FdFdstatGet, &[6, AT], DONE),
        Longs(LARGE, &[4, FILE_RIGHTS, 0]), Step::Call(PathFilestatGet, &[3, 0, B, 1, AT], NOENT),
        // a file is emptied
        Put(BYTES, b"bytes"), Name(0, BYTES, 5), Step::Call(FdWrite, &[4, 0, 1, CELL], DONE),
        Step::Call(FdFilestatGet, &[4, AT], DONE), Longs(LARGE, &[0, 2, 4, 1, 5, 0, 0, 0]),
        Step::Call(PathOpen, &[ROOT, 0, A, 1, TRUNCATE, FILE_RIGHTS, 0, 0, CELL], DONE),
        Number(RESULT, 7), Step::Call(FdFilestatGet, &[4, AT], DONE),
        Longs(LARGE, &[0, 2, 4, 1, 0, 0, 0, 0]),
    ]),
];

/// How paths are opened.
pub(crate) fn openings() -> &'static [Story] {
    &OPENINGS
}

#[rattlefmt::skip]
static NODES: [Story; 3] = [
    ("a renamed file keeps its node, and no number comes twice", &[
        Put(NAMES, PATHS), Step::Call(PathOpen, OPEN_A, DONE), Number(RESULT, 4),
        Step::Call(FdFilestatGet, &[4, AT], DONE), Longs(LARGE, &[0, 2, 4, 1, 0, 0, 0, 0]),
        Step::Call(FdClose, &[4], DONE), Step::Call(PathCreateDirectory, &[3, D, 1], DONE),
        Step::Call(PathCreateDirectory, &[3, D, 1], EXIST),
        Step::Call(PathRename, &[3, A, 1, 3, D, 3], DONE),
        Step::Call(PathFilestatGet, &[3, 0, D, 3, AT], DONE),
        Longs(LARGE, &[0, 2, 4, 1, 0, 0, 0, 0]),
        Step::Call(PathFilestatGet, &[3, 0, A, 1, AT], NOENT),
        Step::Call(PathFilestatGet, &[3, 0, D, 1, AT], DONE),
        Longs(LARGE, &[0, 3, 3, 1, 0, 0, 0, 0]),
        Step::Call(PathRemoveDirectory, &[3, D, 1], NOTEMPTY),
        Step::Call(PathUnlinkFile, &[3, D, 1], ISDIR), Step::Call(PathUnlinkFile, &[3, D, 3], DONE),
        Step::Call(PathRemoveDirectory, &[3, D, 1], DONE), Step::Call(PathOpen, OPEN_A, DONE),
        Number(RESULT, 4), Step::Call(FdFilestatGet, &[4, AT], DONE),
        Longs(LARGE, &[0, 4, 4, 1, 0, 0, 0, 0]),
    ]),
    ("a removed file is there while it is open", &[
        Put(NAMES, PATHS), Put(BYTES, b"bytes"), Name(0, BYTES, 5), Name(8, BYTES + 8, 9),
        Step::Call(PathOpen, OPEN_A, DONE), Step::Call(FdWrite, &[4, 0, 1, CELL], DONE),
        Step::Call(FdSeek, &[4, 0, SET, CELL], DONE), Longs(RESULT, &[0]),
        Step::Call(PathUnlinkFile, &[3, A, 1], DONE), Step::Call(FdRead, &[4, 8, 1, CELL], DONE),
        Number(RESULT, 5), Holds(BYTES + 8, b"bytes\0\0\0\0"),
        Step::Call(FdFilestatGet, &[4, AT], DONE), Longs(LARGE, &[0, 2, 4, 0, 5, 0, 0, 0]),
        Step::Call(PathOpen, &[ROOT, 0, A, 1, 0, FILE_RIGHTS, 0, 0, CELL], NOENT),
        // it counts among all files until it is closed
        Step::Call(FdFilestatSetSize, &[4, 65_536], DONE), Step::Call(PathOpen, OPEN_B, DONE),
        Number(RESULT, 5), Step::Call(FdWrite, &[5, 0, 1, CELL], NOSPC),
        Step::Call(FdClose, &[4], DONE), Step::Call(FdWrite, &[5, 0, 1, CELL], DONE),
        Number(RESULT, 5), Chunks(5, 1),
    ]),
    ("a directory is listed by name, from its cookie on", &[
        Put(NAMES, PATHS), Step::Call(PathOpen, OPEN_A, DONE), Step::Call(PathOpen, OPEN_B, DONE),
        Put(LARGE + 30, b"\x07"), Step::Call(FdReaddir, &[3, AT, 30, 0, CELL], DONE),
        Number(RESULT, 30),
        // the next cookie, the node, and the name's length with the file type
        Longs(LARGE, &[1, 2, 0x4_0000_0001]), Holds(LARGE + 24, b"a\x02\0\0\0\0\x07"),
        Step::Call(FdReaddir, &[3, AT, 30, 1, CELL], DONE), Number(RESULT, 25),
        Longs(LARGE, &[2, 3, 0x4_0000_0001]), Holds(LARGE + 24, b"b\x02\0\0\0\0\x07"),
        Step::Call(FdReaddir, &[3, AT, 30, 2, CELL], DONE), Number(RESULT, 0),
        Step::Call(FdReaddir, &[4, AT, 30, 0, CELL], NOTDIR),
    ]),
];

/// Nodes that are moved, removed and listed.
pub(crate) fn nodes() -> &'static [Story] {
    &NODES
}

#[rattlefmt::skip]
static SIZES: [Story; 4] = [
    ("the room for all files counts bytes, and not chunks", &[
        OpenFiles, SizeFiles(15, 4_097), Step::Call(FdFilestatSetSize, &[19, 4_081], DONE),
        Chunks(65_536, 31), Step::Call(FdFilestatSetSize, &[19, 4_082], NOSPC), Chunks(65_536, 31),
        // what one file gives back another one may have
        Step::Call(FdFilestatSetSize, &[4, 4_096], DONE),
        Step::Call(FdFilestatSetSize, &[19, 4_082], DONE), Chunks(65_536, 30),
    ]),
    ("offsets and sizes have their bounds", &[
        Put(NAMES, PATHS), Name(0, BYTES, 1), Step::Call(PathOpen, OPEN_A, DONE),
        Step::Call(FdSeek, &[4, BACK, SET, CELL], INVAL),
        Step::Call(FdSeek, &[4, 0, 3, CELL], INVAL), Step::Call(FdSeek, &[1, 0, SET, CELL], SPIPE),
        Step::Call(FdSeek, &[3, 0, SET, CELL], ISDIR),
        Step::Call(FdPwrite, &[4, 0, 1, 1_048_576, CELL], FBIG),
        Step::Call(FdPwrite, &[4, 0, 1, 65_536, CELL], NOSPC),
        Step::Call(FdPwrite, &[4, 0, 1, 65_535, CELL], DONE), Number(RESULT, 1),
        Step::Call(FdTell, &[4, CELL], DONE), Longs(RESULT, &[0]),
        Step::Call(FdSeek, &[4, BACK, FROM_END, CELL], DONE), Longs(RESULT, &[65_535]),
        Step::Call(FdRead, &[4, 0, 1, CELL], DONE), Number(RESULT, 1),
        Step::Call(FdTell, &[4, CELL], DONE), Longs(RESULT, &[65_536]),
        Step::Call(FdRead, &[4, 0, 1, CELL], DONE), Number(RESULT, 0),
        Step::Call(FdWrite, &[4, 0, 1, CELL], NOSPC),
        Step::Call(FdPread, &[4, 0, 1, 65_535, CELL], DONE), Number(RESULT, 1),
        Step::Call(FdPread, &[4, 0, 1, 65_536, CELL], DONE), Number(RESULT, 0),
        Step::Call(FdFilestatSetSize, &[4, 1_048_577], FBIG),
        Step::Call(FdFilestatSetSize, &[4, 65_537], NOSPC),
        Step::Call(FdSeek, &[4, (1 << 63) - 1, SET, CELL], DONE),
        Step::Call(FdSeek, &[4, 1, CURRENT, CELL], INVAL), Step::Call(FdTell, &[4, CELL], DONE),
        Longs(RESULT, &[(1 << 63) - 1]), Step::Call(FdSync, &[4], DONE),
    ]),
    ("what a file grows by is zero", &[
        Put(NAMES, PATHS), PutLine(5_000), Name(0, BYTES, 5_000), Name(8, BYTES, 1_000),
        Step::Call(PathOpen, OPEN_A, DONE), Step::Call(FdWrite, &[4, 0, 1, CELL], DONE),
        Number(RESULT, 5_000), Step::Call(FdFilestatSetSize, &[4, 4_100], DONE),
        Step::Call(FdFilestatSetSize, &[4, 5_000], DONE),
        Step::Call(FdPread, &[4, 8, 1, 4_099, CELL], DONE), Number(RESULT, 901), Holds(BYTES, b"a"),
        Holds(BYTES + 1, &[0; 900]), Holds(BYTES + 901, b"a"),
    ]),
    ("a descriptor that appends writes at the end", &[
        Put(NAMES, PATHS), Put(BYTES, b"ab"), Name(0, BYTES, 2), Name(8, BYTES + 2, 9),
        Step::Call(PathOpen, OPEN_A, DONE), Step::Call(FdWrite, &[4, 0, 1, CELL], DONE),
        Step::Call(FdSeek, &[4, 1, SET, CELL], DONE), Step::Call(FdFdstatSetFlags, &[4, 32], INVAL),
        Step::Call(FdFdstatSetFlags, &[4, 1], DONE), Step::Call(FdFdstatGet, &[4, AT], DONE),
        Longs(LARGE, &[0x1_0004, FILE_RIGHTS, 0]), Step::Call(FdWrite, &[4, 0, 1, CELL], DONE),
        Step::Call(FdTell, &[4, CELL], DONE), Longs(RESULT, &[4]),
        Step::Call(FdFdstatSetFlags, &[4, 0], DONE), Step::Call(FdPread, &[4, 8, 1, 0, CELL], DONE),
        Holds(BYTES + 2, b"abab\0"),
    ]),
];

/// Sizes and offsets.
pub(crate) fn sizes() -> &'static [Story] {
    &SIZES
}

static THREE_LINES: [Step; 6] = [
    Put(BYTES, b"one\ntwo\nthree"),
    Name(0, BYTES, 13),
    Begins(3),
    Write(1, 1, RESULT, DONE),
    Step::End,
    Lines(&[(OUT, 3), (OUT, 3), (OUT, 5)]),
];

/// Three lines, of which the last one has no newline.
pub(crate) fn three_lines() -> &'static [Step] {
    &THREE_LINES
}

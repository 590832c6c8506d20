//! Numbers and layouts of the witx files of preview 1, and the edges of a configuration's limits.

use crate::rows::assert_row;
use std::alloc::{AllocError, Global};
use wasi_abi::{
    Answer, Call, Config, ConfigFault, Dirent, Errno, Fdstat, FileType, Iovec, Question, Rights,
    fits,
};
use wasm_syntax::ItemList;
use wasm_syntax::ValueType::{self, I32, I64};

/// What a constant, a call or a configuration is.
enum Fact {
    /// An error, and its number.
    Error(Errno, u32),
    /// A name, and its call if it has one.
    Name(&'static str, Option<Call>),
    /// The parameters and results of a call.
    Types(Call, &'static [ValueType], &'static [ValueType]),
    /// Rights, and their number. They are among all rights.
    Rights(Rights, u64),
    /// Those of the input are for reads alone.
    ReadsAlone,
    /// Those of a file aren't all within those of a directory, and these are in both.
    Common(u64),
    FdstatLaidOut,
    DirentLaidOut,
    IovecLaidOut,
    /// Pages, files and sectors of the journal, and whether a configuration may have them.
    Numbers(u64, u64, u64, bool),
    /// So many of the same argument and of the same entry, and the fault.
    Texts(usize, &'static [u8], usize, &'static [u8], Option<ConfigFault>),
}

const RANGE: Option<ConfigFault> = Some(ConfigFault::Range);

const TEXT: Option<ConfigFault> = Some(ConfigFault::Text);

static FACTS: [Fact; 58] = [
    Fact::Error(Errno::Badf, 8),
    Fact::Error(Errno::Exist, 20),
    Fact::Error(Errno::Fault, 21),
    Fact::Error(Errno::Fbig, 22),
    Fact::Error(Errno::Ilseq, 25),
    Fact::Error(Errno::Inval, 28),
    Fact::Error(Errno::Isdir, 31),
    Fact::Error(Errno::Mfile, 33),
    Fact::Error(Errno::Nametoolong, 37),
    Fact::Error(Errno::Noent, 44),
    Fact::Error(Errno::Nospc, 51),
    Fact::Error(Errno::Notdir, 54),
    Fact::Error(Errno::Notempty, 55),
    Fact::Error(Errno::Spipe, 70),
    Fact::Error(Errno::Notcapable, 76),
    Fact::Name("args_get", Some(Call::ArgsGet)),
    Fact::Name("fd_datasync", Some(Call::FdDatasync)),
    Fact::Name("path_unlink_file", Some(Call::PathUnlinkFile)),
    Fact::Name("random_get", Some(Call::RandomGet)),
    Fact::Name("fd_advise", None),
    Fact::Name("fd_writ", None),
    Fact::Name("", None),
    Fact::Types(Call::FdSeek, &[I32, I64, I32, I32], &[I32]),
    Fact::Types(
        Call::PathOpen,
        &[I32, I32, I32, I32, I32, I64, I64, I32, I32],
        &[I32],
    ),
    Fact::Types(Call::SchedYield, &[], &[I32]),
    Fact::Types(Call::ProcExit, &[I32], &[]),
    Fact::Rights(Rights::FILE, 0x0060_007f),
    Fact::Rights(Rights::DIRECTORY, 0x062f_6611),
    Fact::Rights(Rights::ALL, 0x066f_667f),
    Fact::Rights(Rights::INPUT, 0x0020_0002),
    Fact::Rights(Rights::OUTPUT, 0x0020_0040),
    Fact::ReadsAlone,
    Fact::Common(0x0020_0011),
    Fact::FdstatLaidOut,
    Fact::DirentLaidOut,
    Fact::IovecLaidOut,
    Fact::Numbers(1, 1, 64, true),
    Fact::Numbers(256, 64, 65_536, true),
    Fact::Numbers(0, 1, 64, false),
    Fact::Numbers(257, 1, 64, false),
    Fact::Numbers(1, 0, 64, false),
    Fact::Numbers(1, 65, 64, false),
    Fact::Numbers(1, 1, 63, false),
    Fact::Numbers(1, 1, 65_537, false),
    Fact::Numbers(0x1_0000_0001, 1, 64, false),
    Fact::Texts(64, b"worker", 64, b"A=", None),
    Fact::Texts(65, b"worker", 64, b"A=", RANGE),
    Fact::Texts(64, b"worker", 65, b"A=", RANGE),
    Fact::Texts(1, &[b'='; 1024], 0, b"", None),
    Fact::Texts(1, &[b'='; 1025], 0, b"", RANGE),
    Fact::Texts(1, b"\0", 1, &[b'='; 1025], RANGE),
    Fact::Texts(1, b"wor\0ker", 0, b"", TEXT),
    Fact::Texts(0, b"", 1, b"A=B", None),
    Fact::Texts(0, b"", 1, b"A==", None),
    Fact::Texts(0, b"", 1, b"A", TEXT),
    Fact::Texts(0, b"", 1, b"", TEXT),
    Fact::Texts(0, b"", 1, b"=B", TEXT),
    Fact::Texts(0, b"", 1, b"A=\0", TEXT),
];

fn are_in_both(number: u64) -> bool {
    !Rights::FILE.is_within(Rights::DIRECTORY)
        && Rights::FILE.intersection(Rights::DIRECTORY) == Rights::from_number(number)
}

fn is_fdstat_laid_out() -> bool {
    let fdstat = Fdstat {
        file_type: FileType::CharacterDevice.number(),
        flags: 0x0104,
        base: Rights::INPUT,
        inheriting: Rights::from_number(0),
    };
    let mut bytes = [0xff; 24];
    fdstat.write(&mut bytes);
    bytes == *b"\x02\0\x04\x01\0\0\0\0\x02\0\x20\0\0\0\0\0\0\0\0\0\0\0\0\0"
        && Fdstat::read(&bytes) == fdstat
}

fn is_dirent_laid_out() -> bool {
    let entry = Dirent {
        next: 1,
        node: 2,
        name_length: 1,
        file_type: FileType::RegularFile.number(),
    };
    let mut bytes = [0xff; 24];
    entry.write(&mut bytes);
    bytes == *b"\x01\0\0\0\0\0\0\0\x02\0\0\0\0\0\0\0\x01\0\0\0\x04\0\0\0"
        && Dirent::read(&bytes) == entry
}

fn is_iovec_laid_out() -> bool {
    let buffer = Iovec {
        from: 0x0001_0203,
        length: 7,
    };
    Iovec::read(b"\x03\x02\x01\0\x07\0\0\0") == buffer
}

fn are_numbers_kept(alloc: Global, pages: u64, files: u64, journal: u64) -> bool {
    Config::new(
        pages,
        files,
        journal,
        ItemList::new(alloc),
        ItemList::new(alloc),
    )
    .is_ok()
}

/// The fault of a configuration with so many of the same argument and of the same entry.
fn fault(
    alloc: Global,
    arguments: usize,
    argument: &[u8],
    entries: usize,
    entry: &[u8],
) -> Result<Option<ConfigFault>, AllocError> {
    let arguments = texts(alloc, arguments, argument)?;
    let environment = texts(alloc, entries, entry)?;
    Ok(Config::new(1, 1, 64, arguments, environment).err())
}

fn is_so(alloc: Global, fact: &Fact) -> bool {
    match fact {
        Fact::Error(error, number) => error.number() == *number,
        Fact::Name(name, call) => Call::named(name) == *call,
        Fact::Types(call, parameters, results) => {
            call.parameters() == *parameters && call.results() == *results
        }
        Fact::Rights(rights, number) => {
            rights.number() == *number && rights.is_within(Rights::ALL)
        }
        Fact::ReadsAlone => {
            Rights::INPUT.has(Rights::FD_READ) && !Rights::INPUT.has(Rights::FD_WRITE)
        }
        Fact::Common(number) => are_in_both(*number),
        Fact::FdstatLaidOut => is_fdstat_laid_out(),
        Fact::DirentLaidOut => is_dirent_laid_out(),
        Fact::IovecLaidOut => is_iovec_laid_out(),
        Fact::Numbers(pages, files, journal, is_kept) => {
            are_numbers_kept(alloc, *pages, *files, *journal) == *is_kept
        }
        Fact::Texts(arguments, argument, entries, entry, wanted) => {
            fault(alloc, *arguments, argument, *entries, entry) == Ok(*wanted)
        }
    }
}

#[test]
fn numbers_layouts_and_limits_are_those_of_the_profile(rt: HostRuntime) {
    for (place, fact) in FACTS.iter().enumerate() {
        assert_row(&rt, is_so(rt.alloc(), fact), &place);
    }
}

/// What takes memory.
enum Kept {
    /// How long a line may be, what is asked for, a text, and whether it fits as a request.
    Line(usize, Question, &'static [u8], bool),
    /// The end of input fits as a request.
    End,
    /// Two random bytes.
    Random,
    /// The settings of a configuration.
    Settings,
    /// A fault, and what is printed of it.
    Printed(ConfigFault, &'static str),
}

static KEPT: [Kept; 9] = [
    Kept::Line(9, Question::Request, b"two words", true),
    Kept::Line(8, Question::Request, b"two words", false),
    Kept::Line(9, Question::Realtime, b"two words", false),
    Kept::Line(9, Question::Request, b"one\ntwo", false),
    Kept::End,
    Kept::Random,
    Kept::Settings,
    Kept::Printed(ConfigFault::Range, "C1 Range"),
    Kept::Printed(ConfigFault::Text, "C2 Text"),
];

fn is_line_told_so(
    alloc: Global,
    longest: usize,
    question: Question,
    line: &[u8],
    is_fit: bool,
) -> Result<bool, AllocError> {
    let text = text(alloc, line)?;
    Ok(fits(longest, question, &Answer::Request { text }) == is_fit)
}

/// Whether two random bytes, one of them a newline, fit where two are asked for, and not where
/// three are.
fn are_two_told(alloc: Global) -> Result<bool, AllocError> {
    let bytes = text(alloc, b"\n\0")?;
    let answer = Answer::Random { bytes };
    Ok(
        fits(0, Question::Random { length: 2 }, &answer)
            && !fits(0, Question::Random { length: 3 }, &answer),
    )
}

/// Whether it has the numbers 2, 3 and 65, one argument and two entries.
fn are_settings(config: &Config) -> bool {
    (config.pages(), config.files(), config.journal()) == (2, 3, 65)
        && (config.arguments().len(), config.environment().len()) == (1, 2)
}

fn are_settings_given(alloc: Global) -> Result<bool, AllocError> {
    let arguments = texts(alloc, 1, b"worker")?;
    let environment = texts(alloc, 2, b"A=B")?;
    match Config::new(2, 3, 65, arguments, environment) {
        Ok(config) => Ok(are_settings(&config)),
        Err(_) => Ok(false),
    }
}

fn prints(alloc: Global, fault: &ConfigFault, text: &str) -> Result<bool, AllocError> {
    Ok(format!(in alloc; "{fault}")?.as_str() == text)
}

fn is_kept_so(alloc: Global, kept: &Kept) -> Result<bool, AllocError> {
    match kept {
        Kept::Line(longest, question, line, is_fit) => {
            is_line_told_so(alloc, *longest, *question, line, *is_fit)
        }
        Kept::End => Ok(fits(0, Question::Request, &Answer::End)),
        Kept::Random => are_two_told(alloc),
        Kept::Settings => are_settings_given(alloc),
        Kept::Printed(fault, text) => prints(alloc, fault, text),
    }
}

/// `scripts/runs/refused-allocations` refuses each allocation in turn, and then this ends in that.
#[test]
fn what_is_kept_takes_memory(rt: HostRuntime) -> Result<(), AllocError> {
    for (place, kept) in KEPT.iter().enumerate() {
        assert_row(&rt, is_kept_so(rt.alloc(), kept)?, &place);
    }
    Ok(())
}

/// So many texts of these bytes.
pub(crate) fn texts(
    alloc: Global,
    count: usize,
    bytes: &[u8],
) -> Result<ItemList<ItemList<u8>>, AllocError> {
    let mut texts = ItemList::new(alloc);
    for _ in 0..count {
        texts.push(text(alloc, bytes)?)?;
    }
    Ok(texts)
}

fn text(alloc: Global, bytes: &[u8]) -> Result<ItemList<u8>, AllocError> {
    Ok(ItemList::from_vec(bytes.to_vec(alloc)?))
}

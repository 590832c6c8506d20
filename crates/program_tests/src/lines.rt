//! Lines in and out.

use crate::rows::assert_row;
use command_words::{
    BufferedLines, LineFault, LineOutlet, Outside, Request, RequestSource, read_request, seeded,
};
use record_replay::{Outlet, OutletFault, Source, SourceFault};
use std::alloc::{AllocError, Global};
use std::io::{self, BufRead, ErrorKind, Read, Write};
use std::test::Fail;
use std::time::{Clock, Duration};
use wasi_abi::{Answer, Question, Version};
use wasi_calls_rules::OutputStream;

/// Whether a line is the request of this number, with a text.
fn reads_text(line: &[u8], number: u64, text: &[u8]) -> bool {
    read_request(Version::One.text_limit(), line) == Some(Request::Text { number, text })
}

/// A line, and the number and the text of its request.
static TEXTS: [(&[u8], u64, &[u8]); 2] = [
    (b"7 r ", 7, b""),
    (
        b"9223372036854775807 r  a\xff",
        9_223_372_036_854_775_807,
        b" a\xff",
    ),
];

#[test]
fn reads_both_forms(rt: HostRuntime) -> Result<(), Fail> {
    let end = read_request(0, b"7 e");
    assert_row(&rt, end == Some(Request::End { number: 7 }), &"7 e");
    for (line, number, text) in &TEXTS {
        assert_row(&rt, reads_text(line, *number, *text), line);
    }
    Ok(())
}

#[rattlefmt::skip]
static OTHER_FORMS: [&[u8]; 9] = [
    b"", b"e", b"07 e", b"+7 e", b"0 e", b"9223372036854775808 e", b"7 r", b"7 e ", b"7  e",
];

#[test]
fn refuses_other_forms(rt: HostRuntime) -> Result<(), Fail> {
    for line in &OTHER_FORMS {
        assert_row(&rt, read_request(65_536, line).is_none(), line);
    }
    Ok(())
}

/// A writer that hands on what is flushed, and nothing else.
#[derive(Drop)]
pub(crate) struct Flushed {
    waiting: Vec<u8>,
    pub(crate) out: Vec<u8>,
    writes: u64,
}

impl Flushed {
    pub(crate) fn new(alloc: Global) -> Flushed {
        Flushed {
            waiting: Vec::new(alloc),
            out: Vec::new(alloc),
            writes: 0,
        }
    }
}

impl Write for Flushed {
    fn write(&mut self, buf: &[u8]) -> io::Result<usize> {
        self.waiting.extend_from_slice(buf)?;
        self.writes = self.writes.saturating_add(1);
        Ok(buf.len())
    }

    fn flush(&mut self) -> io::Result<()> {
        self.out.extend_from_slice(self.waiting.as_slice())?;
        self.waiting.clear();
        Ok(())
    }
}

/// A line's number, stream and text, and all that is out after it.
#[rattlefmt::skip]
static RELEASED: [(u64, OutputStream, &[u8], &[u8]); 3] = [
    (1, OutputStream::Stdout, b"hi", b"1 o hi\n"),
    (2, OutputStream::Stderr, b"", b"1 o hi\n2 e \n"),
    (3, OutputStream::Stdout, b"\xff", b"1 o hi\n2 e \n3 o \xff\n"),
];

/// Whether a release is answered well, puts this out, and is the write of its number.
fn prints_so(outlet: &mut LineOutlet<Flushed>, row: &(u64, OutputStream, &[u8], &[u8])) -> bool {
    outlet.release(row.0, row.1, row.2) == Ok(())
        && outlet.writer().out.as_slice() == row.3
        && outlet.writer().writes == row.0
}

/// An outlet over a writer that hands on what is flushed.
fn flushed_outlet(alloc: Global) -> Result<LineOutlet<Flushed>, AllocError> {
    LineOutlet::new(alloc, Flushed::new(alloc))
}

/// Whether nothing waits for a flush after the release of a line.
fn leaves_none(outlet: &mut LineOutlet<Flushed>, number: u64, text: &[u8]) -> bool {
    outlet.release(number, OutputStream::Stdout, text) == Ok(())
        && outlet.writer().waiting.is_empty()
}

/// Each line is out after its release, by one write, an empty and a long one too.
#[test]
fn prints_and_flushes(rt: HostRuntime) -> Result<(), Fail> {
    let mut outlet = flushed_outlet(rt.alloc())?;
    for row in &RELEASED {
        assert_row(&rt, prints_so(&mut outlet, row), row);
    }
    assert_row(&rt, leaves_none(&mut outlet, 4, &[b'x'; 4096]), &4096);
    drop(outlet);
    Ok(())
}

/// `scripts/runs/refused-allocations` refuses each allocation in turn: the outlet takes memory
/// once, and its longest line takes none.
#[test]
fn prints_with_memory(rt: HostRuntime) -> Result<(), LineFault> {
    let mut room = [0; 4120];
    let mut rest = room.as_mut_slice();
    let Ok(mut outlet) = LineOutlet::new(rt.alloc(), &mut rest) else {
        return Err(LineFault::Memory);
    };
    let released = outlet.release(u64::MAX, OutputStream::Stderr, &[b'x'; 4096]);
    drop(outlet);
    assert_row(&rt, released == Ok(()), &u64::MAX);
    Ok(())
}

#[test]
fn a_full_writer_is_a_fault(rt: HostRuntime) -> Result<(), Fail> {
    let mut room = [0; 4];
    let mut rest = room.as_mut_slice();
    let mut outlet = LineOutlet::new(rt.alloc(), &mut rest)?;
    let released = outlet.release(1, OutputStream::Stdout, b"hi");
    drop(outlet);
    assert_row(&rt, released == Err(OutletFault), &1);
    Ok(())
}

/// What is said of a request, as a letter and, after `t`, the first byte of a text: `e` for the
/// end, `-` for no answer, `!` for a fault.
fn letters(said: &Result<Option<Answer>, SourceFault>) -> (u8, Option<u8>) {
    let Ok(found) = said else {
        return (b'!', None);
    };
    let Some(answer) = found else {
        return (b'-', None);
    };
    match answer {
        Answer::Request { text } => (b't', text.as_slice().first().copied()),
        Answer::End => (b'e', None),
        _ => (b'?', None),
    }
}

/// A clock that can't be read.
#[derive(Clone, Copy)]
pub struct NoClock;

impl Clock for NoClock {
    fn monotonic(&self) -> io::Result<Duration> {
        Err(io::Error::from(ErrorKind::Unsupported))
    }

    fn since_1970(&self) -> io::Result<Duration> {
        Err(io::Error::from(ErrorKind::Unsupported))
    }
}

/// A seed of zeros, and the time 5.
pub const OUTSIDE: Outside = Outside {
    seed: [0; 32],
    clock: Some(5),
};

/// A source over the lines of a reader, after so many requests.
fn source_over<R: BufRead + Drop>(
    alloc: Global,
    reader: R,
    taken: u64,
) -> RequestSource<BufferedLines<R>, NoClock> {
    RequestSource::new(alloc, BufferedLines::new(reader), NoClock, OUTSIDE, taken)
}

/// What a source says of request after request.
fn collect_answers<R: BufRead + Drop>(
    source: &mut RequestSource<BufferedLines<R>, NoClock>,
    times: usize,
    out: &mut Vec<u8>,
) -> Result<(), AllocError> {
    for _ in 0..times {
        let (letter, first) = letters(&source.answer(Question::Request));
        out.push(letter)?;
        if let Some(first) = first {
            out.push(first)?;
        }
    }
    Ok(())
}

/// What a source says of so many requests, and its fault.
fn said_of<R: BufRead + Drop>(
    alloc: Global,
    reader: R,
    taken: u64,
    times: usize,
) -> Result<(Vec<u8>, Option<LineFault>), AllocError> {
    let mut source = source_over(alloc, reader, taken);
    let mut out = Vec::new(alloc);
    let collected = collect_answers(&mut source, times, &mut out);
    let fault = source.fault();
    drop(source);
    collected?;
    Ok((out, fault))
}

/// A request of 3 where 2 is the next one.
const THIRD: Option<LineFault> = Some(LineFault::Number {
    given: 3,
    wanted: 2,
});

/// A line of another form.
const FORM: Option<LineFault> = Some(LineFault::Form);

/// How many requests were taken, the lines, how often a request is asked for, what is said, and the
/// fault.
type Said = (u64, &'static [u8], usize, &'static [u8], Option<LineFault>);

static SAID: [Said; 6] = [
    (0, b"1 r hello\n1 r other\n3 r x", 2, b"th!", THIRD),
    (0, b"1 r \n2 e", 3, b"te-", None),
    (4, b"1 r a\n2 e\n5 r b\n", 3, b"tb--", None),
    (0, b"1 r a\n\n2 r b\n", 2, b"ta!", FORM),
    (0, b"1 r", 1, b"!", FORM),
    (0, b"", 1, b"-", None),
];

fn says_so(alloc: Global, row: &Said) -> Result<bool, AllocError> {
    let said = said_of(alloc, row.1, row.0, row.2)?;
    Ok(said.0.as_slice() == row.3 && said.1 == row.4)
}

#[test]
fn answers_the_next_request(rt: HostRuntime) -> Result<(), Fail> {
    for row in &SAID {
        assert_row(&rt, says_so(rt.alloc(), row)?, row);
    }
    Ok(())
}

/// A reader that can't be read.
#[derive(Drop)]
struct Broken;

impl Read for Broken {
    fn read(&mut self, _buf: &mut [u8]) -> io::Result<usize> {
        Err(io::Error::from(ErrorKind::BrokenPipe))
    }
}

impl BufRead for Broken {
    fn fill_buf(&mut self) -> io::Result<&[u8]> {
        Err(io::Error::from(ErrorKind::BrokenPipe))
    }

    fn consume(&mut self, _amount: usize) {}
}

/// Whether a reader that fails within the second line is a fault there.
fn fails_within(alloc: Global) -> Result<bool, AllocError> {
    let reader = b"1 r a\n2 r b".as_slice().chain(Broken);
    let said = said_of(alloc, reader, 0, 2)?;
    Ok(said.0.as_slice() == b"ta!".as_slice() && said.1 == Some(LineFault::Read))
}

#[test]
fn a_failed_read_is_a_fault(rt: HostRuntime) -> Result<(), Fail> {
    assert_row(&rt, fails_within(rt.alloc())?, &"a broken reader");
    Ok(())
}

/// Whether the first request of a line is answered, and the fault.
fn answer_to(alloc: Global, line: &[u8]) -> (bool, Option<LineFault>) {
    let mut source = source_over(alloc, line, 0);
    let answer = source.answer(Question::Request);
    let is_answered = answer.is_ok();
    drop(answer);
    let fault = source.fault();
    drop(source);
    (is_answered, fault)
}

/// `scripts/runs/refused-allocations` refuses each allocation in turn, and then the fault is out of
/// memory.
#[test]
fn answers_with_memory(rt: HostRuntime) -> Result<(), LineFault> {
    let (is_answered, fault) = answer_to(rt.alloc(), b"1 r hi\n");
    match fault {
        Some(fault) if !is_answered => Err(fault),
        _ => Ok(()),
    }
}

/// A front, so many times `x`, and a back.
fn long_input(
    alloc: Global,
    front: &[u8],
    length: usize,
    back: &[u8],
) -> Result<Vec<u8>, AllocError> {
    let mut input = Vec::from_slice(alloc, front)?;
    for _ in 0..length {
        input.push(b'x')?;
    }
    input.extend_from_slice(back)?;
    Ok(input)
}

/// A worker's version, the length of a text, and whether a line with it is a request line there.
static LIMITS: [(Version, usize, bool); 4] = [
    (Version::One, 4_096, true),
    (Version::One, 4_097, false),
    (Version::Two, 65_536, true),
    (Version::Two, 65_537, false),
];

fn is_read_so(alloc: Global, row: &(Version, usize, bool)) -> Result<bool, AllocError> {
    let line = long_input(alloc, b"7 r ", row.1, b"")?;
    Ok(read_request(row.0.text_limit(), line.as_slice()).is_some() == row.2)
}

/// The length of a request's text, and the fault.
static LENGTHS: [(usize, Option<LineFault>); 3] = [(4096, None), (4097, FORM), (5000, FORM)];

/// Whether a text of this length is answered, or else is this fault.
fn answers_so(alloc: Global, row: &(usize, Option<LineFault>)) -> Result<bool, AllocError> {
    let line = long_input(alloc, b"1 r ", row.0, b"")?;
    Ok(answer_to(alloc, line.as_slice()) == (row.1.is_none(), row.1))
}

#[test]
fn refuses_a_longer_text(rt: HostRuntime) -> Result<(), Fail> {
    for row in &LENGTHS {
        assert_row(&rt, answers_so(rt.alloc(), row)?, row);
    }
    for row in &LIMITS {
        assert_row(&rt, is_read_so(rt.alloc(), row)?, row);
    }
    Ok(())
}

/// The number of a last request.
const LAST: u64 = 9_223_372_036_854_775_806;

/// How many requests were taken, a front, how many `x` and what after them, what is said of three
/// requests, and the fault.
type Long = (
    u64,
    &'static [u8],
    usize,
    &'static [u8],
    &'static [u8],
    Option<LineFault>,
);

static LONG: [Long; 7] = [
    (0, b"1 r a\n1 r ", 4096, b"\n2 r b\n", b"tatb-", None),
    (0, b"1 r a\n1 r ", 4097, b"\n2 r b\n", b"ta!!", FORM),
    (0, b"1 r a\n1 r ", 4116, b"2 r evil\n", b"ta!!", FORM),
    (0, b"1 r a\n2 r ", 4116, b"2 r evil\n", b"ta!!", FORM),
    (0, b"1 r a\n3 r ", 4116, b"2 r evil\n", b"ta!!", FORM),
    (LAST, b"9223372036854775807 r ", 4096, b"\n", b"tx--", None),
    (LAST, b"9223372036854775807 r ", 4097, b"\n", b"!!!", FORM),
];

fn says_long_so(alloc: Global, row: &Long) -> Result<bool, AllocError> {
    let input = long_input(alloc, row.1, row.2, row.3)?;
    let said = said_of(alloc, input.as_slice(), row.0, 3)?;
    Ok(said.0.as_slice() == row.4 && said.1 == row.5)
}

/// Lines of each number, long enough that a request of their own seems to be where the reader
/// stops.
#[test]
fn no_part_of_a_line_is_read(rt: HostRuntime) -> Result<(), Fail> {
    for row in &LONG {
        assert_row(&rt, says_long_so(rt.alloc(), row)?, row);
    }
    Ok(())
}

/// What is answered from outside, without lines.
type Bare = RequestSource<BufferedLines<&'static [u8]>, NoClock>;

/// Whether random bytes are given, and are these.
fn is_random(said: &Result<Option<Answer>, SourceFault>, wanted: &[u8]) -> bool {
    match said {
        Ok(Some(Answer::Random { bytes })) => bytes.as_slice() == wanted,
        _ => false,
    }
}

/// Whether a source gives these bytes for a question of so many.
fn draws_so(source: &mut Bare, length: u32, wanted: &[u8]) -> bool {
    let said = source.answer(Question::Random { length });
    is_random(&said, wanted)
}

/// The first words of stream 1 of the seed of zeros, as they are published for ChaCha20.
const WORDS: [u8; 16] = *b"\xef\x3f\xdf\xd6\xc6\x15\x78\xfb\xf5\xcf\x35\xbd\x3d\xd3\x3b\x80";

/// A word is four bytes, of which a question drops those that it doesn't want.
#[test]
fn draws_word_after_word(rt: HostRuntime) -> Result<(), Fail> {
    let mut source = source_over(rt.alloc(), b"".as_slice(), 0);
    for (length, at) in [(5, 0), (0, 8), (4, 8), (1, 12)] {
        let end = at + length as usize;
        let is_so = draws_so(&mut source, length, &WORDS[at..end]);
        assert_row(&rt, is_so, &(length, at));
    }
    drop(source);
    Ok(())
}

/// The first words of the seed of zeros, as they are published for ChaCha20.
#[test]
fn gives_the_words_of_a_seed(rt: HostRuntime) -> Result<(), Fail> {
    let bytes = seeded(rt.alloc(), [0; 32], 0, 0, 5)?;
    let are_so = bytes.as_slice() == [0x76, 0xb8, 0xe0, 0xad, 0xa0].as_slice();
    drop(bytes);
    assert_row(&rt, are_so, &"a seed of zeros");
    Ok(())
}

/// The time that is given, or none.
fn time_in(said: &Result<Option<Answer>, SourceFault>) -> Option<u64> {
    match said {
        Ok(Some(Answer::Realtime { nanoseconds } | Answer::Monotonic { nanoseconds })) => {
            Some(*nanoseconds)
        }
        _ => None,
    }
}

/// The time that a source gives, or none.
fn time_of(source: &mut Bare, question: Question) -> Option<u64> {
    let said = source.answer(question);
    time_in(&said)
}

#[test]
fn shows_the_fixed_time(rt: HostRuntime) -> Result<(), Fail> {
    let mut source = source_over(rt.alloc(), b"".as_slice(), 0);
    for question in [Question::Realtime, Question::Monotonic, Question::Realtime] {
        assert_row(&rt, time_of(&mut source, question) == Some(5), &question);
    }
    drop(source);
    Ok(())
}

/// A clock that always shows one time.
#[derive(Clone, Copy)]
struct FixedClock(Duration);

impl Clock for FixedClock {
    fn monotonic(&self) -> io::Result<Duration> {
        Err(io::Error::from(ErrorKind::Unsupported))
    }

    fn since_1970(&self) -> io::Result<Duration> {
        Ok(self.0)
    }
}

/// In nanoseconds.
const SECOND: u32 = 1_000_000_000;

/// Seconds and nanoseconds of a clock, and the nanoseconds that a worker is told. 2^64 nanoseconds
/// are 18,446,744,073.709551616 seconds.
static CLOCKS: [(u64, u32, u64); 6] = [
    (0, 0, 0),
    (0, 1, 1),
    (1, 7, 1_000_000_007),
    (18_446_744_073, 709_551_614, u64::MAX - 1),
    (18_446_744_073, 709_551_616, u64::MAX),
    (u64::MAX, 999_999_999, u64::MAX),
];

/// Whether both clocks of a worker show that time.
fn shows_clock(alloc: Global, row: &(u64, u32, u64)) -> bool {
    if row.1 >= SECOND {
        return false;
    }
    let clock = FixedClock(Duration::new(row.0, row.1));
    let reader = BufferedLines::new(b"".as_slice());
    let outside = Outside {
        clock: None,
        ..OUTSIDE
    };
    let mut source = RequestSource::new(alloc, reader, clock, outside, 0);
    let realtime = source.answer(Question::Realtime);
    let monotonic = source.answer(Question::Monotonic);
    drop(source);
    time_in(&realtime) == Some(row.2) && time_in(&monotonic) == Some(row.2)
}

#[test]
fn shows_the_time_of_the_clock(rt: HostRuntime) -> Result<(), Fail> {
    for row in &CLOCKS {
        assert_row(&rt, shows_clock(rt.alloc(), row), row);
    }
    Ok(())
}

/// Whether it shows no time, has this fault, and refuses a request from then on.
fn has_failed(source: &mut Bare, fault: LineFault) -> bool {
    time_of(source, Question::Realtime).is_none()
        && source.fault() == Some(fault)
        && source.answer(Question::Request).is_err()
}

#[test]
fn a_failed_clock_is_a_fault(rt: HostRuntime) -> Result<(), Fail> {
    let reader = BufferedLines::new(b"1 e".as_slice());
    let outside = Outside {
        clock: None,
        ..OUTSIDE
    };
    let mut source = RequestSource::new(rt.alloc(), reader, NoClock, outside, 0);
    let has_failed = has_failed(&mut source, LineFault::Clock);
    drop(source);
    assert_row(&rt, has_failed, &"no clock");
    Ok(())
}

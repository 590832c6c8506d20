//! Images of processes, which are made processes again, and a sink that takes no more.

ghost use Rattle.std.specs.Prelude.{◌<◌, length};

use crate::process_image_stop::ProcessImageStop;
use crate::processes::Step::{
    self, Exit, Owe, RefuseEnd, RefuseTime, Release, Run, Stop, Take, TakeEnd, Taken,
};
use crate::processes::{ECHO, FILES, HELLO, begin_with, bytes_of, restore_with, take_steps};
use crate::rows::assert_row;
use process::Process;
use state_image::{Sink, write_process_image, write_process_image_to};
use std::alloc::Global;
use std::process::Abort;

/// The mark, steps, answers, requests, lines and the last monotonic time. It is in `_start`, no
/// input has ended, and nothing is unread or unfinished. There are no globals. One frame is of
/// function 2 at its first instruction, without slots. One page is there, with the bytes of its
/// segment.
const FRONT: [u8; 101] =
    *b"DWIMAGE1\0\0\0\0\0\0\0\0\0\0\0\0\0\0\0\0\0\0\0\0\0\0\0\0\0\0\0\0\0\0\0\0\0\0\0\0\0\0\0\0\x01\
    \0\0\0\0\0\0\0\0\0\0\0\0\0\0\0\0\0\0\0\0\0\x01\0\0\0\x02\0\0\0\0\0\0\0\0\0\0\0\x01\0\0\0\x08\0\
    \0\0\x03\0\0\0hi\n";

/// The bytes of the image of `FILES`: 98 up to the frames, 84 of two frames with seven slots,
/// 65,540 of memory, 158 of five nodes, and 277 of seven descriptors.
const FILES_BYTES: usize = 66_157;

/// Where memory begins in the image of `echo` at its start, and once it has an operand.
const FRESH_AT: usize = 90;

const ASKED_AT: usize = 98;

/// The bytes of a page of memory.
const PAGE_BYTES: usize = 65_536;

/// Takes so many pieces, and refuses every other one.
#[derive(Drop)]
struct Few {
    pieces_left: u64,
    asked: u64,
}

#[derive(Clone, Copy, Debug, PartialEq, Eq)]
struct Refused;

impl Sink for Few {
    type Fault = Refused;

    ghost takes = { λ _ _ _ _. Unit {0} };

    fn push(&mut self, _bytes: &[u8]) -> Result<(), Refused> {
        self.asked = self.asked.saturating_add(1);
        if self.pieces_left == 0 {
            return Err(Refused);
        }
        self.pieces_left -= 1;
        Ok(())
    }
}

/// Whether a sink that takes three pieces is asked for a fourth, and for no more.
fn is_refused_once(process: &Process) -> bool {
    let mut sink = Few {
        pieces_left: 3,
        asked: 0,
    };
    write_process_image_to(process, &mut sink) == Err(Refused)
        && (sink.pieces_left, sink.asked) == (0, 4)
}

/// The image of a process after these steps.
fn steps_and_process_image(
    alloc: Global,
    process: &mut Process,
    steps: &[Step],
) -> Result<Vec<u8>, ProcessImageStop> {
    take_steps(alloc, process, steps)?;
    Ok(write_process_image(alloc, process)?)
}

fn image_behind(
    alloc: Global,
    process: Process,
    steps: &[Step],
) -> Result<Vec<u8>, ProcessImageStop> {
    let mut process = process;
    let process_image = steps_and_process_image(alloc, &mut process, steps);
    drop(process);
    process_image
}

/// The same from the start of a module on.
fn begun_process_image(
    alloc: Global,
    wasm: &[u8],
    steps: &[Step],
) -> Result<Vec<u8>, ProcessImageStop> {
    let process = begin_with(alloc, wasm, 1)?;
    image_behind(alloc, process, steps)
}

/// The same of the process that is made of an image, if there is one.
fn restored_process_image(
    alloc: Global,
    wasm: &[u8],
    process_image: &[u8],
    steps: &[Step],
) -> Result<Option<Vec<u8>>, ProcessImageStop> {
    match restore_with(alloc, wasm, process_image, 1)? {
        Some(process) => Ok(Some(image_behind(alloc, process, steps)?)),
        None => Ok(None),
    }
}

/// What is told of a module's image after some steps.
enum Told {
    /// There is one.
    Steps,
    /// It has this length, and begins with these bytes.
    ProcessImage(usize, &'static [u8]),
    /// It is made a process. By the first steps here that comes to where the second ones lead from
    /// the start, and whether that is another image.
    Again(&'static [Step], &'static [Step], bool),
    /// It is none without its last byte, nor with one more.
    Edge,
    /// Bytes of it are others, of memory every 97th one. It begins there. They are no image then,
    /// or that of another process.
    Bytes(usize),
    /// A sink that refuses a piece of an image is asked for no more.
    Refused,
}

/// Whether what was made of an image is the image to which these steps lead.
fn is_made_so(
    alloc: Global,
    wasm: &[u8],
    made: Option<&[u8]>,
    whole: &[Step],
) -> Result<bool, ProcessImageStop> {
    let wanted = begun_process_image(alloc, wasm, whole)?;
    let is_so = made == Some(wanted.as_slice());
    drop(wanted);
    Ok(is_so)
}

fn comes_again(
    alloc: Global,
    wasm: &[u8],
    process_image: &[u8],
    then: &[Step],
    whole: &[Step],
    is_other: bool,
) -> Result<bool, ProcessImageStop> {
    let made = restored_process_image(alloc, wasm, process_image, then)?;
    let differs = made.as_deref() != Some(process_image);
    let is_so = is_made_so(alloc, wasm, made.as_deref(), whole);
    drop(made);
    Ok(is_so? && differs == is_other)
}

/// What is made of bytes: 0 for nothing, 1 for a process whose image they are, and 2 for another.
fn made_of(alloc: Global, wasm: &[u8], process_image: &[u8]) -> Result<u64, ProcessImageStop> {
    let made = restored_process_image(alloc, wasm, process_image, &[])?;
    let kind = match made.as_deref() {
        Some(again) if again == process_image => 1,
        Some(_) => 2,
        None => 0,
    };
    drop(made);
    Ok(kind)
}

/// Whether it is none without its last byte, a zero, and none with another zero after it.
fn has_an_edge(
    alloc: Global,
    wasm: &[u8],
    process_image: &mut Vec<u8>,
) -> Result<bool, ProcessImageStop> {
    let last = process_image.pop();
    let fewer = made_of(alloc, wasm, process_image.as_slice())?;
    process_image.extend_from_slice(&[0, 0])?;
    let more = made_of(alloc, wasm, process_image.as_slice())?;
    Ok(last == Some(0) && fewer == 0 && more == 0)
}

/// How many of four other bytes at a place make a process whose image is another one.
fn wrong_at(
    alloc: Global,
    wasm: &[u8],
    process_image: &mut [u8],
    place: usize,
) -> Result<u32, ProcessImageStop>
    requires { place < length process_image.old }
{
    let byte = process_image[place];
    let mut wrong: u32 = 0;
    for other in [0, 1, 255, byte.wrapping_add(1)] {
        process_image[place] = other;
        if made_of(alloc, wasm, process_image)? == 2 {
            wrong = wrong.saturating_add(1);
        }
    }
    process_image[place] = byte;
    Ok(wrong)
}

/// Whether a byte is outside of memory, which begins there, or one of every 97 in it.
fn is_tried(place: usize, memory_at: usize) -> bool {
    match place.checked_sub(memory_at) {
        Some(offset) => offset >= PAGE_BYTES || offset % 97 == 0,
        None => true,
    }
}

/// The same over all bytes that are tried.
fn wrong_of(
    alloc: Global,
    wasm: &[u8],
    process_image: &mut [u8],
    memory_at: usize,
) -> Result<u32, ProcessImageStop> {
    let mut wrong: u32 = 0;
    for place in 0..process_image.len() {
        if is_tried(place, memory_at) {
            wrong = wrong.saturating_add(wrong_at(alloc, wasm, process_image, place)?);
        }
    }
    Ok(wrong)
}

fn is_refused(alloc: Global, wasm: &[u8]) -> Result<bool, ProcessImageStop> {
    let process = begin_with(alloc, wasm, 1)?;
    let is_so = is_refused_once(&process);
    drop(process);
    Ok(is_so)
}

fn is_image_so(
    alloc: Global,
    wasm: &[u8],
    process_image: &mut Vec<u8>,
    told: &Told,
) -> Result<bool, ProcessImageStop> {
    match told {
        Told::Steps => Ok(true),
        Told::ProcessImage(length, front) => {
            Ok(process_image.len() == *length && process_image.starts_with(front))
        }
        Told::Again(then, whole, is_other) => comes_again(
            alloc,
            wasm,
            process_image.as_slice(),
            then,
            whole,
            *is_other,
        ),
        Told::Edge => has_an_edge(alloc, wasm, process_image),
        Told::Bytes(memory_at) => {
            Ok(wrong_of(alloc, wasm, process_image.as_mut_slice(), *memory_at)? == 0)
        }
        Told::Refused => is_refused(alloc, wasm),
    }
}

/// A name, the texts of a module, steps, and what is told of its image then.
type Row = (&'static str, &'static [&'static str], &'static [Step], Told);

fn is_so(alloc: Global, wasm: &[u8], row: &Row) -> Result<bool, ProcessImageStop> {
    let mut process_image = begun_process_image(alloc, wasm, row.2)?;
    let is_so = is_image_so(alloc, wasm, &mut process_image, &row.3);
    drop(process_image);
    is_so
}

fn is_told_so(alloc: Global, row: &Row) -> Result<bool, ProcessImageStop> {
    let wasm = bytes_of(alloc, row.1)?;
    let is_so = is_so(alloc, wasm.as_slice(), row);
    drop(wasm);
    is_so
}

/// To where `echo` and `FILES` ask, and to where `echo` has taken its first request.
const ASKS: &[Step] = &[Run(1_000)];

const ASKED: &[Step] = &[Run(100), Take];

/// One step more than the answer.
const GONE_ON: &[Step] = &[Run(1_000), Take, Run(1)];

#[rattlefmt::skip]
static LIVES: [Row; 11] = [
    ("hello owes its line", &HELLO, &[
        Stop(0, [1, 0, 0, 0]), Stop(4, [1, 4, 0, 0]), Stop(100, [2, 5, 1, 1]),
        Stop(100, [2, 5, 1, 1]),
    ], Told::Steps),
    ("hello takes no answer", &HELLO,
        &[RefuseEnd, Stop(4, [1, 4, 0, 0]), RefuseEnd, Stop(100, [2, 5, 1, 1])], Told::Steps),
    ("hello exits", &HELLO, &[Stop(100, [2, 5, 1, 1]), Owe(b"hi"), Release, Exit], Told::Steps),
    ("an answer to something else is refused, and what waits goes on waiting", &ECHO, &[
        Stop(100, [3, 5, 0, 0]), RefuseTime, Taken(5, 0), Stop(100, [3, 5, 0, 0]), Take,
        Taken(6, 1), Stop(100, [2, 20, 1, 1]), Owe(b"hello"),
    ], Told::Steps),
    ("input ends, and no line is written", &ECHO,
        &[Stop(100, [3, 5, 0, 0]), TakeEnd, Stop(100, [4, 11, 0, 0])], Told::Steps),
    ("nothing is pushed after a refusal", &HELLO, &[], Told::Refused),
    ("the image of echo from step 6", &ECHO, ASKED, Told::ProcessImage(65_819, &[])),
    ("echo comes back from step 6", &ECHO, ASKED, Told::Again(&[], ASKED, false)),
    ("a byte fewer or more is no image", &ECHO, &[], Told::Edge),
    ("what was made again asks as before, and takes the same answer to the same end", &FILES, ASKS,
        Told::Again(GONE_ON, GONE_ON, true)),
    ("a refused answer changes nothing", &ECHO, ASKS, Told::Again(&[RefuseTime], ASKS, false)),
];

fn are_told(rt: &impl Abort, alloc: Global, rows: &[Row]) -> Result<(), ProcessImageStop> {
    for row in rows {
        assert_row(rt, is_told_so(alloc, row)?, &row.0);
    }
    Ok(())
}

#[test]
fn processes_and_images_are_told(rt: HostRuntime) -> Result<(), ProcessImageStop> {
    are_told(&rt, rt.alloc(), &LIVES)
}

/// Other bytes of an image at the start of `echo`, and of one after its first request.
static FRESH_BYTES: [Row; 1] = [("fresh", &ECHO, &[], Told::Bytes(FRESH_AT))];

static ASKED_BYTES: [Row; 1] = [("step 6", &ECHO, ASKED, Told::Bytes(ASKED_AT))];

#[test]
fn other_bytes_of_a_fresh_image_are_refused_or_others(
    rt: HostRuntime,
) -> Result<(), ProcessImageStop> {
    are_told(&rt, rt.alloc(), &FRESH_BYTES)
}

#[test]
fn other_bytes_of_an_image_of_step_6_are_refused_or_others(
    rt: HostRuntime,
) -> Result<(), ProcessImageStop> {
    are_told(&rt, rt.alloc(), &ASKED_BYTES)
}

#[rattlefmt::skip]
static IMAGES: [Row; 6] = [
    ("hello", &HELLO, &[], Told::ProcessImage(65_811, &FRONT)),
    ("fresh echo", &ECHO, &[], Told::ProcessImage(65_811, &[])),
    ("fresh echo comes back", &ECHO, &[], Told::Again(&[], &[], false)),
    ("files", &FILES, ASKS, Told::ProcessImage(FILES_BYTES, &[])),
    ("files come back", &FILES, ASKS, Told::Again(&[], ASKS, false)),
    ("what is made again refuses an answer, and takes another one at once", &ECHO, ASKS,
        Told::Again(&[RefuseTime, Take], ASKED, true)),
];

/// `scripts/runs/refused-allocations` refuses each allocation in turn, and then this ends out of
/// memory.
#[test]
fn images_come_back_with_memory(rt: HostRuntime) -> Result<(), ProcessImageStop> {
    are_told(&rt, rt.alloc(), &IMAGES)
}

//! What guests do by calls, step after step: what comes of each call, and what is seen then. The
//! steps are those of `call_stories`. Also out of memory.

ghost use Rattle.std.specs.Prelude.{◌≡◌, true, [], ◌∷◌};
ghost use Rattle.wasi_calls.specs.rules.Calls.{AreArguments};

use crate::abi::texts;
use crate::call_stories::{
    BYTES, CREATE, FILE_RIGHTS, FIRST_FILE, Given, RESULT, ROOT, Step, Story, beginnings, lines,
    nodes, openings, outside, sizes, three_lines,
};
use crate::rows::assert_row;
use guest_memory::Memory;
use std::alloc::{AllocError, Global};
use wasi_abi::{Answer, Call, Config, Version};
use wasi_calls::{CallOutcome, WasiState, call, lines_begun};
use wasi_calls_rules::OutputStream;
use wasm_syntax::{ItemList, ValueType};

/// Why a test has nothing to compare.
#[derive(Clone, Copy, Debug)]
enum CallStop {
    Memory,
    /// A host is refused its configuration.
    Configuration,
}

impl From<AllocError> for CallStop {
    fn from(_error: AllocError) -> CallStop {
        CallStop::Memory
    }
}

/// The names of sixteen files.
static NAMES: [u8; 16] = *b"abcdefghijklmnop";

/// A host, and a page whose cell for results holds 7.
#[derive(Drop)]
struct Guest {
    host: WasiState,
    memory: Memory,
}

fn fresh_guest(alloc: Global) -> Result<Guest, CallStop> {
    let memory = page(alloc)?;
    let host = host(alloc)?;
    Ok(Guest { host, memory })
}

/// One argument, and one entry of the environment.
fn config(alloc: Global) -> Result<Config, CallStop> {
    let arguments = texts(alloc, 1, b"worker")?;
    let environment = texts(alloc, 1, b"A=b")?;
    match Config::new(1, 1, 64, arguments, environment) {
        Ok(config) => Ok(config),
        Err(_) => Err(CallStop::Configuration),
    }
}

fn host(alloc: Global) -> Result<WasiState, CallStop> {
    let config = config(alloc)?;
    Ok(WasiState::new(alloc, config, Version::One)?)
}

fn page(alloc: Global) -> Result<Memory, CallStop> {
    let Ok(mut memory) = Memory::new(alloc, 1, 1) else {
        return Err(CallStop::Memory);
    };
    let _ = memory.store_u32(RESULT, 0, 7);
    Ok(memory)
}

/// Whether a number is one of its type.
fn is_of(value_type: ValueType, number: u64) -> bool
    ensures { result ≡ true → AreArguments (value_type ∷ []) (number ∷ []) }
{
    match value_type {
        ValueType::I32 => number <= u64::from(u32::MAX),
        ValueType::I64 => true,
    }
}

/// Whether there is one number a type, each of its type.
fn are_typed(types: &[ValueType], numbers: &[u64]) -> bool
    ensures { result ≡ true → AreArguments types.now numbers.now }
{
    let Some((value_type, types)) = types.split_first() else {
        return numbers.is_empty();
    };
    let Some((number, numbers)) = numbers.split_first() else {
        return false;
    };
    is_of(*value_type, *number) && are_typed(types, numbers)
}

/// What comes of a call, or none where its arguments are of other types.
fn told(
    alloc: Global,
    guest: &mut Guest,
    asked: Call,
    arguments: &[u64],
    answer: Option<&Answer>,
) -> Option<CallOutcome> {
    if !are_typed(asked.parameters(), arguments) {
        return None;
    }
    Some(call(
        alloc,
        &mut guest.host,
        &mut guest.memory,
        asked,
        arguments,
        answer,
    ))
}

/// Whether a call without an answer from outside comes to this.
fn comes_to(
    alloc: Global,
    guest: &mut Guest,
    asked: Call,
    arguments: &[u64],
    wanted: CallOutcome,
) -> bool {
    told(alloc, guest, asked, arguments, None) == Some(wanted)
}

fn row(alloc: Global, bytes: &[u8]) -> Result<ItemList<u8>, AllocError> {
    Ok(ItemList::from_vec(bytes.to_vec(alloc)?))
}

fn answer_of(alloc: Global, given: &Given) -> Result<Answer, AllocError> {
    match given {
        Given::Request(text) => {
            let text = row(alloc, text)?;
            Ok(Answer::Request { text })
        }
        Given::End => Ok(Answer::End),
        Given::Realtime(time) => Ok(Answer::Realtime { nanoseconds: *time }),
        Given::Monotonic(time) => Ok(Answer::Monotonic { nanoseconds: *time }),
        Given::Random(bytes) => {
            let bytes = row(alloc, bytes)?;
            Ok(Answer::Random { bytes })
        }
    }
}

/// Whether a call is done once it is given this.
fn is_done_with(
    alloc: Global,
    guest: &mut Guest,
    asked: Call,
    arguments: &[u64],
    given: &Given,
) -> Result<bool, CallStop> {
    let answer = answer_of(alloc, given)?;
    Ok(told(alloc, guest, asked, arguments, Some(&answer)) == Some(CallOutcome::Done))
}

/// Puts so many letters, with a newline after them.
fn is_line_put(guest: &mut Guest, letters: u32) -> bool {
    for place in 0..letters {
        if guest.memory.store_u8(BYTES, place, b'a').is_none() {
            return false;
        }
    }
    guest.memory.store_u8(BYTES, letters, b'\n').is_some()
}

fn is_named(guest: &mut Guest, at: u32, from: u32, len: u32) -> bool {
    guest.memory.store_u32(at, 0, from).is_some() && guest.memory.store_u32(at, 4, len).is_some()
}

fn write(alloc: Global, guest: &mut Guest, fd: u32, count: u32, cell: u32) -> CallOutcome {
    let arguments = [u64::from(fd), 0, u64::from(count), u64::from(cell)];
    call(
        alloc,
        &mut guest.host,
        &mut guest.memory,
        Call::FdWrite,
        &arguments,
        None,
    )
}

/// Whether the cell is as it was, and the end writes no line.
fn is_unchanged(alloc: Global, guest: &mut Guest) -> bool {
    let is_kept = guest.memory.load_u32(RESULT, 0) == Some(7);
    guest.host.end(alloc);
    is_kept && has_lines(guest, &[])
}

/// Whether a write comes to this. Where memory is wanted for the first one, nothing has changed.
fn is_written_so(
    alloc: Global,
    guest: &mut Guest,
    outcome: CallOutcome,
    wanted: CallOutcome,
) -> Result<bool, CallStop> {
    if outcome == CallOutcome::Memory && is_unchanged(alloc, guest) {
        return Err(CallStop::Memory);
    }
    Ok(outcome == wanted)
}

/// Whether a file of this name is made, and opened as this descriptor.
fn opens(alloc: Global, guest: &mut Guest, name: u8, fd: u32) -> bool {
    let cell = u64::from(RESULT);
    let arguments = [
        ROOT,
        0,
        u64::from(BYTES),
        1,
        CREATE,
        FILE_RIGHTS,
        0,
        0,
        cell,
    ];
    guest.memory.store_u8(BYTES, 0, name).is_some()
        && comes_to(alloc, guest, Call::PathOpen, &arguments, CallOutcome::Done)
        && guest.memory.load_u32(RESULT, 0) == Some(fd)
}

fn opens_files(alloc: Global, guest: &mut Guest) -> bool {
    let mut fd = FIRST_FILE;
    for name in &NAMES {
        if !opens(alloc, guest, *name, fd) {
            return false;
        }
        fd = fd.wrapping_add(1);
    }
    true
}

fn are_sized(alloc: Global, guest: &mut Guest, count: u32, size: u64) -> bool {
    for place in 0..count {
        let arguments = [u64::from(FIRST_FILE.wrapping_add(place)), size];
        let wanted = CallOutcome::Done;
        if !comes_to(alloc, guest, Call::FdFilestatSetSize, &arguments, wanted) {
            return false;
        }
    }
    true
}

fn takes(guest: &Guest, bytes: u64, chunks: usize) -> bool {
    let tree = guest.host.tree();
    tree.used_bytes() == bytes && tree.chunks() == chunks
}

/// Whether these bytes lie at a place.
fn holds(guest: &Guest, at: u32, bytes: &[u8]) -> bool {
    match u32::try_from(bytes.len()) {
        Ok(len) => guest.memory.part(at, len) == Some(bytes),
        Err(_) => false,
    }
}

/// Whether these numbers of eight bytes lie at a place, one after another.
fn has_longs(guest: &Guest, at: u32, numbers: &[u64]) -> bool {
    let mut place = at;
    for number in numbers {
        if guest.memory.load_u64(place, 0) != Some(*number) {
            return false;
        }
        place = place.wrapping_add(8);
    }
    true
}

/// The lines that wait are on these streams, and so long.
fn has_lines(guest: &Guest, wanted: &[(OutputStream, usize)]) -> bool {
    let lines = guest.host.waiting_lines();
    if lines.len() != wanted.len() {
        return false;
    }
    for (line, (stream, len)) in lines.iter().zip(wanted) {
        if line.stream() != *stream || line.text().len() != *len {
            return false;
        }
    }
    true
}

fn has_lengths(guest: &Guest, wanted: &[usize; 3]) -> bool {
    let lines = guest.host.waiting_lines();
    let Some(first) = lines.first() else {
        return false;
    };
    let Some(last) = lines.last() else {
        return false;
    };
    [lines.len(), first.text().len(), last.text().len()] == *wanted
}

fn begins(guest: &Guest, count: usize) -> bool {
    let arguments = [2, 0, 1, u64::from(RESULT)];
    lines_begun(&guest.host, &guest.memory, Call::FdWrite, &arguments) == count
}

/// Whether what is seen is so.
fn is_so(guest: &Guest, step: &Step) -> bool {
    match step {
        Step::Holds(at, bytes) => holds(guest, *at, bytes),
        Step::Number(at, number) => guest.memory.load_u32(*at, 0) == Some(*number),
        Step::Longs(at, numbers) => has_longs(guest, *at, numbers),
        Step::Lines(wanted) => has_lines(guest, wanted),
        Step::Lengths(wanted) => has_lengths(guest, wanted),
        Step::Begins(count) => begins(guest, *count),
        Step::Chunks(bytes, chunks) => takes(guest, *bytes, *chunks),
        _ => false,
    }
}

/// Whether a step that isn't to want memory goes so.
fn is_seen(alloc: Global, guest: &mut Guest, step: &Step) -> bool {
    match step {
        Step::Put(at, bytes) => guest.memory.write(*at, bytes).is_some(),
        Step::PutLine(letters) => is_line_put(guest, *letters),
        Step::Name(at, from, len) => is_named(guest, *at, *from, *len),
        Step::Call(asked, arguments, wanted) => {
            comes_to(alloc, guest, *asked, arguments, *wanted)
        }
        Step::End => {
            guest.host.end(alloc);
            true
        }
        Step::OpenFiles => opens_files(alloc, guest),
        Step::SizeFiles(count, size) => are_sized(alloc, guest, *count, *size),
        step => is_so(guest, step),
    }
}

fn goes_so(alloc: Global, guest: &mut Guest, step: &Step) -> Result<bool, CallStop> {
    match step {
        Step::Write(fd, count, cell, wanted) => {
            let outcome = write(alloc, guest, *fd, *count, *cell);
            is_written_so(alloc, guest, outcome, *wanted)
        }
        Step::Give(asked, arguments, given) => {
            is_done_with(alloc, guest, *asked, arguments, given)
        }
        step => Ok(is_seen(alloc, guest, step)),
    }
}

/// How many steps go so, before one that doesn't.
fn count_steps(alloc: Global, guest: &mut Guest, steps: &[Step]) -> Result<usize, CallStop> {
    for (place, step) in steps.iter().enumerate() {
        if !goes_so(alloc, guest, step)? {
            return Ok(place);
        }
    }
    Ok(steps.len())
}

fn count_told(alloc: Global, steps: &[Step]) -> Result<usize, CallStop> {
    let mut guest = fresh_guest(alloc)?;
    let count = count_steps(alloc, &mut guest, steps);
    drop(guest);
    count
}

fn makes(step: &Step, wanted: Call) -> bool {
    match step {
        Step::Call(asked, _, _) => *asked == wanted,
        Step::Give(asked, _, _) => *asked == wanted,
        _ => false,
    }
}

/// Whether one of these stories has this call.
fn have(stories: &[Story], wanted: Call) -> bool {
    for (_name, steps) in stories {
        for step in *steps {
            if makes(step, wanted) {
                return true;
            }
        }
    }
    false
}

/// All stories, list after list.
fn all_stories() -> [&'static [Story]; 6] {
    [
        lines(),
        outside(),
        beginnings(),
        openings(),
        nodes(),
        sizes(),
    ]
}

fn is_made(lists: &[&[Story]], wanted: Call) -> bool {
    for stories in lists {
        if have(stories, wanted) {
            return true;
        }
    }
    false
}

/// A story that doesn't go as it is told, and how many of its steps do.
type Miss = (&'static str, usize);

fn first_miss(alloc: Global, stories: &[Story]) -> Result<Option<Miss>, CallStop> {
    for (name, steps) in stories {
        let told = count_told(alloc, steps)?;
        if told != steps.len() {
            return Ok(Some((*name, told)));
        }
    }
    Ok(None)
}

/// All stories go as they are told, and each call is in some of them.
#[test]
fn calls_do_what_is_told_of_them(rt: HostRuntime) -> Result<(), CallStop> {
    let lists = all_stories();
    for stories in &lists {
        let miss = first_miss(rt.alloc(), stories)?;
        assert_row(&rt, miss.is_none(), &miss);
    }
    for asked in &Call::ALL {
        assert_row(&rt, is_made(&lists, *asked), asked);
    }
    Ok(())
}

/// Is out of memory where an allocation is refused, and has changed nothing then.
#[test]
fn writes_with_memory(rt: HostRuntime) -> Result<(), CallStop> {
    let told = count_told(rt.alloc(), three_lines())?;
    assert_row(&rt, told == three_lines().len(), &told);
    Ok(())
}

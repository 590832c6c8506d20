//! How far a process has come, how it ended, and its streams.

ghost use Rattle.std.specs.Option.{option_map};
ghost use Rattle.state_image.specs.rules.ProcessImage.{counts_bytes, phase_bytes, streams_bytes};
ghost use Rattle.state_image.specs.rules.Ranges.{FitsCounts, FitsCode, FitsStreams};
ghost use Rattle.state_image.specs.rules.Parts.{counts_of, read_end_of, streams_of, texts_of};
ghost use Rattle.state_image.specs.rules.Reading.{ReadsPart};
ghost use Rattle.state_image.specs.laws.Phases.{IsTrapFrom, IsPhaseFrom};

use crate::reading::cursor::ProcessImageReader;
use crate::writing::{EXITED, RUNNING, STARTING, TRAPPED};
use wasm_syntax::Trap;

/// What an image counts, and the last monotonic time in it.
#[derive(Clone, Copy, Debug, PartialEq, Eq)]
pub struct ReadCounts {
    pub steps: u64,
    pub answers: u64,
    pub requests: u64,
    pub lines: u64,
    pub last_monotonic: u64,
}

/// In the start function, in `_start`, exited with a code, or trapped.
#[derive(Clone, Copy, Debug, PartialEq, Eq)]
pub enum ReadPhase {
    Starting,
    Running,
    Exited(u32),
    Trapped(Trap),
}

/// A phase, and whether input has ended.
#[derive(Clone, Copy, Debug, PartialEq, Eq)]
pub struct ReadEnd {
    pub phase: ReadPhase,
    pub input_ended: bool,
}

/// The unread bytes, and the unfinished lines of stdout and stderr.
#[derive(Clone, Copy, Debug)]
pub struct ReadStreams<'a> {
    pub unread: &'a [u8],
    pub first: &'a [u8],
    pub second: &'a [u8],
}

pub fn read_counts(reader: &mut ProcessImageReader) -> Option<ReadCounts>
    ensures { ReadsPart counts_of counts_bytes FitsCounts result reader.old reader.new }
{
    let steps = reader.u64()?;
    let answers = reader.u64()?;
    let requests = reader.u64()?;
    let lines = reader.u64()?;
    let last_monotonic = reader.u64()?;
    Some(ReadCounts {
        steps,
        answers,
        requests,
        lines,
        last_monotonic,
    })
}

/// The phase with its code, and whether input has ended. A phase with no code has the code 0.
pub fn read_end(reader: &mut ProcessImageReader) -> Option<ReadEnd>
    ensures { ReadsPart read_end_of phase_bytes FitsCode result reader.old reader.new }
{
    let number = reader.u8()?;
    let code = reader.u32()?;
    let phase = phase_from(number, code)?;
    let input_ended = reader.flag()?;
    Some(ReadEnd { phase, input_ended })
}

fn phase_from(number: u8, code: u32) -> Option<ReadPhase>
    ensures { IsPhaseFrom number code result }
{
    match number {
        STARTING if code == 0 => Some(ReadPhase::Starting),
        RUNNING if code == 0 => Some(ReadPhase::Running),
        EXITED => Some(ReadPhase::Exited(code)),
        TRAPPED => Some(ReadPhase::Trapped(trap_from(code)?)),
        _ => None,
    }
}

/// The trap of a number from 1 to 8.
fn trap_from(number: u32) -> Option<Trap>
    ensures { IsTrapFrom number result }
{
    match number {
        1 => Some(Trap::Unreachable),
        2 => Some(Trap::DivideByZero),
        3 => Some(Trap::IntegerOverflow),
        4 => Some(Trap::MemoryOutOfBounds),
        5 => Some(Trap::UndefinedElement),
        6 => Some(Trap::UninitializedElement),
        7 => Some(Trap::IndirectCallTypeMismatch),
        8 => Some(Trap::StackExhausted),
        _ => None,
    }
}

pub fn read_streams<'a>(reader: &mut ProcessImageReader<'a>) -> Option<ReadStreams<'a>>
    ensures { ReadsPart streams_of streams_bytes FitsStreams (option_map texts_of result)
        reader.old reader.new }
{
    let unread = reader.text()?;
    let first = reader.text()?;
    let second = reader.text()?;
    Some(ReadStreams {
        unread,
        first,
        second,
    })
}

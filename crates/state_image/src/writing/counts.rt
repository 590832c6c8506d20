//! How far a process has come, how it ended, and its streams.

ghost use Rattle.std.specs.Prelude.{◌≡◌, option_map};
ghost use Rattle.process.specs.rules.Values.{ending_of};
ghost use Rattle.state_image.specs.rules.ProcessImage.{trap_number, phase_of, ending_code, flag_of};
ghost use Rattle.state_image.specs.rules.ProcessImage.{counts_bytes, phase_bytes, streams_bytes};
ghost use Rattle.state_image.specs.rules.Saving.{saved_of};
ghost use Rattle.state_image.specs.rules.Sinks.{Pushes};

use crate::sink::Sink;
use crate::writing::numbers::{push_text, push_u8, push_u32, push_u64};
use process::{Process, ProcessEnd};
use wasi_calls::WasiState;
use wasm_syntax::Trap;

/// The phase of a process in its start function.
pub(crate) const STARTING: u8 = 0;

/// The phase of a process in `_start`.
pub(crate) const RUNNING: u8 = 1;

/// The phase of a process that has exited with a code.
pub(crate) const EXITED: u8 = 2;

/// The phase of a process that was ended by a trap.
pub(crate) const TRAPPED: u8 = 3;

/// Steps, answers, requests, lines, and the last monotonic time.
pub(crate) fn push_counts<S: Sink>(process: &Process, sink: &mut S) -> Result<(), S::Fault>
    ensures { Pushes S.takes sink.old (counts_bytes (saved_of process.now)) result sink.new }
{
    push_u64(process.steps(), sink)?;
    push_u64(process.answers(), sink)?;
    push_u64(process.requests(), sink)?;
    push_u64(process.lines(), sink)?;
    push_u64(process.host().last_monotonic(), sink)
}

/// The phase, the code, and whether input has ended.
pub(crate) fn push_phase<S: Sink>(process: &Process, sink: &mut S) -> Result<(), S::Fault>
    ensures { Pushes S.takes sink.old (phase_bytes (saved_of process.now)) result sink.new }
{
    push_u8(phase_of(process), sink)?;
    push_u32(code_of(process.reached_end()), sink)?;
    push_u8(flag_of(process.host().has_input_ended()), sink)
}

/// The unread bytes, and the unfinished lines of stdout and stderr.
pub(crate) fn push_streams<S: Sink>(process: &Process, sink: &mut S) -> Result<(), S::Fault>
    ensures { Pushes S.takes sink.old (streams_bytes (saved_of process.now)) result sink.new }
{
    let host = process.host();
    push_text(host.unread_bytes(), sink)?;
    push_text(host.first(), sink)?;
    push_text(host.second(), sink)
}

fn phase_of(process: &Process) -> u8
    ensures { result ≡ phase_of process.now.ended process.now.machine.state.later }
{
    match process.reached_end() {
        Some(ProcessEnd::Exited(_)) => EXITED,
        Some(ProcessEnd::Trapped(_)) => TRAPPED,
        None if process.machine().is_starting() => STARTING,
        None => RUNNING,
    }
}

/// The exit code, the number of the trap, or 0.
fn code_of(ended: Option<ProcessEnd>) -> u32
    ensures { result ≡ ending_code (option_map ending_of ended) }
{
    match ended {
        Some(ProcessEnd::Exited(code)) => code,
        Some(ProcessEnd::Trapped(why)) => trap_number(why),
        None => 0,
    }
}

fn trap_number(why: Trap) -> u32
    ensures { result ≡ trap_number why }
{
    why as u32
}

fn flag_of(is_set: bool) -> u8
    ensures { result ≡ flag_of is_set }
{
    u8::from(is_set)
}

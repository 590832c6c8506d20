//! Answers from outside that calls want.

ghost use Rattle.std.specs.Prelude.{◌≡◌, ◌≤◌, [], min, None};
ghost use Rattle.wasi_abi.specs.rules.Calls.{parameters_of};
ghost use Rattle.wasi_calls_rules.specs.WasiStates.{WasiState as TheWasiState};
ghost use Rattle.wasi_calls_rules.specs.Moving.{fd_read};
ghost use Rattle.wasi_calls_rules.specs.Small.{clock_time_get, random_get};
ghost use Rattle.wasi_calls_rules.specs.CallRules.{call_rule};
ghost use Rattle.wasi_calls_rules.specs.declared.limits.TheConstants.{IOVECS};
ghost use Rattle.wasi_calls.specs.rules.Held.{ShowsWasiState};
ghost use Rattle.wasi_calls.specs.rules.Calls.{AreArguments, question_of};

use crate::arguments::{of_move, of_time, two};
use crate::buffers::{BufferRoom, FEW_BUFFERS};
use crate::clocks::{TimeArguments, clock_question};
use crate::host::WasiState;
use crate::memory::in_range;
use crate::moves::{MoveArguments, check};
use guest_memory::Memory;
use wasi_abi::{Call, Question, Rights};
use wasi_calls_rules::limits::IOVECS;

/// The answer from outside that such a call wants before it can be made, if it wants one. It
/// changes nothing, and takes no memory.
pub fn wanted_answer(
    host: &WasiState,
    memory: &Memory,
    call: Call,
    arguments: &[u64],
) -> Option<Question>
    requires typed { AreArguments (parameters_of call) arguments.now }
    ensures { (h : TheWasiState) → ShowsWasiState host.now h
        → result ≡ question_of (call_rule call arguments.now None memory.now.bytes h) }
{
    match call {
        Call::ClockTimeGet => wanted_by_clock(memory, of_time(arguments)),
        Call::FdRead => wanted_by_read(host, memory, of_move(arguments)),
        Call::RandomGet => {
            let (buffer, len) = two(arguments);
            wanted_by_random(host, memory, buffer, len)
        }
        _ => None,
    }
}

/// What a call of a clock wants that has passed its checks: its time.
fn wanted_by_clock(memory: &Memory, arguments: TimeArguments) -> Option<Question>
    ensures { (h : TheWasiState) → result ≡ question_of (clock_time_get arguments.clock
        arguments.ret None memory.now.bytes h) }
{
    let Ok(question) = clock_question(arguments.clock) else {
        return None;
    };
    match in_range(memory, arguments.ret, 8) {
        Ok(()) => Some(question),
        Err(_) => None,
    }
}

/// What a call for random bytes wants that has passed its checks: so many, where any are wanted.
fn wanted_by_random(host: &WasiState, memory: &Memory, buffer: u32, len: u32) -> Option<Question>
    ensures { result ≡ question_of (random_get buffer len None memory.now.bytes host.now.host) }
{
    if len as usize > host.version().text_limit() || len == 0 {
        return None;
    }
    match in_range(memory, buffer, len) {
        Ok(()) => Some(Question::Random { length: len }),
        Err(_) => None,
    }
}

/// What a read wants that has passed its checks: a request, where it is of input, and nothing is
/// left to be read.
fn wanted_by_read(host: &WasiState, memory: &Memory, arguments: MoveArguments) -> Option<Question>
    ensures { result ≡ question_of (fd_read arguments.fd arguments.iovecs arguments.count
        arguments.ret None memory.now.bytes host.now.host) }
{
    if arguments.count as usize <= FEW_BUFFERS {
        let mut room = BufferRoom::<FEW_BUFFERS>::new();
        return wanted_by_read_within(host, memory, arguments, &mut room);
    }
    let mut room = BufferRoom::<IOVECS>::new();
    wanted_by_read_within(host, memory, arguments, &mut room)
}

/// The same, with room for the buffers.
fn wanted_by_read_within<const N: usize>(
    host: &WasiState,
    memory: &Memory,
    arguments: MoveArguments,
    room: &mut BufferRoom<N>,
) -> Option<Question>
    requires none { room.old ≡ [] }
    requires room { min arguments.count IOVECS ≤ N }
    ensures { result ≡ question_of (fd_read arguments.fd arguments.iovecs arguments.count
        arguments.ret None memory.now.bytes host.now.host) }
{
    let Ok(()) = check(host, memory, arguments, Rights::FD_READ, room) else {
        return None;
    };
    host.wanted_input(arguments.fd, room.buffers().len())
}

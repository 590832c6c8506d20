//! Clocks: `clock_res_get` and `clock_time_get`.

ghost use Rattle.std.specs.Prelude.{◌≡◌, option_copied, OnOk, IfErr, Ok, Err};
ghost use Rattle.wasi_calls_rules.specs.WasiStates.{WasiState as TheWasiState};
ghost use Rattle.wasi_calls_rules.specs.Checks.{Refuses};
ghost use Rattle.wasi_calls_rules.specs.Small.{clock_res_get, clock_time_get};
ghost use Rattle.wasi_calls.specs.Steps.{GivesValue, StopsStep};
ghost use Rattle.wasi_calls.specs.Times.{question_asked};
ghost use Rattle.wasi_calls.specs.rules.Calls.{IsAsLarge};

use crate::host::WasiState;
use crate::memory::in_range;
use crate::stop::CallStop;
use guest_memory::Memory;
use wasi_abi::{Answer, Errno, Question};

/// Nanoseconds from one value of a clock to the next.
const RESOLUTION: u64 = 1;

/// The arguments of `clock_time_get`.
#[derive(Clone, Copy)]
pub struct TimeArguments {
    pub clock: u32,
    /// How far off the time may be, in nanoseconds. No clock here makes use of it.
    pub precision: u64,
    /// Where the time is put.
    pub ret: u32,
}

/// What is asked for the time of a clock: 0 is the real time, and 1 is monotonic.
pub fn clock_question(clock: u32) -> Result<Question, Errno>
    ensures { GivesValue (λ k. k) result (question_asked clock) }
{
    match clock {
        0 => Ok(Question::Realtime),
        1 => Ok(Question::Monotonic),
        _ => Err(Errno::Inval),
    }
}

/// `clock_res_get`.
pub fn get_resolution(memory: &mut Memory, clock: u32, ret: u32) -> Result<(), Errno>
    ensures done { (h : TheWasiState) → OnOk result (clock_res_get clock ret memory.old.bytes h
        ≡ Ok (record { memory = memory.new.bytes; host = h })) }
    ensures refused { (h : TheWasiState) → IfErr result (λ e.
        clock_res_get clock ret memory.old.bytes h ≡ Err (Refuses e)) }
    ensures kept { IfErr result (λ _. memory.new ≡ memory.old) }
    ensures large { IsAsLarge memory.old memory.new }
{
    clock_question(clock)?;
    in_range(memory, ret, 8)?;
    memory.store_u64(ret, 0, RESOLUTION).unwrap();
    Ok(())
}

/// `clock_time_get`, with the time that it asked for before, where one is there. Where it is
/// refused or asks, nothing has changed.
pub fn get_time(
    host: &mut WasiState,
    memory: &mut Memory,
    arguments: TimeArguments,
    answer: Option<&Answer>,
) -> Result<(), CallStop>
    ensures done { OnOk result (clock_time_get arguments.clock arguments.ret
        (option_copied answer.entry) memory.old.bytes host.old.host
        ≡ Ok (record { memory = memory.new.bytes; host = host.new.host })) }
    ensures stopped { IfErr result (λ why. StopsStep why (clock_time_get arguments.clock
        arguments.ret (option_copied answer.entry) memory.old.bytes host.old.host)) }
    ensures memory_kept { IfErr result (λ _. memory.new ≡ memory.old) }
    ensures host_kept { IfErr result (λ _. host.new ≡ host.old) }
    ensures released { host.new.released ≡ host.old.released }
    ensures large { IsAsLarge memory.old memory.new }
{
    let question = clock_question(arguments.clock)?;
    in_range(memory, arguments.ret, 8)?;
    let answer = host.fitting_answer(question, answer)?;
    let time = host.see_time(answer);
    memory.store_u64(arguments.ret, 0, time).unwrap();
    Ok(())
}

//! Random bytes: `random_get`.

ghost use Rattle.std.specs.Prelude.{◌≡◌, ℕ, ◌+◌, ◌≤◌, length, option_copied, OnOk, IfErr, Ok};
ghost use Rattle.wasi_abi.specs.rules.Answers.{Fits};
ghost use Rattle.wasi_abi.specs.declared.answer.Question.TheVariants.{Random};
ghost use Rattle.wasi_calls_rules.specs.WasiStates.{WasiState as TheWasiState};
ghost use Rattle.wasi_calls_rules.specs.Small.{random_get, random_put};
ghost use Rattle.wasi_calls.specs.Steps.{StopsStep};
ghost use Rattle.wasi_calls.specs.rules.Calls.{IsAsLarge};

use crate::host::WasiState;
use crate::memory::in_range;
use crate::stop::CallStop;
use guest_memory::Memory;
use wasi_abi::{Answer, Errno, Question};

/// `random_get`, with the bytes that it asked for before, where they are there. Where it is
/// refused or asks, nothing has changed.
pub fn get(
    host: &WasiState,
    memory: &mut Memory,
    buffer: u32,
    len: u32,
    answer: Option<&Answer>,
) -> Result<(), CallStop>
    ensures done { OnOk result (random_get buffer len (option_copied answer.entry)
        memory.old.bytes host.now.host
        ≡ Ok (record { memory = memory.new.bytes; host = host.now.host })) }
    ensures stopped { IfErr result (λ why. StopsStep why (random_get buffer len
        (option_copied answer.entry) memory.old.bytes host.now.host)) }
    ensures kept { IfErr result (λ _. memory.new ≡ memory.old) }
    ensures large { IsAsLarge memory.old memory.new }
{
    if len as usize > host.version().text_limit() {
        return Err(CallStop::Refused(Errno::Inval));
    }
    in_range(memory, buffer, len)?;
    if len == 0 {
        return Ok(());
    }
    let answer = host.fitting_answer(Question::Random { length: len }, answer)?;
    put(memory, buffer, len, answer);
    Ok(())
}

/// Puts random bytes where there is room for so many.
fn put(memory: &mut Memory, buffer: u32, len: u32, answer: &Answer)
    requires room { buffer + len ≤ length memory.old.bytes }
    requires fits { (limit : ℕ) × Fits limit (Random len) answer.now }
    ensures put { (h : TheWasiState) → random_put answer.now buffer memory.old.bytes h
        ≡ Ok (record { memory = memory.new.bytes; host = h }) }
    ensures large { IsAsLarge memory.old memory.new }
{
    match answer {
        Answer::Random { bytes } => memory.write(buffer, bytes.as_slice()).unwrap(),
        _ => unreachable!(),
    }
}

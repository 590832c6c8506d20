//! What no request line answers: the time, and random bytes.
//!
//! # Choices
//!
//! - **A place in the stream is a number of 64 bits.** Words beyond the first 2^64 are refused, by
//!   a fault of their own, since no count of steps keeps a question from reaching them.

ghost use Rattle.std.specs.Prelude.{◌≡◌, None, IfOk, IfErr};
ghost use Rattle.wasi_abi.specs.declared.answer.Answer.TheVariants as answers;
ghost use Rattle.wasi_abi.specs.rules.Answers.{IsTime};
ghost use Rattle.command_words.specs.rules.Outside.{IsTimeOf, IsRealTime};
ghost use Rattle.command_words.specs.rules.Seeds.{seeded_bytes};
ghost use Rattle.command_words.specs.Lines.Answers.{IsClockless};
ghost use Rattle.command_words.specs.declared.lines.fault.LineFault.TheVariants.{Memory};

use crate::lines::fault::LineFault;
use crate::lines::real_time::{RealTime, real_time};
use crate::seed::seeded;
use std::alloc::Global;
use wasi_abi::Answer;
use wasm_syntax::ItemList;

/// The stream of a seed's words at which a source begins, before it goes on after a worker.
pub(crate) const STREAM: u64 = 1;

/// Where times and random bytes come from.
#[derive(Clone, Copy, Debug, PartialEq, Eq)]
pub struct Outside {
    /// What random bytes are drawn from.
    pub seed: [u8; 32],
    /// The nanoseconds of both clocks. Where there are none, both show the machine's real time.
    pub clock: Option<u64>,
}

/// The time that both clocks show.
pub(crate) fn time_of<C: RealTime>(outside: Outside, clock: &C) -> Result<u64, LineFault>
    ensures is { IfOk result (IsTimeOf outside) }
    ensures real { outside.clock ≡ None → IfOk result (IsRealTime (C.gives_time clock.now)) }
    ensures small { IfOk result IsTime }
    ensures failed { IfErr result (IsClockless outside) }
{
    if let Some(fixed) = outside.clock {
        return Ok(fixed);
    }
    match real_time(clock) {
        Some(now) => Ok(now),
        None => Err(LineFault::Clock),
    }
}

/// So many random bytes of a stream of a seed, from the word at `place` on.
pub(crate) fn random_answer(
    alloc: Global,
    seed: [u8; 32],
    stream: u64,
    place: u64,
    length: u32,
) -> Result<Answer, LineFault>
    ensures is { IfOk result (λ answer. answer
        ≡ answers.Random (seeded_bytes seed stream place length)) }
    ensures failed { IfErr result (λ fault. fault ≡ Memory) }
{
    let Ok(bytes) = seeded(alloc, seed, stream, place, length as usize) else {
        return Err(LineFault::Memory);
    };
    let bytes = ItemList::from_vec(bytes);
    Ok(Answer::Random { bytes })
}

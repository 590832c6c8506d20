//! Answers from outside that a host takes.

ghost use Rattle.std.specs.Prelude.{◌≡◌, ℕ, option_copied, IfOk, IfErr, Ok};
ghost use Rattle.guest_memory.specs.rules.Bytes.{with_part};
ghost use Rattle.wasi_abi.specs.rules.Answers.{Fits};
ghost use Rattle.wasi_abi.specs.rules.Layouts.{u64_bytes};
ghost use Rattle.wasi_abi.specs.rules.Versions.{text_limit};
ghost use Rattle.wasi_calls_rules.specs.Checks.{Bytes, answered_by};
ghost use Rattle.wasi_calls_rules.specs.Small.{clock_question, time_put};
ghost use Rattle.wasi_calls.specs.Steps.{StopsStep};

use crate::host::WasiState;
use crate::stop::CallStop;
use wasi_abi::{Answer, Question, fits};

impl WasiState {
    /// The answer, where there is one that fits what is asked for. Else that is asked for.
    pub(crate) fn fitting_answer<'a>(
        &self,
        question: Question,
        answer: Option<&'a Answer>,
    ) -> Result<&'a Answer, CallStop>
        ensures given { IfOk result (λ a. answered_by self.now.host question
            (option_copied answer.entry) ≡ Ok a.now) }
        ensures fits { IfOk result (λ a. Fits (text_limit self.now.host.version) question a.now) }
        ensures asks { IfErr result (λ why. StopsStep why (answered_by self.now.host question
            (option_copied answer.entry))) }
    {
        let Some(answer) = answer else {
            return Err(CallStop::Asks(question));
        };
        if !fits(self.version.text_limit(), question, answer) {
            return Err(CallStop::Asks(question));
        }
        Ok(answer)
    }

    /// The time that a guest sees of a clock's answer. A monotonic one is never below the last.
    pub(crate) fn see_time(&mut self, answer: &Answer) -> u64
        requires clock { (clock : ℕ) × Fits (text_limit self.old.host.version)
            (clock_question clock) answer.now }
        ensures put { (ret : ℕ) (m : Bytes) → time_put answer.now ret m self.old.host
            ≡ Ok (record { memory = with_part m ret (u64_bytes result); host = self.new.host }) }
        ensures released { self.new.released ≡ self.old.released }
    {
        match answer {
            Answer::Realtime { nanoseconds } => *nanoseconds,
            Answer::Monotonic { nanoseconds } => {
                let time = (*nanoseconds).max(self.last_monotonic);
                self.last_monotonic = time;
                time
            }
            _ => unreachable!(),
        }
    }
}

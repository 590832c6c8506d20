//! A process that runs.
//!
//! # Choices
//!
//! - A stop is said by a run of steps after which nothing is owed, and by one step more. Steps are
//!   determined: that there is such a run says that there is no other.
//! - `give` has no `requires`: an answer that isn't wanted is a wrong answer. `wanted_answer` tells
//!   which one the waiting call wants. Then the call is performed with it. Its proof names no call.
//!   The rules say that a call with an answer that fits wants no other (`CallRulesAskOnce`). At the
//!   last step that can be counted `give` answers `StepsSpent` to every answer.

ghost use Rattle.std.specs.Prelude.{◌≡◌, ◌+◌, ◌<◌, ◌≤◌, ◌^◌};
ghost use Rattle.process.specs.rules.Stops.{is_spent, told};

use crate::answering::{answer_call, count_requests};
use crate::fault::ProcessFault;
use crate::process::Process;
use crate::stop::Stop;
use crate::stretch::take_steps;
use wasi_abi::{Answer, NUMBERS_END};

/// As much of the fuel as can be counted after so many steps.
fn cap_fuel(fuel: u64, steps: u64) -> u64
    requires { steps < 2 ^ 63 }
    ensures within { result ≤ fuel }
    ensures counted { steps + result < 2 ^ 63 }
    ensures cut { result < fuel → steps + result + 1 ≡ 2 ^ 63 }
{
    fuel.min(NUMBERS_END - 1 - steps)
}

/// Whether the fuel is why.
fn is_spent(stop: Result<Stop, ProcessFault>) -> bool
    ensures { result ≡ is_spent stop }
{
    match stop {
        Ok(stop) => matches!(stop, Stop::Spent),
        Err(_) => false,
    }
}

/// What is told of a stop. Where the fuel was cut, no more steps can be counted once that is spent.
fn report_stop(stop: Result<Stop, ProcessFault>, is_cut: bool) -> Result<Stop, ProcessFault>
    ensures { result ≡ told stop is_cut }
{
    if is_spent(stop) && is_cut {
        return Err(ProcessFault::StepsSpent);
    }
    stop
}

impl Process {
    ghost use Rattle.process.specs.rules.Stops.{AdvancesProcess, GivesAnswer};
    ghost use Rattle.process.specs.rules.Values.{IsProcess};

    /// Takes at most `fuel` steps, up to where something is owed to the outside, it has ended, or
    /// an answer is wanted. A step after which something is owed is the last one. Only a step of
    /// the host's calls takes memory.
    pub fn advance(&mut self, fuel: u64) -> Result<Stop, ProcessFault>
        ensures advances { AdvancesProcess self.old fuel result self.new }
        ensures shows { IsProcess self.new }
        ensures released { self.new.host.released ≡ self.old.host.released }
        ensures guest { self.new.machine.guest ≡ self.old.machine.guest }
    {
        if !self.host.waiting_lines().is_empty() {
            return Ok(Stop::Owes);
        }
        if let Some(end) = self.ended {
            return Ok(Stop::Ended(end));
        }
        let most = cap_fuel(fuel, self.steps);
        let stretch = take_steps(self.alloc, &mut self.machine, &mut self.host, most);
        self.steps += stretch.steps;
        self.ended = stretch.ended;
        report_stop(stretch.stop, most < fuel)
    }

    /// Takes the step that wants an answer, with this one. While a line waits to be released, and
    /// once the process has ended, every answer is a wrong one. After an error nothing has changed,
    /// and nothing runs.
    pub fn give(&mut self, answer: &Answer) -> Result<(), ProcessFault>
        ensures gives { GivesAnswer self.old answer.now result self.new }
        ensures released { self.new.host.released ≡ self.old.host.released }
        ensures guest { self.new.machine.guest ≡ self.old.machine.guest }
    {
        if !self.host.waiting_lines().is_empty() || self.ended.is_some() {
            return Err(ProcessFault::WrongAnswer);
        }
        if self.steps + 1 == NUMBERS_END {
            return Err(ProcessFault::StepsSpent);
        }
        self.ended = answer_call(self.alloc, &mut self.machine, &mut self.host, answer)?;
        self.steps += 1;
        self.answers += 1;
        self.requests += count_requests(answer);
        Ok(())
    }
}

//! Where a process stops.

use wasi_abi::Question;
use wasm_syntax::Trap;

/// How a process has ended.
#[derive(Clone, Copy, Debug, PartialEq, Eq)]
pub enum ProcessEnd {
    /// By `proc_exit` with this code, or with 0 where `_start` has returned.
    Exited(u32),
    /// An instruction has trapped.
    Trapped(Trap),
}

/// Why a process stops, in the order in which these are looked at before each step.
#[derive(Clone, Copy, Debug, PartialEq, Eq)]
pub enum Stop {
    /// Lines wait to be released, or the last step was a sync of the guest.
    Owes,
    Ended(ProcessEnd),
    /// No fuel is left.
    Spent,
    /// The next step wants this answer.
    Asks(Question),
}

//! Why a machine stops running.

ghost use Rattle.std.specs.Prelude.{◌≡◌, ◌≤◌, length};

use std::marker::Model;
use wasi_abi::Call;
use wasm_syntax::Trap;

/// The most parameters that a call of the host has.
pub const MOST_ARGUMENTS: usize = 9;

/// The arguments of a call of the host, the first one first: at most nine numbers. They take no
/// memory.
#[derive(Debug, Drop)]
pub struct Arguments {
    words: [u64; MOST_ARGUMENTS],
    count: usize,
}

impl Model for Arguments {
    ghost use Rattle.std.specs.Prelude.{List, ℕ, ◌≡◌, ◌≤◌, length, take};

    ghost Value = { List ℕ };

    ghost view = { λ a. take a.count a.words };

    ghost invariant = { λ a. a.count ≤ 9 };
}

impl Arguments {
    /// These numbers.
    pub fn of(numbers: &[u64]) -> Arguments
        requires { length numbers.now ≤ MOST_ARGUMENTS }
        ensures { result ≡ numbers.now }
    {
        let mut words = [0; MOST_ARGUMENTS];
        words[..numbers.len()].copy_from_slice(numbers);
        Arguments {
            words,
            count: numbers.len(),
        }
    }

    pub fn as_slice(&self) -> &[u64]
        ensures { result.now ≡ self.now }
    {
        &self.words[..self.count]
    }
}

/// A call of the host that waits for its answer.
#[derive(Debug, Drop)]
pub struct HostCall {
    pub call: Call,
    pub arguments: Arguments,
}

/// Why a machine stops running.
#[derive(Debug, Drop)]
pub enum Pause {
    /// No fuel is left.
    Spent,
    /// A call of the host waits for its answer.
    Host(HostCall),
    /// Nothing is left to run: the last function that the host called has returned, or the machine
    /// trapped or was stopped before.
    Returned,
    Trapped(Trap),
}

/// A pause, and how many counted steps of the fuel were not applied. A trap is one of those that
/// were.
#[derive(Debug, Drop)]
pub struct Paused {
    pub why: Pause,
    pub fuel_left: u64,
}

//! Where a worker was seen: its numbers, and what it was.

ghost use Rattle.std.specs.Prelude.{◌≡◌};

use process::ProcessEnd;
use record_replay::Now;
use worker::{Position, Worker};

/// What a worker is.
#[derive(Clone, Copy, Debug, PartialEq, Eq)]
pub enum WatchedState {
    /// It runs on.
    Running,
    /// It waits for a request, and its lines haven't come to their end.
    Waiting,
    /// It waits for a request, and there is no further line.
    Parked,
    Ended(ProcessEnd),
}

impl WatchedState {
    ghost use Rattle.disk_commands.specs.rules.Watchings.{state_after};

    /// That of a worker whose last slice has answered this.
    pub fn after(now: Now) -> WatchedState
        ensures { result ≡ state_after now }
    {
        match now {
            Now::Spent => WatchedState::Running,
            Now::Waiting => WatchedState::Parked,
            Now::Ended(how) => WatchedState::Ended(how),
        }
    }
}

/// Where a worker was seen.
#[derive(Clone, Copy, Debug, PartialEq, Eq)]
pub struct Sighting {
    pub position: Position,
    pub state: WatchedState,
}

impl Sighting {
    ghost use Rattle.disk_commands.specs.rules.Watchings.{sighting_of};

    /// Where a worker is whose last slice has answered this.
    pub fn of(worker: &Worker, now: Now) -> Sighting
        ensures { result ≡ sighting_of worker.now now }
    {
        Sighting {
            position: worker.position(),
            state: WatchedState::after(now),
        }
    }
}

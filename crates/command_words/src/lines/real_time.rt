//! The machine's real time.

ghost use Rattle.std.specs.Prelude.{◌≡◌, ◌≤◌, IfSome};
ghost use Rattle.std.specs.Duration.{as_nanos};
ghost use Rattle.wasi_abi.specs.rules.Answers.{IsTime};
ghost use Rattle.command_words.specs.rules.Outside.{IsNanoseconds, IsRealTime};

use std::io;
use std::time::{Clock, Duration};

/// A clock whose real time is read.
pub trait RealTime {
    ghost use Rattle.std.specs.Prelude.{Bool, ℕ, IsTrue, IfOk};
    ghost use Rattle.std.specs.Duration.{as_nanos};

    // Whether it has given a time of so many nanoseconds.
    ghost gives_time: { Self → ℕ → Bool };

    /// The time since 1970.
    fn read_time(&self) -> io::Result<Duration>
        ensures { IfOk result (λ time. IsTrue (gives_time self.now (as_nanos time))) };
}

// Of the machine's clock no more is known than what it gives.
impl<C: Clock> RealTime for C {
    ghost use Rattle.std.specs.Prelude.{true};

    ghost gives_time = { λ _ _. true };

    fn read_time(&self) -> io::Result<Duration> {
        self.since_1970()
    }
}

/// A time in nanoseconds. One beyond 64 bits is the greatest of 64 bits.
pub fn nanoseconds_of(time: Duration) -> u64
    ensures { IsNanoseconds (as_nanos time) result }
{
    u64::try_from(time.as_nanos()).unwrap_or(u64::MAX)
}

/// The real time of a clock in nanoseconds, or none where it can't be read.
pub(crate) fn real_time<C: RealTime>(clock: &C) -> Option<u64>
    ensures given { IfSome result (IsRealTime (C.gives_time clock.now)) }
    ensures small { IfSome result IsTime }
{
    match clock.read_time() {
        Ok(time) => Some(nanoseconds_of(time)),
        Err(_) => None,
    }
}

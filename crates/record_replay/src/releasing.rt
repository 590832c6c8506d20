//! Lines that wait are released.
//!
//! Lines are released in one place, for a slice and for a replay, which is with the outlets, above
//! `process`.

ghost use Rattle.std.specs.Prelude.{OnOk, OnErr};
ghost use Rattle.record_replay.specs.rules.Waiting.{ReleasesAll, ReleasesSome};

use crate::{Outlet, OutletFault};
use process::Process;

/// Releases the lines that wait, in their order, each once, with their numbers. After an error they
/// all still wait, and the last release was that of the line that was refused.
pub fn release_waiting<O: Outlet>(process: &mut Process, outlet: &mut O) -> Result<(), OutletFault>
    ensures all { OnOk result
        (ReleasesAll O.takes process.old process.new outlet.old outlet.new) }
    ensures some { OnErr result
        (ReleasesSome O.takes process.old process.new outlet.old outlet.new) }
{
    let waiting = process.waiting();
    let count = waiting.len();
    let released = process.lines() - count as u64;
    for (i, line) in waiting.iter().enumerate() {
        let said = outlet.release(released + i as u64 + 1, line.stream(), line.text());
        if said.is_err() {
            return Err(OutletFault);
        }
    }
    process.released(count);
    Ok(())
}

//! A process takes the answers that are on record.
//!
//! # Choices
//!
//! - **A replay is above `process`, and knows no source.** Without a source it can't ask
//!   for anything that isn't on record.
//! - Where a process has come by its records is a relation of two processes (`Recorded`), which a
//!   disk stands by and a replay meets. A replay says nothing of how it goes. The process that is
//!   given is right where the last record leads: none further was reached.
//! - Nothing is required: lines that wait are released first.
//! - `Diverged` is answered where a number is at its end, too: the step or its lines have none.

ghost use Rattle.std.specs.Prelude.{◌≡◌, ◌+◌, [], ◌∷◌, IfOk, IfErr, OnOk};
ghost use Rattle.process.specs.rules.Values.{IsProcess, waiting_in};
ghost use Rattle.record_replay.specs.Plays.{RunsToStep};
ghost use Rattle.record_replay.specs.rules.Replays.{Replays, ReplaysInVain};

use crate::Outlet;
use crate::fault::ReplayFault;
use crate::releasing::release_waiting;
use disk_layout::Record;
use process::{Process, Stop};

/// Runs a process to where its records lead, and releases each line that it emits on the way, or
/// that waited. It takes the step of the last record, and none after that. Gives the process, and
/// how many steps were taken. After an error the process is closed.
pub fn replay<O: Outlet>(
    mut process: Process,
    records: &[Record],
    outlet: &mut O,
) -> Result<(Process, u64), ReplayFault>
    ensures replayed { IfOk result
        (λ r. Replays O.takes process records.now r.0 outlet.old outlet.new) }
    ensures counted { IfOk result (λ r. r.0.steps ≡ process.steps + r.1) }
    ensures guest { IfOk result (λ r. r.0.machine.guest ≡ process.machine.guest) }
    ensures shows { IfOk result (λ r. IsProcess r.0) }
    ensures stopped { IfErr result
        (λ why. ReplaysInVain O.takes process records.now why outlet.old outlet.new) }
{
    match play_all(&mut process, records, outlet) {
        Ok(count) => Ok((process, count)),
        Err(fault) => {
            process.close();
            Err(fault)
        }
    }
}

/// Releases the lines that wait, and then takes the steps up to that of each record, and this one
/// with its answer. Gives how many steps were taken.
fn play_all<O: Outlet>(
    process: &mut Process,
    records: &[Record],
    outlet: &mut O,
) -> Result<u64, ReplayFault>
    ensures played { OnOk result
        (Replays O.takes process.old records.now process.new outlet.old outlet.new) }
    ensures counted { IfOk result (λ count. process.new.steps ≡ process.old.steps + count) }
    ensures guest { OnOk result (process.new.machine.guest ≡ process.old.machine.guest) }
    ensures shows { OnOk result (IsProcess process.new) }
    ensures stopped { IfErr result
        (λ why. ReplaysInVain O.takes process.old records.now why outlet.old outlet.new) }
{
    let first = process.steps();
    release_waiting(process, outlet)?;
    for entry in records {
        play(process, entry, outlet)?;
    }
    Ok(process.steps() - first)
}

/// Takes steps up to that of the record, and this one with its answer. Each line is released before
/// the next step.
fn play<O: Outlet>(process: &mut Process, entry: &Record, outlet: &mut O) -> Result<(), ReplayFault>
    requires none_waits { waiting_in process.old ≡ [] }
    ensures played { OnOk result
        (Replays O.takes process.old (entry.now ∷ []) process.new outlet.old outlet.new) }
    ensures guest { OnOk result (process.new.machine.guest ≡ process.old.machine.guest) }
    ensures stopped { IfErr result
        (λ why. ReplaysInVain O.takes process.old (entry.now ∷ []) why outlet.old outlet.new) }
{
    run_to_step(process, entry, outlet)?;
    process.give(&entry.answer)?;
    release_waiting(process, outlet)?;
    Ok(())
}

/// Takes the steps before that of the record. Each line is released before the next step.
fn run_to_step<O: Outlet>(
    process: &mut Process,
    entry: &Record,
    outlet: &mut O,
) -> Result<(), ReplayFault>
    requires none_waits { waiting_in process.old ≡ [] }
    ensures done { OnOk result
        (RunsToStep O.takes entry.now.step process.old process.new outlet.old outlet.new) }
    ensures guest { OnOk result (process.new.machine.guest ≡ process.old.machine.guest) }
    ensures stopped { IfErr result
        (λ why. ReplaysInVain O.takes process.old (entry.now ∷ []) why outlet.old outlet.new) }
{
    loop {
        let Some(fuel_left) = entry.step.checked_sub(process.steps() + 1) else {
            return Err(ReplayFault::Diverged);
        };
        match process.advance(fuel_left)? {
            Stop::Owes => release_waiting(process, outlet)?,
            Stop::Spent => return Ok(()),
            Stop::Asks(_) | Stop::Ended(_) => return Err(ReplayFault::Diverged),
        }
    }
}

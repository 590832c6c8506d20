//! `wasmhost upgrade` of a worker on a disk.
//!
//! # Promises
//!
//! - `upgrade_worker`: all that is done of a worker of version 1 is one life, without an answer.
//!   The life has slices, and an upgrade after one that has said that the worker waits or has ended
//!   (`HasRunOn`). Where a call of that life fails, its process is where that slice's own clause
//!   says, or the error is one that an upgrade may answer (`HasFailedAt`). The error is never that
//!   the worker hadn't caught up (`IsOfCaughtUp`). Of a worker of version 2 all that is done is a
//!   recovery (`upgrades`). The status is `Unwritten` where the outlet has refused a line, and else
//!   only where a write of `err` has failed (`refusal`).
//! - `upgrade_file` is that of a disk that was opened and not written back, and the result is said
//!   behind the worker's lines (`UpgradesFile`). Last, and whatever came of it, the error output
//!   says how many lines the output took in it (`SaysTold`).

ghost use Rattle.std.specs.Prelude.{◌≡◌, ◌≢◌, ◌≤◌, [], IfOk, OnOk};
ghost use Rattle.disk_layout.specs.rules.Places.{total_sectors};
ghost use Rattle.record_replay.specs.declared.slices.now.Now.TheVariants.{Spent};
ghost use Rattle.worker.specs.rules.Scenes.{scene};
ghost use Rattle.command_words.specs.rules.Printers.{printers};
ghost use Rattle.command_words.specs.rules.Reports.{SaysLine};
ghost use Rattle.disk_commands.specs.ComingUp.{ComesUp, IsUpgradedFrom, UpgradesOpen};
ghost use Rattle.disk_commands.specs.rules.Refusals.{HeedsRefusal};
ghost use Rattle.disk_commands.specs.rules.ServedFiles.{SaysUpgrade, SaysUpgraded};
ghost use Rattle.disk_commands.specs.rules.ServedOnDisk.{outputs};
ghost use Rattle.disk_commands.specs.rules.ToldLines.{SaysTold, told_words};
ghost use Rattle.disk_commands.specs.rules.Upgradings.{UpgradesOnDisk, from_list};
ghost use Rattle.disk_commands.specs.rules.Upgradings.{status_so_far, upgraded_words};

use crate::on_disk::counted_lines::CountedLines;
use crate::on_disk::fault::{OnDiskFault, say_life_fault};
use crate::on_disk::serving::tell_recovered;
use command_words::{Obstacle, Printer, Status, report, say_line};
use record_replay::{AnswerList, Now, Outlet, Source};
use sector_disk::Disk;
use std::alloc::Global;
use std::io::Write;
use wasi_abi::Version;
use worker::{WorkFault, Worker};

/// Steps of a slice.
const FUEL: u64 = 100_000;

/// When a worker came to version 2.
#[derive(Clone, Copy, Debug, PartialEq, Eq)]
pub enum Upgraded {
    /// By this command.
    Now,
    /// Before it.
    Before,
}

/// Slice after slice, until the worker has asked for what the source doesn't have, or has ended. It
/// comes to that, or fails, since its steps are numbered.
fn come_up<D: Disk, S: Source, O: Outlet>(
    worker: &mut Worker,
    disk: &mut D,
    source: &mut S,
    outlet: &mut O,
) -> Result<Now, WorkFault>
    requires { total_sectors worker.old.store.geometry ≤ (D.medium disk.old).sectors }
    ensures comes { ComesUp D.medium S.gives O.takes 100000
        (scene worker.old disk.old source.old outlet.old) result
        (scene worker.new disk.new source.new outlet.new) }
    ensures over { IfOk result (λ now. now ≢ Spent) }
    ensures room { OnOk result
        (total_sectors worker.new.store.geometry ≤ (D.medium disk.new).sectors) }
{
    loop {
        match worker.slice(disk, FUEL, source, outlet) {
            Ok(Now::Spent) => {}
            Ok(Now::Waiting) => return Ok(Now::Waiting),
            Ok(Now::Ended(how)) => return Ok(Now::Ended(how)),
            Err(fault) => return Err(fault),
        }
    }
}

/// Upgrades an open worker of version 1. Before that it runs on, without an answer, to its next
/// question or to its end: so no line beyond it was ever told.
fn upgrade_open<D: Disk, O: Outlet>(
    alloc: Global,
    worker: &mut Worker,
    disk: &mut D,
    outlet: &mut O,
) -> Result<(), WorkFault>
    requires { total_sectors worker.old.store.geometry ≤ (D.medium disk.old).sectors }
    ensures { IsUpgradedFrom D.medium from_list O.takes (scene worker.old disk.old [] outlet.old)
        result disk.new outlet.new }
{
    let mut nothing = AnswerList::new(Vec::new(alloc));
    match come_up(worker, disk, &mut nothing, outlet) {
        Ok(_now) => worker.upgrade(disk, outlet),
        Err(fault) => Err(fault),
    }
}

/// An open worker comes to version 2, where it isn't there. A person is told first that it is
/// recovered. An error is the exit status, and is said.
fn bring_up<D: Disk, O: Outlet, E: Write + Drop>(
    alloc: Global,
    worker: &mut Worker,
    disk: &mut D,
    outlet: &mut O,
    err: &mut Printer<E>,
) -> Result<Upgraded, Status>
    requires { total_sectors worker.old.store.geometry ≤ (D.medium disk.old).sectors }
    ensures { UpgradesOpen D.medium O.takes worker.old result disk.old disk.new
        (outputs outlet.old err.old) (outputs outlet.new err.new) }
{
    tell_recovered(err, worker);
    match worker.process().host().version() {
        Version::Two => Ok(Upgraded::Before),
        Version::One => match upgrade_open(alloc, worker, disk, outlet) {
            Ok(()) => Ok(Upgraded::Now),
            Err(fault) => Err(say_life_fault(err, OnDiskFault::from(fault))),
        },
    }
}

/// The worker on a disk comes to version 2, where it isn't there. It is recovered, runs on without
/// an answer to its next question or to its end, and is saved in version 2. Its lines go to the
/// outlet. Where `err` is a terminal, a line says how it was recovered. An error is the exit
/// status: `Refused` for a disk that shows no worker that can go on, for a journal that is too
/// small, and where a number is at its end, `IoError` where the disk fails, `OutOfMemory`,
/// `Unwritten` where the outlet has refused a line or a write has failed.
pub fn upgrade_worker<D: Disk, O: Outlet, E: Write + Drop>(
    alloc: Global,
    disk: &mut D,
    outlet: &mut O,
    err: &mut Printer<E>,
) -> Result<Upgraded, Status>
    ensures upgrades { UpgradesOnDisk D.medium O.takes result disk.old disk.new
        (outputs outlet.old err.old) (outputs outlet.new err.new) }

    // The status is `Unwritten` just where the outlet has refused a line, or a write of `err` has
    // failed.
    ensures refusal { HeedsRefusal O.takes outlet.old outlet.new err.new (status_so_far result) }
{
    match Worker::recover(alloc, disk, outlet) {
        Ok(mut worker) => {
            let upgraded = bring_up(alloc, &mut worker, disk, outlet, err);
            worker.close();
            upgraded
        }
        Err(fault) => Err(say_life_fault(err, OnDiskFault::from(fault))),
    }
}

/// The words for a worker that is of version 2.
fn words_of_upgrade(upgraded: Upgraded) -> &'static [u8]
    ensures { result.now ≡ upgraded_words upgraded }
{
    match upgraded {
        Upgraded::Now => b"upgraded\n",
        Upgraded::Before => b"already version 2\n",
    }
}

/// Says after the worker's lines that it is of version 2, or that this can't be written. Of an
/// error nothing more is said. Returns the exit status.
fn say_result<W: Write + Drop, E: Write + Drop>(
    upgraded: Result<Upgraded, Status>,
    lines: &mut CountedLines<W>,
    err: &mut Printer<E>,
) -> Status
    ensures { SaysUpgrade upgraded (printers lines.old.printer err.old)
        (printers lines.new.printer err.new) result }
{
    match upgraded {
        Ok(upgraded) => match lines.write_text(words_of_upgrade(upgraded)) {
            Ok(()) => Status::Done,
            Err(_) => report(err, Obstacle::Unwritten),
        },
        Err(status) => status,
    }
}

/// Says that so many lines were told. Answers the status, or `Unwritten` where a write has failed.
fn say_lines<E: Write + Drop>(err: &mut Printer<E>, status: Status, told: u64) -> Status
    ensures { SaysLine (told_words told) status err.old result err.new }
{
    if told == 1 {
        return say_line(err, status, "told 1 line: keep it with the others");
    }
    match writeln!(err, "told {told} lines: keep them with the others") {
        Ok(()) => status,
        Err(_) => Status::Unwritten,
    }
}

/// Says how many lines were told, where there are any: nobody else has kept them. Answers the
/// status, or `Unwritten` where a write has failed.
fn say_told<E: Write + Drop>(err: &mut Printer<E>, status: Status, told: u64) -> Status
    ensures { SaysTold told status err.old result err.new }
{
    if told == 0 {
        return status;
    }
    say_lines(err, status, told)
}

/// Says what came of an upgrade, and then how many lines were told in it. Returns the exit status.
pub(super) fn say_upgraded<W: Write + Drop, E: Write + Drop>(
    upgraded: Result<Upgraded, Status>,
    lines: &mut CountedLines<W>,
    err: &mut Printer<E>,
) -> Status
    ensures { SaysUpgraded upgraded lines.old.told (printers lines.old.printer err.old)
        (printers lines.new.printer err.new) result }
{
    let told = lines.told();
    let status = say_result(upgraded, lines, err);
    say_told(err, status, told)
}

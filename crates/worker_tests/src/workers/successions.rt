//! Workers that go on from what another one left, with other code: what is read of a worker, and
//! what the next one then tells.

use crate::guests::{ECHO, HELLO, SYNC_FOLDER, THREE, blank, config_of};
use crate::halt::Halt;
use crate::rows::assert_row;
use crate::workers::working::{IDLE, Work, are_lines, create_with, live_on, work_on};
use disk_layout::LayoutFault;
use file_tree::limits::UNIT_BYTES;
use process::Legacy;
use record_replay::LineList;
use sector_disk::MemDisk;
use std::alloc::Global;
use wasi_abi::{Config, Version};
use worker::{
    Handover, LeaveFault, RecoverFault, UpgradeFault, WorkFault, Worker, create_from, read_legacy,
};

/// The least journal that takes the records of version 2, and the sectors of a disk with it.
const JOURNAL: u64 = 133;

const SECTORS: u64 = 4_745;

const FEW: &[&[u8]] = &[b"one", b"two", b"three"];

/// All that a guest does on these requests, saved in the end.
const SAVED: Work = (FEW, 1_000, true);

/// What is read of a worker.
#[derive(Clone, Copy, PartialEq, Eq)]
struct Left {
    requests: u64,
    lines: u64,
    dropped: u64,
    version: Version,
}

/// A worker of this guest, with so many sectors of records, that goes on from there. What its
/// creation says, and the lines that it tells on these requests, the first one with this number.
#[derive(Clone, Copy)]
struct Next {
    guest: &'static [u8],
    journal: u64,
    says: Result<(), WorkFault>,
    requests: &'static [&'static [u8]],
    first: u64,
    lines: &'static [&'static [u8]],
}

/// A worker of this guest, if there is one, that does the work, and is then upgraded or not. What
/// is read of it, and the worker that goes on from there.
struct Succession {
    name: &'static str,
    guest: Option<&'static [u8]>,
    work: Work,
    is_upgraded: bool,
    leaves: Result<Left, LeaveFault>,
    next: Option<Next>,
}

/// After three requests and their lines.
const ECHOED: Left = Left {
    requests: 3,
    lines: 3,
    dropped: 0,
    version: Version::One,
};

const WIDE: Left = Left {
    version: Version::Two,
    ..ECHOED
};

#[rattlefmt::skip]
static SUCCESSIONS: [Succession; 8] = [
    Succession { name: "one that waits for a request", guest: Some(ECHO), work: SAVED,
        is_upgraded: false, leaves: Ok(ECHOED),
        next: Some(Next {
            guest: ECHO, journal: 64, says: Ok(()), requests: &[b"four"], first: 4,
            lines: &[b"four"],
        }) },
    Succession { name: "one of version 2, and a guest that reads three requests for a line",
        guest: Some(ECHO), work: SAVED, is_upgraded: true, leaves: Ok(WIDE),
        next: Some(Next {
            guest: THREE, journal: JOURNAL, says: Ok(()), requests: FEW, first: 4,
            lines: &[b"three"],
        }) },
    Succession { name: "one of version 2, and a journal that is too small for that",
        guest: Some(ECHO), work: SAVED, is_upgraded: true, leaves: Ok(WIDE),
        next: Some(Next {
            guest: ECHO, journal: 132, says: Err(WorkFault::Upgrade(UpgradeFault::JournalTooSmall)),
            requests: &[], first: 4, lines: &[],
        }) },
    Succession { name: "one that has ended", guest: Some(HELLO), work: SAVED, is_upgraded: false,
        leaves: Ok(Left { requests: 0, lines: 1, dropped: 0, version: Version::One }),
        next: Some(Next {
            guest: HELLO, journal: 64, says: Ok(()), requests: &[], first: 2, lines: &[b"hi"],
        }) },
    Succession { name: "records come after the snapshot", guest: Some(ECHO),
        work: (FEW, 1_000, false), is_upgraded: false, leaves: Err(LeaveFault::NotParked),
        next: None },
    Succession { name: "one that has not begun", guest: Some(ECHO), work: IDLE, is_upgraded: false,
        leaves: Err(LeaveFault::NotParked), next: None },
    Succession { name: "one that runs", guest: Some(SYNC_FOLDER), work: SAVED, is_upgraded: false,
        leaves: Err(LeaveFault::NotParked), next: None },
    Succession { name: "no worker", guest: None, work: IDLE, is_upgraded: false,
        leaves: Err(LeaveFault::Recover(RecoverFault::Layout(LayoutFault::NotAWorker))),
        next: None },
];

/// Does the work, and then upgrades the worker where that is wanted.
fn work_and_upgrade(
    alloc: Global,
    worker: &mut Worker,
    disk: &mut MemDisk,
    succession: &Succession,
) -> Result<(), Halt> {
    let mut told = LineList::new(alloc);
    let worked = work_on(alloc, worker, disk, &succession.work, &mut told);
    let upgraded = if succession.is_upgraded {
        worker.upgrade(disk, &mut told)
    } else {
        Ok(())
    };
    drop(told);
    worked?;
    match upgraded {
        Ok(()) => Ok(()),
        Err(fault) => Err(Halt::from(fault)),
    }
}

/// Makes the worker on this disk, if there is to be one.
fn work_before(alloc: Global, disk: &mut MemDisk, succession: &Succession) -> Result<(), Halt> {
    let Some(guest) = succession.guest else {
        return Ok(());
    };
    let mut worker = create_with(alloc, disk, guest, 1, JOURNAL)?;
    let worked = work_and_upgrade(alloc, &mut worker, disk, succession);
    worker.close();
    worked
}

/// What is read of it. Want of memory is no answer.
fn read_after(
    alloc: Global,
    succession: &Succession,
) -> Result<Result<Handover, LeaveFault>, Halt> {
    let mut disk = blank(alloc, SECTORS)?;
    let worked = work_before(alloc, &mut disk, succession);
    let read = read_legacy(alloc, &mut disk);
    drop(disk);
    worked?;
    match read {
        Err(LeaveFault::Recover(fault)) => match Halt::from(fault) {
            Halt::Memory => Err(Halt::Memory),
            _ => Ok(Err(LeaveFault::Recover(fault))),
        },
        said => Ok(said),
    }
}

fn left_of(handover: &Handover) -> Left {
    Left {
        requests: handover.legacy.requests(),
        lines: handover.legacy.lines(),
        dropped: handover.dropped,
        version: handover.legacy.version(),
    }
}

/// Whether the creation says so.
fn is_said_so(
    alloc: Global,
    disk: &mut MemDisk,
    config: &Config,
    legacy: Legacy,
    next: &Next,
) -> Result<bool, Halt> {
    if legacy.used_bytes() > u64::from(config.files()) * UNIT_BYTES {
        legacy.close();
        return Ok(false);
    }
    let said = create_from(alloc, disk, next.guest, config, legacy);
    if said == next.says {
        return Ok(true);
    }
    match said {
        Ok(()) => Ok(false),
        Err(fault) => Err(Halt::from(fault)),
    }
}

/// Whether the first life of the next worker tells these lines.
fn tells_so(alloc: Global, disk: &mut MemDisk, next: &Next) -> Result<bool, Halt> {
    let work = (next.requests, 1_000, true);
    let mut told = LineList::new(alloc);
    let mut then = LineList::new(alloc);
    let lived = live_on(alloc, disk, &mut told, &work, &mut then);
    let is_so = told.lines().is_empty() && are_lines(&then, next.first, next.lines);
    drop(told);
    drop(then);
    lived?;
    Ok(is_so)
}

/// Whether the next worker is created so, and goes on so, on a disk of its own.
fn goes_on_so(
    alloc: Global,
    disk: &mut MemDisk,
    legacy: Legacy,
    next: &Next,
) -> Result<bool, Halt> {
    let config = match config_of(alloc, 1, next.journal) {
        Ok(config) => config,
        Err(halt) => {
            legacy.close();
            return Err(halt);
        }
    };
    let is_so = is_said_so(alloc, disk, &config, legacy, next);
    drop(config);
    if !is_so? {
        return Ok(false);
    }
    match next.says {
        Ok(()) => tells_so(alloc, disk, next),
        Err(_) => Ok(true),
    }
}

fn is_next_so(alloc: Global, legacy: Legacy, next: &Next) -> Result<bool, Halt> {
    match blank(alloc, SECTORS) {
        Ok(mut disk) => {
            let is_so = goes_on_so(alloc, &mut disk, legacy, next);
            drop(disk);
            is_so
        }
        Err(halt) => {
            legacy.close();
            Err(halt)
        }
    }
}

fn is_so(alloc: Global, succession: &Succession) -> Result<bool, Halt> {
    match read_after(alloc, succession)? {
        Ok(handover) => {
            let is_left = succession.leaves == Ok(left_of(&handover));
            let Handover { legacy, .. } = handover;
            match &succession.next {
                Some(next) => Ok(is_next_so(alloc, legacy, next)? && is_left),
                None => {
                    legacy.close();
                    Ok(is_left)
                }
            }
        }
        Err(fault) => Ok(succession.leaves == Err(fault)),
    }
}

/// What is left is read exactly, and the next worker tells the next lines.
#[test]
fn workers_go_on_with_other_code(rt: HostRuntime) -> Result<(), Halt> {
    for succession in &SUCCESSIONS {
        assert_row(&rt, is_so(rt.alloc(), succession)?, &succession.name);
    }
    Ok(())
}

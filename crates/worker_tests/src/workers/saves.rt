//! What saving a worker costs its disk, and when a journal that is full makes it do so.

use crate::guests::{ECHO, SECTORS, THREE, blank};
use crate::halt::Halt;
use crate::rows::assert_row;
use crate::workers::working::{Work, WorkerProgress, create, progress_of, work_on};
use record_replay::LineList;
use sector_disk::{Disk, DiskFault, FaultDisk, MemDisk};
use std::alloc::Global;
use worker::Worker;

/// The first journal sector of a worker of `ECHO`, and a sector's first bytes once `hello` is on
/// record: the length of the records, and one of step 6.
const JOURNAL: u64 = 4_612;

const HELLO_RECORD: [u8; 18] = *b"\x10\0\x01\x06\0\0\0\0\0\0\0\x05\0hello";

/// The head of each area, and the first and last sector of an image there. Generation 1 is in area
/// 1.
const HEAD_0: u64 = 1;

const HEAD_1: u64 = 2;

const AREA_0: u64 = 4;

const LAST_0: u64 = 132;

const AREA_1: u64 = 2_308;

const LAST_1: u64 = 2_436;

/// What is done after a creation, one after another. Then the reads, writes and syncs of the last
/// part, the sectors that it changes, and how the first of these begins.
struct Cost {
    name: &'static str,
    guest: &'static [u8],
    before: &'static [Work],
    last: Work,
    calls: (u64, u64, u64),
    changes: &'static [u64],
    front: &'static [u8],
}

/// A checkpoint and nothing else.
const SAVE: Work = (&[], 0, true);

/// A slice on one request, which the guest has taken.
const ANSWERED: Work = (&[b"hello"], 12, false);

/// Up to its line.
const TOLD: Work = (&[b"hello"], 20, false);

/// Three long requests, up to their line.
const LONG_TOLD: Work = (&[&[97; 400], &[97; 400], &[97; 400]], 27, false);

/// And one step after it.
const BEHIND: Work = (&[b"hello"], 21, false);

/// Up to the next question.
const ON: Work = (&[b"hello"], 100, false);

/// An image of `ECHO` has 129 sectors. Its first sector has the counts and the frames, and the last
/// one its operands and streams.
#[rattlefmt::skip]
static COSTS: [Cost; 7] = [
    Cost { name: "a line: one sector, one sync", guest: ECHO, before: &[], last: TOLD,
        calls: (0, 1, 1), changes: &[JOURNAL], front: &HELLO_RECORD },
    Cost { name: "three records of 411 bytes: as many sectors as hold them", guest: THREE,
        before: &[], last: LONG_TOLD, calls: (0, 3, 1), changes: &[JOURNAL, 4_613, 4_614],
        front: &[] },
    Cost { name: "an answer alone: nothing yet", guest: ECHO, before: &[], last: ANSWERED,
        calls: (0, 0, 0), changes: &[], front: &[] },
    Cost { name: "an area of zeros: a head, and what isn't zero of the image", guest: ECHO,
        before: &[], last: SAVE, calls: (129, 3, 2), changes: &[HEAD_0, AREA_0, LAST_0],
        front: &[] },
    Cost { name: "an image that its area holds: a head", guest: ECHO, before: &[SAVE], last: SAVE,
        calls: (129, 1, 2), changes: &[HEAD_1], front: &[] },
    Cost { name: "a head, and the first sector of the image", guest: ECHO, before: &[SAVE, BEHIND],
        last: SAVE, calls: (129, 2, 2), changes: &[HEAD_1, AREA_1], front: &[] },
    Cost { name: "a head, and the first and last sector", guest: ECHO, before: &[SAVE, TOLD],
        last: SAVE, calls: (129, 3, 2), changes: &[HEAD_1, AREA_1, LAST_1], front: &[] },
];

/// Does these parts, one after another.
pub(crate) fn work_on_each(
    alloc: Global,
    worker: &mut Worker,
    disk: &mut MemDisk,
    parts: &[Work],
) -> Result<(), Halt> {
    let mut told = LineList::new(alloc);
    for work in parts {
        work_on(alloc, worker, disk, work, &mut told)?;
    }
    Ok(())
}

/// Whether just these sectors differ, and the first of them begins with these bytes.
fn differ_at(
    before: &mut MemDisk,
    after: &mut MemDisk,
    changes: &[u64],
    front: &[u8],
) -> Result<bool, DiskFault> {
    let mut was = [0; 512];
    let mut is = [0; 512];
    for sector in 0..SECTORS {
        before.read(sector, &mut was)?;
        after.read(sector, &mut is)?;
        if (was == is) == changes.contains(&sector) {
            return Ok(false);
        }
        if changes.first() == Some(&sector) && !is.starts_with(front) {
            return Ok(false);
        }
    }
    Ok(true)
}

/// The disk after the last part, and its calls.
fn count_calls(
    alloc: Global,
    worker: &mut Worker,
    disk: MemDisk,
    last: &Work,
) -> Result<(MemDisk, (u64, u64, u64)), Halt> {
    let mut told = LineList::new(alloc);
    let mut counting = FaultDisk::new(disk, None, None);
    let worked = work_on(alloc, worker, &mut counting, last, &mut told);
    drop(told);
    let calls = counting.calls();
    let disk_after = counting.into_inner();
    match worked {
        Ok(()) => Ok((disk_after, calls)),
        Err(halt) => Err(halt),
    }
}

/// Whether the last part costs so much, on a disk that was so before.
fn is_last_so(
    alloc: Global,
    worker: &mut Worker,
    before: &mut MemDisk,
    disk: MemDisk,
    cost: &Cost,
) -> Result<bool, Halt> {
    let (mut after, calls) = count_calls(alloc, worker, disk, &cost.last)?;
    let differ = differ_at(before, &mut after, cost.changes, cost.front);
    drop(after);
    Ok(calls == cost.calls && differ?)
}

/// Whether the last part costs so much, after the others.
fn costs_so(
    alloc: Global,
    worker: &mut Worker,
    mut disk: MemDisk,
    cost: &Cost,
) -> Result<bool, Halt> {
    work_on_each(alloc, worker, &mut disk, cost.before)?;
    match disk.cut(alloc, &[]) {
        Ok(mut before) => {
            let is_so = is_last_so(alloc, worker, &mut before, disk, cost);
            drop(before);
            is_so
        }
        Err(fault) => Err(Halt::from(fault)),
    }
}

fn is_cost(alloc: Global, cost: &Cost) -> Result<bool, Halt> {
    let mut disk = blank(alloc, SECTORS)?;
    let mut worker = create(alloc, &mut disk, cost.guest)?;
    let is_so = costs_so(alloc, &mut worker, disk, cost);
    drop(worker);
    is_so
}

/// Requests, one after another.
static ANSWERED_EACH: [Work; 57] = [ON; 57];

/// Where a worker is after so many of them.
fn progress_after(alloc: Global, count: usize) -> Result<WorkerProgress, Halt> {
    let Some(parts) = ANSWERED_EACH.get(..count) else {
        return Err(Halt::Answers);
    };
    let mut disk = blank(alloc, SECTORS)?;
    let mut worker = create(alloc, &mut disk, ECHO)?;
    let worked = work_on_each(alloc, &mut worker, &mut disk, parts);
    let progress = progress_of(&worker);
    drop(worker);
    drop(disk);
    worked?;
    Ok(progress)
}

/// A journal has 64 sectors, of which each barrier takes one. The longest record has 4,107 bytes.
/// So 56 sectors are taken, and then there is a snapshot before the next question. A request takes
/// 22 steps, and the question after it comes before another five.
static FILLED: [(u64, u64, u64); 4] = [(1, 1, 27), (55, 1, 1_215), (56, 2, 1_237), (57, 2, 1_259)];

/// Whether after so many requests the worker is in this generation, after so many steps.
fn is_filled_so(alloc: Global, row: &(u64, u64, u64)) -> Result<bool, Halt> {
    let progress = progress_after(alloc, row.0 as usize)?;
    let wanted = WorkerProgress {
        generation: row.1,
        steps: row.2,
        answers: row.0,
        lines: row.0,
        replayed: 0,
    };
    Ok(progress == wanted)
}

/// A save costs what differs, a full journal is saved, and a record is spelled so.
#[test]
fn workers_are_saved(rt: HostRuntime) -> Result<(), Halt> {
    for cost in &COSTS {
        assert_row(&rt, is_cost(rt.alloc(), cost)?, &cost.name);
    }
    for row in &FILLED {
        assert_row(&rt, is_filled_so(rt.alloc(), row)?, row);
    }
    Ok(())
}

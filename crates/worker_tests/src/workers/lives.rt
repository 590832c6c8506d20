//! Two lives of a worker: the first is cut, and the second goes on.

use crate::guests::{ECHO, HELLO, SECTORS, SYNC_FOLDER, SYNC_OUTPUT, THREE, blank};
use crate::halt::Halt;
use crate::rows::assert_row;
use crate::workers::working::{
    ANSWERED, FRESH, IDLE, Work, WorkerProgress, are_lines, create, live_on, open, was_stopped,
    work_on,
};
use record_replay::LineList;
use sector_disk::{FaultDisk, FaultPoint, MemDisk};
use std::alloc::Global;
use worker::Worker;

/// The number of the first line of the output, and the texts of all.
type Lines = (u64, &'static [&'static [u8]]);

const NONE: Lines = (1, &[]);

/// A first life after its creation, where it is stopped and what fronts are left. Then what the
/// second one opens with, the lines that its recovery tells, what it does, and the lines of that.
struct Story {
    name: &'static str,
    guest: &'static [u8],
    work: Work,
    stop: Option<FaultPoint>,
    tears: &'static [u16],
    opens: WorkerProgress,
    told: Lines,
    goes_on: Work,
    told_then: Lines,
}

const LONG: &[u8] = &[97; 400];

const LONGER: &[u8] = &[97; 483];

/// Up to the line of the first request.
const FIRST: Work = (&[b"hello"], 20, false);

/// The same with another request.
const OTHER: Work = (&[b"world"], 20, false);

/// Up to the line of the second request.
const BOTH: Work = (&[b"hello", b"world"], 42, false);

/// From the answer to its line.
const TELLS: Work = (&[], 14, false);

/// Up to the step behind the sync.
const SYNCED: Work = (&[b"hello"], 9, false);

/// All that a guest does who asks for nothing.
const ALONE: Work = (&[], 100, false);

const RECOVERED: Story = Story {
    name: "a line is told in the recovery",
    guest: ECHO,
    work: BOTH,
    stop: None,
    tears: &[],
    opens: WorkerProgress {
        generation: 2,
        steps: 28,
        answers: 2,
        lines: 1,
        replayed: 28,
    },
    told: (1, &[b"hello"]),
    goes_on: TELLS,
    told_then: (2, &[b"world"]),
};

const UNASKED: Story = Story {
    name: "a guest that asks for nothing",
    guest: HELLO,
    work: ALONE,
    stop: None,
    tears: &[],
    opens: FRESH,
    told: NONE,
    goes_on: ALONE,
    told_then: (1, &[b"hi"]),
};

#[rattlefmt::skip]
static STORIES: [Story; 11] = [
    Story { name: "the record isn't whole", guest: ECHO, work: FIRST,
        stop: Some(FaultPoint { call: 1, front: 504 }), tears: &[], opens: FRESH, told: NONE,
        goes_on: OTHER, told_then: (1, &[b"world"]) },
    Story { name: "all of the record's bytes that aren't zero", guest: ECHO, work: FIRST,
        stop: Some(FaultPoint { call: 1, front: 505 }), tears: &[], opens: ANSWERED, told: NONE,
        goes_on: TELLS, told_then: (1, &[b"hello"]) },
    Story { name: "a line is told again", guest: ECHO, work: FIRST, stop: None, tears: &[],
        opens: ANSWERED, told: NONE, goes_on: TELLS, told_then: (1, &[b"hello"]) },
    RECOVERED,
    Story { name: "a snapshot was taken", guest: ECHO, work: (&[b"hello", b"world"], 42, true),
        stop: None, tears: &[],
        opens: WorkerProgress { generation: 3, steps: 42, answers: 2, lines: 2, replayed: 0 },
        told: NONE, goes_on: IDLE, told_then: NONE },
    UNASKED,
    Story { name: "a snapshot of its end", guest: HELLO, work: (&[], 100, true), stop: None,
        tears: &[],
        opens: WorkerProgress { generation: 3, steps: 8, answers: 0, lines: 1, replayed: 0 },
        told: NONE, goes_on: ALONE, told_then: NONE },
    // Three records in three sectors. The stop is in the sync after them.
    Story { name: "the second of three sectors isn't whole", guest: THREE,
        work: (&[LONG, LONG, LONG], 100, false), stop: Some(FaultPoint { call: 4, front: 0 }),
        tears: &[512, 499, 512],
        opens: WorkerProgress { generation: 2, steps: 5, answers: 1, lines: 0, replayed: 5 },
        told: NONE, goes_on: IDLE, told_then: NONE },
    Story { name: "the second of three full sectors isn't whole", guest: THREE,
        work: (&[LONGER, LONGER, LONGER], 100, false), stop: Some(FaultPoint { call: 4, front: 0 }),
        tears: &[512, 499, 512],
        opens: WorkerProgress { generation: 2, steps: 5, answers: 1, lines: 0, replayed: 5 },
        told: NONE, goes_on: IDLE, told_then: NONE },
    Story { name: "a sync of the guest", guest: SYNC_FOLDER, work: SYNCED, stop: None, tears: &[],
        opens: WorkerProgress { generation: 2, steps: 5, answers: 1, lines: 0, replayed: 5 },
        told: NONE, goes_on: IDLE, told_then: NONE },
    Story { name: "a sync that the guest was refused", guest: SYNC_OUTPUT, work: SYNCED, stop: None,
        tears: &[], opens: FRESH, told: NONE, goes_on: IDLE, told_then: NONE },
];

/// The disk that the worker leaves which was just made on this one, and whether it was stopped.
fn disk_after_life(
    alloc: Global,
    mut worker: Worker,
    disk: MemDisk,
    story: &Story,
) -> (MemDisk, Result<bool, Halt>) {
    let mut told = LineList::new(alloc);
    let mut stopping = FaultDisk::new(disk, story.stop, None);
    let worked = work_on(alloc, &mut worker, &mut stopping, &story.work, &mut told);
    drop(worker);
    drop(told);
    (stopping.into_inner(), was_stopped(worked))
}

/// What a cut leaves of this disk, if its life was stopped just where that is wanted.
fn cut_so(
    alloc: Global,
    disk_after: &MemDisk,
    stopped: Result<bool, Halt>,
    story: &Story,
) -> Result<Option<MemDisk>, Halt> {
    if stopped? != story.stop.is_some() {
        return Ok(None);
    }
    match disk_after.cut(alloc, story.tears) {
        Ok(disk) => Ok(Some(disk)),
        Err(fault) => Err(Halt::from(fault)),
    }
}

fn first_life(alloc: Global, story: &Story) -> Result<Option<MemDisk>, Halt> {
    let mut disk = blank(alloc, SECTORS)?;
    match create(alloc, &mut disk, story.guest) {
        Ok(worker) => {
            let (disk_after, stopped) = disk_after_life(alloc, worker, disk, story);
            let left = cut_so(alloc, &disk_after, stopped, story);
            drop(disk_after);
            left
        }
        Err(halt) => Err(halt),
    }
}

/// Whether a second life opens on this disk as the story tells, and goes on so.
fn goes_on_so(alloc: Global, disk: &mut MemDisk, story: &Story) -> Result<bool, Halt> {
    let mut told = LineList::new(alloc);
    let mut told_then = LineList::new(alloc);
    let opens = live_on(alloc, disk, &mut told, &story.goes_on, &mut told_then);
    let are_told = are_lines(&told, story.told.0, story.told.1)
        && are_lines(&told_then, story.told_then.0, story.told_then.1);
    drop(told);
    drop(told_then);
    Ok(opens? == story.opens && are_told)
}

fn is_told(alloc: Global, story: &Story) -> Result<bool, Halt> {
    match first_life(alloc, story)? {
        Some(mut disk) => {
            let is_so = goes_on_so(alloc, &mut disk, story);
            drop(disk);
            is_so
        }
        None => Ok(false),
    }
}

/// Whether a life that does nothing opens on this disk as the story tells, and another one after it
/// where that one did, with nothing to replay.
fn opens_twice(alloc: Global, disk: &mut MemDisk, story: &Story) -> Result<bool, Halt> {
    let opens = open(alloc, disk)?;
    let again = open(alloc, disk)?;
    let then = WorkerProgress {
        generation: story.opens.generation.saturating_add(1),
        replayed: 0,
        ..story.opens
    };
    Ok(opens == story.opens && again == then)
}

fn is_opened_again(alloc: Global, story: &Story) -> Result<bool, Halt> {
    match first_life(alloc, story)? {
        Some(mut disk) => {
            let is_so = opens_twice(alloc, &mut disk, story);
            drop(disk);
            is_so
        }
        None => Ok(false),
    }
}

/// Second lives go on, and third ones open as the second.
#[test]
fn later_lives_go_on(rt: HostRuntime) -> Result<(), Halt> {
    for story in &STORIES {
        assert_row(&rt, is_told(rt.alloc(), story)?, &story.name);
        assert_row(&rt, is_opened_again(rt.alloc(), story)?, &story.name);
    }
    Ok(())
}

/// A guest that asks for nothing, and one that asks.
static TWO: [Story; 2] = [UNASKED, RECOVERED];

/// For the refusal of each allocation.
#[test]
fn two_lives_with_memory(rt: HostRuntime) -> Result<(), Halt> {
    for story in &TWO {
        assert_row(&rt, is_told(rt.alloc(), story)?, &story.name);
    }
    Ok(())
}

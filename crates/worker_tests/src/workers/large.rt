//! A worker with 16 pages, whose calls take long enough to be measured.
//! `scripts/measure/durable-cost` counts what they cost.

use crate::guests::{SPIN, blank};
use crate::halt::Halt;
use crate::rows::assert_row;
use crate::workers::saves::work_on_each;
use crate::workers::working::{
    IDLE, Work, WorkerProgress, are_lines, create_with, live_on, progress_of,
};
use record_replay::LineList;
use sector_disk::MemDisk;
use std::alloc::Global;

/// The most pages of a worker, and the sectors of one that has them.
const PAGES: u64 = 16;

const SECTORS: u64 = 8_516;

/// A checkpoint into each area. Then a request, of which the image that is saved after it has a
/// page that is another. Then two requests more.
static PARTS: [Work; 4] = [
    (&[], 0, true),
    (&[], 0, true),
    (&[b"hello"], 1_000_000, true),
    (&[b"again", b"world"], 2_000_000, false),
];

/// The first question is asked after 5 steps. A request takes 600,024, the next question included.
const LEFT: WorkerProgress = WorkerProgress {
    generation: 4,
    steps: 1_800_077,
    answers: 3,
    lines: 3,
    replayed: 0,
};

/// The snapshot was saved at step 600,029, and the last answer was taken by step 1,200,054.
const OPENS: WorkerProgress = WorkerProgress {
    generation: 5,
    steps: 1_200_054,
    answers: 3,
    lines: 2,
    replayed: 600_025,
};

/// Where the first life ends.
fn first_life(alloc: Global, disk: &mut MemDisk) -> Result<WorkerProgress, Halt> {
    match create_with(alloc, disk, SPIN, PAGES, 64) {
        Ok(mut worker) => {
            let worked = work_on_each(alloc, &mut worker, disk, &PARTS);
            let progress = progress_of(&worker);
            drop(worker);
            worked?;
            Ok(progress)
        }
        Err(halt) => Err(halt),
    }
}

/// Whether the second life opens so, and tells the second line.
fn goes_on(alloc: Global, disk: &mut MemDisk) -> Result<bool, Halt> {
    let mut told = LineList::new(alloc);
    let mut told_then = LineList::new(alloc);
    let opens = live_on(alloc, disk, &mut told, &IDLE, &mut told_then);
    let are_told = are_lines(&told, 2, &[b"again"]);
    drop(told);
    drop(told_then);
    Ok(opens? == OPENS && are_told)
}

fn lives_so(alloc: Global) -> Result<bool, Halt> {
    let mut disk = blank(alloc, SECTORS)?;
    let left = first_life(alloc, &mut disk);
    let goes_on = goes_on(alloc, &mut disk);
    drop(disk);
    Ok(left? == LEFT && goes_on?)
}

#[test]
fn a_large_worker_lives(rt: HostRuntime) -> Result<(), Halt> {
    assert_row(&rt, lives_so(rt.alloc())?, &"16 pages");
    Ok(())
}

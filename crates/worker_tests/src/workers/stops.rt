//! Disks that stop or fail at a call, allocations that are refused, and what comes then.

use crate::guests::{ECHO, HELLO, SECTORS, blank};
use crate::halt::{Halt, NO_WORKER};
use crate::rows::assert_row;
use crate::workers::working::{
    FRESH, WorkerProgress, are_all_told, create, open, progress_of, was_stopped, work_on,
};
use record_replay::{AnswerList, LineList};
use sector_disk::{Disk, DiskFault, FaultDisk, FaultPoint, MemDisk};
use std::alloc::Global;
use worker::{SliceFault, WorkFault, Worker};

const CUT: Halt = Halt::Work(WorkFault::Disk(DiskFault::Cut));

/// The first checkpoint of a fresh worker makes 129 reads, 3 writes and 2 syncs. This is the last.
const HEAD_SYNC: u64 = 134;

/// What two checkpoints and a slice then say.
static SAID: [Option<WorkFault>; 3] = [
    Some(WorkFault::Disk(DiskFault::Io)),
    Some(WorkFault::Work(SliceFault::Failed)),
    Some(WorkFault::Work(SliceFault::Failed)),
];

/// Generation 2 was found, and nothing was done yet.
const SECOND: WorkerProgress = WorkerProgress {
    generation: 3,
    ..FRESH
};

/// How many calls of the disk were begun.
fn count_of(disk: &FaultDisk<MemDisk>) -> u64 {
    let (reads, writes, syncs) = disk.calls();
    reads.saturating_add(writes).saturating_add(syncs)
}

/// What two checkpoints and a slice say, one after another.
fn say_three<D: Disk>(alloc: Global, worker: &mut Worker, disk: &mut D) -> [Option<WorkFault>; 3] {
    let mut source = AnswerList::new(Vec::new(alloc));
    let mut told = LineList::new(alloc);
    [
        worker.checkpoint(disk, &mut told).err(),
        worker.checkpoint(disk, &mut told).err(),
        worker.slice(disk, 1, &mut source, &mut told).err(),
    ]
}

/// The disk after a checkpoint whose last call fails, if that and what follows say so.
fn failed_disk(alloc: Global, worker: &mut Worker, disk: MemDisk) -> Option<MemDisk> {
    let fail = FaultPoint {
        call: HEAD_SYNC,
        front: 0,
    };
    let mut failing = FaultDisk::new(disk, None, Some(fail));
    let said = say_three(alloc, worker, &mut failing);
    let is_so = said == SAID && count_of(&failing) == HEAD_SYNC;
    let disk_after = failing.into_inner();
    if is_so { Some(disk_after) } else { None }
}

/// The same with a fresh worker of `ECHO`.
fn failed_checkpoint(alloc: Global) -> Result<Option<MemDisk>, Halt> {
    let mut disk = blank(alloc, SECTORS)?;
    let mut worker = create(alloc, &mut disk, ECHO)?;
    let disk_after = failed_disk(alloc, &mut worker, disk);
    drop(worker);
    Ok(disk_after)
}

/// How many calls a recovery of this disk begins, if it finds generation 2.
fn calls_of_recovery(alloc: Global, disk: MemDisk) -> Result<Option<u64>, Halt> {
    let mut counting = FaultDisk::new(disk, None, None);
    let opens = open(alloc, &mut counting);
    let count = count_of(&counting);
    drop(counting);
    Ok(if opens? == SECOND { Some(count) } else { None })
}

/// The disk that a recovery leaves which is stopped there, and what it says.
fn stopped_recovery(
    alloc: Global,
    disk: MemDisk,
    stop: FaultPoint,
) -> (MemDisk, Result<WorkerProgress, Halt>) {
    let mut stopping = FaultDisk::new(disk, Some(stop), None);
    let opens = open(alloc, &mut stopping);
    (stopping.into_inner(), opens)
}

/// Whether generation 2 is found once the power is cut.
fn is_second(alloc: Global, disk: &MemDisk) -> Result<bool, Halt> {
    let mut disk_after = disk.cut(alloc, &[])?;
    let opens = open(alloc, &mut disk_after);
    drop(disk_after);
    Ok(opens? == SECOND)
}

/// Whether a recovery of this disk that is stopped at this call leaves generation 2.
fn is_kept_over_a_stop(alloc: Global, disk: MemDisk, call: u64) -> Result<bool, Halt> {
    let (disk_after, opens) = stopped_recovery(alloc, disk, FaultPoint { call, front: 100 });
    let is_second = is_second(alloc, &disk_after);
    drop(disk_after);
    Ok(opens == Err(CUT) && is_second?)
}

/// Whether generation 2 is found after a checkpoint whose last call fails, also where a recovery is
/// stopped in the write of its head, which is its last call but one.
fn is_found(alloc: Global) -> Result<bool, Halt> {
    let Some(disk) = failed_checkpoint(alloc)? else {
        return Ok(false);
    };
    let Some(calls) = calls_of_recovery(alloc, disk)? else {
        return Ok(false);
    };
    match failed_checkpoint(alloc)? {
        Some(disk) => is_kept_over_a_stop(alloc, disk, calls.saturating_sub(1)),
        None => Ok(false),
    }
}

/// A guest, all requests to it, how many steps a life takes and whether it is saved then. Then the
/// texts of all its lines, and what three lives open with, one after another.
struct Task {
    guest: &'static [u8],
    requests: &'static [&'static [u8]],
    fuel: u64,
    is_saved: bool,
    texts: &'static [&'static [u8]],
    opens: [WorkerProgress; 3],
}

const CREATED: WorkerProgress = WorkerProgress {
    generation: 1,
    ..FRESH
};

#[rattlefmt::skip]
const ECHOES: Task = Task {
    guest: ECHO, requests: &[b"hello", b"world"], fuel: 100, is_saved: true,
    texts: &[b"hello", b"world"],
    opens: [
        CREATED, WorkerProgress { generation: 3, steps: 49, answers: 2, lines: 2, replayed: 0 },
        WorkerProgress { generation: 5, steps: 49, answers: 2, lines: 2, replayed: 0 },
    ],
};

#[rattlefmt::skip]
static TASKS: [Task; 3] = [
    Task { guest: HELLO, requests: &[], fuel: 100, is_saved: true, texts: &[b"hi"], opens: [
        CREATED, WorkerProgress { generation: 3, steps: 8, answers: 0, lines: 1, replayed: 0 },
        WorkerProgress { generation: 5, steps: 8, answers: 0, lines: 1, replayed: 0 },
    ] },
    ECHOES,
    // up to the second line, and a cut: the second life tells both lines again
    Task { guest: ECHO, requests: &[b"hello", b"world"], fuel: 42, is_saved: false,
        texts: &[b"hello", b"world"], opens: [
        CREATED, WorkerProgress { generation: 2, steps: 28, answers: 2, lines: 1, replayed: 28 },
        WorkerProgress { generation: 3, steps: 28, answers: 2, lines: 1, replayed: 0 },
    ] },
];

/// The worker that the disk stands for, or a new one where there is none.
fn open_or_create<D: Disk>(
    alloc: Global,
    disk: &mut D,
    guest: &[u8],
    told: &mut LineList,
) -> Result<Worker, Halt> {
    match Worker::recover(alloc, disk, told) {
        Ok(worker) => Ok(worker),
        Err(fault) => create_where(alloc, disk, guest, Halt::from(fault)),
    }
}

/// A new worker where a recovery has found none.
fn create_where<D: Disk>(
    alloc: Global,
    disk: &mut D,
    guest: &[u8],
    halt: Halt,
) -> Result<Worker, Halt> {
    if halt == NO_WORKER {
        create(alloc, disk, guest)
    } else {
        Err(halt)
    }
}

/// Hands over the requests that are left, and saves the process where the task says so.
fn finish<D: Disk>(
    alloc: Global,
    worker: &mut Worker,
    disk: &mut D,
    task: &Task,
    told: &mut LineList,
) -> Result<(), Halt> {
    let answers = worker.process().answers() as usize;
    let Some(requests) = task.requests.get(answers..) else {
        return Err(Halt::Answers);
    };
    let work = (requests, task.fuel, task.is_saved);
    work_on(alloc, worker, disk, &work, told)
}

/// A life that does all that is left to do, and what it opens with.
fn live<D: Disk>(
    alloc: Global,
    disk: &mut D,
    task: &Task,
    told: &mut LineList,
) -> Result<WorkerProgress, Halt> {
    match open_or_create(alloc, disk, task.guest, told) {
        Ok(mut worker) => {
            let opens = progress_of(&worker);
            let worked = finish(alloc, &mut worker, disk, task, told);
            drop(worker);
            worked?;
            Ok(opens)
        }
        Err(halt) => Err(halt),
    }
}

/// How a life has ended.
fn end_of(life: Result<WorkerProgress, Halt>) -> Result<(), Halt> {
    let _opens = life?;
    Ok(())
}

/// The disk that a life leaves which is stopped there, whether it was, and how many calls of its
/// disk it began.
fn life_on(
    alloc: Global,
    disk: MemDisk,
    stop: Option<FaultPoint>,
    task: &Task,
    told: &mut LineList,
) -> (MemDisk, Result<bool, Halt>, u64) {
    let mut stopping = FaultDisk::new(disk, stop, None);
    let stopped = was_stopped(end_of(live(alloc, &mut stopping, task, told)));
    let count = count_of(&stopping);
    (stopping.into_inner(), stopped, count)
}

/// The same of a first life, and what a cut leaves of its disk.
fn stopped_life(
    alloc: Global,
    stop: Option<FaultPoint>,
    task: &Task,
    told: &mut LineList,
) -> Result<(MemDisk, bool, u64), Halt> {
    let disk = blank(alloc, SECTORS)?;
    let (disk_after, stopped, count) = life_on(alloc, disk, stop, task, told);
    let left = disk_after.cut(alloc, &[]);
    drop(disk_after);
    let is_stopped = stopped?;
    match left {
        Ok(left) => Ok((left, is_stopped, count)),
        Err(fault) => Err(Halt::from(fault)),
    }
}

/// How many calls of its disk a life of this task begins that isn't stopped.
fn calls_of_life(alloc: Global, task: &Task) -> Result<u64, Halt> {
    let mut told = LineList::new(alloc);
    let lived = stopped_life(alloc, None, task, &mut told);
    drop(told);
    let (left, _is_stopped, count) = lived?;
    drop(left);
    Ok(count)
}

/// Whether a life was stopped at this call, and another one has gone on then.
fn lives_twice(alloc: Global, call: u64, task: &Task, told: &mut LineList) -> Result<bool, Halt> {
    let stop = FaultPoint { call, front: 505 };
    let (mut disk, is_stopped, _count) = stopped_life(alloc, Some(stop), task, told)?;
    let opens = live(alloc, &mut disk, task, told);
    drop(disk);
    opens?;
    Ok(is_stopped)
}

/// Whether all lines are told after both.
fn goes_on_after(alloc: Global, call: u64, task: &Task) -> Result<bool, Halt> {
    let mut told = LineList::new(alloc);
    let is_stopped = lives_twice(alloc, call, task, &mut told);
    let are_told = are_all_told(&told, task.texts);
    drop(told);
    Ok(is_stopped? && are_told)
}

/// A sync and a read find no worker. A creation has 198 writes and 6 syncs. Each of two lines has a
/// write and a sync, and the checkpoint has 129 reads, 3 writes and 2 syncs.
const CALLS: u64 = 344;

/// The last call of a checkpoint is the sync of its head. If it fails, a recovery finds the new
/// generation nevertheless, since reads give it.
#[test]
fn failed_head_syncs_are_recovered(rt: HostRuntime) -> Result<(), Halt> {
    assert_row(&rt, is_found(rt.alloc())?, &"generation 2");
    let calls = calls_of_life(rt.alloc(), &ECHOES)?;
    assert_row(&rt, calls == CALLS, &calls);
    Ok(())
}

/// Whatever the call at which the power fails, each number has one text, and both lines are told.
#[test]
fn lives_go_on_after_any_stop(rt: HostRuntime) -> Result<(), Halt> {
    for call in 1..=CALLS {
        assert_row(&rt, goes_on_after(rt.alloc(), call, &ECHOES)?, &call);
    }
    Ok(())
}

/// What was asked for again, since memory for it was refused the first time; or that none was.
type Again = Result<(), Halt>;

/// A disk of zeros.
fn blank_again(alloc: Global) -> Result<(MemDisk, Again), Halt> {
    match blank(alloc, SECTORS) {
        Ok(disk) => Ok((disk, Ok(()))),
        Err(halt) => {
            let disk = blank(alloc, SECTORS)?;
            Ok((disk, Err(halt)))
        }
    }
}

/// What a cut leaves of a disk.
fn cut_again(alloc: Global, disk: &MemDisk) -> Result<(MemDisk, Again), Halt> {
    match disk.cut(alloc, &[]) {
        Ok(disk_after) => Ok((disk_after, Ok(()))),
        Err(fault) => {
            let disk_after = disk.cut(alloc, &[])?;
            Ok((disk_after, Err(Halt::from(fault))))
        }
    }
}

/// What a life says, and what a cut leaves after it.
fn cut_life(
    alloc: Global,
    mut disk: MemDisk,
    task: &Task,
    told: &mut LineList,
) -> Result<(MemDisk, Result<WorkerProgress, Halt>), Halt> {
    let opens = live(alloc, &mut disk, task, told);
    let cut = cut_again(alloc, &disk);
    drop(disk);
    let (disk_after, again) = cut?;
    match again {
        Ok(()) => Ok((disk_after, opens)),
        Err(halt) => Ok((disk_after, Err(halt))),
    }
}

/// What three lives say, of which one ends out of memory where an allocation is refused, or the cut
/// after it is made again.
fn three_lives(
    alloc: Global,
    disk: MemDisk,
    task: &Task,
    told: &mut LineList,
) -> Result<[Result<WorkerProgress, Halt>; 3], Halt> {
    let (disk, first) = cut_life(alloc, disk, task, told)?;
    let (disk, second) = cut_life(alloc, disk, task, told)?;
    let (disk, third) = cut_life(alloc, disk, task, told)?;
    drop(disk);
    Ok([first, second, third])
}

/// What the first of them says that ended so.
fn said_by(lives: &[Result<WorkerProgress, Halt>; 3]) -> Result<(), Halt> {
    for life in lives {
        let _opens = (*life)?;
    }
    Ok(())
}

/// Whether no life was out of memory, and they opened as the task says.
fn open_so(lives: &[Result<WorkerProgress, Halt>; 3], task: &Task) -> bool {
    for (life, wanted) in lives.iter().zip(&task.opens) {
        if *life != Ok(*wanted) {
            return false;
        }
    }
    true
}

/// Whether three lives tell all lines, and what was out of memory. Where nothing was, they open as
/// the task says.
fn are_told_in_three(alloc: Global, task: &Task) -> Result<(bool, Result<(), Halt>), Halt> {
    let (disk, made) = blank_again(alloc)?;
    let mut told = LineList::new(alloc);
    let lived = three_lives(alloc, disk, task, &mut told);
    let are_told = are_all_told(&told, task.texts);
    drop(told);
    let lives = lived?;
    let said = made.and(said_by(&lives));
    Ok((are_told && (said.is_err() || open_so(&lives, task)), said))
}

/// For the refusal of each allocation: the last life with memory gives all lines.
#[test]
fn lives_go_on_after_want_of_memory(rt: HostRuntime) -> Result<(), Halt> {
    for task in &TASKS {
        let (are_told, said) = are_told_in_three(rt.alloc(), task)?;
        assert_row(&rt, are_told, &said);
        said?;
    }
    Ok(())
}

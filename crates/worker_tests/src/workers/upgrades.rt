//! Workers that are put into version 2: what is refused, and what a stop or a failure at each call
//! of the disk leaves.

use crate::guests::{ECHO, RANDOM, blank};
use crate::halt::Halt;
use crate::rows::assert_row;
use crate::workers::working::{
    ANSWERED, FRESH, IDLE, Mishap, Work, WorkerProgress, are_lines, create_with, progress_of,
    work_on,
};
use record_replay::{AnswerList, LineList};
use sector_disk::{Disk, FaultDisk, FaultPoint, MemDisk};
use std::alloc::Global;
use std::process::Abort;
use wasi_abi::{Answer, Version};
use wasm_syntax::ItemList;
use worker::{SliceFault, UpgradeFault, WorkFault, Worker};

/// The least journal that takes the records of version 2, and the sectors of a disk with it.
const JOURNAL: u64 = 133;

const SECTORS: u64 = 4_745;

const TOO_SMALL: WorkFault = WorkFault::Upgrade(UpgradeFault::JournalTooSmall);

const NOT_CAUGHT_UP: WorkFault = WorkFault::Upgrade(UpgradeFault::NotCaughtUp);

const FAILED: WorkFault = WorkFault::Work(SliceFault::Failed);

/// All that a guest does who asks for nothing.
const ALONE: Work = (&[], 100, false);

/// The same, saved in the end.
const SAVED: Work = (&[], 100, true);

/// Up to the question behind a line.
const ECHOED: Work = (&[b"hello"], 100, false);

/// An answer that only memory holds.
const ANSWERS: Work = (&[b"hello"], 12, false);

/// What a first life does, which is cut, if there is one; and what the next one does before it is
/// upgraded twice. What the two upgrades say, and the version then.
struct Case {
    name: &'static str,
    guest: &'static [u8],
    journal: u64,
    first: Option<Work>,
    next: Work,
    says: [Option<WorkFault>; 2],
    version: Version,
}

#[rattlefmt::skip]
static CASES: [Case; 8] = [
    Case { name: "a journal of 132 sectors", guest: ECHO, journal: 132, first: None, next: IDLE,
        says: [Some(TOO_SMALL), Some(FAILED)], version: Version::One },
    Case { name: "a fresh worker, and one of version 2", guest: ECHO, journal: JOURNAL, first: None,
        next: IDLE, says: [None, None], version: Version::Two },
    Case { name: "a line beyond it was told in an earlier life", guest: RANDOM, journal: JOURNAL,
        first: Some(ALONE), next: IDLE, says: [Some(NOT_CAUGHT_UP), Some(FAILED)],
        version: Version::One },
    Case { name: "the journal is judged first", guest: RANDOM, journal: 132, first: Some(ALONE),
        next: IDLE, says: [Some(TOO_SMALL), Some(FAILED)], version: Version::One },
    Case { name: "it has ended", guest: RANDOM, journal: JOURNAL, first: Some(ALONE), next: ALONE,
        says: [None, None], version: Version::Two },
    Case { name: "it had ended when it was saved", guest: RANDOM, journal: JOURNAL,
        first: Some(SAVED), next: IDLE, says: [None, None], version: Version::Two },
    Case { name: "it may have told a line", guest: ECHO, journal: JOURNAL, first: Some(ECHOED),
        next: IDLE, says: [Some(NOT_CAUGHT_UP), Some(FAILED)], version: Version::One },
    Case { name: "it has asked", guest: ECHO, journal: JOURNAL, first: Some(ECHOED), next: ALONE,
        says: [None, None], version: Version::Two },
];

/// What two upgrades say after this work.
fn say_twice(
    alloc: Global,
    worker: &mut Worker,
    disk: &mut MemDisk,
    work: &Work,
) -> Result<[Option<WorkFault>; 2], Halt> {
    let mut told = LineList::new(alloc);
    work_on(alloc, worker, disk, work, &mut told)?;
    Ok([
        worker.upgrade(disk, &mut told).err(),
        worker.upgrade(disk, &mut told).err(),
    ])
}

/// Whether a worker says so, and has this version then.
fn says_so(
    alloc: Global,
    worker: &mut Worker,
    disk: &mut MemDisk,
    case: &Case,
) -> Result<bool, Halt> {
    let said = say_twice(alloc, worker, disk, &case.next)?;
    Ok(said == case.says && worker.process().version() == case.version)
}

/// The same of a worker that is recovered from a disk, whose recovery tells these lines.
fn says_so_again(
    alloc: Global,
    disk: &mut MemDisk,
    told: &mut LineList,
    case: &Case,
) -> Result<bool, Halt> {
    match Worker::recover(alloc, disk, told) {
        Ok(mut worker) => {
            let is_so = says_so(alloc, &mut worker, disk, case);
            drop(worker);
            is_so
        }
        Err(fault) => Err(Halt::from(fault)),
    }
}

/// The same of a disk of its own.
fn says_so_on(alloc: Global, mut disk: MemDisk, case: &Case) -> Result<bool, Halt> {
    let mut told = LineList::new(alloc);
    let is_so = says_so_again(alloc, &mut disk, &mut told, case);
    drop(told);
    drop(disk);
    is_so
}

/// What a cut leaves of a disk after this work.
fn cut_after(
    alloc: Global,
    worker: &mut Worker,
    disk: &mut MemDisk,
    work: &Work,
) -> Result<MemDisk, Halt> {
    let mut told = LineList::new(alloc);
    let worked = work_on(alloc, worker, disk, work, &mut told);
    drop(told);
    worked?;
    Ok(disk.cut(alloc, &[])?)
}

fn is_case_on(alloc: Global, disk: &mut MemDisk, case: &Case) -> Result<bool, Halt> {
    let mut worker = create_with(alloc, disk, case.guest, 1, case.journal)?;
    match &case.first {
        Some(first) => {
            let disk_after = cut_after(alloc, &mut worker, disk, first);
            drop(worker);
            says_so_on(alloc, disk_after?, case)
        }
        None => {
            let is_so = says_so(alloc, &mut worker, disk, case);
            drop(worker);
            is_so
        }
    }
}

fn is_case(alloc: Global, case: &Case) -> Result<bool, Halt> {
    let mut disk = blank(alloc, SECTORS)?;
    let is_so = is_case_on(alloc, &mut disk, case);
    drop(disk);
    is_so
}

/// An upgrade is refused for its journal, and for lines that an earlier life told.
#[test]
fn upgrades_are_refused(rt: HostRuntime) -> Result<(), Halt> {
    for case in &CASES {
        assert_row(&rt, is_case(rt.alloc(), case)?, &case.name);
    }
    Ok(())
}

/// The answer to a call for 5,000 random bytes.
fn random(alloc: Global) -> Result<AnswerList, Halt> {
    let bytes = ItemList::from_vec(Vec::from_slice(alloc, &[7; 5_000])?);
    let mut answers = Vec::new(alloc);
    answers.push(Answer::Random { bytes })?;
    Ok(AnswerList::new(answers))
}

/// Whether a worker tells just this line, once it is upgraded where that is wanted.
fn tells(
    alloc: Global,
    worker: &mut Worker,
    disk: &mut MemDisk,
    is_upgraded: bool,
    text: &'static [u8],
) -> Result<bool, Halt> {
    let mut told = LineList::new(alloc);
    if is_upgraded {
        worker.upgrade(disk, &mut told)?;
    }
    let mut source = random(alloc)?;
    let _now = worker.slice(disk, 100, &mut source, &mut told)?;
    Ok(are_lines(&told, 1, &[text]))
}

fn tells_at_first(alloc: Global, is_upgraded: bool, text: &'static [u8]) -> Result<bool, Halt> {
    let mut disk = blank(alloc, SECTORS)?;
    let mut worker = create_with(alloc, &mut disk, RANDOM, 1, JOURNAL)?;
    let is_so = tells(alloc, &mut worker, &mut disk, is_upgraded, text);
    drop(worker);
    is_so
}

/// Whether a worker is upgraded, and its line then. Version 1 gives 4,096 random bytes at most: the
/// call for 5,000 has error 28.
static TOLD: [(bool, &[u8]); 2] = [(false, b"28"), (true, b"00")];

#[test]
fn random_bytes_are_more_in_version_2(rt: HostRuntime) -> Result<(), Halt> {
    for (is_upgraded, text) in &TOLD {
        assert_row(&rt, tells_at_first(rt.alloc(), *is_upgraded, *text)?, text);
    }
    Ok(())
}

/// The barrier is a write and a sync. After it come 129 reads, 3 writes and 2 syncs.
const CALLS: u64 = 136;

const BARRIER: u64 = 2;

const WRITES_AND_SYNCS: u64 = 5;

/// All but a byte of the record is left of a write.
const PART: u16 = 504;

/// Or nothing, all but a byte of the stamp, or all of it.
static PREFIXES: [u16; 4] = [PART, 0, 511, 512];

/// The process is left, in version 2. That it was widened counts as an answer.
const WIDE: WorkerProgress = WorkerProgress {
    generation: 3,
    steps: 12,
    answers: 2,
    lines: 0,
    replayed: 0,
};

/// The disk on which an upgrade meets with a mishap, and whether it and the next one say so.
fn meets(
    alloc: Global,
    worker: &mut Worker,
    disk: MemDisk,
    mishap: Mishap,
    place: FaultPoint,
) -> (MemDisk, bool) {
    let mut told = LineList::new(alloc);
    let mut faulty = match mishap {
        Mishap::Stop => FaultDisk::new(disk, Some(place), None),
        Mishap::Failure => FaultDisk::new(disk, None, Some(place)),
    };
    let said = worker.upgrade(&mut faulty, &mut told).is_err();
    let again = worker.upgrade(&mut faulty, &mut told).err() == Some(FAILED);
    drop(told);
    (faulty.into_inner(), said && again)
}

/// What the next life finds: what a cut leaves, or the same disk.
fn found_after(alloc: Global, disk_after: MemDisk, mishap: Mishap) -> Result<MemDisk, Halt> {
    match mishap {
        Mishap::Stop => {
            let left = disk_after.cut(alloc, &[]);
            drop(disk_after);
            Ok(left?)
        }
        Mishap::Failure => Ok(disk_after),
    }
}

/// The disk that the next life finds, where the upgrade has said so.
fn found(
    alloc: Global,
    worker: &mut Worker,
    mut disk: MemDisk,
    mishap: Mishap,
    place: FaultPoint,
) -> Result<Option<MemDisk>, Halt> {
    let mut told = LineList::new(alloc);
    let worked = work_on(alloc, worker, &mut disk, &ANSWERS, &mut told);
    drop(told);
    worked?;
    let (disk_after, is_said) = meets(alloc, worker, disk, mishap, place);
    let next = found_after(alloc, disk_after, mishap)?;
    Ok(if is_said { Some(next) } else { None })
}

/// The version and the place with which the next life opens.
fn opens(
    alloc: Global,
    disk: &mut MemDisk,
    told: &mut LineList,
) -> Result<(Version, WorkerProgress), Halt> {
    match Worker::recover(alloc, disk, told) {
        Ok(worker) => {
            let opened = (worker.process().version(), progress_of(&worker));
            drop(worker);
            Ok(opened)
        }
        Err(fault) => Err(Halt::from(fault)),
    }
}

/// The same of a disk of its own.
fn opens_on(alloc: Global, mut disk: MemDisk) -> Result<(Version, WorkerProgress), Halt> {
    let mut told = LineList::new(alloc);
    let opened = opens(alloc, &mut disk, &mut told);
    drop(told);
    drop(disk);
    opened
}

/// Whether it is whole in the one version or the other. Once the barrier is done it has the answer.
fn is_whole(opened: (Version, WorkerProgress), place: FaultPoint) -> bool {
    match opened {
        (Version::One, stand) => stand == ANSWERED || (stand == FRESH && place.call <= BARRIER),
        (Version::Two, stand) => stand == WIDE && BARRIER < place.call,
    }
}

fn is_whole_after(alloc: Global, mishap: Mishap, place: FaultPoint) -> Result<bool, Halt> {
    let mut disk = blank(alloc, SECTORS)?;
    let mut worker = create_with(alloc, &mut disk, ECHO, 1, JOURNAL)?;
    let disk_after = found(alloc, &mut worker, disk, mishap, place);
    drop(worker);
    match disk_after? {
        Some(disk_after) => Ok(is_whole(opens_on(alloc, disk_after)?, place)),
        None => Ok(false),
    }
}

/// Each prefix is tried in the barrier and at the end, and one of them at each other call.
fn is_tried(call: u64, prefix: u16) -> bool {
    prefix == PART || call <= BARRIER || CALLS - WRITES_AND_SYNCS < call
}

/// Whether the next life is as it must be, after this call and each prefix that is tried.
fn is_whole_each_time(alloc: Global, mishap: Mishap, call: u64) -> Result<bool, Halt> {
    for prefix in &PREFIXES {
        let place = FaultPoint {
            call,
            front: *prefix,
        };
        if is_tried(call, *prefix) && !is_whole_after(alloc, mishap, place)? {
            return Ok(false);
        }
    }
    Ok(true)
}

fn leave_one_version(rt: &impl Abort, alloc: Global, mishap: Mishap) -> Result<(), Halt> {
    for call in 1..=CALLS {
        assert_row(rt, is_whole_each_time(alloc, mishap, call)?, &call);
    }
    Ok(())
}

#[test]
fn stopped_upgrades_leave_one_version(rt: HostRuntime) -> Result<(), Halt> {
    leave_one_version(&rt, rt.alloc(), Mishap::Stop)
}

#[test]
fn failed_upgrades_leave_one_version(rt: HostRuntime) -> Result<(), Halt> {
    leave_one_version(&rt, rt.alloc(), Mishap::Failure)
}

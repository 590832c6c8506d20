//! What is done with journals (`cases`), and a stop or a failure at each call of the disk.

mod cases;

use crate::layouts::is_laid_out;
use crate::rows::assert_row;
use disk_layout::{Geometry, Record, journal_sector};
use journal::{Journal, JournalFault};
use sector_disk::{Disk, DiskFault, FaultDisk, FaultPoint, MemDisk};
use std::alloc::{AllocError, Global};
use wasi_abi::{Answer, Version};
use wasm_syntax::ItemList;

/// A journal of 16 sectors from sector 4 on.
static PLACES: Geometry = Geometry {
    config: 28,
    wasm: 193,
    module_sectors: 1,
    area_sectors: 0,
    journal_sectors: 16,
};

fn journal_fault(fault: DiskFault) -> JournalFault {
    match fault {
        DiskFault::Memory => JournalFault::Memory,
        fault => JournalFault::Disk(fault),
    }
}

/// An empty disk of so many sectors that stops at a call, or fails one.
fn faulty_disk(
    alloc: Global,
    sectors: u64,
    stop: Option<FaultPoint>,
    fail: Option<FaultPoint>,
) -> Result<FaultDisk<MemDisk>, JournalFault> {
    match MemDisk::new(alloc, sectors, 16) {
        Ok(disk) => Ok(FaultDisk::new(disk, stop, fail)),
        Err(fault) => Err(journal_fault(fault)),
    }
}

/// What a record says.
#[derive(Clone, Copy)]
pub(crate) enum Given {
    Request(&'static [u8]),
    /// A request of so many letters.
    Letters(usize),
    End,
    Realtime(u64),
    Monotonic(u64),
    Random(&'static [u8]),
}

fn row_of(alloc: Global, bytes: &[u8]) -> Result<ItemList<u8>, AllocError> {
    Ok(ItemList::from_vec(Vec::from_slice(alloc, bytes)?))
}

fn letters(alloc: Global, count: usize) -> Result<ItemList<u8>, AllocError> {
    let mut text = Vec::new(alloc);
    text.resize(count, b'a')?;
    Ok(ItemList::from_vec(text))
}

fn answer_of(alloc: Global, given: &Given) -> Result<Answer, AllocError> {
    match given {
        Given::Request(text) => Ok(Answer::Request {
            text: row_of(alloc, text)?,
        }),
        Given::Letters(count) => Ok(Answer::Request {
            text: letters(alloc, *count)?,
        }),
        Given::End => Ok(Answer::End),
        Given::Realtime(time) => Ok(Answer::Realtime { nanoseconds: *time }),
        Given::Monotonic(time) => Ok(Answer::Monotonic { nanoseconds: *time }),
        Given::Random(bytes) => Ok(Answer::Random {
            bytes: row_of(alloc, bytes)?,
        }),
    }
}

/// What a call answers: the room that is left, of 16 sectors with 494 bytes each, or the number of
/// records that are found.
pub(crate) type Count = Result<usize, JournalFault>;

fn append(alloc: Global, journal: &mut Journal, step: u64, given: &Given) -> Count {
    match answer_of(alloc, given) {
        Ok(answer) => {
            let record = Record { step, answer };
            let appended = journal.append(&PLACES, &record);
            drop(record);
            appended?;
            Ok(journal.room(&PLACES))
        }
        Err(_) => Err(JournalFault::Memory),
    }
}

fn barrier<D: Disk>(journal: &mut Journal, disk: &mut D) -> Count {
    journal.barrier(disk, &PLACES)?;
    Ok(journal.room(&PLACES))
}

fn scan<D: Disk>(
    alloc: Global,
    disk: &mut D,
    generation: u64,
) -> Result<Vec<Record>, JournalFault> {
    let scanned = Journal::scan(alloc, disk, &PLACES, Version::One, generation)?;
    Ok(scanned.records)
}

/// How many records there are. Their steps must count from this one on.
fn count_from(first: u64, records: &[Record]) -> Count {
    for (place, record) in records.iter().enumerate() {
        if record.step.checked_sub(first) != Some(place as u64) {
            return Err(JournalFault::Full);
        }
    }
    Ok(records.len())
}

fn scan_count<D: Disk>(alloc: Global, disk: &mut D, generation: u64, first: u64) -> Count {
    let records = scan(alloc, disk, generation)?;
    let count = count_from(first, records.as_slice());
    drop(records);
    count
}

fn append_all(journal: &mut Journal, records: &[Record]) -> Count {
    for record in records {
        journal.append(&PLACES, record)?;
    }
    Ok(journal.room(&PLACES))
}

/// Appends what a scan of a generation gives.
fn append_again<D: Disk>(
    alloc: Global,
    journal: &mut Journal,
    disk: &mut D,
    generation: u64,
) -> Count {
    let records = scan(alloc, disk, generation)?;
    let room = append_all(journal, records.as_slice());
    drop(records);
    room
}

/// A record of it has 261 bytes, and two of them are written in two sectors.
static PAIRED: Given = Given::Letters(250);

fn write_pair<D: Disk>(alloc: Global, journal: &mut Journal, disk: &mut D, step: u64) -> Count {
    append(alloc, journal, step, &PAIRED)?;
    append(alloc, journal, step.saturating_add(1), &PAIRED)?;
    barrier(journal, disk)
}

/// Five pairs. How many records were acknowledged before an error of the disk.
fn write_pairs<D: Disk>(alloc: Global, journal: &mut Journal, disk: &mut D) -> Count {
    for pair in 0..5 {
        match write_pair(alloc, journal, disk, 2 * pair + 1) {
            Ok(_) => {}
            Err(JournalFault::Disk(_)) => return Ok(2 * pair as usize),
            Err(fault) => return Err(fault),
        }
    }
    Ok(10)
}

/// A sector, the bytes at its front, and its stamp. Between them are zeros.
pub(crate) type Sector = (u64, &'static [u8], &'static [u8; 16]);

fn hold<D: Disk>(disk: &mut D, wants: &[Sector]) -> bool {
    let mut bytes = [0; 512];
    for (sector, front, stamp) in wants {
        if disk.read(*sector, &mut bytes).is_err() || !is_laid_out(&bytes, front, *stamp) {
            return false;
        }
    }
    true
}

/// Whether of the first three sectors just those before this one hold a byte.
fn are_written_before<D: Disk>(disk: &mut D, end: u64) -> bool {
    for sector in 4..7 {
        let mut bytes = [0; 512];
        let holds_a_byte = disk.read(sector, &mut bytes).is_ok() && bytes != [0; 512];
        if holds_a_byte != (sector < end) {
            return false;
        }
    }
    true
}

/// Writes a sector of generation 1 at place 1.
fn write_payload<D: Disk>(disk: &mut D, payload: &[u8]) -> bool {
    if payload.len() > 494 {
        return false;
    }
    disk.write(4, &journal_sector(1, 1, payload)).is_ok()
}

/// What is done with a journal and its disk, and what is seen then.
#[derive(Clone, Copy)]
pub(crate) enum Step {
    /// A record of a step.
    Append(u64, Given, Count),
    Barrier(Count),
    /// A journal of this generation takes the place of the one before.
    Anew(u64, Count),
    /// The records of a generation are appended again.
    Again(u64, Count),
    /// Five pairs of requests, of which so many are acknowledged.
    Pairs(Count),
    /// The records of a generation, the first of this step.
    Scan(u64, u64, Count),
    /// A sector with these records.
    Payload(&'static [u8]),
    Holds(&'static [Sector]),
    /// The sectors before this one are written, and no other one.
    Before(u64),
    /// All reads, writes and syncs.
    Calls(u64, u64, u64),
}

/// Whether this was answered. Want of memory is no answer.
fn is_answered(answer: Count, want: &Count) -> Result<bool, JournalFault> {
    if answer == Err(JournalFault::Memory) {
        return Err(JournalFault::Memory);
    }
    Ok(answer == *want)
}

fn is_step_so<D: Disk>(
    alloc: Global,
    journal: &mut Journal,
    disk: &mut FaultDisk<D>,
    step: &Step,
) -> Result<bool, JournalFault> {
    match step {
        Step::Append(at, given, want) => is_answered(append(alloc, journal, *at, given), want),
        Step::Barrier(want) => is_answered(barrier(journal, disk), want),
        Step::Anew(generation, want) => {
            *journal = Journal::fresh(alloc, Version::One, *generation);
            is_answered(Ok(journal.room(&PLACES)), want)
        }
        Step::Again(generation, want) => {
            is_answered(append_again(alloc, journal, disk, *generation), want)
        }
        Step::Pairs(want) => is_answered(write_pairs(alloc, journal, disk), want),
        Step::Scan(generation, first, want) => {
            is_answered(scan_count(alloc, disk, *generation, *first), want)
        }
        Step::Payload(payload) => Ok(write_payload(disk, payload)),
        Step::Holds(sectors) => Ok(hold(disk, sectors)),
        Step::Before(end) => Ok(are_written_before(disk, *end)),
        Step::Calls(reads, writes, syncs) => Ok(disk.calls() == (*reads, *writes, *syncs)),
    }
}

fn is_each_so<D: Disk>(
    alloc: Global,
    journal: &mut Journal,
    disk: &mut FaultDisk<D>,
    steps: &[Step],
) -> Result<bool, JournalFault> {
    for step in steps {
        if !is_step_so(alloc, journal, disk, step)? {
            return Ok(false);
        }
    }
    Ok(true)
}

/// The same with a journal of generation 1 on an empty disk, or on what is left of one.
fn are_steps_so<D: Disk>(
    alloc: Global,
    disk: &mut FaultDisk<D>,
    steps: &[Step],
) -> Result<bool, JournalFault> {
    let mut journal = Journal::fresh(alloc, Version::One, 1);
    let are_so = is_each_so(alloc, &mut journal, disk, steps);
    drop(journal);
    are_so
}

/// A disk that stops at a call or fails one. Where the power is cut then, what is kept of each
/// write that wasn't synced.
#[derive(Clone, Copy)]
pub(crate) struct Trouble {
    pub(crate) stop: Option<FaultPoint>,
    pub(crate) fail: Option<FaultPoint>,
    pub(crate) tears: Option<&'static [u16]>,
}

/// What a cut leaves, if there is one.
fn left_of(alloc: Global, disk: MemDisk, tears: Option<&[u16]>) -> Result<MemDisk, JournalFault> {
    let Some(tears) = tears else {
        return Ok(disk);
    };
    let after_cut = disk.cut(alloc, tears);
    drop(disk);
    match after_cut {
        Ok(after_cut) => Ok(after_cut),
        Err(fault) => Err(journal_fault(fault)),
    }
}

/// Whether the steps are so on what is left of a disk.
fn are_left_so(
    alloc: Global,
    disk: MemDisk,
    tears: Option<&[u16]>,
    steps: &[Step],
) -> Result<bool, JournalFault> {
    let left = left_of(alloc, disk, tears)?;
    let mut disk = FaultDisk::new(left, None, None);
    let are_so = are_steps_so(alloc, &mut disk, steps);
    drop(disk);
    are_so
}

/// Whether the steps are so on an empty disk, and then those on what is left of it.
pub(crate) fn is_so(
    alloc: Global,
    trouble: &Trouble,
    steps: &[Step],
    then: &[Step],
) -> Result<bool, JournalFault> {
    let mut disk = faulty_disk(alloc, 20, trouble.stop, trouble.fail)?;
    let are_so = are_steps_so(alloc, &mut disk, steps);
    let are_so_then = are_left_so(alloc, disk.into_inner(), trouble.tears, then);
    Ok(are_so? && are_so_then?)
}

/// Whether the steps are so on an empty disk that lacks the last sector of the journal.
pub(crate) fn is_small_so(alloc: Global, steps: &[Step]) -> Result<bool, JournalFault> {
    let mut disk = faulty_disk(alloc, 19, None, None)?;
    let are_so = are_steps_so(alloc, &mut disk, steps);
    drop(disk);
    are_so
}

/// A call of the disk, and how many records were acknowledged before it. Then how many are kept
/// where it leaves a prefix of at most 504 bytes, and of more. With 505 bytes a sector has its
/// stamp.
type Kept = (u64, usize, usize, usize);

/// Each pair takes two writes and a sync. The second record begins in the first sector.
#[rattlefmt::skip]
static KEPT: [Kept; 16] = [
    (1, 0, 0, 1), (2, 0, 1, 2), (3, 0, 2, 2), (4, 2, 2, 3), (5, 2, 3, 4), (6, 2, 4, 4),
    (7, 4, 4, 5), (8, 4, 5, 6), (9, 4, 6, 6), (10, 6, 6, 7), (11, 6, 7, 8), (12, 6, 8, 8),
    (13, 8, 8, 9), (14, 8, 9, 10), (15, 8, 10, 10), (16, 10, 10, 10),
];

/// What is left of a write, and whether the disk stops there. Else the call fails.
#[rattlefmt::skip]
static FRONTS: [(u16, bool); 23] = [
    (0, true), (1, true), (495, true), (496, true), (497, true), (498, true), (499, true),
    (500, true), (501, true), (502, true), (503, true), (504, true), (505, true), (506, true),
    (507, true), (508, true), (509, true), (510, true), (511, true), (512, true), (0, false),
    (498, false), (512, false),
];

/// All of each write is kept.
const ALL: &[u16] = &[];

fn is_kept_so(alloc: Global, kept: &Kept, front: &(u16, bool)) -> Result<bool, JournalFault> {
    let place = Some(FaultPoint {
        call: kept.0,
        front: front.0,
    });
    let (stop, fail, tears) = if front.1 {
        (place, None, Some(ALL))
    } else {
        (None, place, None)
    };
    let trouble = Trouble { stop, fail, tears };
    let left = if front.0 <= 504 { kept.2 } else { kept.3 };
    let steps = [Step::Pairs(Ok(kept.1))];
    is_so(alloc, &trouble, &steps, &[Step::Scan(1, 1, Ok(left))])
}

/// A stop anywhere, or a failed call.
#[test]
fn what_was_acknowledged_is_kept(rt: HostRuntime) -> Result<(), JournalFault> {
    for kept in &KEPT {
        for front in &FRONTS {
            let is_so = is_kept_so(rt.alloc(), kept, front)?;
            assert_row(&rt, is_so, &(kept.0, front.0));
        }
    }
    Ok(())
}

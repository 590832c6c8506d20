//! Batches: how many calls of the disk serve their lines, and that all lines are told.

ghost use Rattle.std.specs.Prelude.{⊤};

use crate::guests::{ECHO, SECTORS, blank, requests};
use crate::halt::Halt;
use crate::rows::assert_row;
use crate::workers::working::{are_lines, create};
use record_replay::{AnswerList, LineList, Now, Source, SourceFault};
use sector_disk::{FaultDisk, MemDisk};
use std::alloc::Global;
use wasi_abi::{Answer, Question};
use worker::{Readiness, SliceFault, WorkFault, Worker};

/// Hands out the answers of a list, and then has none, or fails. Its hint is always the same.
#[derive(Drop)]
struct HintedSource {
    answers: AnswerList,
    is_ready: bool,
    does_fail: bool,
}

impl Source for HintedSource {
    ghost gives = { λ _ _ _ _. ⊤ };

    fn answer(&mut self, question: Question) -> Result<Option<Answer>, SourceFault> {
        match self.answers.answer(question) {
            Ok(Some(answer)) => Ok(Some(answer)),
            said => {
                if self.does_fail {
                    return Err(SourceFault);
                }
                said
            }
        }
    }
}

impl Readiness for HintedSource {
    fn is_ready(&self, _question: Question) -> bool {
        self.is_ready
    }
}

/// These requests of `ECHO`, which are its lines, too. After the last one it asks again. Fewer than
/// `most` lines may wait, by this hint, and the source fails in the end or not. Then the reads,
/// writes and syncs of the batch.
struct Batched {
    name: &'static str,
    texts: &'static [&'static [u8]],
    most: u64,
    is_ready: bool,
    does_fail: bool,
    calls: (u64, u64, u64),
}

const ONE: &[u8] = b"one";

/// Their three records fit into one sector of the journal.
const FEW: &[&[u8]] = &[ONE, b"two", b"three"];

/// Each record has 14 bytes, and a sector takes 494: 64 of them take two sectors, and all four.
const MANY: &[&[u8]] = &[ONE; 130];

#[rattlefmt::skip]
static BATCHES: [Batched; 9] = [
    Batched { name: "none may wait: a slice", texts: FEW, most: 1, is_ready: true, does_fail: false,
        calls: (0, 3, 3) },
    Batched { name: "a most of 0 is one of 1", texts: FEW, most: 0, is_ready: true,
        does_fail: false, calls: (0, 3, 3) },
    Batched { name: "one may wait: two, and then one", texts: FEW, most: 2, is_ready: true,
        does_fail: false, calls: (0, 2, 2) },
    Batched { name: "two may wait: all three", texts: FEW, most: 3, is_ready: true,
        does_fail: false, calls: (0, 1, 1) },
    Batched { name: "all may wait, also where the source then has none", texts: FEW, most: 64,
        is_ready: true, does_fail: false, calls: (0, 1, 1) },
    Batched { name: "the source isn't ready: none waits where it is asked", texts: FEW, most: 64,
        is_ready: false, does_fail: false, calls: (0, 3, 3) },
    Batched { name: "all may wait, also where the source then fails", texts: FEW, most: 64,
        is_ready: true, does_fail: true, calls: (0, 1, 1) },
    Batched { name: "a sync for each 64 of many", texts: MANY, most: 64, is_ready: true,
        does_fail: false, calls: (0, 5, 3) },
    Batched { name: "one sync for many", texts: MANY, most: 65_536, is_ready: true,
        does_fail: false, calls: (0, 4, 1) },
];

fn source_of(alloc: Global, batched: &Batched) -> Result<HintedSource, Halt> {
    Ok(HintedSource {
        answers: AnswerList::new(requests(alloc, batched.texts)?),
        is_ready: batched.is_ready,
        does_fail: batched.does_fail,
    })
}

/// Whether a batch ends where it waits for the next request, or by the source.
fn ends_so(said: Result<Now, WorkFault>, does_fail: bool) -> bool {
    if does_fail {
        said == Err(WorkFault::Work(SliceFault::Source))
    } else {
        said == Ok(Now::Waiting)
    }
}

/// Whether a batch ends so, with these calls, and each line is told once and in order.
fn runs_so(
    alloc: Global,
    worker: &mut Worker,
    disk: MemDisk,
    batched: &Batched,
) -> Result<bool, Halt> {
    let mut source = source_of(alloc, batched)?;
    let mut told = LineList::new(alloc);
    let mut counting = FaultDisk::new(disk, None, None);
    let said = worker.batch(&mut counting, 10_000, batched.most, &mut source, &mut told);
    let is_so = ends_so(said, batched.does_fail)
        && are_lines(&told, 1, batched.texts)
        && counting.calls() == batched.calls;
    drop(source);
    drop(told);
    drop(counting);
    Ok(is_so)
}

fn is_batched_so(alloc: Global, batched: &Batched) -> Result<bool, Halt> {
    let mut disk = blank(alloc, SECTORS)?;
    let mut worker = create(alloc, &mut disk, ECHO)?;
    let runs = runs_so(alloc, &mut worker, disk, batched);
    drop(worker);
    runs
}

/// A line waits only where it may, and where the source says that it is ready.
#[test]
fn lines_share_a_sync(rt: HostRuntime) -> Result<(), Halt> {
    for batched in &BATCHES {
        assert_row(&rt, is_batched_so(rt.alloc(), batched)?, &batched.name);
    }
    Ok(())
}

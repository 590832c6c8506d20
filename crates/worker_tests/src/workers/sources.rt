//! Sources that fail, and answers to what nobody has asked.

ghost use Rattle.std.specs.Prelude.{⊤};

use crate::guests::{ECHO, SECTORS, THREE, blank, request, requests};
use crate::halt::Halt;
use crate::rows::assert_row;
use crate::workers::working::{WorkerProgress, create, progress_of};
use record_replay::{AnswerList, LineList, Source, SourceFault};
use sector_disk::{Disk, FaultDisk, MemDisk};
use std::alloc::Global;
use wasi_abi::{Answer, Question};
use wasm_syntax::ItemList;
use worker::{SliceFault, WorkFault, Worker};

/// Hands out the answers of a list, and then fails.
#[derive(Drop)]
struct FailingSource(AnswerList);

impl Source for FailingSource {
    ghost gives = { λ _ _ _ _. ⊤ };

    fn answer(&mut self, question: Question) -> Result<Option<Answer>, SourceFault> {
        match self.0.answer(question) {
            Ok(Some(answer)) => Ok(Some(answer)),
            _ => Err(SourceFault),
        }
    }
}

/// What a source hands over in the end.
enum Last {
    Fault,
    Realtime,
    Monotonic,
    Random,
    Text(&'static [u8]),
}

/// A guest that asks for requests, those that it is given, and what it is given then. It has taken
/// so many steps.
struct Asked {
    name: &'static str,
    guest: &'static [u8],
    requests: &'static [&'static [u8]],
    last: Last,
    steps: u64,
}

#[rattlefmt::skip]
static ASKED: [Asked; 7] = [
    Asked { name: "a fault", guest: ECHO, requests: &[], last: Last::Fault, steps: 5 },
    Asked { name: "a time", guest: ECHO, requests: &[], last: Last::Realtime, steps: 5 },
    Asked { name: "a time that never falls", guest: ECHO, requests: &[], last: Last::Monotonic,
        steps: 5 },
    Asked { name: "random bytes", guest: ECHO, requests: &[], last: Last::Random, steps: 5 },
    Asked { name: "two lines", guest: ECHO, requests: &[], last: Last::Text(b"two\nlines"),
        steps: 5 },
    Asked { name: "a longer text than there may be", guest: ECHO, requests: &[],
        last: Last::Text(&[97; 4_097]), steps: 5 },
    // a record is kept by then, which is on no disk yet
    Asked { name: "a fault behind a request", guest: THREE, requests: &[b"hello"],
        last: Last::Fault, steps: 10 },
];

fn random(alloc: Global) -> Result<Answer, Halt> {
    let bytes = ItemList::from_vec(Vec::from_slice(alloc, b"hello")?);
    Ok(Answer::Random { bytes })
}

/// Appends the last answer, if there is one.
fn push_last(alloc: Global, answers: &mut Vec<Answer>, last: &Last) -> Result<(), Halt> {
    let answer = match last {
        Last::Fault => return Ok(()),
        Last::Realtime => Answer::Realtime { nanoseconds: 1 },
        Last::Monotonic => Answer::Monotonic { nanoseconds: 1 },
        Last::Random => random(alloc)?,
        Last::Text(text) => request(alloc, text)?,
    };
    answers.push(answer)?;
    Ok(())
}

fn source_of(alloc: Global, asked: &Asked) -> Result<FailingSource, Halt> {
    let mut answers = requests(alloc, asked.requests)?;
    push_last(alloc, &mut answers, &asked.last)?;
    Ok(FailingSource(AnswerList::new(answers)))
}

const FAILED: Option<WorkFault> = Some(WorkFault::Work(SliceFault::Failed));

/// What a slice says, and then each call.
static SAID: [Option<WorkFault>; 4] = [
    Some(WorkFault::Work(SliceFault::Source)),
    FAILED,
    FAILED,
    FAILED,
];

/// What four calls say, one after another.
fn say_four<D: Disk>(
    worker: &mut Worker,
    disk: &mut D,
    source: &mut FailingSource,
    told: &mut LineList,
) -> [Option<WorkFault>; 4] {
    [
        worker.slice(disk, 100, source, told).err(),
        worker.slice(disk, 100, source, told).err(),
        worker.checkpoint(disk, told).err(),
        worker.slice(disk, 0, source, told).err(),
    ]
}

/// Whether a slice fails by its source, each call after it fails too, and the disk isn't called.
fn fails_so(
    alloc: Global,
    worker: &mut Worker,
    disk: MemDisk,
    asked: &Asked,
) -> Result<bool, Halt> {
    let mut source = source_of(alloc, asked)?;
    let mut told = LineList::new(alloc);
    let mut counting = FaultDisk::new(disk, None, None);
    let said = say_four(worker, &mut counting, &mut source, &mut told);
    let is_so = said == SAID && told.lines().is_empty() && counting.calls() == (0, 0, 0);
    drop(source);
    drop(told);
    drop(counting);
    Ok(is_so)
}

/// Whether the worker is where it has asked.
fn has_asked(worker: &Worker, asked: &Asked) -> bool {
    let wanted = WorkerProgress {
        generation: 1,
        steps: asked.steps,
        answers: asked.requests.len() as u64,
        lines: 0,
        replayed: 0,
    };
    progress_of(worker) == wanted
}

fn is_failed_so(alloc: Global, asked: &Asked) -> Result<bool, Halt> {
    let mut disk = blank(alloc, SECTORS)?;
    let mut worker = create(alloc, &mut disk, asked.guest)?;
    let fails = fails_so(alloc, &mut worker, disk, asked);
    let has_asked = has_asked(&worker, asked);
    drop(worker);
    Ok(fails? && has_asked)
}

#[test]
fn faults_of_sources_leave_the_disk(rt: HostRuntime) -> Result<(), Halt> {
    for asked in &ASKED {
        assert_row(&rt, is_failed_so(rt.alloc(), asked)?, &asked.name);
    }
    Ok(())
}

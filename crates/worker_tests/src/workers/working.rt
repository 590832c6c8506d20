//! What lives do: a worker is created or recovered, runs on requests, and is saved.

use crate::guests::{config_of, requests};
use crate::halt::Halt;
use record_replay::{AnswerList, LineList, NumberedLine};
use sector_disk::{Disk, DiskFault};
use std::alloc::Global;
use wasi_calls_rules::OutputStream;
use worker::{WorkFault, Worker};

/// What befalls a life or an upgrade at a call of its disk.
#[derive(Clone, Copy)]
pub(crate) enum Mishap {
    Stop,
    Failure,
}

/// Where a worker is.
#[derive(Clone, Copy, PartialEq, Eq)]
pub(crate) struct WorkerProgress {
    pub(crate) generation: u64,
    pub(crate) steps: u64,
    pub(crate) answers: u64,
    pub(crate) lines: u64,
    pub(crate) replayed: u64,
}

pub(crate) fn progress_of(worker: &Worker) -> WorkerProgress {
    let process = worker.process();
    WorkerProgress {
        generation: worker.generation(),
        steps: process.steps(),
        answers: process.answers(),
        lines: process.lines(),
        replayed: worker.replayed(),
    }
}

/// What a worker is told to do: the requests that are there, how many steps may be taken, and
/// whether it is saved then.
pub(crate) type Work = (&'static [&'static [u8]], u64, bool);

/// Nothing at all.
pub(crate) const IDLE: Work = (&[], 0, false);

/// A fresh worker that was recovered.
pub(crate) const FRESH: WorkerProgress = WorkerProgress {
    generation: 2,
    steps: 0,
    answers: 0,
    lines: 0,
    replayed: 0,
};

/// One of `ECHO` that was recovered once it had its first answer.
pub(crate) const ANSWERED: WorkerProgress = WorkerProgress {
    steps: 6,
    answers: 1,
    replayed: 6,
    ..FRESH
};

/// A worker of this guest with one page and 64 sectors of records, on this disk.
pub(crate) fn create<D: Disk>(alloc: Global, disk: &mut D, guest: &[u8]) -> Result<Worker, Halt> {
    create_with(alloc, disk, guest, 1, 64)
}

/// A worker of this guest with so many pages and sectors of records, on this disk.
pub(crate) fn create_with<D: Disk>(
    alloc: Global,
    disk: &mut D,
    guest: &[u8],
    pages: u64,
    journal: u64,
) -> Result<Worker, Halt> {
    let settings = config_of(alloc, pages, journal)?;
    match Worker::create(alloc, disk, guest, &settings) {
        Ok(worker) => Ok(worker),
        Err(fault) => Err(Halt::from(fault)),
    }
}

/// Saves the process, where that is wanted.
fn save<D: Disk>(
    worker: &mut Worker,
    disk: &mut D,
    told: &mut LineList,
    is_saved: bool,
) -> Result<(), Halt> {
    if !is_saved {
        return Ok(());
    }
    match worker.checkpoint(disk, told) {
        Ok(()) => Ok(()),
        Err(fault) => Err(Halt::from(fault)),
    }
}

/// Runs a slice on these answers, and saves the process where that is wanted.
fn run<D: Disk>(
    worker: &mut Worker,
    disk: &mut D,
    work: &Work,
    source: &mut AnswerList,
    told: &mut LineList,
) -> Result<(), Halt> {
    match worker.slice(disk, work.1, source, told) {
        Ok(_now) => save(worker, disk, told, work.2),
        Err(fault) => Err(Halt::from(fault)),
    }
}

/// Does the work, and puts the lines to those that were told.
pub(crate) fn work_on<D: Disk>(
    alloc: Global,
    worker: &mut Worker,
    disk: &mut D,
    work: &Work,
    told: &mut LineList,
) -> Result<(), Halt> {
    let mut source = AnswerList::new(requests(alloc, work.0)?);
    let worked = run(worker, disk, work, &mut source, told);
    drop(source);
    worked
}

/// A life of the worker that the disk stands for. What it opens with; the lines of its recovery and
/// those after that are put to the two lists.
pub(crate) fn live_on<D: Disk>(
    alloc: Global,
    disk: &mut D,
    told: &mut LineList,
    work: &Work,
    told_then: &mut LineList,
) -> Result<WorkerProgress, Halt> {
    match Worker::recover(alloc, disk, told) {
        Ok(mut worker) => {
            let opens = progress_of(&worker);
            let worked = work_on(alloc, &mut worker, disk, work, told_then);
            drop(worker);
            worked?;
            Ok(opens)
        }
        Err(fault) => Err(Halt::from(fault)),
    }
}

fn open_with<D: Disk>(
    alloc: Global,
    disk: &mut D,
    told: &mut LineList,
) -> Result<WorkerProgress, Halt> {
    match Worker::recover(alloc, disk, told) {
        Ok(worker) => {
            let opens = progress_of(&worker);
            drop(worker);
            Ok(opens)
        }
        Err(fault) => Err(Halt::from(fault)),
    }
}

/// What a life opens with that does nothing.
pub(crate) fn open<D: Disk>(alloc: Global, disk: &mut D) -> Result<WorkerProgress, Halt> {
    let mut told = LineList::new(alloc);
    let opens = open_with(alloc, disk, &mut told);
    drop(told);
    opens
}

/// Whether a life was stopped. It ends so, or by itself.
pub(crate) fn was_stopped(worked: Result<(), Halt>) -> Result<bool, Halt> {
    match worked {
        Ok(()) => Ok(false),
        Err(Halt::Work(WorkFault::Disk(DiskFault::Cut))) => Ok(true),
        Err(halt) => Err(halt),
    }
}

/// Whether the line is one of the output and has the text of its number, from 1 on.
fn has_its_text(line: &NumberedLine, texts: &[&[u8]]) -> bool {
    let Some(place) = line.number.checked_sub(1) else {
        return false;
    };
    match texts.get(place as usize) {
        Some(text) => line.stream == OutputStream::Stdout && line.text.as_slice() == *text,
        None => false,
    }
}

/// Whether each line has the text of its number, and each text was told, where those before it
/// were told before.
pub(crate) fn are_all_told(told: &LineList, texts: &[&[u8]]) -> bool {
    let mut count = 0;
    for line in told.lines() {
        if !has_its_text(line, texts) || line.number.saturating_sub(1) > count {
            return false;
        }
        count = line.number.max(count);
    }
    count == texts.len() as u64
}

/// Whether just these lines of the output were told, the first one with this number.
pub(crate) fn are_lines(told: &LineList, first: u64, texts: &[&[u8]]) -> bool {
    let lines = told.lines();
    if lines.len() != texts.len() {
        return false;
    }
    let mut number = first;
    for (line, text) in lines.iter().zip(texts) {
        let is_output = line.stream == OutputStream::Stdout;
        if line.number != number || !is_output || line.text.as_slice() != *text {
            return false;
        }
        number = number.saturating_add(1);
    }
    true
}

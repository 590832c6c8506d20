//! Lives that tests put together, and what is told of them.

use crate::guests::requests;
use crate::halt::Halt;
use sector_disk::FaultPoint;
use std::alloc::Global;
use wasi_abi::{Answer, Config};
use wasi_calls_rules::OutputStream;
use wasm_syntax::ItemList;
use worker::story::{LifeEnd, LifeReport, Opening, PlannedAct, PlannedLife, Report, story};

/// A life: requests and a time that it is given, and what the worker is told to do. Where it is
/// stopped, where its disk fails, the release that is refused, and the fronts that a cut keeps.
#[derive(Clone, Copy)]
pub(crate) struct Plan {
    pub(crate) requests: &'static [&'static [u8]],
    pub(crate) time: Option<u64>,
    pub(crate) acts: &'static [PlannedAct],
    pub(crate) stop: Option<FaultPoint>,
    pub(crate) fail: Option<FaultPoint>,
    pub(crate) refuse: Option<u64>,
    pub(crate) tears: &'static [u16],
}

/// Up to the line of the first request.
pub(crate) const FIRST: Plan = Plan {
    requests: &[b"hello"],
    time: None,
    acts: &[PlannedAct::Slice { fuel: 20 }],
    stop: None,
    fail: None,
    refuse: None,
    tears: &[],
};

/// The same with another request.
pub(crate) const OTHER: Plan = Plan {
    requests: &[b"world"],
    ..FIRST
};

/// From the answer to its line.
pub(crate) const TELLS: Plan = Plan {
    requests: &[],
    acts: &[PlannedAct::Slice { fuel: 14 }],
    ..FIRST
};

/// No step at all.
pub(crate) const IDLE: Plan = Plan {
    requests: &[],
    acts: &[PlannedAct::Slice { fuel: 0 }],
    ..FIRST
};

/// How a life was opened: its generation, steps, answers and lines, or 0 for the generation of one
/// that was not opened. One that was created is of generation 1. Then how it ended, and its only
/// line, number 1 of stdout. An empty one stands for none.
pub(crate) struct Told {
    pub(crate) opened: [u64; 4],
    pub(crate) ended: LifeEnd,
    pub(crate) line: &'static [u8],
}

/// A worker was created, and told its first line.
pub(crate) const CREATED: Told = Told {
    opened: [1, 0, 0, 0],
    ended: LifeEnd::Finished,
    line: b"hello",
};

/// The request was on record, and its line is told again.
pub(crate) const AGAIN: Told = Told {
    opened: [2, 6, 1, 0],
    ended: LifeEnd::Finished,
    line: b"hello",
};

/// What is told of lives.
pub(crate) enum AllTold {
    /// So much of each, one after another, and no other one is told.
    Each(&'static [Told]),
    /// The generation with which the second one was opened.
    Second(u64),
    /// So many lives, of which each ended by an error before its stop, was not opened, and told
    /// nothing.
    Shut(usize),
}

/// Lives of a guest, and what is told of them.
pub(crate) struct Tale {
    pub(crate) name: &'static str,
    pub(crate) guest: &'static [u8],
    pub(crate) plans: &'static [Plan],
    pub(crate) told: AllTold,
}

/// What the source of a life hands out: requests, and a time behind them where one is planned.
fn answers_of(alloc: Global, plan: &Plan) -> Result<ItemList<Answer>, Halt> {
    let mut answers = requests(alloc, plan.requests)?;
    if let Some(nanoseconds) = plan.time {
        answers.push(Answer::Realtime { nanoseconds })?;
    }
    Ok(ItemList::from_vec(answers))
}

fn life_of(alloc: Global, plan: &Plan) -> Result<PlannedLife, Halt> {
    let acts = ItemList::from_vec(Vec::from_slice(alloc, plan.acts)?);
    let tears = ItemList::from_vec(Vec::from_slice(alloc, plan.tears)?);
    let answers = answers_of(alloc, plan)?;
    Ok(PlannedLife {
        answers,
        acts,
        stop: plan.stop,
        fail: plan.fail,
        refuse: plan.refuse,
        tears,
    })
}

fn push_lives(
    alloc: Global,
    lives: &mut ItemList<PlannedLife>,
    plans: &[Plan],
) -> Result<(), Halt> {
    for plan in plans {
        lives.push(life_of(alloc, plan)?)?;
    }
    Ok(())
}

/// What is told of these lives of a module, with a page, a unit of files and a journal of 64
/// sectors.
fn told_of(alloc: Global, wasm: &[u8], lives: &[PlannedLife]) -> Result<Report, Halt> {
    let config = Config::new(1, 1, 64, ItemList::new(alloc), ItemList::new(alloc))?;
    let told = story(alloc, wasm, &config, lives);
    drop(config);
    Ok(told?)
}

/// What is told of the lives of these plans.
pub(crate) fn report_of(alloc: Global, guest: &[u8], plans: &[Plan]) -> Result<Report, Halt> {
    let mut lives = ItemList::new(alloc);
    push_lives(alloc, &mut lives, plans)?;
    let told = told_of(alloc, guest, lives.as_slice());
    drop(lives);
    told
}

/// How a life was opened, as `Told` has it.
fn opened_as(life: &LifeReport) -> [u64; 4] {
    match &life.opened {
        Opening::Created { process_image: _ } => [1, 0, 0, 0],
        Opening::Recovered {
            generation,
            steps,
            answers,
            lines,
            process_image: _,
        } => [*generation, *steps, *answers, *lines],
        Opening::Unopened => [0, 0, 0, 0],
    }
}

fn tells_only(life: &LifeReport, text: &[u8]) -> bool {
    let lines = life.releases.lines();
    lines.len() == 1
        && lines.iter().all(|line| {
            line.number == 1 && line.stream == OutputStream::Stdout && line.text.as_slice() == text
        })
}

/// Whether a life told nothing.
fn tells_nothing(life: &LifeReport) -> bool {
    life.releases.lines().is_empty()
}

fn is_told_so(life: &LifeReport, told: &Told) -> bool {
    let has_line = if told.line.is_empty() {
        tells_nothing(life)
    } else {
        tells_only(life, told.line)
    };
    opened_as(life) == told.opened && life.ended == told.ended && has_line
}

/// Whether each of these lives is told so, one after another, and no other one is told.
pub(crate) fn are_told_so(report: &Report, told: &[Told]) -> bool {
    let lives = report.lives.as_slice();
    if lives.len() != told.len() {
        return false;
    }
    for (life, told) in lives.iter().zip(told) {
        if !is_told_so(life, told) {
            return false;
        }
    }
    true
}

/// Whether the second life was opened in this generation.
fn is_second(report: &Report, generation: u64) -> bool {
    match report.lives.get(1) {
        Some(life) => opened_as(life)[0] == generation,
        None => false,
    }
}

fn is_shut(life: &LifeReport) -> bool {
    match &life.ended {
        LifeEnd::Failed(_) => opened_as(life) == [0, 0, 0, 0] && tells_nothing(life),
        _ => false,
    }
}

fn are_shut(report: &Report, count: usize) -> bool {
    report.lives.len() == count && report.lives.as_slice().iter().all(is_shut)
}

/// Whether the lives are told so.
pub(crate) fn is_told(alloc: Global, tale: &Tale) -> Result<bool, Halt> {
    let report = report_of(alloc, tale.guest, tale.plans)?;
    let is_told = match &tale.told {
        AllTold::Each(told) => are_told_so(&report, told),
        AllTold::Second(generation) => is_second(&report, *generation),
        AllTold::Shut(count) => are_shut(&report, *count),
    };
    drop(report);
    Ok(is_told)
}

//! A stop, a failure and a refusal wherever a life may meet one.

use crate::guests::ECHO;
use crate::halt::Halt;
use crate::rows::assert_row;
use crate::stories::lives::{Plan, report_of};
use crate::workers::working::Mishap;
use sector_disk::FaultPoint;
use std::alloc::Global;
use std::process::Abort;
use worker::story::{LifeEnd, LifeReport, Opening, PlannedAct, Report};

/// A sync and a read find no worker. A creation has 198 writes and 6 syncs. Each of two lines has a
/// write and a sync, and the checkpoint has 129 reads, 3 writes and 2 syncs.
const CALLS: u64 = 344;

/// Fronts of a write that end before its stamp, and all of the write.
static OUTSIDE: [u16; 5] = [0, 1, 495, 496, 512];

/// Fronts that end early in the stamp.
static EARLY: [u16; 5] = [497, 498, 499, 500, 501];

/// Fronts that end amid the stamp.
static AMID: [u16; 5] = [502, 503, 504, 505, 506];

/// Fronts that end late in the stamp.
static LATE: [u16; 5] = [507, 508, 509, 510, 511];

/// Two requests, all steps up to the second line, and a checkpoint.
const BUSY: Plan = Plan {
    requests: &[b"hello", b"again"],
    time: None,
    acts: &[PlannedAct::Slice { fuel: 42 }, PlannedAct::Checkpoint],
    stop: None,
    fail: None,
    refuse: None,
    tears: &[],
};

/// A life that opens, and does nothing.
const UNUSED: Plan = Plan {
    requests: &[],
    acts: &[],
    ..BUSY
};

/// How many answers a life opened with: a created one with none.
fn answers_of(life: &LifeReport) -> Option<u64> {
    match &life.opened {
        Opening::Created { process_image: _ } => Some(0),
        Opening::Recovered {
            generation: _,
            steps: _,
            answers,
            lines: _,
            process_image: _,
        } => Some(*answers),
        Opening::Unopened => None,
    }
}

/// Whether the second life opens with the answers behind each line that the first one has begun,
/// and with no more than there are.
fn opens_behind(first: &LifeReport, second: &LifeReport) -> bool {
    match answers_of(second) {
        Some(answers) => first.releases.lines().len() as u64 <= answers && answers <= 2,
        None => false,
    }
}

/// How the first life ended, where the second one opened as it must.
fn end_told(report: &Report) -> Option<LifeEnd> {
    let first = report.lives.get(0)?;
    let second = report.lives.get(1)?;
    if opens_behind(first, second) {
        Some(first.ended)
    } else {
        None
    }
}

/// Whether a life has ended by its stop, where it has one, and else by an error.
fn has_ended_so(plan: &Plan, ended: Option<LifeEnd>) -> bool {
    match ended {
        Some(LifeEnd::Stopped) => plan.stop.is_some(),
        Some(LifeEnd::Failed(_)) => plan.stop.is_none(),
        _ => false,
    }
}

/// Whether such a life ends so, and an empty one after it opens as it must.
fn ends_so(alloc: Global, plan: Plan) -> Result<bool, Halt> {
    let report = report_of(alloc, ECHO, &[plan, UNUSED])?;
    let ended = end_told(&report);
    drop(report);
    Ok(has_ended_so(&plan, ended))
}

/// The busy life, which meets with a mishap there.
fn plan_of(mishap: Mishap, place: FaultPoint) -> Plan {
    match mishap {
        Mishap::Stop => Plan {
            stop: Some(place),
            ..BUSY
        },
        Mishap::Failure => Plan {
            fail: Some(place),
            ..BUSY
        },
    }
}

/// Each call, and each of these fronts: the next life opens as it must.
fn lose_nothing(
    rt: &impl Abort,
    alloc: Global,
    mishap: Mishap,
    fronts: &[u16; 5],
) -> Result<(), Halt> {
    for call in 1..=CALLS {
        for front in fronts {
            let place = FaultPoint {
                call,
                front: *front,
            };
            assert_row(rt, ends_so(alloc, plan_of(mishap, place))?, &place);
        }
    }
    Ok(())
}

#[test]
fn stops_outside_of_a_stamp_lose_nothing(rt: HostRuntime) -> Result<(), Halt> {
    lose_nothing(&rt, rt.alloc(), Mishap::Stop, &OUTSIDE)
}

#[test]
fn stops_early_in_a_stamp_lose_nothing(rt: HostRuntime) -> Result<(), Halt> {
    lose_nothing(&rt, rt.alloc(), Mishap::Stop, &EARLY)
}

#[test]
fn stops_amid_a_stamp_lose_nothing(rt: HostRuntime) -> Result<(), Halt> {
    lose_nothing(&rt, rt.alloc(), Mishap::Stop, &AMID)
}

#[test]
fn stops_late_in_a_stamp_lose_nothing(rt: HostRuntime) -> Result<(), Halt> {
    lose_nothing(&rt, rt.alloc(), Mishap::Stop, &LATE)
}

#[test]
fn failures_outside_of_a_stamp_lose_nothing(rt: HostRuntime) -> Result<(), Halt> {
    lose_nothing(&rt, rt.alloc(), Mishap::Failure, &OUTSIDE)
}

#[test]
fn failures_early_in_a_stamp_lose_nothing(rt: HostRuntime) -> Result<(), Halt> {
    lose_nothing(&rt, rt.alloc(), Mishap::Failure, &EARLY)
}

#[test]
fn failures_amid_a_stamp_lose_nothing(rt: HostRuntime) -> Result<(), Halt> {
    lose_nothing(&rt, rt.alloc(), Mishap::Failure, &AMID)
}

#[test]
fn failures_late_in_a_stamp_lose_nothing(rt: HostRuntime) -> Result<(), Halt> {
    lose_nothing(&rt, rt.alloc(), Mishap::Failure, &LATE)
}

/// The busy life, where one of its two lines is refused.
#[rattlefmt::skip]
static REFUSALS: [Plan; 2] = [Plan { refuse: Some(1), ..BUSY }, Plan { refuse: Some(2), ..BUSY }];

/// Each of two lines refused: the next life has the answers behind each line that was begun.
#[test]
fn lives_open_after_a_refused_line(rt: HostRuntime) -> Result<(), Halt> {
    for plan in &REFUSALS {
        assert_row(&rt, ends_so(rt.alloc(), *plan)?, &plan.refuse);
    }
    Ok(())
}

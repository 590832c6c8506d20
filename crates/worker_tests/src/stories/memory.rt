//! Want of memory: each allocation of a story may be refused.

use crate::guests::ECHO;
use crate::halt::Halt;
use crate::rows::assert_row;
use crate::stories::lives::{AGAIN, CREATED, FIRST, Plan, TELLS, Told, are_told_so, report_of};
use sector_disk::DiskFault;
use std::alloc::Global;
use worker::story::{LifeEnd, LifeReport, Report};
use worker::{RecoverFault, WorkFault};

/// What is told of a life whose disk wants memory.
const DISK_STARVED: RecoverFault = RecoverFault::Worker(WorkFault::Disk(DiskFault::Memory));

/// Whether a life ended because its disk or some layer was out of memory.
fn has_starved(life: &LifeReport) -> bool {
    match life.ended {
        LifeEnd::Failed(why) => why == DISK_STARVED || why.is_want_of_memory(),
        LifeEnd::Finished | LifeEnd::Stopped => false,
    }
}

/// A worker tells a line, and tells it again in its second life.
static TWO: [Plan; 2] = [FIRST, TELLS];

static TOLD: [Told; 2] = [CREATED, AGAIN];

/// Whether all lives with memory came to their end, and told their lines where none was without.
fn is_told_with_memory(report: &Report) -> Result<bool, Halt> {
    let lives = report.lives.as_slice();
    if !lives.iter().all(|life| has_starved(life) || life.ended == LifeEnd::Finished) {
        return Ok(false);
    }
    if lives.iter().any(has_starved) {
        return Err(Halt::Memory);
    }
    Ok(are_told_so(report, &TOLD))
}

fn are_both_told(alloc: Global) -> Result<bool, Halt> {
    let report = report_of(alloc, ECHO, &TWO)?;
    let is_told = is_told_with_memory(&report);
    drop(report);
    is_told
}

/// `scripts/runs/refused-allocations` refuses each allocation in turn. Then there is no report, or
/// one of the lives has ended out of memory, and the other one as it should.
#[test]
fn a_story_with_memory(rt: HostRuntime) -> Result<(), Halt> {
    assert_row(&rt, are_both_told(rt.alloc())?, &"two lives");
    Ok(())
}

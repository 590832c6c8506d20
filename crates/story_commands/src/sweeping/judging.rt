//! Whether lives were run as the run without a cut was.

ghost use Rattle.std.specs.Prelude.{◌≡◌, IfErr, IfNone, IfOk, IfSome, Some, drop, take, true};
ghost use Rattle.std.specs.List.{All};
ghost use Rattle.worker.specs.declared.story.report.LifeEnd.TheVariants.{Stopped};
ghost use Rattle.story_commands.specs.declared.sweeping.fault.SweepFault.TheVariants.{Memory};
ghost use Rattle.story_commands.specs.rules.Sweeps.{HasDoneAll, end_at, front_left, was_opened};
ghost use Rattle.story_commands.specs.laws.CutRuns.{AgreesWith};

use crate::sweeping::fault::SweepFault;
use crate::sweeping::giving::given_to;
use crate::sweeping::texts::{begin_with, texts_of};
use record_replay::NumberedLine;
use std::alloc::Global;
use worker::story::{LifeEnd, LifeReport, Opening};

/// Whether a life was opened.
pub(super) fn was_opened(opened: &Opening) -> bool
    ensures { result ≡ was_opened opened.now }
{
    match opened {
        Opening::Created { .. } | Opening::Recovered { .. } => true,
        Opening::Unopened => false,
    }
}

/// Whether a life was opened and has done all that it was told.
fn has_finished(report: &LifeReport) -> bool
    ensures { result ≡ true → HasDoneAll report.now }
{
    match report.ended {
        LifeEnd::Finished => was_opened(&report.opened),
        LifeEnd::Stopped | LifeEnd::Failed(_) => false,
    }
}

/// The place of the first of these lives that wasn't opened or hasn't done all that it was told.
pub(super) fn unfinished(reports: &[LifeReport]) -> Option<usize>
    ensures all { IfNone result (All HasDoneAll reports.now) }
    ensures first { IfSome result (λ place. All HasDoneAll (take place reports.now)) }
{
    let mut place = 0;
    for report in reports {
        if !has_finished(report) {
            return Some(place);
        }
        place += 1;
    }
    None
}

/// Whether the power was cut in the life at this place.
pub(super) fn is_stopped(reports: &[LifeReport], place: usize) -> bool
    ensures { result ≡ true → end_at place reports.now ≡ Some Stopped }
{
    match reports.get(place) {
        Some(report) => match report.ended {
            LifeEnd::Stopped => true,
            LifeEnd::Finished | LifeEnd::Failed(_) => false,
        },
        None => false,
    }
}

/// Whether the stop of the life at this place has left a front of a write, if there is that life.
pub(super) fn front_left(reports: &[LifeReport], place: usize) -> Option<bool>
    ensures { result ≡ front_left place reports.now }
{
    match reports.get(place) {
        Some(report) => Some(report.has_torn_front),
        None => None,
    }
}

/// What was told of the lives before this place.
pub(super) fn lives_before(reports: &[LifeReport], place: usize) -> &[LifeReport]
    ensures { result.now ≡ take place reports.now }
{
    &reports[..place.min(reports.len())]
}

/// What was told of the lives from this place on.
pub(super) fn lives_from(reports: &[LifeReport], place: usize) -> &[LifeReport]
    ensures { result.now ≡ drop place reports.now }
{
    &reports[place.min(reports.len())..]
}

/// Whether the lives from this place on did all that they were told, the first one by a worker that
/// was given so many answers, and all lines begin with these. The lines are also those of the lives
/// before all of these.
pub(super) fn agrees(
    alloc: Global,
    texts: &[NumberedLine],
    before: &[LifeReport],
    place: usize,
    given: u64,
    reports: &[LifeReport],
) -> Result<bool, SweepFault>
    ensures agrees { IfOk result (λ is. is ≡ true
        → AgreesWith texts.now before.now place given reports.now) }
    ensures failed { IfErr result (λ fault. fault ≡ Memory) }
{
    match given_to(reports, place) {
        Some(count) if count == given => {}
        _ => return Ok(false),
    }
    if unfinished(lives_from(reports, place)).is_some() {
        return Ok(false);
    }
    match texts_of(alloc, before, reports)? {
        Some(found) => Ok(begin_with(found.lines(), texts)),
        None => Ok(false),
    }
}

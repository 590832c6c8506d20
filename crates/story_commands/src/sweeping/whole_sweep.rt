//! A whole sweep.

ghost use Rattle.std.specs.Prelude.{◌≡◌, ◌<◌, [], IfErr, IfOk, IfSome, Some, length, take};
ghost use Rattle.worker.specs.Going.{HaveStarted};
ghost use Rattle.worker.specs.declared.story.report.LifeEnd.TheVariants.{Failed};
ghost use Rattle.story_commands.specs.rules.Sweeps.{IsSwept, end_at};
ghost use Rattle.story_commands.specs.laws.CutRuns.{HeedsProgress, IsFoundFirst, IsPlainRun};
ghost use Rattle.story_commands.specs.laws.CutRuns.{IsPlainUpTo, IsPlanFault, IsSweepFault};
ghost use Rattle.story_commands.specs.laws.CutRuns.{CallsBegun, IsSweepOf, IsToldPlain};

use crate::sweeping::calling::sweep_calls;
use crate::sweeping::cutting::Sweep;
use crate::sweeping::fault::SweepFault;
use crate::sweeping::judging::{lives_before, lives_from, unfinished, was_opened};
use crate::sweeping::planning::{SweptPart, and_idle};
use crate::sweeping::running::{HaltedRun, RunLives, Runner};
use crate::sweeping::taking::test_taken;
use crate::sweeping::texts::texts_of;
use crate::sweeping::upgrading::find_before;
use command_words::Printer;
use record_replay::NumberedLine;
use std::alloc::Global;
use std::io::Write;
use wasi_abi::Config;
use worker::RecoverFault;
use worker::story::{LifeEnd, LifeReport, PlannedLife, StoryStart};

/// What is to be swept.
#[derive(Clone, Copy)]
pub(crate) struct SweepJob<'a> {
    pub(crate) wasm: &'a [u8],
    pub(crate) config: &'a Config,
    pub(crate) lives: &'a [PlannedLife],
    /// The place of the life whose calls are cut, from 0 on.
    pub(crate) place: usize,
    /// What a cut leaves of a write, in bytes.
    pub(crate) fronts: &'a [u16],
}

/// How many cuts were run, and how many lines the run without a cut has told.
#[derive(Clone, Copy, Debug, PartialEq, Eq)]
pub(crate) struct Swept {
    pub(crate) cuts: u64,
    pub(crate) lines: u64,
}

/// By which error a life has ended, if it was opened.
fn error_of(report: &LifeReport) -> Option<RecoverFault>
    ensures { IfSome result (λ why. report.now.ended ≡ Failed why) }
{
    if !was_opened(&report.opened) {
        return None;
    }
    match report.ended {
        LifeEnd::Failed(why) => Some(why),
        LifeEnd::Finished | LifeEnd::Stopped => None,
    }
}

/// The same of the life at this place, if it is one of so many.
fn error_at(reports: &[LifeReport], place: usize, count: usize) -> Option<RecoverFault>
    ensures failed { IfSome result (λ why. end_at place reports.now ≡ Some (Failed why)) }
    ensures within { IfSome result (λ _. place < count) }
{
    if place >= count {
        return None;
    }
    match reports.get(place) {
        Some(report) => error_of(report),
        None => None,
    }
}

/// Why lives that were run without a cut can't be swept. The one at this place is the first that
/// wasn't opened or hasn't done all that it was told.
fn plan_fault(job: &SweepJob<'_>, run: RunLives, place: usize) -> SweepFault
    requires { IsPlainUpTo job.now.wasm.now job.now.config.now job.now.lives.now run place }
    ensures { IsPlanFault job.now.wasm.now job.now.config.now job.now.lives.now result }
{
    match error_at(run.reports.as_slice(), place, job.lives.len()) {
        Some(why) => SweepFault::Plan {
            number: place as u64 + 1,
            why,
        },
        None => SweepFault::Differs { run },
    }
}

/// The lives that were run without a cut, and what those before the swept one have left.
#[derive(Drop)]
struct PlainRun {
    run: RunLives,
    start: StoryStart,
}

/// Runs the lives without a cut.
fn run_plain(runner: &mut Runner, job: &SweepJob<'_>) -> Result<PlainRun, SweepFault>
    requires { job.now.place < length job.now.lives.now }
    ensures run { IfOk result (λ plain. IsPlainRun job.now.wasm.now job.now.config.now
        job.now.lives.now plain.run) }
    ensures start { IfOk result (λ plain. HaveStarted job.now.wasm.now job.now.config.now
        (take job.now.place job.now.lives.now) (take job.now.place plain.run.reports)
        plain.start) }
    ensures failed { IfErr result (IsPlanFault job.now.wasm.now job.now.config.now
        job.now.lives.now) }
{
    let lives = and_idle(runner.alloc, job.lives)?;
    let HaltedRun { run, start } = runner.run_with_start(job.wasm, job.config, lives, job.place)?;
    if let Some(place) = unfinished(run.reports.as_slice()) {
        return Err(plan_fault(job, run, place));
    }
    match start {
        Some(start) => Ok(PlainRun { run, start }),
        None => Err(SweepFault::Differs { run }),
    }
}

/// How many calls were begun in the life at this place.
fn calls_at(reports: &[LifeReport], place: usize) -> Option<u64>
    ensures { IfSome result (CallsBegun reports.now place) }
{
    match reports.get(place) {
        Some(report) => Some(report.calls),
        None => None,
    }
}

/// What is swept, with so many answers before an upgrade that is done again.
fn sweep_of<'a>(
    job: &SweepJob<'a>,
    plain: &'a PlainRun,
    texts: &'a [NumberedLine],
    before: u64,
) -> Sweep<'a>
    requires { job.now.place < length job.now.lives.now }
    ensures of { IsSweepOf job.now.wasm.now job.now.config.now job.now.lives.now job.now.place
        plain.entry.now.run.reports result }
    ensures start { result.start.now ≡ plain.entry.now.start }
    ensures texts { result.texts.now ≡ texts.entry.now }
{
    let reports = plain.run.reports.as_slice();
    Sweep {
        wasm: job.wasm,
        config: job.config,
        part: SweptPart {
            earlier: &job.lives[..job.place],
            told_before: lives_before(reports, job.place),
            swept: &job.lives[job.place..],
            told: lives_from(reports, job.place),
            before,
        },
        start: &plain.start,
        texts,
    }
}

/// Runs the lives with each cut of one of them, which has begun so many calls without a cut. Before
/// that each life has to take all answers that the script has for it.
fn sweep_plain<E: Write + Drop>(
    runner: &mut Runner,
    job: &SweepJob<'_>,
    plain: &PlainRun,
    texts: &[NumberedLine],
    calls: u64,
    err: &mut Printer<E>,
) -> Result<Option<Swept>, SweepFault>
    requires place { job.now.place < length job.now.lives.now }
    requires told { IsToldPlain job.now.wasm.now job.now.config.now job.now.lives.now
        job.now.place plain.now.run texts.now calls }
    requires start { HaveStarted job.now.wasm.now job.now.config.now
        (take job.now.place job.now.lives.now) (take job.now.place plain.now.run.reports)
        plain.now.start }
    ensures swept { IfOk result (λ o. IfSome o (λ swept. IsSwept job.now.wasm.now
        job.now.config.now job.now.lives.now job.now.place job.now.fronts.now swept.cuts
        swept.lines)) }
    ensures failed { IfErr result (IsSweepFault job.now.wasm.now job.now.config.now
        job.now.lives.now job.now.place) }
    ensures heeded { HeedsProgress result err.old err.new }
    ensures quiet { IfErr result (λ fault. IsFoundFirst fault → err.new ≡ err.old) }
{
    test_taken(runner, job.wasm, job.config, job.lives)?;
    let before = find_before(runner, &sweep_of(job, plain, texts, 0))?;
    let sweep = sweep_of(job, plain, texts, before);
    match sweep_calls(runner, &sweep, job.fronts, calls, err)? {
        Some(cuts) => Ok(Some(Swept {
            cuts,
            lines: texts.len() as u64,
        })),
        None => Ok(None),
    }
}

/// Runs the lives without a cut, and then with each cut of one of them. A person is shown on `err`
/// how far it has come. Answers none where that can't be written.
pub(crate) fn sweep_lives<E: Write + Drop>(
    alloc: Global,
    job: &SweepJob<'_>,
    err: &mut Printer<E>,
) -> Result<Option<Swept>, SweepFault>
    requires { job.now.place < length job.now.lives.now }
    ensures swept { IfOk result (λ o. IfSome o (λ swept. IsSwept job.now.wasm.now
        job.now.config.now job.now.lives.now job.now.place job.now.fronts.now swept.cuts
        swept.lines)) }
    ensures failed { IfErr result (IsSweepFault job.now.wasm.now job.now.config.now
        job.now.lives.now job.now.place) }
    ensures heeded { HeedsProgress result err.old err.new }
    ensures quiet { IfErr result (λ fault. IsFoundFirst fault → err.new ≡ err.old) }
{
    let mut runner = Runner::new(alloc);
    let plain = run_plain(&mut runner, job)?;
    let Some(texts) = texts_of(alloc, &[], plain.run.reports.as_slice())? else {
        return Err(SweepFault::Differs { run: plain.run });
    };
    let Some(calls) = calls_at(plain.run.reports.as_slice(), job.place) else {
        return Err(SweepFault::Differs { run: plain.run });
    };
    sweep_plain(&mut runner, job, &plain, texts.lines(), calls, err)
}

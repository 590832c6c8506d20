//! All cuts of a life, call by call.

ghost use Rattle.std.specs.Prelude.{◌≡◌, ◌+◌, IfErr, IfOk, IfSome, OnErr, OnOk, length, map, true};
ghost use Rattle.std.specs.List.{All};
ghost use Rattle.story_commands.specs.rules.Sweeps.{SomeCut, cut_point};
ghost use Rattle.story_commands.specs.laws.CutRuns.{HasAgreed, HaveAgreed, HeedsProgress};
ghost use Rattle.story_commands.specs.laws.CutRuns.{IsCutFault, IsStarted, IsSweptAt};

use crate::sweeping::cutting::{MadeCut, Sweep, try_cut};
use crate::sweeping::fault::SweepFault;
use crate::sweeping::running::Runner;
use command_words::Printer;
use sector_disk::FaultPoint;
use std::io::{self, Write};

/// How far a sweep has come.
#[derive(Clone, Copy)]
pub(super) struct CutProgress {
    /// How many cuts were made.
    pub(super) cuts: u64,
    /// The newest of them.
    pub(super) newest: MadeCut,
}

/// One cut more.
fn step(
    runner: &mut Runner,
    sweep: &Sweep<'_>,
    point: FaultPoint,
    so_far: CutProgress,
) -> Result<CutProgress, SweepFault>
    requires { IsStarted sweep.now }
    ensures agrees { IfOk result (λ now. IsSweptAt sweep.now point now.newest.in_write
        × (now.cuts ≡ so_far.cuts + 1)) }
    ensures failed { IfErr result (IsCutFault sweep.now point.call) }
{
    let newest = try_cut(runner, sweep, point, so_far.newest.given)?;
    match so_far.cuts.checked_add(1) {
        Some(cuts) => Ok(CutProgress { cuts, newest }),
        None => Err(SweepFault::Memory),
    }
}

/// The cuts of one call, with each of these fronts.
fn sweep_fronts(
    runner: &mut Runner,
    sweep: &Sweep<'_>,
    fronts: &[u16],
    call: u64,
    so_far: CutProgress,
) -> Result<CutProgress, SweepFault>
    requires { IsStarted sweep.now }
    ensures agree { IfOk result (λ now. All (SomeCut (IsSweptAt sweep.now))
        (map (cut_point call) fronts.now) × (now.cuts ≡ so_far.cuts + length fronts.now)) }
    ensures failed { IfErr result (IsCutFault sweep.now call) }
{
    let mut now = so_far;
    for front in fronts {
        let point = FaultPoint {
            call,
            front: *front,
        };
        now = step(runner, sweep, point, now)?;
    }
    Ok(now)
}

/// The cuts of one call, with each of these fronts if it is a write. Any other call leaves no
/// front, so it is cut once.
fn sweep_call(
    runner: &mut Runner,
    sweep: &Sweep<'_>,
    fronts: &[u16],
    call: u64,
    so_far: CutProgress,
) -> Result<CutProgress, SweepFault>
    requires { IsStarted sweep.now }
    ensures agree { IfOk result (λ now. HasAgreed sweep.now call fronts.now so_far.cuts now.cuts) }
    ensures failed { IfErr result (IsCutFault sweep.now call) }
{
    let Some((first, others)) = fronts.split_first() else {
        return Ok(so_far);
    };
    let point = FaultPoint {
        call,
        front: *first,
    };
    let now = step(runner, sweep, point, so_far)?;
    if !now.newest.in_write {
        return Ok(now);
    }
    sweep_fronts(runner, sweep, others, call, now)
}

/// Shows a person how many calls were swept.
fn show_progress<E: Write + Drop>(err: &mut Printer<E>, call: u64, calls: u64) -> io::Result<()>
    ensures steady { OnOk result (err.new.failed ≡ err.old.failed) }
    ensures failed { OnErr result (err.new.failed ≡ true) }
{
    if !err.is_terminal() {
        return Ok(());
    }
    write!(err, "\rcall {call} of {calls}")?;
    if call == calls {
        err.write_all(b"\n")?;
    }
    err.flush()
}

/// The cuts of each call up to this one. Answers how many were made, or none where a person can't
/// be shown how far it has come.
pub(super) fn sweep_calls<E: Write + Drop>(
    runner: &mut Runner,
    sweep: &Sweep<'_>,
    fronts: &[u16],
    calls: u64,
    err: &mut Printer<E>,
) -> Result<Option<u64>, SweepFault>
    requires { IsStarted sweep.now }
    ensures swept { IfOk result (λ o. IfSome o (HaveAgreed sweep.now calls fronts.now)) }
    ensures failed { IfErr result (IsCutFault sweep.now calls) }
    ensures heeded { HeedsProgress result err.old err.new }
{
    let mut now = CutProgress {
        cuts: 0,
        newest: MadeCut {
            given: 0,
            in_write: false,
        },
    };
    let mut call = 0;
    while call < calls {
        call += 1;
        now = sweep_call(runner, sweep, fronts, call, now)?;
        if show_progress(err, call, calls).is_err() {
            return Ok(None);
        }
    }
    Ok(Some(now.cuts))
}

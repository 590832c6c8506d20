//! Where a worker on a disk is, for whoever watches it.
//!
//! # Promises
//!
//! - `Watcher`: who is told where the worker of a run is. `serve` tells it once the worker is
//!   recovered, and after each checkpoint of its pace (`told` of `rest_on`). Where the status is
//!   `Done`, it was told of that end (`watched`). It is also told between two slices, and before
//!   the worker waits for its source (`Asked`): of both it may leave out some, and no clause says
//!   that it is told then. `WatchFiles` is a watcher, which replaces small files.
//! - `print_status`: the line of a worker that was seen so, to the byte (`watch_line`).
//!
//! # Choices
//!
//! - **A watcher is told by a shared reference**, and what it was told is a ghost that only its
//!   call makes true. So a run's clauses speak of no state of it, and a watcher can change nothing.
//!   `WatchFiles` keeps in a `Cell` when it has written last.
//! - **A worker waits within a slice**, in a read of its source. So the worker itself tells an
//!   `Onlooker` where it is, before it asks. A source that is ready doesn't wait: then nobody has
//!   to be told.

ghost use Rattle.std.specs.Prelude.{◌≡◌, true, OnErr, OnOk, Some};
ghost use Rattle.command_words.specs.rules.Printers.{IsPrinted};
ghost use Rattle.disk_commands.specs.rules.Watchings.{left_words, state_words, watch_line};
ghost use Rattle.disk_commands.specs.rules.Watchings.{watch_words};

use crate::on_disk::ending::print_last_words;
use crate::on_disk::showing::print_number;
use crate::on_disk::sighting::{Sighting, WatchedState};
use command_words::Printer;
use record_replay::{Now, Readiness};
use std::io::{self, Write};
use wasi_abi::Question;
use worker::{Onlooker, Position, Worker};

/// Whoever is told where a worker on a disk is.
pub trait Watcher {
    ghost use Rattle.std.specs.Prelude.{Bool, IsTrue};
    ghost use Rattle.record_replay.specs.declared.slices.now.Now.{Now};
    ghost use Rattle.worker.specs.rules.DurableValues.{DurableValue};

    // Whether it was told of this worker, whose last slice has answered this.
    ghost is_notified: { Self → DurableValue → Now → Bool };

    /// Tells where a worker is that was just saved, and what its last slice has answered.
    fn tell(&self, worker: &Worker, now: Now)
        ensures { IsTrue (is_notified self.now worker.now now) };

    /// Tells where a worker is that runs on, between two slices. It wasn't saved. A watcher may
    /// leave that out.
    fn tell_running(&self, _worker: &Worker) {}

    /// Tells that a worker with these numbers is about to wait for a request. A watcher may leave
    /// that out.
    fn tell_waiting(&self, _position: Position) {}

    /// Whether it is to be told that a worker waits.
    fn is_watching(&self) -> bool {
        false
    }
}

/// Tells a watcher that a worker is about to wait for its source.
#[derive(Drop)]
pub(super) struct Asked<'a, T>(pub(super) &'a T);

impl<S: Readiness, T: Watcher> Onlooker<S> for Asked<'_, T> {
    fn see(&self, source: &S, question: Question, position: Position) {
        if self.0.is_watching() && !source.is_ready(question) {
            self.0.tell_waiting(position);
        }
    }
}

/// Writes what a worker is, or how it is over.
fn print_watch_words<W: Write + Drop>(out: &mut Printer<W>, state: WatchedState) -> io::Result<()>
    ensures printed { OnOk result (IsPrinted out.old out.new (watch_words state)) }
    ensures failed { OnErr result (out.new.failed ≡ true) }
{
    match state {
        WatchedState::Running => out.write_all(b"running\n"),
        WatchedState::Waiting => out.write_all(b"waits for a request\n"),
        WatchedState::Parked => print_last_words(out, Now::Waiting),
        WatchedState::Ended(how) => print_last_words(out, Now::Ended(how)),
    }
}

/// Writes how many sectors of its journal are left to a worker, and what it is.
fn print_left<W: Write + Drop>(out: &mut Printer<W>, seen: &Sighting) -> io::Result<()>
    ensures printed { OnOk result (IsPrinted out.old out.new
        (left_words (Some seen.now.position.journal_left) seen.now.state)) }
    ensures failed { OnErr result (out.new.failed ≡ true) }
{
    print_number(out, "journal_left ", seen.position.journal_left)?;
    out.write_all(b" ")?;
    print_watch_words(out, seen.state)
}

/// Writes how many requests a worker has taken, how many sectors are left to it, and what it is.
fn print_state<W: Write + Drop>(out: &mut Printer<W>, seen: &Sighting) -> io::Result<()>
    ensures printed { OnOk result (IsPrinted out.old out.new
        (state_words (Some seen.now.position.requests) (Some seen.now.position.journal_left)
        seen.now.state)) }
    ensures failed { OnErr result (out.new.failed ≡ true) }
{
    print_number(out, "requests ", seen.position.requests)?;
    out.write_all(b" ")?;
    print_left(out, seen)
}

/// Writes where a worker was seen.
pub(super) fn print_status<W: Write + Drop>(out: &mut Printer<W>, seen: &Sighting) -> io::Result<()>
    ensures printed { OnOk result (IsPrinted out.old out.new (watch_line seen.now)) }
    ensures failed { OnErr result (out.new.failed ≡ true) }
{
    print_number(out, "generation ", seen.position.generation)?;
    print_number(out, " steps ", seen.position.steps)?;
    print_number(out, " answers ", seen.position.answers)?;
    print_number(out, " lines ", seen.position.lines)?;
    out.write_all(b" ")?;
    print_state(out, seen)
}

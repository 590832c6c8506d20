//! Where a worker is, in numbers, and who is told of it within a slice.
//!
//! # Choices
//!
//! - **An onlooker is told by shared references, and answers nothing.** A slice with one is a slice
//!   without, and no clause of it speaks of the onlooker. No clause says either that one is told
//!   before each question: `scripts/runs/disk-rows` shows it.

ghost use Rattle.std.specs.Prelude.{◌≡◌};
ghost use Rattle.worker.specs.rules.Positions.{position_at, position_of};

use crate::durable::Worker;
use crate::running_worker::RunningWorker;
use disk_layout::PAYLOAD_SIZE;
use wasi_abi::Question;

/// The numbers of a worker.
#[derive(Clone, Copy, Debug, PartialEq, Eq)]
pub struct Position {
    /// The generation of the newest snapshot.
    pub generation: u64,
    pub steps: u64,
    pub answers: u64,
    /// How many requests it has taken, and the end of all requests.
    pub requests: u64,
    pub lines: u64,
    /// How many sectors of its journal no record fills, once those in memory are written.
    pub journal_left: u64,
}

/// Who is told where a worker is before its source is asked, which may wait.
pub trait Onlooker<S> {
    /// Tells that a worker with these numbers asks this of the source.
    fn see(&self, source: &S, question: Question, position: Position);
}

/// How many steps a batch may take, and who is told of it.
#[derive(Clone, Copy)]
pub struct Watched<'a, T> {
    pub fuel: u64,
    pub onlooker: &'a T,
}

/// No onlooker.
pub struct Unseen;

impl<S> Onlooker<S> for Unseen {
    fn see(&self, _source: &S, _question: Question, _position: Position) {}
}

impl RunningWorker {
    /// Where it is now.
    pub(crate) fn position(&self) -> Position
        ensures { result ≡ position_at self.now.process self.now.store }
    {
        Position {
            generation: self.store.generation(),
            steps: self.process.steps(),
            answers: self.process.answers(),
            requests: self.process.requests(),
            lines: self.process.lines(),
            journal_left: (self.store.room() / PAYLOAD_SIZE) as u64,
        }
    }
}

impl Worker {
    /// Where it is now, also after an error.
    pub fn position(&self) -> Position
        ensures { result ≡ position_of self.now }
    {
        self.running.position()
    }
}

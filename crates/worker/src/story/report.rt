//! What is told of lives.
//!
//! **A story prints how each life ended, and with how many calls.** Else a body that runs nothing
//! could plead any cause. One that pleads out of memory is left to tests.

use crate::RecoverFault;
use record_replay::LineList;
use wasm_syntax::ItemList;

/// How a life was opened, and the image of its process right after that.
#[derive(Debug, Drop)]
pub enum Opening {
    /// A fresh worker was created: the disk held none.
    Created {
        process_image: ItemList<u8>,
    },
    /// The worker on the disk went on, as this generation, with so many steps, answers and lines.
    Recovered {
        generation: u64,
        steps: u64,
        answers: u64,
        lines: u64,
        process_image: ItemList<u8>,
    },
    Unopened,
}

/// How a life ended.
#[derive(Clone, Copy, Debug, PartialEq, Eq)]
pub enum LifeEnd {
    /// All that the worker was told to do is done. Then the power was cut.
    Finished,
    /// The power was cut at the call that it was told.
    Stopped,
    /// An opening or a call failed before that. The power was not cut.
    Failed(RecoverFault),
}

/// What is told of one life.
#[derive(Debug, Drop)]
pub struct LifeReport {
    pub opened: Opening,
    /// The lines whose release was begun in it, in order.
    pub releases: LineList,
    pub ended: LifeEnd,
    /// How many reads, writes and syncs of the disk were begun in it.
    pub calls: u64,
    /// Whether it was cut inside of a write, and left a front of that, were it of no byte.
    pub has_torn_front: bool,
}

/// What is told of a list of lives, in order.
#[derive(Debug, Drop)]
pub struct Report {
    pub lives: ItemList<LifeReport>,
}

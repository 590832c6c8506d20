//! What is put into a life of a worker.

use sector_disk::FaultPoint;
use wasi_abi::Answer;
use wasm_syntax::ItemList;

/// What the worker is told to do.
#[derive(Clone, Copy, Debug, PartialEq, Eq)]
pub enum PlannedAct {
    /// To take at most so many steps.
    Slice { fuel: u64 },
    /// To take at most so many steps. Where the process asks, fewer than `most` lines may wait to
    /// be told by one sync.
    Batch { fuel: u64, most: u64 },
    Checkpoint,
    Upgrade,
}

/// All that is put into one life.
#[derive(Debug, Drop)]
pub struct PlannedLife {
    /// What its source hands out, one after another, whatever is asked for. From then on it has
    /// none.
    pub answers: ItemList<Answer>,
    /// What the worker is told to do, one after another.
    pub acts: ItemList<PlannedAct>,
    /// The read, write or sync of this life, from 1 on, at which the power is cut. Also the front
    /// that it leaves, if it is a write.
    pub stop: Option<FaultPoint>,
    /// The read, write or sync of this life, from 1 on, that fails, and the front that it leaves,
    /// if it is a write. Later ones work. At the call of the stop the power is cut.
    pub fail: Option<FaultPoint>,
    /// The release of this life, from 1 on, that the outlet refuses, those of its recovery
    /// included.
    pub refuse: Option<u64>,
    /// The fronts, in bytes, that the cut keeps of the earlier writes since the last good sync, the
    /// oldest first. Of a write without a number all is kept, and of one that failed its front.
    pub tears: ItemList<u16>,
}

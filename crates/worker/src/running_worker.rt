//! A worker that runs, and what it works with on its disk.

use process::Process;
use std::alloc::Global;
use worker_store::WorkerStore;

/// A process, where its answers and snapshots are kept, and whether it has come to the last line
/// that was ever told.
#[derive(Drop)]
pub struct RunningWorker {
    pub(crate) alloc: Global,
    pub(crate) process: Process,
    pub(crate) store: WorkerStore,
    /// True from a creation, a question or an end on, also where a recovery finds the end: no line
    /// beyond those of the process was told, in this life or in an earlier one.
    pub(crate) is_abreast: bool,
}

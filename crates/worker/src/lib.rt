//! A worker on its disk (this project's own). Its answers are recorded, its lines are released
//! after a barrier, and its process is saved from time to time. What is proved of its calls holds
//! of any worker that is open on its disk (`IsOpenOn`), for any disk, source and outlet.
//!
//! # Example
//!
//! A worker that a disk stands for goes on, and is saved after each slice:
//!
//! ```text
//! let mut worker = Worker::recover(alloc, &mut disk, &mut outlet)?;
//! while let Now::Spent = worker.slice(&mut disk, 100_000, &mut source, &mut outlet)? {
//!     worker.checkpoint(&mut disk, &mut outlet)?;
//! }
//! worker.checkpoint(&mut disk, &mut outlet)?;
//! ```
//!
//! Where there is none, `recover` answers `RecoverFault::Layout(LayoutFault::NotAWorker)`. A fresh
//! one is made by `Worker::create(alloc, &mut disk, wasm, &config)`.
//!
//! # Promises
//!
//! `docs/PROMISES.md` has all of them with their clauses, under "A worker on its disk".
//!
//! - Whatever was promised is kept by each call, by Ok and by any error (`carries`). A cut at any
//!   moment leaves what holds all that was promised before. `calls_make_lives` leads from there to
//!   the restart theorem. The clause speaks of a disk whose answers fit an image in the end: of
//!   another one nothing is known.
//! - `Worker::create`: the worker of the accepted module at its start, of generation 1 (`created`).
//! - `Worker::recover`: nothing is written or told before a good sync, and what the disk then shows
//!   decides the result (`recovers`). Want of memory may end a recovery anywhere.
//! - `Worker::slice` runs as a worker without a disk would (`done`, `failed`). Where it says that
//!   the worker waits or has ended, no line is beyond its process (`abreast`). None is beyond that
//!   of a worker that is created, or recovered at its end.
//! - `Worker::batch` is a slice in which lines may wait, until one barrier serves them all (`done`,
//!   `carries`). Where it fails, it has run so far as one whose lines go to a list, and `ToldUpTo`
//!   says how many were told (`failed`).
//! - `Worker::position` has the worker's numbers (`position_of`). `watched_slice` and
//!   `watched_batch` also tell them to an onlooker before each question.
//! - `Worker::checkpoint` is a barrier and a commit: no later life opens before it (`saved`).
//!   `Worker::upgrade` is the same, and saves the process in version 2 (`done`).
//! - `read_survey`, `inspect`: what a disk shows, in numbers or whole. Nothing is written.
//! - `read_legacy`: what a parked worker leaves, or that it isn't parked, exactly (`HandsOver`).
//!   Nothing is written. `create_from`: a worker with other code goes on from there. A cut leaves
//!   none, or one that holds all that is promised of it (`keeps`).
//! - After an error no call does anything: each answers `Failed` (`fails`, `refused`).
//! - `story` runs any list of lives on one disk in memory, and tells them (`TellsLives`).
//!
//! # Definitions to read
//!
//! In `specs/rules/`: `OpenWorkers.antt`, `DurableCalls.antt` and `Effects.antt` first, then the
//! file of a call, as `Recoveries.antt`, and for any disk at all `ShownDisks.antt`. The words are
//! those of `worker_store`, of its `restart_theorem` above all.
//!
//! # Who may touch what
//!
//! Only this crate decides when records are kept, when they are put on the disk, and when a process
//! is saved. A worker is handed its disk at each call, and keeps none. `disk_commands` and
//! `story_commands` use the crate. Slices are those of `record_replay`, and the store is that of
//! `worker_store`. A creation and a recovery take memory. The other calls take none but what the
//! process and the journal take.
#![tactic(auto)]

mod batches;
mod checkpoints;
mod copying;
mod creating;
mod durable;
mod fault;
mod finding;
mod found;
mod handover;
mod inspecting;
mod inspection;
pub mod laws;
mod leave_fault;
mod position;
mod question;
mod recover_fault;
mod recovering;
mod running_worker;
mod saving;
mod slices;
pub mod story;
mod succession;
mod surveyed;
mod surveying;
mod turns;
mod upgrade_fault;
mod upgrades;
mod widening;

pub use durable::Worker;
pub use fault::WorkFault;
pub use handover::Handover;
pub use inspecting::inspect;
pub use inspection::Inspection;
pub use leave_fault::LeaveFault;
pub use position::{Onlooker, Position, Unseen, Watched};
pub use record_replay::{Readiness, SliceFault};
pub use recover_fault::RecoverFault;
pub use running_worker::RunningWorker;
pub use succession::{create_from, read_legacy};
pub use surveyed::Survey;
pub use surveying::read_survey;
pub use upgrade_fault::UpgradeFault;
pub use worker_store::StoreFault;

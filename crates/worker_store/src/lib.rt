//! Where a worker on its disk keeps its records and snapshots, and the laws of that disk (this
//! project's own). The crate joins `journal`, `snapshot`, `disk_layout` and the writing of
//! `state_image`. Its callers speak of records, processes and savepoints, and of no sector or byte.
//!
//! # Example
//!
//! A disk is laid out for a fresh process. Then an answer is recorded, made durable, and left
//! behind by a snapshot:
//!
//! ```text
//! let mut store = lay_out(alloc, &mut disk, &config, wasm, &process)?;
//! store.append(&Record { step, answer })?;
//! store.barrier(&mut disk)?;
//! store.commit(alloc, &mut disk, &process)?;
//! ```
//!
//! # Promises
//!
//! Contracts speak of any savepoint and records of which the store is one (`IsStoreOf`).
//!
//! - `WorkerStore::append` keeps a record in memory (`appended`). `room` is how many more bytes of
//!   records fit, before the next commit.
//! - `WorkerStore::barrier`: a cut at any moment leaves a prefix of the pending records
//!   (`any_moment`), and after Ok all of them (`durable`). Each sector is written once, and then
//!   one sync is made (`calls`).
//! - `WorkerStore::commit`, `WorkerStore::reopen`: a cut at any moment leaves what stood before, or
//!   the new snapshot (`any_moment`), and after Ok the new one (`durable`). No whole image is kept
//!   in memory.
//! - `lay_out`: a cut at any moment leaves a blank disk, or one that begins at the first snapshot
//!   (`any_moment`), and after Ok that (`durable`). A disk with too few sectors is refused before
//!   any is written (`too_small`).
//! - `read_worker`, `read_newest`, `read_records`: of a disk that is at a savepoint what it stands
//!   by (`gives`, `finds`, `scans`). Of any other one they give what is there, or tell what is
//!   wrong with it, in one order (`tells`).
//! - A disk with fewer sectors than the layout takes is left alone. `read_newest`, `read_records`
//!   and the calls of a store answer `Range` there, but a barrier of too many records is `Full`
//!   (`too_few`).
//! - Each error comes only for its cause (`cause`). After an error of a store, and after `fail`,
//!   each of its calls answers `Failed`, and touches neither disk nor store (`fails`, `refused`).
//! - No call has more unsynced writes than before and its own. In a creation there are no more than
//!   before and one, or than `most_unsynced` (`counts`).
//!
//! `laws`, `events` and `turns` have what is proved of a worker's disk, of the events of a life,
//! and of parts of a call. `restart_theorem` has what is promised of a worker over all its lives.
//!
//! # Definitions to read
//!
//! In `specs/restart_theorem/`: what is promised of lives, and which images of the disk stand for a
//! worker (`StandsFor`). The head of `restart_theorem` lists the files.
//!
//! In `specs/rules/`: `Savepoint`, `IsAtSavepoint` (`Savepoints.antt`); `IsStoreOf`
//! (`Stores.antt`); what each call does (`Effects.antt`, `Creations.antt`), leaves (`Calls.antt`)
//! and reads (`Readings.antt`). Contracts of `worker` speak of `IsHeldAt`, `IsCarried`,
//! `AreOnRecord` and `SyncsAreHeld` (`Carried.antt`).
//!
//! # Who may touch what
//!
//! A store knows where things lie and which records wait for a barrier. Each call that touches the
//! disk is handed it. `worker` alone calls this crate. `append`, `lay_out` and the readings take
//! memory; `barrier`, `commit` and `reopen` take none.
#![tactic(auto)]

mod area_sink;
mod contents;
mod creation;
pub mod events;
mod fault;
mod filling;
pub mod laws;
mod newest;
mod read_fault;
mod reading;
pub mod restart_theorem;
mod saving;
mod store;
pub mod turns;
mod zeros;

pub use creation::lay_out;
pub use fault::StoreFault;
pub use newest::NewestProcessImage;
pub use read_fault::ReadFault;
pub use reading::{read_newest, read_records, read_worker};
pub use snapshot::HashedImage;
pub use store::WorkerStore;

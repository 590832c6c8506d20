//! The journal of a worker (this project's own). Records of outside answers are appended, made
//! durable by a barrier, and scanned after any cut.
//!
//! # Example
//!
//! ```text
//! let mut journal = Journal::fresh(alloc, Version::One, generation);
//! journal.append(&geometry, &Record { step, answer })?;
//! journal.barrier(&mut disk, &geometry)?;
//! let scanned = Journal::scan(alloc, &mut disk, &geometry, Version::One, generation)?;
//! ```
//!
//! # Promises
//!
//! - `Journal::fresh` is the journal of a version and a generation, without records.
//! - `append` keeps a record in memory (`ok`). `TooLong` and `Full` come exactly where the payload
//!   is longer than the version allows, or the record than the room (`too_long`, `full`).
//! - `barrier` puts the kept records on the disk. A cut at any moment leaves all records that
//!   stood, and a prefix of those kept, and no other sector is changed (`any_moment`). After Ok all
//!   are held (`durable`). Sectors are written in rising order, each once, and then one sync is
//!   made (`calls`).
//! - `barrier` fails for a cause (`failed`, `full`, `cause`). Causes are an earlier error, too
//!   little journal, and a disk that fails, has too few sectors or no room for the writes.
//! - A disk with fewer sectors than the layout takes is left alone. `scan`, `barrier` and
//!   `count_filled` answer `Range` there, but a barrier of too many records is `Full` (`too_few`).
//! - `Journal::scan` gives the records that the journal of the disk holds (`scans`), which are one
//!   list (`what_is_held_is_scanned`). `later` tells whether the first sector shows a later
//!   generation than theirs. Then no other sector is read, and no memory wanted (`once`, `memory`).
//!   A scan only reads.
//! - `count_filled` gives how many sectors the records of a generation fill (`counts`). The others
//!   are what a next barrier can write.
//! - After an error of `append` or `barrier`, and after `fail`, each call of these answers `Failed`
//!   and changes nothing (`err`, `failed`, `refused`). `has_failed` says so.
//! - `laws`: a journal holds what is stored in it, and nothing of a generation that no sector shows
//!   (`what_is_held_is_scanned`).
//!
//! # Definitions to read
//!
//! In `specs/rules/`: `JournalState`, `room_of` (`State.antt`); `JournalHolds`, which a scan finds;
//! `HoldsRecords`, `AppendsFront`, `RecordFits`, `ShowsLater` (`Steps.antt`); `StoresKept`,
//! which is what `barrier` does (`Barriers.antt`); `sectors_filled` (`Filled.antt`). Of
//! `disk_layout`: `record_bytes` and `is_of` (`specs/rules/Journal.antt`).
//!
//! # Who may touch what
//!
//! Only this crate knows which bytes wait for a barrier. Each call that touches the disk is handed
//! it. `worker_store` uses the crate, and `worker` to count sectors. `append` and `scan` take
//! memory, `fresh` and `barrier` take none (`no_memory`). A failed barrier leaves its records in
//! memory (`err`), and of the disk what `any_moment` says.
//!
//! # Choices
//!
//! - `append` takes a record by reference, since the worker still needs the answer.
//! - Code asks which version it is where a length is written or read, and nowhere else.
//! - A later generation in the journal is no fault of a scan: who reads a whole disk judges it.
#![tactic(auto)]

mod decode;
mod fault;
mod filled;
mod journal;
pub mod laws;
mod records;
mod scan;
mod scanned;
mod store;

pub use fault::JournalFault;
pub use filled::count_filled;
pub use journal::Journal;
pub use scanned::ScannedJournal;

//! Images of a worker in two areas in turn (this project's own). Each has a head, which is written
//! once the image is durable. The newest image is read here, and the next one is written.
//!
//! # Example
//!
//! ```text
//! let mut snapshots = Snapshots::new();
//! if let Some(newest) = snapshots.newest(alloc, &mut disk, &geometry)? {
//!     let next = newest.generation + 1;
//!     snapshots.commit(&mut disk, &geometry, next, image, newest.version)?;
//! }
//! ```
//!
//! # Promises
//!
//! - `newest_head`, `process_image_of`, `newest`: what the two heads and the areas of the disk say
//!   (`finds`). An image is given only under the digest that its head names (`HashedImage`). These
//!   calls only read (`reads`).
//! - `begin`, `push`, `finish` write an image piece by piece, and `commit` is all three. A cut at
//!   any moment leaves the newest image that there was, or from `finish` on this one. No sector but
//!   those of its area and its head is changed (`any_moment`). After Ok of `finish` or `commit`
//!   only this one is left (`done`).
//! - `begin` is told whether each sector of the image is written, whatever the area held (`whole`),
//!   or those that differ (`spared`). A commit spares sectors.
//! - A commit writes sectors of its area in rising order, syncs, writes the head, and syncs
//!   (`calls`). There are never more unsynced writes than before and its own (`counts`).
//! - What is said of the newest image holds where that was of the generation before, or, before the
//!   first, where there was none (`IsReadyForHead`).
//! - `TooBig` comes exactly for a generation from `NUMBERS_END` on, and for an image longer than
//!   its area. `Disk` comes only where the disk failed, had no room for the writes, or has too few
//!   sectors (`cause`).
//! - A disk with fewer sectors than a call needs is left alone. The call answers `Range`, but a
//!   `push` or `commit` of too long an image is `TooBig` there too (`too_few`).
//! - After an error each call answers `Failed`, and leaves the disk alone (`fails`, `untouched`).
//! - `laws`: a disk shows no head, a damaged image, or one newest image (`newest_is_one`). Once an
//!   image is the newest one, a disk is ready for the next (`next_can_follow`).
//!
//! # Definitions to read
//!
//! In `specs/rules/`: `FindsHead`, `IsReadyForHead` (`Heads.antt`); `FindsNewest` (`Newest.antt`);
//! `Commits`, `HasNew` (`Steps.antt`); `PerformsStores` (`Calls.antt`); what `push`, `finish` and
//! `commit` do (`Images.antt`). Of `disk_layout`: `HoldsProcessImage`.
//!
//! # Who may touch what
//!
//! Only this crate knows an image that is in the middle of being written. Each call is handed the
//! disk. `worker_store` uses the crate. Reading an image takes memory (`S4 Memory`), and writing
//! one takes none.
#![tactic(auto)]

mod bytes;
mod fault;
mod hashed_image;
mod hashing;
pub mod laws;
mod newest;
mod snapshots;
mod store;
mod writer;
mod writing;

pub use fault::SnapshotFault;
pub use hashed_image::HashedImage;
pub use newest::Snapshot;
pub use snapshots::Snapshots;
pub use writing::Writing;

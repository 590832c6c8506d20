//! Where a worker's things lie on its disk, and the bytes of each sector that has fields. The
//! layout is this project's own, and `docs/FORMATS.md` has it. Numbers are little-endian.
//!
//! # Example
//!
//! Configuration and module are written, the super last, and read back:
//!
//! ```text
//! let bytes = config_bytes_of(alloc, &config)?;
//! let geometry = Geometry::of(&config, wasm.len() as u32);
//! write_contents(&mut disk, bytes.as_slice(), wasm)?;
//! disk.sync()?;
//! let digest = digest_of(bytes.as_slice(), wasm);
//! write_super(&mut disk, &Super { geometry, digest })?;
//! let contents = read_contents(alloc, &mut disk)?;
//! ```
//!
//! # Promises
//!
//! - `Geometry::of` gives the places and sizes of the definitions.
//! - `Super`, `Head`, `Stamp` and all fields of a record are laid out byte by byte as defined, and
//!   read back. `takes_records` says whether a journal takes the longest record of a version.
//! - `write_super`, `write_contents`: a cut at any moment leaves of each sector some prefix, and
//!   all others as they were (`any_moment`). An error says that the disk failed, or had no room for
//!   the writes (`cause`). After Ok of `write_super` each cut leaves it whole (`stored`).
//!   `write_contents` makes no sync: after its Ok reads give all of it, and a cut may leave less.
//! - `read_super`, `read_contents` only read (`reads`). The answer is true of what the disk shows:
//!   the bytes under their digest, or what is wrong with them (`finds`, `gives`). Of a damaged disk
//!   it is the first field that disagrees, or that the digest does (`HasDamage`).
//! - `test_sectors` says whether a disk has so many sectors (`enough`, `too_few`), without a call
//!   of the disk. The crates above ask it before they touch a disk.
//! - `config_bytes_of` gives a configuration's bytes. `config_from` finds the configuration that
//!   any bytes spell, or that there is none.
//! - `laws`: a torn stamp never shows a newer generation (`torn_stamps`). Fields are read back, a
//!   configuration has bytes of its own, and of a disk one answer is right (`one_answer`).
//!
//! # Definitions to read
//!
//! In `specs/rules/`: `geometry_of` (`Places.antt`); `super_bytes`, `head_bytes`, `IsNewest`,
//! `HoldsProcessImage` (`Sectors.antt`); `record_bytes`, `is_of` (`Journal.antt`);
//! `contents_sectors` (`Contents.antt`); `FindsStored` (`Stored.antt`); `GivesContents`
//! and `HasDamage` (`Held.antt`).
//!
//! # Who may touch what
//!
//! The marks, and the places of fields in supers, heads and stamps, are known here alone, each as
//! one constant, as `HEAD_MARK` and `PAYLOAD_SIZE`. `journal`, `snapshot` and `worker_store` use
//! the crate, and `record_replay` its `Record`. Reading back and `config_bytes_of` take memory.
//! Whatever fails, a read leaves the disk unwritten.
//!
//! # Choices
//!
//! - Which of `K2` and `K3` a failing disk answers is no part of a disk's clauses. Clauses of a
//!   write say that its fault is one of the two, and not which.
//! - Padding is written as zeros and not compared when it is read.
#![tactic(auto)]

mod configuration;
mod contents;
mod damage;
mod fault;
mod fields;
mod geometry;
mod head;
mod journal_sectors;
pub mod laws;
mod reading;
mod record;
mod record_fields;
mod size;
mod stamp;
mod stored;
mod superblock;

pub use configuration::config_bytes_of;
pub use contents::write_contents;
pub use damage::Damage;
pub use fault::LayoutFault;
pub use fields::{DIGEST_BYTES, u16_from, u32_from};
pub use geometry::{Geometry, MODULE_PLACE};
pub use head::Head;
pub use journal_sectors::{PAYLOAD_AT, PAYLOAD_SIZE, is_of, journal_sector, used_length};
pub use reading::{Contents, config_from, read_contents};
pub use record::{END_KIND, MONOTONIC_KIND, RANDOM_KIND, REALTIME_KIND, REQUEST_KIND, Record};
pub use record_fields::{
    clock_bytes, clock_from, longest_record, payload_length, record_head, record_head_bytes,
    record_step, short_length, takes_records, wide_length,
};
pub use size::test_sectors;
pub use stamp::Stamp;
pub use stored::{Stored, digest_of, read_super, write_super};
pub use superblock::Super;

//! A disk of sectors of 512 bytes (this project's own). A model says what reads give, and what a
//! cut of the power may leave. Three disks meet it.
//!
//! # Example
//!
//! Two writes, of which only the first is synced, and a cut that keeps 100 bytes of the second:
//!
//! ```text
//! let mut disk = MemDisk::new(alloc, 8, 16)?;
//! disk.write(0, &[1; SECTOR_SIZE])?;
//! disk.sync()?;
//! disk.write(0, &[2; SECTOR_SIZE])?;
//! let mut after = disk.cut(alloc, &[100])?;
//! let mut sector = [0; SECTOR_SIZE];
//! after.read(0, &mut sector)?;
//! ```
//!
//! Then `sector` has 100 twos, and ones after them. A disk in a file is opened by
//! `FileDisk::open(files, path)`.
//!
//! # Promises
//!
//! - `Disk` is the trait. A read, a write and a sync do to a disk's `medium` what `Reads`, `Writes`
//!   and `SyncsMedium` say. A medium has what a cut may leave, also inside a call, and which writes
//!   and syncs were asked for, in order.
//! - `MemDisk` answers exactly as its state says (`answer`, `done`). Each image that a cut may
//!   leave is had by `cut` (`every`).
//! - `FaultDisk` stops or fails at the call that it is told, and hands all others on (`passed_on`).
//!   Its `calls` are counted.
//! - `FileDisk` logs each call that it made of its file, with the answer. After a write or a sync
//!   that failed every call answers `Io`, and the file isn't asked (`logged`). `open`, `create` and
//!   `create_on_device` give the disk of the file at the path, with its lock (`IsOpenedAt`,
//!   `IsMadeAt`, `IsTakenAt`). A new file was found at its path once it was filled. Else a call for
//!   that path or of that file has failed, and `OpenFault` says so (`IsUnopenedAt`, `IsUnmade`,
//!   `IsUntaken`).
//! - `take_picture` reads a disk that another host may write meanwhile, and writes and syncs
//!   nothing. The picture has each sector as the file gave it, and the first ones gave the same
//!   when they were read again (`IsPictured`).
//! - `rewrite` writes each sector of a disk back as it reads it, and syncs. At no moment does it
//!   add an image to what reads give or to what a cut may leave (`same`, `any_moment`).
//! - `store_run` writes sectors one after another, and syncs. A cut at any moment leaves of each
//!   some prefix (`any_moment`), and after Ok all of them (`stored`). `write_run` makes no sync.
//!
//! # Definitions to read
//!
//! In `specs/rules/`: `DiskImage`, `IsTorn` (`DiskImage.antt`); `Medium`, `LeavesOnly`, `Reads`,
//! `Writes`, `SyncsMedium` (`Medium.antt`). Of a disk's state `Memory.antt`, `FaultDisk.antt` or
//! `File.antt`. Of a file that is opened or made `KnownHandles`, `KnownFiles` (`Known.antt`), and
//! `Open.antt`.
//!
//! # Who may touch what
//!
//! All crates above that write on a disk use any `Disk`, and `wasmhost` opens a `FileDisk`. The
//! crate uses no other one of this repository. A `MemDisk` takes memory in `new` and `cut` alone. A
//! file is trusted to behave as a disk of the model (`docs/PROMISES.md`): of one that doesn't,
//! clauses say nothing. A file is locked as long as its `FileDisk` lives, so that no second host
//! reads or writes it. `DiskFile`, `DiskFiles` and `NewFiles` are what files have to answer.
#![tactic(auto)]

mod copying;
mod disk;
mod disk_call;
mod disk_file;
mod disk_files;
mod fault;
mod fault_disk;
mod fault_point;
mod file;
mod file_call;
mod file_log;
mod file_number;
mod filling;
mod first_image;
mod folder;
mod front;
pub mod laws;
mod log;
mod memory;
mod open_cause;
mod open_fault;
mod picture;
mod rewriting;
mod run;
mod sector;
mod trouble;
mod write;

pub use copying::{CopyFault, copy_disk};
pub use disk::Disk;
pub use disk_file::DiskFile;
pub use disk_files::{DiskFiles, NewFile, NewFiles};
pub use fault::DiskFault;
pub use fault_disk::FaultDisk;
pub use fault_point::FaultPoint;
pub use file::FileDisk;
pub use file_number::FileNumber;
pub use first_image::FirstImage;
pub use memory::MemDisk;
pub use open_fault::{OpenCause, OpenFault};
pub use picture::{PictureFault, take_picture};
pub use rewriting::rewrite;
pub use run::{store_run, write_run};
pub use sector::SECTOR_SIZE;

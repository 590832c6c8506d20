//! The image of a process as bytes, and which images are accepted (this project's own). The code
//! writes images, and makes processes of them again.
//!
//! # Example
//!
//! ```text
//! let bytes = write_process_image(alloc, &process)?;
//! let machine = link(alloc, module, config.pages())?;
//! let process = restoring::restore_into(alloc, machine, config, bytes.as_slice())?;
//! ```
//!
//! Where no whole image may be kept in memory, a sink takes it piece by piece:
//!
//! ```text
//! write_process_image_to(&process, &mut sink)?;
//! ```
//!
//! # Promises
//!
//! - `write_process_image_to` pushes exactly the bytes of `process_image` into a sink, in some
//!   pieces (`Pushes`). Where a piece is refused, a prefix of the bytes was taken, and nothing is
//!   pushed after it. No memory is taken, and none of the guest's is copied.
//! - `write_process_image` gives these bytes in a vector.
//! - `restoring::restore_into` makes the process again whose whole image the bytes are, of a
//!   machine that `link` gave, under a configuration (`restored`: `IsRestored`). Such a process is
//!   well typed, no line of it waits, and it shows every process of the rules that the image shows.
//!   Or no well-typed process has this image (`refused`). `restore` does the same of a valid
//!   module, which it links.
//! - `restoring` also has what that is made of: files, machine, host and descriptors. Each part
//!   answers what is next in an image (`made`), or that no such part is there (`refused`).
//! - `reading` reads the fields of an image from the front of bytes, one by one, without memory
//!   (`ReadsField`, `ReadsPart`).
//! - `Sink` is a trait. What one push does is known by one relation, `takes`, which each
//!   implementation names. `ByteSink` keeps the bytes that it takes, in order (`KeepsBytes`).
//! - `laws`: image and process determine each other, each field is read back, and an image has room
//!   in its area. Every process that an accepted module reaches is well typed.
//!
//! # Definitions to read
//!
//! In `specs/rules/`: `ProcessImage.antt` first, where `Saved` is a process as its image has it,
//! and `process_image` its bytes, field by field. `Saving.antt` says what is saved of the code's
//! process, `WellTyped.antt` which images are accepted, and `Restored.antt` what is made again of
//! bytes. `specs/restoring/` is about the parts that are read.
//!
//! # Who may touch what
//!
//! Only these definitions and this code say which byte of an image means what. `worker_store`
//! cites the definitions, for the disk that stands for a worker. The same crate writes images, and
//! `worker` makes processes of them again, by `restore_into`. A process is read by the questions of
//! `process`, `machine`, `wasi_calls` and `file_tree`, and nothing of it is changed. The image has
//! no lines that wait: whoever writes one has released them. Only `write_process_image`, `ByteSink`
//! and `restoring` take memory. Out of memory is the only error of the first two.
#![tactic(auto)]

mod byte_sink;
pub mod laws;
pub mod reading;
pub mod restoring;
mod sink;
mod writing;

pub use byte_sink::ByteSink;
pub use sink::Sink;
pub use writing::{process_image_mark, write_process_image, write_process_image_to};

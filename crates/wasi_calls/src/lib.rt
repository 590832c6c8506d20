//! The calls of WASI preview 1 under this project's profile, and the host's side of a process that
//! they change.
//!
//! # Example
//!
//! A call that wants an answer is made again with it:
//!
//! ```text
//! let mut host = WasiState::new(alloc, config, Version::One)?;
//! let arguments = &[0, iovecs, 1, cell];
//! let mut told = call(alloc, &mut host, &mut memory, Call::FdRead, arguments, None);
//! if let CallOutcome::Ask(Question::Request) = told {
//!     told = call(alloc, &mut host, &mut memory, Call::FdRead, arguments, Some(&answer));
//! }
//! for line in host.waiting_lines() { .. }
//! ```
//!
//! # Promises
//!
//! - `call` tells what the rule of the call says, and leaves that of host and memory (`told`), of
//!   every host that is shown (`shown`). But for a call that is done, nothing has changed. No line
//!   is released (`released`), and memory is as large as before (`large`). Arguments have the
//!   call's types (`typed`).
//! - `call` is out of memory only of a call that its rule does (`told`, `shown`, `wants`). None is
//!   that is refused, asks for an answer, or ends the process.
//! - `lines_begun`: how many lines such a call adds if it is done, unfinished ones counted
//!   (`count`), and else none. `wanted_answer`: the answer that its rule asks for, of every host
//!   that is shown.
//! - `WasiState::new` is the first host of the rules. `WasiState::from_parts` is the host of an
//!   image's parts, exactly where the rules have one with these parts (`made`, `is`, `refused`).
//!   `Descriptor::from_numbers` is the same of a descriptor.
//! - `WasiState::release` takes lines off, `WasiState::end` emits what is not finished, and
//!   `WasiState::widen` sets the version. The host goes on showing the rules' host (`shown`). All
//!   getters are what the rules' host has.
//! - `WasiState::into_tree` is what a host leaves to another one: its files, without removed nodes.
//!   `WasiState::go_on_from` gives files, time and number of lines to a first host.
//!
//! # Definitions to read
//!
//! In `specs/rules/`: `AreArguments`, `ShowsCallRule`, `question_of` (`Calls.antt`);
//! `ShowsWasiState` (`Held.antt`), which says which hosts of the rules the code's host is;
//! `held_host_from` (`Restored.antt`). The rules themselves are `call_rule` and `WasiState` of
//! `wasi_calls_rules`.
//!
//! # Who may touch what
//!
//! Only this crate knows how descriptors, streams and unfinished lines are kept. Its files are a
//! `Tree` of `file_tree`, which it alone changes. `process` uses it, and `state_image` makes hosts
//! of their parts.
//!
//! Memory is taken by `WasiState::new`, and by `WasiState::from_parts` once all tests have passed,
//! for the two lines that an end may emit. A call takes some once all of its checks have passed.
//! Lines, bytes of files, new nodes with their names, and a request's line want it. Without it
//! nothing changes. Bytes go straight from the guest's buffers into lines and files, and back: none
//! are joined first.
#![tactic(auto)]

mod arguments;
mod buffers;
mod calls;
mod changes;
mod clocks;
mod count;
mod cut;
mod descriptor;
mod host;
pub mod laws;
mod line;
mod listing;
mod memory;
mod moves;
mod offsets;
mod opening;
mod outcome;
mod paths;
mod question;
mod random;
mod read;
mod renaming;
mod status;
mod stop;
mod streams;
mod texts;
mod write;

pub use calls::{call, lines_begun};
pub use descriptor::{Descriptor, LAST_STREAM, Names};
pub use host::{PartsFault, ROOT, WasiState, WasiStateParts};
pub use line::Line;
pub use outcome::CallOutcome;
pub use question::wanted_answer;

//! What is outside a worker: where its answers come from, and where its lines go. Also the replay
//! of answers that are on record (this project's own).
//!
//! # Example
//!
//! A process takes the records of a journal, and its lines are kept in a list:
//!
//! ```text
//! let mut outlet = LineList::new(alloc);
//! let (process, steps) = replay(alloc, process, records.as_slice(), &mut outlet)?;
//! for line in outlet.lines() { .. }
//! ```
//!
//! An outlet of one's own says by a relation what a call does to it:
//!
//! ```text
//! impl Outlet for Printed {
//!     ghost takes = { λ old number line said new. Prints old number line said new };
//!
//!     fn release(&mut self, number: u64, stream: OutputStream, text: &[u8])
//!         -> Result<(), OutletFault> { .. }
//! }
//! ```
//!
//! # Promises
//!
//! - `Source` and `Outlet` are traits. What one call does is known by one relation, `gives` or
//!   `takes`, which each implementation names. Lists of calls are folded with it.
//! - `AnswerList` hands its answers out in their order, whatever is asked (`HandsOut`). `LineList`
//!   keeps the lines that it took, with their numbers (`KeepsLine`). `RefusingOutlet` answers one
//!   release by a fault (`Refuses`). `AnySource` and `AnyOutlet` mean what is in the box.
//! - `release_waiting` releases the lines that wait, each once, in order, with its number (`all`).
//!   After a refused one all still wait (`some`).
//! - `replay`: whichever process was shown, it comes to the one that the records lead to, and no
//!   step further. Each line on the way, and each that waited, was released once, in order
//!   (`replayed`). Where a replay is refused, all lines were released to which it had come. The
//!   cause is told (`stopped`).
//! - Slices add (`slices_add`), also one that fails (`slices_add_in_vain`). The same answers lead
//!   to the same process (`one_slice`).
//! - Laws: calls of any source and outlet follow one another, and records lead to one process
//!   (`records_lead_to_one_process`). A refused replay has told lines of that process alone.
//!
//! # Definitions to read
//!
//! In `specs/rules/`: `Releases`, `AnswersInOrder`, `Ports`, `Exchanges` (`Calls.antt`);
//! `HandsOut`, `KeepsLine`, `Refuses` (`Lists.antt`); `Recorded` (`Records.antt`); `Replays`,
//! `ReplaysInVain` (`Replays.antt`); `Slices`, `SliceLeadsTo`, `IsNow` (`Slices.antt`);
//! `SlicesInVain`, `IsCause` (`Faults.antt`).
//!
//! # Who may touch what
//!
//! A source or an outlet keeps for its owner what it met; its fault says only that it failed. Only
//! `release_waiting` releases lines of a process: in a replay, and in a slice of `worker`, which
//! also asks through the traits. `command_words` implements them. `LineList` takes memory; where
//! that is wanting, it keeps what it had. A replay takes some for a copy of each answer, and its
//! process for calls of the host. After an error of a replay its process is dropped.
#![tactic(auto)]

mod answer_list;
mod boxed;
mod copying;
mod fault;
mod laws;
mod line_list;
mod outlet;
mod refusing;
mod releasing;
mod replaying;
mod slices;
mod source;

pub use answer_list::AnswerList;
pub use boxed::{AnyOutlet, AnySource};
pub use copying::copy_answer;
pub use fault::{OutletFault, ReplayFault, SourceFault};
pub use laws::{
    exchanges_follow_one_another, questions_follow_one_another, records_lead_to_one_process,
    refused_replays_are_on_the_way, releases_follow_one_another,
};
pub use line_list::{LineList, NumberedLine};
pub use outlet::Outlet;
pub use refusing::RefusingOutlet;
pub use releasing::release_waiting;
pub use replaying::replay;
pub use slices::{Now, Refusal, SliceFault, one_slice, slices_add, slices_add_in_vain};
pub use source::{Readiness, Source};

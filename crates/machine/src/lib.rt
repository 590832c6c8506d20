//! The machine: a valid module that is linked to the host, and runs (Core Specification 1.0,
//! chapter 4; linking is section 4.5.4).
//!
//! # Example
//!
//! A machine runs until it needs something. A call of the host is answered before it goes on:
//!
//! ```text
//! let mut machine = link(alloc, module, pages)?;
//! let paused = machine.run(fuel);
//! match paused.why {
//!     Pause::Host(call) => {
//!         let given = perform(call, machine.memory_mut());
//!         machine.finish(given);
//!     }
//!     Pause::Spent | Pause::Returned | Pause::Trapped(_) => return Ok(paused.fuel_left),
//! }
//! ```
//!
//! Here `perform` is the caller's, and gives the call's result, if the call has one.
//!
//! # Promises
//!
//! - `read`: the module is spelled by the bytes, within the limits, and valid (`read`). `accept`:
//!   the machine is of the accepted module that the bytes spell, and has begun (`accepted`). A
//!   refusal is that of the first of decoding, validation and linking that refuses (`reported`).
//!   Unless memory runs out no such module is spelled by the bytes (`only`).
//! - `link`: the machine shows where the module begins (`begun`). A fault names the first thing
//!   that isn't there (`refused`).
//! - `Machine::run`: on so much fuel a machine comes to where that many counted steps lead. The
//!   pause is spent, at a call of the host, ended or trapped, as the rules say (`runs`).
//! - `finish`: what the host's answer makes of the configuration that waits is then shown
//!   (`answers`). A call has to wait.
//! - `waits` tells the call of the host that waits, and its arguments, and `has_ended` whether the
//!   program is over. Both are exact, and nothing runs.
//! - `globals`, `frame_count`, `frame`, `slot_count` and `is_starting` tell what a machine shows
//!   beside memory.
//! - `trap_frame` tells where a frame was when the machine trapped. Tests alone show that.
//! - `memory_mut` lends the guest's memory, and nothing else changes (`writes_back`). `stop` drops
//!   the thread, `unlink` gives the module back, and `close` lets the machine go.
//! - `into_loading` takes a machine's parts away, so that others can be put in their place.
//!   `finish` of `Loading` gives the machine with these parts, which then shows some configuration
//!   (`same`, `shows`). `Unfit` comes only where they show none (`refused`).
//! - `entry_of`: the function that a valid module exports as `_start`, if there is one.
//! - `laws`: a machine shows one configuration at most (`shows_one`), and two that show the same
//!   one run alike (`run_alike`).
//!
//! # Definitions to read
//!
//! In `specs/rules/`: `MachineValue`, `ShowsIn` (`Values.antt`); `HasBegun`, `RunsOnFuel`,
//! `WaitsFor`, `Answers` (`Runs.antt`); `LinkDenies` (`Refusals.antt`); `ShowsSome`, `LoadDenies`
//! (`Loading.antt`); `Accepts`, `IsRead`, `IsReported` (`Acceptance.antt`). `Shows` is of
//! `machine_slots`.
//!
//! # Who may touch what
//!
//! No code but this crate's and that of `machine_frame`, `machine_slots` and `machine_jumps`
//! changes frames, slots or positions. `process`, `state_image` and `command_words` use the crate.
//! `link` takes all memory that running needs, and translates bodies into register code. Where it
//! fails the module is gone. The other calls take none and have no errors, but those of `Loading`.
#![tactic(auto)]

mod execution;
mod frames;
mod from_bytes;
mod hosting;
mod instance;
pub mod laws;
mod linking;
mod loading;
mod routines;
mod running_machine;
mod shown;
mod trapped;

pub use execution::{Arguments, HostCall, Pause, Paused};
pub use from_bytes::{ModuleFault, accept, read};
pub use instance::{LinkFault, entry_of};
pub use linking::link;
pub use loading::{LoadFault, Loading};
pub use running_machine::Machine;
pub use shown::LentFrame;
pub use trapped::TrapFrame;

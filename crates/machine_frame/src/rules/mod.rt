//! What frames and words of a machine stand for, and the laws of how they go on (this project's
//! own). The rules that they follow are those of the Core Specification 1.0, section 4.4.
//! Positions take the place of nested sequences.
//!
//! # Promises
//!
//! The calls do nothing; what they ensure is proved of all typed programs.
//!
//! - `laws::walks_are_steps`: walks are counted steps, they reduce, join, and remain typed
//!   (`steps`, `reduce`, `compose`, `typed`).
//! - `laws::frames_are_at_opcodes`: what is where a frame does, how many labels and values it has
//!   there, and where a function is entered.
//! - `laws::frames_lead_on`, `branches_lead`, `ends_lead_out`: where each opcode of a running
//!   frame leads, which the branch table says.
//! - `laws::machines_show`: what stands for a reduced configuration shows it, and the other way
//!   round (`reduced`, `shown`).
//! - `laws::fitting_is_showing`: what a state has to be so that it shows some configuration of its
//!   program, and that nothing else shows one (`fits`, `shown`).
//! - `laws::frames_run`: the running frame apart, and the whole after it has run (`apart`,
//!   `whole`).
//! - `laws::calls_lead`, `returns_lead`, `hosts_lead`: what calls, returns, ends, and the host's
//!   calls and answers make of frames and words.
//!
//! # Definitions to read
//!
//! In `specs/rules/`: `Walks` (`Walks.antt`); `IsRoutine`, `IsTypedAt`, `Around`, `FrameShows`
//! (`FramePosition.antt`); `AreFrames`, `IsReadyProgram`, `MachineParts`, `PartsStandFor`,
//! `machine_state_of` (`Threads.antt`); `AreStacked` (`Stacked.antt`). What each law says is in
//! `specs/laws/`. `FitsProgram` (`specs/laws/Fitting.antt`) is a second form of `Shows`.
//!
//! # Who may touch what
//!
//! `frame::StackFrame` is plain data: a function, a position and the place of its first local.
//! `machine` uses it, and proves its turns by these laws. The functions of `laws` are empty.
//!
//! # Choices
//!
//! - **Between a counted step and the ends after it a machine stands for an unreduced
//!   configuration.** A walk (`Walks`) counts rules and lets the others come anywhere. From one
//!   reduced configuration to another it is so many steps.
//! - A return costs its step, and an end none. Both are one function of the code.

mod frame;
pub mod laws;

pub use frame::StackFrame;

//! The rules of the 31 calls of WASI preview 1. Names, types, numbers and layouts are those of its
//! witx files. Which error a call answers, the order of its checks, and the rights that it needs
//! are this project's own profile.
//!
//! # Example
//!
//! A contract speaks of a call by its rule, of arguments, an answer or none, memory and host:
//!
//! ```text
//! pub fn wanted_answer(host: &WasiState, memory: &Memory, call: Call, arguments: &[u64])
//!     -> Option<Question>
//!     ensures { (h : TheWasiState) → ShowsWasiState host.now h
//!         → result ≡ question_of (call_rule call arguments.now None memory.now.bytes h) }
//! ```
//!
//! # Promises
//!
//! The calls of `laws` do nothing; what they ensure is proved of the rules of all 31 calls.
//!
//! - A call that is done keeps the length of memory (`calls_keep_memory`), and emits lines after
//!   those that were there (`calls_emit_lines`). What it leaves is a host, whatever its arguments
//!   are (`calls_keep_hosts`), as it was configured (`calls_keep_configurations`).
//! - A call that is done makes one node at most (`calls_make_one_node_at_most`). At most one
//!   request's text and its newline are left to be read (`calls_keep_input_short`).
//! - A guest is told the last monotonic time that was seen, and no call lowers that
//!   (`monotonic_clocks_never_fall`).
//! - The rules take an answer exactly where it fits what is asked (`answers_are_taken_that_fit`).
//!   Three calls may want one, and none once it has one that fits (`few_calls_ask_and_once`). No
//!   call but `proc_exit` ends the process (`one_call_ends`).
//! - Each of the 31 calls has its whole outcome on an example in one of the laws `.._on_examples`,
//!   as `reads_on_examples`.
//! - `limits` has numbers that definitions and code share, as `LINE_BYTES` and `TEXT_BYTES`.
//!
//! # Definitions to read
//!
//! In `specs/`: `WasiState`, `first_host`, `IsWasiState` (`WasiStates.antt`); the checks that all
//! calls share, and `>>=` (`Checks.antt`); lines (`Lines.antt`); paths and `walk` (`Paths.antt`).
//! Each call has one definition (`Small.antt`, `Moving.antt`, `Entries.antt`). `call_rule` joins
//! them, and `TellsCallRule` is what a caller is told (`CallRules.antt`).
//!
//! # Who may touch what
//!
//! There is no code here but limits, the type of a line's stream (`OutputStream`), and the empty
//! functions of `laws`. `wasi_calls` has the code of all 31 calls; `process_rules`,
//! `record_replay`, `state_image` and `worker_store` cite the definitions. The crate takes no
//! memory, and has no errors.
//!
//! # Choices
//!
//! - **A rule's one `>>=` carries refusals, questions to the outside and the end of the process**
//!   (`Halt`). An answer that doesn't fit is as none.
//! - **A write is measured before it is made** (`size_after`), so the two refusals for room speak
//!   of numbers.
//! - **The limit on texts and random bytes is that of the host's version**, and no number in a
//!   rule.
#![tactic(auto)]

pub mod laws;
pub mod limits;
mod output_stream;

pub use output_stream::OutputStream;

//! What a process is, and which process a module reaches on which answers from outside (this
//! project's own). The rules of execution are joined with those of the calls.
//!
//! # Example
//!
//! Any two processes that a valid module reaches on the same answers in the same number of steps
//! are one. Code that needs this of a process calls the law:
//!
//! ```text
//! use process_rules::laws::one_process_is_reached;
//!
//! // From here on a proof has it.
//! one_process_is_reached();
//! ```
//!
//! # Promises
//!
//! The calls of `laws` do nothing; what they ensure is proved of the definitions.
//!
//! - `one_process_is_reached`, `one_run_is_taken`: as above, and the same of a run from any
//!   process.
//! - `runs_join`, `runs_count_and_emit`: runs join, count their steps (`count`), and take back no
//!   line (`emit`).
//! - What a valid module reaches has a host, as it was configured (`reached_processes_have_hosts`,
//!   `reached_hosts_are_bounded`). The process is typed (`reached_processes_are_typed`), and has
//!   counted its steps and its answers (`reached_processes_are_counted`).
//! - `widening_is_all`: after the same steps, a widened process is the other one but for the
//!   widening (`all`), and none is widened twice (`once`).
//! - `successors_come_first`: a process goes on from another one once, before its first step
//!   (`first`), and keeps the lines that were there (`on`). Where it has room it may (`each`), and
//!   is then one process (`one`). Answers are added up (`answers`).
//! - `quiet_runs_join`, `steps_are_quiet`, `last_step_ends`, `trap_ends`: steps after which nothing
//!   is owed join. Rules that ask the host for nothing leave nothing owed, up to the end or a trap.
//! - `worked_examples`, `worked_widenings`, `worked_successors`: what whole modules come to, under
//!   any configuration.
//!
//! # Definitions to read
//!
//! In `specs/`: `ProcessState`, `Guest`, `IsStart` (`Processes.antt`); `Origin`, `IsSucceeding`
//! (`Origins.antt`); `Moves`, `Runs`, `Reaches`, `widened`, `version_after` (`Runs.antt`);
//! `IsLine`, `AnswersBehindLine`, `AnswersBehindSync`, `IsNarrowTo` (`Behind.antt`); `IsOwing`,
//! `RunsQuietly` (`Owing.antt`).
//!
//! # Who may touch what
//!
//! There is no code here but the empty functions of `laws`. Nothing here knows positions, slots,
//! fuel, generations or sectors. `process`, `record_replay`, `disk_commands`, `state_image`
//! and `worker_store` cite the definitions. The crate takes no memory, and has no errors.
//!
//! # Choices
//!
//! - **Steps, answers and requests are in the process state.** The kept answers are a list of a
//!   type of their own (`Kept`). A widening is among them, and counts as one. What a process goes
//!   on from is kept first, and counts as all that were taken before.
//! - **Demands are by covering**: on so many answers, or fewer, a line is emitted. No minimum is
//!   ever computed.
#![tactic(auto)]

pub mod laws;

//! A process (this project's own) is a machine and its host. Each run of it goes up to where
//! something is owed to the outside or asked of it.
//!
//! # Example
//!
//! ```text
//! let mut process = Process::start(alloc, module, config)?;
//! loop {
//!     match process.advance(fuel)? {
//!         Stop::Owes => {
//!             let count = process.waiting().len();
//!             print(process.waiting());
//!             process.released(count);
//!         }
//!         Stop::Asks(question) => process.give(&find(question))?,
//!         Stop::Spent | Stop::Ended(_) => break,
//!     }
//! }
//! ```
//!
//! Here `print` and `find` are the caller's.
//!
//! # Promises
//!
//! Contracts speak of every process of the rules that the code's process shows.
//!
//! - `Process::start`: the process shows each start of the module under its configuration
//!   (`started`). A fault names the first thing that isn't there (`refused`).
//! - `advance`: whichever process was shown, it takes steps after which nothing is owed, and then
//!   at most one after which something is. Each stop and each error is true of the process that is
//!   then shown (`advances`).
//! - `give` takes an answer only where that is wanted and no line waits (`gives`). The waiting call
//!   is performed with it, as one step, and nothing else runs. After an error nothing has changed.
//! - `released` takes the first lines off that wait, and changes nothing else. `widen` puts a
//!   process of version 1 into version 2: what was shown is shown widened.
//! - `from_parts`: there is a process with these parts exactly where a process has them (`exact`,
//!   `made`).
//! - `into_legacy`: what another process goes on from, with other code: `left_by` of this one.
//!   There is none only where no step more can be counted (`exact`). `start_from`: the process is
//!   what the module comes to by going on from that, and by nothing else (`succeeded`).
//! - `Process::close` lets a process go, and takes no memory.
//! - `steps`, `answers`, `requests`, `lines` and the other getters say what it holds. Steps are
//!   below 2^63, and lines below 2^63 - 2, unfinished ones counted. `P3 StepsSpent` is told where
//!   the next step would go beyond.
//!
//! # Definitions to read
//!
//! In `specs/rules/`: `ProcessValue`, `ShowsProcess`, `HasStarted` (`Values.antt`);
//! `AdvancesProcess`, `StopsFor`, `FailsFor`, `GivesAnswer` (`Stops.antt`); `process_from`
//! (`Restored.antt`); `LegacyValue`, `left_by`, `HasSucceeded` (`Legacies.antt`). A process of the
//! rules is `ProcessState` of `process_rules`.
//!
//! # Who may touch what
//!
//! Only this crate puts the machine and its host together, and lends the guest's memory to a call.
//! `record_replay` and `worker` run a process. `state_image` reads what it holds, and makes it
//! again of its parts. `start` takes all memory that the machine needs. Later only a step of the
//! host's calls takes any. After an error the process is as it was after its last whole step.
#![tactic(auto)]

mod answering;
mod calling;
mod closing;
mod fault;
pub mod laws;
mod legacy;
mod process;
mod restoring;
mod running_process;
mod stop;
mod stretch;
mod succeeding;

pub use fault::ProcessFault;
pub use legacy::Legacy;
pub use process::Process;
pub use restoring::ProcessParts;
pub use stop::{ProcessEnd, Stop};

//! The commands on a worker's disk (this project's own). A worker is created, run, upgraded, shown,
//! inspected and copied. A command works on bytes, disks, readers and writers that are lent to it,
//! and answers the exit status. What it says and reads is of `command_words`.
//!
//! # Example
//!
//! Where the worker of a disk is, in one line:
//!
//! ```text
//! let out = &mut Printer::new(out, false);
//! let seen = Seen { path: "worker.disk", is_live: false };
//! let status = look_at_file(alloc, rt, seen, Look::Survey, out, &mut err);
//! ```
//!
//! # Promises
//!
//! Each is in full at the head of its module, and with its clauses in `docs/PROMISES.md`.
//!
//! - `create_disk`, `create_on`: `Done` only if the worker is created and `created N sectors`
//!   printed. A file that was made is left at its path where the status is `Done`, and else removed
//!   again. Of a worker that succeeds another one `create_disk` says `Done` only if it goes on from
//!   what that has left. The old disk is only synced and read.
//! - `run_file`, `serve`: all that is done of a worker is one life that goes on, in slices of the
//!   fuel and checkpoints of the pace. Each status has its cause, and the last words are true.
//! - `upgrade_file`, `upgrade_worker`: one life without an answer, and an upgrade in it; `Done`
//!   only if the worker is in version 2. Last it is said how many lines were told.
//! - `look_at_file`: what the disk at the path shows is printed whole, or what keeps it from that
//!   is told. The disk is only synced. A live one isn't even that: a picture of it is looked at.
//! - `save_file`, `save_on`: `Done` only if each cut leaves the copy with the bytes of the disk, or
//!   of its picture. A cut at any moment leaves no worker in the copy, or all of it.
//! - `extract_file`: `Done` only if all files of the worker are written into a new folder. Nothing
//!   is made outside it, and else it is removed again.
//! - `Watcher`, `WatchFiles`, `watch_files_of`, `StatusFile`, `status_file_of`: who is told where
//!   the worker is. No file is touched but one that was found free.
//! - `report_input`, `report_open`, `report_unread`: why an input or a file isn't taken.
//! - `laws`: what statuses come from, which answers come from the lines, what a copy stands for.
//!
//! # Definitions to read
//!
//! `docs/DEFINITIONS.md` lists all of `specs/rules/`. For each promise above, read first:
//! `CreatesDisk` (`MadeFiles.antt`), `SucceedsFrom` (`SuccessorDisks.antt`); `RunsFile`,
//! `UpgradesFile` (`ServedFiles.antt`), `ServesOnDisk`, `LivesOnDisk` (`ServedOnDisk.antt`),
//! `UpgradesOnDisk` (`Upgradings.antt`), `counting` (`ToldLines.antt`); `TellsFile`
//! (`LookedFiles.antt`), `IsPictureAt` (`LivePictures.antt`); `SavesFile` (`SavedCopies.antt`);
//! `ExtractsFile` (`ExtractedTrees.antt`), `IsBelow` (`NewTrees.antt`); `WatchesEnd`
//! (`Watchings.antt`), `IsWatchable` (`StatusFiles.antt`); `SaysOfInput` (`Leavings.antt`),
//! `open_words` (`Openings.antt`). Of what is printed: `last_words` (`LastWords.antt`),
//! `TellsFrames` (`TrapFrames.antt`), `survey_line` (`Showings.antt`), `facts_words`
//! (`Facts.antt`), `disk_facts` (`DiskFacts.antt`), `listing_text` (`Inspectings.antt`),
//! `records_text` (`Histories.antt`), `metrics_text` (`Metrics.antt`). In `specs/laws/`, what the
//! laws say: `SaysOnDisk`, `HasToldItsLines` (`DiskCauses.antt`); `AreOfLines` (`Answered.antt`);
//! `UnwrittenIsAFailedWrite` (`Released.antt`); `CountsWhatItTakes` (`Counted.antt`);
//! `CopiesWhatStands` (`Copied.antt`).
//!
//! # Who may touch what
//!
//! `wasmhost` calls this crate. Lives are run by `worker`, and all is read and said by
//! `command_words`. A disk is lent to each call of a worker on it. Beside these only `open_disk`,
//! `create_disk`, `save_file`, `live` and `succession` touch one, and `trap_frames`, which reads
//! the module of a worker that has trapped. These five, `SeedFiles`, `WatchedPaths`, `StatusFile`
//! and `NewTrees` are the places here that open a file. `WatchFiles` reads the machine's clock.
#![tactic(auto)]

mod inspecting;
pub mod laws;
mod on_disk;

pub use inspecting::{inspect_disk, list_files, tell_history};
pub use on_disk::{
    CountedLines, Drive, FoundFile, Look, MadeNode, Mark, NewTree, NewTrees, NodeFile, Outcome,
    Pace, SeedFiles, Seen, Sighting, StatusFile, System, Upgraded, WatchFiles, WatchPaths,
    WatchedPaths, WatchedState, Watcher, create_disk, create_on, extract_file, look_at_file,
    open_disk, report_input, report_open, report_unread, run_file, save_file, save_on, serve,
    spelled_metrics, spelled_status, status_file_of, survey, upgrade_file, upgrade_worker,
    watch_files_of,
};
pub use worker::Worker;

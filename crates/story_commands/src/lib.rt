//! Scripts of a worker's lives, which are told as a story, or swept by cuts (this project's own).
//! The disks are in memory. A command works on bytes and writers that are lent to it, and answers
//! the exit status.
//!
//! # Example
//!
//! A worker is created, takes a request, runs 20 steps and is cut. Then it is recovered:
//!
//! ```text
//! let out = &mut Printer::new(out, false);
//! let sizes = Sizes { pages: 1, files: 1, journal: 64 };
//! let script: &[u8] = b"life\nrequest hello\nslice 20\nlife\n";
//! let status = tell(alloc, script, wasm, sizes, out, err);
//! ```
//!
//! # Promises
//!
//! - `read_script`: the lives that a script of a story spells (`IsScript`). A fault names the first
//!   line after which the lines are no script, and why (`IsFaultAt`), or memory has run out.
//! - `tell`: `Done` says that a whole story was printed. The story is of lives with what the script
//!   put into each, which go on as one that was never stopped. What the other statuses say is said
//!   too (`TellsStory`). `report_script` tells a fault of a script.
//! - `tell_sweep`: `Done` says that the lives of a calm script (`IsCalmScript`) were run without a
//!   cut, did all that they were told (`HasDoneAll`), and take all answers that the script has for
//!   them (`TakesAllAnswers`). Then these lives were run with the power cut at each call of one of
//!   them, for each prefix (`cuts_to`). Each cut's lives are told as those of a story are
//!   (`TellsLives`). Those after the cut did all that they were told, and handed out all answers
//!   that were not kept (`cut_at`). Over all lives each number has one text, none is missing, and
//!   the first are those without a cut (`IsCutRun`). The printed line says how many cuts and lines
//!   these are (`IsSweepDone`). `Different` says that lives without a cut, or those of one, were
//!   run and told (`AreCompared`). `Usage` says what is wrong (`IsUnsweepable`): the script, a life
//!   that ended by an error or takes fewer answers (`LeavesAnswers`), or an upgrade done again
//!   without a cut. `Unwritten` comes just where a write has failed.
//! - `read_sweep`: the lives that the script spells, and which one is swept (`AreSweptLives`), or
//!   what is wrong with it (`IsUnreadSweep`). `fronts_of`: the fronts that a text spells.
//! - `laws::answers_are_read_back`: what a script says of an answer is read as that answer.
//!
//! # Definitions to read
//!
//! In `specs/rules/`: `said_by`, `AreLivesOf`, `IsScript`, `line_cause` (`Scripts.antt`);
//! `story_text`, `TellsStory` (`Stories.antt`); `lives_after`, `cut_at`, `cuts_to`, `AreTextsOf`,
//! `TakesAnswers`, `IsSwept` (`Sweeps.antt`); `TellsSweep` (`SweepTexts.antt`). In `specs/laws/`:
//! `AnswersAreReadBack` (`ReadBack.antt`).
//!
//! # Who may touch what
//!
//! `wasmhost` calls this crate. Lives are run by `worker`, and all is read and said by
//! `command_words`. The crate opens no file, and knows nothing of `disk_commands`.
#![tactic(auto)]

pub mod laws;
mod stories;
mod sweeping;

pub use stories::{LineCause, ScriptFault, ScriptLine, read_script, report_script, tell};
pub use sweeping::{
    SweepChoice, SweepScriptFault, SweptLives, fronts_of, read_sweep, report_sweep_script,
    tell_sweep,
};

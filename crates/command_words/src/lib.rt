//! The words of the program's command line, request lines in and printed lines out, verdicts on
//! modules, and exit statuses (this project's own). All that the commands need and that no worker
//! is needed for.
//!
//! # Example
//!
//! ```text
//! match read_words(alloc, &["wasmhost", "check", "guest.wasm"]) {
//!     Ok(Order::Check(order)) => ..,
//!     Ok(other) => ..,
//!     Err(fault) => ..,
//! }
//! ```
//!
//! # Promises
//!
//! Each is in full at the head of the module that has the function. `docs/PROMISES.md` has them
//! with their clauses.
//!
//! - `read_words`: an order is exactly what the words mean, and a fault one that they have.
//! - `Status`: one of the eight exit statuses, and its number.
//! - `check_bytes`, `check_module`: `Done` only if the bytes spell a module that is accepted, and
//!   `Refused` only if they don't, or the pages are out of bounds.
//! - `prepare`, `report_unprepared`: what a worker needs, before there is a disk, or why it can't
//!   be had.
//! - `RequestSource`, `LineReader`, `BufferedLines`, `WholeLines`, `read_request`: request lines,
//!   in their order, and why one is refused. Clocks and random words come from the outside
//!   (`Outside`, `RealTime`).
//! - `LineOutlet`, `Printer`: all that the program says is printed by one that knows whether a
//!   write has failed. `Unwritten` comes with a failed write.
//! - `read_seed`, `seeded`, `read_module`, `split_once`, `cut_line`, `digest_digits`, `spell_line`,
//!   `spell_answer`, `spell_record`, `spell_told_text`, `is_printable`, `name_in`, `print_name`,
//!   `say_text`, `say_line`, `report`, `report_words`, `report_output`: the words of all these.
//! - `laws`: words without a fault mean an order, by rules and by over a hundred examples.
//!
//! # Definitions to read
//!
//! In `specs/rules/`: `GivesAnswers`, `GiveUpTo` (`Requests.antt`); `ComeFrom`, `requests_in`
//! (`Outside.antt`); `seeded_bytes` (`Seeds.antt`); `printed`, `request_line` (`Texts.antt`);
//! `IsPreparedAs`, `IsUnprepared`, `config_as` (`Preparations.antt`); `wasmhost`, `version_words`
//! (`CommandLine.antt`); `meaning_in`, `IsReading`, `IsStatusOf` (`Commands.antt`); `status_code`
//! (`Statuses.antt`); `IsOutOfBounds`, `range_words` (`Bounds.antt`); `TellsLimit`
//! (`ModuleLimits.antt`); `IsUnnamedEntry`, `entry_text` (`Entries.antt`); `TellsMore`
//! (`Verdicts.antt`); `ListsAll` (`Listings.antt`); `ChecksModule` (`Checks.antt`); `TellsOfFloat`
//! (`Floats.antt`); `IsFlawIn`, `flaw_words` (`Flaws.antt`); `PrinterState`, `IsSaid`, `SaysText`,
//! `HeedsBoth`, `TellsPerson` (`Printers.antt`); `SaysOfOutput` (`Reports.antt`); `lines_of`
//! (`Pieces.antt`); `IsWholeFront`, `TakesIn` (`WholeLines.antt`); `PrintsOneLine` (`Prints.antt`);
//! `answer_words`, `record_line` (`Records.antt`). In `specs/laws/`, what the laws say:
//! `all_printed` (`Printed.antt`).
//!
//! # Who may touch what
//!
//! Only this crate knows how lines, requests and words are spelled, and the exit statuses
//! (`Status`). `disk_commands`, `story_commands` and `wasmhost` use the crate, which uses `machine`
//! and `record_replay`. Want of memory is `OutOfMemory`. No disk is touched, and no file is opened.
#![tactic(auto)]

mod bounds;
mod check;
mod command_line;
mod configuring;
mod digests;
mod entries;
mod function_names;
pub mod laws;
mod lines;
mod module_bytes;
mod module_limits;
mod pieces;
mod preparing;
mod printer;
mod seed;
mod status;
mod telling;
mod verdicts;

pub use bounds::Bound;
pub use check::{check_bytes, check_module};
pub use command_line::{
    CheckOrder, CreateOrder, FilesOrder, Order, RunOrder, StoryOrder, SweepOrder, WordsFault,
    read_words,
};
pub use configuring::Sizes;
pub use digests::digest_digits;
pub use function_names::{name_in, print_name};
pub use lines::{
    BufferedLines, LineFault, LineFlaw, LineOutlet, LineReader, NumberedRequests, Outside,
    ReadAhead, RealTime, Request, RequestSource, WholeLines, count_later, flaw_in, is_printable,
    nanoseconds_of, read_decimal, read_request, spell_answer, spell_line, spell_record,
    spell_told_text, split_at_space, trap_name, words_of_cut, words_of_limit,
};
pub use module_bytes::read_module;
pub use pieces::{cut_line, split_once};
pub use preparing::{Prepared, Unprepared, prepare, report_unprepared, sectors_of};
pub use printer::{Printer, say_text};
pub use seed::{read_seed, seeded};
pub use status::{Status, status_of_line};
pub use telling::{Obstacle, report, report_output, report_words, say_line};

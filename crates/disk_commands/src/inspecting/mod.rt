//! Commands that look into a disk.
//!
//! # Promises
//!
//! - `inspect_disk`: all facts of the disk are printed, or what keeps it from that is told
//!   (`TellsDisk`). There is one list of facts (`disk_facts`), which is printed as one fact a line,
//!   or as one JSON value (`facts_words`).
//! - `list_files`: the files of the saved process are listed, or the bytes of one are written
//!   (`TellsFiles`).
//! - `tell_history`: the records after the newest snapshot are printed, exactly those and in their
//!   order (`TellsHistory`).
//! - `look_at_file` says these of a disk of which no call was made since it was opened
//!   (`TellsFile`).

mod fact;
mod fact_json;
mod fact_text;
mod facts;
mod files;
mod history;
mod host_facts;
mod looking;
mod process_facts;
mod record_facts;

pub use files::list_files;
pub use history::tell_history;
pub use looking::inspect_disk;

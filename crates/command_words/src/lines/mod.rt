//! The outside of a worker that is run by a program: request lines of a reader, times and random
//! bytes in, released lines to a writer, and the names that last words give to traps.

mod buffered;
mod fault;
mod flaw;
mod later;
mod line;
mod numbered;
mod outlet;
mod outside;
mod printing;
mod reader;
mod real_time;
mod records;
pub mod request;
mod source;
mod trap_names;
mod whole;

pub use buffered::BufferedLines;
pub use fault::LineFault;
pub use flaw::{LineFlaw, flaw_in, words_of_cut, words_of_limit};
pub use later::count_later;
pub use numbered::NumberedRequests;
pub use outlet::LineOutlet;
pub use outside::Outside;
pub use printing::spell_line;
pub use reader::{LineReader, ReadAhead};
pub use real_time::{RealTime, nanoseconds_of};
pub use records::{is_printable, spell_answer, spell_record, spell_told_text};
pub use request::{Request, read_decimal, read_request, split_at_space};
pub use source::RequestSource;
pub use trap_names::trap_name;
pub use whole::WholeLines;

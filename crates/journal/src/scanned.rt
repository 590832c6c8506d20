//! What a journal was found to hold.

use disk_layout::Record;

/// The records of a generation, in the order in which they were appended.
#[derive(Debug, Drop)]
pub struct ScannedJournal {
    pub records: Vec<Record>,
    /// Whether the first sector shows a later generation at its place. Then there are no records.
    pub shows_later: bool,
}

/// The bytes of those records, one after another, and the same of the first sector.
#[derive(Drop)]
pub(crate) struct Payloads {
    pub(crate) bytes: Vec<u8>,
    pub(crate) shows_later: bool,
}

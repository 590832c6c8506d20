//! What is on a worker's disk, whole.

use disk_layout::{Contents, Record};
use process::Process;
use wasi_abi::Question;

/// Configuration and module, and the newest snapshot: the process that it has saved, and the
/// records after it.
#[derive(Drop)]
pub struct Inspection {
    pub contents: Contents,
    pub generation: u64,
    /// How many bytes the snapshot's image has.
    pub process_image_bytes: u64,
    /// The process as it was saved.
    pub process: Process,
    /// What its next step waits for.
    pub question: Option<Question>,
    pub records: Vec<Record>,
    /// Sectors of the journal after those that these records fill: as many as a next barrier could
    /// still write.
    pub journal_left: u64,
}

impl Inspection {
    /// Lets go of what was told.
    pub fn close(self) {
        drop(self);
    }
}

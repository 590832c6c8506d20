//! What a worker hands over to the next one.

use process::Legacy;

/// What the next worker goes on from, and what it doesn't get.
#[derive(Drop)]
pub struct Handover {
    pub legacy: Legacy,
    /// Bytes of unfinished lines, of both streams. No worker tells them.
    pub dropped: u64,
}

impl Handover {
    /// Lets go of what was handed over.
    pub fn close(self) {
        let Handover { legacy, .. } = self;
        legacy.close();
    }
}

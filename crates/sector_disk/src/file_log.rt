//! What a file answered, and whether it is asked further.
ghost use Rattle.std.specs.Prelude.{◌≡◌, [], ◌∷◌};
ghost use Rattle.sector_disk.specs.rules.Answered.{is_given_up, gives_up_on};

use crate::SECTOR_SIZE;
use crate::file_call::{Failure, FileCall};
use crate::log::Log;

/// Each call of a file with its answer. Code can read no more of them than whether a write or a
/// sync has failed.
#[derive(Drop)]
pub(crate) struct FileLog {
    pub(crate) log: Log<FileCall, [u8; SECTOR_SIZE]>,
    has_failed: bool,
    ghost agrees: { has_failed ≡ is_given_up log.items },
}

impl FileLog {
    pub(crate) fn new() -> FileLog
        ensures { result.log.items ≡ [] }
    {
        FileLog {
            log: Log::new(),
            has_failed: false,
        }
    }

    /// The log with one answer more.
    pub(crate) fn and(&self, call: FileCall, bytes: &[u8; SECTOR_SIZE]) -> FileLog
        ensures { result.log.items ≡ (call, bytes.now) ∷ self.now.log.items }
    {
        FileLog {
            log: self.log.and(&call, bytes),
            has_failed: gives_up_on(call, self.has_failed),
        }
    }

    /// Whether a write or a sync of the file has failed.
    pub(crate) fn is_given_up(&self) -> bool
        ensures { result ≡ is_given_up self.now.log.items }
    {
        self.has_failed
    }
}

/// Whether the file is given up once it has answered so.
fn gives_up_on(call: FileCall, was_given_up: bool) -> bool
    ensures { result ≡ gives_up_on call was_given_up }
{
    match call {
        FileCall::Tore(_) | FileCall::Failed(Failure::OfSync) => true,
        FileCall::Read(_) | FileCall::Wrote(_) | FileCall::Synced | FileCall::Failed(_) => {
            was_given_up
        }
    }
}

//! Where the lines of a life go.
//!
//! This outlet refuses a line only for lack of memory. The memory is that of the report, so there
//! is then no report.

ghost use Rattle.std.specs.Prelude.{◌≡◌, [], false};

use record_replay::{LineList, Outlet, OutletFault};
use std::alloc::Global;
use wasi_calls_rules::OutputStream;

/// The lines of a life, and whether one was refused, which happens only when out of memory.
#[derive(Debug, Drop)]
pub(crate) struct HeardLines {
    pub(crate) lines: LineList,
    pub(crate) has_refused: bool,
}

impl HeardLines {
    pub(crate) fn new(alloc: Global) -> Self
        ensures none { result.lines ≡ [] }
        ensures unrefused { result.has_refused ≡ false }
    {
        HeardLines {
            lines: LineList::new(alloc),
            has_refused: false,
        }
    }
}

impl Outlet for HeardLines {
    ghost use Rattle.worker.specs.Hearing.{HearsLine};

    ghost takes = { λ old number line said new. HearsLine old number line said new };

    fn release(
        &mut self,
        number: u64,
        stream: OutputStream,
        text: &[u8],
    ) -> Result<(), OutletFault> {
        match self.lines.release(number, stream, text) {
            Ok(()) => Ok(()),
            Err(fault) => {
                self.has_refused = true;
                Err(fault)
            }
        }
    }
}

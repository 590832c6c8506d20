//! An outlet that keeps what is released to it.

ghost use Rattle.std.specs.Prelude.{◌≡◌, [], ◌++◌, ◌∷◌};

use crate::{Outlet, OutletFault};
use std::alloc::Global;
use std::marker::Model;
use wasi_calls_rules::OutputStream;
use wasm_syntax::ItemList;

/// A line, its number from 1 on, and the stream that it was written to.
#[derive(Debug, Drop)]
pub struct NumberedLine {
    pub number: u64,
    pub stream: OutputStream,
    pub text: ItemList<u8>,
}

/// The lines that were released to it, in order. Contracts see their list. It fails only when out
/// of memory, and then it keeps what it had.
#[derive(Debug, Drop)]
pub struct LineList {
    alloc: Global,
    lines: Vec<NumberedLine>,
}

impl Model for LineList {
    ghost use Rattle.std.specs.Prelude.{List};
    ghost use Rattle.record_replay.specs.declared.line_list.NumberedLine.{NumberedLine};

    ghost Value = { List NumberedLine };

    ghost view = { λ o. o.lines.items };
}

impl LineList {
    pub fn new(alloc: Global) -> Self
        ensures { result ≡ [] }
    {
        LineList {
            alloc,
            lines: Vec::new(alloc),
        }
    }

    pub fn lines(&self) -> &[NumberedLine]
        ensures { result.now ≡ self.now }
    {
        self.lines.as_slice()
    }
}

impl Outlet for LineList {
    ghost use Rattle.record_replay.specs.rules.Lists.{KeepsLine};

    ghost takes = { λ old number line said new. KeepsLine old number line said new };

    fn release(
        &mut self,
        number: u64,
        stream: OutputStream,
        text: &[u8],
    ) -> Result<(), OutletFault> {
        let Ok(text) = text.to_vec(self.alloc) else {
            return Err(OutletFault);
        };
        let line = NumberedLine {
            number,
            stream,
            text: ItemList::from_vec(text),
        };
        match self.lines.push(line) {
            Ok(()) => Ok(()),
            Err(_) => Err(OutletFault),
        }
    }
}

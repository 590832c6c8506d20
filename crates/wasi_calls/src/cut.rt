//! Bytes of a stream, cut into lines.

ghost use Rattle.std.specs.Prelude.{◌≡◌, [], ◌∷◌, ◌++◌, IfOk, OnOk};
ghost use Rattle.wasi_calls_rules.specs.Checks.{gathered};
ghost use Rattle.wasi_calls_rules.specs.Lines.{cut_byte, cut_all};
ghost use Rattle.wasi_calls.specs.Moves.{AreInside};

use crate::buffers::Buffers;
use crate::line::Line;
use guest_memory::Memory;
use std::alloc::{AllocError, Global};
use std::marker::Model;
use std::mem;
use wasi_calls_rules::OutputStream;
use wasi_calls_rules::limits::LINE_BYTES;

/// Whole lines, and the bytes of the line that is not finished.
#[derive(Drop)]
pub struct Cut {
    lines: Vec<Line>,
    unfinished: Vec<u8>,
}

impl Model for Cut {
    ghost use Rattle.wasi_calls_rules.specs.Lines.{Cut as LinesAndRest};

    ghost Value = { LinesAndRest };

    ghost view = { λ c. record { lines = c.lines.items; unfinished = c.unfinished.items } };
}

impl Cut {
    /// What the bytes of buffers make of an unfinished line. It fails only when out of memory.
    pub fn of(
        alloc: Global,
        stream: OutputStream,
        unfinished: &[u8],
        memory: &Memory,
        buffers: &Buffers,
    ) -> Result<Cut, AllocError>
        requires { AreInside memory.now.bytes buffers.now }
        ensures { IfOk result (λ c. c ≡ cut_all stream
            (record { lines = []; unfinished = unfinished.now })
            (gathered memory.now.bytes buffers.now)) }
    {
        let mut cut = Cut {
            lines: Vec::new(alloc),
            unfinished: unfinished.to_vec(alloc)?,
        };
        for buffer in buffers.as_slice() {
            cut.put_all(alloc, stream, buffer.bytes(memory))?;
        }
        Ok(cut)
    }

    /// The lines, and the rest.
    pub fn into_parts(self) -> (Vec<Line>, Vec<u8>)
        ensures lines { result.0.items ≡ self.lines }
        ensures rest { result.1.items ≡ self.unfinished }
    {
        let Cut { lines, unfinished } = self;
        (lines, unfinished)
    }

    fn put_all(
        &mut self,
        alloc: Global,
        stream: OutputStream,
        bytes: &[u8],
    ) -> Result<(), AllocError>
        ensures { OnOk result (self.new ≡ cut_all stream self.old bytes.now) }
    {
        for byte in bytes {
            self.put(alloc, stream, *byte)?;
        }
        Ok(())
    }

    fn put(&mut self, alloc: Global, stream: OutputStream, byte: u8) -> Result<(), AllocError>
        ensures { OnOk result (self.new ≡ cut_byte stream self.old byte) }
    {
        if byte == b'\n' {
            return self.end_line(alloc, stream);
        }
        if self.unfinished.len() >= LINE_BYTES {
            self.end_line(alloc, stream)?;
        }
        self.unfinished.push(byte)?;
        Ok(())
    }

    fn end_line(&mut self, alloc: Global, stream: OutputStream) -> Result<(), AllocError>
        ensures { OnOk result (self.new ≡ record {
          lines = self.old.lines
              ++ record { stream = stream; text = self.old.unfinished } ∷ [];
          unfinished = [];
        }) }
    {
        let text = mem::replace(&mut self.unfinished, Vec::new(alloc));
        self.lines.push(Line::new(stream, text))?;
        Ok(())
    }
}

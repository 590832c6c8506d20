//! Lines that bytes begin.

ghost use Rattle.std.specs.Prelude.{◌≡◌, ◌+◌, ◌<◌, ◌≤◌, ◌^◌, List, ◌∷◌, ◌++◌, ℕ, length};
ghost use Rattle.wasi_calls_rules.specs.Checks.{gathered};
ghost use Rattle.wasi_calls_rules.specs.declared.limits.TheConstants.{MOVED_BYTES};
ghost use Rattle.wasi_calls.specs.rules.Outputs.{count_begun};
ghost use Rattle.wasi_calls.specs.Moves.{AreInside};

use crate::buffers::Buffers;
use guest_memory::Memory;
use wasi_calls_rules::limits::LINE_BYTES;

/// How many lines bytes begin, one run of bytes after another. It takes no memory.
#[derive(Clone, Copy, Debug)]
pub struct LineCount {
    begun: usize,
    /// How many bytes are unfinished.
    unfinished: usize,
}

impl LineCount {
    /// None, where so many bytes are unfinished.
    pub fn new(unfinished: usize) -> LineCount
        ensures none { result.begun ≡ 0 }
        ensures before { result.unfinished ≡ unfinished }
    {
        LineCount {
            begun: 0,
            unfinished,
        }
    }

    /// How many lines were begun.
    pub fn count(&self) -> usize
        ensures { result ≡ self.now.begun }
    {
        self.begun
    }

    /// Counts on over more bytes.
    pub fn put(&mut self, bytes: &[u8])
        requires { self.old.begun + length bytes.now < 2 ^ 64 }
        ensures counts { (rest : List ℕ) → self.new.begun + count_begun self.new.unfinished rest
            ≡ self.old.begun + count_begun self.old.unfinished (bytes.now ++ rest) }
        ensures few { self.new.begun ≤ self.old.begun + length bytes.now }
    {
        for byte in bytes {
            self.put_byte(*byte);
        }
    }

    fn put_byte(&mut self, byte: u8)
        requires { self.old.begun + 1 < 2 ^ 64 }
        ensures counts { (rest : List ℕ) → self.new.begun + count_begun self.new.unfinished rest
            ≡ self.old.begun + count_begun self.old.unfinished (byte ∷ rest) }
        ensures few { self.new.begun ≤ self.old.begun + 1 }
    {
        if self.unfinished == 0 || (byte != b'\n' && self.unfinished >= LINE_BYTES) {
            self.begun += 1;
            self.unfinished = 0;
        }
        if byte == b'\n' {
            self.unfinished = 0;
        } else {
            self.unfinished += 1;
        }
    }
}

/// How many lines the bytes of buffers begin on a stream with so many unfinished ones.
pub fn count_begun(memory: &Memory, buffers: &Buffers, unfinished: usize) -> usize
    requires { AreInside memory.now.bytes buffers.now }
    ensures value { result ≡ count_begun unfinished (gathered memory.now.bytes buffers.now) }
    ensures few { result ≤ MOVED_BYTES }
{
    let mut lines = LineCount::new(unfinished);
    for buffer in buffers.as_slice() {
        lines.put(buffer.bytes(memory));
    }
    lines.count()
}

//! A sink that keeps what it takes.

ghost use Rattle.std.specs.Prelude.{◌≡◌, []};

use crate::sink::Sink;
use std::alloc::{AllocError, Global};
use std::marker::Model;

/// The bytes that it has taken. It refuses a piece only when out of memory, and then it keeps what
/// it had.
#[derive(Debug, Drop)]
pub struct ByteSink {
    bytes: Vec<u8>,
}

impl Model for ByteSink {
    ghost use Rattle.std.specs.Prelude.{List, ℕ};

    ghost Value = { List ℕ };

    ghost view = { λ s. s.bytes.items };
}

impl ByteSink {
    /// It has taken nothing.
    pub fn new(alloc: Global) -> ByteSink
        ensures { result ≡ [] }
    {
        ByteSink {
            bytes: Vec::new(alloc),
        }
    }

    /// The bytes that it has taken.
    pub fn into_bytes(self) -> Vec<u8>
        ensures { result.items ≡ self }
    {
        let ByteSink { bytes } = self;
        bytes
    }
}

impl Sink for ByteSink {
    type Fault = AllocError;

    ghost use Rattle.state_image.specs.rules.Sinks.{KeepsBytes};

    ghost takes = { λ old piece said new. KeepsBytes old piece said new };

    fn push(&mut self, bytes: &[u8]) -> Result<(), AllocError> {
        self.bytes.extend_from_slice(bytes)
    }
}

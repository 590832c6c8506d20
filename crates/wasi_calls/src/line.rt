//! Lines that a process has written.

ghost use Rattle.std.specs.Prelude.{◌≡◌};

use std::marker::Model;
use wasi_calls_rules::OutputStream;

/// A line without its newline, and the stream that it was written to.
#[derive(Debug, Drop)]
pub struct Line {
    stream: OutputStream,
    text: Vec<u8>,
}

impl Model for Line {
    ghost use Rattle.wasi_calls_rules.specs.WasiStates.{Line as Written};

    ghost Value = { Written };

    ghost view = { λ l. record { stream = l.stream; text = l.text.items } };
}

impl Line {
    pub(crate) fn new(stream: OutputStream, text: Vec<u8>) -> Line
        ensures { result ≡ record { stream = stream; text = text.items } }
    {
        Line { stream, text }
    }

    /// Where it was written to.
    pub fn stream(&self) -> OutputStream
        ensures { result ≡ self.now.stream }
    {
        self.stream
    }

    /// Its bytes.
    pub fn text(&self) -> &[u8]
        ensures { result.now ≡ self.now.text }
    {
        self.text.as_slice()
    }
}

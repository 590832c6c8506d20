//! The streams that a guest writes lines to.

/// The stream that a line was written to.
#[derive(Clone, Copy, Debug, PartialEq, Eq)]
pub enum OutputStream {
    /// The output, which is descriptor 1 when a process begins.
    Stdout,
    /// The error output, which is descriptor 2.
    Stderr,
}

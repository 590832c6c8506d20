//! The exit statuses of the program.

ghost use Rattle.std.specs.Prelude.{◌≡◌};
ghost use Rattle.command_words.specs.rules.Statuses.{status_code, status_of_line};

use crate::lines::LineFault;

/// How a command has ended.
#[derive(Clone, Copy, Debug, PartialEq, Eq)]
pub enum Status {
    /// What was asked for is done.
    Done,
    /// A cut of a sweep differs from the run without one.
    Different,
    /// A command line or a script isn't understood, or a script can't be swept.
    Usage,
    /// A module, a configuration, a disk or an upgrade is refused, or a number can't be counted
    /// further.
    Refused,
    /// A file, a disk or the input fails.
    IoError,
    OutOfMemory,
    /// A request line is refused.
    BadLine,
    /// A write of the output has failed.
    Unwritten,
}

impl Status {
    /// Its number, which the program ends with.
    pub fn code(self) -> u8
        ensures { result ≡ status_code self }
    {
        match self {
            Status::Done => 0,
            Status::Different => 1,
            Status::Usage => 2,
            Status::Refused => 3,
            Status::IoError => 4,
            Status::OutOfMemory => 5,
            Status::BadLine => 6,
            Status::Unwritten => 7,
        }
    }
}

/// The exit status of a request line that isn't taken, or of its reader.
pub fn status_of_line(fault: LineFault) -> Status
    ensures { result ≡ status_of_line fault }
{
    match fault {
        LineFault::Read | LineFault::Clock | LineFault::Words => Status::IoError,
        LineFault::Memory => Status::OutOfMemory,
        LineFault::Number { .. } | LineFault::Form => Status::BadLine,
    }
}

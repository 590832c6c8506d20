//! What an error of the operating system says of a path.
ghost use Rattle.std.specs.Prelude.{◌≡◌};
ghost use Rattle.std.specs.IoError.{raw_os_error};
ghost use Rattle.sector_disk.specs.rules.Causes.{error_cause, lock_fault, numbered_cause};
ghost use Rattle.sector_disk.specs.rules.Causes.{open_cause, system_number};
ghost use Rattle.sector_disk.specs.declared.open_fault.OpenFault.TheVariants.{Io};

use crate::{OpenCause, OpenFault};
use std::fs::TryLockError;
use std::io::{Error, ErrorKind};

/// What an error of this kind says of a path.
fn open_cause(kind: ErrorKind) -> OpenCause
    ensures { result ≡ open_cause kind }
{
    match kind {
        ErrorKind::IsADirectory => OpenCause::Folder,
        ErrorKind::NotADirectory => OpenCause::NoFolder,
        ErrorKind::NotFound => OpenCause::Missing,
        ErrorKind::PermissionDenied => OpenCause::Forbidden,
        ErrorKind::ReadOnlyFilesystem => OpenCause::ReadOnly,
        ErrorKind::AlreadyExists => OpenCause::Exists,
        ErrorKind::StorageFull => OpenCause::NoRoom,
        ErrorKind::QuotaExceeded => OpenCause::Quota,
        ErrorKind::FileTooLarge => OpenCause::TooLarge,
        ErrorKind::InvalidFilename => OpenCause::LongName,
        ErrorKind::FilesystemLoop => OpenCause::Loop,
        ErrorKind::DirectoryNotEmpty => OpenCause::NotEmpty,
        ErrorKind::NotSeekable => OpenCause::NoSectors,
        _ => OpenCause::Other,
    }
}

/// What a number of Linux says of a path that the kit gives no kind: 5 is `EIO`, 23 `ENFILE` and 24
/// `EMFILE`.
fn numbered_cause(number: u32) -> Option<OpenCause>
    ensures { result ≡ numbered_cause number }
{
    match number {
        5 => Some(OpenCause::FailedDevice),
        23 | 24 => Some(OpenCause::ManyFiles),
        _ => None,
    }
}

/// The number of an error of the system. Any other error has 0, which is none.
fn system_number(error: &Error) -> u32
    ensures { result ≡ system_number (raw_os_error error.now) }
{
    match error.raw_os_error() {
        Some(number) => number.unsigned_abs(),
        None => 0,
    }
}

/// What an error says of a path.
fn error_cause(error: &Error) -> OpenCause
    ensures { result ≡ error_cause error.now }
{
    match numbered_cause(system_number(error)) {
        Some(cause) => cause,
        None => open_cause(error.kind()),
    }
}

impl From<Error> for OpenFault {
    ghost from_gives = { λ error fault. fault ≡ Io (error_cause error) };

    fn from(error: Error) -> Self {
        OpenFault::Io(error_cause(&error))
    }
}

impl From<TryLockError> for OpenFault {
    ghost from_gives = { λ error fault. fault ≡ lock_fault error };

    fn from(error: TryLockError) -> Self {
        match error {
            TryLockError::WouldBlock => OpenFault::Busy,
            TryLockError::Error(error) => OpenFault::Io(error_cause(&error)),
        }
    }
}

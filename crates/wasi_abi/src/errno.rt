//! Error numbers of WASI preview 1 (`errno`).

ghost use Rattle.std.specs.Prelude.{◌≡◌};

/// Why a call is refused. Success, 0, is no error.
#[derive(Clone, Copy, Debug, PartialEq, Eq)]
pub enum Errno {
    /// No descriptor has this number.
    Badf = 8,
    Exist = 20,
    /// A range reaches beyond the guest's memory.
    Fault = 21,
    /// A file would be too large.
    Fbig = 22,
    /// A path is not UTF-8.
    Ilseq = 25,
    Inval = 28,
    Isdir = 31,
    /// No descriptor number is free.
    Mfile = 33,
    Nametoolong = 37,
    Noent = 44,
    /// There is no room for a node or for bytes.
    Nospc = 51,
    Notdir = 54,
    Notempty = 55,
    /// A stream has no offset.
    Spipe = 70,
    /// A right is missing, or a path leads out of its directory.
    Notcapable = 76,
}

impl Errno {
    ghost use Rattle.wasi_abi.specs.rules.Numbers.{errno_number};

    /// What a refused call returns to the guest.
    pub fn number(self) -> u32
        ensures { result ≡ errno_number self }
    {
        self as u32
    }
}

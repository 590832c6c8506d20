//! File types (`filetype`).

ghost use Rattle.std.specs.Prelude.{◌≡◌};

/// What a descriptor or an entry of a directory names.
#[derive(Clone, Copy, Debug, PartialEq, Eq)]
pub enum FileType {
    CharacterDevice = 2,
    Directory = 3,
    RegularFile = 4,
}

impl FileType {
    ghost use Rattle.wasi_abi.specs.rules.Numbers.{file_type_number};

    /// What is in a layout.
    pub fn number(self) -> u8
        ensures { result ≡ file_type_number self }
    {
        self as u8
    }
}

//! The versions of a worker: how long texts may be, and how its disk is laid out.

ghost use Rattle.std.specs.Prelude.{◌≡◌};
ghost use Rattle.wasi_abi.specs.rules.Versions.{length_bytes, text_limit, version_number};
ghost use Rattle.wasi_abi.specs.rules.Versions.{widenings};

/// A worker is made in version 1.
#[derive(Clone, Copy, Debug, PartialEq, Eq)]
pub enum Version {
    One,
    Two,
}

impl Version {
    /// Its number, as the head of a snapshot has it.
    pub fn number(self) -> u32
        ensures { result ≡ version_number self }
    {
        match self {
            Version::One => 1,
            Version::Two => 2,
        }
    }

    /// The most bytes of a request's text, and of the random bytes of one call.
    pub fn text_limit(self) -> usize
        ensures { result ≡ text_limit self }
    {
        match self {
            Version::One => 4_096,
            Version::Two => 65_536,
        }
    }

    /// The bytes that spell the length of a record's payload.
    pub fn length_bytes(self) -> usize
        ensures { result ≡ length_bytes self }
    {
        match self {
            Version::One => 2,
            Version::Two => 4,
        }
    }

    /// The answers that a process has taken and nobody gave: that it was widened counts as one.
    pub fn widenings(self) -> u64
        ensures { result ≡ widenings self }
    {
        match self {
            Version::One => 0,
            Version::Two => 1,
        }
    }
}

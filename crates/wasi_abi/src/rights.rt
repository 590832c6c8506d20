//! Rights of a descriptor (`rights`), and the sets of rights of this project's profile.

ghost use Rattle.std.specs.Prelude.{⊤, ◌≡◌, ◌^◌, ℕ, [], ◌∷◌, codes, bit_and};
ghost use Rattle.wasi_abi.specs.rules.Numbers.{rights_number, has_right, are_within};

use bitflags::{Flag, Flags, bitflag_items};

/// What may be done through a descriptor. Bits that have no name are kept as they are.
#[derive(Clone, Copy, PartialEq, Eq, Debug)]
pub struct Rights(u64);

bitflag_items! {
    impl Rights: u64 {
        const FD_DATASYNC = 1 << 0;
        const FD_READ = 1 << 1;
        const FD_SEEK = 1 << 2;
        const FD_FDSTAT_SET_FLAGS = 1 << 3;
        const FD_SYNC = 1 << 4;
        const FD_TELL = 1 << 5;
        const FD_WRITE = 1 << 6;
        const FD_ADVISE = 1 << 7;
        const FD_ALLOCATE = 1 << 8;
        const PATH_CREATE_DIRECTORY = 1 << 9;
        const PATH_CREATE_FILE = 1 << 10;
        const PATH_LINK_SOURCE = 1 << 11;
        const PATH_LINK_TARGET = 1 << 12;
        const PATH_OPEN = 1 << 13;
        const FD_READDIR = 1 << 14;
        const PATH_READLINK = 1 << 15;
        const PATH_RENAME_SOURCE = 1 << 16;
        const PATH_RENAME_TARGET = 1 << 17;
        const PATH_FILESTAT_GET = 1 << 18;
        const PATH_FILESTAT_SET_SIZE = 1 << 19;
        const PATH_FILESTAT_SET_TIMES = 1 << 20;
        const FD_FILESTAT_GET = 1 << 21;
        const FD_FILESTAT_SET_SIZE = 1 << 22;
        const FD_FILESTAT_SET_TIMES = 1 << 23;
        const PATH_SYMLINK = 1 << 24;
        const PATH_REMOVE_DIRECTORY = 1 << 25;
        const PATH_UNLINK_FILE = 1 << 26;
        const POLL_FD_READWRITE = 1 << 27;
        const SOCK_SHUTDOWN = 1 << 28;
    }
}

impl Flags for Rights {
    type Bits = u64;

    ghost exact = { ⊤ };

    ghost table = { (codes "FD_DATASYNC", 1)
        ∷ (codes "FD_READ", 2)
        ∷ (codes "FD_SEEK", 4)
        ∷ (codes "FD_FDSTAT_SET_FLAGS", 8)
        ∷ (codes "FD_SYNC", 16)
        ∷ (codes "FD_TELL", 32)
        ∷ (codes "FD_WRITE", 64)
        ∷ (codes "FD_ADVISE", 128)
        ∷ (codes "FD_ALLOCATE", 256)
        ∷ (codes "PATH_CREATE_DIRECTORY", 512)
        ∷ (codes "PATH_CREATE_FILE", 1024)
        ∷ (codes "PATH_LINK_SOURCE", 2048)
        ∷ (codes "PATH_LINK_TARGET", 4096)
        ∷ (codes "PATH_OPEN", 8192)
        ∷ (codes "FD_READDIR", 16384)
        ∷ (codes "PATH_READLINK", 32768)
        ∷ (codes "PATH_RENAME_SOURCE", 65536)
        ∷ (codes "PATH_RENAME_TARGET", 131072)
        ∷ (codes "PATH_FILESTAT_GET", 262144)
        ∷ (codes "PATH_FILESTAT_SET_SIZE", 524288)
        ∷ (codes "PATH_FILESTAT_SET_TIMES", 1048576)
        ∷ (codes "FD_FILESTAT_GET", 2097152)
        ∷ (codes "FD_FILESTAT_SET_SIZE", 4194304)
        ∷ (codes "FD_FILESTAT_SET_TIMES", 8388608)
        ∷ (codes "PATH_SYMLINK", 16777216)
        ∷ (codes "PATH_REMOVE_DIRECTORY", 33554432)
        ∷ (codes "PATH_UNLINK_FILE", 67108864)
        ∷ (codes "POLL_FD_READWRITE", 134217728)
        ∷ (codes "SOCK_SHUTDOWN", 268435456) ∷ [] };

    ghost set_of = { rights_number };

    fn flags<'a>() -> &'a [Flag<Rights>] {
        Rights::FLAGS
    }

    fn bits(&self) -> u64 {
        self.0
    }

    fn from_bits_retain(bits: u64) -> Rights {
        Rights(bits)
    }
}

impl Rights {
    /// What a file may have.
    pub const FILE: Self = Rights(
        Self::FD_DATASYNC.0
            | Self::FD_READ.0
            | Self::FD_SEEK.0
            | Self::FD_FDSTAT_SET_FLAGS.0
            | Self::FD_SYNC.0
            | Self::FD_TELL.0
            | Self::FD_WRITE.0
            | Self::FD_FILESTAT_GET.0
            | Self::FD_FILESTAT_SET_SIZE.0,
    );

    /// What a directory may have.
    pub const DIRECTORY: Self = Rights(
        Self::FD_DATASYNC.0
            | Self::FD_SYNC.0
            | Self::PATH_CREATE_DIRECTORY.0
            | Self::PATH_CREATE_FILE.0
            | Self::PATH_OPEN.0
            | Self::FD_READDIR.0
            | Self::PATH_RENAME_SOURCE.0
            | Self::PATH_RENAME_TARGET.0
            | Self::PATH_FILESTAT_GET.0
            | Self::PATH_FILESTAT_SET_SIZE.0
            | Self::FD_FILESTAT_GET.0
            | Self::PATH_REMOVE_DIRECTORY.0
            | Self::PATH_UNLINK_FILE.0,
    );

    /// What a directory may hand on.
    pub const ALL: Self = Rights(Self::FILE.0 | Self::DIRECTORY.0);

    /// What the input stream has.
    pub const INPUT: Self = Rights(Self::FD_READ.0 | Self::FD_FILESTAT_GET.0);

    /// What each output stream has.
    pub const OUTPUT: Self = Rights(Self::FD_WRITE.0 | Self::FD_FILESTAT_GET.0);

    /// The rights whose bits the number has.
    pub fn from_number(number: u64) -> Self
        ensures { rights_number result ≡ number }
    {
        Rights(number)
    }

    /// The number that a guest sees.
    pub fn number(self) -> u64
        ensures { result ≡ rights_number self }
    {
        self.bits()
    }

    /// Whether all of these rights are among its own.
    pub fn has(self, rights: Rights) -> bool
        ensures all { result ≡ are_within (rights_number rights) (rights_number self) }
        // One right is asked for by its bit.
        ensures one { (bit : ℕ) → rights_number rights ≡ 2 ^ bit
            → result ≡ has_right (rights_number self) bit }
    {
        Flags::contains(&self, rights)
    }

    /// Whether its rights are all among those.
    pub fn is_within(self, all: Rights) -> bool
        ensures { result ≡ are_within (rights_number self) (rights_number all) }
    {
        Flags::contains(&all, self)
    }

    /// The rights that both have.
    pub fn intersection(self, other: Rights) -> Rights
        ensures { rights_number result ≡ bit_and (rights_number self) (rights_number other) }
    {
        Flags::intersection(self, other)
    }
}

//! Flags of calls (`oflags`, `fdflags`), and where offsets count from (`whence`).

ghost use Rattle.std.specs.Prelude.{⊤, ◌≡◌, ◌↔◌, ◌≤◌, ◌^◌, [], ◌∷◌, codes, IfSome, IsSome};
ghost use Rattle.wasi_abi.specs.rules.Numbers.{open_flags_number, descriptor_flags_number};
ghost use Rattle.wasi_abi.specs.rules.Numbers.{has_flag, whence_number};
ghost use Rattle.wasi_abi.specs.Bits.{bit_of};
ghost use Rattle.wasi_abi.specs.declared.flags.TheConstants.{ALL_OPEN_FLAGS, ALL_DESCRIPTOR_FLAGS};

use bitflags::{Flag, Flags, bitflag_items};

/// The number of all flags of a path's lookup together.
pub const ALL_LOOKUP_FLAGS: u32 = 1;

/// The number of all flags of an opening together.
pub const ALL_OPEN_FLAGS: u32 = 15;

/// The number of all flags of a descriptor together.
pub const ALL_DESCRIPTOR_FLAGS: u32 = 31;

/// What opening a path does beside opening.
#[derive(Clone, Copy, PartialEq, Eq, Debug)]
pub struct OpenFlags(u16);

bitflag_items! {
    impl OpenFlags: u16 {
        const CREATE = 1 << 0;
        const DIRECTORY = 1 << 1;
        const EXCLUSIVE = 1 << 2;
        const TRUNCATE = 1 << 3;
    }
}

impl Flags for OpenFlags {
    type Bits = u16;

    ghost exact = { ⊤ };

    ghost table = { (codes "CREATE", 1)
        ∷ (codes "DIRECTORY", 2)
        ∷ (codes "EXCLUSIVE", 4)
        ∷ (codes "TRUNCATE", 8) ∷ [] };

    ghost set_of = { open_flags_number };

    fn flags<'a>() -> &'a [Flag<OpenFlags>] {
        OpenFlags::FLAGS
    }

    fn bits(&self) -> u16 {
        self.0
    }

    fn from_bits_retain(bits: u16) -> OpenFlags {
        OpenFlags(bits)
    }
}

impl OpenFlags {
    /// The flags whose bits an argument has, or nothing where it has others.
    pub fn from_number(number: u32) -> Option<Self>
        ensures there { IsSome result ↔ (number ≤ ALL_OPEN_FLAGS) }
        ensures number { IfSome result (λ f. open_flags_number f ≡ number) }
    {
        if number <= ALL_OPEN_FLAGS {
            Some(OpenFlags(number as u16))
        } else {
            None
        }
    }

    /// Whether this flag is among them.
    pub fn has(self, flag: OpenFlags) -> bool
        requires { open_flags_number flag ≡ 2 ^ bit_of (open_flags_number flag) }
        ensures { result ≡ has_flag (open_flags_number self) (bit_of (open_flags_number flag)) }
    {
        Flags::contains(&self, flag)
    }
}

/// How a descriptor is read and written. `APPEND` alone has an effect.
#[derive(Clone, Copy, PartialEq, Eq, Debug)]
pub struct DescriptorFlags(u16);

bitflag_items! {
    impl DescriptorFlags: u16 {
        const APPEND = 1 << 0;
        const DSYNC = 1 << 1;
        const NONBLOCK = 1 << 2;
        const RSYNC = 1 << 3;
        const SYNC = 1 << 4;
    }
}

impl Flags for DescriptorFlags {
    type Bits = u16;

    ghost exact = { ⊤ };

    ghost table = { (codes "APPEND", 1)
        ∷ (codes "DSYNC", 2)
        ∷ (codes "NONBLOCK", 4)
        ∷ (codes "RSYNC", 8)
        ∷ (codes "SYNC", 16) ∷ [] };

    ghost set_of = { descriptor_flags_number };

    fn flags<'a>() -> &'a [Flag<DescriptorFlags>] {
        DescriptorFlags::FLAGS
    }

    fn bits(&self) -> u16 {
        self.0
    }

    fn from_bits_retain(bits: u16) -> DescriptorFlags {
        DescriptorFlags(bits)
    }
}

impl DescriptorFlags {
    /// No flags.
    pub const NONE: Self = DescriptorFlags(0);

    /// The flags whose bits an argument has, or nothing where it has others.
    pub fn from_number(number: u32) -> Option<Self>
        ensures there { IsSome result ↔ (number ≤ ALL_DESCRIPTOR_FLAGS) }
        ensures number { IfSome result (λ f. descriptor_flags_number f ≡ number) }
    {
        if number <= ALL_DESCRIPTOR_FLAGS {
            Some(DescriptorFlags(number as u16))
        } else {
            None
        }
    }

    /// What is in a layout.
    pub fn number(self) -> u16
        ensures { result ≡ descriptor_flags_number self }
    {
        self.bits()
    }

    /// Whether this flag is among them.
    pub fn has(self, flag: DescriptorFlags) -> bool
        requires { descriptor_flags_number flag ≡ 2 ^ bit_of (descriptor_flags_number flag) }
        ensures { result ≡ has_flag (descriptor_flags_number self)
            (bit_of (descriptor_flags_number flag)) }
    {
        Flags::contains(&self, flag)
    }
}

/// Where an offset counts from.
#[derive(Clone, Copy, Debug, PartialEq, Eq)]
pub enum Whence {
    Set,
    Current,
    End,
}

impl Whence {
    /// What an argument says, or nothing where it says none of them.
    pub fn from_number(number: u32) -> Option<Self>
        ensures there { IsSome result ↔ (number ≤ 2) }
        ensures number { IfSome result (λ w. whence_number w ≡ number) }
    {
        match number {
            0 => Some(Whence::Set),
            1 => Some(Whence::Current),
            2 => Some(Whence::End),
            _ => None,
        }
    }
}

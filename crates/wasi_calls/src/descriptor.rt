//! What a process has opened.
//!
//! **Rights and flags are checked by the place of their one bit** (`bit_of`). The definitions
//! number bits, and the code has named sets: a check asks for a set of one bit.

ghost use Rattle.std.specs.Prelude.{◌≡◌, ◌^◌, ◌↔◌, IsTrue, IsSome, IfSome};
ghost use Rattle.wasi_abi.specs.rules.Numbers.{rights_number, descriptor_flags_number};
ghost use Rattle.wasi_calls_rules.specs.Checks.{with_right};
ghost use Rattle.wasi_abi.specs.Bits.{bit_of};
ghost use Rattle.wasi_calls_rules.specs.WasiStates.{stream_rights, IsStreamAt};
ghost use Rattle.wasi_calls.specs.Restoring.{IsOwnStream};
ghost use Rattle.wasi_calls.specs.Steps.{GivesValue};
ghost use Rattle.wasi_calls.specs.rules.Restored.{IsBoundedDescriptor};

use std::marker::Model;
use wasi_abi::{ALL_DESCRIPTOR_FLAGS, DescriptorFlags, Errno, Rights};

/// Offsets are below this one.
pub const OFFSETS_END: u64 = 1 << 63;

/// The number of the root's descriptor, which is open before a process begins and stays open.
pub const PREOPENED: u32 = 3;

/// The number of the last stream.
pub const LAST_STREAM: u8 = 2;

/// What a descriptor names: a stream by its number, or a node of the file system by its number.
#[derive(Clone, Copy, Debug, PartialEq, Eq)]
pub enum Names {
    Stream(u8),
    Node(u64),
}

/// An open descriptor.
#[derive(Debug, Drop)]
pub struct Descriptor {
    names: Names,
    offset: u64,
    flags: DescriptorFlags,
    base: Rights,
    inheriting: Rights,
}

impl Model for Descriptor {
    ghost use Rattle.wasi_abi.specs.rules.Numbers.{rights_number, descriptor_flags_number};
    ghost use Rattle.wasi_calls_rules.specs.WasiStates.{Descriptor as Opened};

    ghost Value = { Opened };

    ghost use Rattle.wasi_calls.specs.Views.{target_of};

    ghost view = { λ d. record {
      target = target_of d.names;
      offset = d.offset;
      flags = descriptor_flags_number d.flags;
      base = rights_number d.base;
      inheriting = rights_number d.inheriting;
    } };
}

impl Descriptor {
    ghost use Rattle.wasi_calls_rules.specs.WasiStates.{Node, stream};
    ghost use Rattle.wasi_calls.specs.Views.{target_of};

    /// A stream with these rights.
    pub fn stream(number: u8, rights: Rights) -> Descriptor
        ensures { result ≡ stream number (rights_number rights) }
    {
        Descriptor {
            names: Names::Stream(number),
            offset: 0,
            flags: DescriptorFlags::NONE,
            base: rights,
            inheriting: Rights::from_number(0),
        }
    }

    /// A directory with these rights, and those that it hands on.
    pub fn directory(node: u64, base: Rights, inheriting: Rights) -> Descriptor
        ensures { result ≡ record {
          target = Node node;
          offset = 0;
          flags = 0;
          base = rights_number base;
          inheriting = rights_number inheriting;
        } }
    {
        Descriptor {
            names: Names::Node(node),
            offset: 0,
            flags: DescriptorFlags::NONE,
            base,
            inheriting,
        }
    }

    /// A file with these rights. It hands none on.
    pub fn file(node: u64, base: Rights) -> Descriptor
        ensures { result ≡ record {
          target = Node node;
          offset = 0;
          flags = 0;
          base = rights_number base;
          inheriting = 0;
        } }
    {
        Descriptor {
            names: Names::Node(node),
            offset: 0,
            flags: DescriptorFlags::NONE,
            base,
            inheriting: Rights::from_number(0),
        }
    }

    /// What has these numbers, or nothing where one of them is out of its bounds. That is an offset
    /// from 2^63 on, flags that there are not, or rights that the profile does not have.
    pub fn from_numbers(
        names: Names,
        offset: u64,
        flags: u16,
        base: u64,
        inheriting: u64,
    ) -> Option<Descriptor>
        ensures made { IfSome result (λ d. d ≡ record {
          target = target_of names;
          offset = offset;
          flags = flags;
          base = base;
          inheriting = inheriting;
        }) }
        ensures there { IsSome result ↔ IsBoundedDescriptor (record {
          target = target_of names;
          offset = offset;
          flags = flags;
          base = base;
          inheriting = inheriting;
        }) }
    {
        let flags = DescriptorFlags::from_number(u32::from(flags))?;
        let descriptor = Descriptor {
            names,
            offset,
            flags,
            base: Rights::from_number(base),
            inheriting: Rights::from_number(inheriting),
        };
        if descriptor.is_bounded() {
            Some(descriptor)
        } else {
            None
        }
    }

    /// Whether its offset, flags and rights are within their bounds.
    pub(crate) fn is_bounded(&self) -> bool
        ensures { IsTrue result ↔ IsBoundedDescriptor self.now }
    {
        self.offset < OFFSETS_END
            && u32::from(self.flags.number()) <= ALL_DESCRIPTOR_FLAGS
            && self.base.is_within(Rights::ALL)
            && self.inheriting.is_within(Rights::ALL)
    }

    /// Whether it may be under this number, where it names a stream. It is then the stream of that
    /// number, with its rights, and hands none on.
    pub(crate) fn is_own_stream(&self, number: usize) -> bool
        ensures { IsTrue result ↔ IsOwnStream number self.now }
    {
        match self.names {
            Names::Stream(stream) => self.is_stream(number, stream),
            Names::Node(_) => true,
        }
    }

    /// Whether it may be under this number, where it names this stream.
    fn is_stream(&self, number: usize, stream: u8) -> bool
        ensures { IsTrue result ↔ IsStreamAt number stream self.now }
    {
        number == usize::from(stream)
            && stream <= LAST_STREAM
            && self.base.number() == stream_rights(stream)
            && self.inheriting.number() == 0
    }

    /// What it names.
    pub fn names(&self) -> Names
        ensures { target_of result ≡ self.now.target }
    {
        self.names
    }

    /// The place in a file from which the next read or write begins.
    pub fn offset(&self) -> u64
        ensures { result ≡ self.now.offset }
    {
        self.offset
    }

    /// Nothing where this right is among its own, else `Notcapable`.
    pub fn check_right(&self, right: Rights) -> Result<(), Errno>
        requires one { rights_number right ≡ 2 ^ bit_of (rights_number right) }
        ensures gives { GivesValue (λ x. x) result
            (with_right (bit_of (rights_number right)) self.now) }
    {
        if self.base.has(right) {
            Ok(())
        } else {
            Err(Errno::Notcapable)
        }
    }

    /// What may be done through it.
    pub fn base(&self) -> Rights
        ensures { rights_number result ≡ self.now.base }
    {
        self.base
    }

    /// The same, with its next read or write at this place.
    pub fn at_offset(&self, offset: u64) -> Descriptor
        ensures { result ≡ record self.now { offset = offset } }
    {
        Descriptor {
            names: self.names,
            offset,
            flags: self.flags,
            base: self.base,
            inheriting: self.inheriting,
        }
    }

    /// How it is read and written.
    pub fn flags(&self) -> DescriptorFlags
        ensures { descriptor_flags_number result ≡ self.now.flags }
    {
        self.flags
    }

    /// The same, read and written so.
    pub fn with_flags(&self, flags: DescriptorFlags) -> Descriptor
        ensures { result ≡ record self.now { flags = descriptor_flags_number flags } }
    {
        Descriptor {
            names: self.names,
            offset: self.offset,
            flags,
            base: self.base,
            inheriting: self.inheriting,
        }
    }

    /// What descriptors that are opened through it may have.
    pub fn inheriting_rights(&self) -> Rights
        ensures { rights_number result ≡ self.now.inheriting }
    {
        self.inheriting
    }
}

/// The number of the rights that a stream has.
fn stream_rights(stream: u8) -> u64
    ensures { result ≡ stream_rights stream }
{
    if stream == 0 {
        Rights::INPUT.number()
    } else {
        Rights::OUTPUT.number()
    }
}

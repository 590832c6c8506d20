//! What lies in a guest's memory: `fdstat`, `filestat`, `dirent`, `prestat` and `iovec`, byte by
//! byte.

ghost use Rattle.std.specs.Prelude.{◌≡◌, ◌+◌, ◌<◌, ◌≤◌, ◌^◌, ℕ, List, length};
ghost use Rattle.guest_memory.specs.rules.Bytes.{with_part};
ghost use Rattle.wasi_abi.specs.rules.Layouts.{u16_bytes, u32_bytes, u64_bytes, u16_at, u32_at};
ghost use Rattle.wasi_abi.specs.rules.Layouts.{u64_at};

use crate::rights::Rights;
use byteorder::{ByteOrder, LittleEndian};

/// Bytes of an `fdstat`.
pub const FDSTAT_BYTES: usize = 24;

/// Bytes of a `filestat`.
pub const FILESTAT_BYTES: usize = 64;

/// Bytes of a `dirent`, after which its name is.
pub const DIRENT_BYTES: usize = 24;

/// Bytes of a `prestat`.
pub const PRESTAT_BYTES: usize = 8;

/// Bytes of an `iovec`.
pub const IOVEC_BYTES: usize = 8;

/// What a descriptor is and may do.
#[derive(Clone, Copy, Debug, PartialEq, Eq)]
pub struct Fdstat {
    pub file_type: u8,
    pub flags: u16,
    pub base: Rights,
    pub inheriting: Rights,
}

/// What a file or a directory is. Its device and its times are 0.
#[derive(Clone, Copy, Debug, PartialEq, Eq)]
pub struct Filestat {
    pub node: u64,
    pub file_type: u8,
    pub links: u64,
    pub size: u64,
}

/// An entry of a directory, whose name follows it.
#[derive(Clone, Copy, Debug, PartialEq, Eq)]
pub struct Dirent {
    /// The cookie from which on the entries after it are read.
    pub next: u64,
    pub node: u64,
    pub name_length: u32,
    pub file_type: u8,
}

/// The name of a directory that was opened beforehand. Its tag is 0.
#[derive(Clone, Copy, Debug, PartialEq, Eq)]
pub struct Prestat {
    pub name_length: u32,
}

/// A buffer of the guest.
#[derive(Clone, Copy, Debug, PartialEq, Eq)]
pub struct Iovec {
    /// Where it begins.
    pub from: u32,
    pub length: u32,
}

impl Fdstat {
    ghost use Rattle.wasi_abi.specs.declared.layout.Fdstat.{Fdstat};
    ghost use Rattle.wasi_abi.specs.rules.Layouts.{fdstat_layout, fdstat_of, FdstatFits};

    /// Lays it out over all of these bytes.
    pub fn write(&self, bytes: &mut [u8; FDSTAT_BYTES])
        ensures { bytes.new ≡ fdstat_layout self.now }
    {
        *bytes = [0; FDSTAT_BYTES];
        bytes[0] = self.file_type;
        put_u16(bytes, 2, self.flags);
        put_u64(bytes, 8, self.base.number());
        put_u64(bytes, 16, self.inheriting.number());
    }

    /// The fields that lie there. Bytes between them are not looked at.
    pub fn read(bytes: &[u8; FDSTAT_BYTES]) -> Self
        ensures fields { result ≡ fdstat_of bytes.now }
        ensures written { (s : Fdstat) → FdstatFits s → bytes.now ≡ fdstat_layout s → result ≡ s }
    {
        Fdstat {
            file_type: bytes[0],
            flags: u16_from(bytes, 2),
            base: Rights::from_number(u64_from(bytes, 8)),
            inheriting: Rights::from_number(u64_from(bytes, 16)),
        }
    }
}

impl Filestat {
    ghost use Rattle.wasi_abi.specs.declared.layout.Filestat.{Filestat};
    ghost use Rattle.wasi_abi.specs.rules.Layouts.{filestat_layout, filestat_of, FilestatFits};

    /// Lays it out over all of these bytes.
    pub fn write(&self, bytes: &mut [u8; FILESTAT_BYTES])
        ensures { bytes.new ≡ filestat_layout self.now }
    {
        *bytes = [0; FILESTAT_BYTES];
        put_u64(bytes, 8, self.node);
        bytes[16] = self.file_type;
        put_u64(bytes, 24, self.links);
        put_u64(bytes, 32, self.size);
    }

    /// The fields that lie there. Bytes between them are not looked at.
    pub fn read(bytes: &[u8; FILESTAT_BYTES]) -> Self
        ensures fields { result ≡ filestat_of bytes.now }
        ensures written { (s : Filestat) → FilestatFits s → bytes.now ≡ filestat_layout s
            → result ≡ s }
    {
        Filestat {
            node: u64_from(bytes, 8),
            file_type: bytes[16],
            links: u64_from(bytes, 24),
            size: u64_from(bytes, 32),
        }
    }
}

impl Dirent {
    ghost use Rattle.wasi_abi.specs.declared.layout.Dirent.{Dirent};
    ghost use Rattle.wasi_abi.specs.rules.Layouts.{dirent_layout, dirent_of, DirentFits};

    /// Lays it out over all of these bytes.
    pub fn write(&self, bytes: &mut [u8; DIRENT_BYTES])
        ensures { bytes.new ≡ dirent_layout self.now }
    {
        *bytes = [0; DIRENT_BYTES];
        put_u64(bytes, 0, self.next);
        put_u64(bytes, 8, self.node);
        put_u32(bytes, 16, self.name_length);
        bytes[20] = self.file_type;
    }

    /// The fields that lie there. Bytes between them are not looked at.
    pub fn read(bytes: &[u8; DIRENT_BYTES]) -> Self
        ensures fields { result ≡ dirent_of bytes.now }
        ensures written { (s : Dirent) → DirentFits s → bytes.now ≡ dirent_layout s → result ≡ s }
    {
        Dirent {
            next: u64_from(bytes, 0),
            node: u64_from(bytes, 8),
            name_length: u32_from(bytes, 16),
            file_type: bytes[20],
        }
    }
}

impl Prestat {
    ghost use Rattle.wasi_abi.specs.declared.layout.Prestat.{Prestat};
    ghost use Rattle.wasi_abi.specs.rules.Layouts.{prestat_layout, prestat_of, PrestatFits};

    /// Lays it out over all of these bytes.
    pub fn write(&self, bytes: &mut [u8; PRESTAT_BYTES])
        ensures { bytes.new ≡ prestat_layout self.now }
    {
        *bytes = [0; PRESTAT_BYTES];
        put_u32(bytes, 4, self.name_length);
    }

    /// The fields that lie there. The tag is not looked at.
    pub fn read(bytes: &[u8; PRESTAT_BYTES]) -> Self
        ensures fields { result ≡ prestat_of bytes.now }
        ensures written { (s : Prestat) → PrestatFits s → bytes.now ≡ prestat_layout s
            → result ≡ s }
    {
        Prestat {
            name_length: u32_from(bytes, 4),
        }
    }
}

impl Iovec {
    ghost use Rattle.wasi_abi.specs.declared.layout.Iovec.{Iovec};
    ghost use Rattle.wasi_abi.specs.rules.Layouts.{iovec_layout, iovec_of, IovecFits};

    /// Lays it out over all of these bytes.
    pub fn write(&self, bytes: &mut [u8; IOVEC_BYTES])
        ensures { bytes.new ≡ iovec_layout self.now }
    {
        *bytes = [0; IOVEC_BYTES];
        put_u32(bytes, 0, self.from);
        put_u32(bytes, 4, self.length);
    }

    /// The fields that lie there.
    pub fn read(bytes: &[u8; IOVEC_BYTES]) -> Self
        ensures fields { result ≡ iovec_of bytes.now }
        ensures written { (s : Iovec) → IovecFits s → bytes.now ≡ iovec_layout s → result ≡ s }
    {
        Iovec {
            from: u32_from(bytes, 0),
            length: u32_from(bytes, 4),
        }
    }
}

fn put_u16(bytes: &mut [u8], at: usize, number: u16)
    requires { at + 2 ≤ length bytes.old }
    ensures { bytes.new ≡ with_part bytes.old at (u16_bytes number) }
{
    LittleEndian::write_u16(&mut bytes[at..], number);
}

fn put_u32(bytes: &mut [u8], at: usize, number: u32)
    requires { at + 4 ≤ length bytes.old }
    ensures { bytes.new ≡ with_part bytes.old at (u32_bytes number) }
{
    LittleEndian::write_u32(&mut bytes[at..], number);
}

fn put_u64(bytes: &mut [u8], at: usize, number: u64)
    requires { at + 8 ≤ length bytes.old }
    ensures { bytes.new ≡ with_part bytes.old at (u64_bytes number) }
{
    LittleEndian::write_u64(&mut bytes[at..], number);
}

fn u16_from(bytes: &[u8], at: usize) -> u16
    requires { at + 2 ≤ length bytes.now }
    ensures { result ≡ u16_at bytes.now at }
{
    LittleEndian::read_u16(&bytes[at..])
}

fn u32_from(bytes: &[u8], at: usize) -> u32
    requires { at + 4 ≤ length bytes.now }
    ensures { result ≡ u32_at bytes.now at }
{
    LittleEndian::read_u32(&bytes[at..])
}

fn u64_from(bytes: &[u8], at: usize) -> u64
    requires { at + 8 ≤ length bytes.now }
    ensures { result ≡ u64_at bytes.now at }
{
    LittleEndian::read_u64(&bytes[at..])
}

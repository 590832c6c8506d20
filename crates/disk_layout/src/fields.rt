//! Numbers and bytes at a place of a list, the lowest byte first.

ghost use Rattle.std.specs.Prelude.{◌≡◌, ◌+◌, ◌≤◌, length};
ghost use Rattle.guest_memory.specs.rules.Bytes.{part, with_part};
ghost use Rattle.wasi_abi.specs.rules.Layouts.{u16_bytes, u32_bytes, u64_bytes, u16_at, u32_at};
ghost use Rattle.wasi_abi.specs.rules.Layouts.{u64_at};

use byteorder::{ByteOrder, LittleEndian};

/// Bytes of a digest.
pub const DIGEST_BYTES: usize = 32;

pub(crate) fn put(bytes: &mut [u8], at: usize, field: &[u8])
    requires { at + length field.now ≤ length bytes.old }
    ensures { bytes.new ≡ with_part bytes.old at field.now }
{
    bytes[at..at + field.len()].copy_from_slice(field);
}

pub(crate) fn put_u16(bytes: &mut [u8], at: usize, number: u16)
    requires { at + 2 ≤ length bytes.old }
    ensures { bytes.new ≡ with_part bytes.old at (u16_bytes number) }
{
    LittleEndian::write_u16(&mut bytes[at..], number);
}

pub(crate) fn put_u32(bytes: &mut [u8], at: usize, number: u32)
    requires { at + 4 ≤ length bytes.old }
    ensures { bytes.new ≡ with_part bytes.old at (u32_bytes number) }
{
    LittleEndian::write_u32(&mut bytes[at..], number);
}

pub(crate) fn put_u64(bytes: &mut [u8], at: usize, number: u64)
    requires { at + 8 ≤ length bytes.old }
    ensures { bytes.new ≡ with_part bytes.old at (u64_bytes number) }
{
    LittleEndian::write_u64(&mut bytes[at..], number);
}

/// The 16-bit number at a place.
pub fn u16_from(bytes: &[u8], at: usize) -> u16
    requires { at + 2 ≤ length bytes.now }
    ensures { result ≡ u16_at bytes.now at }
{
    LittleEndian::read_u16(&bytes[at..])
}

/// The 32-bit number at a place.
pub fn u32_from(bytes: &[u8], at: usize) -> u32
    requires { at + 4 ≤ length bytes.now }
    ensures { result ≡ u32_at bytes.now at }
{
    LittleEndian::read_u32(&bytes[at..])
}

pub(crate) fn u64_from(bytes: &[u8], at: usize) -> u64
    requires { at + 8 ≤ length bytes.now }
    ensures { result ≡ u64_at bytes.now at }
{
    LittleEndian::read_u64(&bytes[at..])
}

/// A digest at a place.
pub(crate) fn digest_from(bytes: &[u8], at: usize) -> [u8; DIGEST_BYTES]
    requires { at + DIGEST_BYTES ≤ length bytes.now }
    ensures { result ≡ part bytes.now at DIGEST_BYTES }
{
    let mut digest = [0; DIGEST_BYTES];
    digest.copy_from_slice(&bytes[at..at + DIGEST_BYTES]);
    digest
}

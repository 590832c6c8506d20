//! The fields of a record, byte by byte.
//!
//! A record's length has two bytes in version 1 and four in version 2, and its payload a limit of
//! the version. All else of a record and of the journal is the same in both.

ghost use Rattle.std.specs.Prelude.{◌≡◌, ◌↔◌, ◌∷◌, ◌<◌, ◌≤◌, ◌^◌, IsTrue, length};
ghost use Rattle.guest_memory.specs.rules.Bytes.{number_of};
ghost use Rattle.wasi_abi.specs.rules.Layouts.{u16_bytes, u32_bytes, u64_bytes, u64_at};
ghost use Rattle.disk_layout.specs.declared.record_fields.TheConstants.{STEP_AT, PAYLOAD_LENGTH_AT};
ghost use Rattle.disk_layout.specs.rules.Journal.{longest_record, payload_length};
ghost use Rattle.disk_layout.specs.rules.Journal.{record_head_bytes, TakesRecords};

use crate::PAYLOAD_SIZE;
use crate::fields::{put_u16, put_u32, put_u64, u16_from, u32_from, u64_from};
use wasi_abi::Version;

/// Where the step is, after the kind.
pub const STEP_AT: usize = 1;

/// Where the payload's length is, after kind and step.
pub const PAYLOAD_LENGTH_AT: usize = 9;

/// How many bytes of a record are before its payload: its kind, its step and the payload's
/// length.
pub fn record_head_bytes(version: Version) -> usize
    ensures value { result ≡ record_head_bytes version }
    ensures within { result < 2 ^ 4 }
{
    PAYLOAD_LENGTH_AT + version.length_bytes()
}

/// The most bytes of a record.
pub fn longest_record(version: Version) -> usize
    ensures { result ≡ longest_record version }
{
    record_head_bytes(version) + version.text_limit()
}

/// Whether a journal of so many sectors takes the longest record of this version.
pub fn takes_records(version: Version, sectors: u32) -> bool
    ensures { IsTrue result ↔ TakesRecords version sectors }
{
    match version {
        Version::One => true,
        Version::Two => longest_record(Version::Two) <= PAYLOAD_SIZE * sectors as usize,
    }
}

/// What is before the length of a record's payload: its kind and its step.
pub fn record_head(kind: u8, step: u64) -> [u8; PAYLOAD_LENGTH_AT]
    ensures { result ≡ kind ∷ u64_bytes step }
{
    let mut head = [0; PAYLOAD_LENGTH_AT];
    head[0] = kind;
    put_u64(&mut head, STEP_AT, step);
    head
}

/// The length in bytes of the payload of the record at the front.
pub fn payload_length(version: Version, bytes: &[u8]) -> usize
    requires { record_head_bytes version ≤ length bytes.now }
    ensures value { result ≡ payload_length version bytes.now }
    ensures within { result < 2 ^ 32 }
{
    match version {
        Version::One => usize::from(u16_from(bytes, PAYLOAD_LENGTH_AT)),
        Version::Two => u32_from(bytes, PAYLOAD_LENGTH_AT) as usize,
    }
}

/// The length of a payload as a record of version 1 has it, the lowest byte first.
pub fn short_length(len: u16) -> [u8; 2]
    ensures { result ≡ u16_bytes len }
{
    let mut bytes = [0; 2];
    put_u16(&mut bytes, 0, len);
    bytes
}

/// The length of a payload as a record of version 2 has it, the lowest byte first.
pub fn wide_length(len: u32) -> [u8; 4]
    ensures { result ≡ u32_bytes len }
{
    let mut bytes = [0; 4];
    put_u32(&mut bytes, 0, len);
    bytes
}

/// The step of the record at the front.
pub fn record_step(bytes: &[u8]) -> u64
    requires { PAYLOAD_LENGTH_AT ≤ length bytes.now }
    ensures { result ≡ u64_at bytes.now STEP_AT }
{
    u64_from(bytes, STEP_AT)
}

/// The value that a clock's payload spells.
pub fn clock_from(payload: &[u8]) -> u64
    requires { length payload.now ≡ 8 }
    ensures { result ≡ number_of payload.now }
{
    u64_from(payload, 0)
}

/// A clock's value as a payload, the lowest byte first.
pub fn clock_bytes(nanoseconds: u64) -> [u8; 8]
    ensures bytes { result ≡ u64_bytes nanoseconds }
    ensures fits { nanoseconds < 2 ^ 64 }
{
    let mut bytes = [0; 8];
    put_u64(&mut bytes, 0, nanoseconds);
    bytes
}

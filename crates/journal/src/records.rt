//! Records as bytes.
ghost use Rattle.std.specs.Prelude.{◌≡◌, ◌+◌, ◌≤◌, ◌<◌, ◌^◌, ◌++◌, ◌∷◌, length, OnOk};
ghost use Rattle.guest_memory.specs.rules.Bytes.{bytes_of};
ghost use Rattle.wasi_abi.specs.rules.Layouts.{u64_bytes};
ghost use Rattle.wasi_abi.specs.rules.Versions.{length_bytes};
ghost use Rattle.disk_layout.specs.rules.Journal.{record_bytes, payload_of};
ghost use Rattle.journal.specs.rules.Steps.{ClockFits};

use disk_layout::{
    END_KIND, MONOTONIC_KIND, RANDOM_KIND, REALTIME_KIND, REQUEST_KIND, Record, clock_bytes,
    record_head, short_length, wide_length,
};
use std::alloc::AllocError;
use wasi_abi::{Answer, Version};

/// How many bytes a record's payload has.
pub(crate) fn payload_len(entry: &Record) -> usize
    ensures { result ≡ length (payload_of entry.now.answer) }
{
    match &entry.answer {
        Answer::Request { text } => text.len(),
        Answer::End => 0,
        Answer::Realtime { .. } => 8,
        Answer::Monotonic { .. } => 8,
        Answer::Random { bytes } => bytes.len(),
    }
}

/// Puts a record's bytes after these. Its payload is copied once.
pub(crate) fn put_record(
    bytes: &mut Vec<u8>,
    version: Version,
    entry: &Record,
) -> Result<(), AllocError>
    requires { length (payload_of entry.now.answer) < 256 ^ length_bytes version }
    ensures put { OnOk result (bytes.new.items
        ≡ bytes.old.items ++ record_bytes version entry.now) }
    ensures step { entry.now.step < 2 ^ 64 }
    ensures clock { ClockFits entry.now.answer }
{
    let step = entry.step;
    match &entry.answer {
        Answer::Request { text } => put_parts(bytes, version, REQUEST_KIND, step, text.as_slice()),
        Answer::End => put_parts(bytes, version, END_KIND, step, &[]),
        Answer::Realtime { nanoseconds } => {
            put_parts(
                bytes,
                version,
                REALTIME_KIND,
                step,
                &clock_bytes(*nanoseconds),
            )
        }
        Answer::Monotonic { nanoseconds } => {
            put_parts(
                bytes,
                version,
                MONOTONIC_KIND,
                step,
                &clock_bytes(*nanoseconds),
            )
        }
        Answer::Random { bytes: random } => {
            put_parts(bytes, version, RANDOM_KIND, step, random.as_slice())
        }
    }
}

fn put_parts(
    bytes: &mut Vec<u8>,
    version: Version,
    kind: u8,
    step: u64,
    payload: &[u8],
) -> Result<(), AllocError>
    requires { length payload.now < 256 ^ length_bytes version }
    ensures step { step < 2 ^ 64 }
    ensures put { OnOk result (bytes.new.items ≡ bytes.old.items ++ (kind ∷ (u64_bytes step
        ++ (bytes_of (length_bytes version) (length payload.now) ++ payload.now)))) }
{
    bytes.extend_from_slice(&record_head(kind, step))?;
    match version {
        Version::One => bytes.extend_from_slice(&short_length(payload.len() as u16))?,
        Version::Two => bytes.extend_from_slice(&wide_length(payload.len() as u32))?,
    }
    bytes.extend_from_slice(payload)?;
    Ok(())
}

//! Records from bytes.
ghost use Rattle.std.specs.Prelude.{◌≡◌, ◌+◌, ◌<◌, ◌≤◌, length, IfOk, IsSome, OnErr};
ghost use Rattle.disk_layout.specs.rules.Journal.{payload_length, record_head_bytes};
ghost use Rattle.disk_layout.specs.Scanned.{answer_of, record_at};
ghost use Rattle.journal.specs.rules.Steps.{SpellsRecords};

use disk_layout::{
    END_KIND, MONOTONIC_KIND, RANDOM_KIND, REALTIME_KIND, REQUEST_KIND, Record, clock_from,
    payload_length, record_head_bytes, record_step,
};
use std::alloc::{AllocError, Global};
use wasi_abi::{Answer, Version};
use wasm_syntax::ItemList;

/// The records at the front, until one is cut or not well formed. It fails only when out of memory,
/// and wants none where there are no bytes.
pub(crate) fn records_from(
    alloc: Global,
    version: Version,
    bytes: &[u8],
) -> Result<Vec<Record>, AllocError>
    ensures value { IfOk result (λ v. SpellsRecords version v.items bytes.now) }
    ensures memory { OnErr result (0 < length bytes.now) }
{
    let mut records = Vec::new(alloc);
    let mut start = 0;
    while let Some(entry) = record_from(alloc, version, &bytes[start..])? {
        let len = record_head_bytes(version) + payload_length(version, &bytes[start..]);
        records.push(entry)?;
        start += len;
    }
    Ok(records)
}

/// The record at the front, if it is whole and well formed. Else it wants no memory.
fn record_from(alloc: Global, version: Version, bytes: &[u8]) -> Result<Option<Record>, AllocError>
    ensures value { IfOk result (λ o. o ≡ record_at version bytes.now) }
    ensures whole { IfOk result (λ o. IsSome o
        → record_head_bytes version + payload_length version bytes.now ≤ length bytes.now) }
    ensures memory { OnErr result (record_head_bytes version ≤ length bytes.now) }
{
    let head = record_head_bytes(version);
    if bytes.len() < head {
        return Ok(None);
    }
    let end = head + payload_length(version, bytes);
    if bytes.len() < end {
        return Ok(None);
    }
    let limit = version.text_limit();
    let Some(answer) = answer_from(alloc, limit, bytes[0], &bytes[head..end])? else {
        return Ok(None);
    };
    Ok(Some(Record {
        step: record_step(bytes),
        answer,
    }))
}

/// The answer of this kind with this payload, if they are well formed. Texts and random bytes have
/// at most so many bytes.
fn answer_from(
    alloc: Global,
    limit: usize,
    kind: u8,
    payload: &[u8],
) -> Result<Option<Answer>, AllocError>
    ensures { IfOk result (λ o. o ≡ answer_of limit kind payload.now) }
{
    if kind == REQUEST_KIND {
        if payload.len() > limit {
            return Ok(None);
        }
        let text = ItemList::from_vec(Vec::from_slice(alloc, payload)?);
        return Ok(Some(Answer::Request { text }));
    }
    if kind == END_KIND {
        if payload.len() != 0 {
            return Ok(None);
        }
        return Ok(Some(Answer::End));
    }
    if kind == REALTIME_KIND {
        if payload.len() != 8 {
            return Ok(None);
        }
        let nanoseconds = clock_from(payload);
        return Ok(Some(Answer::Realtime { nanoseconds }));
    }
    if kind == MONOTONIC_KIND {
        if payload.len() != 8 {
            return Ok(None);
        }
        let nanoseconds = clock_from(payload);
        return Ok(Some(Answer::Monotonic { nanoseconds }));
    }
    if kind != RANDOM_KIND || payload.len() > limit {
        return Ok(None);
    }
    let bytes = ItemList::from_vec(Vec::from_slice(alloc, payload)?);
    Ok(Some(Answer::Random { bytes }))
}

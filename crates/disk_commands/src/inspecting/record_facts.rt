//! Facts of a journal.

ghost use Rattle.std.specs.Prelude.{◌≡◌, IfOk, OnOk, length, map};
ghost use Rattle.disk_layout.specs.rules.Journal.{payload_of};
ghost use Rattle.disk_commands.specs.FactViews.{Adds, fact_value_of, values_of};
ghost use Rattle.disk_commands.specs.rules.DiskFacts.{journal_facts, kind_word, record_value};

use crate::inspecting::fact::{Fact, FactValue, Field};
use crate::inspecting::facts::{add_list, add_number};
use disk_layout::Record;
use std::alloc::{AllocError, Global};
use wasi_abi::Answer;

/// How many bytes a clock's time has.
const TIME_BYTES: usize = 8;

/// The word for what was answered.
fn kind_word(answer: &Answer) -> &'static str
    ensures { result.now ≡ kind_word answer.now }
{
    match answer {
        Answer::Request { .. } => "request",
        Answer::End => "end",
        Answer::Realtime { .. } => "realtime",
        Answer::Monotonic { .. } => "monotonic",
        Answer::Random { .. } => "random",
    }
}

/// How many bytes the payload of an answer has.
fn payload_length(answer: &Answer) -> usize
    ensures { result ≡ length (payload_of answer.now) }
{
    match answer {
        Answer::Request { text } => text.len(),
        Answer::End => 0,
        Answer::Realtime { .. } | Answer::Monotonic { .. } => TIME_BYTES,
        Answer::Random { bytes } => bytes.len(),
    }
}

/// A record.
fn record_value(alloc: Global, entry: &Record) -> Result<FactValue<'static>, AllocError>
    ensures { IfOk result (λ value. fact_value_of value ≡ record_value entry.now) }
{
    let step = entry.step;
    let fields = vec![in alloc;
        Field::of_word("kind", kind_word(&entry.answer)),
        Field::of_number("step", step),
        Field::of_number("length", payload_length(&entry.answer) as u64),
    ]?;
    Ok(FactValue::Fields(fields))
}

/// All records of a journal.
fn record_values(alloc: Global, records: &[Record]) -> Result<Vec<FactValue<'static>>, AllocError>
    ensures { IfOk result (λ values. values_of values.items ≡ map record_value records.now) }
{
    let mut values = Vec::new(alloc);
    for entry in records {
        values.push(record_value(alloc, entry)?)?;
    }
    Ok(values)
}

/// Adds the records of a journal, and how many of its sectors are left.
pub(super) fn add_journal(
    facts: &mut Vec<Fact>,
    alloc: Global,
    records: &[Record],
    sectors_left: u64,
) -> Result<(), AllocError>
    ensures { OnOk result (Adds facts.old.items facts.new.items
        (journal_facts records.now sectors_left)) }
{
    let values = record_values(alloc, records)?;
    add_list(facts, "record", "records", values)?;
    add_number(facts, "left", sectors_left)
}

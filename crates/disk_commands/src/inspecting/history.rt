//! `wasmhost history`.

ghost use Rattle.std.specs.Prelude.{◌≡◌, ◌≤◌, ◌+◌, ◌-◌, IfOk, OnOk, Ok, Some};
ghost use Rattle.std.specs.Io.KnownBytes.{Appends};
ghost use Rattle.std.specs.List.{flat_map};
ghost use Rattle.process_rules.specs.Runs.{request_taken};
ghost use Rattle.command_words.specs.rules.Printers.{printers};
ghost use Rattle.disk_commands.specs.rules.Histories.{SaysHistory, TellsHistory, given_line};
ghost use Rattle.disk_commands.specs.rules.Histories.{history_text, step_of_last, given_life};
ghost use Rattle.disk_commands.specs.rules.Histories.{records_text};

use crate::on_disk::{OnDiskFault, say_disk_fault};
use command_words::{Obstacle, Printer, Status, report, say_text, spell_answer, spell_record};
use disk_layout::Record;
use sector_disk::Disk;
use std::alloc::Global;
use std::io::{self, Write};
use wasi_abi::Answer;
use worker::{Inspection, inspect};

/// How many steps the slice of a script takes beyond those to the last record: as many as a slice
/// of a run by default.
const STEPS_BEYOND: u128 = 100_000;

/// How many requests such an answer counts as: one, or none.
fn request_taken(answer: &Answer) -> u8
    ensures value { result ≡ request_taken (Some answer.now) }
    ensures few { result ≤ 1 }
{
    match answer {
        Answer::Request { .. } | Answer::End => 1,
        Answer::Realtime { .. } | Answer::Monotonic { .. } | Answer::Random { .. } => 0,
    }
}

/// Spells records, each on a line, where so many requests were taken before them.
fn spell_records<W: Write>(out: &mut W, before: u64, records: &[Record]) -> io::Result<()>
    ensures { OnOk result (Appends (W.contents out.old) (W.contents out.new)
        (records_text before records.now)) }
{
    let mut taken = u128::from(before);
    for entry in records {
        spell_record(out, taken + 1, entry)?;
        taken += u128::from(request_taken(&entry.answer));
    }
    Ok(())
}

/// Spells what was answered, as a line of a script.
fn spell_given<W: Write>(out: &mut W, entry: &Record) -> io::Result<()>
    ensures { OnOk result (Appends (W.contents out.old) (W.contents out.new)
        (given_line entry.now)) }
{
    spell_answer(out, &entry.answer)?;
    out.write_all(b"\n")
}

/// Spells the answers of records, each as a line of a script.
fn spell_answers<W: Write>(out: &mut W, records: &[Record]) -> io::Result<()>
    ensures { OnOk result (Appends (W.contents out.old) (W.contents out.new)
        (flat_map given_line records.now)) }
{
    for entry in records {
        spell_given(out, entry)?;
    }
    Ok(())
}

/// The step of the last record, or this one where there is none.
fn step_of_last(step: u64, records: &[Record]) -> u64
    ensures { result ≡ step_of_last step records.now }
{
    match records.last() {
        Some(entry) => entry.step,
        None => step,
    }
}

/// How many steps the slice of a script takes, whose life begins at this step.
fn fuel_of(step: u64, records: &[Record]) -> u128
    ensures { result ≡ step_of_last step records.now - step + 100000 }
{
    u128::from(step_of_last(step, records).saturating_sub(step)) + STEPS_BEYOND
}

/// Spells a life of a script that begins at this step: its answers, and one slice.
fn spell_given_life<W: Write>(out: &mut W, step: u64, records: &[Record]) -> io::Result<()>
    ensures { OnOk result (Appends (W.contents out.old) (W.contents out.new)
        (given_life step records.now)) }
{
    out.write_all(b"life\n")?;
    spell_answers(out, records)?;
    writeln!(out, "slice {}", fuel_of(step, records))
}

/// Spells the records of a disk, one a line or as a script.
fn spell_history<W: Write>(out: &mut W, told: &Inspection, as_story: bool) -> io::Result<()>
    ensures { OnOk result (Appends (W.contents out.old) (W.contents out.new)
        (history_text as_story told.now)) }
{
    let records = told.records.as_slice();
    if as_story {
        return spell_given_life(out, told.process.steps(), records);
    }
    spell_records(out, told.process.requests(), records)
}

/// The text of the records of a disk, one a line or as a script.
fn text_of(alloc: Global, told: &Inspection, as_story: bool) -> io::Result<Vec<u8>>
    ensures { IfOk result (λ text. text.items ≡ history_text as_story told.now) }
{
    let mut text = Vec::new(alloc);
    spell_history(&mut text, told, as_story)?;
    Ok(text)
}

/// Prints the records of a disk, or that there is no memory for it. Answers the exit status.
fn say_history<W: Write + Drop, E: Write + Drop>(
    alloc: Global,
    told: &Inspection,
    as_story: bool,
    out: &mut Printer<W>,
    err: &mut Printer<E>,
) -> Status
    ensures { SaysHistory as_story (Ok told.now) (printers out.old err.old)
        (printers out.new err.new) result }
{
    match text_of(alloc, told, as_story) {
        Ok(text) => say_text(out, text.as_slice()),
        Err(_) => report(err, Obstacle::Memory),
    }
}

/// Prints the records after the newest snapshot of a worker's disk, one a line or as a script of
/// `story`. Nothing is changed on the disk, but that it is synced. Answers the exit status: `Done`
/// where they are printed, `Refused` for a disk that is refused, `IoError` where it fails,
/// `OutOfMemory`, `Unwritten` where a write of a printer has failed.
pub fn tell_history<D: Disk, W: Write + Drop, E: Write + Drop>(
    alloc: Global,
    disk: &mut D,
    as_story: bool,
    out: &mut Printer<W>,
    err: &mut Printer<E>,
) -> Status
    ensures { TellsHistory as_story (D.medium disk.old) (D.medium disk.new)
        (printers out.old err.old) (printers out.new err.new) result }
{
    match inspect(alloc, disk) {
        Ok(told) => {
            let status = say_history(alloc, &told, as_story, out, err);
            told.close();
            status
        }
        Err(fault) => say_disk_fault(err, OnDiskFault::from(fault)),
    }
}

//! Facts of a process: how far it has come, and where it is.

ghost use Rattle.std.specs.Prelude.{◌≡◌, IfOk, OnOk, map, option_map, reverse};
ghost use Rattle.process.specs.rules.Values.{ending_of};
ghost use Rattle.disk_commands.specs.FactViews.{Adds, fact_value_of, values_of};
ghost use Rattle.disk_commands.specs.rules.DiskFacts.{frame_value, process_facts};
ghost use Rattle.disk_commands.specs.rules.DiskFacts.{progress_facts, question_value, state_value};

use crate::inspecting::fact::{Fact, FactValue, Field, Scalar};
use crate::inspecting::facts::{add, add_list, add_number};
use command_words::trap_name;
use machine::Machine;
use process::{Process, ProcessEnd};
use std::alloc::{AllocError, Global};
use wasi_abi::Question;

/// Adds how far a process has come.
fn add_progress(facts: &mut Vec<Fact>, process: &Process) -> Result<(), AllocError>
    ensures { OnOk result (Adds facts.old.items facts.new.items (progress_facts process.now)) }
{
    add_number(facts, "steps", process.steps())?;
    add_number(facts, "answers", process.answers())?;
    add_number(facts, "requests", process.requests())?;
    add_number(facts, "lines", process.lines())?;
    add_number(facts, "monotonic", process.host().last_monotonic())
}

/// What a process waits for.
fn question_value(question: Option<Question>) -> FactValue<'static>
    ensures { fact_value_of result ≡ question_value question }
{
    match question {
        None => FactValue::Plain(Scalar::Word("nothing")),
        Some(Question::Request) => FactValue::Plain(Scalar::Word("request")),
        Some(Question::Realtime) => FactValue::Plain(Scalar::Word("realtime")),
        Some(Question::Monotonic) => FactValue::Plain(Scalar::Word("monotonic")),
        Some(Question::Random { length }) => {
            FactValue::Tagged(Field::of_number("random", u64::from(length)))
        }
    }
}

/// Whether a process runs, or how it has ended.
fn state_value(end: Option<ProcessEnd>) -> FactValue<'static>
    ensures { fact_value_of result ≡ state_value (option_map ending_of end) }
{
    match end {
        None => FactValue::Plain(Scalar::Word("running")),
        Some(ProcessEnd::Exited(code)) => {
            FactValue::Tagged(Field::of_number("exited", u64::from(code)))
        }
        Some(ProcessEnd::Trapped(why)) => {
            FactValue::Tagged(Field::of_word("trapped", trap_name(why)))
        }
    }
}

/// A frame.
fn frame_value(
    alloc: Global,
    function: u32,
    position: usize,
    slots: &[u64],
) -> Result<FactValue<'static>, AllocError>
    ensures { IfOk result (λ value. fact_value_of value
        ≡ frame_value (record { function = function; position = position; slots = slots.now })) }
{
    let fields = vec![in alloc;
        Field::of_number("function", u64::from(function)),
        Field::of_number("position", position as u64),
        Field::of_number("slots", slots.len() as u64),
    ]?;
    Ok(FactValue::Fields(fields))
}

/// The frames of a machine, from the outermost one in.
fn frame_values(alloc: Global, machine: &Machine) -> Result<Vec<FactValue<'static>>, AllocError>
    ensures { IfOk result (λ values. values_of values.items
        ≡ map frame_value (reverse machine.now.state.frames)) }
{
    let mut values = Vec::new(alloc);
    let count = machine.frame_count();
    for index in 0..count {
        let place = machine.frame(index);
        let frame = frame_value(alloc, place.function, place.position, place.slots)?;
        values.push(frame)?;
    }
    Ok(values)
}

/// Adds where a process is, and that it waits for this.
pub(super) fn add_process(
    facts: &mut Vec<Fact>,
    alloc: Global,
    process: &Process,
    question: Option<Question>,
) -> Result<(), AllocError>
    ensures { OnOk result (Adds facts.old.items facts.new.items
        (process_facts process.now question)) }
{
    let machine = process.machine();
    add_progress(facts, process)?;
    add(facts, "waits", question_value(question))?;
    add(facts, "state", state_value(process.reached_end()))?;
    let frames = frame_values(alloc, machine)?;
    add_list(facts, "frame", "frames", frames)?;
    add_number(facts, "memory", u64::from(machine.memory().pages()))
}

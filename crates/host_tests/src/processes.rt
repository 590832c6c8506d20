//! Processes of small modules, and what they do step after step.

use crate::process_image_stop::ProcessImageStop;
use hex::decode;
use machine::{ModuleFault, read};
use process::{Process, ProcessEnd, ProcessFault, Stop};
use state_image::restoring::{RestoreFault, restore};
use std::alloc::Global;
use wasi_abi::{Answer, Config, Question};
use wasi_calls_rules::OutputStream;
use wasm_syntax::ItemList;

/// Writes a line and exits with 7.
pub(crate) const HELLO: [&str; 4] = [
    "0061736d0100000001100360000060047f7f7f7f017f60017f0002460216776173695f736e617073686f",
    "745f70726576696577310866645f7772697465000116776173695f736e617073686f745f707265766965",
    "77310970726f635f657869740002030201000503010001071302065f73746172740002066d656d6f7279",
    "02000a13011100410141004101411010001a410710010b0b11010041000b0b080000000300000068690a",
];

/// `echo` up to the number of its pages, and after it.
const BEFORE_PAGES: &str = "\
     0061736d01000000010c0260000060047f7f7f7f017f02440216776173695f736e617073686f745f\
     70726576696577310766645f72656164000116776173695f736e617073686f745f70726576696577\
     310866645f777269746500010302010005030100";

const BEHIND_PAGES: &str = "\
     071302065f73746172740002066d656d6f727902000a31012f000340410041004101411010001a41\
     10280200450d01410c4110280200360200410141084101411410011a0c000b0b0b12010041000b0c\
     400000000010000040000000";

/// Reads a line, writes it, and goes on until nothing is read.
pub(crate) const ECHO: [&str; 3] = [BEFORE_PAGES, "01", BEHIND_PAGES];

/// The same with 16 pages.
pub(crate) const LARGE_ECHO: [&str; 3] = [BEFORE_PAGES, "10", BEHIND_PAGES];

/// Makes directories and files, writes into both, and removes one that stays open. Then it leaves a
/// line of stdout unfinished, and reads in a function that it calls.
pub(crate) const FILES: [&str; 14] = [
    "0061736d0100000001250560037f7f7f017f60097f7f7f7f7f7e7e7f7f017f60047f7f7f7f017f600000",
    "60017f017f02c0010516776173695f736e617073686f745f707265766965773115706174685f63726561",
    "74655f6469726563746f7279000016776173695f736e617073686f745f70726576696577310970617468",
    "5f6f70656e000116776173695f736e617073686f745f70726576696577310866645f7772697465000216",
    "776173695f736e617073686f745f707265766965773110706174685f756e6c696e6b5f66696c65000016",
    "776173695f736e617073686f745f70726576696577310766645f72656164000203030203040503010001",
    "0606017f0141030b071302065f73746172740005066d656d6f727902000aaf0102980100410341004101",
    "10001a4103410041084103410142ff8080034200410141d00010011a410441c000410141d40010021a41",
    "034108410310031a4103410041104101410142ff8080034200410041d00010011a410541c000410141d4",
    "0010021a41034118410310001a410341004100410141024291ccbd3142ffccbd33410041d00010011a41",
    "0141c000410141d40010021a4107100624000b1301017f2000410041c800410141d40010046a0b0b5601",
    "0041000b506400000000000000642f6600000000006700000000000000642f650000000000736f6d6520",
    "6279746573206f6620612066696c65000000000000000000000000200000001400000060000000100000",
    "00",
];

/// A process of the module that these bytes spell, at its start.
fn start(alloc: Global, wasm: &[u8], config: Config) -> Result<Process, ProcessImageStop> {
    let module = read(alloc, wasm)?;
    match Process::start(alloc, module, config) {
        Ok(process) => Ok(process),
        Err(fault) => Err(ProcessImageStop::from(ModuleFault::from(fault))),
    }
}

pub(crate) fn bytes_of(alloc: Global, texts: &[&str]) -> Result<Vec<u8>, ProcessImageStop> {
    let mut bytes = Vec::new(alloc);
    for text in texts {
        bytes.extend_from_slice(decode(alloc, *text)?.as_slice())?;
    }
    Ok(bytes)
}

fn config(alloc: Global, pages: u64) -> Result<Config, ProcessImageStop> {
    Ok(Config::new(pages, 1, 64, ItemList::new(alloc), ItemList::new(alloc))?)
}

/// A process that begins, whose memory may have so many pages.
pub(crate) fn begin_with(
    alloc: Global,
    wasm: &[u8],
    pages: u64,
) -> Result<Process, ProcessImageStop> {
    start(alloc, wasm, config(alloc, pages)?)
}

/// The process that was made, if the bytes were an image.
fn process_of(made: Result<Process, RestoreFault>) -> Result<Option<Process>, ProcessImageStop> {
    match made {
        Ok(process) => Ok(Some(process)),
        Err(RestoreFault::NotAnImage) => Ok(None),
        Err(fault) => Err(ProcessImageStop::from(fault)),
    }
}

/// The process of an image, if there is one, whose memory may have so many pages. No `?` is
/// while the module is owned.
pub(crate) fn restore_with(
    alloc: Global,
    wasm: &[u8],
    process_image: &[u8],
    pages: u64,
) -> Result<Option<Process>, ProcessImageStop> {
    let settings = config(alloc, pages)?;
    let module = read(alloc, wasm)?;
    process_of(restore(alloc, module, settings, process_image))
}

/// What a process does, or how it stops.
pub(crate) enum Step {
    /// It runs on so much fuel.
    Run(u64),
    /// It takes `hello` as its answer, or the end of input.
    Take,
    TakeEnd,
    /// It refuses a time as its answer, or the end of input.
    RefuseTime,
    RefuseEnd,
    /// Why it stops on so much fuel: 1 for spent, 2 for owing, 3 for asking for a request, 4 for an
    /// exit with 0, and else 0. Then its steps, its lines, and how many of them wait.
    Stop(u64, [u64; 4]),
    /// It has taken so many steps and answers.
    Taken(u64, u64),
    /// One line waits on stdout, with this text.
    Owe(&'static [u8]),
    /// All lines that wait are taken.
    Release,
    /// It has exited with 7 after eight steps, without an answer.
    Exit,
}

fn hello(alloc: Global) -> Result<Answer, ProcessImageStop> {
    let text = ItemList::from_vec(Vec::from_slice(alloc, b"hello")?);
    Ok(Answer::Request { text })
}

fn stop_of(process: &mut Process, fuel: u64) -> [u64; 4] {
    let why = match process.advance(fuel) {
        Ok(Stop::Spent) => 1,
        Ok(Stop::Owes) => 2,
        Ok(Stop::Asks(Question::Request)) => 3,
        Ok(Stop::Ended(ProcessEnd::Exited(0))) => 4,
        _ => 0,
    };
    let waiting = process.waiting().len() as u64;
    [why, process.steps(), process.lines(), waiting]
}

fn owes(process: &Process, text: &[u8]) -> bool {
    let waiting = process.waiting();
    match waiting.first() {
        Some(line) => {
            waiting.len() == 1 && line.stream() == OutputStream::Stdout && line.text() == text
        }
        None => false,
    }
}

/// Takes all lines that wait.
fn release(process: &mut Process) {
    let count = process.waiting().len();
    process.released(count);
}

/// Whether it has exited with 7 after eight steps, without an answer.
fn has_exited(process: &mut Process) -> bool {
    process.advance(100) == Ok(Stop::Ended(ProcessEnd::Exited(7)))
        && (process.steps(), process.answers(), process.requests()) == (8, 0, 0)
}

fn refuses(process: &mut Process, answer: Answer) -> bool {
    process.give(&answer) == Err(ProcessFault::WrongAnswer)
}

/// Whether a step that takes no memory of its own goes so.
fn is_done(process: &mut Process, step: &Step) -> bool {
    match step {
        Step::RefuseTime => refuses(process, Answer::Realtime { nanoseconds: 1 }),
        Step::RefuseEnd => refuses(process, Answer::End),
        Step::Stop(fuel, wanted) => stop_of(process, *fuel) == *wanted,
        Step::Taken(steps, answers) => {
            process.steps() == *steps && process.answers() == *answers
        }
        Step::Owe(text) => owes(process, text),
        Step::Release => {
            release(process);
            true
        }
        Step::Exit => has_exited(process),
        _ => false,
    }
}

fn goes_so(alloc: Global, process: &mut Process, step: &Step) -> Result<bool, ProcessImageStop> {
    match step {
        Step::Run(fuel) => {
            let _stop = process.advance(*fuel)?;
            Ok(true)
        }
        Step::Take => {
            process.give(&hello(alloc)?)?;
            Ok(true)
        }
        Step::TakeEnd => {
            process.give(&Answer::End)?;
            Ok(true)
        }
        step => Ok(is_done(process, step)),
    }
}

/// Takes all steps. The first one that doesn't go so is told by its place.
pub(crate) fn take_steps(
    alloc: Global,
    process: &mut Process,
    steps: &[Step],
) -> Result<(), ProcessImageStop> {
    for (place, step) in steps.iter().enumerate() {
        if !goes_so(alloc, process, step)? {
            return Err(ProcessImageStop::Wrong(place));
        }
    }
    Ok(())
}

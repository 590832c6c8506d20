//! Images of a process with 16 pages. What two of these tests differ by is what a step costs:
//! `docs/PERFORMANCE.md` says how that is measured.

use crate::process_image_stop::ProcessImageStop;
use crate::processes::{LARGE_ECHO, begin_with, bytes_of, restore_with};
use crate::rows::assert_row;
use process::Process;
use state_image::{Sink, write_process_image, write_process_image_to};
use std::alloc::Global;

/// The most pages, the bytes of so many, and the bytes of the image of `echo` with them.
const PAGES: u64 = 16;

const MEMORY_BYTES: usize = 1_048_576;

const IMAGE_BYTES: usize = 1_048_851;

/// Counts the bytes that it is given.
#[derive(Drop)]
struct Counted {
    bytes: usize,
}

impl Sink for Counted {
    type Fault = ();

    ghost takes = { λ _ _ _ _. Unit {0} };

    fn push(&mut self, bytes: &[u8]) -> Result<(), ()> {
        self.bytes = self.bytes.saturating_add(bytes.len());
        Ok(())
    }
}

fn begin(alloc: Global) -> Result<Process, ProcessImageStop> {
    let wasm = bytes_of(alloc, &LARGE_ECHO)?;
    let begun = begin_with(alloc, wasm.as_slice(), PAGES);
    drop(wasm);
    begun
}

#[test]
fn a_large_process_begins(rt: HostRuntime) -> Result<(), ProcessImageStop> {
    let process = begin(rt.alloc())?;
    let length = process.memory().len();
    drop(process);
    assert_row(&rt, length == MEMORY_BYTES, &length);
    Ok(())
}

/// How many bytes are pushed.
fn count_pushed(process: &Process) -> usize {
    let mut sink = Counted { bytes: 0 };
    let _pushed = write_process_image_to(process, &mut sink);
    sink.bytes
}

#[test]
fn a_large_image_is_pushed(rt: HostRuntime) -> Result<(), ProcessImageStop> {
    let process = begin(rt.alloc())?;
    let length = count_pushed(&process);
    drop(process);
    assert_row(&rt, length == IMAGE_BYTES, &length);
    Ok(())
}

fn written_process_image(alloc: Global) -> Result<Vec<u8>, ProcessImageStop> {
    let process = begin(alloc)?;
    let process_image = write_process_image(alloc, &process);
    drop(process);
    Ok(process_image?)
}

#[test]
fn a_large_image_is_written(rt: HostRuntime) -> Result<(), ProcessImageStop> {
    let process_image = written_process_image(rt.alloc())?;
    let length = process_image.len();
    drop(process_image);
    assert_row(&rt, length == IMAGE_BYTES, &length);
    Ok(())
}

/// How many bytes the memory of the process of an image has.
fn length_restored(alloc: Global, process_image: &[u8]) -> Result<usize, ProcessImageStop> {
    let wasm = bytes_of(alloc, &LARGE_ECHO)?;
    let restored = restore_with(alloc, wasm.as_slice(), process_image, PAGES);
    drop(wasm);
    let Some(process) = restored? else {
        return Ok(0);
    };
    let length = process.memory().len();
    drop(process);
    Ok(length)
}

#[test]
fn a_large_image_comes_back(rt: HostRuntime) -> Result<(), ProcessImageStop> {
    let process_image = written_process_image(rt.alloc())?;
    let restored = length_restored(rt.alloc(), process_image.as_slice());
    drop(process_image);
    let length = restored?;
    assert_row(&rt, length == MEMORY_BYTES, &length);
    Ok(())
}

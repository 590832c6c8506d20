//! Two slices come to what one comes to.

use crate::guests::{ECHO, SECTORS, blank, requests};
use crate::halt::Halt;
use crate::rows::assert_row;
use crate::workers::working::{are_lines, create};
use record_replay::{AnswerList, LineList};
use sector_disk::MemDisk;
use state_image::write_process_image;
use std::alloc::Global;
use worker::{WorkFault, Worker};

/// Both requests are taken, and both lines are told, after so many steps.
const STEPS: u64 = 42;

/// The requests of `ECHO`, and its lines.
static TEXTS: [&[u8]; 2] = [b"hello", b"world"];

/// Runs two slices, the first of so many steps.
fn slice_twice(
    worker: &mut Worker,
    disk: &mut MemDisk,
    first: u64,
    source: &mut AnswerList,
    told: &mut LineList,
) -> Result<(), WorkFault> {
    let _now = worker.slice(disk, first, source, told)?;
    let _now = worker.slice(disk, STEPS.saturating_sub(first), source, told)?;
    Ok(())
}

/// The image of the process after both, where both lines were told.
fn process_image_after(
    alloc: Global,
    worker: &mut Worker,
    disk: &mut MemDisk,
    first: u64,
) -> Result<Option<Vec<u8>>, Halt> {
    let mut source = AnswerList::new(requests(alloc, &TEXTS)?);
    let mut told = LineList::new(alloc);
    let sliced = slice_twice(worker, disk, first, &mut source, &mut told);
    let are_told = are_lines(&told, 1, &TEXTS);
    drop(source);
    drop(told);
    sliced?;
    if !are_told {
        return Ok(None);
    }
    Ok(Some(write_process_image(alloc, worker.process())?))
}

/// The same of a worker that is created on this disk.
fn process_image_on(
    alloc: Global,
    disk: &mut MemDisk,
    first: u64,
) -> Result<Option<Vec<u8>>, Halt> {
    let mut worker = create(alloc, disk, ECHO)?;
    let process_image = process_image_after(alloc, &mut worker, disk, first);
    drop(worker);
    process_image
}

fn process_image_of(alloc: Global, first: u64) -> Result<Option<Vec<u8>>, Halt> {
    let mut disk = blank(alloc, SECTORS)?;
    let process_image = process_image_on(alloc, &mut disk, first);
    drop(disk);
    process_image
}

/// Whether two slices, the first of so many steps, come to the image of one slice.
fn is_as_whole(alloc: Global, first: u64, whole: &[u8]) -> Result<bool, Halt> {
    let process_image = process_image_of(alloc, first)?;
    let is_so = process_image.as_deref() == Some(whole);
    drop(process_image);
    Ok(is_so)
}

#[test]
fn two_slices_are_one(rt: HostRuntime) -> Result<(), Halt> {
    let process_image = process_image_of(rt.alloc(), STEPS)?;
    let whole = process_image.as_deref().unwrap_or(&[]);
    for first in 0..=STEPS {
        assert_row(&rt, is_as_whole(rt.alloc(), first, whole)?, &first);
    }
    Ok(())
}

//! Creations: what is found before a disk is made, and what is told and printed of one that is.

use crate::asking::{Asked, ECHO, sizes_of};
use crate::check::{BEFORE_CODE, HEADER, HELLO, bytes_of};
use crate::lines::Flushed;
use crate::rows::assert_row;
use command_words::{Prepared, Printer, Status, prepare, report_unprepared};
use disk_commands::create_on;
use sector_disk::MemDisk;
use std::alloc::Global;
use std::test::Fail;

/// A creation with one argument and no environment, and how many sectors it needs.
type Found = (Asked, u64);

static FOUND: [Found; 2] = [
    ((&ECHO, [1, 1, 64]), 4676),
    ((&HELLO, [16, 16, 256]), 12_548),
];

fn is_found_so(alloc: Global, row: &Found) -> Result<bool, Fail> {
    let wasm = bytes_of(alloc, row.0.0)?;
    let prepared = prepare(alloc, wasm.as_slice(), sizes_of(row.0.1), &[], &[])?;
    let is_so = prepared.sectors == row.1;
    drop(prepared);
    Ok(is_so)
}

#[test]
fn a_creation_is_prepared(rt: HostRuntime) -> Result<(), Fail> {
    for row in &FOUND {
        assert_row(&rt, is_found_so(rt.alloc(), row)?, row);
    }
    Ok(())
}

/// What is told of a number of pages that is out of its bounds.
const PAGES: &str = "failed C1 Range\n--pages is from 1 to 256\n";

/// A creation that is refused, an entry of its environment, and what says why.
type Refused = (Asked, &'static str, &'static str);

#[rattlefmt::skip]
static REFUSED: [Refused; 9] = [
    ((&[], [1, 1, 64]), "a=b", "failed B1 Malformed\n"),
    ((&[BEFORE_CODE], [1, 1, 64]), "a=b", "failed B1 Malformed\n"),
    ((&["0061736d01000000"], [1, 1, 64]), "a=b", "failed L1 NoStart\n"),
    ((&[HEADER, "010401608102"], [1, 1, 64]), "a=b",
        "failed B3 Limit\nmore than 256 parameters in one type, at byte 12\n"),
    ((&ECHO, [0, 1, 64]), "a=b", PAGES),
    ((&ECHO, [1, 65, 64]), "a=b", "failed C1 Range\n--files is from 1 to 64\n"),
    ((&ECHO, [1, 1, 63]), "a=b", "failed C1 Range\n--journal is from 64 to 65536\n"),
    ((&ECHO, [1, 1, 64]), "=b", "failed C2 Text\nentry 1 of --env isn't NAME=VALUE\n"),
    ((&[], [0, 1, 64]), "a=b", PAGES),
];

fn is_refused_so(alloc: Global, row: &Refused) -> Result<bool, Fail> {
    let wasm = bytes_of(alloc, row.0.0)?;
    let mut err = Vec::new(alloc);
    let status = match prepare(alloc, wasm.as_slice(), sizes_of(row.0.1), &[], &[row.1]) {
        Ok(_prepared) => Status::Done,
        Err(fault) => {
            let err = &mut Printer::new(&mut err, false);
            report_unprepared(alloc, wasm.as_slice(), fault, err)
        }
    };
    Ok(status == Status::Refused && err.as_slice() == row.2.as_bytes())
}

#[test]
fn a_creation_is_refused_before_its_disk_is_made(rt: HostRuntime) -> Result<(), Fail> {
    for row in &REFUSED {
        assert_row(&rt, is_refused_so(rt.alloc(), row)?, row);
    }
    Ok(())
}

/// Sectors of a disk; and the status, the output and the error output of a creation on it.
type Created = (u64, Status, &'static str, &'static str);

static CREATED: [Created; 2] = [
    (4676, Status::Done, "created 4676 sectors\n", ""),
    (4675, Status::Refused, "", "failed Y3 TooSmall\n"),
];

/// Whether a creation on such a disk ends so, with its output flushed.
fn ends_so(alloc: Global, wasm: &[u8], prepared: &Prepared, row: &Created) -> Result<bool, Fail> {
    let mut disk = MemDisk::new(alloc, row.0, 5000)?;
    let mut out = Flushed::new(alloc);
    let mut err = Vec::new(alloc);
    let status = create_on(
        alloc,
        &mut disk,
        wasm,
        &prepared.config,
        &mut Printer::new(&mut out, false),
        &mut Printer::new(&mut err, false),
    );
    let is_so = status == row.1
        && out.out.as_slice() == row.2.as_bytes()
        && err.as_slice() == row.3.as_bytes();
    drop(disk);
    drop(out);
    drop(err);
    Ok(is_so)
}

fn is_created_so(alloc: Global, row: &Created) -> Result<bool, Fail> {
    let wasm = bytes_of(alloc, &ECHO)?;
    let prepared = prepare(alloc, wasm.as_slice(), sizes_of([1, 1, 64]), &[], &[])?;
    let ends = ends_so(alloc, wasm.as_slice(), &prepared, row);
    drop(prepared);
    ends
}

#[test]
fn a_worker_is_created_on_a_disk(rt: HostRuntime) -> Result<(), Fail> {
    for row in &CREATED {
        assert_row(&rt, is_created_so(rt.alloc(), row)?, row);
    }
    Ok(())
}

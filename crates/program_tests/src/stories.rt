//! Stories of a worker: scripts of its lives, and what is printed of them.

use crate::asking::{Asked, ECHO, sizes_of};
use crate::check::bytes_of;
use crate::rows::assert_row;
use crate::run::{HELLO_BYTES, Refused, refused_by};
use command_words::{Printer, Status};
use std::alloc::Global;
use std::test::Fail;
use story_commands::{LineCause, ScriptFault, read_script, tell};

/// A worker of `echo` of the least sizes.
const SMALL_ECHO: Asked = (&ECHO, [1, 1, 64]);

/// A script of a worker; the exit status, and the output and the error output of its story.
type Told = (Asked, &'static str, Status, &'static str, &'static str);

/// The disk of `echo` takes 206 calls until its worker is created. The next one writes the first
/// sector of the journal, in which the record of `hello` ends at byte 505.
///
/// The images are those of a fresh worker, of one that has taken `hello` in its sixth step, and of
/// one that has then taken `world`, 22 steps later.
#[rattlefmt::skip]
static TOLD: [Told; 11] = [
    (SMALL_ECHO, "", Status::Done, "", ""),
    (SMALL_ECHO, "life\nrequest hello\nslice 20\nlife\n", Status::Done,
        "life 1 created\n1 o hello\n\
         life 2 recovered generation 2 steps 6 answers 1 lines 0 image \
         5cbdfc1d641493c2a7bb501dacac8c5c45cedec86d2557d8f1f96db1ea6e7cfe\n", ""),
    (SMALL_ECHO, "life\nrequest hello\nslice 20\nstop 207 504\nlife\nrequest world\nslice 20\n",
        Status::Done,
        "life 1 created\n\
         life 2 recovered generation 2 steps 0 answers 0 lines 0 image \
         5ad2a2bb20898655431222989de2ca89ed0824085c16667851cce4f749d8d791\n1 o world\n", ""),
    (SMALL_ECHO, "life\nrequest hello\nslice 20\nstop 207 505\nlife\nslice 0\n", Status::Done,
        "life 1 created\n\
         life 2 recovered generation 2 steps 6 answers 1 lines 0 image \
         5cbdfc1d641493c2a7bb501dacac8c5c45cedec86d2557d8f1f96db1ea6e7cfe\n", ""),
    // Both lines of the batch wait for its one write, which has both records. It is cut there.
    (SMALL_ECHO, "life\nrequest hello\nrequest world\nbatch 42 2\nstop 207 505\nlife\nslice 14\n",
        Status::Done,
        "life 1 created\n\
         life 2 recovered generation 2 steps 28 answers 2 lines 1 image \
         136aea21c9c078ca7f11615e57a0a23628c604665dc23a2a64c0957aa7fdfd12\n1 o hello\n2 o world\n",
        ""),
    (SMALL_ECHO, "life\nslice 20\nrequest hello\nlife\nslice 14", Status::Done,
        "life 1 created\n1 o hello\n\
         life 2 recovered generation 2 steps 6 answers 1 lines 0 image \
         5cbdfc1d641493c2a7bb501dacac8c5c45cedec86d2557d8f1f96db1ea6e7cfe\n1 o hello\n", ""),
    (SMALL_ECHO, "life\nstop 1 0\nlife\n", Status::Done, "life 1 not opened\nlife 2 created\n", ""),
    (SMALL_ECHO, "life\nslice 20\nhello\n", Status::Usage, "",
        "failed script line 3\nno line begins with this word\n"),
    ((&[], [0, 1, 64]), "slice 20\nlife\n", Status::Usage, "",
        "failed script line 1\na script begins with life\n"),
    ((&[], [0, 1, 64]), "life\n", Status::Refused, "",
        "failed C1 Range\n--pages is from 1 to 256\n"),
    ((&[], [1, 1, 64]), "life\n", Status::Refused, "", "failed B1 Malformed\n"),
];

/// A script, and its first faulty line if there is one, with why it is refused.
type Read = (&'static str, Option<(u64, LineCause)>);

#[rattlefmt::skip]
static READ: [Read; 45] = [
    ("life\nfail 1 512\nrefuse 1\n", None),
    ("life\nfail 0 0\n", Some((2, LineCause::NumberIsZero))),
    ("life\nrefuse 0\n", Some((2, LineCause::NumberIsZero))),
    ("life\nfail 1 0\nfail 1 0\n", Some((3, LineCause::SecondFail))),
    ("life\nrefuse 2\nrefuse 2\n", Some((3, LineCause::SecondRefuse))),
    ("life", None),
    ("life\nlife\n", None),
    ("life\nrequest \nend\nrealtime 0\nmonotonic 007\n", None),
    ("life\nrandom\nrandom \nrandom 00aF\ncheckpoint\n", None),
    ("life\ntears 0 512\nstop 1 512\nlife\nstop 9 0\ntears 1\n", None),
    ("life\nslice 18446744073709551615\n", None),
    ("life\nslice 18446744073709551616\n", Some((2, LineCause::NumberTooLarge))),
    ("life\nslice\n", Some((2, LineCause::WordLacksMore))),
    ("life\nslice \n", Some((2, LineCause::NotANumber))),
    ("life\nslice  1\n", Some((2, LineCause::NotANumber))),
    ("life\nslice 1 \n", Some((2, LineCause::NotANumber))),
    ("life\nslice +1\n", Some((2, LineCause::NotANumber))),
    ("life\nbatch 0 1\n", None),
    ("life\nbatch 18446744073709551615 18446744073709551615\n", None),
    ("life\nbatch 1 0\n", Some((2, LineCause::NumberIsZero))),
    ("life\nbatch 1\n", Some((2, LineCause::SecondNumberMissing))),
    ("life\nbatch 1 \n", Some((2, LineCause::NotANumber))),
    ("life\nbatch  1 1\n", Some((2, LineCause::NotANumber))),
    ("life\nbatch 1 1 \n", Some((2, LineCause::NotANumber))),
    ("life\nbatch 1 18446744073709551616\n", Some((2, LineCause::NumberTooLarge))),
    ("life\nrealtime -1\n", Some((2, LineCause::NotANumber))),
    ("life\nmonotonic a\n", Some((2, LineCause::NotANumber))),
    ("life\n\nlife\n", Some((2, LineCause::Empty))),
    ("life \n", Some((1, LineCause::WordStandsAlone))),
    ("LIFE\n", Some((1, LineCause::UnknownWord))),
    ("request a\nlife\n", Some((1, LineCause::NoLifeBegun))),
    ("life\nrequest\n", Some((2, LineCause::WordLacksMore))),
    ("life\nend 1\n", Some((2, LineCause::WordStandsAlone))),
    ("life\ncheckpoint \n", Some((2, LineCause::WordStandsAlone))),
    ("life\nrandom 0\n", Some((2, LineCause::NotHexadecimal))),
    ("life\nrandom 0g\n", Some((2, LineCause::NotHexadecimal))),
    ("life\nstop 0 0\n", Some((2, LineCause::NumberIsZero))),
    ("life\nstop 1\n", Some((2, LineCause::SecondNumberMissing))),
    ("life\nstop 1 513\n", Some((2, LineCause::FrontTooLarge))),
    ("life\nstop 1 0\nslice 1\nstop 1 0\n", Some((4, LineCause::SecondStop))),
    ("life\ntears\n", Some((2, LineCause::WordLacksMore))),
    ("life\ntears 513\n", Some((2, LineCause::NotFronts))),
    ("life\ntears 1\ntears 1\n", Some((3, LineCause::SecondTears))),
    ("life\nstop a 0\n", Some((2, LineCause::NotANumber))),
    ("life\n request a\n", Some((2, LineCause::UnknownWord))),
];

fn is_read_so(alloc: Global, row: &Read) -> bool {
    match read_script(alloc, row.0.as_bytes()) {
        Ok(_) => row.1.is_none(),
        Err(ScriptFault::Line { number, cause }) => row.1 == Some((number, cause)),
        Err(ScriptFault::Memory) => false,
    }
}

fn is_told_so(alloc: Global, row: &Told) -> Result<bool, Fail> {
    let (asked, script, status, said, said_of_errors) = *row;
    let wasm = bytes_of(alloc, asked.0)?;
    let mut out = Vec::new(alloc);
    let mut err = Vec::new(alloc);
    let sizes = sizes_of(asked.1);
    let told = tell(
        alloc,
        script.as_bytes(),
        wasm.as_slice(),
        sizes,
        &mut Printer::new(&mut out, false),
        &mut Printer::new(&mut err, false),
    );
    drop(wasm);
    let is_so = told == status
        && out.as_slice() == said.as_bytes()
        && err.as_slice() == said_of_errors.as_bytes();
    drop(out);
    drop(err);
    Ok(is_so)
}

#[test]
fn a_story_is_told(rt: HostRuntime) -> Result<(), Fail> {
    for row in &TOLD {
        assert_row(&rt, is_told_so(rt.alloc(), row)?, &row.1);
    }
    Ok(())
}

#[test]
fn a_faulty_line_is_found(rt: HostRuntime) {
    for row in &READ {
        assert_row(&rt, is_read_so(rt.alloc(), row), row);
    }
}

/// What is told of a life of `hello` for which memory was refused, in its opening or in its slice.
static STARVED: [&[u8]; 2] = [
    b"life 1 not opened\n\0",
    b"life 1 created\nlife 1 ended N4 Memory\n\0",
];

/// What a story has come to that should tell the line of `hello`.
fn judge_story(status: Status, out: &[u8], err: &[u8]) -> Result<(), Refused> {
    if status == Status::Done && out.starts_with(b"life 1 created\n1 o hi\n\0") {
        return Ok(());
    }
    if status == Status::Done && STARVED.iter().any(|text| out.starts_with(text)) {
        return Err(Refused::Memory);
    }
    if out.starts_with(b"\0") {
        return Err(refused_by(status, err));
    }
    Err(Refused::Otherwise)
}

/// `scripts/runs/refused-allocations` refuses each allocation in turn. Then nothing is printed and
/// the status is that of out of memory, or a life is told that has ended for it. The script, the
/// module and what is printed take no memory here.
#[test]
fn a_story_with_memory(rt: HostRuntime) -> Result<(), Refused> {
    let mut out = [0u8; 64];
    let mut err = [0u8; 32];
    let status = tell(
        rt.alloc(),
        "life\nslice 100\n".as_bytes(),
        &HELLO_BYTES,
        sizes_of([1, 1, 64]),
        &mut Printer::new(&mut out[..], false),
        &mut Printer::new(&mut err[..], false),
    );
    judge_story(status, &out, &err)
}

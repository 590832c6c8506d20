//! Which sectors are written, what is damaged, and how heads are spelled.

use crate::rows::assert_row;
use crate::snapshots::Step::{
    self, Anew, Begin, Calls, Commit, Damage, Fails, Head, Holds, IsHead, LeadsToLong, Newest,
    Pieces, Rewrite, Sync,
};
use crate::snapshots::{
    Answer, CUT, DONE, FAILED, Image, LONG, LONG_HEAD, NEW, OLD, SHORT, is_small_so, is_so,
};
use sector_disk::{DiskFault, FaultPoint};
use snapshot::SnapshotFault;

/// The mark, version 1, 600 bytes and their digest.
const SHORT_HEAD: [u8; 56] = *b"DWAREA..\
    \x01\0\0\0\0\0\0\0\
    \x58\x02\0\0\0\0\0\0\
    \xf3\x72\x91\x37\xab\x24\x58\x24\xf0\x35\xf3\xa8\x55\x87\x8a\x52\
    \xff\xed\x85\x8b\x8b\x01\x48\x2a\x1d\x6b\xae\x6d\x0d\x9f\x70\x28";

/// A disk that stops at a call or fails one, and what is done with it when it is empty. Then the
/// image that a cut leaves, if it is cut.
struct Case {
    name: &'static str,
    stop: Option<FaultPoint>,
    fail: Option<FaultPoint>,
    steps: &'static [Step],
    left: Option<Image>,
}

const IO: SnapshotFault = SnapshotFault::Disk(DiskFault::Io);

const DAMAGED: SnapshotFault = SnapshotFault::Damaged;

const TOO_BIG: Answer = Err(SnapshotFault::TooBig);

/// What is done with an empty disk that nothing befalls, and what is seen.
#[rattlefmt::skip]
static CASES: [(&str, &[Step]); 29] = [
    // Only sectors that differ are written.
    ("the same image", &[
        Commit((1, 1, LONG), DONE), Commit((1, 2, SHORT), DONE), Rewrite((1400, false, (3, 1, 2))),
    ]),
    ("another byte", &[
        Commit((1, 1, LONG), DONE), Commit((1, 2, SHORT), DONE), Rewrite((1400, true, (3, 2, 2))),
    ]),
    ("a byte fewer", &[
        Commit((1, 1, LONG), DONE), Commit((1, 2, SHORT), DONE), Rewrite((1399, false, (3, 2, 2))),
    ]),
    ("two sectors of it", &[
        Commit((1, 1, LONG), DONE), Commit((1, 2, SHORT), DONE), Rewrite((1024, false, (2, 1, 2))),
    ]),
    ("nothing of it",
        &[Commit((1, 1, LONG), DONE), Commit((1, 2, SHORT), DONE), Rewrite((0, false, (0, 1, 2)))]),
    ("LONG in pieces, split at 0", &[Pieces(0)]),
    ("LONG in pieces, split at 1", &[Pieces(1)]),
    ("LONG in pieces, split at 511", &[Pieces(511)]),
    ("LONG in pieces, split at 512", &[Pieces(512)]),
    ("LONG in pieces, split at 513", &[Pieces(513)]),
    ("LONG in pieces, split at 1024", &[Pieces(1024)]),
    ("LONG in pieces, split at 1400", &[Pieces(1400)]),
    // SHORT ends in zeros in its second sector, where LONG stood before. The third one is LONG's.
    ("zeros behind an image", &[
        Commit((1, 1, LONG), DONE), Commit((1, 2, SHORT), DONE), Commit((1, 3, SHORT), DONE),
        Holds(8, &[(7, 88)]), Holds(9, &[(9, 376)]),
    ]),
    // What is too big is refused before a call, and the next commit is `Failed`.
    ("an image that is too large",
        &[Commit((1, 1, &[1; 1537]), TOO_BIG), Calls(0, 0, 0), Commit(OLD, FAILED)]),
    ("a generation that is too large",
        &[Commit((1, 1 << 63, &[]), TOO_BIG), Calls(0, 0, 0), Commit(OLD, FAILED)]),
    ("the largest number",
        &[Commit((1, u64::MAX, &[]), TOO_BIG), Calls(0, 0, 0), Commit(OLD, FAILED)]),
    ("the largest image of the last generation", &[Commit((1, (1 << 63) - 1, &[1; 1536]), DONE)]),
    ("a version is given back", &[Commit((2, 5, SHORT), DONE), Newest((2, 5, SHORT))]),
    ("heads byte by byte", &[
        Commit(OLD, DONE), Commit(NEW, DONE),
        IsHead(2, &SHORT_HEAD, b"\x01\0\0\0\0\0\0\0\x01\0\0\0\0\0\0\0"),
        IsHead(1, &LONG_HEAD, b"\x02\0\0\0\0\0\0\0\x01\0\0\0\0\0\0\0"),
    ]),
    ("the newest head leads to its image",
        &[Commit(OLD, DONE), Commit(NEW, DONE), Anew, LeadsToLong, Newest(NEW)]),
    // The bytes after the image are not compared, nor are those of the other area.
    ("byte 0 of sector 7", &[Commit(OLD, DONE), Damage(7, 0), Fails(DAMAGED)]),
    ("byte 87 of sector 8", &[Commit(OLD, DONE), Damage(8, 87), Fails(DAMAGED)]),
    ("byte 88 of sector 8", &[Commit(OLD, DONE), Damage(8, 88), Newest(OLD)]),
    ("byte 0 of sector 9", &[Commit(OLD, DONE), Damage(9, 0), Newest(OLD)]),
    ("byte 0 of sector 4", &[Commit(OLD, DONE), Damage(4, 0), Newest(OLD)]),
    // A length above the area is told before a sector is read, and another digest after that.
    ("a head with the length 1537", &[Head(1537), Fails(DAMAGED), Calls(2, 1, 0)]),
    ("a head with the largest length", &[Head(u64::MAX), Fails(DAMAGED), Calls(2, 1, 0)]),
    ("a head with the length 1536", &[Head(1536), Fails(DAMAGED), Calls(5, 1, 0)]),
    ("a head with the length 513", &[Head(513), Fails(DAMAGED), Calls(4, 1, 0)]),
];

#[rattlefmt::skip]
static TROUBLES: [Case; 6] = [
    // A failed sync of a head, call 16, fails what follows, with no call of the disk. The head is
    // found on the same disk after a good sync. A cut in the first write of the next commit leaves
    // it.
    Case { name: "a failed sync of a head", stop: Some(FaultPoint { call: 24, front: 5 }),
        fail: Some(FaultPoint { call: 16, front: 0 }), steps: &[
        Commit(OLD, DONE), Commit(NEW, Err(IO)), Calls(5, 7, 4), Commit((1, 3, SHORT), FAILED),
        Begin(FAILED), Calls(5, 7, 4), Sync, Newest(NEW), Commit((1, 3, LONG), FAILED), Anew,
        Commit((1, 3, LONG), CUT),
    ], left: Some(NEW) },
    // A commit takes seven calls. Then two heads and two sectors of the area are read.
    Case { name: "read 1 fails", stop: None, fail: Some(FaultPoint { call: 8, front: 0 }),
        steps: &[Commit(OLD, DONE), Fails(IO)], left: None },
    Case { name: "read 2 fails", stop: None, fail: Some(FaultPoint { call: 9, front: 0 }),
        steps: &[Commit(OLD, DONE), Fails(IO)], left: None },
    Case { name: "read 3 fails", stop: None, fail: Some(FaultPoint { call: 10, front: 0 }),
        steps: &[Commit(OLD, DONE), Fails(IO)], left: None },
    Case { name: "read 4 fails", stop: None, fail: Some(FaultPoint { call: 11, front: 0 }),
        steps: &[Commit(OLD, DONE), Fails(IO)], left: None },
    Case { name: "read 5 fails", stop: None, fail: Some(FaultPoint { call: 12, front: 0 }),
        steps: &[Commit(OLD, DONE), Newest(OLD)], left: None },
];

/// A disk with too few sectors is called for nothing.
static SMALL: [Step; 4] = [
    Fails(SnapshotFault::Disk(DiskFault::Range)),
    Commit(OLD, Err(SnapshotFault::Disk(DiskFault::Range))),
    Commit(OLD, FAILED),
    Calls(0, 0, 0),
];

/// `scripts/runs/refused-allocations` refuses each allocation in turn, and then this ends out of
/// memory.
#[test]
fn images_are_committed_and_found(rt: HostRuntime) -> Result<(), SnapshotFault> {
    for (name, steps) in &CASES {
        assert_row(&rt, is_so(rt.alloc(), None, None, steps, &None)?, name);
    }
    for case in &TROUBLES {
        let is_so = is_so(rt.alloc(), case.stop, case.fail, case.steps, &case.left)?;
        assert_row(&rt, is_so, &case.name);
    }
    let is_so = is_small_so(rt.alloc(), SMALL.as_slice())?;
    assert_row(&rt, is_so, &"a disk that is too small");
    Ok(())
}

//! Records byte by byte, batches that are torn, how much is written, and what a scan finds.

use crate::journals::Given::{End, Letters, Monotonic, Random, Realtime, Request};
use crate::journals::Step::{
    self, Again, Anew, Append, Barrier, Before, Calls, Holds, Payload, Scan,
};
use crate::journals::{Count, Sector, Trouble, is_small_so, is_so};
use crate::rows::assert_row;
use journal::JournalFault;
use sector_disk::{DiskFault, FaultPoint};

/// What is done, what befalls the disk, and what is seen of what is left.
struct Case {
    name: &'static str,
    steps: &'static [Step],
    trouble: Trouble,
    then: &'static [Step],
}

const NO_TROUBLE: Trouble = Trouble {
    stop: None,
    fail: None,
    tears: None,
};

const FIRST: [u8; 81] = *b"\x4f\0\
    \x01\x06\0\0\0\0\0\0\0\x05\0hello\
    \x02\x07\0\0\0\0\0\0\0\0\0\
    \x03\x08\0\0\0\0\0\0\0\x08\0\x08\x07\x06\x05\x04\x03\x02\x01\
    \x04\x09\0\0\0\0\0\0\0\x08\0\xf8\xf9\xfa\xfb\xfc\xfd\xfe\xff\
    \x05\x0a\0\0\0\0\0\0\0\x03\0\0\xff\x10";

const SECOND: [u8; 13] = *b"\x0b\0\
    \x02\x0b\0\0\0\0\0\0\0\0\0";

/// All six records in one sector.
const AGAIN: [u8; 92] = *b"\x5a\0\
    \x01\x06\0\0\0\0\0\0\0\x05\0hello\
    \x02\x07\0\0\0\0\0\0\0\0\0\
    \x03\x08\0\0\0\0\0\0\0\x08\0\x08\x07\x06\x05\x04\x03\x02\x01\
    \x04\x09\0\0\0\0\0\0\0\x08\0\xf8\xf9\xfa\xfb\xfc\xfd\xfe\xff\
    \x05\x0a\0\0\0\0\0\0\0\x03\0\0\xff\x10\
    \x02\x0b\0\0\0\0\0\0\0\0\0";

const WRITTEN: [Sector; 2] = [
    (4, &FIRST, b"\x01\0\0\0\0\0\0\0\x01\0\0\0\0\0\0\0"),
    (5, &SECOND, b"\x01\0\0\0\0\0\0\0\x02\0\0\0\0\0\0\0"),
];

const WRITTEN_AGAIN: [Sector; 2] = [
    (4, &AGAIN, b"\x02\0\0\0\0\0\0\0\x01\0\0\0\0\0\0\0"),
    (5, &SECOND, b"\x01\0\0\0\0\0\0\0\x02\0\0\0\0\0\0\0"),
];

const PLAIN: Case = Case {
    name: "",
    steps: &[],
    trouble: NO_TROUBLE,
    then: &[],
};

const CUT: Count = Err(JournalFault::Disk(DiskFault::Cut));

const FAILED_READ: Count = Err(JournalFault::Disk(DiskFault::Io));

/// Three sectors of one record, in which the disk stops.
const STOPPED: &[Step] = &[Append(1, Letters(978), Ok(6915)), Barrier(CUT)];

/// Two records that are written, and read in vain.
const READ_IN_VAIN: &[Step] = &[
    Append(1, Letters(250), Ok(7643)),
    Append(2, Letters(250), Ok(7382)),
    Barrier(Ok(6916)),
    Scan(1, 1, FAILED_READ),
];

/// Three sectors, of which the second one is torn. One record is left of them, and none after it in
/// generation 2.
const SECOND_TORN: Case = Case {
    trouble: Trouble {
        stop: Some(FaultPoint { call: 4, front: 0 }),
        fail: None,
        tears: Some(&[512, 499, 512]),
    },
    then: &[
        Scan(1, 1, Ok(1)),
        Anew(2, Ok(7904)),
        Append(1, Letters(900), Ok(6993)),
        Barrier(Ok(6916)),
        Scan(2, 1, Ok(1)),
    ],
    ..PLAIN
};

/// What is done on a disk that nothing befalls, and what is seen.
#[rattlefmt::skip]
static CASES: [(&str, &[Step]); 24] = [
    // After a barrier there is room for 15 sectors, and after the second one for 14.
    ("two barriers, byte by byte", &[
        Append(6, Request(b"hello"), Ok(7888)), Append(7, End, Ok(7877)),
        Append(8, Realtime(0x0102030405060708), Ok(7858)),
        Append(9, Monotonic(0xfffefdfcfbfaf9f8), Ok(7839)),
        Append(10, Random(b"\0\xff\x10"), Ok(7825)), Barrier(Ok(7410)), Append(11, End, Ok(7399)),
        Barrier(Ok(6916)), Holds(&WRITTEN), Anew(2, Ok(7904)), Again(1, Ok(7814)),
        Barrier(Ok(7410)), Holds(&WRITTEN_AGAIN),
    ]),
    ("five records over five sectors", &[
        Append(1, Letters(400), Ok(7493)), Append(2, Letters(400), Ok(7082)),
        Append(3, Letters(400), Ok(6671)), Append(4, Letters(400), Ok(6260)),
        Append(5, Letters(400), Ok(5849)), Barrier(Ok(5434)), Scan(1, 1, Ok(5)),
    ]),
    // As few sectors are written as hold the bytes, with one sync. A barrier without a record calls
    // the disk for nothing.
    ("0 letters in 1", &[
        Barrier(Ok(7904)), Calls(0, 0, 0), Append(1, Letters(0), Ok(7893)), Barrier(Ok(7410)),
        Calls(0, 1, 1),
    ]),
    ("483 letters in 1", &[
        Barrier(Ok(7904)), Calls(0, 0, 0), Append(1, Letters(483), Ok(7410)), Barrier(Ok(7410)),
        Calls(0, 1, 1),
    ]),
    ("484 letters in 2", &[
        Barrier(Ok(7904)), Calls(0, 0, 0), Append(1, Letters(484), Ok(7409)), Barrier(Ok(6916)),
        Calls(0, 2, 1),
    ]),
    ("977 letters in 2", &[
        Barrier(Ok(7904)), Calls(0, 0, 0), Append(1, Letters(977), Ok(6916)), Barrier(Ok(6916)),
        Calls(0, 2, 1),
    ]),
    ("978 letters in 3", &[
        Barrier(Ok(7904)), Calls(0, 0, 0), Append(1, Letters(978), Ok(6915)), Barrier(Ok(6422)),
        Calls(0, 3, 1),
    ]),
    ("3941 letters in 8", &[
        Barrier(Ok(7904)), Calls(0, 0, 0), Append(1, Letters(3941), Ok(3952)), Barrier(Ok(3952)),
        Calls(0, 8, 1),
    ]),
    ("the longest request", &[Anew(1, Ok(7904)), Append(9, Letters(4096), Ok(3797))]),
    ("one that is too long",
        &[Anew(1, Ok(7904)), Append(9, Letters(4097), Err(JournalFault::TooLong))]),
    ("all of the room", &[Append(1, Letters(4096), Ok(3797)), Append(9, Letters(3786), Ok(0))]),
    ("a byte more than the room",
        &[Append(1, Letters(4096), Ok(3797)), Append(9, Letters(3787), Err(JournalFault::Full))]),
    // A scan ends at what is no record.
    ("nothing", &[Payload(b""), Scan(1, 6, Ok(0))]),
    ("a request", &[Payload(b"\x01\x06\0\0\0\0\0\0\0\x05\0hello"), Scan(1, 6, Ok(1))]),
    ("a letter less than it says",
        &[Payload(b"\x01\x06\0\0\0\0\0\0\0\x05\0hell"), Scan(1, 6, Ok(0))]),
    ("a request, and a part of an end", &[
        Payload(b"\x01\x06\0\0\0\0\0\0\0\x05\0hello\x02\x07\0\0\0\0\0\0\0\0"), Scan(1, 6, Ok(1)),
    ]),
    ("a request and an end", &[
        Payload(b"\x01\x06\0\0\0\0\0\0\0\x05\0hello\x02\x07\0\0\0\0\0\0\0\0\0"), Scan(1, 6, Ok(2)),
    ]),
    ("kind 0", &[Payload(b"\0\x06\0\0\0\0\0\0\0\0\0"), Scan(1, 6, Ok(0))]),
    ("kind 6", &[Payload(b"\x06\x06\0\0\0\0\0\0\0\0\0"), Scan(1, 6, Ok(0))]),
    ("an end with a byte", &[Payload(b"\x02\x06\0\0\0\0\0\0\0\x01\0a"), Scan(1, 6, Ok(0))]),
    ("a time of 7 bytes", &[Payload(b"\x03\x06\0\0\0\0\0\0\0\x07\0aaaaaaa"), Scan(1, 6, Ok(0))]),
    ("a time of 9 bytes", &[Payload(b"\x04\x06\0\0\0\0\0\0\0\x09\0aaaaaaaaa"), Scan(1, 6, Ok(0))]),
    ("a time of 8 bytes", &[Payload(b"\x04\x06\0\0\0\0\0\0\0\x08\0aaaaaaaa"), Scan(1, 6, Ok(1))]),
    ("no random byte", &[Payload(b"\x05\x06\0\0\0\0\0\0\0\0\0"), Scan(1, 6, Ok(1))]),
];

/// What befalls the disk, also while it is read.
#[rattlefmt::skip]
static TROUBLES: [Case; 10] = [
    // The sectors of a barrier are written in rising order. The last call is its sync.
    Case { name: "three sectors, stopped at call 1", steps: STOPPED,
        trouble: Trouble { stop: Some(FaultPoint { call: 1, front: 0 }), ..NO_TROUBLE },
        then: &[Before(4)] },
    Case { name: "three sectors, stopped at call 2", steps: STOPPED,
        trouble: Trouble { stop: Some(FaultPoint { call: 2, front: 0 }), ..NO_TROUBLE },
        then: &[Before(5)] },
    Case { name: "three sectors, stopped at call 3", steps: STOPPED,
        trouble: Trouble { stop: Some(FaultPoint { call: 3, front: 0 }), ..NO_TROUBLE },
        then: &[Before(6)] },
    Case { name: "three sectors, stopped at call 4", steps: STOPPED,
        trouble: Trouble { stop: Some(FaultPoint { call: 4, front: 0 }), ..NO_TROUBLE },
        then: &[Before(7)] },
    // A batch that is torn keeps its first record. The third sector, of generation 1, is none of
    // generation 2.
    Case { name: "three requests of 400 letters, the second sector torn", steps: &[
        Append(1, Letters(400), Ok(7493)), Append(2, Letters(400), Ok(7082)),
        Append(3, Letters(400), Ok(6671)), Barrier(CUT), Calls(0, 3, 1),
        Append(4, Letters(1), Err(JournalFault::Failed)),
    ], ..SECOND_TORN },
    Case { name: "three requests of 483 letters, the second sector torn", steps: &[
        Append(1, Letters(483), Ok(7410)), Append(2, Letters(483), Ok(6916)),
        Append(3, Letters(483), Ok(6422)), Barrier(CUT), Calls(0, 3, 1),
        Append(4, Letters(1), Err(JournalFault::Failed)),
    ], ..SECOND_TORN },
    // Two records take two writes and a sync. Then three sectors are read: the third is none of the
    // generation.
    Case { name: "two records, read 1 fails", steps: READ_IN_VAIN,
        trouble: Trouble { fail: Some(FaultPoint { call: 4, front: 0 }), ..NO_TROUBLE }, ..PLAIN },
    Case { name: "two records, read 2 fails", steps: READ_IN_VAIN,
        trouble: Trouble { fail: Some(FaultPoint { call: 5, front: 0 }), ..NO_TROUBLE }, ..PLAIN },
    Case { name: "two records, read 3 fails", steps: READ_IN_VAIN,
        trouble: Trouble { fail: Some(FaultPoint { call: 6, front: 0 }), ..NO_TROUBLE }, ..PLAIN },
    Case { name: "two records, read 4 fails", steps: &[
        Append(1, Letters(250), Ok(7643)), Append(2, Letters(250), Ok(7382)), Barrier(Ok(6916)),
        Scan(1, 1, Ok(2)),
    ], trouble: Trouble { fail: Some(FaultPoint { call: 7, front: 0 }), ..NO_TROUBLE }, ..PLAIN },
];

/// A disk with too few sectors is called for nothing.
static SMALL: [Step; 6] = [
    Scan(1, 1, Err(JournalFault::Disk(DiskFault::Range))),
    Barrier(Ok(7904)),
    Append(1, End, Ok(7893)),
    Barrier(Err(JournalFault::Disk(DiskFault::Range))),
    Barrier(Err(JournalFault::Failed)),
    Calls(0, 0, 0),
];

/// `scripts/runs/refused-allocations` refuses each allocation in turn, and then this ends out of
/// memory.
#[test]
fn records_are_written_and_scanned(rt: HostRuntime) -> Result<(), JournalFault> {
    for (name, steps) in &CASES {
        assert_row(&rt, is_so(rt.alloc(), &NO_TROUBLE, steps, &[])?, name);
    }
    for case in &TROUBLES {
        let is_so = is_so(rt.alloc(), &case.trouble, case.steps, case.then)?;
        assert_row(&rt, is_so, &case.name);
    }
    let is_so = is_small_so(rt.alloc(), SMALL.as_slice())?;
    assert_row(&rt, is_so, &"a disk that is too small");
    Ok(())
}

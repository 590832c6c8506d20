//! Stops, cuts and torn writes.

use crate::guests::{ECHO, THRICE};
use crate::halt::Halt;
use crate::rows::assert_row;
use crate::stories::lives::AllTold::{Each, Second, Shut};
use crate::stories::lives::{AGAIN, CREATED, FIRST, IDLE, OTHER, Plan, TELLS, Tale, Told, is_told};
use sector_disk::{DiskFault, FaultPoint};
use std::alloc::Global;
use worker::story::LifeEnd::{Failed, Finished, Stopped};
use worker::story::PlannedAct;
use worker::{RecoverFault, SliceFault, WorkFault};

/// The last call of the disk with which `echo` is created, after two of the recovery that found no
/// worker: 72 of zeros, contents and syncs, 129 of the image, and five after it.
const LAST_OF_CREATION: u64 = 206;

/// The calls of the first checkpoint: 129 reads, 3 writes and 2 syncs.
const CHECKPOINT: u64 = 134;

/// One letter.
const LETTER: &[u8] = b"b";

/// A worker was created, and stopped before its line.
const STOPPED: Told = Told {
    opened: [1, 0, 0, 0],
    ended: Stopped,
    line: b"",
};

/// It had taken no request, and tells the line of another one.
const ANEW: Told = Told {
    opened: [2, 0, 0, 0],
    ended: Finished,
    line: b"world",
};

/// A request whose record doesn't fill a sector, so that the second one begins in the first.
const LONG: &[u8] = &[b'a'; 400];

/// One whose record fills it.
const LONGER: &[u8] = &[b'a'; 483];

/// One answer is kept of the three, and then stays the only one.
#[rattlefmt::skip]
const ONE_KEPT: [Told; 3] = [
    STOPPED,
    Told { opened: [2, 5, 1, 0], ended: Finished, line: b"" },
    Told { opened: [3, 5, 1, 0], ended: Finished, line: b"" },
];

#[rattlefmt::skip]
static TALES: [Tale; 13] = [
    Tale { name: "a line is told again", guest: ECHO, plans: &[FIRST, TELLS],
        told: Each(&[CREATED, AGAIN]) },
    // It is stopped in the write of the first journal sector. The record of `hello` ends at byte
    // 505 of that, and all after it are zeros.
    Tale { name: "a torn record is lost", guest: ECHO, plans: &[
        Plan { stop: Some(FaultPoint { call: LAST_OF_CREATION + 1, front: 504 }), ..FIRST }, OTHER,
    ], told: Each(&[STOPPED, ANEW]) },
    // The same with one byte more.
    Tale { name: "a whole record is kept", guest: ECHO, plans: &[
        Plan { stop: Some(FaultPoint { call: LAST_OF_CREATION + 1, front: 505 }), ..FIRST }, OTHER,
    ], told: Each(&[STOPPED, AGAIN]) },
    // Three requests are read, and the power is cut in the sync that puts their records on the
    // disk. The cut keeps all of the first and third sector, and 499 bytes of the second. Two lives
    // follow that do nothing.
    Tale { name: "a torn sector ends the journal", guest: THRICE, plans: &[
        Plan {
            requests: &[LONG, LONG, LONG], acts: &[PlannedAct::Slice { fuel: 100 }],
            stop: Some(FaultPoint { call: LAST_OF_CREATION + 4, front: 0 }),
            tears: &[512, 499, 512], ..FIRST
        },
        IDLE, IDLE,
    ], told: Each(&ONE_KEPT) },
    Tale { name: "a torn record ends the journal", guest: THRICE, plans: &[
        Plan {
            requests: &[LONGER, LONGER, LONGER], acts: &[PlannedAct::Slice { fuel: 100 }],
            stop: Some(FaultPoint { call: LAST_OF_CREATION + 4, front: 0 }),
            tears: &[512, 499, 512], ..FIRST
        },
        IDLE, IDLE,
    ], told: Each(&ONE_KEPT) },
    // A stop at the first call opens nothing, and the next life creates a worker.
    Tale { name: "a stop in the opening is told", guest: ECHO,
        plans: &[Plan { stop: Some(FaultPoint { call: 1, front: 0 }), ..FIRST }, FIRST],
        told: Each(&[Told { opened: [0, 0, 0, 0], ended: Stopped, line: b"" }, CREATED]) },
    // The calls of one life don't count for the next one, which makes fewer than 400: its stop is
    // never reached.
    Tale { name: "stops are counted anew", guest: ECHO, plans: &[
        FIRST,
        Plan {
            requests: &[], acts: &[PlannedAct::Slice { fuel: 14 }],
            stop: Some(FaultPoint { call: 400, front: 0 }), ..FIRST
        },
    ], told: Each(&[CREATED, AGAIN]) },
    // The outlet refuses the first line, which the next life tells again.
    Tale { name: "a refused line is told again", guest: ECHO,
        plans: &[Plan { refuse: Some(1), ..FIRST }, TELLS], told: Each(&[
        Told {
            opened: [1, 0, 0, 0],
            ended: Failed(RecoverFault::Worker(WorkFault::Work(SliceFault::Outlet))),
            line: b"hello",
        },
        AGAIN,
    ]) },
    // A time doesn't answer a question for a line.
    Tale { name: "a wrong answer", guest: ECHO,
        plans: &[Plan { requests: &[], time: Some(5), ..FIRST }, FIRST], told: Each(&[
        Told {
            opened: [1, 0, 0, 0],
            ended: Failed(RecoverFault::Worker(WorkFault::Work(SliceFault::Source))), line: b"",
        },
        Told { opened: [2, 0, 0, 0], ended: Finished, line: b"hello" },
    ]) },
    // The head of a checkpoint is written, and its sync fails. The next life finds it.
    Tale { name: "a failed checkpoint", guest: ECHO, plans: &[
        Plan {
            acts: &[PlannedAct::Checkpoint],
            fail: Some(FaultPoint { call: LAST_OF_CREATION + CHECKPOINT, front: 0 }), ..IDLE
        },
        IDLE,
    ], told: Each(&[
        Told {
            opened: [1, 0, 0, 0],
            ended: Failed(RecoverFault::Worker(WorkFault::Disk(DiskFault::Io))), line: b"",
        },
        Told { opened: [3, 0, 0, 0], ended: Finished, line: b"" },
    ]) },
    // Each line puts one sector of the journal on the disk. Behind 56 of them its room is too small
    // for one more answer, so that the worker is saved before it asks.
    Tale { name: "55 lines", guest: ECHO, plans: &[
        Plan { requests: &[LETTER; 55], acts: &[PlannedAct::Slice { fuel: 2_000 }], ..FIRST }, IDLE,
    ], told: Second(2) },
    Tale { name: "56 lines", guest: ECHO, plans: &[
        Plan { requests: &[LETTER; 56], acts: &[PlannedAct::Slice { fuel: 2_000 }], ..FIRST }, IDLE,
    ], told: Second(3) },
    // No bytes spell no module: no life opens.
    Tale { name: "an unaccepted module", guest: &[], plans: &[FIRST, FIRST], told: Shut(2) },
];

#[test]
fn lives_are_told_as_they_were(rt: HostRuntime) -> Result<(), Halt> {
    for tale in &TALES {
        assert_row(&rt, is_told(rt.alloc(), tale)?, &tale.name);
    }
    Ok(())
}

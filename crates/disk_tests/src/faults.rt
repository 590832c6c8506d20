//! Faults are printed with their names.

use crate::rows::assert_row;
use disk_layout::{Damage, LayoutFault};
use journal::JournalFault;
use sector_disk::{DiskFault, OpenCause, OpenFault};
use snapshot::SnapshotFault;
use std::alloc::{AllocError, Global};
use std::fmt::Display;

/// A fault of one layer.
#[derive(Clone, Copy)]
enum Fault {
    Disk(DiskFault),
    Open(OpenFault),
    Layout(LayoutFault),
    Journal(JournalFault),
    Snapshot(SnapshotFault),
}

#[rattlefmt::skip]
static FAULTS: [(Fault, &str); 30] = [
    (Fault::Disk(DiskFault::Range), "K1 Range"),
    (Fault::Disk(DiskFault::Io), "K2 Io"),
    (Fault::Disk(DiskFault::Cut), "K3 Cut"),
    (Fault::Disk(DiskFault::Memory), "K4 Memory"),
    (Fault::Open(OpenFault::Busy), "K5 Busy"),
    (Fault::Open(OpenFault::Io(OpenCause::Missing)), "K2 Io"),
    (Fault::Layout(LayoutFault::NotAWorker), "Y1 NotAWorker"),
    (Fault::Layout(LayoutFault::Version), "Y2 Version"),
    (Fault::Layout(LayoutFault::TooSmall), "Y3 TooSmall"),
    (Fault::Layout(LayoutFault::Damaged(Damage::ModuleSectors)),
        "Y4 Damaged\n\
         super, sector 0: m, the sectors of configuration and module, isn't c + w rounded up"),
    (Fault::Layout(LayoutFault::Damaged(Damage::ContentsDigest)),
        "Y4 Damaged\nsuper, sector 0: the SHA-256 isn't that of configuration and module"),
    (Fault::Layout(LayoutFault::Damaged(Damage::Configuration)),
        "Y4 Damaged\nconfiguration, from sector 3 on: the first c bytes are no configuration"),
    (Fault::Layout(LayoutFault::Damaged(Damage::AreaSectors)),
        "Y4 Damaged\nsuper, sector 0: a, the sectors of an area, isn't as the configuration says"),
    (Fault::Layout(LayoutFault::Damaged(Damage::JournalSectors)),
        "Y4 Damaged\n\
         super, sector 0: j, the sectors of the journal, isn't as the configuration says"),
    (Fault::Layout(LayoutFault::Damaged(Damage::ShortJournal)),
        "Y4 Damaged\nsuper, sector 0: j is below 133, and the version in the newest head is 2"),
    (Fault::Layout(LayoutFault::Damaged(Damage::OtherMark(0))),
        "Y4 Damaged\narea 0: the image has the mark of another version than its head"),
    (Fault::Layout(LayoutFault::Damaged(Damage::OtherMark(1))),
        "Y4 Damaged\narea 1: the image has the mark of another version than its head"),
    (Fault::Layout(LayoutFault::Damaged(Damage::LaterGeneration)),
        "Y4 Damaged\njournal, first sector: the generation is above that of the newest head"),
    (Fault::Layout(LayoutFault::Memory), "Y5 Memory"),
    (Fault::Layout(LayoutFault::Disk(DiskFault::Cut)), "K3 Cut"),
    (Fault::Journal(JournalFault::Full), "J1 Full"),
    (Fault::Journal(JournalFault::TooLong), "J2 TooLong"),
    (Fault::Journal(JournalFault::Disk(DiskFault::Io)), "J3 Disk"),
    (Fault::Journal(JournalFault::Memory), "J4 Memory"),
    (Fault::Journal(JournalFault::Failed), "J5 Failed"),
    (Fault::Snapshot(SnapshotFault::TooBig), "S1 TooBig"),
    (Fault::Snapshot(SnapshotFault::Damaged), "S2 Damaged"),
    (Fault::Snapshot(SnapshotFault::Disk(DiskFault::Io)), "S3 Disk"),
    (Fault::Snapshot(SnapshotFault::Memory), "S4 Memory"),
    (Fault::Snapshot(SnapshotFault::Failed), "S5 Failed"),
];

fn prints<T: Display>(alloc: Global, value: &T, text: &str) -> Result<bool, AllocError> {
    let told = format!(in alloc; "{value}")?;
    let is_so = told.as_str() == text;
    drop(told);
    Ok(is_so)
}

fn is_printed_so(alloc: Global, fault: &Fault, text: &str) -> Result<bool, AllocError> {
    match fault {
        Fault::Disk(fault) => prints(alloc, fault, text),
        Fault::Open(fault) => prints(alloc, fault, text),
        Fault::Layout(fault) => prints(alloc, fault, text),
        Fault::Journal(fault) => prints(alloc, fault, text),
        Fault::Snapshot(fault) => prints(alloc, fault, text),
    }
}

/// `scripts/runs/refused-allocations` refuses each allocation in turn, and then this ends in that.
#[test]
fn are_printed_with_their_names(rt: HostRuntime) -> Result<(), AllocError> {
    for (fault, text) in &FAULTS {
        assert_row(&rt, is_printed_so(rt.alloc(), fault, text)?, text);
    }
    Ok(())
}

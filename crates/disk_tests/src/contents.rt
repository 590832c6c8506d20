//! Workers read back from disks, whole and damaged.

use crate::disks::damage;
use crate::layouts::{
    Numbers, PLACES, SECTORS, SPELLED, WASM, has_super, layout_fault, written_disk,
};
use crate::rows::assert_row;
use disk_layout::{Contents, Damage, LayoutFault, config_bytes_of, config_from, read_contents};
use sector_disk::{Disk, DiskFault, FaultDisk, FaultPoint};
use std::alloc::{AllocError, Global};
use wasi_abi::Config;
use wasm_syntax::ItemList;

/// Pages, units of files, and journal sectors. Then the only argument and the only variable, where
/// an empty one stands for none.
type Settings = (u32, u32, u32, &'static [u8], &'static [u8]);

const WORKER: Settings = (1, 1, 64, b"worker", b"");

fn is_text(texts: &ItemList<ItemList<u8>>, text: &[u8]) -> bool {
    match texts.get(0) {
        Some(first) => texts.len() == 1 && first.as_slice() == text,
        None => text.is_empty(),
    }
}

fn has_settings(config: &Config, settings: &Settings) -> bool {
    config.pages() == settings.0
        && config.files() == settings.1
        && config.journal() == settings.2
        && is_text(config.arguments(), settings.3)
        && is_text(config.environment(), settings.4)
}

fn is_spelled_again(alloc: Global, config: &Config, bytes: &[u8]) -> Result<bool, AllocError> {
    let again = config_bytes_of(alloc, config)?;
    let is_same = again.as_slice() == bytes;
    drop(again);
    Ok(is_same)
}

/// Whether the bytes spell these settings, which are spelled so again, or spell nothing.
fn is_spelling(alloc: Global, bytes: &[u8], want: &Option<Settings>) -> Result<bool, AllocError> {
    let Some(config) = config_from(alloc, bytes)? else {
        return Ok(want.is_none());
    };
    let is_so = match want {
        Some(settings) => has_settings(&config, settings),
        None => false,
    };
    let is_again = is_spelled_again(alloc, &config, bytes);
    drop(config);
    Ok(is_so && is_again?)
}

/// Two pages, one unit of files, a journal of 64 sectors, and the environment `K=v`.
const ENVIRONMENT: [u8; 25] = *b"\x02\0\0\0\x01\0\0\0\x40\0\0\0\0\0\0\0\x01\0\0\0\x03\0K=v";

/// Bytes of configurations. Then such with another number of pages, with a zero after them, and
/// with no name before the `=`.
#[rattlefmt::skip]
static SPELLINGS: [(&[u8], Option<Settings>); 6] = [
    (&ENVIRONMENT, Some((2, 1, 64, b"", b"K=v"))),
    (&SPELLED, Some(WORKER)),
    (b"\x01\0\0\0\x02\0\0\0\x40\0\0\0\x01\0\0\0\x01\0a\x01\0\0\0\x03\0K=v",
        Some((1, 2, 64, b"a", b"K=v"))),
    (b"\x02\x01\0\0\x01\0\0\0\x40\0\0\0\0\0\0\0\x01\0\0\0\x03\0K=v", None),
    (b"\x02\0\0\0\x01\0\0\0\x40\0\0\0\0\0\0\0\x01\0\0\0\x03\0K=v\0", None),
    (b"\x02\0\0\0\x01\0\0\0\x40\0\0\0\0\0\0\0\x01\0\0\0\x03\0=Kv", None),
];

/// No front of a configuration is one. `scripts/runs/refused-allocations` refuses each allocation
/// in turn, and then this ends out of memory.
#[test]
fn bytes_of_configurations(rt: HostRuntime) -> Result<(), AllocError> {
    for (bytes, want) in &SPELLINGS {
        assert_row(&rt, is_spelling(rt.alloc(), bytes, want)?, bytes);
    }
    for len in 0..25 {
        let is_none = is_spelling(rt.alloc(), &ENVIRONMENT[..len], &None)?;
        assert_row(&rt, is_none, &len);
    }
    Ok(())
}

/// What is another on the disk of a worker.
enum Change {
    /// Nothing, and the super has its bytes.
    Nothing,
    /// A byte of the configuration, under a digest that is right.
    Spelling(usize, u8),
    /// The numbers of the super, and the sectors of the disk.
    Numbers(Numbers),
    /// A bit of a byte of a sector.
    Bit(u64, usize),
    /// A call that fails.
    Call(u64),
}

const NOT_A_WORKER: Option<LayoutFault> = Some(LayoutFault::NotAWorker);

const TOO_SMALL: Option<LayoutFault> = Some(LayoutFault::TooSmall);

const FAILED_READ: Option<LayoutFault> = Some(LayoutFault::Disk(DiskFault::Io));

const OTHER_MODULE_SECTORS: Option<LayoutFault> = Some(LayoutFault::Damaged(Damage::ModuleSectors));

const OTHER_DIGEST: Option<LayoutFault> = Some(LayoutFault::Damaged(Damage::ContentsDigest));

const NO_CONFIGURATION: Option<LayoutFault> = Some(LayoutFault::Damaged(Damage::Configuration));

const OTHER_AREA_SECTORS: Option<LayoutFault> = Some(LayoutFault::Damaged(Damage::AreaSectors));

const OTHER_JOURNAL_SECTORS: Option<LayoutFault> = Some(LayoutFault::Damaged(
    Damage::JournalSectors,
));

/// What is another, and what is then wrong.
#[rattlefmt::skip]
static CHANGES: [(Change, Option<LayoutFault>); 35] = [
    // Bytes of no configuration.
    (Change::Spelling(0, 0), NO_CONFIGURATION),
    (Change::Spelling(2, 1), NO_CONFIGURATION),
    (Change::Spelling(4, 65), NO_CONFIGURATION),
    (Change::Spelling(8, 63), NO_CONFIGURATION),
    (Change::Spelling(12, 0), NO_CONFIGURATION),
    (Change::Spelling(12, 2), NO_CONFIGURATION),
    (Change::Spelling(12, 65), NO_CONFIGURATION),
    (Change::Spelling(16, 5), NO_CONFIGURATION),
    (Change::Spelling(16, 7), NO_CONFIGURATION),
    (Change::Spelling(18, 0), NO_CONFIGURATION),
    (Change::Spelling(24, 1), NO_CONFIGURATION),
    // Supers whose numbers aren't those of their configuration, and disks that are too small.
    (Change::Numbers((28, 1, 2304, 64, SECTORS + 1)), None),
    (Change::Numbers((28, 1, 2304, 64, SECTORS)), None),
    (Change::Numbers((28, 1, 2304, 64, SECTORS - 1)), TOO_SMALL),
    (Change::Numbers((28, 1, 2304, 64, 3)), TOO_SMALL),
    (Change::Numbers((28, 1, 2304, 64, 0)), NOT_A_WORKER),
    (Change::Numbers((28, 2, 2304, 64, SECTORS)), OTHER_MODULE_SECTORS),
    (Change::Numbers((28, 2, 2304, 64, 3)), OTHER_MODULE_SECTORS),
    (Change::Numbers((27, 1, 2304, 64, SECTORS)), OTHER_DIGEST),
    (Change::Numbers((28, 1, 2305, 64, SECTORS)), OTHER_AREA_SECTORS),
    (Change::Numbers((28, 1, 2303, 64, SECTORS - 2)), OTHER_AREA_SECTORS),
    (Change::Numbers((28, 1, 2304, 65, SECTORS)), OTHER_JOURNAL_SECTORS),
    // The first of two is told.
    (Change::Numbers((28, 1, 2305, 65, SECTORS)), OTHER_AREA_SECTORS),
    (Change::Numbers((27, 1, 2305, 64, SECTORS)), OTHER_DIGEST),
    // Damaged disks.
    (Change::Bit(0, 7), NOT_A_WORKER),
    (Change::Bit(0, 504), NOT_A_WORKER),
    (Change::Bit(0, 8), Some(LayoutFault::Version)),
    (Change::Bit(0, 63), OTHER_DIGEST),
    (Change::Bit(0, 64), None),
    (Change::Bit(3, 0), OTHER_DIGEST),
    (Change::Bit(3, 220), OTHER_DIGEST),
    (Change::Bit(3, 221), None),
    // A read that fails, of the super and of the sector after the heads. There is no third one.
    (Change::Call(1), FAILED_READ),
    (Change::Call(2), FAILED_READ),
    (Change::Call(3), None),
];

fn is_the_worker(contents: &Contents) -> bool {
    contents.geometry == PLACES
        && contents.wasm.as_slice() == WASM.as_slice()
        && has_settings(&contents.config, &WORKER)
}

/// Whether the worker is read back, or what is wrong with it. Want of memory is another matter.
fn is_told<D: Disk>(
    alloc: Global,
    disk: &mut D,
    want: &Option<LayoutFault>,
) -> Result<bool, LayoutFault> {
    match read_contents(alloc, disk) {
        Ok(contents) => {
            let is_the_worker = is_the_worker(&contents);
            drop(contents);
            Ok(is_the_worker && want.is_none())
        }
        Err(LayoutFault::Memory) => Err(LayoutFault::Memory),
        Err(fault) => Ok(Some(fault) == *want),
    }
}

/// The same of a disk that was written, and is changed now.
fn is_told_after<D: Disk>(
    alloc: Global,
    disk: &mut D,
    change: &Change,
    want: &Option<LayoutFault>,
) -> Result<bool, LayoutFault> {
    let is_written = match change {
        Change::Nothing => has_super(disk).map_err(layout_fault)?,
        Change::Bit(sector, at) => {
            damage(disk, *sector, *at).map_err(layout_fault)?;
            true
        }
        _ => true,
    };
    Ok(is_written && is_told(alloc, disk, want)?)
}

fn is_changed_so(
    alloc: Global,
    change: &Change,
    want: &Option<LayoutFault>,
) -> Result<bool, LayoutFault> {
    let mut spelled = SPELLED;
    let mut numbers = (28, 1, 2304, 64, SECTORS);
    let mut fail = None;
    match change {
        Change::Spelling(at, byte) if *at < 28 => spelled[*at] = *byte,
        Change::Numbers(others) => numbers = *others,
        Change::Call(call) => {
            fail = Some(FaultPoint {
                call: *call,
                front: 0,
            });
        }
        _ => {}
    }
    let disk = written_disk(alloc, &numbers, &spelled)?;
    let mut disk = FaultDisk::new(disk, None, fail);
    let is_told = is_told_after(alloc, &mut disk, change, want);
    drop(disk);
    is_told
}

/// `scripts/runs/refused-allocations` refuses each allocation in turn, and then this ends out of
/// memory.
#[test]
fn a_worker_is_read_back(rt: HostRuntime) -> Result<(), LayoutFault> {
    let is_so = is_changed_so(rt.alloc(), &Change::Nothing, &None)?;
    assert_row(&rt, is_so, &"no change");
    Ok(())
}

#[test]
fn what_is_another_on_a_disk_is_told(rt: HostRuntime) -> Result<(), LayoutFault> {
    for (place, row) in CHANGES.iter().enumerate() {
        assert_row(&rt, is_changed_so(rt.alloc(), &row.0, &row.1)?, &place);
    }
    Ok(())
}

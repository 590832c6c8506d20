//! Disks in files of the operating system. `scripts/runs/file-calls` looks at the system calls of
//! the tests here, and has some of them fail.

use crate::disks::{Answer, Call, DONE, ZEROS, answers_so};
use crate::rows::assert_row;
use sector_disk::{Disk, DiskFault, DiskFile, FileDisk, OpenCause, OpenFault};
use std::fs;
use std::fs::{OpenFile, OpenOptions};
use std::rt::Files;
use std::test::Fail;

/// What befalls the file of a new disk while it is open.
enum Meanwhile {
    /// It can't be made again with so many sectors, or opened again.
    Refused(Option<u64>, OpenFault),
    /// It is cut short to so many bytes.
    CutShort(u64),
}

/// A new disk, and what it is asked then. It is closed, opened again, and asked more.
struct Story {
    path: &'static str,
    sectors: u64,
    meanwhile: Meanwhile,
    calls: &'static [(Call, Answer)],
    sectors_again: u64,
    calls_again: &'static [(Call, Answer)],
}

static KEPT: Story = Story {
    path: "sector_disk_kept",
    sectors: 3,
    meanwhile: Meanwhile::Refused(Some(3), OpenFault::Io(OpenCause::Exists)),
    calls: &[
        (Call::Read(2, ZEROS), DONE),
        (Call::Write(2, 9), DONE),
        (Call::Write(0, 9), DONE),
        (Call::Write(3, 9), Err(DiskFault::Range)),
        (Call::Sync, DONE),
    ],
    sectors_again: 3,
    calls_again: &[
        (Call::Read(1, ZEROS), DONE),
        (Call::Read(2, (0, 512, 0)), DONE),
        (Call::Read(3, ZEROS), Err(DiskFault::Range)),
    ],
};

/// The sector that is cut fails to be read. That is not for good. Opened anew the disk has as many
/// sectors as are whole.
static SHORT: Story = Story {
    path: "sector_disk_short",
    sectors: 2,
    meanwhile: Meanwhile::CutShort(700),
    calls: &[
        (Call::Read(1, ZEROS), Err(DiskFault::Io)),
        (Call::Read(0, ZEROS), DONE),
    ],
    sectors_again: 1,
    calls_again: &[],
};

/// The file has a folder of its own. A second host doesn't harm it.
static BUSY: Story = Story {
    path: "sector_disk_folder/busy",
    sectors: 1,
    meanwhile: Meanwhile::Refused(None, OpenFault::Busy),
    calls: &[(Call::Read(0, ZEROS), DONE), (Call::Sync, DONE)],
    sectors_again: 1,
    calls_again: &[],
};

/// Why a disk of so many sectors isn't made there, or why none is opened.
fn fault_of<F, R>(files: &R, path: &str, sectors: Option<u64>) -> Option<OpenFault>
where
    F: DiskFile,
    R: Files<File = F>,
{
    match sectors {
        Some(sectors) => FileDisk::create(files, path, sectors).err(),
        None => FileDisk::open(files, path).err(),
    }
}

fn cut_short<F: OpenFile + Drop, R: Files<File = F>>(
    files: &R,
    path: &str,
    len: u64,
) -> Result<bool, Fail> {
    let file = OpenOptions::new().write(true).open(files, path)?;
    let cut = file.set_len(len);
    drop(file);
    cut?;
    Ok(true)
}

fn befalls<F, R>(files: &R, path: &str, meanwhile: &Meanwhile) -> Result<bool, Fail>
where
    F: DiskFile,
    R: Files<File = F>,
{
    match meanwhile {
        Meanwhile::Refused(sectors, fault) => {
            Ok(fault_of(files, path, *sectors) == Some(*fault))
        }
        Meanwhile::CutShort(len) => cut_short(files, path, *len),
    }
}

fn is_made_so<F: DiskFile, R: Files<File = F>>(files: &R, story: &Story) -> Result<bool, Fail> {
    let (mut disk, _) = FileDisk::create(files, story.path, story.sectors)?;
    let befalls = befalls(files, story.path, &story.meanwhile);
    let is_answered = answers_so(&mut disk, story.calls);
    drop(disk);
    Ok(befalls? && is_answered)
}

/// Whether the disk there has so many sectors, and answers so.
fn is_opened_so<F: DiskFile, R: Files<File = F>>(
    files: &R,
    path: &str,
    sectors: u64,
    calls: &[(Call, Answer)],
) -> Result<bool, OpenFault> {
    let mut disk: FileDisk<F> = FileDisk::open(files, path)?;
    let is_so = disk.sectors() == sectors && answers_so(&mut disk, calls);
    drop(disk);
    Ok(is_so)
}

fn is_told_so<F: DiskFile, R: Files<File = F>>(files: &R, story: &Story) -> Result<bool, Fail> {
    let _ = fs::remove_file(files, story.path);
    let is_made = is_made_so(files, story)?;
    let is_kept = is_opened_so(files, story.path, story.sectors_again, story.calls_again)?;
    fs::remove_file(files, story.path)?;
    Ok(is_made && is_kept)
}

#[test]
fn a_file_keeps_sectors(rt: HostRuntime) -> Result<(), Fail> {
    assert_row(&rt, is_told_so(&rt, &KEPT)?, &KEPT.path);
    Ok(())
}

#[test]
fn a_file_that_is_too_short_fails(rt: HostRuntime) -> Result<(), Fail> {
    assert_row(&rt, is_told_so(&rt, &SHORT)?, &SHORT.path);
    Ok(())
}

#[test]
fn a_file_is_for_one_host(rt: HostRuntime) -> Result<(), Fail> {
    let folder = "sector_disk_folder";
    let _ = fs::create_dir(&rt, folder);
    assert_row(&rt, is_told_so(&rt, &BUSY)?, &BUSY.path);
    fs::remove_dir(&rt, folder)?;
    Ok(())
}

static OUTSIDE: [(Call, Answer); 1] = [(Call::Read(0, ZEROS), Err(DiskFault::Range))];

#[test]
fn an_empty_file_has_no_sectors(rt: HostRuntime) -> Result<(), Fail> {
    let path = "sector_disk_empty";
    let _ = fs::remove_file(&rt, path);
    fs::write(&rt, path, "")?;
    assert_row(&rt, is_opened_so(&rt, path, 0, &OUTSIDE)?, &path);
    fs::remove_file(&rt, path)?;
    Ok(())
}

static WRITTEN: [(Call, Answer); 2] = [(Call::Write(1, 9), DONE), (Call::Sync, DONE)];

static FOUND: [(Call, Answer); 1] = [(Call::Read(1, (0, 512, 0)), DONE)];

static GIVEN_UP: [(Call, Answer); 4] = [
    (Call::Sync, Err(DiskFault::Io)),
    (Call::Read(0, ZEROS), Err(DiskFault::Io)),
    (Call::Write(0, 9), Err(DiskFault::Io)),
    (Call::Sync, Err(DiskFault::Io)),
];

/// Whether a sector is kept, or no later call is answered.
fn keeps_or_gives_up<D: Disk>(disk: &mut D) -> bool {
    if answers_so(disk, &WRITTEN) {
        answers_so(disk, &FOUND)
    } else {
        answers_so(disk, &GIVEN_UP)
    }
}

fn is_kept_or_given_up<F, R>(files: &R, path: &str) -> Result<bool, OpenFault>
where
    F: DiskFile,
    R: Files<File = F>,
{
    let (mut disk, _) = FileDisk::create(files, path, 2)?;
    let is_so = keeps_or_gives_up(&mut disk);
    drop(disk);
    Ok(is_so)
}

/// It passes, too, where a write or a sync fails.
#[test]
fn a_file_keeps_a_sector_or_is_given_up(rt: HostRuntime) -> Result<(), Fail> {
    let path = "sector_disk_given_up";
    let _ = fs::remove_file(&rt, path);
    assert_row(&rt, is_kept_or_given_up(&rt, path)?, &path);
    fs::remove_file(&rt, path)?;
    Ok(())
}

/// Paths that can't be opened, or where no disk of so many sectors can be made, and why.
static UNOPENED: [(&str, Option<u64>, OpenCause); 5] = [
    ("sector_disk_missing", None, OpenCause::Missing),
    (".", None, OpenCause::Folder),
    ("sector_disk_missing/file", None, OpenCause::Missing),
    ("sector_disk_missing/file", Some(1), OpenCause::Missing),
    ("sector_disk_large", Some(1 << 54), OpenCause::TooLarge),
];

#[test]
fn a_path_that_is_no_disk_says_why(rt: HostRuntime) {
    for (path, sectors, cause) in &UNOPENED {
        let fault = fault_of(&rt, path, *sectors);
        assert_row(&rt, fault == Some(OpenFault::Io(*cause)), path);
    }
}

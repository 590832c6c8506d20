//! A disk in a file of the operating system.
//!
//! # Choices
//!
//! - **The file isn't sparse**: `create` sets its length, and writes zeros to each sector. Else a
//!   device without room would say so at some later write, whose fault has no cause, and the disk
//!   would be given up. The largest disk has some 150,000 sectors. Where the file system copies
//!   what is written, or compresses zeros, a later write may find no room all the same.
//! - **`sync` is `fdatasync`**, since the length stays. `create` syncs all of the file and then its
//!   folder. No clause says so: `scripts/runs/file-calls` shows that.
//! - **The kit finishes what is cut short.** `write_all_at` and `read_exact_at` go on after a short
//!   call. These two, `sync_data` and `try_lock` call again after an interrupt. No clause says so:
//!   it is read in the kit's code, and seen by `scripts/runs/file-calls`.
//! - An empty file is a disk of no sectors.
ghost use Rattle.std.specs.Prelude.{◌≡◌, ◌<◌, ◌≤◌, ◌^◌, ◌*◌, ◌↔◌, [], IfErr, IfOk, IsErrOf};
ghost use Rattle.std.specs.Prelude.{IsTrue, OnOk};
ghost use Rattle.sector_disk.specs.declared.open_fault.OpenFault.TheVariants.{Io};
ghost use Rattle.sector_disk.specs.rules.DiskImage.{IsDiskImage};
ghost use Rattle.sector_disk.specs.declared.open_fault.OpenCause.TheVariants.{TooLarge};

use crate::file_call::{Failure, FileCall, NO_BYTES};
use crate::file_log::FileLog;
use crate::file_number::FileNumber;
use crate::filling::{fill_new_file, lock, take_device};
use crate::first_image::FirstImage;
use crate::{
    Disk, DiskFault, DiskFile, DiskFiles, NewFile, NewFiles, OpenCause, OpenFault, SECTOR_SIZE,
};
use std::fs::OpenFile;
use std::io;
use std::os::unix::fs::FileExt;

/// From so many sectors on a file is refused: its bytes would have numbers from 2^63 on.
const SECTORS_END: u64 = 1 << 54;

/// Sectors in a file, the first at its start. No call takes memory. It holds the file's lock until
/// it is dropped, unless it was opened by `look`.
///
/// Once a write or a sync has failed it is given up: every later call answers `Io`, and the file
/// isn't asked.
///
/// That the file is a disk of the model is a premise, and no flag says so. A contract speaks of
/// each image to which a disk of the model comes from the first one, if it gives the answers that
/// the file gave since it was opened. Where it gave others, there is no such image.
#[derive(Drop)]
pub struct FileDisk<F> {
    file: F,
    count: u64,
    /// What was on it as it was opened. Only clauses read it.
    first: FirstImage,
    past: FileLog,
    ghost small: { count < 2 ^ 55 },
    ghost whole: { IsDiskImage count first.image },
}

impl<F: DiskFile> FileDisk<F> {
    ghost use Rattle.sector_disk.specs.rules.DiskImage.{zeros};
    ghost use Rattle.sector_disk.specs.rules.File.{answers_of, file_medium, file_of, first_of};
    ghost use Rattle.sector_disk.specs.rules.Open.{IsMadeAt, IsOpenedAt, IsTakenAt, IsSeenAt};
    ghost use Rattle.sector_disk.specs.rules.Open.{IsUnfilled, IsUnseenAt, IsUnmade};
    ghost use Rattle.sector_disk.specs.rules.Open.{IsUnopenedAt, IsUntaken};

    /// Makes a file of so many sectors of zeros, locks it, and makes its entry in its folder
    /// durable. It fails where there is such a path already, and from 2^54 sectors on. All zeros
    /// are written, so that a device without room for them is found now, and not in a later write.
    /// In the end the path still leads to the file. After an error the file that it made is
    /// removed. Else it is there, to be kept or removed.
    pub fn create<'a, R: NewFiles<File = F>>(
        files: &R,
        path: &'a str,
        sectors: u64,
    ) -> Result<(FileDisk<F>, NewFile<'a>), OpenFault>
        requires { IsTrue ((R.known files.now).may_make path.now) }
        ensures made { IfOk result (λ new.
            IsMadeAt F.known (R.known files.now) path.entry.now sectors new.0) }
        ensures there { IfOk result (λ new. new.1.path.now ≡ path.entry.now) }
        ensures large { 2 ^ 54 ≤ sectors → IsErrOf result (Io TooLarge) }
        ensures unmade { IfErr result
            (IsUnmade F.known (R.known files.now) path.entry.now sectors) }
    {
        if sectors >= SECTORS_END {
            return Err(OpenFault::Io(OpenCause::TooLarge));
        }
        let (file, new) = files.make_new(path)?;
        let disk = FileDisk::zeroed(file, sectors);
        match disk.fill_at(files, &new) {
            Ok(()) => Ok((disk, new)),
            Err(fault) => {
                files.remove_new(new);
                Err(fault)
            }
        }
    }

    /// Fills its file, which is new, and looks whether the file is in its place then.
    fn fill_at<R: NewFiles<File = F>>(&self, files: &R, new: &NewFile<'_>) -> Result<(), OpenFault>
        requires { self.now.count < 2 ^ 54 }
        ensures resized { OnOk result (IsTrue (F.known.resized (file_of self.now)
            (self.now.count * SECTOR_SIZE))) }
        ensures locked { OnOk result (IsTrue (F.known.locked (file_of self.now))) }
        ensures in_place { OnOk result
            (IsTrue ((R.known files.now).in_place new.now.path.now self.now)) }
        ensures failed { IfErr result
            (IsUnfilled F.known (R.known files.now) new.now.path.now (file_of self.now)) }
    {
        fill_new_file(files, new, &self.file, self.count)?;
        files.look_again(new, self)
    }

    /// Takes so many sectors of a block device that is there, locks it, and writes zeros to them.
    /// It fails where the path is no block device, where the device has fewer sectors, and from
    /// 2^54 sectors on. What the device has after these sectors stays. It makes and removes no
    /// file.
    pub fn create_on_device<R: DiskFiles<File = F>>(
        files: &R,
        path: &str,
        sectors: u64,
    ) -> Result<FileDisk<F>, OpenFault>
        requires { IsTrue ((R.known files.now).may_write path.now) }
        ensures taken { IfOk result
            (IsTakenAt F.known (R.known files.now) path.now sectors) }
        ensures large { 2 ^ 54 ≤ sectors → IsErrOf result (Io TooLarge) }
        ensures untaken { IfErr result
            (IsUntaken F.known (R.known files.now) path.now sectors) }
    {
        if sectors >= SECTORS_END {
            return Err(OpenFault::Io(OpenCause::TooLarge));
        }
        let file = files.open_there(path)?;
        take_device(&file, sectors)?;
        Ok(FileDisk::zeroed(file, sectors))
    }

    /// Opens a file and locks it, before anything of it is read. Bytes past its last whole sector
    /// are left alone.
    pub fn open<R: DiskFiles<File = F>>(files: &R, path: &str) -> Result<FileDisk<F>, OpenFault>
        requires { IsTrue ((R.known files.now).may_write path.now) }
        ensures opened { IfOk result (IsOpenedAt F.known (R.known files.now) path.now) }
        ensures unopened { IfErr result (IsUnopenedAt F.known (R.known files.now) path.now) }
    {
        let file = files.open_there(path)?;
        lock(&file)?;
        let (bytes, first) = file.measure()?;
        Ok(FileDisk {
            file,
            count: bytes / SECTOR_SIZE as u64,
            first,
            past: FileLog::new(),
        })
    }

    /// Opens a file to read it and nothing else, and takes no lock: another host may have it, and
    /// write it at any time. `take_picture` tells what that is worth.
    pub fn look<R: DiskFiles<File = F>>(files: &R, path: &str) -> Result<FileDisk<F>, OpenFault>
        requires { IsTrue ((R.known files.now).may_read path.now) }
        ensures seen { IfOk result (IsSeenAt F.known (R.known files.now) path.now) }
        ensures unseen { IfErr result (IsUnseenAt F.known (R.known files.now) path.now) }
    {
        let file = files.open_to_read(path)?;
        let (bytes, first) = file.measure()?;
        Ok(FileDisk {
            file,
            count: bytes / SECTOR_SIZE as u64,
            first,
            past: FileLog::new(),
        })
    }

    /// The disk of so many sectors in a file that was filled with zeros.
    #[tactic(auto, using(crate::proofs::FirstImageLemmas::zeros_are))]
    fn zeroed(file: F, sectors: u64) -> FileDisk<F>
        requires { sectors < 2 ^ 54 }
        ensures same { file_of result ≡ file }
        ensures sectors { (file_medium result).sectors ≡ sectors }
        ensures first { first_of result ≡ zeros sectors }
        ensures untouched { answers_of result ≡ [] }
    {
        FileDisk {
            file,
            count: sectors,
            first: FirstImage::of(sectors),
            past: FileLog::new(),
        }
    }
}

impl<F: OpenFile> FileDisk<F> {
    /// The number of its file.
    pub(crate) fn file_number(&self) -> io::Result<FileNumber> {
        Ok(FileNumber::of(&self.file.metadata()?))
    }
}

impl<F: OpenFile + FileExt> Disk for FileDisk<F> {
    ghost use Rattle.sector_disk.specs.rules.Answered.{ReadLogged, WriteLogged, SyncLogged};
    ghost use Rattle.sector_disk.specs.rules.File.{file_medium, answers_of};
    ghost use Rattle.sector_disk.specs.rules.Medium.{Reads, Writes, SyncsMedium};

    ghost medium = { file_medium };

    fn sectors(&self) -> u64 {
        self.count
    }

    fn read(&mut self, sector: u64, into: &mut [u8; SECTOR_SIZE]) -> Result<(), DiskFault>
        ensures reads { Reads sector into.new result (file_medium self.old) (file_medium self.new) }
        ensures range { IsErrOf result DiskFault.Range ↔ ((file_medium self.old).sectors ≤ sector) }
        ensures logged { ReadLogged result sector into.new (answers_of self.old)
            (answers_of self.new) }
    {
        if sector >= self.count {
            return Err(DiskFault::Range);
        }
        if self.past.is_given_up() {
            self.past = self.past.and(FileCall::Failed(Failure::Refused), &NO_BYTES);
            return Err(DiskFault::Io);
        }
        match self.file.read_exact_at(into, sector * SECTOR_SIZE as u64) {
            Ok(()) => {
                self.past = self.past.and(FileCall::Read(sector), into);
                Ok(())
            }
            Err(_) => {
                self.past = self.past.and(FileCall::Failed(Failure::OfRead), &NO_BYTES);
                Err(DiskFault::Io)
            }
        }
    }

    fn write(&mut self, sector: u64, from: &[u8; SECTOR_SIZE]) -> Result<(), DiskFault>
        ensures writes { Writes sector from.now result (file_medium self.old)
            (file_medium self.new) }
        ensures range { IsErrOf result DiskFault.Range ↔ ((file_medium self.old).sectors ≤ sector) }
        ensures logged { WriteLogged result sector from.now (answers_of self.old)
            (answers_of self.new) }
    {
        if sector >= self.count {
            return Err(DiskFault::Range);
        }
        if self.past.is_given_up() {
            self.past = self.past.and(FileCall::Failed(Failure::Refused), &NO_BYTES);
            return Err(DiskFault::Io);
        }
        match self.file.write_all_at(from, sector * SECTOR_SIZE as u64) {
            Ok(()) => {
                self.past = self.past.and(FileCall::Wrote(sector), from);
                Ok(())
            }
            Err(_) => {
                self.past = self.past.and(FileCall::Tore(sector), from);
                Err(DiskFault::Io)
            }
        }
    }

    fn sync(&mut self) -> Result<(), DiskFault>
        ensures syncs { SyncsMedium result (file_medium self.old) (file_medium self.new) }
        ensures logged { SyncLogged result (answers_of self.old) (answers_of self.new) }
    {
        if self.past.is_given_up() {
            self.past = self.past.and(FileCall::Failed(Failure::Refused), &NO_BYTES);
            return Err(DiskFault::Io);
        }
        match self.file.sync_data() {
            Ok(()) => {
                self.past = self.past.and(FileCall::Synced, &NO_BYTES);
                Ok(())
            }
            Err(_) => {
                self.past = self.past.and(FileCall::Failed(Failure::OfSync), &NO_BYTES);
                Err(DiskFault::Io)
            }
        }
    }
}

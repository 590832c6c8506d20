//! A file of `--status` or of `--metrics`: a small one that says where a worker on a disk is.
//!
//! # Promises
//!
//! - `status_file_of`: there is a status file only where both of its paths were found free. Else it
//!   is said which one isn't, and why (`SaysUnwatched`). A path is free exactly where it is
//!   missing, or a regular file that is empty, has one status line or begins as metrics do
//!   (`FoundFile::is_free`). By `WatchedPaths` no other file is removed than one found to be such,
//!   or made by this run, and only a path that was found free gets a new file. Where a text isn't
//!   put there, the new file was removed again, or none was made (`left` of `StatusFile::put`).

ghost use Rattle.std.specs.Prelude.{◌≡◌, ◌↔◌, ◌⊎◌, ◌++◌, IfErr, IfOk, IfSome, IsSome, IsTrue};
ghost use Rattle.std.specs.Prelude.{OnOk, codes, string_bytes};
ghost use Rattle.std.specs.Io.KnownBytes.{Appends};
ghost use Rattle.sector_disk.specs.declared.open_fault.OpenFault.TheVariants.{Io};
ghost use Rattle.sector_disk.specs.rules.Causes.{error_cause};
ghost use Rattle.command_words.specs.rules.Reports.{SaysLine};
ghost use Rattle.command_words.specs.declared.status.Status.TheVariants as exit;
ghost use Rattle.disk_commands.specs.rules.StatusFiles.{HasFoundFree, IsFreePath, IsWatchable};
ghost use Rattle.disk_commands.specs.rules.StatusFiles.{MayWatch, SaysTaken, SaysUnwatched};
ghost use Rattle.disk_commands.specs.rules.StatusFiles.{beside, found_words, path_named};

use crate::on_disk::found_file::FoundFile;
use crate::on_disk::opening::report_unread;
use crate::on_disk::watched_paths::WatchedPaths;
use command_words::{Printer, Status};
use std::alloc::Global;
use std::io::{self, Error, ErrorKind, Write};

/// Says what is at a path, which a status file can't have, and answers the exit status.
fn say_taken<E: Write + Drop>(err: &mut Printer<E>, path: &str, here: &FoundFile) -> Status
    ensures { SaysLine (codes "failed K2 Io\n" ++ path.now ++ codes ": "
        ++ found_words here.now) exit.IoError err.old result err.new }
{
    let words = here.words();
    match writeln!(err, "failed K2 Io\n{path}: {words}") {
        Ok(()) => Status::IoError,
        Err(_) => Status::Unwritten,
    }
}

/// Looks at a path that a status file is to get. Where it can't have it, that is said, and the
/// error is the exit status.
fn look_at_free<R: WatchedPaths, E: Write + Drop>(
    alloc: Global,
    files: &R,
    path: &str,
    err: &mut Printer<E>,
) -> Result<FoundFile, Status>
    requires { IsTrue ((R.known files.now).may_read path.now) }
    ensures found { IfOk result (λ here. IsTrue (R.has_found files.now path.now here)) }
    ensures free { IfOk result IsFreePath }
    ensures quiet { OnOk result (err.new ≡ err.old) }
    ensures said { IfErr result (λ status.
        SaysTaken (R.has_found files.now path.now) path.now err.old status err.new) }
{
    let here = match files.look_at(alloc, path) {
        Ok(here) => here,
        Err(error) => return Err(report_unread(err, path, error)),
    };
    if !here.is_free() {
        return Err(say_taken(err, path, &here));
    }
    Ok(here)
}

/// Makes a new file at a path that was found free, and removes it again. A status file that is
/// there is removed first.
fn try_new<R: WatchedPaths>(files: &R, path: &str, here: &FoundFile) -> io::Result<()>
    requires found { IsTrue (R.has_found files.now path.now here.now) }
    requires may { IsTrue ((R.known files.now).may_make path.now) }
    ensures { OnOk result (IsTrue ((R.known files.now).removed path.now)) }
{
    if here.is_status_file() {
        files.remove_status_file(path)?;
    }
    let (file, new) = files.make_new(path)?;
    drop(file);
    files.remove_new(new);
    Ok(())
}

/// Makes sure that a new file can be made at a path, where a status file is removed. Else it is
/// said why not, and the error is the exit status.
fn clear_beside<R: WatchedPaths, E: Write + Drop>(
    alloc: Global,
    files: &R,
    path: &str,
    err: &mut Printer<E>,
) -> Result<(), Status>
    requires reads { IsTrue ((R.known files.now).may_read path.now) }
    requires makes { IsTrue ((R.known files.now).may_make path.now) }
    ensures free { OnOk result (HasFoundFree (R.has_found files.now path.now)
        × IsTrue ((R.known files.now).removed path.now)) }
    ensures quiet { OnOk result (err.new ≡ err.old) }
    ensures said { IfErr result (λ status.
        SaysTaken (R.has_found files.now path.now) path.now err.old status err.new) }
{
    let here = match look_at_free(alloc, files, path, err) {
        Ok(here) => here,
        Err(status) => return Err(status),
    };
    match try_new(files, path, &here) {
        Ok(()) => Ok(()),
        Err(error) => Err(report_unread(err, path, error)),
    }
}

/// Makes sure that both paths of a status file are free, and that a new file can be made at the one
/// beside. Else it is said why not, and the error is the exit status.
fn clear_paths<R: WatchedPaths, E: Write + Drop>(
    alloc: Global,
    files: &R,
    path: &str,
    new: &str,
    err: &mut Printer<E>,
) -> Result<(), Status>
    requires beside { new.now ≡ beside path.now }
    requires may { MayWatch (R.known files.now) path.now }
    ensures free { OnOk result (IsWatchable (R.has_found files.now) (R.known files.now).removed
        path.now) }
    ensures quiet { OnOk result (err.new ≡ err.old) }
    ensures said { IfErr result (λ status.
        SaysUnwatched (R.has_found files.now) path.now err.old status err.new) }
{
    let seen = match look_at_free(alloc, files, path, err) {
        Ok(seen) => seen,
        Err(status) => return Err(status),
    };
    drop(seen);
    clear_beside(alloc, files, new, err)
}

/// Writes bytes by one write, so that a program that is killed leaves all of them or none.
fn write_at_once<W: Write>(out: &mut W, bytes: &[u8]) -> io::Result<()>
    ensures { OnOk result (Appends (W.contents out.old) (W.contents out.new) bytes.now) }
{
    if out.write(bytes)? == bytes.len() {
        Ok(())
    } else {
        Err(Error::from(ErrorKind::WriteZero))
    }
}

/// A file that says where a worker is. Each text is written beside its path, and then gets the
/// path, so that whoever reads it finds a whole text. A worker runs on though that fails.
#[derive(Drop)]
pub struct StatusFile<'a, R: WatchedPaths> {
    alloc: Global,
    files: &'a R,
    path: &'a str,
    beside: String,
    ghost may: { IsTrue ((R.known files.now).may_make (string_bytes beside)) },
    ghost reads: { IsTrue ((R.known files.now).may_read path.now) },
    ghost makes: { IsTrue ((R.known files.now).may_make path.now) },
}

impl<R: WatchedPaths> StatusFile<'_, R> {
    /// Writes a text to a new file, and gives that the path, which was found free. Where one of
    /// these fails, the new file is removed.
    fn put(&self, text: &[u8]) -> io::Result<()>
        requires { HasFoundFree (R.has_found self.now.files.now self.now.path.now) }
        ensures put { OnOk result (IsTrue (R.has_renamed self.now.files.now
            (string_bytes self.now.beside) self.now.path.now)) }
        ensures left { IfErr result (λ error.
            IsTrue ((R.known self.now.files.now).refused (string_bytes self.now.beside)
            (Io (error_cause error)))
            ⊎ IsTrue ((R.known self.now.files.now).removed (string_bytes self.now.beside))) }
    {
        let (mut file, new) = self.files.make_new(self.beside.as_str())?;
        let written = write_at_once(&mut file, text);
        drop(file);
        let put = match written {
            Ok(()) => self.files.rename_new(&new, self.path),
            Err(error) => Err(error),
        };
        if put.is_err() {
            self.files.remove_new(new);
        }
        put
    }

    /// Gives the path a text, unless it has got a file of another kind since.
    pub(super) fn replace(&self, text: &[u8]) -> io::Result<()> {
        let here = self.files.look_at(self.alloc, self.path)?;
        if !here.is_free() {
            return Ok(());
        }
        self.put(text)
    }
}

/// The status file of a path, once there is something to tell. Its path must be free: nothing is
/// there, or a status file is. So must be the path beside it, with `.new` at its end, where each
/// text is written first. A status file that is left there is removed, and it is tried that a new
/// one can be made. Where that fails, it is said, and the error is the exit status.
pub fn status_file_of<'a, R: WatchedPaths, E: Write + Drop>(
    alloc: Global,
    files: &'a R,
    path: Option<&'a str>,
    err: &mut Printer<E>,
) -> Result<Option<StatusFile<'a, R>>, Status>
    requires { IfSome (path_named path) (MayWatch (R.known files.now)) }
    ensures named { IfOk result (λ file. IsSome file ↔ IsSome path.entry) }
    ensures free { IfSome path.entry (λ text. OnOk result (IsWatchable
        (R.has_found files.entry.now) (R.known files.entry.now).removed text.now)) }
    ensures quiet { OnOk result (err.new ≡ err.old) }
    ensures said { IfErr result (λ status. IfSome path.entry (λ text.
        SaysUnwatched (R.has_found files.entry.now) text.now err.old status err.new)) }
    ensures asked { IfErr result (λ _. IsSome path.entry) }
{
    let Some(path) = path else {
        return Ok(None);
    };
    let beside = match format!(in alloc; "{path}.new") {
        Ok(beside) => beside,
        Err(_) => return Err(report_unread(err, path, Error::from(ErrorKind::OutOfMemory))),
    };
    match clear_paths(alloc, files, path, beside.as_str(), err) {
        Ok(()) => Ok(Some(StatusFile {
            alloc,
            files,
            path,
            beside,
        })),
        Err(status) => Err(status),
    }
}

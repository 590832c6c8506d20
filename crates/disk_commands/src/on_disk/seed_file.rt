//! The seed of a run: digits among its words, or a file with them.

ghost use Rattle.std.specs.Prelude.{◌≡◌, ℕ, List, IfErr, IfOk, IfSome, IsNone, IsTrue, OnOk, Some};
ghost use Rattle.std.specs.Prelude.{option_map};
ghost use Rattle.command_words.specs.rules.Commands.{run_said};
ghost use Rattle.command_words.specs.rules.Reports.{SaysLine, obstacle_words};
ghost use Rattle.command_words.specs.declared.status.Status.TheVariants as exit;
ghost use Rattle.disk_commands.specs.rules.SeedFiles.{IsNoSeed, IsSeedFrom, IsSeedIn, IsSeedOf};
ghost use Rattle.disk_commands.specs.rules.SeedFiles.{LackSeed, SaysSeedless, SaysSeedlessFile};
ghost use Rattle.disk_commands.specs.rules.SeedFiles.{seedless_words};

use crate::on_disk::opening::report_unread;
use crate::on_disk::status_line::before_newline;
use command_words::{Obstacle, Printer, RunOrder, Status, read_seed, report};
use sector_disk::DiskFiles;
use std::alloc::Global;
use std::fs::{File, OpenFile};
use std::io::{self, Read, Write};
use std::rt::Files;

/// As many bytes as a file with a seed may have, and one more, by which a longer file is known.
const FRONT_BYTES: u64 = 66;

/// The seed that the words give, or zeros, which anyone can foresee.
fn seed_of(digits: Option<&str>) -> Option<[u8; 32]>
    ensures spelled { IfSome result (IsSeedOf (option_map (λ text. text.now) digits.entry)) }
    ensures none { IsNone result → IsNoSeed (option_map (λ text. text.now) digits.entry) }
{
    match digits {
        Some(digits) => read_seed(digits),
        None => Some([0; 32]),
    }
}

/// The seed that a text spells.
fn seed_of_text(text: &[u8]) -> Option<[u8; 32]>
    ensures spelled { IfSome result (IsSeedOf (Some text.now)) }
    ensures none { IsNone result → IsNoSeed (Some text.now) }
{
    match std::str::from_utf8(text) {
        Ok(digits) => read_seed(digits),
        Err(_) => None,
    }
}

/// The seed that the bytes of a file are: its digits, and a newline or none.
fn seed_in(bytes: &[u8]) -> Option<[u8; 32]>
    ensures spelled { IfSome result (IsSeedIn bytes.now) }
    ensures none { IsNone result → LackSeed bytes.now }
{
    match before_newline(bytes) {
        Some(digits) => seed_of_text(digits),
        None => seed_of_text(bytes),
    }
}

/// Files of which one may have a seed.
pub trait SeedFiles: DiskFiles {
    ghost use Rattle.std.specs.Prelude.{IsTrue, IfErr, IfOk};
    ghost use Rattle.std.specs.IoError.{error_kind};
    ghost use Rattle.disk_commands.specs.rules.SeedFiles.{KnownSeedFiles};

    ghost seeds: { Self → KnownSeedFiles };

    /// The first bytes of the file at a path: as many as one with a seed may have, and one more.
    fn read_front(&self, alloc: Global, path: &str) -> io::Result<Vec<u8>>
        requires { IsTrue ((Self.known self.now).may_read path.now) }
        ensures read { IfOk result (λ front. IsTrue ((seeds self.now).front path.now front.items)) }
        ensures unread { IfErr result (λ error.
            IsTrue ((seeds self.now).unread path.now (error_kind error))) };
}

// Of the system's files no more is known than what it answers.
impl<F: OpenFile + Read + Write + Drop, R: Files<File = F>> SeedFiles for R {
    ghost use Rattle.disk_commands.specs.rules.SeedFiles.{all_said_of_seed_files};

    ghost seeds = { λ _. all_said_of_seed_files };

    fn read_front(&self, alloc: Global, path: &str) -> io::Result<Vec<u8>> {
        let mut front = Vec::new(alloc);
        File::open(self, path)?
            .take(FRONT_BYTES)
            .read_to_end(&mut front)?;
        Ok(front)
    }
}

/// Says that a file has no seed, and answers the exit status.
fn say_seedless<E: Write + Drop>(err: &mut Printer<E>, path: &str) -> Status
    ensures { SaysLine (seedless_words path.now) exit.Refused err.old result err.new }
{
    match writeln!(err, "failed C2 Text\n{path}: isn't 64 hexadecimal digits") {
        Ok(()) => Status::Refused,
        Err(_) => Status::Unwritten,
    }
}

/// The seed in a file. Where there is none, that is said, and the error is the exit status.
fn seed_of_file<R: SeedFiles, E: Write + Drop>(
    alloc: Global,
    files: &R,
    path: &str,
    err: &mut Printer<E>,
) -> Result<[u8; 32], Status>
    requires { IsTrue ((R.known files.now).may_read path.now) }
    ensures spelled { IfOk result (λ seed. (bytes : List ℕ)
        × IsTrue ((R.seeds files.now).front path.now bytes) × IsSeedIn bytes seed) }
    ensures quiet { OnOk result (err.new ≡ err.old) }
    ensures said { IfErr result (λ status.
        SaysSeedlessFile (R.seeds files.now) path.now err.old status err.new) }
{
    let front = match files.read_front(alloc, path) {
        Ok(front) => front,
        Err(error) => return Err(report_unread(err, path, error)),
    };
    match seed_in(front.as_slice()) {
        Some(seed) => Ok(seed),
        None => Err(say_seedless(err, path)),
    }
}

/// The seed of digits, or zeros. Where there is none, that is said, and the error is the exit
/// status.
fn seed_of_words<E: Write + Drop>(
    digits: Option<&str>,
    err: &mut Printer<E>,
) -> Result<[u8; 32], Status>
    ensures spelled { IfOk result (IsSeedOf (option_map (λ text. text.now) digits.entry)) }
    ensures quiet { OnOk result (err.new ≡ err.old) }
    ensures said { IfErr result (λ status. IsNoSeed (option_map (λ text. text.now) digits.entry)
        × SaysLine (obstacle_words Obstacle.NoSeed) exit.Usage err.old status err.new) }
{
    match seed_of(digits) {
        Some(seed) => Ok(seed),
        None => Err(report(err, Obstacle::NoSeed)),
    }
}

/// The seed of a run, as its words say. Where there is none, that is said, and the error is the
/// exit status.
pub(super) fn seed_for<R: SeedFiles, E: Write + Drop>(
    alloc: Global,
    files: &R,
    order: &RunOrder<'_>,
    err: &mut Printer<E>,
) -> Result<[u8; 32], Status>
    requires { IfSome (run_said order.now).seed_file
        (λ path. IsTrue ((R.known files.now).may_read path)) }
    ensures spelled { IfOk result (IsSeedFrom (R.seeds files.now)
        (run_said order.now).seed_file (run_said order.now).seed) }
    ensures quiet { OnOk result (err.new ≡ err.old) }
    ensures said { IfErr result (λ status. SaysSeedless (R.seeds files.now)
        (run_said order.now).seed_file (run_said order.now).seed err.old status err.new) }
{
    let Some(path) = order.seed_file else {
        return seed_of_words(order.seed, err);
    };
    if order.seed.is_some() {
        return Err(report(err, Obstacle::TwoSeeds));
    }
    seed_of_file(alloc, files, path, err)
}

//! `wasmhost show`.
//!
//! # Promises
//!
//! - `survey`: the survey of a worker's disk is printed, or what keeps it from that is told
//!   (`shows`). Of a disk that stands for a worker the line is that worker's (`stands`). Nothing is
//!   changed on the disk, but that it is synced.
//!
//! # Choices
//!
//! - **`show` counts records, and plays none.** A disk whose records don't fit is shown, too,
//!   though `run` refuses it as `Q1 Diverged`.

ghost use Rattle.std.specs.Prelude.{◌≡◌, true, OnErr, OnOk};
ghost use Rattle.sector_disk.specs.rules.DiskImage.{DiskImage};
ghost use Rattle.worker.specs.rules.Surveys.{EachSurvey};
ghost use Rattle.command_words.specs.rules.Printers.{IsPrinted, printers};
ghost use Rattle.command_words.specs.rules.Texts.{named_number};
ghost use Rattle.disk_commands.specs.rules.Showings.{survey_line};
ghost use Rattle.disk_commands.specs.rules.Showings.{ShowsDisk, ShowsSurvey, SaysSurvey};

use crate::on_disk::fault::{OnDiskFault, say_disk_fault};
use command_words::{Printer, Status};
use sector_disk::Disk;
use std::alloc::Global;
use std::io::{self, Write};
use worker::{Survey, read_survey};

/// Writes a name, and a number.
pub(super) fn print_number<W: Write + Drop>(
    out: &mut Printer<W>,
    name: &str,
    number: u64,
) -> io::Result<()>
    ensures printed { OnOk result (IsPrinted out.old out.new (named_number name.now number)) }
    ensures failed { OnErr result (out.new.failed ≡ true) }
{
    write!(out, "{name}{number}")
}

/// Writes the line of a survey.
fn spell_survey<W: Write + Drop>(out: &mut Printer<W>, survey: &Survey) -> io::Result<()>
    ensures printed { OnOk result (IsPrinted out.old out.new (survey_line survey.now)) }
    ensures failed { OnErr result (out.new.failed ≡ true) }
{
    print_number(out, "generation ", survey.generation)?;
    print_number(out, " steps ", survey.steps)?;
    print_number(out, " answers ", survey.answers)?;
    print_number(out, " lines ", survey.lines)?;
    print_number(out, " records ", survey.records)?;
    print_number(out, " version ", u64::from(survey.version.number()))?;
    out.write_all(b"\n")
}

/// The same, and flushes the writer.
fn print_survey<W: Write + Drop>(out: &mut Printer<W>, survey: &Survey) -> io::Result<()>
    ensures printed { OnOk result (IsPrinted out.old out.new (survey_line survey.now)) }
    ensures failed { OnErr result (out.new.failed ≡ true) }
{
    spell_survey(out, survey)?;
    out.flush()
}

/// Prints a survey, and answers the exit status.
fn say_survey<W: Write + Drop>(out: &mut Printer<W>, survey: &Survey) -> Status
    ensures { SaysSurvey survey.now out.old result out.new }
{
    match print_survey(out, survey) {
        Ok(()) => Status::Done,
        Err(_) => Status::Unwritten,
    }
}

/// Prints what is on a worker's disk: the numbers of the process that was saved last, how many
/// records lie after it, and its version. Nothing is changed on the disk, but that it is synced.
/// Answers the exit status: `Done` where the line is printed, `Refused` for a disk that is refused,
/// `IoError` where it fails, `OutOfMemory`, `Unwritten` where a write of a printer has failed.
pub fn survey<D: Disk, W: Write + Drop, E: Write + Drop>(
    alloc: Global,
    disk: &mut D,
    out: &mut Printer<W>,
    err: &mut Printer<E>,
) -> Status
    // The survey of the disk is printed, or why there is none.
    ensures shows { ShowsDisk (D.medium disk.old) (D.medium disk.new) (printers out.old err.old)
        (printers out.new err.new) result }

    // Of whatever worker the disk stands for, that is the line of its survey.
    ensures stands { (image : DiskImage) → (D.medium disk.new).shows image
        → EachSurvey (D.medium disk.old).sectors image (ShowsSurvey (D.medium disk.old)
        (D.medium disk.new) out.old out.new err.new result) }
{
    match read_survey(alloc, disk) {
        Ok(survey) => say_survey(out, &survey),
        Err(fault) => say_disk_fault(err, OnDiskFault::from(fault)),
    }
}

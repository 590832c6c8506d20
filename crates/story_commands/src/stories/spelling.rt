//! The text of a story.

ghost use Rattle.std.specs.Prelude.{◌≡◌, ◌++◌, OnOk, codes};
ghost use Rattle.std.specs.Io.KnownBytes.{Appends};
ghost use Rattle.command_words.specs.rules.Texts.{named_number};
ghost use Rattle.story_commands.specs.rules.Stories.{process_image_text, life_text, opening_line};
ghost use Rattle.story_commands.specs.rules.Stories.{releases_text, story_text, error_name};
ghost use Rattle.story_commands.specs.rules.Stories.{end_line};

use command_words::{digest_digits, spell_line};
use record_replay::{NumberedLine, Refusal, SliceFault};
use std::io::{self, Write};
use worker::story::{LifeEnd, LifeReport, Opening};
use worker::{RecoverFault, UpgradeFault, WorkFault};

/// Spells a name and a number.
fn spell_number<W: Write>(out: &mut W, name: &str, number: u64) -> io::Result<()>
    ensures { OnOk result (Appends (W.contents out.old) (W.contents out.new)
        (named_number name.now number)) }
{
    write!(out, "{name}{number}")
}

/// Spells the digest of an image, and ends the line.
fn spell_process_image<W: Write>(out: &mut W, process_image: &[u8]) -> io::Result<()>
    ensures { OnOk result (Appends (W.contents out.old) (W.contents out.new)
        (process_image_text process_image.now)) }
{
    let digits = digest_digits(process_image);
    out.write_all(b" image ")?;
    out.write_all(&digits)?;
    out.write_all(b"\n")
}

/// Spells how a life was opened.
fn spell_opening<W: Write>(out: &mut W, number: u64, opened: &Opening) -> io::Result<()>
    ensures { OnOk result (Appends (W.contents out.old) (W.contents out.new)
        (opening_line number opened.now)) }
{
    spell_number(out, "life ", number)?;
    match opened {
        Opening::Created { .. } => out.write_all(b" created\n"),
        Opening::Recovered {
            generation,
            steps,
            answers,
            lines,
            process_image,
        } => {
            spell_number(out, " recovered generation ", *generation)?;
            spell_number(out, " steps ", *steps)?;
            spell_number(out, " answers ", *answers)?;
            spell_number(out, " lines ", *lines)?;
            spell_process_image(out, process_image.as_slice())
        }
        Opening::Unopened => out.write_all(b" not opened\n"),
    }
}

/// Spells released lines.
fn spell_releases<W: Write>(out: &mut W, lines: &[NumberedLine]) -> io::Result<()>
    ensures { OnOk result (Appends (W.contents out.old) (W.contents out.new)
        (releases_text lines.now)) }
{
    for line in lines {
        spell_line(out, line.number, line.stream, line.text.as_slice())?;
    }
    Ok(())
}

/// The code and the name of an error by which a life ends that was opened.
fn error_name(why: RecoverFault) -> &'static str
    ensures { result.now ≡ error_name why }
{
    let RecoverFault::Worker(fault) = why else {
        return "N6 Refused";
    };
    match fault {
        WorkFault::Disk(_) => "N1 Disk",
        WorkFault::Work(SliceFault::Source) => "N2 Source",
        WorkFault::Work(SliceFault::Outlet) => "N3 Outlet",
        WorkFault::Work(SliceFault::Memory) => "N4 Memory",
        WorkFault::Work(SliceFault::Failed) => "N5 Failed",
        WorkFault::Work(SliceFault::Refused(Refusal::StepsSpent)) => "P3 StepsSpent",
        WorkFault::Store(_) => "S1 TooBig",
        WorkFault::Upgrade(UpgradeFault::JournalTooSmall) => "N7 JournalTooSmall",
        WorkFault::Upgrade(UpgradeFault::NotCaughtUp) => "N8 NotCaughtUp",
        _ => "N6 Refused",
    }
}

/// Spells an error by which a life ended.
pub(crate) fn spell_error<W: Write>(out: &mut W, number: u64, why: RecoverFault) -> io::Result<()>
    ensures { OnOk result (Appends (W.contents out.old) (W.contents out.new)
        (named_number (codes "life ") number ++ codes " ended " ++ error_name why
        ++ codes "\n")) }
{
    spell_number(out, "life ", number)?;
    out.write_all(b" ended ")?;
    out.write_all(error_name(why).as_bytes())?;
    out.write_all(b"\n")
}

/// Spells by which error a life ended that was opened, if by one.
fn spell_end<W: Write>(out: &mut W, number: u64, report: &LifeReport) -> io::Result<()>
    ensures { OnOk result (Appends (W.contents out.old) (W.contents out.new)
        (end_line number report.now.opened report.now.ended)) }
{
    if let Opening::Unopened = &report.opened {
        return Ok(());
    }
    match report.ended {
        LifeEnd::Failed(why) => spell_error(out, number, why),
        LifeEnd::Finished | LifeEnd::Stopped => Ok(()),
    }
}

/// Spells how a life was opened, its lines, and the error by which it ended.
fn spell_life<W: Write>(out: &mut W, number: u64, report: &LifeReport) -> io::Result<()>
    ensures { OnOk result (Appends (W.contents out.old) (W.contents out.new)
        (life_text number report.now)) }
{
    spell_opening(out, number, &report.opened)?;
    spell_releases(out, report.releases.lines())?;
    spell_end(out, number, report)
}

/// Spells lives, with their numbers from 1 on.
pub(crate) fn spell_lives<W: Write>(out: &mut W, reports: &[LifeReport]) -> io::Result<()>
    ensures { OnOk result (Appends (W.contents out.old) (W.contents out.new)
        (story_text 1 reports.now)) }
{
    let mut number = 0;
    for report in reports {
        number += 1;
        spell_life(out, number, report)?;
    }
    Ok(())
}

//! The command, from a script to an exit status.

ghost use Rattle.std.specs.Prelude.{◌≡◌, ◌<◌, ℕ, IfOk, List, length};
ghost use Rattle.command_words.specs.rules.Pieces.{lines_of};
ghost use Rattle.command_words.specs.declared.status.Status.TheVariants as exit;
ghost use Rattle.command_words.specs.rules.Printers.{SaysText, printers};
ghost use Rattle.story_commands.specs.Said.{SaysDifference, SaysPlan, SaysSwept};
ghost use Rattle.story_commands.specs.rules.Sweeps.{AreSweptLives};
ghost use Rattle.story_commands.specs.rules.SweepTexts.{TellsSweep, answers_left_line, plan_line};
ghost use Rattle.story_commands.specs.rules.SweepTexts.{swept_line};
ghost use Rattle.story_commands.specs.laws.SweepEnds.{SaysEnd};

use crate::stories::spell_error;
use crate::sweeping::fault::SweepFault;
use crate::sweeping::reading::{SweptLives, read_sweep, report_sweep_script};
use crate::sweeping::spelling::{spell_script, spell_swept};
use crate::sweeping::whole_sweep::{SweepJob, Swept, sweep_lives};
use command_words::{
    Obstacle, Printer, Sizes, Status, prepare, report, report_unprepared, say_line, say_text,
};
use std::alloc::Global;
use std::io::{self, Write};
use worker::RecoverFault;
use worker::story::PlannedLife;

/// What a sweep is asked for, beside its files.
#[derive(Clone, Copy)]
pub struct SweepChoice<'a> {
    pub sizes: Sizes,
    /// What a cut leaves of a write, in bytes.
    pub fronts: &'a [u16],
    /// The number of the life that is swept, from 1 on, or the last one.
    pub life: Option<u64>,
}

/// The line that says how many cuts agree.
fn swept_text(alloc: Global, swept: Swept) -> io::Result<Vec<u8>>
    ensures { IfOk result (λ text. text.items ≡ swept_line swept.cuts swept.lines) }
{
    let mut text = Vec::new(alloc);
    spell_swept(&mut text, swept.cuts, swept.lines)?;
    Ok(text)
}

/// Prints how many cuts agree, and answers the exit status.
fn say_swept<W: Write + Drop, E: Write + Drop>(
    alloc: Global,
    swept: Swept,
    out: &mut Printer<W>,
    err: &mut Printer<E>,
) -> Status
    ensures { SaysSwept swept.cuts swept.lines (printers out.old err.old)
        (printers out.new err.new) result }
{
    match swept_text(alloc, swept) {
        Ok(text) => say_text(out, text.as_slice()),
        Err(_) => report(err, Obstacle::Memory),
    }
}

/// The script of lives.
fn script_of(alloc: Global, lives: &[PlannedLife]) -> io::Result<Vec<u8>> {
    let mut text = Vec::new(alloc);
    spell_script(&mut text, lives)?;
    Ok(text)
}

/// Prints the script of lives that differ, and what differs. Answers the exit status.
fn say_difference<W: Write + Drop, E: Write + Drop>(
    alloc: Global,
    lives: &[PlannedLife],
    out: &mut Printer<W>,
    err: &mut Printer<E>,
) -> Status
    ensures { SaysDifference (printers out.old err.old) (printers out.new err.new) result }
{
    let Ok(text) = script_of(alloc, lives) else {
        return report(err, Obstacle::Memory);
    };
    match say_text(out, text.as_slice()) {
        Status::Done => say_line(err, Status::Different, DIFFERS),
        _ => Status::Unwritten,
    }
}

/// What is said of lives that differ.
const DIFFERS: &str =
    "differs: a life isn't opened or ends early, or a line is missing or has another text";

/// What is said of lives by which an upgrade can't be done again.
const NO_UPGRADE: &str = "the script's upgrade can't be done again after a cut";

/// The line that says by which error a life of the script ended.
fn plan_text(alloc: Global, number: u64, why: RecoverFault) -> io::Result<Vec<u8>>
    ensures { IfOk result (λ text. text.items ≡ plan_line number why) }
{
    let mut text = Vec::new(alloc);
    text.write_all(b"the script's ")?;
    spell_error(&mut text, number, why)?;
    Ok(text)
}

/// Prints by which error a life of the script ended. Answers the exit status.
fn say_plan<E: Write + Drop>(
    alloc: Global,
    number: u64,
    why: RecoverFault,
    err: &mut Printer<E>,
) -> Status
    ensures { SaysPlan number why err.old err.new result }
{
    let Ok(text) = plan_text(alloc, number, why) else {
        return report(err, Obstacle::Memory);
    };
    match say_text(err, text.as_slice()) {
        Status::Done => Status::Usage,
        _ => Status::Unwritten,
    }
}

/// Prints how many of its answers a life of the script took. Answers the exit status.
fn say_answers_left<E: Write + Drop>(
    number: u64,
    taken: u64,
    all: u64,
    err: &mut Printer<E>,
) -> Status
    ensures { SaysText (answers_left_line number taken all) exit.Usage err.old result err.new }
{
    match writeln!(
        err,
        "the script's life {number} took {taken} of {all} answers: give its slices more steps, or \
         take answers out"
    ) {
        Ok(()) => Status::Usage,
        Err(_) => Status::Unwritten,
    }
}

/// Prints how a sweep has ended, and answers the exit status.
fn say_end<W: Write + Drop, E: Write + Drop>(
    alloc: Global,
    ended: Result<Option<Swept>, SweepFault>,
    out: &mut Printer<W>,
    err: &mut Printer<E>,
) -> Status
    ensures { SaysEnd ended (printers out.old err.old) (printers out.new err.new) result }
{
    match ended {
        Ok(Some(swept)) => say_swept(alloc, swept, out, err),
        Ok(None) => Status::Unwritten,
        Err(SweepFault::Memory) => report(err, Obstacle::Memory),
        Err(SweepFault::Plan { number, why }) => say_plan(alloc, number, why, err),
        Err(SweepFault::AnswersLeft { number, taken, all }) => {
            say_answers_left(number, taken, all, err)
        }
        Err(SweepFault::Upgrade { run: _run }) => say_line(err, Status::Usage, NO_UPGRADE),
        Err(SweepFault::Differs { run }) => {
            say_difference(alloc, run.lives.as_slice(), out, err)
        }
    }
}

/// Sweeps lives, of a worker of the module that the bytes spell. Answers the exit status.
fn sweep_read<W: Write + Drop, E: Write + Drop>(
    alloc: Global,
    swept: &SweptLives,
    wasm: &[u8],
    choice: SweepChoice<'_>,
    out: &mut Printer<W>,
    err: &mut Printer<E>,
) -> Status
    requires { swept.now.place < length swept.now.lives }
    ensures { (script : List ℕ)
        → AreSweptLives (lines_of script) choice.entry.life swept.now.lives swept.now.place
        → TellsSweep script wasm.now choice.entry.sizes choice.entry.fronts.now choice.entry.life
        (printers out.old err.old) (printers out.new err.new) result }
{
    match prepare(alloc, wasm, choice.sizes, &[], &[]) {
        Ok(prepared) => {
            let job = SweepJob {
                wasm,
                config: &prepared.config,
                lives: swept.lives.as_slice(),
                place: swept.place,
                fronts: choice.fronts,
            };
            let ended = sweep_lives(alloc, &job, err);
            drop(prepared);
            say_end(alloc, ended, out, err)
        }
        Err(fault) => report_unprepared(alloc, wasm, fault, err),
    }
}

/// Sweeps the lives that a script spells, of a worker of the module that the bytes spell. It is of
/// these sizes, and its name is its one argument. They are run without a cut, and then with the
/// power cut at each call of the disk in one of them, for each of these fronts. Answers the exit
/// status: `Done` where all cuts agree with the run without one, `Different` where one differs,
/// `Usage` for a script that can't be swept, `Refused` for a refused configuration or module,
/// `OutOfMemory`, `Unwritten` where a write of a printer has failed. A script can't be swept if a
/// life of it ends by an error or takes fewer answers than it has, or if its upgrade can't be done
/// again after a cut.
pub fn tell_sweep<W: Write + Drop, E: Write + Drop>(
    alloc: Global,
    script: &[u8],
    wasm: &[u8],
    choice: SweepChoice<'_>,
    out: &mut Printer<W>,
    err: &mut Printer<E>,
) -> Status
    ensures { TellsSweep script.now wasm.now choice.entry.sizes choice.entry.fronts.now
        choice.entry.life (printers out.old err.old) (printers out.new err.new) result }
{
    match read_sweep(alloc, script, choice.life) {
        Ok(swept) => {
            let status = sweep_read(alloc, &swept, wasm, choice, out, err);
            drop(swept);
            status
        }
        Err(fault) => report_sweep_script(err, fault),
    }
}

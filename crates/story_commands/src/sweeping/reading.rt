//! The lives of a sweep, read from a script.

ghost use Rattle.std.specs.Prelude.{◌⊎◌, IfErr, IfOk};
ghost use Rattle.command_words.specs.rules.Pieces.{lines_of};
ghost use Rattle.command_words.specs.rules.Printers.{IsSaid};
ghost use Rattle.command_words.specs.declared.status.Status.TheVariants as exit;
ghost use Rattle.story_commands.specs.rules.Sweeps.{AreSweptLives, IsUnreadSweep};
ghost use Rattle.story_commands.specs.rules.SweepTexts.{SaysScriptFault};

use crate::stories::{ScriptFault, read_calm_script, report_script};
use crate::sweeping::choosing::swept_place;
use command_words::{Obstacle, Printer, Status, report};
use std::alloc::Global;
use std::io::Write;
use wasm_syntax::ItemList;
use worker::story::PlannedLife;

/// Lives of which one is swept.
#[derive(Debug, Drop)]
pub struct SweptLives {
    pub lives: ItemList<PlannedLife>,
    /// The place of that one, from 0 on.
    pub place: usize,
}

/// Why no life is swept.
#[derive(Clone, Copy, Debug, PartialEq, Eq)]
pub enum SweepScriptFault {
    Script(ScriptFault),
    /// There is no life of the number that is asked for, or no life at all.
    NoLife,
}

/// The lives that a script spells, and which of them is swept: the one of this number from 1 on, or
/// the last one. A fault names the first line after which they are no lives that nothing befalls,
/// and why, or says that there is no such life, or that memory has run out.
pub fn read_sweep(
    alloc: Global,
    script: &[u8],
    number: Option<u64>,
) -> Result<SweptLives, SweepScriptFault>
    ensures read { IfOk result (λ swept. AreSweptLives (lines_of script.now) number swept.lives
        swept.place) }
    ensures fault { IfErr result (IsUnreadSweep (lines_of script.now) number) }
{
    let lives = match read_calm_script(alloc, script) {
        Ok(lives) => lives,
        Err(fault) => return Err(SweepScriptFault::Script(fault)),
    };
    match swept_place(lives.as_slice(), number) {
        Some(place) => Ok(SweptLives { lives, place }),
        None => Err(SweepScriptFault::NoLife),
    }
}

/// Writes what is wrong with the script of a sweep, and answers the exit status.
pub fn report_sweep_script<E: Write + Drop>(err: &mut Printer<E>, fault: SweepScriptFault) -> Status
    ensures said { IsSaid exit.Usage err.old result err.new
        ⊎ IsSaid exit.OutOfMemory err.old result err.new }
    ensures words { SaysScriptFault fault err.old result err.new }
{
    match fault {
        SweepScriptFault::Script(fault) => report_script(err, fault),
        SweepScriptFault::NoLife => report(err, Obstacle::NoLife),
    }
}

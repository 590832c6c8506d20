//! `wasmhost story`.

ghost use Rattle.std.specs.Prelude.{◌≡◌, ℕ, IfOk};
ghost use Rattle.command_words.specs.rules.Printers.{IsSaid, SaysText, printers};
ghost use Rattle.command_words.specs.declared.status.Status.TheVariants as exit;
ghost use Rattle.story_commands.specs.declared.stories.fault.LineCause.{LineCause};
ghost use Rattle.story_commands.specs.declared.stories.fault.ScriptFault.TheVariants.{Line, Memory};
ghost use Rattle.story_commands.specs.rules.Stories.{TellsStory, line_cause_words, script_lines};
ghost use Rattle.story_commands.specs.rules.Stories.{story_text};
ghost use Rattle.story_commands.specs.Said.{SaysLives};

use crate::stories::fault::{LineCause, ScriptFault};
use crate::stories::script::read_script;
use crate::stories::spelling::spell_lives;
use command_words::{
    Obstacle, Printer, Sizes, Status, prepare, report, report_unprepared, say_text,
};
use std::alloc::Global;
use std::io::{self, Write};
use worker::story::{LifeReport, StoryFault, story};

/// The text of these lives.
fn text_of(alloc: Global, reports: &[LifeReport]) -> io::Result<Vec<u8>>
    ensures { IfOk result (λ text. text.items ≡ story_text 1 reports.now) }
{
    let mut text = Vec::new(alloc);
    spell_lives(&mut text, reports)?;
    Ok(text)
}

/// The words for why a line is refused.
fn words_of(cause: LineCause) -> &'static str
    ensures { result.now ≡ line_cause_words cause }
{
    match cause {
        LineCause::Empty => "a line isn't empty",
        LineCause::UnknownWord => "no line begins with this word",
        LineCause::WordStandsAlone => "nothing may follow this word",
        LineCause::WordLacksMore => "a space and more must follow this word",
        LineCause::NotANumber => "a number is decimal digits, one space behind what is before it",
        LineCause::NumberTooLarge => "a number is at most 18446744073709551615",
        LineCause::NumberIsZero => "this number is from 1 on",
        LineCause::SecondNumberMissing => "two numbers must follow this word",
        LineCause::FrontTooLarge => "a front is at most 512",
        LineCause::NotHexadecimal => "random bytes are hexadecimal digits, two for each",
        LineCause::NotFronts => "tears are numbers up to 512, with one space between each two",
        LineCause::NoLifeBegun => "a script begins with life",
        LineCause::SecondStop => "a life has at most one stop",
        LineCause::SecondFail => "a life has at most one fail",
        LineCause::SecondRefuse => "a life has at most one refuse",
        LineCause::SecondTears => "a life has at most one line of tears",
        LineCause::NotSwept => "a sweep takes no stop, fail, refuse or tears",
    }
}

/// Writes which line of the script is faulty, and why. Answers the exit status.
fn say_faulty_line<E: Write + Drop>(err: &mut Printer<E>, number: u64, cause: LineCause) -> Status
    ensures { SaysText (script_lines number cause) exit.Usage err.old result err.new }
{
    let words = words_of(cause);
    match writeln!(err, "failed script line {number}\n{words}") {
        Ok(()) => Status::Usage,
        Err(_) => Status::Unwritten,
    }
}

/// Writes what is wrong with a script, and answers the exit status.
pub fn report_script<E: Write + Drop>(err: &mut Printer<E>, fault: ScriptFault) -> Status
    ensures faulty { (number : ℕ) (cause : LineCause) → fault ≡ Line number cause
        → SaysText (script_lines number cause) exit.Usage err.old result err.new }
    ensures starved { fault ≡ Memory → IsSaid exit.OutOfMemory err.old result err.new }
{
    match fault {
        ScriptFault::Line { number, cause } => say_faulty_line(err, number, cause),
        ScriptFault::Memory => report(err, Obstacle::Memory),
    }
}

/// Writes why there is no report, and answers the exit status.
fn say_story_fault<E: Write + Drop>(err: &mut Printer<E>, fault: StoryFault) -> Status
    ensures { IsSaid exit.OutOfMemory err.old result err.new }
{
    match writeln!(err, "failed {fault}") {
        Ok(()) => Status::OutOfMemory,
        Err(_) => Status::Unwritten,
    }
}

/// Prints lives on the output, or why there is no room for their text.
fn say_lives<W: Write + Drop, E: Write + Drop>(
    alloc: Global,
    reports: &[LifeReport],
    out: &mut Printer<W>,
    err: &mut Printer<E>,
) -> Status
    ensures { SaysLives reports.now (printers out.old err.old) (printers out.new err.new) result }
{
    match text_of(alloc, reports) {
        Ok(text) => say_text(out, text.as_slice()),
        Err(_) => say_story_fault(err, StoryFault::Memory),
    }
}

/// Tells the lives that a script spells, of a worker of the module that the bytes spell. It is of
/// these sizes, and its name is its one argument. Each life's line on the output says how it was
/// opened, and after that are its lines as a run prints them. Nothing is printed there before the
/// last life is over. Answers the exit status: `Done` where the story is told, `Usage` for a faulty
/// line of the script, `Refused` for a refused configuration or module, `OutOfMemory`, `Unwritten`
/// where a write of a printer has failed.
#[tactic(auto, using(crate::proofs::TellingLemmas::told_rules))]
pub fn tell<W: Write + Drop, E: Write + Drop>(
    alloc: Global,
    script: &[u8],
    wasm: &[u8],
    sizes: Sizes,
    out: &mut Printer<W>,
    err: &mut Printer<E>,
) -> Status
    ensures { TellsStory script.now wasm.now sizes (printers out.old err.old)
        (printers out.new err.new) result }
{
    let lives = match read_script(alloc, script) {
        Ok(lives) => lives,
        Err(ScriptFault::Line { number, cause }) => return say_faulty_line(err, number, cause),
        Err(ScriptFault::Memory) => return report(err, Obstacle::Memory),
    };
    let prepared = match prepare(alloc, wasm, sizes, &[], &[]) {
        Ok(prepared) => prepared,
        Err(fault) => return report_unprepared(alloc, wasm, fault, err),
    };
    match story(alloc, wasm, &prepared.config, lives.as_slice()) {
        Ok(told) => say_lives(alloc, told.lives.as_slice(), out, err),
        Err(fault) => say_story_fault(err, fault),
    }
}

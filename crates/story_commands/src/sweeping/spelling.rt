//! What a sweep prints.

ghost use Rattle.std.specs.Prelude.{◌≡◌, OnOk};
ghost use Rattle.std.specs.Io.KnownBytes.{Appends};
ghost use Rattle.story_commands.specs.rules.SweepTexts.{comma_before, quantity, grouped};
ghost use Rattle.story_commands.specs.rules.SweepTexts.{swept_line};

use command_words::spell_answer;
use itoa::Buffer;
use std::io::{self, Write};
use worker::story::{PlannedAct, PlannedLife};

/// A comma, where so many digits are left, and they are groups of three.
fn comma_before(digits_left: usize) -> &'static [u8]
    ensures { result.now ≡ comma_before digits_left }
{
    if digits_left == 0 {
        return b"";
    }
    if digits_left % 3 == 0 { b"," } else { b"" }
}

/// Spells digits, with a comma before each three that are left.
fn spell_grouped<W: Write>(out: &mut W, digits: &[u8]) -> io::Result<()>
    ensures { OnOk result (Appends (W.contents out.old) (W.contents out.new)
        (grouped digits.now)) }
{
    let mut digits_left = digits.len();
    for digit in digits {
        out.write_all(&[*digit])?;
        digits_left -= 1;
        out.write_all(comma_before(digits_left))?;
    }
    Ok(())
}

/// Spells how many things there are of this name.
fn spell_count<W: Write>(out: &mut W, number: u64, name: &str) -> io::Result<()>
    ensures { OnOk result (Appends (W.contents out.old) (W.contents out.new)
        (quantity number name.now)) }
{
    spell_grouped(out, Buffer::new().format(number).as_bytes())?;
    out.write_all(b" ")?;
    out.write_all(name.as_bytes())?;
    if number == 1 {
        return Ok(());
    }
    out.write_all(b"s")
}

/// Spells how many cuts agree, and how many lines were told.
pub(super) fn spell_swept<W: Write>(out: &mut W, cuts: u64, lines: u64) -> io::Result<()>
    ensures { OnOk result (Appends (W.contents out.old) (W.contents out.new)
        (swept_line cuts lines)) }
{
    out.write_all(b"swept ")?;
    spell_count(out, cuts, "cut")?;
    out.write_all(b": ")?;
    spell_count(out, lines, "line")?;
    out.write_all(b", each told with one text\n")
}

/// Spells what a worker is told to do as a line of a script.
fn spell_act<W: Write>(out: &mut W, act: PlannedAct) -> io::Result<()> {
    match act {
        PlannedAct::Slice { fuel } => writeln!(out, "slice {fuel}"),
        PlannedAct::Batch { fuel, most } => writeln!(out, "batch {fuel} {most}"),
        PlannedAct::Checkpoint => out.write_all(b"checkpoint\n"),
        PlannedAct::Upgrade => out.write_all(b"upgrade\n"),
    }
}

/// Spells a life of a sweep as lines of a script.
fn spell_life<W: Write>(out: &mut W, life: &PlannedLife) -> io::Result<()> {
    out.write_all(b"life\n")?;
    for answer in life.answers.as_slice() {
        spell_answer(out, answer)?;
        out.write_all(b"\n")?;
    }
    for act in life.acts.as_slice() {
        spell_act(out, *act)?;
    }
    match life.stop {
        Some(place) => {
            let call = place.call;
            let front = place.front;
            writeln!(out, "stop {call} {front}")
        }
        None => Ok(()),
    }
}

/// Spells lives of a sweep as a script, which `story` tells.
pub(super) fn spell_script<W: Write>(out: &mut W, lives: &[PlannedLife]) -> io::Result<()> {
    for life in lives {
        spell_life(out, life)?;
    }
    Ok(())
}

//! The texts of lines, by their numbers.

ghost use Rattle.std.specs.Prelude.{◌≡◌, ◌++◌, ◌∷◌, ◌-◌, [], IfOk, IfSome, List, Some, true};
ghost use Rattle.std.specs.Prelude.{slice_get};
ghost use Rattle.std.specs.List.{flat_map};
ghost use Rattle.record_replay.specs.declared.line_list.NumberedLine.{NumberedLine};
ghost use Rattle.story_commands.specs.rules.Sweeps.{AreTextsOf, lines_told};

use record_replay::{LineList, NumberedLine, Outlet, OutletFault};
use std::alloc::Global;
use worker::story::LifeReport;

fn is_same(first: &NumberedLine, second: &NumberedLine) -> bool
    ensures { result ≡ true → first.now ≡ second.now }
{
    first.number == second.number
        && first.stream == second.stream
        && first.text.as_slice() == second.text.as_slice()
}

/// Whether a line has the text of its number.
fn has_text(texts: &[NumberedLine], line: &NumberedLine) -> bool
    ensures { result ≡ true → slice_get texts.now (line.now.number - 1) ≡ Some line.now }
{
    let place = line.number.saturating_sub(1) as usize;
    match texts.get(place) {
        Some(text) => is_same(text, line),
        None => false,
    }
}

/// Puts one line more to the texts of lines, if it has the next number. Else says whether it has
/// the text of its number.
fn put_line(texts: &mut LineList, line: &NumberedLine) -> Result<bool, OutletFault>
    ensures { IfOk result (λ fits. fits ≡ true → (lines : List NumberedLine)
        → AreTextsOf texts.old lines → AreTextsOf texts.new (lines ++ line.now ∷ [])) }
{
    let count = texts.lines().len() as u64;
    if line.number > 0 && line.number - 1 == count {
        texts.release(line.number, line.stream, line.text.as_slice())?;
        return Ok(true);
    }
    Ok(has_text(texts.lines(), line))
}

/// Puts more lines to the texts of lines, up to the first that doesn't fit.
fn put_lines(texts: &mut LineList, more: &[NumberedLine]) -> Result<bool, OutletFault>
    ensures { IfOk result (λ fits. fits ≡ true → (lines : List NumberedLine)
        → AreTextsOf texts.old lines → AreTextsOf texts.new (lines ++ more.now)) }
{
    for line in more {
        if !put_line(texts, line)? {
            return Ok(false);
        }
    }
    Ok(true)
}

/// Puts the lines that lives have told to the texts of lines, up to the first that doesn't fit.
fn put_told(texts: &mut LineList, reports: &[LifeReport]) -> Result<bool, OutletFault>
    ensures { IfOk result (λ fits. fits ≡ true → (lines : List NumberedLine)
        → AreTextsOf texts.old lines
        → AreTextsOf texts.new (lines ++ flat_map lines_told reports.now)) }
{
    for report in reports {
        if !put_lines(texts, report.releases.lines())? {
            return Ok(false);
        }
    }
    Ok(true)
}

/// The texts of all lines that lives have told, and others before them, if each number has one text
/// and none is missing.
pub(super) fn texts_of(
    alloc: Global,
    before: &[LifeReport],
    reports: &[LifeReport],
) -> Result<Option<LineList>, OutletFault>
    ensures { IfOk result (λ found. IfSome found (λ texts.
        AreTextsOf texts (flat_map lines_told (before.now ++ reports.now)))) }
{
    let mut texts = LineList::new(alloc);
    if !put_told(&mut texts, before)? {
        return Ok(None);
    }
    if !put_told(&mut texts, reports)? {
        return Ok(None);
    }
    Ok(Some(texts))
}

/// Whether texts begin with these.
pub(super) fn begin_with(texts: &[NumberedLine], front: &[NumberedLine]) -> bool
    ensures { result ≡ true → (more : List NumberedLine) × (texts.now ≡ front.now ++ more) }
{
    if texts.len() < front.len() {
        return false;
    }
    let mut at = 0;
    while at < front.len() {
        if !is_same(&texts[at], &front[at]) {
            return false;
        }
        at += 1;
    }
    true
}

//! Lines put into lives.

ghost use Rattle.std.specs.Prelude.{◌≡◌, IfOk, OnOk};
ghost use Rattle.story_commands.specs.laws.Drafts.{empty_life, draft_start, lives_so_far, ended};
ghost use Rattle.story_commands.specs.laws.Drafts.{put_in, put_behind, put_line, put_text, Comes};
ghost use Rattle.story_commands.specs.declared.stories.line.ScriptLine.TheVariants as said;

use crate::stories::draft::StoryDraft;
use crate::stories::keywords::read_line;
use crate::stories::line::ScriptLine;
use sector_disk::FaultPoint;
use std::alloc::{AllocError, Global};
use std::mem;
use wasi_abi::Answer;
use wasm_syntax::ItemList;
use worker::story::{PlannedAct, PlannedLife};

/// A life into which nothing is put.
fn empty_life(alloc: Global) -> PlannedLife
    ensures { result ≡ empty_life }
{
    PlannedLife {
        answers: ItemList::new(alloc),
        acts: ItemList::new(alloc),
        stop: None,
        fail: None,
        refuse: None,
        tears: ItemList::new(alloc),
    }
}

pub(super) fn new_draft(alloc: Global) -> StoryDraft
    ensures { result ≡ draft_start }
{
    StoryDraft {
        lives: ItemList::new(alloc),
        life: empty_life(alloc),
        is_begun: false,
    }
}

/// Puts the life that is begun after the others.
pub(super) fn close(alloc: Global, draft: &mut StoryDraft) -> Result<(), AllocError>
    ensures { OnOk result (draft.new ≡ ended draft.old) }
{
    let life = mem::replace(&mut draft.life, empty_life(alloc));
    if draft.is_begun {
        draft.lives.push(life)?;
    }
    draft.is_begun = false;
    Ok(())
}

fn put_stop(life: &mut PlannedLife, point: FaultPoint) -> bool
    ensures { Comes result (put_in (said.Stop point) life.old) life.new }
{
    if life.stop.is_some() {
        return false;
    }
    life.stop = Some(point);
    true
}

fn put_fail(life: &mut PlannedLife, point: FaultPoint) -> bool
    ensures { Comes result (put_in (said.Fail point) life.old) life.new }
{
    if life.fail.is_some() {
        return false;
    }
    life.fail = Some(point);
    true
}

fn put_refusal(life: &mut PlannedLife, number: u64) -> bool
    ensures { Comes result (put_in (said.Refuse number) life.old) life.new }
{
    if life.refuse.is_some() {
        return false;
    }
    life.refuse = Some(number);
    true
}

fn put_tears(life: &mut PlannedLife, fronts: ItemList<u16>) -> bool
    ensures { Comes result (put_in (said.Tears fronts) life.old) life.new }
{
    if life.tears.len() > 0 {
        return false;
    }
    life.tears = fronts;
    true
}

fn put_answer(life: &mut PlannedLife, answer: Answer) -> Result<bool, AllocError>
    ensures { IfOk result (λ is_put. Comes is_put (put_in (said.Answer answer) life.old) life.new) }
{
    life.answers.push(answer)?;
    Ok(true)
}

fn put_act(life: &mut PlannedLife, act: PlannedAct) -> Result<bool, AllocError>
    ensures { IfOk result (λ is_put. Comes is_put (put_in (said.Act act) life.old) life.new) }
{
    life.acts.push(act)?;
    Ok(true)
}

/// Puts what a line says that isn't `life` into a life, if it may be there.
fn put_into(life: &mut PlannedLife, line: ScriptLine) -> Result<bool, AllocError>
    ensures { IfOk result (λ is_put. Comes is_put (put_in line life.old) life.new) }
{
    match line {
        ScriptLine::Life => Ok(false),
        ScriptLine::Answer { answer } => put_answer(life, answer),
        ScriptLine::Act { act } => put_act(life, act),
        ScriptLine::Stop { point } => Ok(put_stop(life, point)),
        ScriptLine::Fail { point } => Ok(put_fail(life, point)),
        ScriptLine::Refuse { number } => Ok(put_refusal(life, number)),
        ScriptLine::Tears { fronts } => Ok(put_tears(life, fronts)),
    }
}

/// Begins another life.
fn begin(alloc: Global, draft: &mut StoryDraft) -> Result<bool, AllocError>
    ensures { IfOk result (λ is_put. Comes is_put (put_line said.Life draft.old) draft.new) }
{
    close(alloc, draft)?;
    draft.is_begun = true;
    Ok(true)
}

fn put_behind(draft: &mut StoryDraft, line: ScriptLine) -> Result<bool, AllocError>
    ensures { IfOk result (λ is_put. Comes is_put (put_behind line draft.old) draft.new) }
{
    if !draft.is_begun {
        return Ok(false);
    }
    put_into(&mut draft.life, line)
}

/// Puts what a line says after a draft, if it may be there.
fn put(alloc: Global, draft: &mut StoryDraft, line: ScriptLine) -> Result<bool, AllocError>
    ensures { IfOk result (λ is_put. Comes is_put (put_line line draft.old) draft.new) }
{
    match line {
        ScriptLine::Life => begin(alloc, draft),
        other => put_behind(draft, other),
    }
}

/// Reads a line, and puts what it says after a draft, if it may be there.
pub(super) fn put_text(
    alloc: Global,
    draft: &mut StoryDraft,
    text: &[u8],
) -> Result<bool, AllocError>
    ensures { IfOk result (λ is_put. Comes is_put (put_text text.now draft.old) draft.new) }
{
    match read_line(alloc, text)? {
        Some(line) => put(alloc, draft, line),
        None => Ok(false),
    }
}

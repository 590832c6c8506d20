//! Scripts of lives that nothing befalls.

ghost use Rattle.std.specs.Prelude.{◌≡◌, IfErr, IfOk, OnOk, Some, false, true};
ghost use Rattle.command_words.specs.rules.Pieces.{lines_of};
ghost use Rattle.story_commands.specs.rules.Sweeps.{IsCalm, IsCalmScript, IsCalmScriptFault};
ghost use Rattle.story_commands.specs.laws.Drafts.{ComesCalm, ComesCalmOrRefuses, IsCalmDraft};
ghost use Rattle.story_commands.specs.laws.Drafts.{IsCalmReadingFault, put_texts};

use crate::stories::causes::swept_line_cause;
use crate::stories::draft::StoryDraft;
use crate::stories::fault::{LineCause, ScriptFault};
use crate::stories::lives::{close, new_draft, put_text};
use command_words::cut_line;
use std::alloc::{AllocError, Global};
use wasm_syntax::ItemList;
use worker::story::PlannedLife;

/// Whether nothing befalls a life.
fn is_calm(life: &PlannedLife) -> bool
    ensures calm { result ≡ true → IsCalm life.now }
    ensures befallen { result ≡ false → IsCalm life.now → ⊥ }
{
    life.stop.is_none() && life.fail.is_none() && life.refuse.is_none() && life.tears.is_empty()
}

/// Reads a line, and puts what it says after a draft, if it may be there and nothing befalls its
/// life by then.
fn put_calm(alloc: Global, draft: &mut StoryDraft, text: &[u8]) -> Result<bool, AllocError>
    ensures { IfOk result (λ is_put. ComesCalm is_put text.now draft.old draft.new) }
{
    if !put_text(alloc, draft, text)? {
        return Ok(false);
    }
    Ok(is_calm(&draft.life))
}

/// The same, or answers why not.
fn put_calm_or_refuse(
    alloc: Global,
    draft: &mut StoryDraft,
    text: &[u8],
) -> Result<Option<LineCause>, AllocError>
    ensures { IfOk result (λ refused. ComesCalmOrRefuses text.now refused draft.old draft.new) }
{
    let is_begun = draft.is_begun;
    if put_calm(alloc, draft, text)? {
        return Ok(None);
    }
    let cause = swept_line_cause(alloc, is_begun, text)?;
    Ok(Some(cause))
}

/// Puts what the lines say after a draft, up to the first one that may not be there.
fn put_calm_lines(alloc: Global, draft: &mut StoryDraft, text: &[u8]) -> Result<(), ScriptFault>
    ensures put { OnOk result ((put_texts (lines_of text.now) draft.old ≡ Some draft.new)
        × (IsCalmDraft draft.old → IsCalmDraft draft.new)) }
    ensures fault { IfErr result (IsCalmReadingFault (lines_of text.now) draft.old) }
{
    let mut rest = text;
    let mut number = 0;
    while !rest.is_empty() {
        let (line, behind) = cut_line(rest);
        rest = behind;
        number += 1;
        if let Some(cause) = put_calm_or_refuse(alloc, draft, line)? {
            return Err(ScriptFault::Line { number, cause });
        }
    }
    Ok(())
}

/// The lives that a script spells, if nothing befalls them. A fault names the first line after
/// which the lines are no such script, and why, or memory has run out.
pub(crate) fn read_calm_script(
    alloc: Global,
    text: &[u8],
) -> Result<ItemList<PlannedLife>, ScriptFault>
    ensures read { IfOk result (IsCalmScript (lines_of text.now)) }
    ensures fault { IfErr result (IsCalmScriptFault (lines_of text.now)) }
{
    let mut draft = new_draft(alloc);
    put_calm_lines(alloc, &mut draft, text)?;
    close(alloc, &mut draft)?;
    let StoryDraft { lives, .. } = draft;
    Ok(lives)
}

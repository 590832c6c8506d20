//! Scripts, line by line.

ghost use Rattle.std.specs.Prelude.{◌≡◌, ◌<◌, OnOk, IfOk, IfErr, Some};
ghost use Rattle.command_words.specs.rules.Pieces.{lines_of};
ghost use Rattle.story_commands.specs.rules.Scripts.{IsScript, IsScriptFault};
ghost use Rattle.story_commands.specs.laws.Drafts.{ComesOrRefuses, IsReadingFault, put_texts};

use crate::stories::causes::line_cause;
use crate::stories::draft::StoryDraft;
use crate::stories::fault::{LineCause, ScriptFault};
use crate::stories::lives::{close, new_draft, put_text};
use command_words::cut_line;
use std::alloc::{AllocError, Global};
use wasm_syntax::ItemList;
use worker::story::PlannedLife;

/// Reads a line, and puts what it says after a draft, or answers why it may not be there.
fn put_or_refuse(
    alloc: Global,
    draft: &mut StoryDraft,
    text: &[u8],
) -> Result<Option<LineCause>, AllocError>
    ensures { IfOk result (λ refused. ComesOrRefuses text.now refused draft.old draft.new) }
{
    let is_begun = draft.is_begun;
    if put_text(alloc, draft, text)? {
        return Ok(None);
    }
    let cause = line_cause(alloc, is_begun, text)?;
    Ok(Some(cause))
}

/// Puts what the lines say after a draft, up to the first one that may not be there.
fn put_lines(alloc: Global, draft: &mut StoryDraft, text: &[u8]) -> Result<(), ScriptFault>
    ensures put { OnOk result (put_texts (lines_of text.now) draft.old ≡ Some draft.new) }
    ensures fault { IfErr result (IsReadingFault (lines_of text.now) draft.old) }
{
    let mut rest = text;
    let mut number = 0;
    while !rest.is_empty() {
        let (line, behind) = cut_line(rest);
        rest = behind;
        number += 1;
        if let Some(cause) = put_or_refuse(alloc, draft, line)? {
            return Err(ScriptFault::Line { number, cause });
        }
    }
    Ok(())
}

/// The lives that a script spells. A fault names the first line after which the lines are no
/// script, and why, or memory has run out.
pub fn read_script(alloc: Global, text: &[u8]) -> Result<ItemList<PlannedLife>, ScriptFault>
    ensures read { IfOk result (IsScript (lines_of text.now)) }
    ensures fault { IfErr result (IsScriptFault (lines_of text.now)) }
{
    let mut draft = new_draft(alloc);
    put_lines(alloc, &mut draft, text)?;
    close(alloc, &mut draft)?;
    let StoryDraft { lives, .. } = draft;
    Ok(lives)
}

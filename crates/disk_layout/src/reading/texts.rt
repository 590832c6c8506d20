//! Texts from their bytes.

ghost use Rattle.std.specs.Prelude.{IfOk, MatchOption};
ghost use Rattle.disk_layout.specs.rules.Spelled.{TextFirst, TextsFirst};
ghost use Rattle.disk_layout.specs.Spelled.{NoTextFirst, NoTextsFirst};

use crate::{u16_from, u32_from};
use std::alloc::{AllocError, Global};
use wasi_abi::MOST_TEXTS;
use wasm_syntax::ItemList;

/// The texts at the front, after their number, and what is after them.
pub(crate) fn texts_from(
    alloc: Global,
    bytes: &[u8],
) -> Result<Option<(ItemList<ItemList<u8>>, &[u8])>, AllocError>
    ensures { IfOk result (λ o. MatchOption o (NoTextsFirst bytes.now) (λ r.
        TextsFirst bytes.now r.0 r.1.now)) }
{
    if bytes.len() < 4 {
        return Ok(None);
    }
    let count = u32_from(bytes, 0);
    if count as usize > MOST_TEXTS {
        return Ok(None);
    }
    let mut texts = Vec::new(alloc);
    let mut rest = &bytes[4..];
    for _ in 0..count {
        let Some((text, behind)) = text_from(rest) else {
            return Ok(None);
        };
        let text = ItemList::from_vec(Vec::from_slice(alloc, text)?);
        texts.push(text)?;
        rest = behind;
    }
    Ok(Some((ItemList::from_vec(texts), rest)))
}

/// The text at the front, after its length, and what is after it.
fn text_from(bytes: &[u8]) -> Option<(&[u8], &[u8])>
    ensures { MatchOption result (NoTextFirst bytes.now) (λ r.
        TextFirst bytes.now r.0.now r.1.now) }
{
    if bytes.len() < 2 {
        return None;
    }
    let end = 2 + usize::from(u16_from(bytes, 0));
    if bytes.len() < end {
        return None;
    }
    Some((&bytes[2..end], &bytes[end..]))
}

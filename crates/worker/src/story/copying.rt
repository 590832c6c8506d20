//! The answers that are put into a life, copied.

ghost use Rattle.std.specs.Prelude.{◌≡◌, IfOk};

use record_replay::copy_answer;
use std::alloc::{AllocError, Global};
use wasi_abi::Answer;
use wasm_syntax::ItemList;

/// The same answers, in memory of their own. It fails only when out of memory.
pub(crate) fn copy_answers(
    alloc: Global,
    answers: &[Answer],
) -> Result<ItemList<Answer>, AllocError>
    ensures { IfOk result (λ copies. copies ≡ answers.now) }
{
    let mut copies = ItemList::new(alloc);
    for answer in answers {
        let copy = copy_answer(alloc, answer)?;
        copies.push(copy)?;
    }
    Ok(copies)
}

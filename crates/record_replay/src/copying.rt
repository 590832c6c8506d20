//! An answer, copied.

ghost use Rattle.std.specs.Prelude.{◌≡◌, IfOk};

use std::alloc::{AllocError, Global};
use wasi_abi::Answer;
use wasm_syntax::ItemList;

/// The same answer, in memory of its own. It fails only when out of memory.
pub fn copy_answer(alloc: Global, answer: &Answer) -> Result<Answer, AllocError>
    ensures { IfOk result (λ copy. copy ≡ answer.now) }
{
    Ok(match answer {
        Answer::Request { text } => Answer::Request {
            text: ItemList::from_vec(text.as_slice().to_vec(alloc)?),
        },
        Answer::End => Answer::End,
        Answer::Realtime { nanoseconds } => Answer::Realtime {
            nanoseconds: *nanoseconds,
        },
        Answer::Monotonic { nanoseconds } => Answer::Monotonic {
            nanoseconds: *nanoseconds,
        },
        Answer::Random { bytes } => Answer::Random {
            bytes: ItemList::from_vec(bytes.as_slice().to_vec(alloc)?),
        },
    })
}

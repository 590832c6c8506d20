//! What is in vectors (section 5.1.3).

ghost use Rattle.std.specs.Prelude.{◌≡◌, ℕ, List, Option};
ghost use Rattle.wasm_decode.specs.Items.Answers.{GivesItem};

use crate::items::decoder::Decoder;
use crate::items::fault::ItemFault;
use std::alloc::Global;

/// An item of the binary format, by the function that reads it from the front of a list of bytes.
pub trait Item: Drop {
    ghost at: { List ℕ → Option (Self × List ℕ) };

    fn read(alloc: Global, decoder: &mut Decoder) -> Result<Self, ItemFault>
        ensures { GivesItem result decoder.new (at decoder.old) };
}

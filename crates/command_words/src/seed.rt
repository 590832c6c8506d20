//! Seeds, and the random bytes that one gives.
//!
//! # Promises
//!
//! - `read_seed`, `seeded`: which texts are seeds, and which bytes a seed gives (`seeded_bytes`).
//!
//! # Choices
//!
//! - **The seed is a text to `clap`**, and is read by `read_seed`, whose contract says of which
//!   texts. A wrong one is answered before any file is opened.

ghost use Rattle.std.specs.Prelude.{◌≡◌, ◌↔◌, length, IsSome, IfSome, IfOk};
ghost use Rattle.std.specs.List.{AllPass};
ghost use Rattle.hex.specs.Hex.{decode_of, is_hex_digit};
ghost use Rattle.rand_core.specs.Steps.{fill_via_u32};
ghost use Rattle.rand_chacha.specs.ChaCha.{key_of, next_word};
ghost use Rattle.command_words.specs.rules.Seeds.{seeded_bytes};

use hex::FromHex;
use rand_chacha::ChaCha20Rng;
use rand_core::SeedableRng;
use rand_core::utils::fill_bytes_via_u32;
use std::alloc::{AllocError, Global};

/// The seed that 64 hexadecimal digits spell, of either case. Other texts spell none.
pub fn read_seed(text: &str) -> Option<[u8; 32]>
    ensures value { IfSome result (λ seed. decode_of text.now ≡ Ok seed) }
    ensures found { IsSome result ↔ ((length text.now ≡ 64) × AllPass is_hex_digit text.now) }
{
    <[u8; 32] as FromHex>::from_hex(text).ok()
}

/// What the generator of this seed fills so many bytes with, from this word of the stream on.
fn fill(
    alloc: Global,
    seed: [u8; 32],
    stream: u64,
    place: u64,
    length: usize,
) -> Result<Vec<u8>, AllocError>
    ensures { IfOk result (λ bytes. bytes.items ≡ (fill_via_u32 (next_word 10) length
        (record { key = key_of seed; stream = stream; word_pos = place })).0) }
{
    let mut generator = ChaCha20Rng::from_seed(seed);
    generator.set_stream(stream);
    generator.set_word_pos(u128::from(place));
    let mut bytes = vec![in alloc; 0u8; length]?;
    fill_bytes_via_u32(&mut generator, bytes.as_mut_slice());
    Ok(bytes)
}

/// So many bytes of the ChaCha20 words of a stream, from the word at `place` on. Each word begins
/// with its low byte, and what the last one has over is dropped. Fails only when out of memory.
pub fn seeded(
    alloc: Global,
    seed: [u8; 32],
    stream: u64,
    place: u64,
    length: usize,
) -> Result<Vec<u8>, AllocError>
    ensures { IfOk result (λ bytes. bytes.items ≡ seeded_bytes seed stream place length) }
{
    fill(alloc, seed, stream, place, length)
}

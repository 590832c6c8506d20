//! The digest of an image that is written piece by piece.
//!
//! A digest is most of what a checkpoint costs (`docs/PERFORMANCE.md`), and a recovery without
//! records saves the image again that it has read. For that `begin` takes an image whose digest is
//! known (`HashedImage`). What is pushed is compared with it, and hashed only from the first piece
//! on that differs. No contract has to say that it is the same image.

ghost use Rattle.std.specs.Prelude.{◌≡◌, ◌↔◌, ◌+◌, ◌≤◌, ◌++◌, [], ℕ, List, IsTrue, length, take};
ghost use Rattle.sha2.specs.Sha256.{sha256};
ghost use Rattle.snapshot.specs.Hashing.{GivesNone, Hashes, HashesAlong};

use crate::hashed_image::{GivenImage, HashedImage};
use disk_layout::DIGEST_BYTES;
use sha2::{Digest, Sha256};

/// Hashes an image that is given piece by piece. Nothing is computed while the pieces are those of
/// an image whose digest is known.
#[derive(Drop)]
pub(crate) struct ImageHasher {
    /// The image that all pieces so far were of, if there is one.
    pub(crate) known: Option<GivenImage>,
    /// Holds all bytes so far, unless there is such an image.
    pub(crate) hasher: Sha256,
}

impl ImageHasher {
    /// Begins an image, which may be the known one again.
    pub(crate) fn new(known: Option<HashedImage>) -> ImageHasher
        ensures { Hashes result [] }
    {
        ImageHasher {
            known: none_given(known),
            hasher: Sha256::new(),
        }
    }

    /// Gives more bytes.
    pub(crate) fn update(&mut self, bytes: &[u8])
        ensures { (before : List ℕ) → Hashes self.old before
            → Hashes self.new (before ++ bytes.now) }
    {
        match self.known.take() {
            Some(known) => self.go_along(known, bytes),
            None => self.hasher.update(bytes),
        }
    }

    /// Gives more bytes, where those before were of this image.
    fn go_along(&mut self, known: GivenImage, bytes: &[u8])
        ensures { (before : List ℕ) → HashesAlong self.old.hasher known before
            → Hashes self.new (before ++ bytes.now) }
    {
        let GivenImage {
            process_image,
            given,
        } = known;
        if follows(process_image.as_slice(), given, bytes) {
            self.known = Some(GivenImage {
                process_image,
                given: given + bytes.len(),
            });
        } else {
            self.known = None;
            self.hasher.update(&process_image.as_slice()[..given]);
            self.hasher.update(bytes);
        }
    }

    /// The digest of all bytes.
    pub(crate) fn finalize(self) -> [u8; DIGEST_BYTES]
        ensures { (bytes : List ℕ) → Hashes self bytes → result ≡ sha256 bytes }
    {
        let ImageHasher { known, hasher } = self;
        match known {
            Some(known) => digest_along(known, hasher),
            None => hasher.finalize(),
        }
    }
}

/// No byte of an image was given.
fn none_given(known: Option<HashedImage>) -> Option<GivenImage>
    ensures { GivesNone known result }
{
    match known {
        Some(process_image) => Some(GivenImage {
            process_image,
            given: 0,
        }),
        None => None,
    }
}

/// Whether these bytes are in the image after so many.
#[tactic(auto, using(crate::proofs::HashingLemmas::next_follow))]
fn follows(process_image: &[u8], given: usize, bytes: &[u8]) -> bool
    requires { given ≤ length process_image.now }
    ensures within { IsTrue result → given + length bytes.now ≤ length process_image.now }
    ensures same { IsTrue result
        → take (given + length bytes.now) process_image.now ≡ take given process_image.now
        ++ bytes.now }
{
    let rest = &process_image[given..];
    if rest.len() < bytes.len() {
        return false;
    }
    are_same(&rest[..bytes.len()], bytes)
}

fn are_same(a: &[u8], b: &[u8]) -> bool
    ensures { IsTrue result ↔ (a.now ≡ b.now) }
{
    a == b
}

/// The digest of the bytes of an image that were given.
fn digest_along(known: GivenImage, hasher: Sha256) -> [u8; DIGEST_BYTES]
    ensures { (bytes : List ℕ) → HashesAlong hasher known bytes → result ≡ sha256 bytes }
{
    let bytes = known.process_image.as_slice();
    if known.given == bytes.len() {
        return known.process_image.digest();
    }
    let mut hasher = hasher;
    hasher.update(&bytes[..known.given]);
    hasher.finalize()
}

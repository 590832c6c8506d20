//! An image whose digest is known.

ghost use Rattle.std.specs.Prelude.{◌≡◌, ◌≤◌, length};
ghost use Rattle.sha2.specs.Sha256.{sha256};

use disk_layout::DIGEST_BYTES;
use std::marker::Model;

/// An image whose digest is known. Contracts see its bytes.
#[derive(Debug, Drop)]
pub struct HashedImage {
    bytes: Vec<u8>,
    digest: [u8; DIGEST_BYTES],
}

impl Model for HashedImage {
    ghost use Rattle.std.specs.Prelude.{◌≡◌, List, ℕ};
    ghost use Rattle.sha2.specs.Sha256.{sha256};

    ghost Value = { List ℕ };

    ghost view = { λ i. i.bytes.items };

    ghost invariant = { λ i. i.digest ≡ sha256 i.bytes.items };
}

impl HashedImage {
    /// These bytes, which have this digest.
    pub(crate) fn new(bytes: Vec<u8>, digest: [u8; DIGEST_BYTES]) -> HashedImage
        requires { digest ≡ sha256 bytes.items }
        ensures { result ≡ bytes.items }
    {
        HashedImage { bytes, digest }
    }

    pub fn as_slice(&self) -> &[u8]
        ensures { result.now ≡ self.now }
    {
        self.bytes.as_slice()
    }

    pub(crate) fn digest(&self) -> [u8; DIGEST_BYTES]
        ensures { result ≡ sha256 self.now }
    {
        self.digest
    }
}

/// An image whose digest is known, and how many of its bytes were given.
#[derive(Drop)]
pub(crate) struct GivenImage {
    pub(crate) process_image: HashedImage,
    pub(crate) given: usize,
    ghost within: { given ≤ length process_image },
}

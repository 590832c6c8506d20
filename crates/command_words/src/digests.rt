//! Digests, digit by digit.

ghost use Rattle.std.specs.Prelude.{◌≡◌};
ghost use Rattle.hex.specs.Hex.{encode_lower};
ghost use Rattle.sha2.specs.Sha256.{sha256};

use sha2::{Digest, Sha256};

/// Digits of a digest.
pub(crate) const DIGITS: usize = 64;

/// The hexadecimal digits of the SHA-256 of these bytes.
pub fn digest_digits(bytes: &[u8]) -> [u8; DIGITS]
    ensures { result ≡ encode_lower (sha256 bytes.now) }
{
    let digest: [u8; 32] = Sha256::digest(bytes);
    let mut digits = [0; DIGITS];
    match hex::encode_to_slice(digest, &mut digits) {
        Ok(()) | Err(_) => digits,
    }
}

//! Hexadecimal digits, and the seal of a body: the digits of its SHA-256. Checkpoints and the lines of parts have it.
ghost use Rattle.std.specs.Prelude.{◌≡◌, Option};
ghost use Rattle.sha2.specs.Sha256.{sha256};
ghost use Rattle.hex.specs.Hex.{encode_lower};
ghost use Rattle.lc_formats.specs.Checkpoint.{digest_in};

use hex::{decode_to_slice, encode_to_slice};
use lc_json::is_same;
use sha2::{Digest, Sha256};

/// Returns the 64 hexadecimal digits of 32 bytes, with lower-case letters.
pub fn digits_of(bytes: &[u8; 32]) -> [u8; 64]
    ensures is { result ≡ encode_lower bytes.now }
{
    let mut digits = [0u8; 64];
    encode_to_slice(bytes, &mut digits).unwrap();
    digits
}

/// Returns the digits of the SHA-256 of a body, its seal.
pub fn seal_of(body: &[u8]) -> [u8; 64]
    ensures is { result ≡ encode_lower (sha256 body.now) }
{
    let mut hasher = Sha256::new();
    hasher.update(body);
    digits_of(&hasher.finalize())
}

/// Returns the 32 bytes that 64 hexadecimal digits with lower-case letters write; nothing for other bytes.
pub fn digest_of(digits: &[u8]) -> Option<[u8; 32]>
    ensures is { result ≡ digest_in digits.now }
{
    let mut bytes = [0u8; 32];
    if decode_to_slice(digits, &mut bytes).is_err() {
        return None;
    }
    if !is_same(digits, &digits_of(&bytes)) {
        return None;
    }
    Some(bytes)
}

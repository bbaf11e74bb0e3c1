//! The hash that names a document: its SHA-256 (FIPS 180-4), as 64 hexadecimal digits in lower case.

ghost use Rattle.std.specs.Prelude.{◌≡◌, IfOk, string_bytes};
ghost use Rattle.std.specs.List.{list_all};
ghost use Rattle.trusted_documents.specs.Hashes.{hash_of, is_hash_of, is_hash, is_hash_digit};

use sha2::{Digest, Sha256};
use std::alloc::{AllocError, Global};

/// The digits of a text's hash, without taking memory.
fn digits_of(text: &str) -> [u8; 64]
    ensures { result ≡ hash_of text.now }
{
    let mut digits = [0u8; 64];
    let _ = hex::encode_to_slice(Sha256::digest(text), &mut digits);
    digits
}

/// The hash of a text.
pub(crate) fn hash_of(alloc: Global, text: &str) -> Result<String, AllocError>
    ensures { IfOk result (λ hash. string_bytes hash ≡ hash_of text.now) }
{
    hex::encode(alloc, Sha256::digest(text))
}

/// Whether this is the hash of the text.
pub(crate) fn is_hash_of(hash: &str, text: &str) -> bool
    ensures { result ≡ is_hash_of hash.now text.now }
{
    hash.as_bytes() == digits_of(text).as_slice()
}

/// Whether a text has the form of a hash.
pub(crate) fn is_hash(text: &str) -> bool
    ensures { result ≡ is_hash text.now }
{
    text.len() == 64 && are_hash_digits(text.as_bytes())
}

fn are_hash_digits(digits: &[u8]) -> bool
    ensures { result ≡ list_all is_hash_digit digits.now }
{
    digits.iter().all(|digit| is_hash_digit(*digit))
}

fn is_hash_digit(digit: u8) -> bool
    ensures { result ≡ is_hash_digit digit }
{
    matches!(digit, b'0'..=b'9' | b'a'..=b'f')
}

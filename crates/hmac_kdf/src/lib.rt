//! HMAC-SHA-256 (RFC 2104, FIPS 180-4) and the key derivation function of TS 33.220 Annex B with
//! the inputs of TS 33.401 Annex A.
#![tactic(auto)]

ghost use Rattle.std.specs.Prelude.{◌≡◌, ◌++◌};
ghost use Rattle.sha2.specs.Sha256.{sha256};
ghost use Rattle.hmac_kdf.specs.declared.input.KdfInput.{KdfInput as Input};
ghost use Rattle.hmac_kdf.specs.Hmac.{hmac as hmac_of};
ghost use Rattle.hmac_kdf.specs.Kdf.{kdf_string, IsKdfInput, kdf as kdf_of};

mod blocks;
mod input;
mod key;

use blocks::{block_of, padded};
pub use input::KdfInput;
pub use key::KdfKey;
use sha2::{Digest, Sha256};

/// HMAC-SHA-256 of a text under a key of any length (RFC 2104).
#[tactic(auto, unfolding(crate::specs::Hmac::hmac))]
pub fn hmac(key: &[u8], text: &[u8]) -> [u8; 32]
    ensures { result ≡ hmac_of key.now text.now }
{
    let block = block_of(key);
    let inner = digest_of(&padded(block, 0x36), text);
    digest_of(&padded(block, 0x5c), &inner)
}

// The digest of two texts taken as one.
fn digest_of(first: &[u8], second: &[u8]) -> [u8; 32]
    ensures { result ≡ sha256 (first.now ++ second.now) }
{
    let mut hasher = Sha256::new();
    hasher.update(first);
    hasher.update(second);
    hasher.finalize()
}

/// The key derived from a key of 32 octets and an input: HMAC-SHA-256 of the input's string S
/// (TS 33.220 B.2). An EARFCN-DL is at most 262143.
pub fn kdf(key: &[u8; 32], input: &KdfInput) -> [u8; 32]
    requires { IsKdfInput input.now }
    ensures { result ≡ kdf_of key.now input.now }
{
    KdfKey::new(key).derive(input)
}

/// The string determines the input: two inputs with one string are equal.
pub fn string_determines_input()
    ensures { (a b : Input) → IsKdfInput a → IsKdfInput b → kdf_string a ≡ kdf_string b → a ≡ b }
{}

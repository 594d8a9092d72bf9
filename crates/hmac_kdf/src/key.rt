ghost use Rattle.std.specs.Prelude.{◌≡◌, ℕ, List, ◌++◌};
ghost use Rattle.sha2.specs.Sha256.{sha256};
ghost use Rattle.sha2.specs.Hashers.{Holds256};
ghost use Rattle.hmac_kdf.specs.Hmac.{key_block, padded_with};
ghost use Rattle.hmac_kdf.specs.Kdf.{IsKdfInput, kdf as kdf_of};

use crate::KdfInput;
use crate::blocks::{block_of, padded};
use sha2::{Digest, Sha256};
use std::marker::Model;

/// A key of 32 octets that derives several keys. What HMAC computes from the key before any text is computed once
/// (RFC 2104, 4), so each key after the first takes two compressions of SHA-256 and not four.
#[derive(Drop)]
pub struct KdfKey {
    key: [u8; 32],
    inner: Sha256,
    outer: Sha256,
}

impl Model for KdfKey {
    ghost use Rattle.std.specs.Prelude.{List, ℕ};
    ghost use Rattle.sha2.specs.Hashers.{Holds256};
    ghost use Rattle.hmac_kdf.specs.Hmac.{key_block, padded_with};

    ghost Value = { List ℕ };

    ghost view = { λ k. k.key };

    ghost invariant = { λ k. Holds256 k.inner (padded_with 0x36 (key_block k.key)) × Holds256 k.outer (padded_with 0x5c (key_block k.key)) };
}

impl KdfKey {
    /// The key of these octets.
    pub fn new(key: &[u8; 32]) -> KdfKey
        ensures { result ≡ key.now }
    {
        let block = block_of(key);
        KdfKey {
            key: *key,
            inner: Sha256::new_with_prefix(&padded(block, 0x36)),
            outer: Sha256::new_with_prefix(&padded(block, 0x5c)),
        }
    }

    /// The octets of the key.
    pub fn octets(&self) -> [u8; 32]
        ensures { result ≡ self.now }
    {
        self.key
    }

    /// The key derived from this key and an input: HMAC-SHA-256 of the input's string S (TS 33.220 B.2).
    #[tactic(auto, unfolding(crate::specs::Kdf::kdf, crate::specs::Hmac::hmac))]
    pub fn derive(&self, input: &KdfInput) -> [u8; 32]
        requires { IsKdfInput input.now }
        ensures { result ≡ kdf_of self.now input.now }
    {
        let inner = ended(&self.inner, input.string().as_slice());
        ended(&self.outer, &inner)
    }
}

// The digest of what a hasher holds and a text behind it.
fn ended(hasher: &Sha256, text: &[u8]) -> [u8; 32]
    ensures { (m : List ℕ) → Holds256 hasher.now m → result ≡ sha256 (m ++ text.now) }
{
    let mut hasher = hasher.clone().unwrap();
    hasher.update(text);
    hasher.finalize()
}

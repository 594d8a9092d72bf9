ghost use Rattle.std.specs.Prelude.{◌≡◌, drop};
ghost use Rattle.hmac_kdf.specs.Kdf.{IsKdfInput, kdf};
ghost use Rattle.annex_a_keys.specs.AlgType.{distinguisher};
ghost use Rattle.annex_a_keys.specs.Derived.{derivation};

use crate::{AlgType, Derived};
use hmac_kdf::{KdfInput, KdfKey};
use std::marker::Model;

/// An algorithm key (TS 33.401 A.7): 32 octets, derived of KASME or KeNB. A 128-bit algorithm takes the last 16.
#[derive(Clone, Copy)]
pub struct AlgKey {
    octets: [u8; 32],
}

impl Model for AlgKey {
    ghost use Rattle.std.specs.Prelude.{List, ℕ};

    ghost Value = { List ℕ };

    ghost view = { λ k. k.octets };

    ghost inverse = { λ octets. record { octets = octets } };
}

// What the unused places of a bounded list hold: zeros.
impl Default for AlgKey {
    ghost use Rattle.std.specs.Prelude.{◌≡◌, replicate};

    ghost is_default = { λ v. v ≡ replicate 32 0 };

    fn default() -> AlgKey {
        AlgKey { octets: [0; 32] }
    }
}

impl AlgKey {
    /// The octets of this key.
    pub fn octets(&self) -> [u8; 32]
        ensures { result ≡ self.now }
    {
        self.octets
    }

    /// The key of a 128-bit algorithm: the last 16 octets (TS 33.401 A.7).
    pub fn key128(&self) -> [u8; 16]
        ensures { result ≡ drop 16 self.now }
    {
        let (_, last) = self.octets.split_at(16);
        let mut key = [0; 16];
        key.copy_from_slice(last);
        key
    }

    // The algorithm key from the octets of KASME or KeNB.
    pub(crate) fn derive(key: &KdfKey, kind: AlgType, id: u8) -> (AlgKey, Derived)
        ensures value { result.0 ≡ kdf key.now (KdfInput.Alg (distinguisher kind) id) }
        ensures derived { result.1 ≡ derivation key.now (KdfInput.Alg (distinguisher kind) id) }
        ensures input { IsKdfInput result.1.input }
    {
        let derived = Derived::of(key, KdfInput::Alg(kind.distinguisher(), id));
        let octets = derived.out;
        (AlgKey { octets }, derived)
    }
}

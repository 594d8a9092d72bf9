ghost use Rattle.std.specs.Prelude.{◌≡◌};
ghost use Rattle.hmac_kdf.specs.Kdf.{IsKdfInput, kdf};
ghost use Rattle.annex_a_keys.specs.AlgType.{distinguisher, IsOfAs};
ghost use Rattle.annex_a_keys.specs.Derived.{derivation};

use crate::{AlgKey, AlgType, Cell, Derived, Star};
use hmac_kdf::{KdfInput, KdfKey};
use std::marker::Model;

/// KeNB, the key of a connection between phone and base station (TS 33.401 6.2): 32 octets.
#[derive(Clone, Copy, PartialEq, Eq)]
pub struct Kenb {
    octets: [u8; 32],
}

impl Model for Kenb {
    ghost use Rattle.std.specs.Prelude.{List, ℕ};

    ghost Value = { List ℕ };

    ghost view = { λ k. k.octets };

    ghost inverse = { λ octets. record { octets = octets } };
}

// What the unused places of a bounded list hold: zeros.
impl Default for Kenb {
    ghost use Rattle.std.specs.Prelude.{◌≡◌, replicate};

    ghost is_default = { λ v. v ≡ replicate 32 0 };

    fn default() -> Kenb {
        Kenb { octets: [0; 32] }
    }
}

impl Kenb {
    /// The KeNB of these octets.
    pub fn of_octets(octets: [u8; 32]) -> Kenb
        ensures { result ≡ octets }
    {
        Kenb { octets }
    }

    /// The octets of this KeNB.
    pub fn octets(&self) -> [u8; 32]
        ensures { result ≡ self.now }
    {
        self.octets
    }

    /// KeNB* for a target cell, derived horizontally (TS 33.401 A.5), and its derivation.
    pub fn star(&self, cell: &Cell) -> (Star, Derived)
        ensures value { result.0 ≡ kdf self.now (KdfInput.Star cell.now.pci cell.now.earfcn) }
        ensures derived { result.1 ≡ derivation self.now (KdfInput.Star cell.now.pci cell.now.earfcn) }
        ensures input { IsKdfInput result.1.input }
    {
        Star::derive(self.octets, cell)
    }

    /// An algorithm key (TS 33.401 A.7) for an algorithm identity, 0 or 2, and its derivation. The type is RRC
    /// encryption, RRC integrity or user-plane encryption.
    pub fn alg(&self, kind: AlgType, id: u8) -> (AlgKey, Derived)
        requires { IsOfAs kind }
        ensures value { result.0 ≡ kdf self.now (KdfInput.Alg (distinguisher kind) id) }
        ensures derived { result.1 ≡ derivation self.now (KdfInput.Alg (distinguisher kind) id) }
        ensures input { IsKdfInput result.1.input }
    {
        self.keyed().alg(kind, id)
    }

    /// This KeNB, ready to derive several algorithm keys.
    pub fn keyed(&self) -> KeyedKenb
        ensures { result ≡ self.now }
    {
        KeyedKenb {
            key: KdfKey::new(&self.octets),
        }
    }
}

/// A KeNB that derives several algorithm keys: each after the first takes half the work.
#[derive(Drop)]
pub struct KeyedKenb {
    key: KdfKey,
}

impl Model for KeyedKenb {
    ghost use Rattle.std.specs.Prelude.{List, ℕ};

    ghost Value = { List ℕ };

    ghost view = { λ k. k.key };
}

impl KeyedKenb {
    /// An algorithm key, as `Kenb::alg` derives it, and its derivation.
    pub fn alg(&self, kind: AlgType, id: u8) -> (AlgKey, Derived)
        requires { IsOfAs kind }
        ensures value { result.0 ≡ kdf self.now (KdfInput.Alg (distinguisher kind) id) }
        ensures derived { result.1 ≡ derivation self.now (KdfInput.Alg (distinguisher kind) id) }
        ensures input { IsKdfInput result.1.input }
    {
        AlgKey::derive(&self.key, kind, id)
    }
}

ghost use Rattle.std.specs.Prelude.{◌≡◌};
ghost use Rattle.hmac_kdf.specs.Kdf.{IsKdfInput, kdf};
ghost use Rattle.annex_a_keys.specs.AlgType.{distinguisher, IsOfNas};
ghost use Rattle.annex_a_keys.specs.Derived.{derivation};

use crate::{AlgKey, AlgType, Derived, Kasme, Kenb, Nh};
use hmac_kdf::{KdfInput, KdfKey};
use std::marker::Model;

/// A KASME that derives several keys: each after the first takes half the work.
#[derive(Drop)]
pub struct KeyedKasme {
    key: KdfKey,
}

impl Model for KeyedKasme {
    ghost use Rattle.std.specs.Prelude.{List, ℕ};

    ghost Value = { List ℕ };

    ghost view = { λ k. k.key };
}

impl KeyedKasme {
    // This KASME, ready to derive.
    pub(crate) fn new(kasme: &Kasme) -> KeyedKasme
        ensures { result ≡ kasme.now }
    {
        KeyedKasme {
            key: KdfKey::new(&kasme.octets()),
        }
    }

    /// The KASME.
    pub fn kasme(&self) -> Kasme
        ensures { result ≡ self.now }
    {
        Kasme::of_octets(self.key.octets())
    }

    /// KeNB, as `Kasme::kenb` derives it, and its derivation.
    pub fn kenb(&self, count: u32) -> (Kenb, Derived)
        ensures value { result.0 ≡ kdf self.now (KdfInput.Kenb count) }
        ensures derived { result.1 ≡ derivation self.now (KdfInput.Kenb count) }
        ensures input { IsKdfInput result.1.input }
    {
        let derived = Derived::of(&self.key, KdfInput::Kenb(count));
        (Kenb::of_octets(derived.out), derived)
    }

    /// The first NH, as `Kasme::nh_first` derives it, and its derivation.
    pub fn nh_first(&self, kenb: &Kenb) -> (Nh, Derived)
        ensures value { result.0 ≡ kdf self.now (KdfInput.Nh kenb.now) }
        ensures derived { result.1 ≡ derivation self.now (KdfInput.Nh kenb.now) }
        ensures input { IsKdfInput result.1.input }
    {
        self.nh(kenb.octets())
    }

    /// A later NH, as `Kasme::nh_next` derives it, and its derivation.
    pub fn nh_next(&self, nh: &Nh) -> (Nh, Derived)
        ensures value { result.0 ≡ kdf self.now (KdfInput.Nh nh.now) }
        ensures derived { result.1 ≡ derivation self.now (KdfInput.Nh nh.now) }
        ensures input { IsKdfInput result.1.input }
    {
        self.nh(nh.octets())
    }

    // The NH with this SYNC-input.
    fn nh(&self, sync: [u8; 32]) -> (Nh, Derived)
        ensures value { result.0 ≡ kdf self.now (KdfInput.Nh sync) }
        ensures derived { result.1 ≡ derivation self.now (KdfInput.Nh sync) }
        ensures input { IsKdfInput result.1.input }
    {
        let derived = Derived::of(&self.key, KdfInput::Nh(sync));
        (Nh::of_octets(derived.out), derived)
    }

    /// A NAS algorithm key, as `Kasme::nas_alg` derives it, and its derivation.
    pub fn nas_alg(&self, kind: AlgType, id: u8) -> (AlgKey, Derived)
        requires { IsOfNas kind }
        ensures value { result.0 ≡ kdf self.now (KdfInput.Alg (distinguisher kind) id) }
        ensures derived { result.1 ≡ derivation self.now (KdfInput.Alg (distinguisher kind) id) }
        ensures input { IsKdfInput result.1.input }
    {
        AlgKey::derive(&self.key, kind, id)
    }
}

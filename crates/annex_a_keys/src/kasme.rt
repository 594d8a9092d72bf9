ghost use Rattle.std.specs.Prelude.{◌≡◌};
ghost use Rattle.hmac_kdf.specs.Kdf.{IsKdfInput, kdf};
ghost use Rattle.annex_a_keys.specs.AlgType.{distinguisher, IsOfNas};
ghost use Rattle.annex_a_keys.specs.Derived.{derivation};

use crate::{AlgKey, AlgType, Derived, Kenb, KeyedKasme, Nh};
use hmac_kdf::KdfInput;
use std::marker::Model;

/// KASME, the root of the keys of one authentication (TS 33.401 6.2): 32 octets.
#[derive(Clone, Copy, PartialEq, Eq)]
pub struct Kasme {
    octets: [u8; 32],
}

impl Model for Kasme {
    ghost use Rattle.std.specs.Prelude.{List, ℕ};

    ghost Value = { List ℕ };

    ghost view = { λ k. k.octets };

    ghost inverse = { λ octets. record { octets = octets } };
}

impl Kasme {
    /// The KASME of these octets.
    pub fn of_octets(octets: [u8; 32]) -> Kasme
        ensures { result ≡ octets }
    {
        Kasme { octets }
    }

    /// The octets of this KASME.
    pub fn octets(&self) -> [u8; 32]
        ensures { result ≡ self.now }
    {
        self.octets
    }

    /// KeNB (TS 33.401 A.3) at an uplink NAS COUNT, of 24 bits in four octets, and its derivation.
    pub fn kenb(&self, count: u32) -> (Kenb, Derived)
        ensures value { result.0 ≡ kdf self.now (KdfInput.Kenb count) }
        ensures derived { result.1 ≡ derivation self.now (KdfInput.Kenb count) }
        ensures input { IsKdfInput result.1.input }
    {
        self.keyed().kenb(count)
    }

    /// The first NH (TS 33.401 A.4), whose SYNC-input is the KeNB, and its derivation.
    pub fn nh_first(&self, kenb: &Kenb) -> (Nh, Derived)
        ensures value { result.0 ≡ kdf self.now (KdfInput.Nh kenb.now) }
        ensures derived { result.1 ≡ derivation self.now (KdfInput.Nh kenb.now) }
        ensures input { IsKdfInput result.1.input }
    {
        self.keyed().nh_first(kenb)
    }

    /// A later NH (TS 33.401 A.4), whose SYNC-input is the NH before, and its derivation.
    pub fn nh_next(&self, nh: &Nh) -> (Nh, Derived)
        ensures value { result.0 ≡ kdf self.now (KdfInput.Nh nh.now) }
        ensures derived { result.1 ≡ derivation self.now (KdfInput.Nh nh.now) }
        ensures input { IsKdfInput result.1.input }
    {
        self.keyed().nh_next(nh)
    }

    /// A NAS algorithm key (TS 33.401 A.7) for an algorithm identity, 0 or 2, and its derivation. The type is NAS
    /// encryption or integrity.
    pub fn nas_alg(&self, kind: AlgType, id: u8) -> (AlgKey, Derived)
        requires { IsOfNas kind }
        ensures value { result.0 ≡ kdf self.now (KdfInput.Alg (distinguisher kind) id) }
        ensures derived { result.1 ≡ derivation self.now (KdfInput.Alg (distinguisher kind) id) }
        ensures input { IsKdfInput result.1.input }
    {
        self.keyed().nas_alg(kind, id)
    }

    /// This KASME, ready to derive several keys.
    pub fn keyed(&self) -> KeyedKasme
        ensures { result ≡ self.now }
    {
        KeyedKasme::new(self)
    }
}

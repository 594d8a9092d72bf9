ghost use Rattle.std.specs.Prelude.{◌≡◌};
ghost use Rattle.hmac_kdf.specs.Kdf.{IsKdfInput, kdf};
ghost use Rattle.annex_a_keys.specs.Derived.{derivation};

use crate::{Cell, Derived, Kenb};
use hmac_kdf::{KdfInput, KdfKey};
use std::marker::Model;

/// KeNB*, the key that a handover makes for its target cell (TS 33.401 A.5): 32 octets.
#[derive(Clone, Copy)]
pub struct Star {
    octets: [u8; 32],
}

impl Model for Star {
    ghost use Rattle.std.specs.Prelude.{List, ℕ};

    ghost Value = { List ℕ };

    ghost view = { λ k. k.octets };

    ghost inverse = { λ octets. record { octets = octets } };
}

impl Star {
    /// The KeNB* of these octets.
    pub fn of_octets(octets: [u8; 32]) -> Star
        ensures { result ≡ octets }
    {
        Star { octets }
    }

    /// The octets of this KeNB*.
    pub fn octets(&self) -> [u8; 32]
        ensures { result ≡ self.now }
    {
        self.octets
    }

    /// The KeNB that this KeNB* becomes in its target cell (TS 33.401 7.2.8): the same octets.
    pub fn install(self) -> Kenb
        ensures { result ≡ self }
    {
        Kenb::of_octets(self.octets)
    }

    // KeNB* from the octets of an NH or a KeNB.
    pub(crate) fn derive(key: [u8; 32], cell: &Cell) -> (Star, Derived)
        ensures value { result.0 ≡ kdf key (KdfInput.Star cell.now.pci cell.now.earfcn) }
        ensures derived { result.1 ≡ derivation key (KdfInput.Star cell.now.pci cell.now.earfcn) }
        ensures input { IsKdfInput result.1.input }
    {
        let derived = Derived::of(
            &KdfKey::new(&key),
            KdfInput::Star(cell.pci(), cell.earfcn()),
        );
        (Star::of_octets(derived.out), derived)
    }
}

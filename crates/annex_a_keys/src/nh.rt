ghost use Rattle.std.specs.Prelude.{◌≡◌};
ghost use Rattle.hmac_kdf.specs.Kdf.{IsKdfInput, kdf};
ghost use Rattle.annex_a_keys.specs.Derived.{derivation};

use crate::{Cell, Derived, Star};
use hmac_kdf::KdfInput;
use std::marker::Model;

/// NH, a next hop of the chain (TS 33.401 7.2.8): 32 octets.
#[derive(Clone, Copy)]
pub struct Nh {
    octets: [u8; 32],
}

impl Model for Nh {
    ghost use Rattle.std.specs.Prelude.{List, ℕ};

    ghost Value = { List ℕ };

    ghost view = { λ k. k.octets };

    ghost inverse = { λ octets. record { octets = octets } };
}

impl Nh {
    /// The NH of these octets.
    pub fn of_octets(octets: [u8; 32]) -> Nh
        ensures { result ≡ octets }
    {
        Nh { octets }
    }

    /// The octets of this NH.
    pub fn octets(&self) -> [u8; 32]
        ensures { result ≡ self.now }
    {
        self.octets
    }

    /// KeNB* for a target cell, derived vertically (TS 33.401 A.5), and its derivation.
    pub fn star(&self, cell: &Cell) -> (Star, Derived)
        ensures value { result.0 ≡ kdf self.now (KdfInput.Star cell.now.pci cell.now.earfcn) }
        ensures derived { result.1 ≡ derivation self.now (KdfInput.Star cell.now.pci cell.now.earfcn) }
        ensures input { IsKdfInput result.1.input }
    {
        Star::derive(self.octets, cell)
    }
}

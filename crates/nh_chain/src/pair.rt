ghost use Rattle.std.specs.Prelude.{◌≡◌, ℕ, ◌≤◌};
ghost use Rattle.hmac_kdf.specs.Kdf.{IsKdfInput};
ghost use Rattle.key_model.specs.Term.{Term};
ghost use Rattle.key_model.specs.Reading.{octet_reading};
ghost use Rattle.key_model.specs.HandoverTable.{chain_key, key_from_pair};
ghost use Rattle.key_model.specs.HandoverLines.{star_line};
ghost use Rattle.key_model.specs.Derivation.{star_made};
ghost use Rattle.key_model.specs.Derivation.{derived_of};
ghost use Rattle.nh_chain.specs.Terms.{in_octets};

use annex_a_keys::{Cell, Derived, Nh, Star};
use std::marker::Model;

/// An unused pair of NH and NCC (TS 33.401 7.2.8.1.1). It moves into its one use and is not copied.
#[derive(Drop)]
pub struct NhPair {
    nh: Nh,
    ncc: u8,
}

impl Model for NhPair {
    ghost use Rattle.std.specs.Prelude.{List, ℕ, ◌≤◌};
    ghost use Rattle.key_model.specs.HandoverTable.{NumberedKey};

    ghost Value = { NumberedKey (List ℕ) ℕ };

    ghost view = { λ p. record { key = p.nh; number = p.ncc } };

    ghost invariant = { λ p. p.ncc ≤ 7 };
}

/// A pair that has given a KeNB*. It gives no other, unless the handover is cancelled and the pair goes
/// back.
#[derive(Drop)]
pub struct Spent {
    pair: NhPair,
}

impl Model for Spent {
    ghost use Rattle.std.specs.Prelude.{List, ℕ};
    ghost use Rattle.key_model.specs.HandoverTable.{NumberedKey};

    ghost Value = { NumberedKey (List ℕ) ℕ };

    ghost view = { λ s. s.pair };
}

impl NhPair {
    /// The pair of an NH and its NCC, 0 to 7.
    pub fn new(nh: Nh, ncc: u8) -> NhPair
        requires { ncc ≤ 7 }
        ensures { result ≡ record { key = nh; number = ncc } }
    {
        NhPair { nh, ncc }
    }

    /// The NCC, 0 to 7.
    pub fn ncc(&self) -> u8
        ensures value { result ≡ self.now.number }
        ensures in_range { result ≤ 7 }
    {
        self.ncc
    }

    /// The NH, as a record carries it to another actor.
    pub fn nh(&self) -> Nh
        ensures { result ≡ self.now.key }
    {
        self.nh
    }

    /// KeNB* for a target cell, derived vertically (TS 33.401 A.5), and its derivation. The pair is
    /// used by it.
    pub fn into_star(self, cell: &Cell) -> (Star, Spent, Derived)
        ensures star { result.0 ≡ (star_line octet_reading self cell.now.pci cell.now.earfcn).key }
        ensures spent { result.1 ≡ self }
        // Of the pair of chain number i: the KeNB* of that number.
        ensures terms { (r : Term) (n i : ℕ) → self ≡ in_octets (chain_key r n i) →
            record { key = result.0; number = self.number }
            ≡ in_octets (key_from_pair r n i cell.now.pci cell.now.earfcn) }
        ensures derived { result.2 ≡ derived_of (star_made octet_reading self.key cell.now.pci cell.now.earfcn) }
        ensures input { IsKdfInput result.2.input }
    {
        let (star, derived) = self.nh.star(cell);
        (star, Spent { pair: self }, derived)
    }
}

impl Spent {
    /// The pair again, where its handover was cancelled.
    pub fn give_back(self) -> NhPair
        ensures { result ≡ self }
    {
        let Spent { pair } = self;
        pair
    }
}

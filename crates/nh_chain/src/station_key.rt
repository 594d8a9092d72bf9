ghost use Rattle.std.specs.Prelude.{◌≡◌, ℕ, ◌≤◌};
ghost use Rattle.hmac_kdf.specs.Kdf.{IsKdfInput};
ghost use Rattle.key_model.specs.Term.{Term};
ghost use Rattle.key_model.specs.Reading.{octet_reading};
ghost use Rattle.key_model.specs.HandoverTable.{active_key, chain_key, key_from_active, key_from_pair};
ghost use Rattle.key_model.specs.Derivation.{derived_of};
ghost use Rattle.nh_chain.specs.Terms.{in_octets};
ghost use Rattle.nh_chain.specs.Station.{given_key, initial_key, opened, restored, stored};

use crate::{NhPair, Spent};
use annex_a_keys::{Cell, Derived, Kenb, Star};
use std::marker::Model;

/// The key of a phone's context at a station: the active KeNB with its NCC, and the unused pair of NH
/// and NCC that is stored, if one is (TS 33.401 7.2.8.4).
#[derive(Default, Drop)]
pub struct StationKey {
    kenb: Kenb,
    ncc: u8,
    pair: Option<NhPair>,
}

impl Model for StationKey {
    ghost use Rattle.std.specs.Prelude.{List, ℕ, ◌≤◌};
    ghost use Rattle.nh_chain.specs.Station.{StationKey as Key};

    ghost Value = { Key (List ℕ) ℕ };

    ghost view = { λ k. record { kenb = k.kenb; number = k.ncc; pair = k.pair } };

    ghost invariant = { λ k. k.ncc ≤ 7 };
}

impl StationKey {
    /// The key of a context that the core set up: NCC 0 and no pair (TS 33.401 7.2.8.1.1).
    pub fn initial(kenb: Kenb) -> StationKey
        ensures { result ≡ initial_key octet_reading kenb }
    {
        StationKey {
            kenb,
            ncc: 0,
            pair: None,
        }
    }

    /// The key of a context that a handover brings: KeNB* as KeNB, its NCC, 0 to 7, and no pair.
    pub fn given(star: Star, ncc: u8) -> StationKey
        requires { ncc ≤ 7 }
        ensures { result ≡ given_key (record { key = star; number = ncc }) }
    {
        StationKey {
            kenb: star.install(),
            ncc,
            pair: None,
        }
    }

    /// Stores a new pair in place of any other (TS 33.401 7.2.8.4.2).
    pub fn store(&mut self, pair: NhPair)
        ensures { self.new ≡ stored self.old pair }
    {
        self.pair = Some(pair);
    }

    /// Starts a handover to a cell: KeNB*, the pair that was used for it, the NCC of KeNB* and its
    /// derivation. A stored pair moves out and gives KeNB* vertically; where none is stored the active
    /// KeNB gives it horizontally, with its own NCC (TS 33.401 7.2.8.4.1 and 7.2.8.4.2).
    pub fn open(&mut self, cell: &Cell) -> (Star, Option<Spent>, u8, Derived)
        ensures key { self.new ≡ (opened octet_reading self.old cell.now).key }
        ensures star { record { key = result.0; number = result.2 } ≡ (opened octet_reading self.old cell.now).star }
        ensures spent { result.1 ≡ self.old.pair }
        // With a stored pair of chain number i: the KeNB* of that number.
        ensures vertical { (r : Term) (n i : ℕ) → self.old.pair ≡ Some (in_octets (chain_key r n i)) →
            record { key = result.0; number = result.2 } ≡ in_octets (key_from_pair r n i cell.now.pci cell.now.earfcn) }
        // With none and the active KeNB t: the KeNB* of its number.
        ensures horizontal { (t : Term) → self.old.pair ≡ None →
            record { key = self.old.kenb; number = self.old.number } ≡ in_octets (active_key t) →
            record { key = result.0; number = result.2 } ≡ in_octets (key_from_active t cell.now.pci cell.now.earfcn) }
        ensures derived { result.3 ≡ derived_of (opened octet_reading self.old cell.now).made }
        ensures input { IsKdfInput result.3.input }
        ensures in_range { result.2 ≤ 7 }
    {
        match self.pair.take() {
            Some(pair) => {
                let ncc = pair.ncc();
                let (star, spent, derived) = pair.into_star(cell);
                (star, Some(spent), ncc, derived)
            }
            None => {
                let (star, derived) = self.kenb.star(cell);
                (star, None, self.ncc, derived)
            }
        }
    }

    /// Takes the pair of a cancelled handover back. Where a newer one is stored, that one stays and
    /// the old one is dropped.
    pub fn restore(&mut self, spent: Spent)
        ensures { self.new ≡ restored self.old spent }
    {
        if self.pair.is_none() {
            self.pair = Some(spent.give_back());
        }
    }

    /// The active KeNB.
    pub fn kenb(&self) -> &Kenb
        ensures { result.now ≡ self.now.kenb }
    {
        &self.kenb
    }

    /// The NCC of the active KeNB, 0 to 7.
    pub fn ncc(&self) -> u8
        ensures value { result ≡ self.now.number }
        ensures in_range { result ≤ 7 }
    {
        self.ncc
    }
}

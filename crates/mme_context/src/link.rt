ghost use Rattle.std.specs.Prelude.{◌≡◌, ◌≤◌, ◌∷◌, map};
ghost use Rattle.key_model.specs.Derivation.{derived_of, kenb_made, nh_made};
ghost use Rattle.key_model.specs.Reading.{octet_reading};
ghost use Rattle.lte_machine.specs.CoreKeys.{chain_from, nh_kept};
ghost use Rattle.nh_chain.specs.Chain.{present_pair, stepped};

use annex_a_keys::{Derived, Kasme, Kenb};
use lte_events::FirstNcc;
use nh_chain::{CoreChain, NhPair};
use rec_base::Few;
use std::marker::Model;

// A connection: its number, its chain of NH and NCC, and the station where the phone is.
#[derive(Drop)]
pub(crate) struct Link {
    pub(crate) conn: u32,
    pub(crate) chain: CoreChain,
    pub(crate) station: u8,
}

impl Model for Link {
    ghost use Rattle.std.specs.Prelude.{List, ℕ, ◌≤◌};
    ghost use Rattle.lte_machine.specs.CoreState.{CoreLink};

    ghost Value = { CoreLink (List ℕ) ℕ };

    ghost view = { λ l. record { conn = l.conn; chain = l.chain; station = l.station } };

    ghost invariant = { λ l. (1 ≤ l.conn) × (l.station ≤ 7) };
}

impl Link {
    // The next pair of the chain, and its derivation (TS 33.401 A.4).
    pub(crate) fn step(&mut self) -> (NhPair, Derived)
        ensures link { self.new ≡ record self.old { chain = stepped octet_reading self.old.chain } }
        ensures pair { result.0 ≡ present_pair (stepped octet_reading self.old.chain) }
        ensures derived { result.1 ≡ derived_of (nh_made octet_reading self.old.chain.root self.old.chain.sync) }
    {
        self.chain.step()
    }

    // The phone is at this station now.
    pub(crate) fn move_to(&mut self, station: u8)
        requires { station ≤ 7 }
        ensures { self.new ≡ record self.old { station = station } }
    {
        self.station = station;
    }
}

// A chain as it begins: its KeNB, and what was derived for it, KeNB first.
#[derive(Drop)]
pub(crate) struct Begun {
    pub(crate) chain: CoreChain,
    pub(crate) kenb: Kenb,
    pub(crate) made: Few<Derived, 2>,
}

// The chain of a KASME and an uplink NAS COUNT. A core whose first pair has NCC 2 derives the NH of NCC 1
// now, and keeps it (TS 33.401 7.2.8.1.1 and A.3).
pub(crate) fn begin(root: &Kasme, count: u32, first_ncc: FirstNcc) -> Begun
    ensures kenb { result.kenb ≡ octet_reading.kenb root.now count }
    ensures chain { result.chain ≡ chain_from octet_reading first_ncc root.now (octet_reading.kenb root.now count) }
    ensures made { result.made ≡ map derived_of
        (kenb_made octet_reading root.now count ∷ nh_kept octet_reading first_ncc root.now (octet_reading.kenb root.now count)) }
{
    let (mut chain, kenb, first) = CoreChain::begin(root, count);
    let mut made = Few::new();
    made.push(first);
    match first_ncc {
        FirstNcc::One => Begun { chain, kenb, made },
        FirstNcc::Two => {
            let (_, second) = chain.step();
            made.push(second);
            Begun { chain, kenb, made }
        }
    }
}

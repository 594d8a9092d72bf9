ghost use Rattle.std.specs.Prelude.{◌≡◌, ℕ, ◌+◌, ◌-◌, ◌≤◌, All, length, map};
ghost use Rattle.hmac_kdf.specs.Kdf.{IsKdfInput};
ghost use Rattle.key_model.specs.Term.{Term};
ghost use Rattle.key_model.specs.Chain.{ncc_of};
ghost use Rattle.key_model.specs.Value.{value_of};
ghost use Rattle.key_model.specs.Reading.{octet_reading};
ghost use Rattle.key_model.specs.HandoverTable.{initial_key, key_at_phone};
ghost use Rattle.key_model.specs.HandoverLines.{phone_line, steps_to};
ghost use Rattle.key_model.specs.Derivation.{star_made};
ghost use Rattle.nh_chain.specs.Chain.{begun};
ghost use Rattle.nh_chain.specs.Climb.{base_by, way_by};
ghost use Rattle.nh_chain.specs.Reach.{handover_made, phone_of, reached, way_after};
ghost use Rattle.key_model.specs.Derivation.{derived_of};
ghost use Rattle.nh_chain.specs.Terms.{chain_at, chain_in_octets};

use crate::chain::Chain;
use annex_a_keys::{Cell, Derived, Kasme, Kenb, Nh, Star};
use arrayvec::ArrayVec;
use rec_base::Way;
use std::marker::Model;

/// The chain of a connection at the phone (TS 33.401 7.2.8.1.1).
#[derive(Drop)]
pub struct PhoneChain {
    chain: Chain,
}

impl Model for PhoneChain {
    ghost use Rattle.std.specs.Prelude.{List, ℕ};
    ghost use Rattle.nh_chain.specs.Chain.{ChainState};

    ghost Value = { ChainState (List ℕ) ℕ };

    ghost view = { λ c. c.chain };
}

impl PhoneChain {
    /// The chain of a new connection with this KeNB.
    pub fn begin(root: &Kasme, kenb: &Kenb) -> PhoneChain
        ensures chain { result ≡ begun octet_reading root.now kenb.now }
        // Of a KASME that is known as a term, and its KeNB, it is that KASME's chain, at number 0.
        ensures terms { (r : Term) (n : ℕ) → root.now ≡ value_of r → kenb.now ≡ value_of (initial_key r n).key →
            result ≡ chain_in_octets (chain_at r n 0) }
    {
        PhoneChain {
            chain: Chain::new(root.keyed(), kenb),
        }
    }

    /// Obeys a handover command with this NCC, 0 to 7, for a cell: KeNB*, the way to it, and the
    /// derivations in order, each NH and then KeNB* (TS 33.401 7.2.8.4.4).
    ///
    /// The chain steps to the least number at or above its own with the NCC. Where that is its own,
    /// KeNB* is derived horizontally from the active KeNB, and else vertically from the NH reached.
    pub fn reach(
        &mut self,
        active: &Kenb,
        ncc: u8,
        cell: &Cell,
    ) -> (Star, Way, ArrayVec<Derived, 8>)
        requires { ncc ≤ 7 }
        ensures star { record { key = result.0; number = self.new.number }
            ≡ phone_line octet_reading (phone_of self.old active.now) ncc cell.now.pci cell.now.earfcn }
        ensures chain { self.new ≡ (reached octet_reading self.old active.now ncc cell.now).chain }
        // At chain number p with the active KeNB t, on the NCC of chain number i, it derives the term and
        // comes to the chain number that the phone's line of the handover table has.
        ensures terms { (r t : Term) (n p i : ℕ) →
            self.old ≡ chain_in_octets (chain_at r n p) → active.now ≡ value_of t → ncc ≡ ncc_of i →
            let line = key_at_phone r n t p i cell.now.pci cell.now.earfcn in
            (result.0 ≡ value_of line.key) × (self.new ≡ chain_in_octets (chain_at r n line.number)) }
        // In whole chain numbers its NH steps are as many as lie from p to the number of that line, each with
        // its derivation, and KeNB* is derived last; after none the way is horizontal, and else vertical.
        ensures steps { (r t : Term) (n p i : ℕ) →
            self.old ≡ chain_in_octets (chain_at r n p) → active.now ≡ value_of t → ncc ≡ ncc_of i →
            let steps = (key_at_phone r n t p i cell.now.pci cell.now.earfcn).number - p in
            (result.2.items ≡ map derived_of (handover_made octet_reading (phone_of self.old active.now) steps cell.now))
            × (length result.2.items ≡ steps + 1) × (result.1 ≡ way_after steps) }
        ensures way { result.1 ≡ (reached octet_reading self.old active.now ncc cell.now).way }
        ensures made { result.2.items ≡ map derived_of (reached octet_reading self.old active.now ncc cell.now).made }
        ensures inputs { All (λ d. IsKdfInput d.input) result.2.items }
        ensures ncc { self.new.number ≡ ncc }
    {
        let steps = self.chain.steps_to(ncc);
        let (nh, mut made) = self.chain.climb(steps);
        let (star, way, derived) = star_from(active, nh, cell);
        made.push(derived);
        (star, way, made)
    }

    /// Whether it is a chain of this KASME.
    pub fn is_of(&self, root: &Kasme) -> bool
        ensures { result ≡ octet_reading.same root.now self.now.root }
    {
        self.chain.is_of(root)
    }

    /// The NCC of the present key, 0 to 7.
    pub fn ncc(&self) -> u8
        ensures value { result ≡ self.now.number }
        ensures in_range { result ≤ 7 }
    {
        self.chain.ncc()
    }
}

// KeNB* from the NH that was reached, or else from the active KeNB.
fn star_from(active: &Kenb, nh: Option<Nh>, cell: &Cell) -> (Star, Way, Derived)
    ensures star { result.0 ≡ octet_reading.star (base_by nh active.now) cell.now.pci cell.now.earfcn }
    ensures way { result.1 ≡ way_by nh }
    ensures derived { result.2 ≡ derived_of (star_made octet_reading (base_by nh active.now) cell.now.pci cell.now.earfcn) }
    ensures input { IsKdfInput result.2.input }
{
    match nh {
        None => {
            let (star, derived) = active.star(cell);
            (star, Way::Horizontal, derived)
        }
        Some(nh) => {
            let (star, derived) = nh.star(cell);
            (star, Way::Vertical, derived)
        }
    }
}

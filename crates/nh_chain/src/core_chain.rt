ghost use Rattle.std.specs.Prelude.{◌≡◌, ℕ, ◌+◌, ◌≤◌};
ghost use Rattle.hmac_kdf.specs.Kdf.{IsKdfInput};
ghost use Rattle.key_model.specs.Term.{Term};
ghost use Rattle.key_model.specs.Value.{value_of};
ghost use Rattle.key_model.specs.Reading.{octet_reading};
ghost use Rattle.key_model.specs.HandoverTable.{initial_key, next_pair};
ghost use Rattle.key_model.specs.HandoverLines.{pair_line};
ghost use Rattle.key_model.specs.Derivation.{kenb_made, nh_made};
ghost use Rattle.nh_chain.specs.Chain.{begun, present_pair, stepped};
ghost use Rattle.key_model.specs.Derivation.{derived_of};
ghost use Rattle.nh_chain.specs.Terms.{chain_at, chain_in_octets, in_octets};

use crate::NhPair;
use crate::chain::Chain;
use annex_a_keys::{Derived, Kasme, Kenb};
use std::marker::Model;

/// The chain of a connection at the core, which makes each pair of NH and NCC (TS 33.401 7.2.8.1.1).
#[derive(Drop)]
pub struct CoreChain {
    chain: Chain,
}

impl Model for CoreChain {
    ghost use Rattle.std.specs.Prelude.{List, ℕ};
    ghost use Rattle.nh_chain.specs.Chain.{ChainState};

    ghost Value = { ChainState (List ℕ) ℕ };

    ghost view = { λ c. c.chain };
}

impl CoreChain {
    /// The chain of a new connection, its KeNB at an uplink NAS COUNT, of 24 bits, and the derivation of that
    /// (TS 33.401 A.3).
    pub fn begin(root: &Kasme, count: u32) -> (CoreChain, Kenb, Derived)
        ensures chain { result.0 ≡ begun octet_reading root.now result.1 }
        ensures kenb { result.1 ≡ octet_reading.kenb root.now count }
        ensures derived { result.2 ≡ derived_of (kenb_made octet_reading root.now count) }
        // Of a KASME that is known as a term it is that KASME's chain, at number 0.
        ensures terms { (r : Term) → root.now ≡ value_of r →
            (result.0 ≡ chain_in_octets (chain_at r count 0)) × (result.1 ≡ value_of (initial_key r count).key) }
        ensures input { IsKdfInput result.2.input }
    {
        let root = root.keyed();
        let (kenb, derived) = root.kenb(count);
        let chain = Chain::new(root, &kenb);
        (CoreChain { chain }, kenb, derived)
    }

    /// The next pair, one NH step on, and its derivation (TS 33.401 A.4, 7.2.8.4.2 and 7.2.8.4.3).
    pub fn step(&mut self) -> (NhPair, Derived)
        ensures chain { self.new ≡ stepped octet_reading self.old }
        ensures pair { result.0 ≡ pair_line octet_reading self.old.root (present_pair self.old) }
        // From chain number i it comes to i + 1, and the pair is that of i + 1.
        ensures terms { (r : Term) (n i : ℕ) → self.old ≡ chain_in_octets (chain_at r n i) →
            (self.new ≡ chain_in_octets (chain_at r n (i + 1))) × (result.0 ≡ in_octets (next_pair r n i)) }
        ensures derived { result.1 ≡ derived_of (nh_made octet_reading self.old.root self.old.sync) }
        ensures input { IsKdfInput result.1.input }
    {
        let (nh, derived) = self.chain.step();
        (NhPair::new(nh, self.chain.ncc()), derived)
    }

    /// The NCC of the present key, 0 to 7.
    pub fn ncc(&self) -> u8
        ensures value { result ≡ self.now.number }
        ensures in_range { result ≤ 7 }
    {
        self.chain.ncc()
    }
}

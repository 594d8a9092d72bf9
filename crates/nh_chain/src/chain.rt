// The chain of NH keys below one KASME, as the core and a phone both keep it.
ghost use Rattle.std.specs.Prelude.{◌≡◌, ◌≤◌, All, map};
ghost use Rattle.arrayvec.specs.ArrayVec.{array_vec_len};
ghost use Rattle.hmac_kdf.specs.Kdf.{IsKdfInput};
ghost use Rattle.key_model.specs.HandoverLines.{steps_to};
ghost use Rattle.key_model.specs.Reading.{octet_reading};
ghost use Rattle.key_model.specs.Derivation.{nh_made};
ghost use Rattle.nh_chain.specs.Chain.{begun, climbed, nhs_made, number_after, stepped};
ghost use Rattle.nh_chain.specs.Climb.{nh_reached};
ghost use Rattle.key_model.specs.Derivation.{derived_of};

use annex_a_keys::{Derived, Kasme, Kenb, KeyedKasme, Nh};
use arrayvec::ArrayVec;
use std::marker::Model;

// The SYNC-input of the next NH.
#[derive(Drop)]
pub(crate) enum SyncInput {
    // For the first NH.
    First(Kenb),
    // For each later one: the NH before.
    Later(Nh),
}

// KASME, the SYNC-input of the next NH, and the NCC of that input.
#[derive(Drop)]
pub(crate) struct Chain {
    root: KeyedKasme,
    sync: SyncInput,
    ncc: u8,
}

impl Model for Chain {
    ghost use Rattle.std.specs.Prelude.{List, ℕ, ◌≤◌};
    ghost use Rattle.nh_chain.specs.Chain.{ChainState};
    ghost use Rattle.nh_chain.specs.SyncInput.{sync_octets};

    ghost Value = { ChainState (List ℕ) ℕ };

    ghost view = { λ c. record { root = c.root; sync = sync_octets c.sync; number = c.ncc } };

    ghost invariant = { λ c. c.ncc ≤ 7 };
}

impl Chain {
    // The chain of a KeNB.
    pub(crate) fn new(root: KeyedKasme, kenb: &Kenb) -> Chain
        ensures { result ≡ begun octet_reading root kenb.now }
    {
        Chain {
            root,
            sync: SyncInput::First(*kenb),
            ncc: 0,
        }
    }

    // Whether it is a chain of this KASME.
    pub(crate) fn is_of(&self, root: &Kasme) -> bool
        ensures { result ≡ octet_reading.same root.now self.now.root }
    {
        *root == self.root.kasme()
    }

    // The NCC of the present key, 0 to 7.
    pub(crate) fn ncc(&self) -> u8
        ensures value { result ≡ self.now.number }
        ensures in_range { result ≤ 7 }
    {
        self.ncc
    }

    // The next NH.
    pub(crate) fn step(&mut self) -> (Nh, Derived)
        ensures chain { self.new ≡ stepped octet_reading self.old }
        ensures nh { result.0 ≡ self.new.sync }
        ensures derived { result.1 ≡ derived_of (nh_made octet_reading self.old.root self.old.sync) }
        ensures input { IsKdfInput result.1.input }
    {
        let (nh, derived) = match &self.sync {
            SyncInput::First(kenb) => self.root.nh_first(kenb),
            SyncInput::Later(nh) => self.root.nh_next(nh),
        };
        self.sync = SyncInput::Later(nh);
        self.ncc = (self.ncc + 1) % 8;
        (nh, derived)
    }

    // The NH steps to the least number at or above the present one with this NCC.
    pub(crate) fn steps_to(&self, ncc: u8) -> u8
        requires { ncc ≤ 7 }
        ensures steps { result ≡ steps_to self.now.number ncc }
        ensures there { number_after octet_reading self.now.number result ≡ ncc }
        ensures few { result ≤ 7 }
    {
        (ncc + 8 - self.ncc) % 8
    }

    // So many NH steps: the NH reached, if there is one, and each derivation.
    pub(crate) fn climb(&mut self, steps: u8) -> (Option<Nh>, ArrayVec<Derived, 8>)
        requires { steps ≤ 7 }
        ensures chain { self.new ≡ climbed octet_reading self.old steps }
        ensures nh { result.0 ≡ nh_reached octet_reading self.old.root self.old.sync steps }
        ensures made { result.1.items ≡ map derived_of (nhs_made octet_reading self.old.root self.old.sync steps) }
        ensures len { array_vec_len result.1 ≡ steps }
        ensures inputs { All (λ d. IsKdfInput d.input) result.1.items }
    {
        let mut reached = None;
        let mut made = ArrayVec::new();
        for _ in 0..steps {
            let (nh, derived) = self.step();
            reached = Some(nh);
            made.push(derived);
        }
        (reached, made)
    }
}

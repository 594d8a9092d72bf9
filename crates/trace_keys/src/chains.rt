ghost use Rattle.std.specs.Prelude.{◌≡◌};
ghost use Rattle.key_model.specs.Reading.{octet_reading};
ghost use Rattle.key_model.specs.HandoverLines.{change_line, star_line};
ghost use Rattle.nh_chain.specs.Chain.{present_pair, stepped};
ghost use Rattle.nh_chain.specs.Station.{given_key, initial_key, opened, restored_if, stored};
ghost use Rattle.trace_keys.specs.Moved.{chain_of};

use annex_a_keys::{Cell, Kasme, Kenb};
use std::marker::Model;

/// A key and its NCC.
#[derive(Clone, Copy)]
pub struct Numbered {
    pub(crate) key: Kenb,
    pub(crate) ncc: u8,
}

impl Model for Numbered {
    ghost use Rattle.std.specs.Prelude.{List, ℕ};
    ghost use Rattle.key_model.specs.HandoverTable.{NumberedKey};

    ghost Value = { NumberedKey (List ℕ) ℕ };

    ghost view = { λ n. record { key = n.key; number = n.ncc } };

    ghost inverse = { λ n. record { key = n.key; ncc = n.number } };
}

impl Numbered {
    /// A key and its NCC.
    pub fn new(key: Kenb, ncc: u8) -> Numbered
        ensures { result ≡ record { key = key; number = ncc } }
    {
        Numbered { key, ncc }
    }

    // KeNB* of a new KeNB for a cell, with which the chain begins.
    pub(crate) fn changed(kenb: &Kenb, cell: &Cell) -> Numbered
        ensures { result ≡ change_line octet_reading kenb.now cell.now.pci cell.now.earfcn }
    {
        let (star, _derived) = kenb.star(cell);
        Numbered {
            key: star.install(),
            ncc: 0,
        }
    }

    /// KeNB* of this key for a cell, with its NCC.
    pub fn star(&self, cell: &Cell) -> Numbered
        ensures { result ≡ star_line octet_reading self.now cell.now.pci cell.now.earfcn }
    {
        let (star, _derived) = self.key.star(cell);
        Numbered {
            key: star.install(),
            ncc: self.ncc,
        }
    }
}

/// The core's chain.
#[derive(Clone, Copy)]
pub struct Chain {
    pub(crate) root: Kasme,
    pub(crate) sync: Kenb,
    pub(crate) ncc: u8,
}

impl Model for Chain {
    ghost use Rattle.std.specs.Prelude.{List, ℕ};
    ghost use Rattle.nh_chain.specs.Chain.{ChainState};

    ghost Value = { ChainState (List ℕ) ℕ };

    ghost view = { λ c. record { root = c.root; sync = c.sync; number = c.ncc } };

    ghost inverse = { λ c. record { root = c.root; sync = c.sync; ncc = c.number } };
}

impl Chain {
    // The chain of a KeNB, at its beginning or one step on.
    pub(crate) fn new(root: &Kasme, kenb: &Kenb, early: bool) -> Chain
        ensures { result ≡ chain_of octet_reading root.now kenb.now early }
    {
        let begun = Chain {
            root: *root,
            sync: *kenb,
            ncc: 0,
        };
        if early { begun.step() } else { begun }
    }

    /// One NH step on.
    pub fn step(&self) -> Chain
        ensures { result ≡ stepped octet_reading self.now }
    {
        let (nh, _derived) = self.root.nh_first(&self.sync);
        Chain {
            root: self.root,
            sync: Kenb::of_octets(nh.octets()),
            ncc: (self.ncc % 8 + 1) % 8,
        }
    }

    /// The key of the present number.
    pub fn pair(&self) -> Numbered
        ensures { result ≡ present_pair self.now }
    {
        Numbered {
            key: self.sync,
            ncc: self.ncc,
        }
    }
}

/// What a station holds: the key in use, and the pair that it may have stored.
#[derive(Clone, Copy)]
pub struct Held {
    pub(crate) kenb: Kenb,
    pub(crate) ncc: u8,
    pub(crate) pair: Option<Numbered>,
}

impl Model for Held {
    ghost use Rattle.std.specs.Prelude.{List, ℕ};
    ghost use Rattle.nh_chain.specs.Station.{StationKey};

    ghost Value = { StationKey (List ℕ) ℕ };

    ghost view = { λ h. record { kenb = h.kenb; number = h.ncc; pair = h.pair } };

    ghost inverse = { λ h. record { kenb = h.kenb; ncc = h.number; pair = h.pair } };
}

impl Held {
    /// A KeNB of the first number.
    pub fn initial(kenb: &Kenb) -> Held
        ensures { result ≡ initial_key octet_reading kenb.now }
    {
        Held {
            kenb: *kenb,
            ncc: 0,
            pair: None,
        }
    }

    /// A KeNB* as the key in use.
    pub fn given(star: &Numbered) -> Held
        ensures { result ≡ given_key star.now }
    {
        Held {
            kenb: star.key,
            ncc: star.ncc,
            pair: None,
        }
    }

    /// With the pair of a handover that was cancelled, where it used one.
    pub fn restoring(&self, spent: &Option<Numbered>) -> Held
        ensures { result ≡ restored_if self.now spent.now }
    {
        match spent {
            Some(back) => match &self.pair {
                None => self.storing(back),
                Some(_) => *self,
            },
            None => *self,
        }
    }

    /// With a new pair.
    pub fn storing(&self, pair: &Numbered) -> Held
        ensures { result ≡ stored self.now pair.now }
    {
        Held {
            kenb: self.kenb,
            ncc: self.ncc,
            pair: Some(*pair),
        }
    }

    /// What is held once a handover is opened.
    pub fn spent(&self, cell: &Cell) -> Held
        ensures { result ≡ (opened octet_reading self.now cell.now).key }
    {
        Held {
            kenb: self.kenb,
            ncc: self.ncc,
            pair: None,
        }
    }

    /// The KeNB* of a handover: of the pair, or else of the key in use.
    pub fn star(&self, cell: &Cell) -> Numbered
        ensures { result ≡ (opened octet_reading self.now cell.now).star }
    {
        match &self.pair {
            Some(pair) => pair.star(cell),
            None => {
                let base = Numbered {
                    key: self.kenb,
                    ncc: self.ncc,
                };
                base.star(cell)
            }
        }
    }
}

ghost use Rattle.std.specs.Prelude.{◌≡◌, Some, None};
ghost use Rattle.trace_keys.specs.Moved as by;

use crate::Where;
use crate::chains::{Chain, Held, Numbered};
use annex_a_keys::{Cell, Kenb};
use std::marker::Model;

/// A station that a handover is prepared at.
#[derive(Clone, Copy)]
pub struct Target {
    pub(crate) station: u8,
    pub(crate) cell: Cell,
    pub(crate) star: Numbered,
    pub(crate) spent: Option<Numbered>,
}

impl Model for Target {
    ghost use Rattle.std.specs.Prelude.{List, ℕ};
    ghost use Rattle.trace_keys.specs.Net.{Target as TargetOf};

    ghost Value = { TargetOf (List ℕ) ℕ };

    ghost view = { λ t. record { station = t.station; cell = t.cell; star = t.star; spent = t.spent } };

    ghost inverse = { λ t. record { station = t.station; cell = t.cell; star = t.star; spent = t.spent } };
}

/// A key change that was sent and not taken.
#[derive(Clone, Copy)]
pub struct Offer {
    pub(crate) kasme: u8,
    pub(crate) count: u32,
    pub(crate) kenb: Kenb,
    pub(crate) core: Chain,
}

impl Model for Offer {
    ghost use Rattle.std.specs.Prelude.{List, ℕ};
    ghost use Rattle.trace_keys.specs.Net.{Offer as OfferOf};

    ghost Value = { OfferOf (List ℕ) ℕ };

    ghost view = { λ o. record { kasme = o.kasme; count = o.count; kenb = o.kenb; core = o.core } };

    ghost inverse = { λ o. record { kasme = o.kasme; count = o.count; kenb = o.kenb; core = o.core } };
}

/// A phone that is connected.
#[derive(Clone, Copy)]
pub struct Serving {
    pub(crate) core: Chain,
    pub(crate) station: u8,
    pub(crate) cell: Cell,
    pub(crate) key: Held,
    pub(crate) target: Option<Target>,
    pub(crate) offer: Option<Offer>,
}

impl Model for Serving {
    ghost use Rattle.std.specs.Prelude.{List, ℕ};
    ghost use Rattle.trace_keys.specs.Net.{Serving as ServingOf};

    ghost Value = { ServingOf (List ℕ) ℕ };

    ghost view = { λ s. record { core = s.core; station = s.station; cell = s.cell; key = s.key; target = s.target; offer = s.offer } };

    ghost inverse = { λ s. record { core = s.core; station = s.station; cell = s.cell; key = s.key; target = s.target; offer = s.offer } };
}

/// What the network holds for one phone.
#[derive(Clone, Copy)]
pub struct Net {
    pub(crate) kasme: u8,
    pub(crate) count: u32,
    pub(crate) serving: Option<Serving>,
}

impl Model for Net {
    ghost use Rattle.std.specs.Prelude.{List, ℕ};
    ghost use Rattle.trace_keys.specs.Net.{Net as NetOf};

    ghost Value = { NetOf (List ℕ) ℕ };

    ghost view = { λ n. record { kasme = n.kasme; count = n.count; serving = n.serving } };

    ghost inverse = { λ n. record { kasme = n.kasme; count = n.count; serving = n.serving } };
}

/// A message where a tap may stand, and the key that it carries.
#[derive(Clone, Copy)]
pub struct Sight {
    pub(crate) at: Where,
    pub(crate) pair: Option<Numbered>,
}

impl Model for Sight {
    ghost use Rattle.std.specs.Prelude.{List, ℕ};
    ghost use Rattle.trace_keys.specs.Net.{Sight as SightOf};

    ghost Value = { SightOf (List ℕ) };

    ghost view = { λ s. record { at = s.at; pair = s.pair } };

    ghost inverse = { λ s. record { at = s.at; pair = s.pair } };
}

/// What a move leaves, and what it sends.
#[derive(Clone, Copy)]
pub struct Done {
    pub(crate) net: Net,
    pub(crate) sent: Option<Sight>,
}

impl Model for Done {
    ghost use Rattle.std.specs.Prelude.{List, ℕ};
    ghost use Rattle.trace_rules.specs.Rules.{Done as DoneOf};
    ghost use Rattle.trace_keys.specs.Net.{Net as NetOf, Sight as SightOf};

    ghost Value = { DoneOf (NetOf (List ℕ) ℕ) (SightOf (List ℕ)) };

    ghost view = { λ d. record { net = d.net; sent = d.sent } };

    ghost inverse = { λ d. record { net = d.net; sent = d.sent } };
}

impl Sight {
    /// A message, and the key that it carries.
    pub fn new(at: Where, pair: Option<Numbered>) -> Sight
        ensures { result ≡ record { at = at; pair = pair } }
    {
        Sight { at, pair }
    }

    /// A KeNB, which goes without an NCC.
    pub(crate) fn of_kenb(at: Where, kenb: Kenb) -> Sight
        ensures { result ≡ by.sighted_kenb at kenb }
    {
        Sight {
            at,
            pair: Some(Numbered { key: kenb, ncc: 0 }),
        }
    }

    /// Where it goes.
    pub fn at(&self) -> &Where
        ensures { result.now ≡ self.now.at }
    {
        &self.at
    }

    /// The key that it carries, with its NCC.
    pub fn pair(&self) -> &Option<Numbered>
        ensures { result.now ≡ self.now.pair }
    {
        &self.pair
    }
}

impl Net {
    /// A phone that is not connected, with this KASME, from a COUNT on.
    pub fn idle(kasme: u8, count: u32) -> Net
        ensures { result ≡ record { kasme = kasme; count = count; serving = None } }
    {
        Net {
            kasme,
            count,
            serving: None,
        }
    }

    // The same KASME and COUNT, with this connection.
    pub(crate) fn with_serving(&self, serving: Serving) -> Net
        ensures { result ≡ by.with_serving self.now serving }
    {
        Net {
            kasme: self.kasme,
            count: self.count,
            serving: Some(serving),
        }
    }
}

impl Done {
    /// What the move leaves.
    pub fn net(&self) -> &Net
        ensures { result.now ≡ self.now.net }
    {
        &self.net
    }

    /// What it sends.
    pub fn sent(&self) -> &Option<Sight>
        ensures { result.now ≡ self.now.sent }
    {
        &self.sent
    }
}

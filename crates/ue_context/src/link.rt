use annex_a_keys::Kenb;
use nh_chain::PhoneChain;
use pdcp_guard::AsKeys;
use radio_bearers::Bearers;
use std::marker::Model;

// A connection: the station and the air address there, the chain, the key of the present cell, the keys of
// the access stratum, the bearers, and whether it came by a handover or a key change.
#[derive(Drop)]
pub(crate) struct Link {
    pub(crate) station: u8,
    pub(crate) air: u32,
    pub(crate) chain: PhoneChain,
    pub(crate) kenb: Kenb,
    pub(crate) keys: AsKeys,
    pub(crate) bearers: Bearers,
    pub(crate) by_handover: bool,
}

impl Model for Link {
    ghost use Rattle.std.specs.Prelude.{List, ℕ};
    ghost use Rattle.lte_machine.specs.PhoneState.{Link as Connection};

    ghost Value = { Connection (List ℕ) ℕ };

    ghost view = { λ l. record {
      station = l.station;
      air = l.air;
      chain = l.chain;
      kenb = l.kenb;
      keys = l.keys;
      bearers = l.bearers;
      by_handover = l.by_handover;
    } };
}

use crate::attempt::Attempt;
use crate::origin::Origin;
use alg_choice::{Algs, Caps};
use annex_a_keys::Cell;
use nh_chain::StationKey;
use pdcp_guard::AsKeys;
use radio_bearers::Bearers;
use std::marker::Model;

// The context of the phone: its connection, cell and air address, its key, algorithms, keys of the
// access stratum and capabilities, whether its security still starts, its bearers, the attempt if there
// is one, the path switch request whose answer is outstanding, and the X2 handover that it came by.
#[derive(Drop)]
pub(crate) struct Context {
    pub(crate) conn: u32,
    pub(crate) cell: Cell,
    pub(crate) air: u32,
    pub(crate) key: StationKey,
    pub(crate) algs: Algs,
    pub(crate) keys: AsKeys,
    pub(crate) caps: Caps,
    pub(crate) starting: bool,
    pub(crate) bearers: Bearers,
    pub(crate) attempt: Option<Attempt>,
    pub(crate) outstanding: Option<u32>,
    pub(crate) origin: Option<Origin>,
}

impl Model for Context {
    ghost use Rattle.std.specs.Prelude.{List, ℕ, ◌≤◌, ◌<◌, ◌^◌, option_map};
    ghost use Rattle.lte_machine.specs.StationState.{Context as Served};
    ghost use Rattle.enb_context.specs.Attempt.{attempt_of};

    ghost Value = { Served (List ℕ) ℕ };

    ghost view = { λ c. record {
      conn = c.conn;
      cell = c.cell;
      air = c.air;
      key = c.key;
      algs = c.algs;
      keys = c.keys;
      caps = c.caps;
      starting = c.starting;
      bearers = c.bearers;
      attempt = option_map attempt_of c.attempt;
      outstanding = c.outstanding;
      origin = c.origin;
    } };

    ghost invariant = { λ c.
        (1 ≤ c.conn) × (c.conn < 2 ^ 32) × (c.caps.eea < 256) × (c.caps.eia < 256) };
}

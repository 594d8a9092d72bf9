use crate::By;
use alg_choice::{Algs, Caps};
use annex_a_keys::Cell;
use nh_chain::StationKey;
use pdcp_guard::AsKeys;
use std::marker::Model;

/// What a target station keeps for a phone that may come to one of its cells (TS 33.401 7.2.8.4). No
/// bearer is in it, so nothing is sent from it.
#[derive(Drop)]
pub struct Prep {
    /// The number of the phone's connection, at least 1.
    pub conn: u32,
    /// The source station, 0 to 7.
    pub source: u8,
    /// The number of the source's attempt, at least 1.
    pub attempt: u32,
    /// How the preparation came.
    pub by: By,
    /// The target cell.
    pub cell: Cell,
    /// The air address that was drawn for the phone, at least 1.
    pub air: u32,
    /// The key of the context to come.
    pub key: StationKey,
    /// The chosen algorithms.
    pub algs: Algs,
    /// The keys of the access stratum.
    pub keys: AsKeys,
    /// The phone's capabilities.
    pub caps: Caps,
}

impl Model for Prep {
    ghost use Rattle.std.specs.Prelude.{List, ℕ};
    ghost use Rattle.ho_prep.specs.Prep.{Prep as PrepOf};

    ghost Value = { PrepOf (List ℕ) ℕ };

    ghost view = { λ p. record {
      conn = p.conn;
      source = p.source;
      attempt = p.attempt;
      by = p.by;
      cell = p.cell;
      air = p.air;
      key = p.key;
      algs = p.algs;
      keys = p.keys;
      caps = p.caps;
    } };

    ghost use Rattle.std.specs.Prelude.{◌≤◌, ◌<◌, ◌^◌};
    ghost use Rattle.ho_prep.specs.Origin.{IsOrigin};

    ghost invariant = { λ p.
        (1 ≤ p.conn)
        × (p.conn < 2 ^ 32)
        × (p.source ≤ 7)
        × (1 ≤ p.attempt)
        × (p.attempt < 2 ^ 32)
        × (1 ≤ p.air)
        × (p.caps.eea < 256)
        × (p.caps.eia < 256)
        × IsOrigin p.by };
}

// What the unused places of a bounded list of preparations hold.
impl Default for Prep {
    ghost use Rattle.std.specs.Prelude.{◌≡◌};
    ghost use Rattle.ho_prep.specs.Prep.{unused};

    ghost is_default = { λ v. v ≡ unused };

    fn default() -> Prep {
        Prep {
            conn: 1,
            source: 0,
            attempt: 1,
            by: By::default(),
            cell: Cell::default(),
            air: 1,
            key: StationKey::default(),
            algs: Algs::default(),
            keys: AsKeys::default(),
            caps: Caps::default(),
        }
    }
}

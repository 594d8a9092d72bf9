use crate::Cells;
use alg_choice::{Caps, Eea, Priority};
use rec_base::Few;

/// What a station starts with.
#[derive(Clone, Copy, PartialEq, Eq)]
pub struct StationSetup {
    /// Its number, 0 to 7.
    pub id: u8,
    /// The encryption algorithms that it may choose, in order.
    pub priority: Priority,
    /// The first number that it draws, at least 1.
    pub first: u32,
}

// What the unused places of a bounded list of stations hold.
impl Default for StationSetup {
    ghost use Rattle.std.specs.Prelude.{◌≡◌, [], ◌∷◌};
    ghost use Rattle.alg_choice.specs.declared.algs.Eea.TheVariants.{Eea0};

    ghost is_default = { λ v. v ≡ record { id = 0; priority = Eea0 ∷ []; first = 1 } };

    fn default() -> StationSetup {
        StationSetup {
            id: 0,
            priority: Priority::new(Eea::Eea0, None),
            first: 1,
        }
    }
}

/// The NCC of the first pair of NH and NCC that a core sends for a chain (TS 33.401 7.2.8.1.1).
#[derive(Clone, Copy, PartialEq, Eq)]
pub enum FirstNcc {
    /// 1, this project's own rule: each NH is derived as it is sent.
    One,
    /// 2, as the standard has it: the NH of NCC 1 is derived as the chain begins, and kept.
    Two,
}

/// What a system of one phone, its stations and one core starts with.
#[derive(Clone, PartialEq, Eq, Drop)]
pub struct Setup {
    /// The capabilities of the phone.
    pub caps: Caps,
    /// The encryption algorithms that the core may choose, in order.
    pub core_priority: Priority,
    /// The first connection number that the core draws, at least 1.
    pub core_first: u32,
    /// The NCC of the first pair that the core sends for a chain.
    pub core_first_ncc: FirstNcc,
    /// The stations, at most 8.
    pub stations: Few<StationSetup, 8>,
    /// The cells of all stations.
    pub cells: Cells,
}

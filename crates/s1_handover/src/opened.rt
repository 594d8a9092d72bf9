ghost use Rattle.std.specs.Prelude.{◌≡◌, ◌≤◌};

use crate::S1Ready;
use alg_choice::Algs;
use annex_a_keys::Cell;
use std::marker::Model;

/// An attempt that the core has not answered. It has no key, since the core gives the target its pair.
#[derive(Drop)]
pub struct S1Open {
    number: u32,
    station: u8,
    cell: Cell,
}

impl Model for S1Open {
    ghost use Rattle.std.specs.Prelude.{◌≤◌};
    ghost use Rattle.s1_handover.specs.Attempt.{S1Start};

    ghost Value = { S1Start };

    ghost view = { λ a. record { number = a.number; station = a.station; cell = a.cell } };

    ghost invariant = { λ a. (1 ≤ a.number) × (a.station ≤ 7) };
}

impl S1Open {
    /// The attempt of this number, at least 1, at a handover to a station, 0 to 7, and its cell.
    pub fn new(number: u32, station: u8, cell: Cell) -> S1Open
        requires number { 1 ≤ number }
        requires station { station ≤ 7 }
        ensures { result ≡ record { number = number; station = station; cell = cell } }
    {
        S1Open {
            number,
            station,
            cell,
        }
    }

    /// The attempt with the answer that the core passed on: the NCC of the target's pair, 0 to 7, the
    /// algorithms that the target chose, and the air address that it drew, at least 1.
    pub fn acked(self, ncc: u8, algs: Algs, air: u32) -> S1Ready
        requires ncc { ncc ≤ 7 }
        requires air { 1 ≤ air }
        ensures { result ≡ record { start = self; ncc = ncc; algs = algs; air = air } }
    {
        S1Ready::new(self, ncc, algs, air)
    }

    /// Ends the attempt.
    pub fn cancel(self) {}

    /// The attempt's number, at least 1.
    pub fn number(&self) -> u32
        ensures value { result ≡ self.now.number }
        ensures in_range { 1 ≤ result }
    {
        self.number
    }

    /// The target station, 0 to 7.
    pub fn station(&self) -> u8
        ensures value { result ≡ self.now.station }
        ensures in_range { result ≤ 7 }
    {
        self.station
    }

    /// The target cell.
    pub fn cell(&self) -> Cell
        ensures { result ≡ self.now.cell }
    {
        self.cell
    }
}

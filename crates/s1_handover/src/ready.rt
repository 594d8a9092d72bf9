ghost use Rattle.std.specs.Prelude.{◌≡◌, ◌≤◌};
ghost use Rattle.x2_handover.specs.InRange.{InRange};
ghost use Rattle.s1_handover.specs.Attempt.{s1_order, s1_sent};

use crate::{S1Commanded, S1Open};
use alg_choice::Algs;
use annex_a_keys::Cell;
use std::marker::Model;
use x2_handover::Order;

/// What the phone is told at an S1 handover: the same as at one over X2.
pub type Order1 = Order;

/// An attempt that the target has acknowledged. It may be cancelled, or command the phone.
#[derive(Drop)]
pub struct S1Ready {
    start: S1Open,
    ncc: u8,
    algs: Algs,
    air: u32,
}

impl Model for S1Ready {
    ghost use Rattle.std.specs.Prelude.{◌≤◌};
    ghost use Rattle.s1_handover.specs.Attempt.{S1Acked};

    ghost Value = { S1Acked };

    ghost view = { λ a. record { start = a.start; ncc = a.ncc; algs = a.algs; air = a.air } };

    ghost invariant = { λ a. (a.ncc ≤ 7) × (1 ≤ a.air) };
}

impl S1Ready {
    // An open attempt with the core's answer.
    pub(crate) fn new(start: S1Open, ncc: u8, algs: Algs, air: u32) -> S1Ready
        requires ncc { ncc ≤ 7 }
        requires air { 1 ≤ air }
        ensures { result ≡ record { start = start; ncc = ncc; algs = algs; air = air } }
    {
        S1Ready {
            start,
            ncc,
            algs,
            air,
        }
    }

    /// Ends the attempt.
    pub fn cancel(self) {}

    /// The phone's order, and the attempt that has commanded it. From here on it cannot be cancelled.
    pub fn command(self) -> (S1Commanded, Order1)
        ensures commanded { result.0 ≡ s1_sent self }
        ensures order { result.1 ≡ s1_order self }
        ensures in_range { InRange result.1 }
    {
        let order = Order {
            cell: self.start.cell(),
            ncc: self.ncc,
            algs: self.algs,
            station: self.start.station(),
            air: self.air,
        };
        (S1Commanded::new(self.start.number(), &order), order)
    }

    /// The attempt's number, at least 1.
    pub fn number(&self) -> u32
        ensures value { result ≡ self.now.start.number }
        ensures in_range { 1 ≤ result }
    {
        self.start.number()
    }

    /// The target station, 0 to 7.
    pub fn station(&self) -> u8
        ensures value { result ≡ self.now.start.station }
        ensures in_range { result ≤ 7 }
    {
        self.start.station()
    }

    /// The target cell.
    pub fn cell(&self) -> Cell
        ensures { result ≡ self.now.start.cell }
    {
        self.start.cell()
    }
}

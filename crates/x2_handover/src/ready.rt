ghost use Rattle.std.specs.Prelude.{◌≡◌, ◌≤◌};
ghost use Rattle.key_model.specs.Reading.{octet_reading};
ghost use Rattle.x2_handover.specs.Attempt.{x2_order, x2_sent};
ghost use Rattle.x2_handover.specs.InRange.{InRange};

use crate::{Order, X2Commanded, X2Open};
use alg_choice::Algs;
use annex_a_keys::Cell;
use nh_chain::Spent;
use std::marker::Model;

/// An attempt that the target has acknowledged. It may be cancelled, or command the phone.
#[derive(Drop)]
pub struct X2Ready {
    start: X2Open,
    algs: Algs,
    air: u32,
}

impl Model for X2Ready {
    ghost use Rattle.std.specs.Prelude.{List, ℕ, ◌≤◌};
    ghost use Rattle.x2_handover.specs.Attempt.{X2Acked};

    ghost Value = { X2Acked (List ℕ) ℕ };

    ghost view = { λ a. record { start = a.start; algs = a.algs; air = a.air } };

    ghost invariant = { λ a. 1 ≤ a.air };
}

impl X2Ready {
    // An open attempt with the target's answer.
    pub(crate) fn new(start: X2Open, algs: Algs, air: u32) -> X2Ready
        requires { 1 ≤ air }
        ensures { result ≡ record { start = start; algs = algs; air = air } }
    {
        X2Ready { start, algs, air }
    }

    /// Ends the attempt: the pair that was used, if one was.
    pub fn cancel(self) -> Option<Spent>
        ensures { result ≡ self.start.spent }
    {
        self.start.cancel()
    }

    /// The phone's order, and the attempt that has commanded it. From here on it cannot be cancelled,
    /// so the pair that was used is gone.
    pub fn command(self) -> (X2Commanded, Order)
        ensures commanded { result.0 ≡ x2_sent octet_reading.ncc self }
        ensures order { result.1 ≡ x2_order octet_reading.ncc self }
        ensures in_range { InRange result.1 }
    {
        let order = Order {
            cell: self.start.cell(),
            ncc: self.start.ncc(),
            algs: self.algs,
            station: self.start.station(),
            air: self.air,
        };
        (X2Commanded::new(self.start.number(), &order), order)
    }

    /// The attempt's number, at least 1.
    pub fn number(&self) -> u32
        ensures value { result ≡ self.now.start.number }
        ensures in_range { 1 ≤ result }
    {
        self.start.number()
    }

    /// The target station, 0 to 7.
    pub fn station(&self) -> u8
        ensures value { result ≡ self.now.start.station }
        ensures in_range { result ≤ 7 }
    {
        self.start.station()
    }

    /// The target cell.
    pub fn cell(&self) -> Cell
        ensures { result ≡ self.now.start.cell }
    {
        self.start.cell()
    }
}

ghost use Rattle.std.specs.Prelude.{◌≡◌, ◌≤◌};

use crate::X2Ready;
use alg_choice::Algs;
use annex_a_keys::{Cell, Star};
use nh_chain::Spent;
use std::marker::Model;

/// An attempt that the target has not answered. A pair that was used for it lies in it, and goes back
/// where the attempt is cancelled. An attempt within the station is acknowledged at once (TS 33.401
/// 7.2.8.4.1).
#[derive(Drop)]
pub struct X2Open {
    number: u32,
    station: u8,
    cell: Cell,
    star: Star,
    ncc: u8,
    spent: Option<Spent>,
}

impl Model for X2Open {
    ghost use Rattle.std.specs.Prelude.{List, ℕ, ◌≤◌};
    ghost use Rattle.x2_handover.specs.Attempt.{X2Start};

    ghost Value = { X2Start (List ℕ) ℕ };

    ghost view = { λ a. record {
      number = a.number;
      station = a.station;
      cell = a.cell;
      star = record { key = a.star; number = a.ncc };
      spent = a.spent;
    } };

    ghost invariant = { λ a. (1 ≤ a.number) × (a.station ≤ 7) × (a.ncc ≤ 7) };
}

impl X2Open {
    /// The attempt of this number, at least 1, at a handover to a station, 0 to 7, and its cell, with
    /// KeNB* and its NCC, 0 to 7, and the pair that was used for KeNB*, if one was.
    pub fn new(
        number: u32,
        station: u8,
        cell: Cell,
        star: Star,
        ncc: u8,
        spent: Option<Spent>,
    ) -> X2Open
        requires number { 1 ≤ number }
        requires station { station ≤ 7 }
        requires ncc { ncc ≤ 7 }
        ensures { result ≡ record {
          number = number;
          station = station;
          cell = cell;
          star = record { key = star; number = ncc };
          spent = spent;
        } }
    {
        X2Open {
            number,
            station,
            cell,
            star,
            ncc,
            spent,
        }
    }

    /// The attempt with the target's answer: the algorithms that it chose and the air address that it
    /// drew, at least 1.
    pub fn acked(self, algs: Algs, air: u32) -> X2Ready
        requires { 1 ≤ air }
        ensures { result ≡ record { start = self; algs = algs; air = air } }
    {
        X2Ready::new(self, algs, air)
    }

    /// Ends the attempt: the pair that was used, if one was.
    pub fn cancel(self) -> Option<Spent>
        ensures { result ≡ self.spent }
    {
        self.spent
    }

    /// The attempt's number, at least 1.
    pub fn number(&self) -> u32
        ensures value { result ≡ self.now.number }
        ensures in_range { 1 ≤ result }
    {
        self.number
    }

    /// The target station, 0 to 7.
    pub fn station(&self) -> u8
        ensures value { result ≡ self.now.station }
        ensures in_range { result ≤ 7 }
    {
        self.station
    }

    /// The target cell.
    pub fn cell(&self) -> Cell
        ensures { result ≡ self.now.cell }
    {
        self.cell
    }

    // The NCC of KeNB*, 0 to 7.
    pub(crate) fn ncc(&self) -> u8
        ensures value { result ≡ self.now.star.number }
        ensures in_range { result ≤ 7 }
    {
        self.ncc
    }
}

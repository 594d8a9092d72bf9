ghost use Rattle.std.specs.Prelude.{◌≡◌, ◌≤◌};
ghost use Rattle.x2_handover.specs.InRange.{InRange};

use crate::Order;
use annex_a_keys::Cell;
use std::marker::Model;

/// An attempt that has commanded the phone. The command may be sent again.
#[derive(Drop)]
pub struct X2Commanded {
    number: u32,
    order: Order,
}

impl Model for X2Commanded {
    ghost use Rattle.std.specs.Prelude.{◌≤◌};
    ghost use Rattle.x2_handover.specs.Attempt.{Commanded};

    ghost Value = { Commanded };

    ghost use Rattle.x2_handover.specs.InRange.{InRange};

    ghost view = { λ a. record {
      number = a.number;
      station = a.order.station;
      cell = a.order.cell;
      order = a.order;
    } };

    ghost invariant = { λ a. (1 ≤ a.number) × InRange a.order };
}

impl X2Commanded {
    // The attempt of this number with the order that it gave.
    pub(crate) fn new(number: u32, order: &Order) -> X2Commanded
        requires number { 1 ≤ number }
        requires order { InRange order.now }
        ensures { result ≡ record {
          number = number;
          station = order.now.station;
          cell = order.now.cell;
          order = order.now;
        } }
    {
        X2Commanded {
            number,
            order: *order,
        }
    }

    /// The same order again.
    pub fn again(&self) -> Order
        ensures order { result ≡ self.now.order }
        ensures in_range { InRange result }
    {
        self.order
    }

    /// The attempt's number, at least 1.
    pub fn number(&self) -> u32
        ensures value { result ≡ self.now.number }
        ensures in_range { 1 ≤ result }
    {
        self.number
    }

    /// The target station, 0 to 7.
    pub fn station(&self) -> u8
        ensures value { result ≡ self.now.station }
        ensures in_range { result ≤ 7 }
    {
        self.order.station
    }

    /// The target cell.
    pub fn cell(&self) -> Cell
        ensures { result ≡ self.now.cell }
    {
        self.order.cell
    }
}

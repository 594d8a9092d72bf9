ghost use Rattle.std.specs.Prelude.{◌≡◌};
ghost use Rattle.rrc_rec.specs.Spelling.{InRange};
ghost use Rattle.lte_machine.specs.StationState.{Renewing};
ghost use Rattle.lte_machine.specs.StationRecords.{order_record};

use rrc_rec::RrcRecord;
use std::marker::Model;
use x2_handover::Order;

// A change of the context's key, whose order was sent at once (TS 33.401 7.2.9.2): the number of the
// attempt, and the order, for the cell and algorithms of the context.
#[derive(Drop)]
pub(crate) struct Renewal {
    pub(crate) number: u32,
    pub(crate) order: Order,
}

impl Model for Renewal {
    ghost use Rattle.std.specs.Prelude.{◌≤◌};
    ghost use Rattle.x2_handover.specs.InRange.{InRange as IsOrder};
    ghost use Rattle.enb_context.specs.Renewal.{Renewal as Change};

    ghost Value = { Change };

    ghost view = { λ a. record { number = a.number; order = a.order } };

    ghost invariant = { λ a. (1 ≤ a.number) × IsOrder a.order };
}

impl Renewal {
    // The text of its order (TS 36.331 5.3.5.4).
    pub(crate) fn text(&self) -> RrcRecord
        ensures text { result ≡ order_record Renewing self.now.order }
        ensures in_range { InRange result }
    {
        RrcRecord::KeyChange {
            cell: self.order.cell,
            algs: self.order.algs,
            station: self.order.station,
            air: self.order.air,
        }
    }
}

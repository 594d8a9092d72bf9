use annex_a_keys::{Kasme, Kenb};
use std::marker::Model;

// A phone that waits for the security of its connection: the KASME of the NAS message that asked for it,
// and KeNB of the COUNT of that message (TS 33.401 7.2.8.1.1 and A.3).
#[derive(Drop)]
pub(crate) struct Waiting {
    pub(crate) root: Kasme,
    pub(crate) kenb: Kenb,
}

impl Model for Waiting {
    ghost use Rattle.std.specs.Prelude.{List, ℕ};
    ghost use Rattle.lte_machine.specs.PhoneState.{Waiting as Awaited};

    ghost Value = { Awaited (List ℕ) };

    ghost view = { λ w. record { root = w.root; kenb = w.kenb } };
}

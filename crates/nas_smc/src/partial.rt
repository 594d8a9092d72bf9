use annex_a_keys::Kasme;
use std::marker::Model;

// A partial context: the KSI and KASME that an authentication left (TS 24.301 4.4.2).
#[derive(Drop)]
pub(crate) struct Partial {
    pub(crate) ksi: u8,
    pub(crate) root: Kasme,
}

impl Model for Partial {
    ghost use Rattle.std.specs.Prelude.{List, ℕ};
    ghost use Rattle.lte_machine.specs.PhoneState.{Partial as Left};

    ghost Value = { Left (List ℕ) };

    ghost view = { λ p. record { ksi = p.ksi; root = p.root } };
}

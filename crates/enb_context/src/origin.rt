use std::marker::Model;

// The X2 handover by which a phone came: its source, 0 to 7, and the number of its attempt, at least 1.
#[derive(Clone, Copy)]
pub(crate) struct Origin {
    pub(crate) source: u8,
    pub(crate) attempt: u32,
}

impl Model for Origin {
    ghost use Rattle.std.specs.Prelude.{◌≤◌, ◌<◌, ◌^◌};
    ghost use Rattle.lte_machine.specs.Reply.{Origin as From};

    ghost Value = { From };

    ghost view = { λ o. record { source = o.source; attempt = o.attempt } };

    ghost invariant = { λ o. (o.source ≤ 7) × (1 ≤ o.attempt) × (o.attempt < 2 ^ 32) };

    ghost inverse = { λ o. record { source = o.source; attempt = o.attempt } };
}

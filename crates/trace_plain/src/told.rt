use std::marker::Model;
use trace_keys::Move;

/// A move, and whether a tap has its message.
#[derive(Clone, Copy)]
pub struct Told {
    by: Move,
    seen: bool,
}

impl Model for Told {
    ghost use Rattle.trace_rules.specs.Told.{Told as ToldOf};
    ghost use Rattle.trace_keys.specs.declared.moves.Move.{Move as AMove};

    ghost Value = { ToldOf AMove };

    ghost view = { λ t. record { move = t.by; seen = t.seen } };

    ghost inverse = { λ t. record { by = t.move; seen = t.seen } };
}

impl Told {
    ghost use Rattle.std.specs.Prelude.{◌≡◌};

    /// A move, and whether a tap has its message.
    pub(crate) fn new(by: Move, seen: bool) -> Told
        ensures { result ≡ record { move = by; seen = seen } }
    {
        Told { by, seen }
    }

    /// The move.
    pub fn by(&self) -> &Move
        ensures { result.now ≡ self.now.move }
    {
        &self.by
    }

    /// Whether a tap has its message.
    pub fn seen(&self) -> bool
        ensures { result ≡ self.now.seen }
    {
        self.seen
    }
}

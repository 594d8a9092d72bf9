ghost use Rattle.std.specs.Prelude.{ℕ, []};
ghost use Rattle.edge_io.specs.Script.{Script, script_of};

/// A form over memory. It has no call of its own: it says which of the form's reads, writes or
/// calls on peers fail, and how many octets a sink keeps at the most.
pub trait Scripted {
    ghost reads: { Self → Script } = { λ _. script_of [] };

    ghost writes: { Self → Script } = { λ _. script_of [] };

    ghost peer_calls: { Self → Script } = { λ _. script_of [] };

    ghost room: { Self → ℕ } = { λ _. 0 };
}

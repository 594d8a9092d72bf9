ghost use Rattle.edge_io.specs.Told.{Told};

/// An object of the outside. It has no call of its own: it says what is known of the object at a
/// moment, as a source of octets and as a sink.
pub trait Edge {
    ghost told: { Self → Told };
}

use key_terms::Proof;

/// Why a world does not answer with a line.
#[derive(Clone, Copy, Drop)]
pub enum WorldFault {
    /// Memory ran out.
    Memory,
    /// A coincidence: two keys, or two uses of keys, are equal by chance. It ends the world.
    Chance(Proof),
}

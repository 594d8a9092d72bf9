use std::alloc::AllocError;

/// Why a search came to no end. It says nothing of the capture.
#[derive(Clone, Copy, Drop)]
pub enum Unsearched {
    /// Memory ran out.
    Memory,
    /// More nets are possible than are kept.
    TooMany,
}

impl From<AllocError> for Unsearched {
    ghost use Rattle.std.specs.Prelude.{◌≡◌};
    ghost use Rattle.trace_plain.specs.declared.unsearched.Unsearched.TheVariants.{Memory};

    ghost from_gives = { λ _ why. why ≡ Memory };

    fn from(_fault: AllocError) -> Unsearched {
        Unsearched::Memory
    }
}

ghost use Rattle.std.specs.Prelude.{◌≡◌};
ghost use Rattle.core_relocation.specs.Acted.{acted};

use lte_events::{Line, Who};

/// What is answered to an event of a system with two cores.
#[derive(Drop)]
pub enum TwoLine {
    /// The line of the event, and the core that acted, if only a core did.
    By(Line, Option<u8>),
    /// The event asks this core, which does not hold the context; where a record came to it, it is not to get it
    /// either.
    NotHere(u8),
}

// The core that acted, if a core alone did.
pub(crate) fn acted(who: Who, core: u8) -> Option<u8>
    ensures { result ≡ acted who core }
{
    match who {
        Who::Core => Some(core),
        _ => None,
    }
}

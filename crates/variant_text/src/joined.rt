ghost use Rattle.growth.specs.Growth.{WasRefused};
ghost use Rattle.std.specs.Prelude.{◌≡◌, OnErr, OnOk};
ghost use Rattle.variant_text.specs.Joined.{joined};

use std::alloc::AllocError;

/// Puts a part behind a text, with a separator between where there is a text.
#[tactic(auto, unfolding(crate::specs::Joined::joined))]
pub(crate) fn join(text: &mut Vec<u8>, between: &[u8], part: &[u8]) -> Result<(), AllocError>
    ensures joined { OnOk result (text.new.items ≡ joined between.now text.old.items part.now) }
    ensures refused { OnErr result WasRefused }
{
    if !text.is_empty() {
        growth::extend_from_slice(text, between)?;
    }
    growth::extend_from_slice(text, part)
}

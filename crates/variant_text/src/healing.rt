ghost use Rattle.growth.specs.Growth.{WasRefused};
ghost use Rattle.std.specs.Prelude.{◌≡◌, ◌++◌, OnErr, OnOk};
ghost use Rattle.variant_text.specs.Healing.{heals_name, heals_text};

use item_outcomes::Heals;
use std::alloc::AllocError;

/// What heals a phone, in words.
pub(crate) fn heals_name(heals: Heals) -> &'static str
    ensures { result.now ≡ heals_name heals }
{
    match heals {
        Heals::Reconnection => "reconnection",
        Heals::Authentication => "authentication",
        Heals::Nothing => "nothing",
    }
}

/// Puts it behind a text, where it is told.
pub(crate) fn add_heals(text: &mut Vec<u8>, heals: Option<Heals>) -> Result<(), AllocError>
    ensures added { OnOk result (text.new.items ≡ text.old.items ++ heals_text heals) }
    ensures refused { OnErr result WasRefused }
{
    match heals {
        Some(heals) => {
            growth::extend_from_slice(text, b", heals ")?;
            growth::extend_from_slice(text, heals_name(heals).as_bytes())
        }
        None => Ok(()),
    }
}

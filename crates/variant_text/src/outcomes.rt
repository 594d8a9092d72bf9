ghost use Rattle.growth.specs.Growth.{WasRefused};
ghost use Rattle.std.specs.Prelude.{◌≡◌, IfOk, OnErr, OnOk, codes};
ghost use Rattle.item_outcomes.specs.Outcomes.{word_of};
ghost use Rattle.variant_text.specs.Joined.{joined};
ghost use Rattle.variant_text.specs.Outcomes.{outcomes_text};

use crate::joined::join;
use item_outcomes::Outcome;
use std::alloc::{AllocError, Global};

// Puts an outcome behind those so far.
fn add(text: &mut Vec<u8>, outcome: Outcome) -> Result<(), AllocError>
    ensures added { OnOk result (text.new.items ≡ joined (codes "; ") text.old.items (word_of outcome)) }
    ensures refused { OnErr result WasRefused }
{
    join(text, b"; ", outcome.word().as_bytes())
}

/// The outcomes of a variant, with a semicolon between.
#[tactic(auto, unfolding(crate::specs::Outcomes::outcomes_from))]
pub(crate) fn outcomes_text(alloc: Global, outcomes: &[Outcome]) -> Result<Vec<u8>, AllocError>
    ensures text { IfOk result (λ text. text.items ≡ outcomes_text outcomes.now) }
    ensures refused { OnErr result WasRefused }
{
    let mut text = Vec::new(alloc);
    for outcome in outcomes {
        add(&mut text, *outcome)?;
    }
    Ok(text)
}

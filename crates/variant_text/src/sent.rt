ghost use Rattle.growth.specs.Growth.{WasRefused};
ghost use Rattle.std.specs.Prelude.{◌≡◌, ◌++◌, IfOk, OnErr, OnOk};
ghost use Rattle.std.specs.String.{string_bytes};
ghost use Rattle.variant_text.specs.Sent.{digit, digits, sent_text, serving_text};

use item_outcomes::Verdict;
use std::alloc::{AllocError, Global};

fn digit(sent: bool) -> u8
    ensures { result ≡ digit sent }
{
    if sent { b'1' } else { b'0' }
}

// Puts the digit of each line behind a text.
fn add_digits(text: &mut Vec<u8>, sent: &[bool]) -> Result<(), AllocError>
    ensures added { OnOk result (text.new.items ≡ text.old.items ++ digits sent.now) }
    ensures refused { OnErr result WasRefused }
{
    for line in sent {
        growth::reserve(text, 1)?;
        text.push_reserved(digit(*line));
    }
    Ok(())
}

#[tactic(auto, unfolding(crate::specs::Sent::serving_text))]
fn serving_text(alloc: Global, serving: u8) -> Result<String, AllocError>
    ensures text { IfOk result (λ text. string_bytes text ≡ serving_text serving) }
    ensures refused { OnErr result WasRefused }
{
    growth::format(alloc, format_args!(", serving {serving}, sent "))
}

/// Puts the station that serves, and which lines sent, behind a text, where it is asked for.
pub(crate) fn add_sent(
    alloc: Global,
    text: &mut Vec<u8>,
    asked: bool,
    verdict: &Verdict,
) -> Result<(), AllocError>
    ensures added { OnOk result (text.new.items ≡ text.old.items ++ sent_text asked verdict.now) }
    ensures refused { OnErr result WasRefused }
{
    if !asked {
        return Ok(());
    }
    let station = serving_text(alloc, verdict.serving())?;
    growth::extend_from_slice(text, station.as_bytes())?;
    add_digits(text, verdict.sent())
}

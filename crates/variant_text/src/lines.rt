ghost use Rattle.growth.specs.Growth.{WasRefused};
ghost use Rattle.std.specs.Prelude.{◌≡◌, IfOk, OnErr};
ghost use Rattle.std.specs.String.{string_bytes};
ghost use Rattle.variant_text.specs.Lines.{end_line, keys_line, lost_line, message_line, scenario_line, trouble_line, variant_line};

use crate::faults::faults_text;
use crate::healing::{add_heals, heals_name};
use crate::messages::message_name;
use crate::outcomes::outcomes_text;
use crate::sent::add_sent;
use item_faults::{Fault, Message};
use item_outcomes::{Heals, Trouble, Verdict};
use std::alloc::{AllocError, Global};

/// The first line: how many steps and messages a scenario has, the station that serves its phone behind them, and what heals it.
#[tactic(auto, unfolding(crate::specs::Lines::scenario_line))]
pub fn scenario_line(
    alloc: Global,
    steps: u32,
    messages: u32,
    serving: u8,
    heals: Heals,
) -> Result<String, AllocError>
    ensures text { IfOk result (λ text. string_bytes text ≡ scenario_line steps messages serving heals) }
    ensures refused { OnErr result WasRefused }
{
    let heals = heals_name(heals);
    growth::format(
        alloc,
        format_args!("scenario {steps} {messages} serving {serving} heals {heals}\n"),
    )
}

/// What is wrong in the scenario itself, of so many steps.
#[tactic(auto, unfolding(crate::specs::Lines::trouble_line))]
pub fn trouble_line(alloc: Global, steps: u32, trouble: Trouble) -> Result<String, AllocError>
    ensures text { IfOk result (λ text. string_bytes text ≡ trouble_line steps trouble) }
    ensures refused { OnErr result WasRefused }
{
    match trouble {
        Trouble::KeysDiffer(name) => keys_line(alloc, steps, name),
        Trouble::Stuck => growth::format(alloc, format_args!("stuck\n")),
        Trouble::PacketLost(step) => lost_line(alloc, step),
    }
}

// A step at which the phone takes another key than the station there made. Those of the probe behind it have no step.
#[tactic(auto, unfolding(crate::specs::Lines::keys_line))]
fn keys_line(alloc: Global, steps: u32, name: u32) -> Result<String, AllocError>
    ensures text { IfOk result (λ text. string_bytes text ≡ keys_line steps name) }
    ensures refused { OnErr result WasRefused }
{
    if name < steps {
        growth::format(alloc, format_args!("keys differ {name}\n"))
    } else {
        growth::format(alloc, format_args!("keys differ probe\n"))
    }
}

// A step that sends a text that nobody opens.
#[tactic(auto, unfolding(crate::specs::Lines::lost_line))]
fn lost_line(alloc: Global, step: u32) -> Result<String, AllocError>
    ensures text { IfOk result (λ text. string_bytes text ≡ lost_line step) }
    ensures refused { OnErr result WasRefused }
{
    growth::format(alloc, format_args!("packet lost {step}\n"))
}

/// The line of a message, by the step that delivers it.
#[tactic(auto, unfolding(crate::specs::Lines::message_line))]
pub fn message_line(alloc: Global, step: u32, message: Message) -> Result<String, AllocError>
    ensures text { IfOk result (λ text. string_bytes text ≡ message_line step message) }
    ensures refused { OnErr result WasRefused }
{
    let name = message_name(message);
    growth::format(alloc, format_args!("message {step} {name}\n"))
}

/// The line of a variant: its faults, its outcomes in this order, and what heals it; and where it is asked for, the station that serves and
/// which lines sent.
pub fn variant_line(
    alloc: Global,
    asked: bool,
    faults: &[Fault],
    verdict: &Verdict,
) -> Result<Vec<u8>, AllocError>
    ensures text { IfOk result (λ text. text.items ≡ variant_line asked faults.now verdict.now) }
    ensures refused { OnErr result WasRefused }
{
    let mut text = faults_text(alloc, faults)?;
    growth::extend_from_slice(&mut text, b": ")?;
    let told = outcomes_text(alloc, verdict.outcomes())?;
    growth::extend_from_slice(&mut text, told.as_slice())?;
    add_heals(&mut text, verdict.heals())?;
    add_sent(alloc, &mut text, asked, verdict)?;
    growth::extend_from_slice(&mut text, b"\n")?;
    Ok(text)
}

/// The last line: how many variants there are.
#[tactic(auto, unfolding(crate::specs::Lines::end_line))]
pub fn end_line(alloc: Global, variants: u128) -> Result<String, AllocError>
    ensures text { IfOk result (λ text. string_bytes text ≡ end_line variants) }
    ensures refused { OnErr result WasRefused }
{
    growth::format(alloc, format_args!("end {variants}\n"))
}

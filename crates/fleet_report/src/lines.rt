// The lines of a fleet's report as texts.
ghost use Rattle.growth.specs.Growth.{WasRefused};
ghost use Rattle.std.specs.Prelude.{◌≡◌, ◌++◌, ℕ, Ok, Err, IfOk, OnErr};
ghost use Rattle.std.specs.String.{string_bytes};
ghost use Rattle.fleet_report.specs.Lines.{phone_prefix, phone_text, taken_text, cross_text, answer_output, output_text, IsShown};

use fleet_world::{FleetFault, FleetLine};
use key_terms::Row;
use report_text::{TextMemory, chance, line};
use std::alloc::{AllocError, Global};

// The line for an answer, by its step among all events.
pub(crate) fn told_text(alloc: Global, step: u32, told: &FleetLine) -> Result<Vec<u8>, TextMemory>
    ensures text { IfOk result (λ text. (own : ℕ) → text.items ≡ output_text (answer_output step own (Ok told.now))) }
    ensures refused { OnErr result WasRefused }
{
    match told {
        FleetLine::Of(phone, told) => {
            let text = line(alloc, told)?;
            phone_text(alloc, *phone, &text)
        }
        FleetLine::Taken(other) => {
            let text = taken_text(alloc, step, *other)?;
            Ok(text.into_bytes())
        }
    }
}

// The line for a coincidence, by its step among all events and among the phone's own.
pub(crate) fn fault_text(
    alloc: Global,
    step: u32,
    own: u32,
    fault: FleetFault,
) -> Result<Vec<u8>, TextMemory>
    requires { IsShown fault }
    ensures text { IfOk result (λ text. text.items ≡ output_text (answer_output step own (Err fault))) }
    ensures refused { OnErr result WasRefused }
{
    match fault {
        FleetFault::Chance(phone, proof) => {
            let text = chance(alloc, own, &proof)?;
            phone_text(alloc, phone, &text)
        }
        FleetFault::Cross {
            phone,
            row,
            other,
            other_row,
        } => {
            let text = cross_text(alloc, step, phone, row, other, other_row)?;
            Ok(text.into_bytes())
        }
        FleetFault::Memory => Ok(Vec::new(alloc)),
    }
}

// A line of a phone, behind its number.
pub(crate) fn phone_text(alloc: Global, phone: u16, line: &[u8]) -> Result<Vec<u8>, TextMemory>
    ensures text { IfOk result (λ text. text.items ≡ phone_text phone line.now) }
    ensures refused { OnErr result WasRefused }
{
    let mut text = prefix(alloc, phone)?.into_bytes();
    growth::extend_from_slice(&mut text, line)?;
    Ok(text)
}

#[tactic(auto, unfolding(crate::specs::Lines::phone_prefix))]
fn prefix(alloc: Global, phone: u16) -> Result<String, AllocError>
    ensures text { IfOk result (λ text. string_bytes text ≡ phone_prefix phone) }
    ensures refused { OnErr result WasRefused }
{
    growth::format(alloc, format_args!("{phone} "))
}

#[tactic(auto, unfolding(crate::specs::Lines::taken_text))]
fn taken_text(alloc: Global, step: u32, other: u16) -> Result<String, AllocError>
    ensures text { IfOk result (λ text. string_bytes text ≡ taken_text step other) }
    ensures refused { OnErr result WasRefused }
{
    growth::format(alloc, format_args!("fleet {step} taken {other}\n"))
}

#[tactic(auto, unfolding(crate::specs::Lines::cross_text))]
fn cross_text(
    alloc: Global,
    step: u32,
    phone: u16,
    row: Row,
    other: u16,
    other_row: Row,
) -> Result<String, AllocError>
    ensures text { IfOk result (λ text. string_bytes text ≡ cross_text step phone row.0 other other_row.0) }
    ensures refused { OnErr result WasRefused }
{
    let row = row.0;
    let other_row = other_row.0;
    growth::format(
        alloc,
        format_args!("fleet {step} coincidence {phone} {row} {other} {other_row}\n"),
    )
}

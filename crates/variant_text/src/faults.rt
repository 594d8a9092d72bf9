ghost use Rattle.growth.specs.Growth.{WasRefused};
ghost use Rattle.std.specs.Prelude.{◌≡◌, IfOk, OnErr, OnOk, codes};
ghost use Rattle.std.specs.String.{string_bytes};
ghost use Rattle.variant_text.specs.Faults.{fault_text, faults_text, kind_name, place_text};
ghost use Rattle.variant_text.specs.Joined.{joined};

use crate::joined::join;
use item_faults::{Fault, Kind};
use std::alloc::{AllocError, Global};

fn kind_name(kind: Kind) -> &'static str
    ensures { result.now ≡ kind_name kind }
{
    match kind {
        Kind::Lost => "lost",
        Kind::Late => "late",
        Kind::Twice => "twice",
        Kind::Again => "again",
    }
}

// The step behind which a late message or a copy comes.
fn place_text(alloc: Global, kind: Kind, after: u32) -> Result<String, AllocError>
    ensures text { IfOk result (λ text. string_bytes text ≡ place_text kind after) }
    ensures refused { OnErr result WasRefused }
{
    match kind {
        Kind::Lost => Ok(String::new(alloc)),
        Kind::Late => growth::format(alloc, format_args!(" {after}")),
        Kind::Twice => growth::format(alloc, format_args!(" {after}")),
        Kind::Again => Ok(String::new(alloc)),
    }
}

#[tactic(auto, unfolding(crate::specs::Faults::fault_text))]
fn fault_text(alloc: Global, fault: &Fault) -> Result<String, AllocError>
    ensures text { IfOk result (λ text. string_bytes text ≡ fault_text fault.now) }
    ensures refused { OnErr result WasRefused }
{
    let kind = kind_name(fault.kind);
    let message = fault.message;
    let place = place_text(alloc, fault.kind, fault.after)?;
    growth::format(alloc, format_args!("{kind} {message}{place}"))
}

// Puts a fault behind those so far.
fn add(alloc: Global, text: &mut Vec<u8>, fault: &Fault) -> Result<(), AllocError>
    ensures added { OnOk result (text.new.items ≡ joined (codes ", ") text.old.items (fault_text fault.now)) }
    ensures refused { OnErr result WasRefused }
{
    let one = fault_text(alloc, fault)?;
    join(text, b", ", one.as_bytes())
}

/// The faults of a variant, with a comma between.
#[tactic(auto, unfolding(crate::specs::Faults::faults_from))]
pub(crate) fn faults_text(alloc: Global, faults: &[Fault]) -> Result<Vec<u8>, AllocError>
    ensures text { IfOk result (λ text. text.items ≡ faults_text faults.now) }
    ensures refused { OnErr result WasRefused }
{
    let mut text = Vec::new(alloc);
    for fault in faults {
        add(alloc, &mut text, fault)?;
    }
    Ok(text)
}

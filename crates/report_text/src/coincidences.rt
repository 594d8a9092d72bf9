ghost use Rattle.growth.specs.Growth.{WasRefused};
ghost use Rattle.std.specs.Prelude.{◌≡◌, IfOk, OnErr};
ghost use Rattle.std.specs.String.{string_bytes};
ghost use Rattle.hmac_kdf.specs.Kdf.{IsKdfInput};
ghost use Rattle.report_text.specs.Coincidence.{rows_text, root_text, tuples_text, direction_name, use_text, sender_text, proof_text, coincidence_text, HasString};

use crate::TextMemory;
use annex_a_keys::Derived;
use key_terms::{Proof, Row};
use rec_base::{Dir, Use};
use std::alloc::{AllocError, Global};

/// The line of a report for a step that is a coincidence, in ASCII, with the LF that ends it. The input of a
/// derivation in the proof is in its range. The one error is want of memory.
pub fn chance(alloc: Global, step: u32, proof: &Proof) -> Result<Vec<u8>, TextMemory>
    requires { HasString proof.now }
    ensures text { IfOk result (λ text. text.items ≡ coincidence_text step proof.now) }
    ensures refused { OnErr result WasRefused }
{
    let text = whole(alloc, step, proof)?;
    Ok(text.into_bytes())
}

#[tactic(auto, unfolding(crate::specs::Coincidence::coincidence_text))]
fn whole(alloc: Global, step: u32, proof: &Proof) -> Result<String, AllocError>
    requires { HasString proof.now }
    ensures text { IfOk result (λ text. string_bytes text ≡ coincidence_text step proof.now) }
    ensures refused { OnErr result WasRefused }
{
    let proof = proof_text(alloc, proof)?;
    growth::format(alloc, format_args!("{step} coincidence {proof}\n"))
}

fn proof_text(alloc: Global, proof: &Proof) -> Result<String, AllocError>
    requires { HasString proof.now }
    ensures text { IfOk result (λ text. string_bytes text ≡ proof_text proof.now) }
    ensures refused { OnErr result WasRefused }
{
    match proof {
        Proof::Rows(row, made) => rows_text(alloc, *row, made),
        Proof::RootIsRow(row, _) => root_text(alloc, *row),
        Proof::Tuples(sender, receiver) => tuples_text(alloc, sender, receiver),
    }
}

// A derivation that gave a row's octets.
#[tactic(auto, unfolding(crate::specs::Coincidence::rows_text))]
fn rows_text(alloc: Global, row: Row, made: &Derived) -> Result<String, AllocError>
    requires { IsKdfInput made.now.input }
    ensures text { IfOk result (λ text. string_bytes text ≡ rows_text row made.now) }
    ensures refused { OnErr result WasRefused }
{
    let row = row.0;
    let key = growth::encode(alloc, &made.key)?;
    let string = growth::encode(alloc, made.input.string().as_slice())?;
    growth::format(alloc, format_args!("rows {row} {key} {string}"))
}

// A root that has a row's octets.
#[tactic(auto, unfolding(crate::specs::Coincidence::root_text))]
fn root_text(alloc: Global, row: Row) -> Result<String, AllocError>
    ensures text { IfOk result (λ text. string_bytes text ≡ root_text row) }
    ensures refused { OnErr result WasRefused }
{
    let row = row.0;
    growth::format(alloc, format_args!("root {row}"))
}

// The use of the sender, and that of the receiver.
#[tactic(auto, unfolding(crate::specs::Coincidence::tuples_text))]
fn tuples_text(alloc: Global, sender: &Option<Use>, receiver: &Use) -> Result<String, AllocError>
    ensures text { IfOk result (λ text. string_bytes text ≡ tuples_text sender.now receiver.now) }
    ensures refused { OnErr result WasRefused }
{
    let sender = sender_text(alloc, sender)?;
    let receiver = use_text(alloc, receiver)?;
    growth::format(alloc, format_args!("tuples {sender} {receiver}"))
}

fn sender_text(alloc: Global, sender: &Option<Use>) -> Result<String, AllocError>
    ensures text { IfOk result (λ text. string_bytes text ≡ sender_text sender.now) }
    ensures refused { OnErr result WasRefused }
{
    match sender {
        None => growth::format(alloc, format_args!("nobody")),
        Some(used) => use_text(alloc, used),
    }
}

#[tactic(auto, unfolding(crate::specs::Coincidence::use_text))]
fn use_text(alloc: Global, used: &Use) -> Result<String, AllocError>
    ensures text { IfOk result (λ text. string_bytes text ≡ use_text used.now) }
    ensures refused { OnErr result WasRefused }
{
    let key = growth::encode(alloc, &used.key)?;
    let count = used.count;
    let bearer = used.bearer;
    let direction = direction_name(used.dir);
    growth::format(alloc, format_args!("{key}/{count}/{bearer}/{direction}"))
}

fn direction_name(dir: Dir) -> &'static str
    ensures { result.now ≡ direction_name dir }
{
    match dir {
        Dir::Up => "up",
        Dir::Down => "down",
    }
}

// The keys that the phone came by.
ghost use Rattle.growth.specs.Growth.{WasRefused};
ghost use Rattle.std.specs.Prelude.{◌≡◌, IfOk, OnErr};
ghost use Rattle.std.specs.List.{list_any};
ghost use Rattle.std.specs.Option.{option_map};
ghost use Rattle.item_outcomes.specs.Keys.{is_made, is_missed, is_new, is_weaker, keys_differ, not_made, parted, weaker_key};
ghost use Rattle.item_lines.specs.Lines.{is_horizontal, is_vertical};

use crate::Standing;
use crate::names::{PROBE, is_among};
use item_lines::{Told, note_in, parts, phone_note};
use lte_events::KeyNote;
use rec_base::Way;
use std::alloc::{AllocError, Global};

pub(crate) fn not_made(usual: &Standing, here: &Standing) -> bool
    ensures { result ≡ not_made usual.now.told here.now.told }
{
    usual.told().iter().any(|t| is_missed(here, t))
}

pub(crate) fn is_missed(here: &Standing, t: &Told) -> bool
    ensures { result ≡ is_missed here.now.told t.now }
{
    phone_note(t).is_some() && t.name < PROBE && !is_made(here.line_of(t.name))
}

pub(crate) fn is_made(t: Option<&Told>) -> bool
    ensures { result ≡ is_made (option_map (λ u. u.now) t.entry) }
{
    match t {
        Some(t) => phone_note(t).is_some(),
        None => false,
    }
}

pub(crate) fn weaker_key(usual: &Standing, here: &Standing) -> bool
    ensures { result ≡ weaker_key usual.now here.now }
{
    comes_weaker(usual, here) || usual.reach().len() < here.reach().len()
}

// Whether the phone came by a weaker key somewhere.
fn comes_weaker(usual: &Standing, here: &Standing) -> bool
    ensures { result ≡ list_any (is_weaker here.now.told) usual.now.told }
{
    usual.told().iter().any(|t| is_weaker(here, t))
}

pub(crate) fn is_weaker(here: &Standing, t: &Told) -> bool
    ensures { result ≡ is_weaker here.now.told t.now }
{
    is_vertical(phone_note(t)) && is_horizontal(note_in(here.line_of(t.name)))
}

fn is_vertical(note: Option<KeyNote>) -> bool
    ensures { result ≡ is_vertical note }
{
    match note {
        Some(note) => note.way == Way::Vertical,
        None => false,
    }
}

fn is_horizontal(note: Option<KeyNote>) -> bool
    ensures { result ≡ is_horizontal note }
{
    match note {
        Some(note) => note.way == Way::Horizontal,
        None => false,
    }
}

pub(crate) fn keys_differ(usual: &Standing, here: &Standing) -> bool
    ensures { result ≡ keys_differ usual.now.told here.now.told }
{
    here.parted().iter().any(|name| is_new(usual, *name))
}

pub(crate) fn is_new(usual: &Standing, name: u32) -> bool
    ensures { result ≡ is_new (parted usual.now.told) name }
{
    !is_among(usual.parted(), name)
}

// The items at which the phone took, at an air address, another key than the station there told.
#[tactic(auto, unfolding(crate::specs::Keys::parted_from))]
pub(crate) fn parted(alloc: Global, told: &[Told]) -> Result<Vec<u32>, AllocError>
    ensures names { IfOk result (λ names. names.items ≡ parted told.now) }
    ensures refused { OnErr result WasRefused }
{
    let mut found = Vec::new(alloc);
    for i in 0..told.len() {
        let (before, this) = (&told[..i], &told[i]);
        if parts(this, before) {
            growth::reserve(&mut found, 1)?;
            found.push_reserved(this.name);
        }
    }
    Ok(found)
}

ghost use Rattle.growth.specs.Growth.{WasRefused};
ghost use Rattle.std.specs.Prelude.{◌≡◌, ℕ, All, IfOk, OnErr, length};
ghost use Rattle.items.specs.Items.{IsItemOf};
ghost use Rattle.item_faults.specs.Laws.{AreEntries};
ghost use Rattle.item_faults.specs.AtOnce.{at_once, is_delivered, is_of, is_sender, items_of};

use crate::Entry;
use items::{Deed, Item};
use std::alloc::{AllocError, Global};

// So many records that come of an item, each of the one before, are delivered at once at most.
const MOST_AT_ONCE: u8 = 8;

// Whether an item delivers what the item of this name sends.
fn is_of(name: u32, deed: &Deed) -> bool
    ensures { result ≡ is_of name deed.now }
{
    match *deed {
        Deed::Act(_) => false,
        Deed::Delivery(of) => of == name,
    }
}

// Whether one of these delivers what the item of this name sends.
fn is_delivered(name: u32, entries: &[Entry]) -> bool
    ensures { result ≡ is_delivered name entries.now }
{
    entries.iter().any(|e| is_of(name, &e.deed))
}

fn is_sender(name: u32, senders: &[u32]) -> bool
    ensures { result ≡ is_sender name senders.now }
{
    senders.iter().any(|sender| *sender == name)
}

fn at_once(senders: &[u32], entries: &[Entry], name: u32) -> u8
    ensures { result ≡ at_once senders.now entries.now name }
{
    if is_sender(name, senders) || is_delivered(name, entries) {
        0
    } else {
        MOST_AT_ONCE
    }
}

/// The items of a list, of which those that are named send in the scenario.
pub fn items_of(alloc: Global, senders: &[u32], entries: &[Entry]) -> Result<Vec<Item>, AllocError>
    ensures items { IfOk result (λ list. list.items ≡ items_of senders.now entries.now) }
    ensures are_items { (acts : ℕ) → AreEntries acts entries.now → IfOk result (λ list. All (IsItemOf acts) list.items) }
    ensures as_many { IfOk result (λ list. length list.items ≡ length entries.now) }
    ensures refused { OnErr result WasRefused }
{
    listed(alloc, senders, entries)
}

fn listed(alloc: Global, senders: &[u32], entries: &[Entry]) -> Result<Vec<Item>, AllocError>
    ensures items { IfOk result (λ list. list.items ≡ items_of senders.now entries.now) }
    ensures refused { OnErr result WasRefused }
{
    let mut list = Vec::new(alloc);
    for e in entries {
        let item = Item {
            name: e.name,
            deed: e.deed,
            at_once: at_once(senders, entries, e.name),
        };
        growth::reserve(&mut list, 1)?;
        list.push_reserved(item);
    }
    Ok(list)
}

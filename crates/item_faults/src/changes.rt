ghost use Rattle.growth.specs.Growth.{WasRefused};
ghost use Rattle.std.specs.Prelude.{◌≡◌, ◌+◌, ◌<◌, ◌≤◌, ℕ, IfOk, IfSome, OnErr, length};
ghost use Rattle.std.specs.Option.{option_map};
ghost use Rattle.item_faults.specs.Entries.{most_steps};
ghost use Rattle.item_faults.specs.Laws.{AreEntries, CanRun};
ghost use Rattle.item_faults.specs.Changes.{changed, copy_of, edited, in_order, is_of_one, late, lost, put, put_all, repeated, sent_again, twice, variant};

use crate::entries::{act_of, delivery_of, has, keep, movers, own, place_of};
use crate::{Again, Entry};
use items::Deed;
use std::alloc::{AllocError, Global};

/// A kind of fault.
#[derive(Clone, Copy)]
pub enum Kind {
    /// The message is not delivered.
    Lost,
    /// It is delivered after a later item, and what it makes happen moves with it.
    Late,
    /// It is delivered in its place, and a copy after that item or a later one.
    Twice,
    /// It is lost, and sent once more.
    Again,
}

/// A fault of a message.
#[derive(Clone, Copy)]
pub struct Fault {
    /// Its kind.
    pub kind: Kind,
    /// The item that delivers the message.
    pub message: u32,
    /// The item after which the message or its copy comes: itself for `Lost` and `Again`.
    pub after: u32,
}

// What sends a message once more: the acts and deliveries by which the one comes that is delivered in its place.
fn sent_again(alloc: Global, number: u8, e: &Entry) -> Result<Option<Vec<Entry>>, AllocError>
    ensures items { IfOk result (λ new. option_map (λ list. list.items) new ≡ sent_again number e.now) }
    ensures refused { OnErr result WasRefused }
{
    let (first, second) = (own(number, 1), own(number, 2));
    let (third, fourth) = (own(number, 3), own(number, 4));
    let asked = delivery_of(second, first);
    match e.again {
        Again::Never => Ok(None),
        Again::Act(a) => {
            let begin = act_of(first, a, e.moves_with);
            let new = [begin, delivery_of(e.name, first)];
            Ok(Some(growth::from_slice(alloc, &new)?))
        }
        Again::Answer(a) => {
            let begin = act_of(first, a, e.moves_with);
            let new = [begin, asked, delivery_of(e.name, second)];
            Ok(Some(growth::from_slice(alloc, &new)?))
        }
        Again::Anew(a, b) => {
            let begin = act_of(first, a, e.moves_with);
            let anew = act_of(third, b, Some(second));
            let new = [begin, asked, anew, delivery_of(e.name, third)];
            Ok(Some(growth::from_slice(alloc, &new)?))
        }
        Again::AnewAnswer(a, b) => {
            let begin = act_of(first, a, e.moves_with);
            let anew = act_of(third, b, Some(second));
            let answer = delivery_of(fourth, third);
            let new = [begin, asked, anew, answer, delivery_of(e.name, fourth)];
            Ok(Some(growth::from_slice(alloc, &new)?))
        }
    }
}

// These go, and those come behind this place.
fn edited(
    alloc: Global,
    gone: &[Entry],
    to: usize,
    new: &[Entry],
    entries: &[Entry],
) -> Result<Vec<Entry>, AllocError>
    requires { to < length entries.now }
    ensures items { IfOk result (λ list. list.items ≡ edited gone.now to new.now entries.now) }
    ensures refused { OnErr result WasRefused }
{
    let mut list = Vec::new(alloc);
    keep(&mut list, gone, &entries[..to + 1])?;
    growth::extend_from_slice(&mut list, new)?;
    keep(&mut list, gone, &entries[to + 1..])?;
    Ok(list)
}

fn lost(
    alloc: Global,
    to: usize,
    entries: &[Entry],
    span: &[Entry],
) -> Result<Option<Vec<Entry>>, AllocError>
    requires { to < length entries.now }
    ensures items { IfOk result (λ new. option_map (λ list. list.items) new ≡ lost to entries.now span.now) }
    ensures refused { OnErr result WasRefused }
{
    match span {
        [_] => Ok(Some(edited(alloc, span, to, &[], entries)?)),
        _ => Ok(None),
    }
}

fn late(
    alloc: Global,
    after: u32,
    to: usize,
    entries: &[Entry],
    span: &[Entry],
) -> Result<Option<Vec<Entry>>, AllocError>
    requires { to < length entries.now }
    ensures items { IfOk result (λ new. option_map (λ list. list.items) new ≡ late after to entries.now span.now) }
    ensures refused { OnErr result WasRefused }
{
    let moved = movers(alloc, span)?;
    if has(after, &moved) {
        return Ok(None);
    }
    Ok(Some(edited(alloc, &moved, to, &moved, entries)?))
}

fn copy_of(number: u8, e: &Entry) -> Entry
    ensures { result ≡ copy_of number e.now }
{
    Entry {
        name: own(number, 0),
        deed: e.deed,
        moves_with: e.moves_with,
        again: e.again,
    }
}

fn twice(
    alloc: Global,
    number: u8,
    to: usize,
    entries: &[Entry],
    span: &[Entry],
) -> Result<Option<Vec<Entry>>, AllocError>
    requires { to < length entries.now }
    ensures items { IfOk result (λ new. option_map (λ list. list.items) new ≡ twice number to entries.now span.now) }
    ensures refused { OnErr result WasRefused }
{
    match span {
        [e, ..] => {
            let copy = copy_of(number, e);
            Ok(Some(edited(alloc, &[], to, &[copy], entries)?))
        }
        [] => Ok(None),
    }
}

fn repeated(
    alloc: Global,
    number: u8,
    to: usize,
    entries: &[Entry],
    span: &[Entry],
) -> Result<Option<Vec<Entry>>, AllocError>
    requires { to < length entries.now }
    ensures items { IfOk result (λ new. option_map (λ list. list.items) new ≡ repeated number to entries.now span.now) }
    ensures refused { OnErr result WasRefused }
{
    match span {
        [e] => match sent_again(alloc, number, e)? {
            Some(new) => Ok(Some(edited(alloc, span, to, &new, entries)?)),
            None => Ok(None),
        },
        _ => Ok(None),
    }
}

fn changed(
    alloc: Global,
    number: u8,
    fault: &Fault,
    to: usize,
    entries: &[Entry],
    span: &[Entry],
) -> Result<Option<Vec<Entry>>, AllocError>
    requires { to < length entries.now }
    ensures items { IfOk result (λ new. option_map (λ list. list.items) new ≡ changed number fault.now.kind fault.now.after to entries.now span.now) }
    ensures refused { OnErr result WasRefused }
{
    match fault.kind {
        Kind::Lost => lost(alloc, to, entries, span),
        Kind::Late => late(alloc, fault.after, to, entries, span),
        Kind::Twice => twice(alloc, number, to, entries, span),
        Kind::Again => repeated(alloc, number, to, entries, span),
    }
}

// The items with a fault more. None where they do not have its message, or its place stands before that.
fn put(
    alloc: Global,
    number: u8,
    fault: &Fault,
    entries: &[Entry],
) -> Result<Option<Vec<Entry>>, AllocError>
    ensures items { IfOk result (λ new. option_map (λ list. list.items) new ≡ put number fault.now entries.now) }
    ensures refused { OnErr result WasRefused }
{
    let Some(at) = place_of(fault.message, entries) else {
        return Ok(None);
    };
    let Some(to) = place_of(fault.after, entries) else {
        return Ok(None);
    };
    if to < at {
        return Ok(None);
    }
    changed(alloc, number, fault, to, entries, &entries[at..to + 1])
}

// The items with these faults, one after the other.
#[tactic(auto, unfolding(crate::specs::Changes::put_all))]
fn put_all(
    alloc: Global,
    number: u8,
    faults: &[Fault],
    entries: &[Entry],
) -> Result<Option<Vec<Entry>>, AllocError>
    requires { number + length faults.now < 256 }
    ensures items { IfOk result (λ new. option_map (λ list. list.items) new ≡ put_all number faults.now entries.now) }
    ensures refused { OnErr result WasRefused }
{
    match faults {
        [] => Ok(Some(growth::from_slice(alloc, entries)?)),
        [fault, rest @ ..] => match put(alloc, number, fault, entries)? {
            Some(new) => put_all(alloc, number + 1, rest, &new),
            None => Ok(None),
        },
    }
}

// Whether an item delivers what one of these sends.
fn is_of_one(e: &Entry, entries: &[Entry]) -> bool
    ensures { result ≡ is_of_one e.now.deed entries.now }
{
    match e.deed {
        Deed::Act(_) => false,
        Deed::Delivery(of) => has(of, entries),
    }
}

// Whether nothing is delivered before it is sent.
#[tactic(auto, unfolding(crate::specs::Changes::in_order))]
fn in_order(entries: &[Entry]) -> bool
    ensures { result ≡ in_order entries.now }
{
    for i in 0..entries.len() {
        if is_of_one(&entries[i], &entries[i..]) {
            return false;
        }
    }
    true
}

/// The items of a scenario with these faults. None where they do not go together, or something would be delivered before it is sent.
pub fn variant(
    alloc: Global,
    faults: &[Fault],
    entries: &[Entry],
) -> Result<Option<Vec<Entry>>, AllocError>
    requires { length faults.now ≤ 8 }
    ensures items { IfOk result (λ new. option_map (λ list. list.items) new ≡ variant faults.now entries.now) }
    ensures can_run { (acts : ℕ) → AreEntries acts entries.now → length entries.now ≤ most_steps → IfOk result (λ new. IfSome new (λ list. CanRun acts list.items)) }
    ensures refused { OnErr result WasRefused }
{
    together(alloc, faults, entries)
}

fn together(
    alloc: Global,
    faults: &[Fault],
    entries: &[Entry],
) -> Result<Option<Vec<Entry>>, AllocError>
    requires { length faults.now ≤ 8 }
    ensures items { IfOk result (λ new. option_map (λ list. list.items) new ≡ variant faults.now entries.now) }
    ensures refused { OnErr result WasRefused }
{
    match put_all(alloc, 0, faults, entries)? {
        Some(list) => {
            if in_order(&list) {
                Ok(Some(list))
            } else {
                Ok(None)
            }
        }
        None => Ok(None),
    }
}

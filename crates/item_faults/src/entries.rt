ghost use Rattle.growth.specs.Growth.{WasRefused};
ghost use Rattle.std.specs.Prelude.{◌≡◌, ◌<◌, IfOk, IfSome, OnErr, OnOk, length, position};
ghost use Rattle.item_faults.specs.Entries.{act_of, delivery_of, follows, has, is_named, kept_from, movers, moves, own};

use items::Deed;
use std::alloc::{AllocError, Global};

/// By what a message is sent once more; acts are places in the list of acts.
#[derive(Clone, Copy)]
pub enum Again {
    /// By no act.
    Never,
    /// By this act.
    Act(u32),
    /// As the answer to what this act sends.
    Answer(u32),
    /// By an attempt that is opened anew: the first act cancels it, and the second opens it.
    Anew(u32, u32),
    /// As the answer to such an attempt.
    AnewAnswer(u32, u32),
}

/// An item of a scenario or of a variant in its place.
#[derive(Clone, Copy)]
pub struct Entry {
    /// The name of the item.
    pub name: u32,
    /// What it does.
    pub deed: Deed,
    /// The item that makes it happen, and with which it moves.
    pub moves_with: Option<u32>,
    /// By what the message that it delivers is sent once more.
    pub again: Again,
}

/// The name of an item that the fault of this number puts in: 0 is a copy, 1 to 4 send a message again.
pub(crate) fn own(number: u8, letter: u8) -> u32
    ensures { result ≡ own number letter }
{
    2000 + 5 * u32::from(number) + u32::from(letter)
}

pub(crate) fn act_of(name: u32, act: u32, moves_with: Option<u32>) -> Entry
    ensures { result ≡ act_of name act moves_with }
{
    Entry {
        name,
        deed: Deed::Act(act),
        moves_with,
        again: Again::Never,
    }
}

pub(crate) fn delivery_of(name: u32, of: u32) -> Entry
    ensures { result ≡ delivery_of name of }
{
    Entry {
        name,
        deed: Deed::Delivery(of),
        moves_with: Some(of),
        again: Again::Never,
    }
}

/// Whether an item of this name is among these.
pub(crate) fn has(name: u32, entries: &[Entry]) -> bool
    ensures { result ≡ has name entries.now }
{
    entries.iter().any(|e| e.name == name)
}

/// The place of the item of this name.
pub(crate) fn place_of(name: u32, entries: &[Entry]) -> Option<usize>
    ensures place { result ≡ position (is_named name) entries.now }
    ensures within { IfSome result (λ place. place < length entries.now) }
{
    entries.iter().position(|e| e.name == name)
}

// Whether one of these makes it happen.
pub(crate) fn follows(moved: &[Entry], e: &Entry) -> bool
    ensures { result ≡ follows moved.now e.now }
{
    match e.moves_with {
        Some(name) => has(name, moved),
        None => false,
    }
}

/// Whether an item moves with those that do: the first of all does.
pub(crate) fn moves(moved: &[Entry], e: &Entry) -> bool
    ensures { result ≡ moves moved.now e.now }
{
    moved.is_empty() || follows(moved, e)
}

/// The first of these, and all that it makes happen.
#[tactic(auto, unfolding(crate::specs::Entries::movers_from))]
pub(crate) fn movers(alloc: Global, span: &[Entry]) -> Result<Vec<Entry>, AllocError>
    ensures movers { IfOk result (λ moved. moved.items ≡ movers span.now) }
    ensures refused { OnErr result WasRefused }
{
    let mut moved = Vec::new(alloc);
    for e in span {
        if moves(&moved, e) {
            growth::reserve(&mut moved, 1)?;
            moved.push_reserved(*e);
        }
    }
    Ok(moved)
}

/// Puts those of these entries that do not go to the end of a list.
#[tactic(auto, unfolding(crate::specs::Entries::kept_from))]
pub(crate) fn keep(
    kept: &mut Vec<Entry>,
    gone: &[Entry],
    entries: &[Entry],
) -> Result<(), AllocError>
    ensures kept { OnOk result (kept.new.items ≡ kept_from gone.now kept.old.items entries.now) }
    ensures refused { OnErr result WasRefused }
{
    for e in entries {
        if !has(e.name, gone) {
            growth::reserve(kept, 1)?;
            kept.push_reserved(*e);
        }
    }
    Ok(())
}

ghost use Rattle.growth.specs.Growth.{WasRefused};
ghost use Rattle.std.specs.Prelude.{◌≡◌, IfOk, OnErr, OnOk};
ghost use Rattle.item_faults.specs.Once.{Once, names};
ghost use Rattle.item_faults.specs.Walk.{rise};
ghost use Rattle.item_faults.specs.Faults.{can_be, faults_of, is_fault, is_one, is_sent, is_there, of_kind, of_message, repeats};

use crate::entries::{has, movers, place_of};
use crate::walk::{by_walk, rise};
use crate::{Again, Entry, Fault, Kind};
use std::alloc::{AllocError, Global};

fn is_one(span: &[Entry]) -> bool
    ensures { result ≡ is_one span.now }
{
    match span {
        [_] => true,
        _ => false,
    }
}

fn is_there(span: &[Entry]) -> bool
    ensures { result ≡ is_there span.now }
{
    match span {
        [_, ..] => true,
        [] => false,
    }
}

pub(crate) fn is_sent(again: Again) -> bool
    ensures { result ≡ is_sent again }
{
    match again {
        Again::Never => false,
        _ => true,
    }
}

fn repeats(span: &[Entry]) -> bool
    ensures { result ≡ repeats span.now }
{
    match span {
        [e] => is_sent(e.again),
        _ => false,
    }
}

// Whether a fault can be, by the items from its message to its place.
fn can_be(alloc: Global, fault: &Fault, span: &[Entry]) -> Result<bool, AllocError>
    ensures is { IfOk result (λ is. is ≡ can_be fault.now.kind fault.now.after span.now) }
    ensures refused { OnErr result WasRefused }
{
    match fault.kind {
        Kind::Lost => Ok(is_one(span)),
        Kind::Late => {
            let moved = movers(alloc, span)?;
            Ok(!has(fault.after, &moved))
        }
        Kind::Twice => Ok(is_there(span)),
        Kind::Again => Ok(repeats(span)),
    }
}

// Whether the scenario can have this fault.
fn is_fault(alloc: Global, fault: &Fault, entries: &[Entry]) -> Result<bool, AllocError>
    ensures is { IfOk result (λ is. is ≡ is_fault entries.now fault.now) }
    ensures refused { OnErr result WasRefused }
{
    let Some(at) = place_of(fault.message, entries) else {
        return Ok(false);
    };
    let Some(to) = place_of(fault.after, entries) else {
        return Ok(false);
    };
    if to < at {
        return Ok(false);
    }
    can_be(alloc, fault, &entries[at..to + 1])
}

// The faults of this kind of a message, at every place.
#[tactic(auto, unfolding(crate::specs::Faults::at_places))]
fn of_kind(
    alloc: Global,
    faults: &mut Vec<Fault>,
    kind: Kind,
    message: u32,
    entries: &[Entry],
) -> Result<(), AllocError>
    ensures faults { OnOk result (faults.new.items ≡ of_kind entries.now kind message faults.old.items) }
    ensures refused { OnErr result WasRefused }
{
    for e in entries {
        let fault = Fault {
            kind,
            message,
            after: e.name,
        };
        if is_fault(alloc, &fault, entries)? {
            growth::reserve(faults, 1)?;
            faults.push_reserved(fault);
        }
    }
    Ok(())
}

fn of_message(
    alloc: Global,
    faults: &mut Vec<Fault>,
    message: u32,
    entries: &[Entry],
) -> Result<(), AllocError>
    ensures faults { OnOk result (faults.new.items ≡ of_message entries.now message faults.old.items) }
    ensures refused { OnErr result WasRefused }
{
    of_kind(alloc, faults, Kind::Lost, message, entries)?;
    of_kind(alloc, faults, Kind::Late, message, entries)?;
    of_kind(alloc, faults, Kind::Twice, message, entries)?;
    of_kind(alloc, faults, Kind::Again, message, entries)
}

// The same. Where names rise, by one walk.
fn of_each(
    alloc: Global,
    faults: &mut Vec<Fault>,
    rises: bool,
    message: u32,
    entries: &[Entry],
) -> Result<(), AllocError>
    requires { rises ≡ rise entries.now }
    ensures faults { OnOk result (faults.new.items ≡ of_message entries.now message faults.old.items) }
    ensures refused { OnErr result WasRefused }
{
    if rises {
        by_walk(alloc, faults, message, entries)
    } else {
        of_message(alloc, faults, message, entries)
    }
}

#[tactic(auto, unfolding(crate::specs::Faults::of_messages))]
fn of_all(alloc: Global, entries: &[Entry], messages: &[u32]) -> Result<Vec<Fault>, AllocError>
    ensures faults { IfOk result (λ faults. faults.items ≡ faults_of entries.now messages.now) }
    ensures refused { OnErr result WasRefused }
{
    let mut faults = Vec::new(alloc);
    let rises = rise(entries);
    for message in messages {
        of_each(alloc, &mut faults, rises, *message, entries)?;
    }
    Ok(faults)
}

/// All faults of these messages of a scenario, each at every place. Where no name and no message stands twice, neither does a fault.
pub fn faults_of(
    alloc: Global,
    entries: &[Entry],
    messages: &[u32],
) -> Result<Vec<Fault>, AllocError>
    ensures faults { IfOk result (λ faults. faults.items ≡ faults_of entries.now messages.now) }
    ensures once { Once (names entries.now) → Once messages.now → IfOk result (λ faults. Once faults.items) }
    ensures refused { OnErr result WasRefused }
{
    of_all(alloc, entries, messages)
}

// The faults of a message by one walk, where the names of items rise.
ghost use Rattle.growth.specs.Growth.{WasRefused};
ghost use Rattle.std.specs.Prelude.{◌≡◌, [], ◌∷◌, ◌++◌, true, OnErr, OnOk};
ghost use Rattle.item_faults.specs.Faults.{fault_at, of_message};
ghost use Rattle.item_faults.specs.Walk.{again_here, late_from, lost_here, of_here, rise, twice_from};

use crate::entries::{moves, place_of};
use crate::faults::is_sent;
use crate::{Entry, Fault, Kind};
use std::alloc::{AllocError, Global};

/// Whether the names of these items rise.
#[tactic(auto, unfolding(crate::specs::Walk::rise_from))]
pub(crate) fn rise(entries: &[Entry]) -> bool
    ensures { result ≡ rise entries.now }
{
    let mut least: u64 = 0;
    for e in entries {
        let name = u64::from(e.name);
        if name < least {
            return false;
        }
        least = name + 1;
    }
    true
}

// One fault more.
fn add(faults: &mut Vec<Fault>, kind: Kind, message: u32, after: u32) -> Result<(), AllocError>
    ensures faults { OnOk result (faults.new.items ≡ faults.old.items ++ fault_at kind message after ∷ []) }
    ensures refused { OnErr result WasRefused }
{
    growth::reserve(faults, 1)?;
    faults.push_reserved(Fault {
        kind,
        message,
        after,
    });
    Ok(())
}

fn lost_here(faults: &mut Vec<Fault>, message: u32, here: &[Entry]) -> Result<(), AllocError>
    ensures faults { OnOk result (faults.new.items ≡ lost_here message faults.old.items here.now) }
    ensures refused { OnErr result WasRefused }
{
    match here {
        [e, ..] => add(faults, Kind::Lost, message, e.name),
        [] => Ok(()),
    }
}

// One item more.
fn put(moved: &mut Vec<Entry>, e: &Entry) -> Result<(), AllocError>
    ensures moved { OnOk result (moved.new.items ≡ moved.old.items ++ e.now ∷ []) }
    ensures refused { OnErr result WasRefused }
{
    growth::reserve(moved, 1)?;
    moved.push_reserved(*e);
    Ok(())
}

// Behind each item that does not move with it.
#[tactic(auto, unfolding(crate::specs::Walk::late_from))]
fn late_here(
    alloc: Global,
    faults: &mut Vec<Fault>,
    message: u32,
    here: &[Entry],
) -> Result<(), AllocError>
    ensures faults { OnOk result (faults.new.items ≡ late_from message [] faults.old.items here.now) }
    ensures refused { OnErr result WasRefused }
{
    let mut moved = Vec::new(alloc);
    for e in here {
        if moves(&moved, e) {
            put(&mut moved, e)?;
        } else {
            add(faults, Kind::Late, message, e.name)?;
        }
    }
    Ok(())
}

#[tactic(auto, unfolding(crate::specs::Walk::twice_from))]
fn twice_here(faults: &mut Vec<Fault>, message: u32, here: &[Entry]) -> Result<(), AllocError>
    ensures faults { OnOk result (faults.new.items ≡ twice_from message faults.old.items here.now) }
    ensures refused { OnErr result WasRefused }
{
    for e in here {
        add(faults, Kind::Twice, message, e.name)?;
    }
    Ok(())
}

fn again_here(faults: &mut Vec<Fault>, message: u32, here: &[Entry]) -> Result<(), AllocError>
    ensures faults { OnOk result (faults.new.items ≡ again_here message faults.old.items here.now) }
    ensures refused { OnErr result WasRefused }
{
    match here {
        [e, ..] => {
            if is_sent(e.again) {
                add(faults, Kind::Again, message, e.name)
            } else {
                Ok(())
            }
        }
        [] => Ok(()),
    }
}

// Those of a message whose item is the first of these.
fn of_here(
    alloc: Global,
    faults: &mut Vec<Fault>,
    message: u32,
    here: &[Entry],
) -> Result<(), AllocError>
    ensures faults { OnOk result (faults.new.items ≡ of_here message here.now faults.old.items) }
    ensures refused { OnErr result WasRefused }
{
    lost_here(faults, message, here)?;
    late_here(alloc, faults, message, here)?;
    twice_here(faults, message, here)?;
    again_here(faults, message, here)
}

/// All faults of a message.
pub(crate) fn by_walk(
    alloc: Global,
    faults: &mut Vec<Fault>,
    message: u32,
    entries: &[Entry],
) -> Result<(), AllocError>
    requires { rise entries.now ≡ true }
    ensures faults { OnOk result (faults.new.items ≡ of_message entries.now message faults.old.items) }
    ensures refused { OnErr result WasRefused }
{
    match place_of(message, entries) {
        Some(at) => of_here(alloc, faults, message, &entries[at..]),
        None => Ok(()),
    }
}

// The run of a variant, and what is of its faults.
ghost use Rattle.growth.specs.Growth.{WasRefused};
ghost use Rattle.std.specs.Prelude.{◌≡◌, ◌*◌, ◌+◌, ◌≤◌, [], length, All, IfOk, IsOkUnless, OnErr};
ghost use Rattle.lte_events.specs.Ranges.{IsSetup};
ghost use Rattle.lte_events.specs.Scenario.{CanHappen};
ghost use Rattle.items.specs.Items.{most_at_once};
ghost use Rattle.item_faults.specs.AtOnce.{items_of};
ghost use Rattle.item_faults.specs.Laws.{most_items, AreEntries};
ghost use Rattle.variant_runs.specs.Original.{run_of};
ghost use Rattle.variant_runs.specs.Judged.{is_lost, is_put_in, lost_from, own_names};

use item_faults::{Entry, Fault, Kind};
use item_runs::{Course, run_items};
use lte_events::{Events, Setup};
use lte_world::WorldFault;
use std::alloc::{AllocError, Global};

/// The run of a list of items over these acts.
pub(crate) fn run_with(
    alloc: Global,
    setup: &Setup,
    acts: &Events,
    senders: &[u32],
    list: &[Entry],
) -> Result<Course, WorldFault>
    requires is_setup { IsSetup setup.now }
    requires can_happen { All (CanHappen setup.now) acts.now.items }
    requires entries { AreEntries (length acts.now.items) list.now }
    requires few { length list.now ≤ most_items }
    ensures memory { IsOkUnless result WorldFault.Memory }
    ensures refused { OnErr result WasRefused }
    ensures run { IfOk result (λ course. course ≡ run_of setup.now acts.now.items (items_of senders.now list.now)) }
    ensures short { IfOk result (λ course. length course.coming.events ≤ most_items * (most_at_once + 1)) }
{
    match item_faults::items_of(alloc, senders, list) {
        Ok(items) => run_items(alloc, setup, acts, items.as_slice()),
        Err(_) => Err(WorldFault::Memory),
    }
}

fn is_lost(kind: Kind) -> bool
    ensures { result ≡ is_lost kind }
{
    match kind {
        Kind::Lost => true,
        _ => false,
    }
}

fn is_put_in(entry: &Entry) -> bool
    ensures { result ≡ is_put_in entry.now }
{
    entry.name >= 2000
}

// The messages that are lost.
#[tactic(auto, unfolding(crate::specs::Judged::lost_from))]
fn lost_names(alloc: Global, faults: &[Fault]) -> Result<Vec<u32>, AllocError>
    ensures names { IfOk result (λ names. names.items ≡ lost_from [] faults.now) }
    ensures refused { OnErr result WasRefused }
{
    let mut names = Vec::new(alloc);
    for fault in faults {
        if is_lost(fault.kind) {
            growth::reserve(&mut names, 1)?;
            names.push_reserved(fault.message);
        }
    }
    Ok(names)
}

/// The names of what is of the faults themselves.
#[tactic(auto, unfolding(crate::specs::Judged::put_in_from))]
pub(crate) fn own_names(
    alloc: Global,
    faults: &[Fault],
    list: &[Entry],
) -> Result<Vec<u32>, AllocError>
    ensures names { IfOk result (λ names. names.items ≡ own_names faults.now list.now) }
    ensures refused { OnErr result WasRefused }
{
    let mut names = lost_names(alloc, faults)?;
    for entry in list {
        if is_put_in(entry) {
            growth::reserve(&mut names, 1)?;
            names.push_reserved(entry.name);
        }
    }
    Ok(names)
}

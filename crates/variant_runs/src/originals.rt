// The scenario itself: its acts, items, steps and run.
ghost use Rattle.growth.specs.Growth.{WasRefused};
ghost use Rattle.std.specs.Prelude.{◌≡◌, ◌+◌, ◌*◌, ◌≤◌, ℕ, length, All, IfOk, IsOkUnless, OnErr};
ghost use Rattle.lte_events.specs.Ranges.{IsSetup};
ghost use Rattle.lte_events.specs.Scenario.{most_events, CanHappen};
ghost use Rattle.items.specs.Items.{most_at_once, IsItemOf};
ghost use Rattle.item_faults.specs.Entries.{most_steps};
ghost use Rattle.item_faults.specs.Laws.{AreEntries, IsStep};
ghost use Rattle.item_faults.specs.Steps.{entries_of as list_of_entries, senders_of as list_of_senders};
ghost use Rattle.item_probe.specs.Acts.{acts_of as list_of_acts};
ghost use Rattle.item_probe.specs.Places.{more_acts};
ghost use Rattle.item_steps.specs.Steps.{steps_of as list_of_steps};
ghost use Rattle.variant_runs.specs.Original.{first_station, item_at, own_items, run_of};

use item_faults::{Entry, Step};
use item_lines::Told;
use item_runs::{Course, run_items};
use items::{Deed, Item};
use lte_events::{Events, Setup, StationSetup};
use lte_world::WorldFault;
use std::alloc::{AllocError, Global};

fn copied(alloc: Global, events: &Events) -> Result<Events, AllocError>
    ensures same { IfOk result (λ list. list.items ≡ events.now.items) }
    ensures refused { OnErr result WasRefused }
{
    let mut list = Events::new(alloc);
    for number in 0..events.len() {
        list.push(&events.at(number))?;
    }
    Ok(list)
}

/// The acts that variants of these events run over.
pub(crate) fn acts_of(alloc: Global, setup: &Setup, events: &Events) -> Result<Events, WorldFault>
    ensures memory { IsOkUnless result WorldFault.Memory }
    ensures refused { OnErr result WasRefused }
    ensures acts { IfOk result (λ acts. acts.items ≡ list_of_acts setup.now events.now.items) }
    ensures can_happen { IsSetup setup.now → All (CanHappen setup.now) events.now.items → IfOk result (λ acts. All (CanHappen setup.now) acts.items) }
    ensures as_many { IfOk result (λ acts. length acts.items ≡ length events.now.items + more_acts) }
{
    match copied(alloc, events) {
        Ok(list) => match item_probe::acts_of(setup, list) {
            Ok(acts) => Ok(acts),
            Err(_) => Err(WorldFault::Memory),
        },
        Err(_) => Err(WorldFault::Memory),
    }
}

fn item_at(step: u32) -> Item
    ensures { result ≡ item_at step }
{
    Item {
        name: step,
        deed: Deed::Act(step),
        at_once: 0,
    }
}

fn own_items(alloc: Global, steps: u32) -> Result<Vec<Item>, AllocError>
    ensures items { IfOk result (λ list. list.items ≡ own_items steps) }
    ensures refused { OnErr result WasRefused }
{
    let mut list = Vec::new(alloc);
    for step in 0..steps {
        growth::reserve(&mut list, 1)?;
        list.push_reserved(item_at(step));
    }
    Ok(list)
}

/// The run of the first so many acts, one after the other.
pub(crate) fn own_run(
    alloc: Global,
    setup: &Setup,
    acts: &Events,
    steps: u32,
) -> Result<Course, WorldFault>
    requires is_setup { IsSetup setup.now }
    requires can_happen { All (CanHappen setup.now) acts.now.items }
    requires few { steps ≤ most_steps }
    requires there { steps ≤ length acts.now.items }
    ensures memory { IsOkUnless result WorldFault.Memory }
    ensures refused { OnErr result WasRefused }
    ensures run { IfOk result (λ course. course ≡ run_of setup.now acts.now.items (own_items steps)) }
    ensures short { IfOk result (λ course. length course.coming.events ≤ most_steps * (most_at_once + 1)) }
{
    match own_items(alloc, steps) {
        Ok(items) => run_items(alloc, setup, acts, items.as_slice()),
        Err(_) => Err(WorldFault::Memory),
    }
}

/// The first station.
pub(crate) fn first_station(stations: &[StationSetup]) -> u8
    ensures { result ≡ first_station stations.now }
{
    match stations {
        [station, ..] => station.id,
        [] => 0,
    }
}

/// The steps of these events, by the lines of their run.
pub(crate) fn steps_of(
    alloc: Global,
    events: &Events,
    told: &[Told],
) -> Result<Vec<Step>, WorldFault>
    requires a_line_each { length told.now ≡ length events.now.items }
    requires few { length events.now.items ≤ most_events }
    ensures memory { IsOkUnless result WorldFault.Memory }
    ensures refused { OnErr result WasRefused }
    ensures steps { IfOk result (λ steps. steps.items ≡ list_of_steps events.now.items told.now) }
    ensures are_steps { IfOk result (λ steps. All (IsStep (length events.now.items)) steps.items) }
    ensures as_many { IfOk result (λ steps. length steps.items ≡ length events.now.items) }
{
    match item_steps::steps_of(alloc, events, told) {
        Ok(steps) => Ok(steps),
        Err(_) => Err(WorldFault::Memory),
    }
}

/// The items of these steps.
pub(crate) fn entries_of(alloc: Global, steps: &[Step]) -> Result<Vec<Entry>, WorldFault>
    requires few { length steps.now ≤ most_steps }
    ensures memory { IsOkUnless result WorldFault.Memory }
    ensures refused { OnErr result WasRefused }
    ensures entries { IfOk result (λ list. list.items ≡ list_of_entries (length steps.now) steps.now) }
    ensures are_entries { (total : ℕ) → length steps.now + 26 ≤ total → All (IsStep (length steps.now)) steps.now → IfOk result (λ list. AreEntries total list.items) }
    ensures as_many { IfOk result (λ list. length list.items ≡ length steps.now) }
{
    match item_faults::entries_of(alloc, steps.len() as u32, steps) {
        Ok(list) => Ok(list),
        Err(_) => Err(WorldFault::Memory),
    }
}

/// Those of these steps that send.
pub(crate) fn senders_of(alloc: Global, steps: &[Step]) -> Result<Vec<u32>, WorldFault>
    ensures memory { IsOkUnless result WorldFault.Memory }
    ensures refused { OnErr result WasRefused }
    ensures senders { IfOk result (λ list. list.items ≡ list_of_senders steps.now) }
{
    match item_faults::senders_of(alloc, steps) {
        Ok(list) => Ok(list),
        Err(_) => Err(WorldFault::Memory),
    }
}

// The worlds of the phones.
ghost use Rattle.growth.specs.Growth.{WasRefused};
ghost use Rattle.std.specs.Prelude.{◌≡◌, ◌<◌, ◌≤◌, [], length, replicate, IfErr, IfOk, IsOkUnless, OnErr, OnOk};
ghost use Rattle.lte_events.specs.Ranges.{IsSetup};
ghost use Rattle.lte_world.specs.Whole.{CanApply, begun};
ghost use Rattle.fleet_world.specs.Worlds.{CanTakeAt, Goes, Takes, TakesAt, with_room};

use crate::FleetFault;
use lte_events::{Event, Line, Setup};
use lte_world::{World, WorldFault};
use std::alloc::Global;

// So many worlds, in which nothing has happened.
pub(crate) fn worlds_of(alloc: Global, setup: &Setup, phones: u16) -> Result<Vec<World>, FleetFault>
    requires { IsSetup setup.now }
    ensures memory { IsOkUnless result FleetFault.Memory }
    ensures refused { OnErr result WasRefused }
    ensures begin { IfOk result (λ worlds. worlds.items ≡ replicate phones (begun setup.now)) }
{
    let mut worlds = Vec::new(alloc);
    match add_worlds(alloc, setup, phones, &mut worlds) {
        Ok(()) => Ok(worlds),
        Err(fault) => {
            drop(worlds);
            Err(fault)
        }
    }
}

// Puts them into a list that has none.
fn add_worlds(
    alloc: Global,
    setup: &Setup,
    phones: u16,
    worlds: &mut Vec<World>,
) -> Result<(), FleetFault>
    requires setup { IsSetup setup.now }
    requires none { worlds.old.items ≡ [] }
    ensures memory { IsOkUnless result FleetFault.Memory }
    ensures refused { OnErr result WasRefused }
    ensures begin { OnOk result (worlds.new.items ≡ replicate phones (begun setup.now)) }
{
    for _phone in 0..phones {
        match growth::reserve(worlds, 1) {
            Ok(()) => {}
            Err(_) => return Err(FleetFault::Memory),
        }
        match World::new(alloc, setup) {
            Ok(world) => worlds.push_reserved(world),
            Err(_) => return Err(FleetFault::Memory),
        }
    }
    Ok(())
}

// The world of a phone takes an event: how many rows its ladder had before, and the line.
pub(crate) fn take(
    worlds: &mut Vec<World>,
    place: usize,
    event: &Event,
) -> Result<(usize, Line), WorldFault>
    requires place { place < length worlds.old.items }
    requires can { CanTakeAt worlds.old.items place event.now }
    ensures takes { TakesAt worlds.old.items worlds.new.items place event.now result }
    ensures refused { IfErr result (λ fault. fault ≡ WorldFault.Memory → WasRefused) }
{
    take_in(&mut worlds[place], event)
}

// A world takes an event.
fn take_in(world: &mut World, event: &Event) -> Result<(usize, Line), WorldFault>
    requires goes { Goes world.old }
    requires can { CanApply (with_room world.old) event.now }
    ensures takes { Takes world.old world.new event.now result }
    ensures refused { IfErr result (λ fault. fault ≡ WorldFault.Memory → WasRefused) }
{
    world.reserve()?;
    let before = world.ladder().len();
    let line = world.apply(event)?;
    Ok((before, line))
}

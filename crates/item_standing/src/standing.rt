// What the probe finds behind a run of items.
ghost use Rattle.growth.specs.Growth.{WasRefused};
ghost use Rattle.std.specs.Prelude.{◌≡◌, ◌+◌, ◌*◌, ◌≤◌, length, All, IfOk, IsOkUnless, OnOk, OnErr};
ghost use Rattle.lte_events.specs.Ranges.{has_station, IsSetup};
ghost use Rattle.lte_events.specs.Scenario.{most_events, CanHappen};
ghost use Rattle.items.specs.Items.{most_at_once};
ghost use Rattle.item_faults.specs.Entries.{most_steps};
ghost use Rattle.item_probe.specs.Parts.{most_first, most_second, most_third, third_part};
ghost use Rattle.item_probe.specs.Places.{more_acts};
ghost use Rattle.item_runs.specs.Course.{going_on};
ghost use Rattle.item_standing.specs.Standing.{after_first, after_probe, after_second, after_third, serving_by, serving_of, standing_of};

use item_lines::{Told, line_of};
use item_outcomes::names::UP_ARRIVES;
use item_outcomes::{Standing, serves_again};
use item_probe::{first_part, second_part, third_part};
use item_runs::Course;
use lte_events::{Events, Setup, StationSetup, Who};
use lte_world::WorldFault;
use std::alloc::Global;

/// Lets the probe go on behind a run of items with this setup, over the acts of a scenario of so many steps, and tells what became of phone,
/// stations and core. Where the probe's packet comes to none, this station serves. `Memory` where std refuses memory.
pub fn standing_of(
    alloc: Global,
    course: Course,
    setup: &Setup,
    acts: &Events,
    steps: u32,
    serving: u8,
) -> Result<Standing, WorldFault>
    requires setup { course.setup ≡ setup.now }
    requires is_setup { IsSetup setup.now }
    requires can_happen { All (CanHappen setup.now) acts.now.items }
    requires steps { steps ≤ most_steps }
    requires acts { steps + more_acts ≤ length acts.now.items }
    requires station { serving ≤ 7 }
    requires few { length course.coming.events + (most_first + most_second + most_third) * (most_at_once + 1) ≤ most_events }
    ensures memory { IsOkUnless result WorldFault.Memory }
    ensures refused { OnErr result WasRefused }
    ensures standing { IfOk result (λ s. s ≡ standing_of acts.now.items steps serving course) }
    ensures station { IfOk result (λ s. s.serving ≤ 7) }
{
    let mut course = course;
    let core = course.core_station();
    let reach = match course.reach(alloc) {
        Ok(reach) => reach,
        Err(fault) => {
            drop(course);
            return Err(fault);
        }
    };
    match go_first(alloc, &mut course, setup, acts, steps) {
        Ok(()) => {}
        Err(fault) => {
            drop(course);
            return Err(fault);
        }
    }
    let serving = serving_of(setup, serving, course.told());
    match go_behind(alloc, &mut course, setup, acts, steps, serving) {
        Ok(()) => {}
        Err(fault) => {
            drop(course);
            return Err(fault);
        }
    }
    let over = course.over().is_some();
    match Standing::of(alloc, course.into_told(), serving, core, reach, over) {
        Ok(standing) => Ok(standing),
        Err(_) => Err(WorldFault::Memory),
    }
}

// Lets the first part of the probe go on.
fn go_first(
    alloc: Global,
    course: &mut Course,
    setup: &Setup,
    acts: &Events,
    steps: u32,
) -> Result<(), WorldFault>
    requires setup { course.old.setup ≡ setup.now }
    requires is_setup { IsSetup setup.now }
    requires can_happen { All (CanHappen setup.now) acts.now.items }
    requires steps { steps ≤ most_steps }
    requires acts { steps + more_acts ≤ length acts.now.items }
    requires few { length course.old.coming.events + most_first * (most_at_once + 1) ≤ most_events }
    ensures memory { IsOkUnless result WorldFault.Memory }
    ensures refused { OnErr result WasRefused }
    ensures setup { OnOk result (course.new.setup ≡ course.old.setup) }
    ensures coming { OnOk result (course.new.coming ≡ after_first acts.now.items steps course.old) }
    ensures longer { OnOk result (length course.new.coming.events ≤ length course.old.coming.events + most_first * (most_at_once + 1)) }
{
    match first_part(alloc, setup, steps) {
        Ok(items) => course.go_on(acts, items.as_slice()),
        Err(_) => Err(WorldFault::Memory),
    }
}

// Lets what follows the first part go on, where this station serves.
fn go_behind(
    alloc: Global,
    course: &mut Course,
    setup: &Setup,
    acts: &Events,
    steps: u32,
    serving: u8,
) -> Result<(), WorldFault>
    requires setup { course.old.setup ≡ setup.now }
    requires is_setup { IsSetup setup.now }
    requires can_happen { All (CanHappen setup.now) acts.now.items }
    requires steps { steps ≤ most_steps }
    requires acts { steps + more_acts ≤ length acts.now.items }
    requires station { serving ≤ 7 }
    requires few { length course.old.coming.events + (most_second + most_third) * (most_at_once + 1) ≤ most_events }
    ensures memory { IsOkUnless result WorldFault.Memory }
    ensures refused { OnErr result WasRefused }
    ensures coming { OnOk result (course.new.coming ≡ after_probe acts.now.items steps serving setup.now course.old.coming) }
{
    go_second(alloc, course, setup, acts, steps, serving)?;
    if serves_again(course.told()) {
        return Ok(());
    }
    go_third(alloc, course, setup, acts, steps, serving)
}

// Lets the second part go on, where this station serves.
fn go_second(
    alloc: Global,
    course: &mut Course,
    setup: &Setup,
    acts: &Events,
    steps: u32,
    serving: u8,
) -> Result<(), WorldFault>
    requires setup { course.old.setup ≡ setup.now }
    requires is_setup { IsSetup setup.now }
    requires can_happen { All (CanHappen setup.now) acts.now.items }
    requires steps { steps ≤ most_steps }
    requires acts { steps + more_acts ≤ length acts.now.items }
    requires station { serving ≤ 7 }
    requires few { length course.old.coming.events + most_second * (most_at_once + 1) ≤ most_events }
    ensures memory { IsOkUnless result WorldFault.Memory }
    ensures refused { OnErr result WasRefused }
    ensures setup { OnOk result (course.new.setup ≡ course.old.setup) }
    ensures coming { OnOk result (course.new.coming ≡ after_second acts.now.items steps serving setup.now course.old.coming) }
    ensures longer { OnOk result (length course.new.coming.events ≤ length course.old.coming.events + most_second * (most_at_once + 1)) }
{
    match second_part(alloc, setup, steps, serving) {
        Ok(items) => course.go_on(acts, items.as_slice()),
        Err(_) => Err(WorldFault::Memory),
    }
}

// Lets the third part go on, where this station serves.
fn go_third(
    alloc: Global,
    course: &mut Course,
    setup: &Setup,
    acts: &Events,
    steps: u32,
    serving: u8,
) -> Result<(), WorldFault>
    requires setup { course.old.setup ≡ setup.now }
    requires is_setup { IsSetup setup.now }
    requires can_happen { All (CanHappen setup.now) acts.now.items }
    requires steps { steps ≤ most_steps }
    requires acts { steps + more_acts ≤ length acts.now.items }
    requires station { serving ≤ 7 }
    requires few { length course.old.coming.events + most_third * (most_at_once + 1) ≤ most_events }
    ensures memory { IsOkUnless result WorldFault.Memory }
    ensures refused { OnErr result WasRefused }
    ensures coming { OnOk result (course.new.coming ≡ going_on setup.now acts.now.items (third_part steps serving) course.old.coming) }
{
    match third_part(alloc, steps, serving) {
        Ok(items) => course.go_on(acts, items.as_slice()),
        Err(_) => Err(WorldFault::Memory),
    }
}

// The station that the phone's packet comes to, by these lines.
fn serving_of(setup: &Setup, usual: u8, told: &[Told]) -> u8
    requires is_setup { IsSetup setup.now }
    requires station { usual ≤ 7 }
    ensures serving { result ≡ serving_of setup.now usual told.now }
    ensures station { result ≤ 7 }
{
    match line_of(UP_ARRIVES, told) {
        Some(t) => serving_by(setup, usual, &t.line.who),
        None => usual,
    }
}

fn serving_by(setup: &Setup, usual: u8, who: &Who) -> u8
    requires is_setup { IsSetup setup.now }
    requires station { usual ≤ 7 }
    ensures serving { result ≡ serving_by setup.now usual who.now }
    ensures station { result ≤ 7 }
{
    match who {
        Who::Station(id) => {
            if has_station(setup.stations.as_slice(), *id) {
                *id
            } else {
                usual
            }
        }
        _ => usual,
    }
}

fn has_station(stations: &[StationSetup], id: u8) -> bool
    ensures { result ≡ has_station stations.now id }
{
    stations.iter().any(|station| station.id == id)
}

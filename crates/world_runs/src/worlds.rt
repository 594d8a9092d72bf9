// What the calls of a world show of the ordinary run, which is all in one core of two. The reports of systems with two cores stand in
// examples.
ghost use Rattle.std.specs.Prelude.{◌≡◌, ◌≤◌, All};
ghost use Rattle.lte_events.specs.Ranges.{IsSetup};
ghost use Rattle.lte_events.specs.Scenario.{CanHappen};

use crate::kept::SCENARIO;
use crate::values::same;
use core_relocation::Two;
use lte_events::{Events, Setup};
use lte_world::World;
use rec_base::u32_at;
use scenario_file::read;
use std::alloc::Global;
use std::process::Abort;
use std::test::Fail;

// Two cores in which nothing has happened. Core 0 has all stations.
fn begin(rt: &impl Abort, alloc: Global, setup: &Setup) -> Two
    requires begins { IsSetup setup.now }
    ensures { result.world.setup ≡ setup.now }
{
    Two::new(alloc, setup, &[0; 8]).ok().expect(rt, "memory")
}

// Takes the events.
fn follow(rt: &impl Abort, two: &mut Two, events: &Events)
    requires { All (CanHappen two.old.world.setup) events.now.items }
{
    for number in 0..events.len() {
        let event = events.at(number);
        assert!(rt; two.events().len() < 200_000);
        assert!(rt; two.apply(&event).is_ok(), "event {number}");
    }
}

// Compares what the calls of a world show behind the ordinary run: of its KeNB the first four octets.
fn assert_ordinary(rt: &impl Abort, world: &World) {
    let counts = (
        world.journal().len(),
        world.records(),
        world.uses().len(),
        world.replies().len(),
        world.ladder().len(),
    );
    same(rt, counts, (27, 19, 15, 1, 16));
    let shared = world.phone_kenb();
    same(rt, shared.map(|key| u32_at(&key, 0)), Some(0x5a3b5a21));
    same(
        rt,
        (world.station_kenb(0), world.station_kenb(2)),
        (shared, None),
    );
}

#[test]
fn the_calls_of_a_world_show_the_ordinary_run(rt: HostRuntime) -> Result<(), Fail> {
    let scenario = read(rt.alloc(), SCENARIO)?;
    assert!(rt; scenario.setup.cells.len() > 0);
    let mut two = begin(&rt, rt.alloc(), &scenario.setup);
    let before = (two.world().phone_kenb(), two.world().station_kenb(0));
    same(&rt, before, (None, None));
    follow(&rt, &mut two, &scenario.events);
    same(&rt, (two.holder(), two.next()), (0, None));
    assert_ordinary(&rt, two.world());
    drop(two);
    Ok(())
}

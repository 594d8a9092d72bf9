// A run, to its end or to the first coincidence.
ghost use Rattle.growth.specs.Growth.{WasRefused};
ghost use Rattle.std.specs.Prelude.{◌≡◌, [], Err, IfOk, OnOk, OnErr};
ghost use Rattle.lte_world.specs.Whole.{begun, run_of};
ghost use Rattle.report_text.specs.Summary.{tally_of};
ghost use Rattle.run_report.specs.Counted.{ComesOut, Tells};
ghost use Rattle.run_report.specs.Events.{told_of};
ghost use Rattle.lte_events.specs.Scenario.{IsScenario};
ghost use Rattle.run_report.specs.Takes.{CanTake, Takes};

use key_terms::Proof;
use lte_events::{Event, Events, Line};
use lte_world::{World, WorldFault};
use report_text::Tally;

/// How a run comes out.
#[derive(Clone, Copy)]
pub enum Course {
    /// All events happened.
    Ended,
    /// A coincidence ended it, at this step.
    Chance(u32, Proof),
}

/// Lets these events happen to a system that has just begun, one after the other, to the first coincidence, and
/// counts their lines. `Memory` where std refuses memory.
pub fn run_through(
    world: &mut World,
    events: &Events,
    tally: &mut Tally,
) -> Result<Course, WorldFault>
    requires begun { world.old ≡ begun world.old.setup }
    requires is_scenario { IsScenario world.old.setup events.now.items }
    requires none { tally.old ≡ tally_of [] }
    ensures comes_out { IfOk result (ComesOut world.old.setup events.now.items tally.new (run_of world.new)) }
    ensures refused { OnErr result WasRefused }
{
    for number in 0..events.len() {
        let event = events.at(number);
        match happen(world, &event) {
            Ok(line) => tally.count(&line),
            Err(WorldFault::Chance(proof)) => {
                let step = world.journal().len() as u32;
                return Ok(Course::Chance(step, proof));
            }
            Err(WorldFault::Memory) => return Err(WorldFault::Memory),
        }
    }
    Ok(Course::Ended)
}

// Lets one event happen, for which it makes room.
pub(crate) fn happen(world: &mut World, event: &Event) -> Result<Line, WorldFault>
    requires { CanTake world.old event.now }
    ensures tells { Tells (told_of (run_of world.old) event.now) result }
    ensures takes { OnOk result (Takes world.old event.now world.new) }
    ensures same { OnErr result (world.new.journal ≡ world.old.journal) }
    ensures refused { result ≡ Err WorldFault.Memory → WasRefused }
{
    match world.reserve() {
        Ok(()) => {}
        Err(_) => return Err(WorldFault::Memory),
    }
    world.apply(event)
}

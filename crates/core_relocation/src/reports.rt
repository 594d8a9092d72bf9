// The report of a run with two cores.
ghost use Rattle.std.specs.Prelude.{◌≡◌, ◌≤◌, [], Ok, length, All, IsTrue};
ghost use Rattle.lte_events.specs.Scenario.{IsScenario};
ghost use Rattle.run_report.specs.Written.{WritesReport};
ghost use Rattle.core_relocation.specs.Report.{answer_report, two_report_of};
ghost use Rattle.core_relocation.specs.Run.{next_answer};
ghost use Rattle.core_relocation.specs.Whole.{CanTake, StillRuns, Takes, state_written};

use crate::texts::two_text;
use crate::two::Two;
use edge_io::Sink;
use lte_events::{Event, Events, Setup};
use lte_world::WorldFault;
use run_report::{Ending, Unwritten, write_coincidence, write_end, write_text};
use std::alloc::Global;

/// Lets these events happen to a system with two cores, and writes the report of them: that of `run`, with the number of the
/// core in each line of a core, and a line for each event that asks a core which does not hold the context. A coincidence
/// ends the report. The answer is how it ends. `Memory` where std refuses memory, and `WriteFault` where the output fails; a
/// prefix is then written.
pub fn write_two<W: Sink>(
    alloc: Global,
    setup: &Setup,
    core_of: &[u8; 8],
    events: &Events,
    out: &mut W,
) -> Result<Ending, Unwritten>
    requires out_ready { IsTrue (W.told out.old).ready }
    requires is_scenario { IsScenario setup.now events.now.items }
    requires two { All (λ core. core ≤ 1) core_of.now }
    ensures { WritesReport (two_report_of setup.now core_of.now events.now.items) result (W.told out.old) (W.told out.new) }
{
    let mut two = match Two::new(alloc, setup, core_of) {
        Ok(two) => two,
        Err(_) => return Err(Unwritten::Memory),
    };
    let written = write_answers(alloc, &mut two, events, out);
    drop(two);
    written
}

// The same, in a system that has just begun.
fn write_answers<W: Sink>(
    alloc: Global,
    two: &mut Two,
    events: &Events,
    out: &mut W,
) -> Result<Ending, Unwritten>
    requires out_ready { IsTrue (W.told out.old).ready }
    requires begun { two.old.events ≡ [] }
    requires runs { StillRuns two.old }
    requires is_scenario { IsScenario two.old.world.setup events.now.items }
    ensures { WritesReport (two_report_of two.old.world.setup two.old.cores.core_of events.now.items) result (W.told out.old) (W.told out.new) }
{
    for number in 0..events.len() {
        let event = events.at(number);
        match write_answer(alloc, two, &event, out)? {
            Ending::Done => {}
            Ending::Chance => return Ok(Ending::Chance),
        }
    }
    write_end(alloc, two.world(), out).and(Ok(Ending::Done))
}

// Lets one event happen, and writes what is answered to it. The answer is `Chance` if it is one, and else `Done`.
fn write_answer<W: Sink>(
    alloc: Global,
    two: &mut Two,
    event: &Event,
    out: &mut W,
) -> Result<Ending, Unwritten>
    requires out_ready { IsTrue (W.told out.old).ready }
    requires runs { StillRuns two.old }
    requires can { CanTake two.old event.now }
    ensures report { WritesReport
        (answer_report (length two.old.events)
        (next_answer two.old.world.setup two.old.cores.core_of (state_written two.old) event.now))
        result (W.told out.old) (W.told out.new) }
    ensures takes { result ≡ Ok Ending.Done → Takes two.old event.now two.new }
{
    let step = two.events().len() as u32;
    match two.apply(event) {
        Ok(line) => write_text(two_text(alloc, step, line), out).and(Ok(Ending::Done)),
        Err(WorldFault::Chance(proof)) => {
            write_coincidence(alloc, step, proof, out).and(Ok(Ending::Chance))
        }
        Err(WorldFault::Memory) => Err(Unwritten::Memory),
    }
}

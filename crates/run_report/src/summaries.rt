ghost use Rattle.std.specs.Prelude.{◌≡◌, IsTrue};
ghost use Rattle.lte_world.specs.Whole.{begun};
ghost use Rattle.report_text.specs.Summary.{figures_text};
ghost use Rattle.lte_events.specs.Scenario.{IsScenario};
ghost use Rattle.run_report.specs.Summary.{summary_of};
ghost use Rattle.run_report.specs.Written.{WritesReport, WritesText};

use crate::courses::{Course, run_through};
use crate::reports::{write_coincidence, write_text};
use crate::{Ending, Unwritten};
use edge_io::Sink;
use lte_events::{Events, Setup};
use lte_world::World;
use report_text::{Figure, Tally, summary_line};
use std::alloc::Global;

/// Lets these events happen to a system, and writes the summary of them, each of its lines by one `write_all`.
/// At a coincidence it writes only that line. The answer is how it ends. `Memory` if std refuses memory, and
/// `WriteFault` if the output fails; a prefix is then written.
pub fn write_summary<W: Sink>(
    alloc: Global,
    setup: &Setup,
    events: &Events,
    out: &mut W,
) -> Result<Ending, Unwritten>
    requires out_ready { IsTrue (W.told out.old).ready }
    requires is_scenario { IsScenario setup.now events.now.items }
    ensures { WritesReport (summary_of setup.now events.now.items) result (W.told out.old) (W.told out.new) }
{
    let mut world = match World::new(alloc, setup) {
        Ok(world) => world,
        Err(_) => return Err(Unwritten::Memory),
    };
    let written = summarise(alloc, &mut world, events, out);
    drop(world);
    written
}

// The same, in a system that has just begun.
fn summarise<W: Sink>(
    alloc: Global,
    world: &mut World,
    events: &Events,
    out: &mut W,
) -> Result<Ending, Unwritten>
    requires out_ready { IsTrue (W.told out.old).ready }
    requires begun { world.old ≡ begun world.old.setup }
    requires is_scenario { IsScenario world.old.setup events.now.items }
    ensures { WritesReport (summary_of world.old.setup events.now.items) result (W.told out.old) (W.told out.new) }
{
    let mut tally = Tally::new();
    match run_through(world, events, &mut tally) {
        Ok(Course::Ended) => {
            let rows = world.ladder().len() as u32;
            write_figures(alloc, &tally, rows, out).and(Ok(Ending::Done))
        }
        Ok(Course::Chance(step, proof)) => {
            write_coincidence(alloc, step, proof, out).and(Ok(Ending::Chance))
        }
        Err(_) => Err(Unwritten::Memory),
    }
}

// Writes the lines of a summary.
fn write_figures<W: Sink>(
    alloc: Global,
    tally: &Tally,
    rows: u32,
    out: &mut W,
) -> Result<(), Unwritten>
    requires { IsTrue (W.told out.old).ready }
    ensures { WritesText (figures_text tally.now rows) result (W.told out.old) (W.told out.new) }
{
    let figures = Figure::all();
    for figure in &figures {
        write_text(summary_line(alloc, tally, rows, *figure), out)?;
    }
    Ok(())
}

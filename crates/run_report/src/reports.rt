ghost use Rattle.growth.specs.Growth.{WasRefused};
ghost use Rattle.std.specs.Prelude.{◌≡◌, ◌≤◌, ℕ, List, true, Ok, length, IfOk, OnErr, IsTrue};
ghost use Rattle.edge_io.specs.Lines.{are_lines};
ghost use Rattle.lte_world.specs.Whole.{begun, run_of};
ghost use Rattle.report_text.specs.Coincidence.{coincidence_text};
ghost use Rattle.lte_machine.specs.Run.{GoesOn};
ghost use Rattle.run_report.specs.Report.{report_of, end_of};
ghost use Rattle.run_report.specs.Events.{told_of, told_report, CanShow, HasCounts};
ghost use Rattle.lte_events.specs.Scenario.{IsScenario, most_events};
ghost use Rattle.run_report.specs.Takes.{CanTake, Takes};
ghost use Rattle.run_report.specs.Written.{WritesReport, WritesText};

use crate::courses::happen;
use crate::{Ending, Unwritten};
use edge_io::{Sink, write_all};
use hmac_kdf::KdfInput;
use key_terms::Proof;
use lte_events::{Event, Events, Setup};
use lte_world::{World, WorldFault};
use report_text::{chance, end, ladder_text, line};
use std::alloc::Global;

/// Lets these events happen to a system, and writes the report of them: a line for each event by one
/// `write_all`, and after the last how many events, records and rows there were, and the rows. A coincidence
/// ends the report. The answer is how it ends. `Memory` if std refuses memory, and `WriteFault` if the output
/// fails; a prefix is then written.
pub fn write_run<W: Sink>(
    alloc: Global,
    setup: &Setup,
    events: &Events,
    out: &mut W,
) -> Result<Ending, Unwritten>
    requires out_ready { IsTrue (W.told out.old).ready }
    requires is_scenario { IsScenario setup.now events.now.items }
    ensures { WritesReport (report_of setup.now events.now.items) result (W.told out.old) (W.told out.new) }
{
    let mut world = match World::new(alloc, setup) {
        Ok(world) => world,
        Err(_) => return Err(Unwritten::Memory),
    };
    let written = write_events(alloc, &mut world, events, out);
    drop(world);
    written
}

// The same, in a system that has just begun.
fn write_events<W: Sink>(
    alloc: Global,
    world: &mut World,
    events: &Events,
    out: &mut W,
) -> Result<Ending, Unwritten>
    requires out_ready { IsTrue (W.told out.old).ready }
    requires begun { world.old ≡ begun world.old.setup }
    requires is_scenario { IsScenario world.old.setup events.now.items }
    ensures { WritesReport (report_of world.old.setup events.now.items) result (W.told out.old) (W.told out.new) }
{
    for number in 0..events.len() {
        let event = events.at(number);
        match write_event(alloc, world, &event, out)? {
            Ending::Done => {}
            Ending::Chance => return Ok(Ending::Chance),
        }
    }
    write_end(alloc, world, out).and(Ok(Ending::Done))
}

/// Lets one event happen, and writes what is told of it. The answer is `Chance` if it is one, and else
/// `Done`. Its errors are those of `write_run`.
pub fn write_event<W: Sink>(
    alloc: Global,
    world: &mut World,
    event: &Event,
    out: &mut W,
) -> Result<Ending, Unwritten>
    requires out_ready { IsTrue (W.told out.old).ready }
    requires can { CanTake world.old event.now }
    ensures report { WritesReport (told_report (length world.old.journal) (told_of (run_of world.old) event.now)) result (W.told out.old) (W.told out.new) }
    ensures takes { result ≡ Ok Ending.Done → Takes world.old event.now world.new }
{
    let step = world.journal().len() as u32;
    match happen(world, event) {
        Ok(told) => write_text(line(alloc, &told), out).and(Ok(Ending::Done)),
        Err(WorldFault::Chance(proof)) => {
            write_coincidence(alloc, step, proof, out).and(Ok(Ending::Chance))
        }
        Err(WorldFault::Memory) => Err(Unwritten::Memory),
    }
}

/// Writes what shows a coincidence at this step. Its errors are those of `write_run`.
pub fn write_coincidence<W: Sink>(
    alloc: Global,
    step: u32,
    proof: Proof,
    out: &mut W,
) -> Result<(), Unwritten>
    requires out_ready { IsTrue (W.told out.old).ready }
    requires string { CanShow proof }
    ensures { WritesText (coincidence_text step proof) result (W.told out.old) (W.told out.new) }
{
    has_counts(proof);
    write_text(chance(alloc, step, &proof), out)
}

/// The COUNT of a derivation in what shows a coincidence has 32 bits.
pub fn has_counts(proof: Proof)
    ensures { HasCounts proof }
{
    match proof {
        Proof::Rows(_, made) => match made.input {
            KdfInput::Kenb(_count) => {}
            KdfInput::Nh(_) | KdfInput::Star(..) | KdfInput::Alg(..) => {}
        },
        Proof::RootIsRow(..) | Proof::Tuples(..) => {}
    }
}

/// Writes how many events, records and rows there were, and the rows of the ladder. Its errors are those of
/// `write_run`.
pub fn write_end<W: Sink>(alloc: Global, world: &World, out: &mut W) -> Result<(), Unwritten>
    requires out_ready { IsTrue (W.told out.old).ready }
    requires goes_on { GoesOn (run_of world.now) }
    requires few { length world.now.journal ≤ most_events }
    ensures { WritesText (end_of (length world.now.journal) (run_of world.now)) result (W.told out.old) (W.told out.new) }
{
    let events = world.journal().len() as u32;
    let rows = world.ladder().len() as u32;
    write_text(end(alloc, events, world.records(), rows), out)?;
    write_text(ladder_text(alloc, world.ladder()), out)
}

/// Writes a text, which is whole lines. `Memory` where std refused it to the text, and `WriteFault` where the
/// output fails.
pub fn write_text<W: Sink, E: Drop>(text: Result<Vec<u8>, E>, out: &mut W) -> Result<(), Unwritten>
    requires out_ready { IsTrue (W.told out.old).ready }
    requires lines { IfOk text (λ t. are_lines t.items ≡ true) }
    requires refused { OnErr text WasRefused }
    ensures { (octets : List ℕ) → IfOk text (λ t. t.items ≡ octets) → WritesText octets result (W.told out.old) (W.told out.new) }
{
    match text {
        Ok(text) => write_lines(&text, out),
        Err(_) => Err(Unwritten::Memory),
    }
}

/// Writes octets, which are whole lines, by one `write_all`. `WriteFault` where the output fails.
pub fn write_lines<W: Sink>(octets: &[u8], out: &mut W) -> Result<(), Unwritten>
    requires out_ready { IsTrue (W.told out.old).ready }
    requires lines { are_lines octets.now ≡ true }
    ensures { WritesText octets.now result (W.told out.old) (W.told out.new) }
{
    match write_all(out, octets) {
        Ok(()) => Ok(()),
        Err(_) => Err(Unwritten::WriteFault),
    }
}

ghost use Rattle.growth.specs.Growth.{WasRefused};
ghost use Rattle.std.specs.Prelude.{◌≡◌, ◌≢◌, ℕ, ◌≤◌, List, None, Ok, Err, length, All, IfOk, OnErr, IsTrue};
ghost use Rattle.edge_io.specs.Lines.{EndsLine};
ghost use Rattle.lte_world.specs.Whole.{run_of};
ghost use Rattle.lte_events.specs.Scenario.{IsScenarioBy, most_events};
ghost use Rattle.run_report.specs.Written.{WritesReport, WritesText};
ghost use Rattle.fleet_world.specs.Fleets.{begun, most_phones, owns_in, CanTake};
ghost use Rattle.fleet_world.specs.Worlds.{Goes};
ghost use Rattle.fleet_report.specs.Events.{event_report, HasItsCounts, IsOfPhone, Takes};
ghost use Rattle.fleet_report.specs.Lines.{IsShown, answer_output, output_text, phone_text, texts, row_outputs, end_outputs};
ghost use Rattle.fleet_report.specs.Report.{ends_from, fleet_report_of};

use crate::lines::{fault_text, phone_text, told_text};
use edge_io::Sink;
use fleet_world::{Fleet, FleetFault};
use key_terms::{Ladder, Row};
use lte_events::{Event, FleetEvents, Setup};
use lte_world::World;
use report_text::{TextMemory, end, row_line};
use run_report::{Ending, Unwritten, has_counts, write_text};
use std::alloc::Global;

/// Lets these events happen to a fleet of 1 to 256 phones and writes their report, each line by one
/// `write_all`: a line for each event, and after the last the end of each phone's own report. A coincidence ends
/// the report. The answer is how it ends. `Memory` if std refuses memory, and `WriteFault` if the output fails; a
/// prefix is then written.
pub fn write_fleet<W: Sink>(
    alloc: Global,
    setup: &Setup,
    phones: u16,
    events: &FleetEvents,
    out: &mut W,
) -> Result<Ending, Unwritten>
    requires out_ready { IsTrue (W.told out.old).ready }
    requires is_scenario { IsScenarioBy (λ x. x.1) setup.now events.now.items }
    requires some { 1 ≤ phones }
    requires phones { phones ≤ most_phones }
    requires of_phones { All (IsOfPhone phones) events.now.items }
    ensures { WritesReport (fleet_report_of setup.now phones events.now.items) result (W.told out.old) (W.told out.new) }
{
    let mut fleet = match Fleet::new(alloc, setup, phones) {
        Ok(fleet) => fleet,
        Err(_) => return Err(Unwritten::Memory),
    };
    let written = write_events(alloc, &mut fleet, phones, events, out);
    drop(fleet);
    written
}

// The same, of a fleet that has just begun.
fn write_events<W: Sink>(
    alloc: Global,
    fleet: &mut Fleet,
    phones: u16,
    events: &FleetEvents,
    out: &mut W,
) -> Result<Ending, Unwritten>
    requires out_ready { IsTrue (W.told out.old).ready }
    requires begun { fleet.old ≡ begun fleet.old.setup phones }
    requires is_scenario { IsScenarioBy (λ x. x.1) fleet.old.setup events.now.items }
    requires of_phones { All (IsOfPhone phones) events.now.items }
    ensures { WritesReport (fleet_report_of fleet.old.setup phones events.now.items) result (W.told out.old) (W.told out.new) }
{
    for number in 0..events.len() {
        let step = events.at(number);
        match write_event(alloc, fleet, step.0, &step.1, out)? {
            Ending::Done => {}
            Ending::Chance => return Ok(Ending::Chance),
        }
    }
    write_ends(alloc, fleet, phones, out).and(Ok(Ending::Done))
}

// Lets one event happen, and writes what is told of it. The answer is `Chance` if it is one, and else `Done`.
fn write_event<W: Sink>(
    alloc: Global,
    fleet: &mut Fleet,
    phone: u16,
    event: &Event,
    out: &mut W,
) -> Result<Ending, Unwritten>
    requires out_ready { IsTrue (W.told out.old).ready }
    requires goes_on { fleet.old.over ≡ None }
    requires can { CanTake fleet.old phone event.now }
    ensures report { WritesReport (event_report fleet.old phone event.now) result (W.told out.old) (W.told out.new) }
    ensures takes { result ≡ Ok Ending.Done → Takes fleet.old phone event.now fleet.new }
{
    let step = fleet.journal().len() as u32;
    let own = fleet.world(phone).journal().len() as u32;
    match fleet.apply(phone, event) {
        Ok(told) => write_text(told_text(alloc, step, &told), out).and(Ok(Ending::Done)),
        Err(fault) => write_fault(alloc, step, own, fault, out).and(Ok(Ending::Chance)),
    }
}

// Writes the line for a coincidence. Where there was no memory for an answer, nothing is written.
fn write_fault<W: Sink>(
    alloc: Global,
    step: u32,
    own: u32,
    fault: FleetFault,
    out: &mut W,
) -> Result<(), Unwritten>
    requires out_ready { IsTrue (W.told out.old).ready }
    requires shown { HasItsCounts fault → IsShown fault }
    requires refused { fault ≡ FleetFault.Memory → WasRefused }
    ensures text { fault ≢ FleetFault.Memory → WritesText (output_text (answer_output step own (Err fault))) result (W.told out.old) (W.told out.new) }
    ensures memory { fault ≡ FleetFault.Memory → (result ≡ Err Unwritten.Memory) × (out.new ≡ out.old) }
{
    if fault == FleetFault::Memory {
        return Err(Unwritten::Memory);
    }
    counts_in(fault);
    write_text(fault_text(alloc, step, own, fault), out)
}

// Writes the end of each phone's own report, phone after phone.
fn write_ends<W: Sink>(
    alloc: Global,
    fleet: &Fleet,
    phones: u16,
    out: &mut W,
) -> Result<(), Unwritten>
    requires out_ready { IsTrue (W.told out.old).ready }
    requires goes_on { fleet.now.over ≡ None }
    requires phones { phones ≡ length fleet.now.worlds }
    requires few { length fleet.now.journal ≤ most_events }
    ensures { WritesText (texts (ends_from fleet.now.setup 0 (owns_in fleet.now))) result (W.told out.old) (W.told out.new) }
{
    for phone in 0..phones {
        write_end(alloc, phone, fleet.world(phone), out)?;
    }
    Ok(())
}

// Writes how much there was of everything for a phone, and the rows of its ladder.
fn write_end<W: Sink>(
    alloc: Global,
    phone: u16,
    world: &World,
    out: &mut W,
) -> Result<(), Unwritten>
    requires out_ready { IsTrue (W.told out.old).ready }
    requires goes_on { Goes world.now }
    requires few { length world.now.journal ≤ most_events }
    ensures { WritesText (texts (end_outputs phone (length world.now.journal) (run_of world.now))) result (W.told out.old) (W.told out.new) }
{
    let events = world.journal().len() as u32;
    let ladder = world.ladder();
    let rows = ladder.len() as u32;
    write_line(alloc, phone, end(alloc, events, world.records(), rows), out)?;
    write_rows(alloc, phone, ladder, out)
}

// Writes the rows of a phone's ladder.
fn write_rows<W: Sink>(
    alloc: Global,
    phone: u16,
    ladder: &Ladder,
    out: &mut W,
) -> Result<(), Unwritten>
    requires { IsTrue (W.told out.old).ready }
    ensures { WritesText (texts (row_outputs phone ladder.now.rows 0 ladder.now.rows)) result (W.told out.old) (W.told out.new) }
{
    for number in 0..ladder.len() {
        write_line(
            alloc,
            phone,
            row_line(alloc, ladder, Row(number as u32)),
            out,
        )?;
    }
    Ok(())
}

// Writes a line of a phone for which there was memory.
fn write_line<W: Sink>(
    alloc: Global,
    phone: u16,
    line: Result<Vec<u8>, TextMemory>,
    out: &mut W,
) -> Result<(), Unwritten>
    requires ready { IsTrue (W.told out.old).ready }
    requires ends { IfOk line (λ t. EndsLine t.items) }
    requires refused { OnErr line WasRefused }
    ensures { (octets : List ℕ) → IfOk line (λ t. t.items ≡ octets) → WritesText (phone_text phone octets) result (W.told out.old) (W.told out.new) }
{
    match line {
        Ok(line) => write_text(phone_text(alloc, phone, &line), out),
        Err(_) => Err(Unwritten::Memory),
    }
}

// The COUNT of a derivation in it has 32 bits.
fn counts_in(fault: FleetFault)
    ensures { HasItsCounts fault }
{
    match fault {
        FleetFault::Chance(_, proof) => has_counts(proof),
        FleetFault::Cross { .. } | FleetFault::Memory => {}
    }
}

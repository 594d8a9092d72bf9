ghost use Rattle.std.specs.Prelude.{◌≡◌, Ok, IsTrue};
ghost use Rattle.key_audit.specs.Text.{audit_text};
ghost use Rattle.lte_world.specs.Whole.{begun};
ghost use Rattle.lte_events.specs.Scenario.{IsScenario};
ghost use Rattle.run_report.specs.Written.{WritesReport, WritesText};
ghost use Rattle.audit_report.specs.Alone.{EachAlone};
ghost use Rattle.audit_report.specs.Audited.{IsExact, AuditIsExact};
ghost use Rattle.audit_report.specs.AuditReport.{audit_report_of};
ghost use Rattle.audit_report.specs.OfRun.{AuditIsOfRun};
ghost use Rattle.key_terms.specs.Ladder.{IsLadder};

use crate::lines::write_checked;
use edge_io::Sink;
use key_audit::{audit_of, check};
use key_terms::Ladder;
use lte_events::{Events, Setup};
use lte_world::World;
use report_text::Tally;
use run_report::{Course, Ending, Unwritten, run_through, write_coincidence};
use std::alloc::Global;

/// Lets these events happen to a system, and writes the exact audit of its keys, each line by one `write_all`: which
/// station can derive which key by itself, and on which path, when a check of its own has accepted it. At
/// a coincidence it writes only that line. The answer is how it ends. `Memory` if std refuses memory, and
/// `WriteFault` if the output fails; a prefix is then written.
#[tactic(auto, using(crate::proofs::Together::each_alone))]
pub fn write_audit<W: Sink>(
    alloc: Global,
    setup: &Setup,
    events: &Events,
    out: &mut W,
) -> Result<Ending, Unwritten>
    requires out_ready { IsTrue (W.told out.old).ready }
    requires is_scenario { IsScenario setup.now events.now.items }
    ensures report { WritesReport (audit_report_of setup.now events.now.items) result (W.told out.old) (W.told out.new) }
    // What the stations of a set held lets them derive a key of the run exactly where one of them can by itself.
    ensures alone { EachAlone setup.now events.now.items }
    // And the audit that was written is exact.
    ensures exact { result ≡ Ok Ending.Done → AuditIsExact setup.now events.now.items }
    // It is that of the written run: a mark stands at a row and a station exactly where the key of the row in that run is derivable
    // from what the station held in it.
    ensures of_run { result ≡ Ok Ending.Done → AuditIsOfRun setup.now events.now.items }
{
    let mut world = match World::new(alloc, setup) {
        Ok(world) => world,
        Err(_) => return Err(Unwritten::Memory),
    };
    let written = audit_run(alloc, &mut world, events, out);
    drop(world);
    written
}

// The same, in a system that has just begun.
fn audit_run<W: Sink>(
    alloc: Global,
    world: &mut World,
    events: &Events,
    out: &mut W,
) -> Result<Ending, Unwritten>
    requires out_ready { IsTrue (W.told out.old).ready }
    requires begun { world.old ≡ begun world.old.setup }
    requires is_scenario { IsScenario world.old.setup events.now.items }
    ensures report { WritesReport (audit_report_of world.old.setup events.now.items) result (W.told out.old) (W.told out.new) }
    ensures exact { result ≡ Ok Ending.Done → AuditIsExact world.old.setup events.now.items }
    ensures of_run { result ≡ Ok Ending.Done → AuditIsOfRun world.old.setup events.now.items }
{
    let mut tally = Tally::new();
    match run_through(world, events, &mut tally) {
        Ok(Course::Ended) => write_ladder(alloc, world.ladder(), out).and(Ok(Ending::Done)),
        Ok(Course::Chance(step, proof)) => {
            write_coincidence(alloc, step, proof, out).and(Ok(Ending::Chance))
        }
        Err(_) => Err(Unwritten::Memory),
    }
}

// Writes the audit of a ladder that the check accepts.
#[tactic(auto, using(crate::proofs::Together::is_exact))]
fn write_ladder<W: Sink>(alloc: Global, ladder: &Ladder, out: &mut W) -> Result<(), Unwritten>
    requires out_ready { IsTrue (W.told out.old).ready }
    ensures text { WritesText (audit_text ladder.now.rows) result (W.told out.old) (W.told out.new) }
    ensures exact { IsExact ladder.now.rows }
    ensures ladder { IsLadder ladder.now.rows }
{
    match audit_of(alloc, ladder) {
        Ok(audit) => {
            if check(ladder, &audit) {
                write_checked(alloc, ladder, &audit, out)
            } else {
                unreachable!()
            }
        }
        Err(_) => Err(Unwritten::Memory),
    }
}

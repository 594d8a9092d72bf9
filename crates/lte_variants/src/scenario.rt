// What becomes of the scenario that a text says.
ghost use Rattle.growth.specs.Growth.{WasRefused};
ghost use Rattle.std.specs.Prelude.{◌≡◌, ◌≢◌, Err, IsTrue};
ghost use Rattle.edge_io.specs.Cause.{NoFault, Rose};
ghost use Rattle.edge_io.specs.Used.{UsedAsSink};
ghost use Rattle.lte_events.specs.Scenario.{IsScenario};
ghost use Rattle.lte_variants.specs.Keys.{KeysTold};
ghost use Rattle.lte_variants.specs.Output.{output_of, refusal_output, scenario_output, status_of};
ghost use Rattle.lte_variants.specs.Request.{IsRequest};
ghost use Rattle.lte_variants.specs.Run.{WritesAt};
ghost use Rattle.variant_keys.specs.Told.{KeysAreTold};

use crate::report::write_report;
use crate::request::Request;
use crate::status::Status;
use edge_io::{Sink, write_all};
use run_report::Unwritten;
use scenario_file::{Scenario, ScenarioFault, read};
use std::alloc::Global;
use variant_keys::keys_are_told;
use variant_runs::Study;

/// The greatest number of steps of a scenario.
pub const MOST_STEPS: usize = 2_000;

/// Writes the output for a text.
pub(crate) fn answer<W: Sink>(
    alloc: Global,
    request: &Request,
    octets: &[u8],
    out: &mut W,
) -> Status
    requires ready { IsTrue (W.told out.old).ready }
    requires request { IsRequest request.now }
    ensures text { WritesAt (output_of request.now octets.now) result (W.told out.old) (W.told out.new) }
    ensures cause { result ≡ Status.WriteFault → Rose (W.told out.old).write_faults (W.told out.new).write_faults }
    ensures memory { result ≡ Status.Memory → WasRefused }
    ensures no_fault { result ≢ Status.WriteFault → NoFault (W.told out.old) (W.told out.new) }
    ensures out { UsedAsSink (W.told out.old) (W.told out.new) }
    ensures keys { result ≡ Status.Done → KeysTold octets.now }
{
    match read(alloc, octets) {
        Ok(scenario) => answer_scenario(alloc, request, scenario, out),
        Err(ScenarioFault::Memory) => Status::Memory,
        Err(fault) => write_refusal(&fault, out),
    }
}

// Writes why a text is no scenario.
#[tactic(auto, using(crate::proofs::Ends::refused_is))]
fn write_refusal<W: Sink>(fault: &ScenarioFault, out: &mut W) -> Status
    requires { IsTrue (W.told out.old).ready }
    ensures text { WritesAt (refusal_output fault.now) result (W.told out.old) (W.told out.new) }
    ensures cause { result ≡ Status.WriteFault → Rose (W.told out.old).write_faults (W.told out.new).write_faults }
    ensures memory { result ≢ Status.Memory }
    ensures no_fault { result ≢ Status.WriteFault → NoFault (W.told out.old) (W.told out.new) }
    ensures out { UsedAsSink (W.told out.old) (W.told out.new) }
{
    match write_all(out, fault.line().as_slice()) {
        Ok(()) => Status::Refused,
        Err(_) => Status::WriteFault,
    }
}

// Writes the output for a scenario.
fn answer_scenario<W: Sink>(
    alloc: Global,
    request: &Request,
    scenario: Scenario,
    out: &mut W,
) -> Status
    requires ready { IsTrue (W.told out.old).ready }
    requires request { IsRequest request.now }
    requires is_scenario { IsScenario scenario.setup scenario.events.items }
    ensures text { WritesAt (scenario_output request.now scenario.setup scenario.events.items) result (W.told out.old) (W.told out.new) }
    ensures cause { result ≡ Status.WriteFault → Rose (W.told out.old).write_faults (W.told out.new).write_faults }
    ensures memory { result ≡ Status.Memory → WasRefused }
    ensures no_fault { result ≢ Status.WriteFault → NoFault (W.told out.old) (W.told out.new) }
    ensures out { UsedAsSink (W.told out.old) (W.told out.new) }
    ensures keys { result ≡ Status.Done → KeysAreTold scenario.setup scenario.events.items }
{
    if scenario.events.len() > MOST_STEPS {
        return Status::TooManySteps;
    }
    keys_are_told(&scenario.setup, &scenario.events);
    match Study::of(alloc, scenario.setup, &scenario.events) {
        Ok(Some(study)) => {
            let written = write_report(alloc, request, &study, out);
            drop(study);
            status_of(written)
        }
        Ok(None) => Status::Coincidence,
        Err(_) => Status::Memory,
    }
}

// The status at which the writing ended.
fn status_of(written: Result<(), Unwritten>) -> Status
    ensures value { result ≡ status_of written }
    ensures memory { result ≡ Status.Memory → written ≡ Err Unwritten.Memory }
{
    match written {
        Ok(()) => Status::Done,
        Err(Unwritten::Memory) => Status::Memory,
        Err(Unwritten::WriteFault) => Status::WriteFault,
    }
}

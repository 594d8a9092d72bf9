ghost use Rattle.growth.specs.Growth.{WasRefused};
ghost use Rattle.std.specs.Prelude.{◌≡◌, ◌≢◌, ◌↔◌, ℕ, List, Ok, Err, IfOk, IfErr, IsTrue};
ghost use Rattle.lte_sec_app.specs.Run.{UsesSink, WhereRun, WritesOutput};
ghost use Rattle.lte_sec_app.specs.Scenario.{refusal_output, run_output, status_of, HasHeadline, IsRefused};
ghost use Rattle.lte_sec_app.specs.Text.{Holds};
ghost use Rattle.lte_sec_app.specs.declared.command.TextCommand.{TextCommand};

use crate::status::Status;
use edge_io::{Sink, write_all};
use run_report::{Ending, Unwritten, write_run};
use scenario_file::{ScenarioFault, read};
use std::alloc::Global;

// Writes the report of the scenario that a text says, or the refusal of a text that says none.
pub(crate) fn report_run<W: Sink>(alloc: Global, octets: &[u8], out: &mut W) -> Status
    requires { IsTrue (W.told out.old).ready }
    ensures writes { WritesOutput W.told (run_output octets.now) result out.old out.new }
    ensures headline { WhereRun (HasHeadline octets.now) result }
{
    match unless_refused(read(alloc, octets), out) {
        Ok(scenario) => status_of(write_run(alloc, &scenario.setup, &scenario.events, out)),
        Err(status) => status,
    }
}

// The scenario that was read. Of a text that is none the refusal is written, and only want of memory is answered as
// such.
pub(crate) fn unless_refused<T, W: Sink>(
    reading: Result<T, ScenarioFault>,
    out: &mut W,
) -> Result<T, Status>
    requires ready { IsTrue (W.told out.old).ready }
    requires memory { IfErr reading (λ fault. fault ≡ ScenarioFault.Memory → WasRefused) }
    ensures read { IfOk result (λ scenario. (reading ≡ Ok scenario) × (out.new ≡ out.old)) }
    ensures refused { IfErr result (λ status. IsRefused reading status (W.told out.old) (W.told out.new)) }
    ensures memory { (result ≡ Err Status.Memory) ↔ (reading ≡ Err ScenarioFault.Memory) }
    ensures memory_out { result ≡ Err Status.Memory → out.new ≡ out.old }
    ensures holds { IfErr result (λ status. (command : TextCommand) (octets : List ℕ) → WhereRun (Holds command octets) status) }
    ensures sink { IfErr result (λ status. UsesSink status (W.told out.old) (W.told out.new)) }
{
    match reading {
        Ok(scenario) => Ok(scenario),
        Err(ScenarioFault::Memory) => Err(Status::Memory),
        Err(fault) => Err(write_refusal(&fault, out)),
    }
}

// Writes why a text is no scenario.
#[tactic(auto, using(crate::proofs::Ends::refused_is))]
fn write_refusal<W: Sink>(fault: &ScenarioFault, out: &mut W) -> Status
    requires { IsTrue (W.told out.old).ready }
    ensures writes { WritesOutput W.told (refusal_output fault.now) result out.old out.new }
    ensures memory { result ≢ Status.Memory }
    ensures holds { (command : TextCommand) (octets : List ℕ) → WhereRun (Holds command octets) result }
{
    match write_all(out, fault.line().as_slice()) {
        Ok(()) => Status::Refused,
        Err(_) => Status::WriteFault,
    }
}

// The status with which a report ends.
pub(crate) fn status_of(written: Result<Ending, Unwritten>) -> Status
    ensures value { result ≡ status_of written }
    ensures memory { result ≡ Status.Memory → written ≡ Err Unwritten.Memory }
{
    match written {
        Ok(Ending::Done) => Status::Done,
        Ok(Ending::Chance) => Status::Coincidence,
        Err(Unwritten::Memory) => Status::Memory,
        Err(Unwritten::WriteFault) => Status::WriteFault,
    }
}

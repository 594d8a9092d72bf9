ghost use Rattle.std.specs.Prelude.{IsTrue};
ghost use Rattle.lte_sec_app.specs.Audit.{audit_output, HasAudit};
ghost use Rattle.lte_sec_app.specs.Run.{WhereRun, WritesOutput};

use crate::scenario::{status_of, unless_refused};
use crate::status::Status;
use audit_report::write_audit;
use edge_io::Sink;
use scenario_file::read;
use std::alloc::Global;

// Writes the audit of the keys of a scenario, or the refusal of a text that says none.
pub(crate) fn report_audit<W: Sink>(alloc: Global, octets: &[u8], out: &mut W) -> Status
    requires { IsTrue (W.told out.old).ready }
    ensures writes { WritesOutput W.told (audit_output octets.now) result out.old out.new }
    ensures holds { WhereRun (HasAudit octets.now) result }
{
    match unless_refused(read(alloc, octets), out) {
        Ok(scenario) => status_of(write_audit(alloc, &scenario.setup, &scenario.events, out)),
        Err(status) => status,
    }
}

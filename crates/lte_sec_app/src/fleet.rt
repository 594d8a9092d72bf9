ghost use Rattle.std.specs.Prelude.{IsTrue};
ghost use Rattle.lte_sec_app.specs.Fleet.{fleet_output, HasFleet};
ghost use Rattle.lte_sec_app.specs.Run.{WhereRun, WritesOutput};

use crate::scenario::{status_of, unless_refused};
use crate::status::Status;
use edge_io::Sink;
use fleet_report::write_fleet;
use scenario_file::read_fleet;
use std::alloc::Global;

// Writes what happens to the phones of a scenario, or the refusal of a text that says none.
pub(crate) fn report_fleet<W: Sink>(alloc: Global, octets: &[u8], out: &mut W) -> Status
    requires { IsTrue (W.told out.old).ready }
    ensures writes { WritesOutput W.told (fleet_output octets.now) result out.old out.new }
    ensures holds { WhereRun (HasFleet octets.now) result }
{
    match unless_refused(read_fleet(alloc, octets), out) {
        Ok(scenario) => status_of(write_fleet(
            alloc,
            &scenario.setup,
            scenario.phones,
            &scenario.events,
            out,
        )),
        Err(status) => status,
    }
}

ghost use Rattle.std.specs.Prelude.{IsTrue};
ghost use Rattle.lte_sec_app.specs.Run.{WhereRun, WritesOutput};
ghost use Rattle.lte_sec_app.specs.Two.{two_output, HasTwo};

use crate::scenario::{status_of, unless_refused};
use crate::status::Status;
use core_relocation::write_two;
use edge_io::Sink;
use scenario_file::read_two;
use std::alloc::Global;

// Writes the report of a scenario with two cores, or the refusal of a text that says none.
pub(crate) fn report_two<W: Sink>(alloc: Global, octets: &[u8], out: &mut W) -> Status
    requires { IsTrue (W.told out.old).ready }
    ensures writes { WritesOutput W.told (two_output octets.now) result out.old out.new }
    ensures holds { WhereRun (HasTwo octets.now) result }
{
    match unless_refused(read_two(alloc, octets), out) {
        Ok(scenario) => status_of(write_two(
            alloc,
            &scenario.setup,
            &scenario.core_of,
            &scenario.events,
            out,
        )),
        Err(status) => status,
    }
}

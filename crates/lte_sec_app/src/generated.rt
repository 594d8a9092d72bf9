ghost use Rattle.std.specs.Prelude.{◌≤◌, IsTrue};
ghost use Rattle.lte_properties.specs.Headline.{Headline};
ghost use Rattle.scenario_file.specs.Draws.{generated_setup, generated};
ghost use Rattle.lte_sec_app.specs.Command.{most_steps};
ghost use Rattle.lte_sec_app.specs.Generated.{gen_output, WritingIsComplete};
ghost use Rattle.lte_sec_app.specs.Run.{WritesOutput};

use crate::scenario::status_of;
use crate::status::Status;
use edge_io::Sink;
use run_report::write_summary;
use scenario_file::generate;
use std::alloc::Global;

// The command `gen`.
#[tactic(auto, using(crate::proofs::Writing::generated_headline, crate::proofs::Writing::writing_is_complete))]
pub(crate) fn report_gen<W: Sink>(alloc: Global, steps: u32, seed: u32, out: &mut W) -> Status
    requires out_ready { IsTrue (W.told out.old).ready }
    requires some { 1 ≤ steps }
    requires few { steps ≤ most_steps }
    ensures writes { WritesOutput W.told (gen_output steps seed) result out.old out.new }
    ensures complete { WritingIsComplete (gen_output steps seed) result (W.told out.old) (W.told out.new) }
    ensures headline { Headline generated_setup (generated steps seed) }
{
    match generate(alloc, steps, seed) {
        Ok(scenario) => status_of(write_summary(alloc, &scenario.setup, &scenario.events, out)),
        Err(_) => Status::Memory,
    }
}

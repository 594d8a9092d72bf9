ghost use Rattle.std.specs.Prelude.{◌≡◌, ◌≢◌, ℕ, List, Some, IsTrue};
ghost use Rattle.edge_io.specs.Cause.{NoFault};
ghost use Rattle.edge_io.specs.Used.{UsedAsSource};
ghost use Rattle.lte_sec_app.specs.Run.{CommandAt, CommandIsComplete, UsesSink, WhereRun, WritesOutput};
ghost use Rattle.lte_sec_app.specs.Text.{text_output, Holds, HoldsOf};

use crate::audit::report_audit;
use crate::command::TextCommand;
use crate::fleet::report_fleet;
use crate::ladder::report_ladder;
use crate::reading::read_text;
use crate::scenario::report_run;
use crate::status::Status;
use crate::two::report_two;
use edge_io::{Sink, Source};
use std::alloc::Global;

// A command that reads a text and writes its output.
pub(crate) fn answer_text<R: Source, W: Sink>(
    alloc: Global,
    command: TextCommand,
    input: &mut R,
    out: &mut W,
) -> Status
    requires input_ready { IsTrue (R.told input.old).ready }
    requires out_ready { IsTrue (W.told out.old).ready }
    ensures at { CommandAt (text_output command) result (R.told input.old) (R.told input.new) (W.told out.old) (W.told out.new) }
    ensures complete { CommandIsComplete (text_output command) result (R.told input.old) (R.told input.new) (W.told out.old) (W.told out.new) }
    ensures holds { HoldsOf command result (R.told input.old) }
    ensures no_refusal { (octets : List ℕ) → (R.told input.old).left ≡ Some octets → result ≡ Status.Memory → (text_output command octets).ends ≡ Status.Refused → out.new ≡ out.old }
    ensures unread { result ≡ Status.ReadFault → out.new ≡ out.old }
    ensures too_long { result ≡ Status.TooLong → out.new ≡ out.old }
    ensures no_read_fault { result ≢ Status.ReadFault → NoFault (R.told input.old) (R.told input.new) }
    ensures input { UsedAsSource (R.told input.old) (R.told input.new) }
    ensures sink { UsesSink result (W.told out.old) (W.told out.new) }
{
    match read_text(alloc, input) {
        Ok(octets) => write_text(alloc, command, &octets, out),
        Err(status) => status,
    }
}

// Writes the output of a command for a text.
fn write_text<W: Sink>(alloc: Global, command: TextCommand, octets: &[u8], out: &mut W) -> Status
    requires { IsTrue (W.told out.old).ready }
    ensures writes { WritesOutput W.told (text_output command octets.now) result out.old out.new }
    ensures holds { WhereRun (Holds command octets.now) result }
{
    match command {
        TextCommand::Ladder => report_ladder(alloc, octets, out),
        TextCommand::Run => report_run(alloc, octets, out),
        TextCommand::Fleet => report_fleet(alloc, octets, out),
        TextCommand::Two => report_two(alloc, octets, out),
        TextCommand::Audit => report_audit(alloc, octets, out),
    }
}

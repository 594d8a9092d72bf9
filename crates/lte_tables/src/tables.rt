ghost use Rattle.growth.specs.Growth.{WasRefused};
ghost use Rattle.std.specs.Prelude.{◌≡◌, IfOk, IsTrue, OnErr};
ghost use Rattle.std.specs.String.{string_bytes};
ghost use Rattle.edge_io.specs.Cause.{Rose};
ghost use Rattle.edge_io.specs.Octets.{Grows, GrowsByProperPrefix};
ghost use Rattle.lte_tables.specs.Tables.{tables};

use crate::answers::answer_lines;
use crate::inputs::input_lines;
use crate::outcomes::{fault_lines, heals_lines, message_lines, outcome_lines};
use crate::records::record_lines;
use crate::scenario::field_lines;
use crate::sends::sends_lines;
use crate::status::Status;
use edge_io::{Sink, write_all};
use std::alloc::{AllocError, Global};

/// Writes all lines. Where writing failed, some are written and not all; where memory ran out, none.
pub fn write_tables<W: Sink>(alloc: Global, out: &mut W) -> Status
    requires ready { IsTrue (W.told out.old).ready }
    ensures written { result ≡ Status.Done → Grows (W.told out.old).written (W.told out.new).written tables }
    ensures cut { result ≡ Status.WriteFault →
        GrowsByProperPrefix (W.told out.old).written (W.told out.new).written tables }
    ensures fault { result ≡ Status.WriteFault → Rose (W.told out.old).write_faults (W.told out.new).write_faults }
    ensures memory { result ≡ Status.Memory → WasRefused }
    ensures none { result ≡ Status.Memory → out.new ≡ out.old }
{
    match tables(alloc) {
        Ok(text) => match write_all(out, text.as_bytes()) {
            Ok(()) => Status::Done,
            Err(_) => Status::WriteFault,
        },
        Err(_) => Status::Memory,
    }
}

// All lines.
#[tactic(auto, unfolding(crate::specs::Tables::tables))]
fn tables(alloc: Global) -> Result<String, AllocError>
    ensures text { IfOk result (λ text. string_bytes text ≡ tables) }
    ensures refused { OnErr result WasRefused }
{
    let (answers, records, inputs) = (answer_lines(), record_lines(), input_lines());
    let (messages, sends) = (message_lines(), sends_lines());
    let (faults, outcomes, heals, fields) = (
        fault_lines(),
        outcome_lines(),
        heals_lines(),
        field_lines(),
    );
    growth::format(
        alloc,
        format_args!(
            "{answers}{records}{inputs}{messages}{sends}{faults}{outcomes}{heals}{fields}"
        ),
    )
}

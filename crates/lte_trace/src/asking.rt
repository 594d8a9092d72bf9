// The text of a question, and what is written for it.
ghost use Rattle.growth.specs.Growth.{WasRefused};
ghost use Rattle.std.specs.Prelude.{◌≡◌, ◌≢◌, ◌≤◌, Err, length, IfOk, IfErr, IfSome, IsTrue, OnErr, OnOk, true};
ghost use Rattle.edge_io.specs.Cause.{NoFault, Rose};
ghost use Rattle.edge_io.specs.Lines.{are_lines};
ghost use Rattle.edge_io.specs.Told.{Told, HasEnded};
ghost use Rattle.edge_io.specs.Used.{UsedAsSource, UsedAsSink};
ghost use Rattle.lte_trace.specs.Answer.{IsAnswer};
ghost use Rattle.lte_trace.specs.Run.{most_octets, RunAt, WritesAt};
ghost use Rattle.lte_trace.specs.Status.{status_of};

use crate::answer::{Answer, Ends, answered};
use crate::status::Status;
use edge_io::{ReadAll, Sink, Source, read_all, write_all};
use std::alloc::{AllocError, Global};

/// The greatest number of octets of an input.
pub const MOST_OCTETS: usize = 1_048_576;

/// Reads a text, or answers the status that says why it was not read.
pub(crate) fn read_text<R: Source>(alloc: Global, input: &mut R) -> Result<Vec<u8>, Status>
    requires { IsTrue (R.told input.old).ready }
    ensures end { OnOk result (HasEnded (R.told input.new)) }
    ensures text { IfOk result (λ text. IfSome (R.told input.old).left (λ left. text.items ≡ left)) }
    ensures within { IfOk result (λ text. length text.items ≤ most_octets) }
    ensures unread { IfErr result (λ status. (out : Told) → RunAt status (R.told input.old) (R.told input.new) out out) }
    ensures memory { IfErr result (λ status. status ≡ Status.Memory → WasRefused) }
    ensures some { result ≢ Err Status.BadWords }
    ensures no_fault { result ≢ Err Status.ReadFault → NoFault (R.told input.old) (R.told input.new) }
    ensures input { UsedAsSource (R.told input.old) (R.told input.new) }
{
    match read_all(alloc, input, MOST_OCTETS) {
        Ok(octets) => Ok(octets),
        Err(ReadAll::Memory) => Err(Status::Memory),
        Err(ReadAll::ReadFault) => Err(Status::ReadFault),
        Err(ReadAll::TooLong) => Err(Status::TooLong),
    }
}

/// Writes the answer to a text.
pub(crate) fn write_answer<W: Sink>(alloc: Global, octets: &[u8], out: &mut W) -> Status
    requires { IsTrue (W.told out.old).ready }
    ensures written { WritesAt result octets.now (W.told out.old) (W.told out.new) }
    ensures cause { result ≡ Status.WriteFault → Rose (W.told out.old).write_faults (W.told out.new).write_faults }
    ensures memory { result ≡ Status.Memory → WasRefused }
    ensures no_fault { result ≢ Status.WriteFault → NoFault (W.told out.old) (W.told out.new) }
    ensures out { UsedAsSink (W.told out.old) (W.told out.new) }
{
    match answer_of(alloc, octets) {
        Ok(answer) => match write_all(out, answer.text.as_slice()) {
            Ok(()) => status_of(answer.ends),
            Err(_) => Status::WriteFault,
        },
        Err(_) => Status::Memory,
    }
}

// The answer to a text, which is lines or nothing.
fn answer_of(alloc: Global, octets: &[u8]) -> Result<Answer, AllocError>
    ensures answer { IfOk result (λ answer. IsAnswer octets.now answer.ends answer.text.items) }
    ensures lines { IfOk result (λ answer. are_lines answer.text.items ≡ true) }
    ensures refused { OnErr result WasRefused }
{
    answered(alloc, octets)
}

// The status by what became of the text.
fn status_of(ends: Ends) -> Status
    ensures { result ≡ status_of ends }
{
    match ends {
        Ends::Explained => Status::Done,
        Ends::Refused => Status::Refused,
        Ends::TooMany => Status::TooMany,
    }
}

ghost use Rattle.std.specs.Prelude.{◌≡◌, ◌≢◌, Ok, IfOk, IfErr, IsTrue};
ghost use Rattle.growth.specs.Growth.{WasRefused};
ghost use Rattle.edge_io.specs.Cause.{NoFault};
ghost use Rattle.edge_io.specs.Used.{UsedAsSink};
ghost use Rattle.ladder_text.specs.Text.{reading_of};
ghost use Rattle.ladder_text.specs.Report.{output_of, Refuses, Writes};

use crate::ending::Ending;
use crate::line::LadderLine;
use crate::report::{write_refusal, write_report};
use crate::text::{TextFault, read_lines};
use edge_io::Sink;
use std::alloc::Global;

/// Writes the output for a ladder text: the row of each line, or the refusal of the first bad one. The whole text
/// is read before anything is written. `Memory` only where std refuses memory.
pub fn write_answer<W: Sink>(alloc: Global, text: &[u8], out: &mut W) -> Ending
    requires ready { IsTrue (W.told out.old).ready }
    ensures output { Writes (output_of (reading_of text.now)) result (W.told out.old) (W.told out.new) }
    ensures no_refusal { result ≡ Ending.Memory → (output_of (reading_of text.now)).ends ≡ Ending.Refused → out.new ≡ out.old }
    ensures memory { result ≡ Ending.Memory → WasRefused }
    ensures no_fault { result ≢ Ending.WriteFault → NoFault (W.told out.old) (W.told out.new) }
    ensures out { UsedAsSink (W.told out.old) (W.told out.new) }
{
    match unless_bad(read_lines(alloc, text), out) {
        Ok(lines) => write_report(alloc, &lines, out),
        Err(ending) => ending,
    }
}

// The lines that were read. Of a bad line the refusal is written, and only want of memory is answered as such.
fn unless_bad<W: Sink>(
    reading: Result<Vec<LadderLine>, TextFault>,
    out: &mut W,
) -> Result<Vec<LadderLine>, Ending>
    requires ready { IsTrue (W.told out.old).ready }
    requires memory { IfErr reading (λ fault. fault ≡ TextFault.Memory → WasRefused) }
    ensures read { IfOk result (λ lines. (reading ≡ Ok lines) × (out.new ≡ out.old)) }
    ensures refused { IfErr result (λ ending. Refuses reading ending (W.told out.old) (W.told out.new)) }
    ensures memory { IfErr result (λ ending. ending ≡ Ending.Memory → out.new ≡ out.old) }
    ensures memory_refused { IfErr result (λ ending. ending ≡ Ending.Memory → WasRefused) }
    ensures no_fault { IfErr result (λ ending. ending ≢ Ending.WriteFault → NoFault (W.told out.old) (W.told out.new)) }
    ensures out { UsedAsSink (W.told out.old) (W.told out.new) }
{
    match reading {
        Ok(lines) => Ok(lines),
        Err(TextFault::BadLine(line)) => Err(write_refusal(line, out)),
        Err(TextFault::Memory) => Err(Ending::Memory),
    }
}

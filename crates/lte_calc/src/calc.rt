ghost use Rattle.std.specs.Prelude.{◌≡◌, ◌≢◌, ◌↔◌, ◌<◌, length, IsTrue};
ghost use Rattle.growth.specs.Growth.{WasRefused};
ghost use Rattle.edge_io.specs.Cause.{NoFault};
ghost use Rattle.edge_io.specs.Used.{UsedAsSource, UsedAsSink};
ghost use Rattle.lte_calc.specs.Run.{Run, RunIsComplete};

use crate::lines::answer_lines;
use crate::status::Status;
use edge_io::{Sink, Source};
use std::alloc::Global;

/// Runs the program: answers each line of the input, in order, and returns the status. It holds one line at
/// a time.
///
/// It takes no words after its name: `BadWords` if there are any, and input and output stay as they were.
pub fn run<R: Source, W: Sink>(
    alloc: Global,
    words: &[String],
    input: &mut R,
    out: &mut W,
) -> Status
    requires input_ready { IsTrue (R.told input.old).ready }
    requires out_ready { IsTrue (W.told out.old).ready }

    // Words leave all as it was.
    ensures bad_words { (result ≡ Status.BadWords) ↔ (0 < length words.now) }
    ensures bad_words_input { result ≡ Status.BadWords → input.new ≡ input.old }
    ensures bad_words_out { result ≡ Status.BadWords → out.new ≡ out.old }

    // What is read and written, and the cause of each status.
    ensures run { result ≢ Status.BadWords → Run result (R.told input.old) (R.told input.new) (W.told out.old) (W.told out.new) }
    ensures complete { result ≢ Status.BadWords → RunIsComplete result (R.told input.old) (R.told input.new) (W.told out.old) (W.told out.new) }

    // Each other status has met no fault, want of memory among them.
    ensures no_read_fault { result ≢ Status.ReadFault → NoFault (R.told input.old) (R.told input.new) }
    ensures no_write_fault { result ≢ Status.WriteFault → NoFault (W.told out.old) (W.told out.new) }

    // Memory ran out only where std refused it: no line is the cause, good or bad.
    ensures memory { result ≡ Status.Memory → WasRefused }

    // What stays of input and output.
    ensures input { UsedAsSource (R.told input.old) (R.told input.new) }
    ensures out { UsedAsSink (W.told out.old) (W.told out.new) }
{
    if words.is_empty() {
        answer_lines(alloc, input, out)
    } else {
        Status::BadWords
    }
}

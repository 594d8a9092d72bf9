ghost use Rattle.std.specs.Prelude.{◌≡◌, ◌≢◌, ◌↔◌, None, Some, IfSome, IsTrue};
ghost use Rattle.growth.specs.Growth.{WasRefused};
ghost use Rattle.edge_io.specs.Cause.{NoFault};
ghost use Rattle.edge_io.specs.Used.{UsedAsSource, UsedAsSink};
ghost use Rattle.lte_variants.specs.Keys.{KeysTold};
ghost use Rattle.lte_variants.specs.Once.{ChoicesOnce};
ghost use Rattle.lte_variants.specs.Request.{request_of, IsRequest};
ghost use Rattle.lte_variants.specs.Run.{RunAt, RunIsComplete};
ghost use Rattle.lte_variants.specs.declared.request.Request.{Request as ARequest};

use crate::reading::read_text;
use crate::request::{Request, request_of};
use crate::scenario::answer;
use crate::status::Status;
use edge_io::{Sink, Source};
use std::alloc::Global;

/// Runs the program with the words after its name: reads a scenario, and writes what becomes of it with faults of its
/// messages.
///
/// - `one` takes each fault alone, `pairs` two of them and `triples` three; `sets` with a number behind it so many, up to eight.
/// - A share, as `2/3` behind that word, takes each third choice of them only, from the second on.
/// - `lost`, `late`, `twice` and `again` have only faults of these kinds happen.
/// - `of` with steps behind it has faults happen to the messages alone that these deliver, up to eight, each later than the one before.
///   More than five faults are taken only so.
/// - `--packets` has faults happen to user packets too.
///
/// The output is a line for the scenario, one for each of its messages, one for each choice of faults that go together, and the
/// number of these. For other words the answer is `BadWords`, and input and output stay as they were.
pub fn run<R: Source, W: Sink>(
    alloc: Global,
    words: &[String],
    input: &mut R,
    out: &mut W,
) -> Status
    requires input_ready { IsTrue (R.told input.old).ready }
    requires out_ready { IsTrue (W.told out.old).ready }

    // Words that are no request leave all as it was.
    ensures bad_words { (result ≡ Status.BadWords) ↔ (request_of words.now ≡ None) }
    ensures bad_words_input { result ≡ Status.BadWords → input.new ≡ input.old }
    ensures bad_words_out { result ≡ Status.BadWords → out.new ≡ out.old }

    // What is read and written, and the cause of each status.
    ensures run { (request : ARequest) → request_of words.now ≡ Some request → RunAt request result (R.told input.old) (R.told input.new) (W.told out.old) (W.told out.new) }
    ensures complete { (request : ARequest) → request_of words.now ≡ Some request → RunIsComplete request result (R.told input.old) (R.told input.new) (W.told out.old) (W.told out.new) }

    // Where all was told, what is told of keys that differ is exact, and what heals leads to one key.
    ensures keys { result ≡ Status.Done → IfSome (R.told input.old).left KeysTold }

    // Of the choices of faults that are asked for, none stands twice.
    ensures once { (request : ARequest) → request_of words.now ≡ Some request → IfSome (R.told input.old).left (ChoicesOnce request) }

    // Memory ran out only where std refused it.
    ensures memory { result ≡ Status.Memory → WasRefused }

    // An input that was not read within the limit has no output.
    ensures unread { result ≡ Status.ReadFault → out.new ≡ out.old }
    ensures too_long { result ≡ Status.TooLong → out.new ≡ out.old }

    // Each other status has met no fault, want of memory among them.
    ensures no_read_fault { result ≢ Status.ReadFault → NoFault (R.told input.old) (R.told input.new) }
    ensures no_write_fault { result ≢ Status.WriteFault → NoFault (W.told out.old) (W.told out.new) }

    // What stays of input and output.
    ensures input { UsedAsSource (R.told input.old) (R.told input.new) }
    ensures out { UsedAsSink (W.told out.old) (W.told out.new) }
{
    match request_of(words) {
        Some(request) => answer_input(alloc, &request, input, out),
        None => Status::BadWords,
    }
}

// Reads a text, and writes the output for it.
fn answer_input<R: Source, W: Sink>(
    alloc: Global,
    request: &Request,
    input: &mut R,
    out: &mut W,
) -> Status
    requires input_ready { IsTrue (R.told input.old).ready }
    requires out_ready { IsTrue (W.told out.old).ready }
    requires request { IsRequest request.now }
    ensures run { RunAt request.now result (R.told input.old) (R.told input.new) (W.told out.old) (W.told out.new) }
    ensures keys { result ≡ Status.Done → IfSome (R.told input.old).left KeysTold }
    ensures complete { RunIsComplete request.now result (R.told input.old) (R.told input.new) (W.told out.old) (W.told out.new) }
    ensures memory { result ≡ Status.Memory → WasRefused }
    ensures unread { result ≡ Status.ReadFault → out.new ≡ out.old }
    ensures too_long { result ≡ Status.TooLong → out.new ≡ out.old }
    ensures no_read_fault { result ≢ Status.ReadFault → NoFault (R.told input.old) (R.told input.new) }
    ensures no_write_fault { result ≢ Status.WriteFault → NoFault (W.told out.old) (W.told out.new) }
    ensures input { UsedAsSource (R.told input.old) (R.told input.new) }
    ensures out { UsedAsSink (W.told out.old) (W.told out.new) }
{
    match read_text(alloc, input) {
        Ok(octets) => answer(alloc, request, &octets, out),
        Err(status) => status,
    }
}

// The lines of an input and their answers, in order.
ghost use Rattle.std.specs.Prelude.{◌≡◌, ◌≢◌, true, Err, IfOk, IfErr, IsErrOf, IsTrue, OnErr};
ghost use Rattle.std.specs.String.{string_bytes};
ghost use Rattle.growth.specs.Growth.{WasRefused};
ghost use Rattle.edge_io.specs.Cause.{NoFault};
ghost use Rattle.edge_io.specs.Lines.{are_lines};
ghost use Rattle.edge_io.specs.Used.{UsedAsSource, UsedAsSink};
ghost use Rattle.calc_text.specs.Answer.{answer_to};
ghost use Rattle.text_lines.specs.Lines.{has_feed};
ghost use Rattle.lte_calc.specs.Output.{longest_line};
ghost use Rattle.lte_calc.specs.Run.{IsLine, Run, RunIsComplete};
ghost use Rattle.lte_calc.specs.Lines.{AnsweredUpTo, StoppedIn, LineAt, LastAt, ends_of};

use crate::status::Status;
use calc_text::Answer;
use edge_io::{Sink, Source, write_all};
use std::alloc::{AllocError, Global};
use text_lines::first_feed;

/// The greatest number of octets of a line.
pub const MOST_OCTETS: usize = 65_536;

/// The octets that one read asks for.
const PIECE: usize = 4096;

/// Reads the input to its end and answers each line at once.
pub(crate) fn answer_lines<R: Source, W: Sink>(alloc: Global, input: &mut R, out: &mut W) -> Status
    requires input_ready { IsTrue (R.told input.old).ready }
    requires out_ready { IsTrue (W.told out.old).ready }
    ensures some { result ≢ Status.BadWords }
    ensures run { Run result (R.told input.old) (R.told input.new) (W.told out.old) (W.told out.new) }
    ensures complete { RunIsComplete result (R.told input.old) (R.told input.new) (W.told out.old) (W.told out.new) }
    ensures no_read_fault { result ≢ Status.ReadFault → NoFault (R.told input.old) (R.told input.new) }
    ensures no_write_fault { result ≢ Status.WriteFault → NoFault (W.told out.old) (W.told out.new) }
    ensures memory { result ≡ Status.Memory → WasRefused }
    ensures input { UsedAsSource (R.told input.old) (R.told input.new) }
    ensures out { UsedAsSink (W.told out.old) (W.told out.new) }
{
    read_lines(alloc, input, out)
}

// The same, without what follows from it.
fn read_lines<R: Source, W: Sink>(alloc: Global, input: &mut R, out: &mut W) -> Status
    requires input_ready { IsTrue (R.told input.old).ready }
    requires out_ready { IsTrue (W.told out.old).ready }
    ensures run { Run result (R.told input.old) (R.told input.new) (W.told out.old) (W.told out.new) }
    ensures no_read_fault { result ≢ Status.ReadFault → NoFault (R.told input.old) (R.told input.new) }
    ensures no_write_fault { result ≢ Status.WriteFault → NoFault (W.told out.old) (W.told out.new) }
    ensures memory { result ≡ Status.Memory → WasRefused }
    ensures input { UsedAsSource (R.told input.old) (R.told input.new) }
    ensures out { UsedAsSink (W.told out.old) (W.told out.new) }
{
    let mut held = Vec::new(alloc);
    let mut good = true;
    let mut piece = [0u8; PIECE];
    'pieces: loop {
        let count = match input.read(&mut piece) {
            Ok(count) => count,
            Err(_) => return Status::ReadFault,
        };
        if count == 0 {
            return answer_last(alloc, held.as_slice(), good, out);
        }
        if growth::extend_from_slice(&mut held, &piece[..count]).is_err() {
            return Status::Memory;
        }
        let begun = match answer_whole(alloc, held.as_slice(), &mut good, out) {
            Ok(begun) => growth::from_slice(alloc, begun),
            Err(status) => return status,
        };
        held = match begun {
            Ok(begun) => begun,
            Err(_) => return Status::Memory,
        };
    }
}

// Answers each whole line of a text, and gives the line behind them that is not whole. An error is the status that ends
// the run.
fn answer_whole<'a, W: Sink>(
    alloc: Global,
    text: &'a [u8],
    good: &mut bool,
    out: &mut W,
) -> Result<&'a [u8], Status>
    requires { IsTrue (W.told out.old).ready }
    ensures answered { IfOk result (λ rest. AnsweredUpTo text.now rest.now good.old good.new (W.told out.old) (W.told out.new)) }
    ensures begun { IfOk result (λ rest. IsLine rest.now) }
    ensures stopped { IfErr result (λ status. StoppedIn status text.now (W.told out.old) (W.told out.new)) }
    ensures no_fault { result ≢ Err Status.WriteFault → NoFault (W.told out.old) (W.told out.new) }
    ensures memory { IsErrOf result Status.Memory → WasRefused }
    ensures out { UsedAsSink (W.told out.old) (W.told out.new) }
{
    let mut rest = text;
    'lines: loop {
        match first_feed(rest) {
            Some(end) => {
                if end > MOST_OCTETS {
                    return Err(Status::TooLong);
                }
                match answer_line(alloc, &rest[..end], good, out) {
                    Status::Done => {}
                    ended => return Err(ended),
                }
                rest = &rest[end + 1..];
            }
            None => {
                if rest.len() > MOST_OCTETS {
                    return Err(Status::TooLong);
                }
                return Ok(rest);
            }
        }
    }
}

// Answers the last line, if there is one, which the end of the input ends.
fn answer_last<W: Sink>(alloc: Global, line: &[u8], mut good: bool, out: &mut W) -> Status
    requires ready { IsTrue (W.told out.old).ready }
    requires short { IsLine line.now }
    ensures last { LastAt result line.now good (W.told out.old) (W.told out.new) }
    ensures no_fault { result ≢ Status.WriteFault → NoFault (W.told out.old) (W.told out.new) }
    ensures memory { result ≡ Status.Memory → WasRefused }
    ensures out { UsedAsSink (W.told out.old) (W.told out.new) }
{
    if line.is_empty() {
        return ends_of(good);
    }
    match answer_line(alloc, line, &mut good, out) {
        Status::Done => ends_of(good),
        ended => ended,
    }
}

// The status of an input that was read to its end.
fn ends_of(good: bool) -> Status
    ensures { result ≡ ends_of good }
{
    if good { Status::Done } else { Status::Refused }
}

// Answers a line, and notes whether all so far are good. `Done` where the answer was written.
fn answer_line<W: Sink>(alloc: Global, line: &[u8], good: &mut bool, out: &mut W) -> Status
    requires { IsTrue (W.told out.old).ready }
    ensures at { LineAt result (answer_to line.now) good.old good.new (W.told out.old) (W.told out.new) }
    ensures no_fault { result ≢ Status.WriteFault → NoFault (W.told out.old) (W.told out.new) }
    ensures memory { result ≡ Status.Memory → WasRefused }
    ensures out { UsedAsSink (W.told out.old) (W.told out.new) }
{
    match answer_of(alloc, line) {
        Ok(answer) => match write_all(out, answer.text.as_bytes()) {
            Ok(()) => {
                if !answer.good {
                    *good = false;
                }
                Status::Done
            }
            Err(_) => Status::WriteFault,
        },
        Err(_) => Status::Memory,
    }
}

// The answer to a line, which is a line or nothing.
fn answer_of(alloc: Global, line: &[u8]) -> Result<Answer, AllocError>
    ensures text { IfOk result (λ answer. string_bytes answer.text ≡ (answer_to line.now).text) }
    ensures good { IfOk result (λ answer. answer.good ≡ (answer_to line.now).good) }
    ensures lines { IfOk result (λ answer. are_lines (string_bytes answer.text) ≡ true) }
    ensures refused { OnErr result WasRefused }
{
    calc_text::answer_to(alloc, line)
}

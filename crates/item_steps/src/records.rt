// Records, by the lines that tell them.
ghost use Rattle.std.specs.Prelude.{◌≡◌, ◌<◌, IfSome, length, position};
ghost use Rattle.item_steps.specs.Records.{number_of, records_in, says_sent, sender_of};

use item_lines::Told;

// How many records were sent.
fn records_in(told: &[Told]) -> usize
    ensures { result ≡ records_in told.now }
{
    told.iter().filter(|t| t.line.sent.is_some()).count()
}

// The number of a record, of so many: from 0 on, or from the last one back where it is negative.
fn number_of(sent: u64, i: &i64) -> Option<u64>
    ensures { result ≡ number_of sent i.now }
{
    if *i < 0 {
        return sent.checked_sub(i.unsigned_abs());
    }
    Some(i.unsigned_abs())
}

fn says_sent(number: u64, t: &Told) -> bool
    ensures { result ≡ says_sent number t.now }
{
    match t.line.sent {
        Some((sent, _)) => u64::from(sent) == number,
        None => false,
    }
}

// The first step whose line says so.
fn step_that_sent(number: u64, told: &[Told]) -> Option<usize>
    ensures step { result ≡ position (says_sent number) told.now }
    ensures within { IfSome result (λ place. place < length told.now) }
{
    told.iter().position(|t| says_sent(number, t))
}

/// The step that sent the record which a delivery names, behind steps with these lines.
pub(crate) fn sender_of(told: &[Told], i: &i64) -> Option<usize>
    ensures sender { result ≡ sender_of told.now (number_of (records_in told.now) i.now) }
    ensures within { IfSome result (λ place. place < length told.now) }
{
    match number_of(records_in(told) as u64, i) {
        Some(number) => step_that_sent(number, told),
        None => None,
    }
}

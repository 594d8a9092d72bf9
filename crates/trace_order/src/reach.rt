// Whether an NH is further on than the core may be.
ghost use Rattle.std.specs.Prelude.{◌≡◌, IfSome, None, true};
ghost use Rattle.key_model.specs.Value.{value_of};
ghost use Rattle.trace_order.specs.Known.{IsNever, term_of};
ghost use Rattle.trace_order.specs.Order as order;
ghost use Rattle.trace_order.specs.Reach as by;

use crate::known::{Known, known_of};
use crate::never::{last_nh, nh_of};
use annex_a_keys::Kasme;
use trace_keys::{Move, Numbered, Sight, Where};
use trace_plain::has_tap;

// Whether each step of the chain at a station is covered.
fn steps_at(covered: &[Where], station: u8) -> bool
    ensures { result ≡ by.steps_at covered.now station }
{
    let answered = has_tap(covered, &Where::Answer(station));
    let asked = has_tap(covered, &Where::Asked(station));
    let required = has_tap(covered, &Where::Request(station));
    answered && (asked && required)
}

// So where a phone may come by a move.
fn steps_seen(covered: &[Where], by_move: &Move) -> bool
    ensures { result ≡ by.steps_seen covered.now by_move.now }
{
    match by_move {
        Move::Renew { station, .. } => steps_at(covered, *station),
        Move::Prepare { station, .. } => steps_at(covered, *station),
        Move::Require { station, .. } => steps_at(covered, *station),
        _ => true,
    }
}

fn all_steps(covered: &[Where], family: &[Move]) -> bool
    ensures { result ≡ by.all_steps covered.now family.now }
{
    for by_move in family {
        let seen = steps_seen(covered, by_move);
        if !seen {
            return false;
        }
    }
    true
}

// One step more, where the NH is not looked at.
fn if_passed(steps: u32, pair: &Option<Numbered>) -> Option<u32>
    ensures { IfSome result (λ n. n ≡ by.if_passed steps pair.now) }
{
    match pair {
        Some(_) => Some(0),
        None => steps.checked_add(1),
    }
}

// How many steps there may be behind a message.
fn steps_by(steps: u32, at: &Where, pair: &Option<Numbered>) -> Option<u32>
    ensures { IfSome result (λ n. n ≡ by.steps_by steps at.now pair.now) }
{
    match at {
        Where::Setup(_) => Some(0),
        Where::Took(_) => Some(0),
        Where::Answer(_) => if_passed(steps, pair),
        Where::Request(_) => if_passed(steps, pair),
        Where::Asked(_) => steps.checked_add(1),
        Where::Change(_) => Some(steps),
        Where::Over(_, _) => Some(steps),
    }
}

// How many there may be since the last NH that was looked at.
fn steps_since(capture: &[Sight]) -> Option<u32>
    ensures { IfSome result (λ n. n ≡ by.steps_from 0 capture.now) }
{
    let mut steps = 0;
    for sight in capture {
        steps = steps_by(steps, sight.at(), sight.pair())?;
    }
    Some(steps)
}

// The number of an NH that is known.
fn number_by(kasmes: &[Kasme], known: &Known, pair: &Numbered) -> u32
    requires { value_of (term_of kasmes.now known.now) ≡ pair.now.key }
    ensures { by.IsNumber pair.now result }
{
    known.number
}

// The number of an NH, if it is known.
fn number_of(kasmes: &[Kasme], family: &[Move], pair: &Numbered) -> Option<u32>
    ensures { IfSome result (λ n. by.IsNumber pair.now n) }
{
    match known_of(kasmes, family, pair) {
        Some(known) => Some(number_by(kasmes, &known, pair)),
        None => None,
    }
}

// The number of the last NH, if it is known.
fn number_from(kasmes: &[Kasme], family: &[Move], last: &Option<Numbered>) -> Option<u32>
    ensures { IfSome result (λ n. by.IsFrom last.now n) }
{
    match last {
        Some(pair) => number_of(kasmes, family, pair),
        None => Some(1),
    }
}

// Whether the NH of a message is known, and further on than the steps since the last one.
fn is_too_far(kasmes: &[Kasme], family: &[Move], capture: &[Sight], sight: &Sight) -> bool
    ensures { result ≡ true → by.IsTooFar capture.now sight.now }
{
    let last = last_nh(capture);
    let Some(from) = number_from(kasmes, family, &last) else {
        return false;
    };
    let Some(steps) = steps_since(capture) else {
        return false;
    };
    let Some(next) = nh_of(sight.at(), sight.pair()) else {
        return false;
    };
    let Some(to) = number_of(kasmes, family, &next) else {
        return false;
    };
    u64::from(from) + u64::from(steps) + 1 < u64::from(to)
}

/// Whether it is known that no history of these moves, of however many, shows a message behind a capture: each step of the chain is
/// covered, its NH and the last one before it are known, and it is further on than the steps between them.
pub fn is_beyond(
    kasmes: &[Kasme],
    covered: &[Where],
    family: &[Move],
    capture: &[Sight],
    sight: &Sight,
) -> bool
    ensures never { result ≡ true → IsNever kasmes.now covered.now family.now capture.now sight.now }
{
    let seen = all_steps(covered, family);
    let far = is_too_far(kasmes, family, capture, sight);
    seen && far
}

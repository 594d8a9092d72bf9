// Whether no number of unseen moves gives an NH.
ghost use Rattle.std.specs.Prelude.{◌≡◌, true, None};
ghost use Rattle.trace_order.specs.Known as by;
ghost use Rattle.trace_order.specs.Order as order;

use crate::known::{is_further, known_of};
use annex_a_keys::Kasme;
use trace_keys::{Move, Numbered, Sight, Where};
use trace_plain::has_tap;

// The NH of a message that brings one.
pub(crate) fn nh_of(at: &Where, pair: &Option<Numbered>) -> Option<Numbered>
    ensures { result ≡ order.nh_of at.now pair.now }
{
    match at {
        Where::Answer(_) => *pair,
        Where::Request(_) => *pair,
        _ => None,
    }
}

// The newer of two, if it was looked at.
fn newer(last: Option<Numbered>, pair: &Option<Numbered>) -> Option<Numbered>
    ensures { result ≡ order.newer last pair.now }
{
    match pair {
        Some(pair) => Some(*pair),
        None => last,
    }
}

// The last NH behind a message.
fn last_by(last: Option<Numbered>, at: &Where, pair: &Option<Numbered>) -> Option<Numbered>
    ensures { result ≡ order.last_by last at.now pair.now }
{
    match at {
        Where::Setup(_) => None,
        Where::Took(_) => None,
        Where::Answer(_) => newer(last, pair),
        Where::Request(_) => newer(last, pair),
        _ => last,
    }
}

// The last NH that was looked at since a chain began.
pub(crate) fn last_nh(capture: &[Sight]) -> Option<Numbered>
    ensures { result ≡ order.last_nh None capture.now }
{
    let mut last = None;
    for sight in capture {
        last = last_by(last, sight.at(), sight.pair());
    }
    last
}

// Whether the NH of a message and the last one before it are known, and it is not further on.
fn is_out_of_order(kasmes: &[Kasme], family: &[Move], capture: &[Sight], sight: &Sight) -> bool
    ensures { result ≡ true → by.IsOutOfOrder kasmes.now capture.now sight.now }
{
    let Some(last) = last_nh(capture) else {
        return false;
    };
    let Some(next) = nh_of(sight.at(), sight.pair()) else {
        return false;
    };
    let Some(before) = known_of(kasmes, family, &last) else {
        return false;
    };
    let Some(after) = known_of(kasmes, family, &next) else {
        return false;
    };
    let further = is_further(&before, &after);
    !further
}

// Whether no chain begins unseen by a move.
fn begins_seen(covered: &[Where], by_move: &Move) -> bool
    ensures { result ≡ by.begins_seen covered.now by_move.now }
{
    match by_move {
        Move::Renew { station, .. } => {
            let begun = has_tap(covered, &Where::Setup(*station));
            let taken = has_tap(covered, &Where::Took(*station));
            begun && taken
        }
        Move::Prepare { station, .. } => has_tap(covered, &Where::Took(*station)),
        Move::Require { station, .. } => has_tap(covered, &Where::Took(*station)),
        _ => true,
    }
}

// Whether by no move of these.
pub(crate) fn all_seen(covered: &[Where], family: &[Move]) -> bool
    ensures { result ≡ by.all_seen covered.now family.now }
{
    for by_move in family {
        let seen = begins_seen(covered, by_move);
        if !seen {
            return false;
        }
    }
    true
}

/// Whether it is known that no history of these moves, of however many, shows a message behind a capture: its NH and the last one
/// before it are known, it is not further on, and no chain begins unseen.
pub fn is_never(
    kasmes: &[Kasme],
    covered: &[Where],
    family: &[Move],
    capture: &[Sight],
    sight: &Sight,
) -> bool
    ensures never { result ≡ true → by.IsNever kasmes.now covered.now family.now capture.now sight.now }
{
    let seen = all_seen(covered, family);
    let out = is_out_of_order(kasmes, family, capture, sight);
    seen && out
}

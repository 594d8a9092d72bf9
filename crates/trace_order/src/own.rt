// Whether a key is made of another KeNB than its connection began with.
ghost use Rattle.std.specs.Prelude.{◌≡◌, None, true};
ghost use Rattle.trace_order.specs.Base as by;
ghost use Rattle.trace_order.specs.Known.{IsNever};

use crate::clues::{Clue, placed_among};
use crate::known::{Known, known_of};
use crate::never::all_seen;
use annex_a_keys::Kasme;
use trace_keys::{Move, Numbered, Sight, Where};

// The KeNB of a connection, behind a message.
fn kenb_by(kenb: Option<Numbered>, at: &Where, pair: &Option<Numbered>) -> Option<Numbered>
    ensures { result ≡ by.kenb_by kenb at.now pair.now }
{
    match at {
        Where::Setup(_) => *pair,
        Where::Took(_) => None,
        _ => kenb,
    }
}

// The KeNB with which the connection began, if no key was changed since.
fn last_kenb(capture: &[Sight]) -> Option<Numbered>
    ensures { result ≡ by.last_kenb None capture.now }
{
    let mut kenb = None;
    for sight in capture {
        kenb = kenb_by(kenb, sight.at(), sight.pair());
    }
    kenb
}

// The key of a message that brings one which is made of it.
fn made_at(at: &Where, pair: &Option<Numbered>) -> Option<Numbered>
    ensures { result ≡ by.made_at at.now pair.now }
{
    match at {
        Where::Answer(_) => *pair,
        Where::Request(_) => *pair,
        Where::Over(_, _) => *pair,
        _ => None,
    }
}

// Whether a key is of the chain of another, which is its KeNB.
fn is_of(known: &Known, kenb: &Known) -> bool
    ensures { result ≡ by.is_of known.now kenb.now }
{
    let kasme = known.kasme == kenb.kasme;
    let count = known.count == kenb.count;
    let first = kenb.number == 0;
    kasme && (count && first)
}

// Whether the KeNB of a connection and the key of a message in it are known, and this is made of another.
fn is_out_of_chain(
    kasmes: &[Kasme],
    family: &[Move],
    clues: &[Clue],
    capture: &[Sight],
    sight: &Sight,
) -> bool
    ensures { result ≡ true → by.IsOutOfChain capture.now sight.now }
{
    let Some(first) = last_kenb(capture) else {
        return false;
    };
    let Some(next) = made_at(sight.at(), sight.pair()) else {
        return false;
    };
    let Some(kenb) = known_of(kasmes, family, &first) else {
        return false;
    };
    let Some(placed) = placed_among(kasmes, clues, &next) else {
        return false;
    };
    let own = is_of(&placed.base, &kenb);
    !own
}

/// Whether it is known that no history of these moves, of however many, shows a message behind a capture: its key is that of a clue, the
/// KeNB with which its connection began is known and another one than it is made of, and no chain begins unseen.
pub fn is_foreign(
    kasmes: &[Kasme],
    covered: &[Where],
    family: &[Move],
    clues: &[Clue],
    capture: &[Sight],
    sight: &Sight,
) -> bool
    ensures never { result ≡ true → IsNever kasmes.now covered.now family.now capture.now sight.now }
{
    let seen = all_seen(covered, family);
    let out = is_out_of_chain(kasmes, family, clues, capture, sight);
    seen && out
}

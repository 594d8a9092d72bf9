// What is behind a move that is told.
ghost use Rattle.std.specs.Prelude.{◌≡◌, Some};
ghost use Rattle.key_model.specs.Reading.{octet_reading};
ghost use Rattle.trace_keys.specs.Moved.{moved as moved_by};
ghost use Rattle.trace_rules.specs.Told as by;
ghost use Rattle.trace_plain.specs.Sights.{fits, is_covered, may_be_next};

use crate::Told;
use crate::taps::{is_dark, is_there, is_unseen, shows};
use annex_a_keys::Kasme;
use std::marker::Model;
use trace_keys::{Done, Net, Sight, Where, moved, place_of};

// How far moves that are told have come.
#[derive(Drop)]
pub(crate) struct Standing<'a> {
    net: Net,
    unseen: u32,
    rest: &'a [Sight],
}

impl<'a> Model for Standing<'a> {
    ghost use Rattle.std.specs.Prelude.{List, ℕ};
    ghost use Rattle.trace_rules.specs.Told.{Standing as StandingOf};
    ghost use Rattle.trace_keys.specs.Net.{Net as NetOf, Sight as SightOf};

    ghost Value = { StandingOf (NetOf (List ℕ) ℕ) (SightOf (List ℕ)) };

    ghost view = { λ s. record { net = s.net; unseen = s.unseen; rest = s.rest.now } };
}

impl<'a> Standing<'a> {
    // So far: this net, so many unseen moves behind the last sighting, and these sightings are left.
    pub(crate) fn new(net: &Net, unseen: u32, rest: &'a [Sight]) -> Standing<'a>
        ensures { result ≡ record { net = net.now; unseen = unseen; rest = rest.now } }
    {
        Standing {
            net: *net,
            unseen,
            rest,
        }
    }

    pub(crate) fn net(&self) -> &Net
        ensures { result.now ≡ self.now.net }
    {
        &self.net
    }

    pub(crate) fn unseen(&self) -> u32
        ensures { result ≡ self.now.unseen }
    {
        self.unseen
    }
}

// Behind a move that no tap sees.
fn if_hidden<'a>(
    covered: &[Where],
    bound: u32,
    at: &Standing<'a>,
    done: &Option<Done>,
) -> Option<Standing<'a>>
    ensures { result ≡ by.if_hidden (is_covered covered.now) bound at.now done.now }
{
    match done {
        None => None,
        Some(done) => {
            let dark = is_unseen(covered, done.sent());
            let left = at.unseen < bound;
            if dark && left {
                Some(Standing {
                    net: *done.net(),
                    unseen: at.unseen + 1,
                    rest: at.rest,
                })
            } else {
                None
            }
        }
    }
}

// Behind a move whose message is the next sighting.
fn if_next<'a>(
    covered: &[Where],
    net: &Net,
    sent: &Option<Sight>,
    capture: &'a [Sight],
) -> Option<Standing<'a>>
    ensures { result ≡ by.if_next fits (is_covered covered.now) net.now sent.now capture.now }
{
    match (sent, capture) {
        (Some(sent), [sight, rest @ ..]) => {
            if shows(covered, sight, sent) {
                Some(Standing {
                    net: *net,
                    unseen: 0,
                    rest,
                })
            } else {
                None
            }
        }
        _ => None,
    }
}

fn if_seen<'a>(covered: &[Where], at: &Standing<'a>, done: &Option<Done>) -> Option<Standing<'a>>
    ensures { result ≡ by.if_seen fits (is_covered covered.now) at.now done.now }
{
    match done {
        None => None,
        Some(done) => if_next(covered, done.net(), done.sent(), at.rest),
    }
}

// Whether a message there may be the next sighting.
fn may_be_next(rest: &[Sight], at: &Option<Where>) -> bool
    ensures { result ≡ may_be_next rest.now at.now }
{
    match rest {
        [] => false,
        [sight, ..] => is_there(sight, at),
    }
}

// Behind a move that is told. No key is made where it would go elsewhere.
pub(crate) fn told_by<'a>(
    kasmes: &[Kasme],
    covered: &[Where],
    bound: u32,
    at: &Standing<'a>,
    one: &Told,
) -> Option<Standing<'a>>
    ensures { result ≡ by.told_by fits (is_covered covered.now) bound at.now one.now.seen (moved_by octet_reading kasmes.now at.now.net one.now.move) }
{
    let place = place_of(&at.net, one.by());
    if one.seen() {
        let there = may_be_next(at.rest, &place);
        if there {
            if_seen(covered, at, &moved(kasmes, &at.net, one.by()))
        } else {
            None
        }
    } else {
        let dark = is_dark(covered, &place);
        if dark {
            if_hidden(covered, bound, at, &moved(kasmes, &at.net, one.by()))
        } else {
            None
        }
    }
}

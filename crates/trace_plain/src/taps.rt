// What a tap has, and which message it is.
ghost use Rattle.std.specs.Prelude.{◌≡◌, ◌&&◌};
ghost use Rattle.trace_plain.specs.Sights as by;
ghost use Rattle.trace_rules.specs.Rules.{is_unseen};

use trace_keys::{Numbered, Sight, Where, same_numbered};

// Whether two places are one.
fn same_where(a: &Where, b: &Where) -> bool
    ensures { result ≡ by.same_where a.now b.now }
{
    match (a, b) {
        (Where::Setup(a), Where::Setup(b)) => *a == *b,
        (Where::Change(a), Where::Change(b)) => *a == *b,
        (Where::Took(a), Where::Took(b)) => *a == *b,
        (Where::Answer(a), Where::Answer(b)) => *a == *b,
        (Where::Asked(a), Where::Asked(b)) => *a == *b,
        (Where::Request(a), Where::Request(b)) => *a == *b,
        (Where::Over(a, b), Where::Over(c, d)) => *a == *c && *b == *d,
        _ => false,
    }
}

// Whether the key that was sent is the one that was captured, if that is looked at.
fn fits_pair(sent: &Option<Numbered>, seen: &Option<Numbered>) -> bool
    ensures { result ≡ by.fits_pair sent.now seen.now }
{
    match (sent, seen) {
        (_, None) => true,
        (None, Some(_)) => false,
        (Some(sent), Some(seen)) => same_numbered(sent, seen),
    }
}

// Whether what was sent is what was captured.
fn fits(sent: &Sight, seen: &Sight) -> bool
    ensures { result ≡ by.fits sent.now seen.now }
{
    let at = same_where(sent.at(), seen.at());
    let pair = fits_pair(sent.pair(), seen.pair());
    at && pair
}

/// Whether a tap is there.
pub fn has_tap(covered: &[Where], at: &Where) -> bool
    ensures { result ≡ by.has_tap covered.now at.now }
{
    for other in covered {
        if same_where(other, at) {
            return true;
        }
    }
    false
}

// Whether a tap has what was sent.
fn is_covered(covered: &[Where], sight: &Sight) -> bool
    ensures { result ≡ by.is_covered covered.now sight.now }
{
    has_tap(covered, sight.at())
}

// Whether nothing was sent where a tap is.
pub(crate) fn is_unseen(covered: &[Where], sent: &Option<Sight>) -> bool
    ensures { result ≡ is_unseen (by.is_covered covered.now) sent.now }
{
    match sent {
        None => true,
        Some(sight) => !is_covered(covered, sight),
    }
}

// Whether a tap has this sighting, and it is what was sent.
pub(crate) fn shows(covered: &[Where], sight: &Sight, sent: &Sight) -> bool
    ensures { result ≡ (by.fits sent.now sight.now && by.is_covered covered.now sight.now) }
{
    let fit = fits(sent, sight);
    let seen = is_covered(covered, sight);
    fit && seen
}

// Whether what goes there goes unseen.
pub(crate) fn is_dark(covered: &[Where], at: &Option<Where>) -> bool
    ensures { result ≡ by.is_dark covered.now at.now }
{
    match at {
        None => true,
        Some(at) => !has_tap(covered, at),
    }
}

// Whether what goes there may be this.
pub(crate) fn is_there(sight: &Sight, at: &Option<Where>) -> bool
    ensures { result ≡ by.is_there sight.now at.now }
{
    match at {
        None => false,
        Some(at) => same_where(at, sight.at()),
    }
}

ghost use Rattle.std.specs.Prelude.{◌≡◌};
ghost use Rattle.trace_keys.specs.Marks as by;

use crate::{Net, Numbered, Offer, Serving, Target};
use annex_a_keys::Kenb;

/// A few octets of a net. Nets of which they differ are two.
#[derive(Clone, Copy)]
pub struct Mark {
    /// The COUNT.
    pub count: u32,
    /// The first octet of the core's key.
    pub core: u8,
    /// That of the key in use.
    pub key: u8,
    /// That of the stored NH.
    pub pair: u8,
    /// That of KeNB* for the target.
    pub target: u8,
    /// That of the KeNB of a key change.
    pub offer: u8,
}

fn first_octet(key: &Kenb) -> u8
    ensures { result ≡ by.first_octet key.now }
{
    key.octets()[0]
}

fn octet_of_pair(pair: &Option<Numbered>) -> u8
    ensures { result ≡ by.octet_of_pair pair.now }
{
    match pair {
        None => 0,
        Some(pair) => first_octet(&pair.key),
    }
}

fn octet_of_target(target: &Option<Target>) -> u8
    ensures { result ≡ by.octet_of_target target.now }
{
    match target {
        None => 0,
        Some(target) => first_octet(&target.star.key),
    }
}

fn octet_of_offer(offer: &Option<Offer>) -> u8
    ensures { result ≡ by.octet_of_offer offer.now }
{
    match offer {
        None => 0,
        Some(offer) => first_octet(&offer.kenb),
    }
}

fn mark_in(count: u32, serving: &Option<Serving>) -> Mark
    ensures { result ≡ by.mark_in count serving.now }
{
    match serving {
        None => Mark {
            count,
            core: 0,
            key: 0,
            pair: 0,
            target: 0,
            offer: 0,
        },
        Some(s) => Mark {
            count,
            core: first_octet(&s.core.sync),
            key: first_octet(&s.key.kenb),
            pair: octet_of_pair(&s.key.pair),
            target: octet_of_target(&s.target),
            offer: octet_of_offer(&s.offer),
        },
    }
}

/// The mark of a net.
pub fn mark_of(net: &Net) -> Mark
    ensures { result ≡ by.mark_of net.now }
{
    mark_in(net.count, &net.serving)
}

/// Whether two marks are one.
pub fn same_mark(a: &Mark, b: &Mark) -> bool
    ensures { result ≡ by.same_mark a.now b.now }
{
    a.target == b.target
        && a.key == b.key
        && a.pair == b.pair
        && a.offer == b.offer
        && a.core == b.core
        && a.count == b.count
}

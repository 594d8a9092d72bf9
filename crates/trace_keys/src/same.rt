ghost use Rattle.std.specs.Prelude.{◌≡◌};
ghost use Rattle.std.specs.Str.{bytes_eq};
ghost use Rattle.trace_keys.specs.Same as by;

// Each test ends where two parts differ, and those that mostly differ come first: a search compares very many nets.

use crate::{Chain, Held, Net, Numbered, Offer, Serving, Target};
use annex_a_keys::{Cell, Kenb};

fn same_octets(a: &Kenb, b: &Kenb) -> bool
    ensures { result ≡ bytes_eq a.now b.now }
{
    *a == *b
}

fn same_cell(a: &Cell, b: &Cell) -> bool
    ensures { result ≡ by.same_cell a.now b.now }
{
    a.pci() == b.pci() && a.earfcn() == b.earfcn()
}

/// Whether two keys with their NCCs are one.
pub fn same_numbered(a: &Numbered, b: &Numbered) -> bool
    ensures { result ≡ by.same_numbered a.now b.now }
{
    a.ncc == b.ncc && same_octets(&a.key, &b.key)
}

fn same_chain(a: &Chain, b: &Chain) -> bool
    ensures { result ≡ by.same_chain a.now b.now }
{
    a.ncc == b.ncc && same_octets(&a.sync, &b.sync) && a.root == b.root
}

fn same_pair(a: &Option<Numbered>, b: &Option<Numbered>) -> bool
    ensures { result ≡ by.same_pair a.now b.now }
{
    match (a, b) {
        (None, None) => true,
        (Some(a), Some(b)) => same_numbered(a, b),
        _ => false,
    }
}

fn same_held(a: &Held, b: &Held) -> bool
    ensures { result ≡ by.same_held a.now b.now }
{
    a.ncc == b.ncc && same_octets(&a.kenb, &b.kenb) && same_pair(&a.pair, &b.pair)
}

fn same_target(a: &Option<Target>, b: &Option<Target>) -> bool
    ensures { result ≡ by.same_target a.now b.now }
{
    match (a, b) {
        (None, None) => true,
        (Some(a), Some(b)) => {
            a.station == b.station
                && same_cell(&a.cell, &b.cell)
                && same_numbered(&a.star, &b.star)
                && same_pair(&a.spent, &b.spent)
        }
        _ => false,
    }
}

fn same_offer(a: &Option<Offer>, b: &Option<Offer>) -> bool
    ensures { result ≡ by.same_offer a.now b.now }
{
    match (a, b) {
        (None, None) => true,
        (Some(a), Some(b)) => {
            a.count == b.count
                && a.kasme == b.kasme
                && same_octets(&a.kenb, &b.kenb)
                && same_chain(&a.core, &b.core)
        }
        _ => false,
    }
}

fn same_serving(a: &Option<Serving>, b: &Option<Serving>) -> bool
    ensures { result ≡ by.same_serving a.now b.now }
{
    match (a, b) {
        (None, None) => true,
        (Some(a), Some(b)) => {
            a.station == b.station
                && same_cell(&a.cell, &b.cell)
                && same_target(&a.target, &b.target)
                && same_held(&a.key, &b.key)
                && same_offer(&a.offer, &b.offer)
                && same_chain(&a.core, &b.core)
        }
        _ => false,
    }
}

/// Whether two nets are one.
pub fn same_net(a: &Net, b: &Net) -> bool
    ensures { result ≡ by.same_net a.now b.now }
{
    a.count == b.count && a.kasme == b.kasme && same_serving(&a.serving, &b.serving)
}

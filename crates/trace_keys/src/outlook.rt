ghost use Rattle.std.specs.Prelude.{◌≡◌};
ghost use Rattle.nh_chain.specs.Station.{restored_if};
ghost use Rattle.trace_keys.specs.Outlook as by;

use crate::{Held, Move, Net, Numbered, Offer, Serving, Sight, Target, Unanswered, Where};

/// Where a net may send next, and with which NCC.
#[derive(Clone, Copy)]
pub struct Outlook {
    /// The station.
    pub station: u8,
    /// The NCC of the core's chain.
    pub core: u8,
    /// The NCC of the key that the next KeNB* is made of.
    pub base: u8,
}

// The NCC one NH step on.
fn next_ncc(ncc: u8) -> u8
    ensures { result ≡ by.next_ncc ncc }
{
    (ncc % 8 + 1) % 8
}

fn base_ncc(key: &Held) -> u8
    ensures { result ≡ by.base_ncc key.now }
{
    match &key.pair {
        None => key.ncc,
        Some(pair) => pair.ncc,
    }
}

fn outlook_of(s: &Serving) -> Outlook
    ensures { result ≡ by.outlook_of s.now }
{
    Outlook {
        station: s.station,
        core: s.core.ncc,
        base: base_ncc(&s.key),
    }
}

/// The outlook of a net, where the phone is connected.
pub fn outlook_of_net(net: &Net) -> Option<Outlook>
    ensures { result ≡ by.outlook_by net.now.serving }
{
    match &net.serving {
        None => None,
        Some(s) => Some(outlook_of(s)),
    }
}

// Behind a KeNB.
fn of_renewal(station: u8, early: bool) -> Option<Outlook>
    ensures { result ≡ by.of_renewal station early }
{
    let core = if early { 1 } else { 0 };
    Some(Outlook {
        station,
        core,
        base: 0,
    })
}

// Behind a key change that is taken.
fn of_change(station: u8, offer: &Option<Offer>) -> Option<Outlook>
    ensures { result ≡ by.of_change station offer.now }
{
    match offer {
        None => None,
        Some(o) => Some(Outlook {
            station,
            core: o.core.ncc,
            base: 0,
        }),
    }
}

// Behind a path switch that is answered.
fn of_switch(station: u8, core: u8) -> Option<Outlook>
    ensures { result ≡ by.of_switch station core }
{
    let ncc = next_ncc(core);
    Some(Outlook {
        station,
        core: ncc,
        base: ncc,
    })
}

fn of_request(s: &Serving, what: &Unanswered) -> Option<Outlook>
    ensures { result ≡ by.of_request s.now what.now }
{
    match what {
        Unanswered::Refused => Some(outlook_of(s)),
        Unanswered::Lost => Some(Outlook {
            station: s.station,
            core: next_ncc(s.core.ncc),
            base: base_ncc(&s.key),
        }),
        Unanswered::Given => of_switch(s.station, s.core.ncc),
    }
}

// Where the phone comes to the target.
fn of_arrival(core: u8, target: &Option<Target>) -> Option<Outlook>
    ensures { result ≡ by.of_arrival core target.now }
{
    match target {
        None => None,
        Some(t) => Some(Outlook {
            station: t.station,
            core,
            base: t.star.ncc,
        }),
    }
}

// The same where the pair of a handover comes back.
fn restored_ncc(key: &Held, spent: &Option<Numbered>) -> u8
    ensures { result ≡ by.base_ncc (restored_if key.now spent.now) }
{
    base_ncc(&key.restoring(spent))
}

// Where the handover is cancelled.
fn of_cancel(station: u8, core: u8, key: &Held, target: &Option<Target>) -> Option<Outlook>
    ensures { result ≡ by.of_cancel station core key.now target.now }
{
    match target {
        None => None,
        Some(t) => Some(Outlook {
            station,
            core,
            base: restored_ncc(key, &t.spent),
        }),
    }
}

// Behind a move of a phone that is connected.
fn behind_in(s: &Serving, by_move: &Move) -> Option<Outlook>
    ensures { result ≡ by.behind_in s.now by_move.now }
{
    match by_move {
        Move::Renew { station, early, .. } => of_renewal(*station, *early),
        Move::Offer { .. } | Move::Refresh { .. } => Some(outlook_of(s)),
        Move::Take => of_change(s.station, &s.offer),
        Move::Switch => of_switch(s.station, s.core.ncc),
        Move::Ask(what) => of_request(s, what),
        Move::Prepare { .. } => Some(Outlook {
            station: s.station,
            core: s.core.ncc,
            base: s.key.ncc,
        }),
        Move::Require { .. } => of_request(s, &Unanswered::Lost),
        Move::Arrive => of_arrival(s.core.ncc, &s.target),
        Move::Cancel => of_cancel(s.station, s.core.ncc, &s.key, &s.target),
        Move::Leave => None,
    }
}

/// The outlook behind a move, where it is lawful. No key is made for it.
pub fn behind(net: &Net, by_move: &Move) -> Option<Outlook>
    ensures { result ≡ by.behind net.now.serving by_move.now }
{
    match &net.serving {
        Some(s) => behind_in(s, by_move),
        None => match by_move {
            Move::Renew { station, early, .. } => of_renewal(*station, *early),
            _ => None,
        },
    }
}

fn is_at(o: &Option<Outlook>, station: u8) -> bool
    ensures { result ≡ by.is_at o.now station }
{
    match o {
        None => false,
        Some(o) => o.station == station,
    }
}

// Whether a message may go there.
fn may_go(o: &Option<Outlook>, at: &Where) -> bool
    ensures { result ≡ by.may_go o.now at.now }
{
    match at {
        Where::Setup(_) => true,
        Where::Request(_) => o.is_some(),
        Where::Change(station)
        | Where::Took(station)
        | Where::Answer(station)
        | Where::Asked(station)
        | Where::Over(station, _) => is_at(o, *station),
    }
}

fn ncc_from_core(o: &Option<Outlook>) -> u8
    ensures { result ≡ by.ncc_from_core o.now }
{
    match o {
        None => 0,
        Some(o) => next_ncc(o.core),
    }
}

fn ncc_from_station(o: &Option<Outlook>) -> u8
    ensures { result ≡ by.ncc_from_station o.now }
{
    match o {
        None => 0,
        Some(o) => o.base,
    }
}

// The NCC that it has there.
fn ncc_at(o: &Option<Outlook>, at: &Where) -> u8
    ensures { result ≡ by.ncc_at o.now at.now }
{
    match at {
        Where::Answer(_) | Where::Request(_) => ncc_from_core(o),
        Where::Over(_, _) => ncc_from_station(o),
        _ => 0,
    }
}

fn fits_ncc(ncc: u8, pair: &Option<Numbered>) -> bool
    ensures { result ≡ by.fits_ncc ncc pair.now }
{
    match pair {
        None => true,
        Some(pair) => ncc == pair.ncc,
    }
}

/// Whether what was captured may be the next message.
pub fn may_show(o: &Option<Outlook>, sight: &Sight) -> bool
    ensures { result ≡ by.may_show o.now sight.now }
{
    may_go(o, &sight.at) && fits_ncc(ncc_at(o, &sight.at), &sight.pair)
}

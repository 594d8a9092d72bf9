// What each move does, where it is lawful.
ghost use Rattle.std.specs.Prelude.{◌≡◌, ◌<◌, ◌^◌, slice_get};
ghost use Rattle.key_model.specs.Reading.{octet_reading};
ghost use Rattle.nh_chain.specs.Station.{opened};
ghost use Rattle.trace_keys.specs.Moved as by;
ghost use Rattle.trace_keys.specs.Places as at;

use crate::chains::{Chain, Held, Numbered};
use crate::nets::{Offer, Target};
use crate::{Done, Move, Net, Serving, Sight, Unanswered, Where};
use annex_a_keys::{Cell, Kasme};

// The core steps its chain.
fn stepped_core(s: &Serving) -> Serving
    ensures { result ≡ by.stepped_core octet_reading s.now }
{
    Serving {
        core: s.core.step(),
        station: s.station,
        cell: s.cell,
        key: s.key,
        target: s.target,
        offer: s.offer,
    }
}

// The core steps its chain, and the station stores the pair.
fn switched_to(s: &Serving) -> Serving
    ensures { result ≡ by.switched_to octet_reading s.now }
{
    let core = s.core.step();
    Serving {
        core,
        station: s.station,
        cell: s.cell,
        key: s.key.storing(&core.pair()),
        target: s.target,
        offer: s.offer,
    }
}

// A path switch that is answered.
fn switched(net: &Net, s: &Serving) -> Done
    ensures { result ≡ by.switched octet_reading net.now s.now }
{
    let after = switched_to(s);
    Done {
        net: net.with_serving(after),
        sent: Some(Sight {
            at: Where::Answer(s.station),
            pair: Some(after.core.pair()),
        }),
    }
}

// What is left by a request whose answer is not seen.
fn unanswered(s: &Serving, what: &Unanswered) -> Serving
    ensures { result ≡ by.unanswered octet_reading s.now what.now }
{
    match what {
        Unanswered::Refused => *s,
        Unanswered::Lost => stepped_core(s),
        Unanswered::Given => switched_to(s),
    }
}

// A request whose answer is not seen.
fn asked(net: &Net, s: &Serving, what: &Unanswered) -> Done
    ensures { result ≡ by.asked octet_reading net.now s.now what.now }
{
    Done {
        net: net.with_serving(unanswered(s, what)),
        sent: Some(Sight {
            at: Where::Asked(s.station),
            pair: None,
        }),
    }
}

// Of a target that was prepared before and a new one, that to which the phone may come.
fn target_of(goes: bool, before: &Option<Target>, new: &Target) -> Option<Target>
    ensures { result ≡ by.target_of goes before.now new.now }
{
    if goes { Some(*new) } else { *before }
}

// Whether the phone comes to the new target, or there is another.
fn may_come(goes: bool, before: &Option<Target>) -> bool
    ensures { result ≡ by.may_come goes before.now }
{
    if goes { true } else { before.is_some() }
}

// A handover over X2 is prepared.
fn prepared(net: &Net, s: &Serving, station: u8, cell: &Cell, goes: bool) -> Done
    ensures { result ≡ by.prepared octet_reading net.now s.now (opened octet_reading s.now.key cell.now) station cell.now goes }
{
    let star = s.key.star(cell);
    let target = Target {
        station,
        cell: *cell,
        star,
        spent: s.key.pair,
    };
    let serving = Serving {
        core: s.core,
        station: s.station,
        cell: s.cell,
        key: s.key.spent(cell),
        target: target_of(goes, &s.target, &target),
        offer: s.offer,
    };
    Done {
        net: net.with_serving(serving),
        sent: Some(Sight {
            at: Where::Over(s.station, station),
            pair: Some(star),
        }),
    }
}

// The same, to another station.
fn prepared_at(net: &Net, s: &Serving, station: u8, cell: &Cell, goes: bool) -> Option<Done>
    ensures { result ≡ by.prepared_at octet_reading net.now s.now station cell.now goes }
{
    let other = station != s.station;
    let may = may_come(goes, &s.target);
    if other && may {
        Some(prepared(net, s, station, cell, goes))
    } else {
        None
    }
}

// A handover over S1 is prepared.
fn required(net: &Net, s: &Serving, station: u8, cell: &Cell, goes: bool) -> Done
    ensures { result ≡ by.required octet_reading net.now s.now station cell.now goes }
{
    let core = s.core.step();
    let pair = core.pair();
    let target = Target {
        station,
        cell: *cell,
        star: pair.star(cell),
        spent: None,
    };
    let serving = Serving {
        core,
        station: s.station,
        cell: s.cell,
        key: s.key,
        target: target_of(goes, &s.target, &target),
        offer: s.offer,
    };
    Done {
        net: net.with_serving(serving),
        sent: Some(Sight {
            at: Where::Request(station),
            pair: Some(pair),
        }),
    }
}

// The same, where the phone comes there or to another target.
fn required_at(net: &Net, s: &Serving, station: u8, cell: &Cell, goes: bool) -> Option<Done>
    ensures { result ≡ by.required_at octet_reading net.now s.now station cell.now goes }
{
    let may = may_come(goes, &s.target);
    if may {
        Some(required(net, s, station, cell, goes))
    } else {
        None
    }
}

// The phone comes to the target.
fn arrived(net: &Net, s: &Serving) -> Option<Done>
    ensures { result ≡ by.arrived net.now s.now s.now.target }
{
    match &s.target {
        None => None,
        Some(t) => {
            let serving = Serving {
                core: s.core,
                station: t.station,
                cell: t.cell,
                key: Held::given(&t.star),
                target: None,
                offer: None,
            };
            Some(Done {
                net: net.with_serving(serving),
                sent: None,
            })
        }
    }
}

// The handover is cancelled or refused.
fn cancelled(net: &Net, s: &Serving) -> Option<Done>
    ensures { result ≡ by.cancelled net.now s.now s.now.target }
{
    match &s.target {
        None => None,
        Some(t) => {
            let serving = Serving {
                core: s.core,
                station: s.station,
                cell: s.cell,
                key: s.key.restoring(&t.spent),
                target: None,
                offer: s.offer,
            };
            Some(Done {
                net: net.with_serving(serving),
                sent: None,
            })
        }
    }
}

// A handover within the station.
fn refreshed(net: &Net, s: &Serving, cell: &Cell) -> Done
    ensures { result ≡ by.refreshed net.now s.now (opened octet_reading s.now.key cell.now) cell.now }
{
    let star = s.key.star(cell);
    let serving = Serving {
        core: s.core,
        station: s.station,
        cell: *cell,
        key: Held::given(&star),
        target: None,
        offer: s.offer,
    };
    Done {
        net: net.with_serving(serving),
        sent: None,
    }
}

// The same, for a cell of the serving station.
fn refreshed_at(net: &Net, s: &Serving, station: u8, cell: &Cell) -> Option<Done>
    ensures { result ≡ by.refreshed_at octet_reading net.now s.now station cell.now }
{
    if station == s.station {
        Some(refreshed(net, s, cell))
    } else {
        None
    }
}

// The connection ends.
fn left(net: &Net) -> Done
    ensures { result ≡ record { net = record net.now { serving = None }; sent = None } }
{
    Done {
        net: Net {
            kasme: net.kasme,
            count: net.count,
            serving: None,
        },
        sent: None,
    }
}

// Station and phone take the key change.
fn taken_on(s: &Serving, o: &Offer) -> Done
    requires { o.now.count < 2 ^ 24 }
    ensures { result ≡ by.taken_on octet_reading s.now o.now }
{
    let serving = Serving {
        core: o.core,
        station: s.station,
        cell: s.cell,
        key: Held::given(&Numbered::changed(&o.kenb, &s.cell)),
        target: s.target,
        offer: None,
    };
    Done {
        net: Net {
            kasme: o.kasme,
            count: o.count + 1,
            serving: Some(serving),
        },
        sent: Some(Sight {
            at: Where::Took(s.station),
            pair: None,
        }),
    }
}

// The same, where one was sent.
fn took(s: &Serving) -> Option<Done>
    ensures { result ≡ by.took octet_reading s.now s.now.offer }
{
    match &s.offer {
        None => None,
        Some(o) => {
            if o.count < 1 << 24 {
                Some(taken_on(s, o))
            } else {
                None
            }
        }
    }
}

// Whether no KeNB of this KASME and COUNT was taken into use.
fn is_fresh(net: &Net, kasme: u8, count: u32) -> bool
    ensures { result ≡ by.is_fresh net.now kasme count }
{
    count < 1 << 24 && !(kasme == net.kasme && count < net.count)
}

// A KeNB of a KASME at a COUNT.
fn begins(
    root: &Kasme,
    kasme: u8,
    count: u32,
    station: u8,
    cell: &Cell,
    early: bool,
    taken: bool,
) -> Done
    requires { count < 2 ^ 24 }
    ensures { result ≡ by.begins octet_reading root.now kasme count station cell.now early taken }
{
    let (kenb, _derived) = root.kenb(count);
    let serving = Serving {
        core: Chain::new(root, &kenb, early),
        station,
        cell: *cell,
        key: Held::initial(&kenb),
        target: None,
        offer: None,
    };
    Done {
        net: Net {
            kasme,
            count: if taken { count + 1 } else { count },
            serving: Some(serving),
        },
        sent: Some(Sight::of_kenb(Where::Setup(station), kenb)),
    }
}

// The same, where it is lawful.
fn renewed(
    kasmes: &[Kasme],
    net: &Net,
    kasme: u8,
    count: u32,
    station: u8,
    cell: &Cell,
    early: bool,
    taken: bool,
) -> Option<Done>
    ensures { result ≡ by.renewed octet_reading (slice_get kasmes.now kasme) net.now kasme count station cell.now early taken }
{
    match kasmes.get(kasme as usize) {
        None => None,
        Some(root) => {
            if is_fresh(net, kasme, count) {
                Some(begins(root, kasme, count, station, cell, early, taken))
            } else {
                None
            }
        }
    }
}

// A key change is sent.
fn offers(root: &Kasme, net: &Net, s: &Serving, kasme: u8, count: u32, early: bool) -> Done
    requires { count < 2 ^ 24 }
    ensures { result ≡ by.offers octet_reading root.now net.now s.now kasme count early }
{
    let (kenb, _derived) = root.kenb(count);
    let serving = Serving {
        core: s.core,
        station: s.station,
        cell: s.cell,
        key: s.key,
        target: s.target,
        offer: Some(Offer {
            kasme,
            count,
            kenb,
            core: Chain::new(root, &kenb, early),
        }),
    };
    Done {
        net: net.with_serving(serving),
        sent: Some(Sight::of_kenb(Where::Change(s.station), kenb)),
    }
}

// The same, where it is lawful.
fn offered(
    kasmes: &[Kasme],
    net: &Net,
    s: &Serving,
    kasme: u8,
    count: u32,
    early: bool,
) -> Option<Done>
    ensures { result ≡ by.offered octet_reading (slice_get kasmes.now kasme) net.now s.now kasme count early }
{
    match kasmes.get(kasme as usize) {
        None => None,
        Some(root) => {
            if is_fresh(net, kasme, count) {
                Some(offers(root, net, s, kasme, count, early))
            } else {
                None
            }
        }
    }
}

// A move of a phone that is connected.
fn moved_in(kasmes: &[Kasme], net: &Net, s: &Serving, by_move: &Move) -> Option<Done>
    ensures { result ≡ by.moved_in octet_reading kasmes.now net.now s.now by_move.now }
{
    match by_move {
        Move::Renew { .. } => None,
        Move::Offer {
            kasme,
            count,
            early,
        } => offered(kasmes, net, s, *kasme, *count, *early),
        Move::Take => took(s),
        Move::Switch => Some(switched(net, s)),
        Move::Ask(what) => Some(asked(net, s, what)),
        Move::Prepare {
            station,
            cell,
            goes,
        } => prepared_at(net, s, *station, cell, *goes),
        Move::Require {
            station,
            cell,
            goes,
        } => required_at(net, s, *station, cell, *goes),
        Move::Arrive => arrived(net, s),
        Move::Cancel => cancelled(net, s),
        Move::Refresh { station, cell } => refreshed_at(net, s, *station, cell),
        Move::Leave => Some(left(net)),
    }
}

/// What a move leaves and what it sends, where it is lawful.
pub fn moved(kasmes: &[Kasme], net: &Net, by_move: &Move) -> Option<Done>
    ensures { result ≡ by.moved octet_reading kasmes.now net.now by_move.now }
{
    if let Move::Renew {
        kasme,
        count,
        station,
        cell,
        early,
        taken,
    } = by_move
    {
        return renewed(kasmes, net, *kasme, *count, *station, cell, *early, *taken);
    }
    match &net.serving {
        None => None,
        Some(s) => moved_in(kasmes, net, s, by_move),
    }
}

/// Where a move sends, if it is lawful and sends where a tap may stand.
pub fn place_of(net: &Net, by_move: &Move) -> Option<Where>
    ensures { result ≡ at.place_of net.now by_move.now }
{
    match &net.serving {
        Some(s) => place_in(s, by_move),
        None => match by_move {
            Move::Renew { station, .. } => Some(Where::Setup(*station)),
            _ => None,
        },
    }
}

// The same, of a phone that is connected.
fn place_in(s: &Serving, by_move: &Move) -> Option<Where>
    ensures { result ≡ at.place_in s.now by_move.now }
{
    match by_move {
        Move::Renew { station, .. } => Some(Where::Setup(*station)),
        Move::Offer { .. } => Some(Where::Change(s.station)),
        Move::Take => Some(Where::Took(s.station)),
        Move::Switch => Some(Where::Answer(s.station)),
        Move::Ask(_) => Some(Where::Asked(s.station)),
        Move::Prepare { station, .. } => Some(Where::Over(s.station, *station)),
        Move::Require { station, .. } => Some(Where::Request(*station)),
        Move::Arrive | Move::Cancel | Move::Refresh { .. } | Move::Leave => None,
    }
}

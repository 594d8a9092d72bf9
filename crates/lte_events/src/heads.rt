// An event as two parts: what it is besides its text, a small value, and the octets of its text.
ghost use Rattle.std.specs.Prelude.{◌≡◌, ◌≤◌, length};
ghost use Rattle.rec_base.specs.Lengths.{longest_record};
ghost use Rattle.lte_events.specs.Joined.{most, most_of_phone, most_of_station, most_of_core, joined, phone_joined, station_joined, core_joined};

use crate::{Address, CoreAct, Event, HoKind, PhoneAct, StationAct};
use alg_choice::Caps;
use annex_a_keys::Cell;
use rec_base::{Bearer, Bounded};

// What an event is besides its text.
#[derive(Clone, Copy)]
pub(crate) enum Head {
    Auth(u8, [u8; 32], Caps),
    Phone(PhoneHead),
    Station(u8, StationHead),
    Core(CoreHead),
    Deliver(i64),
    Inject(Address),
}

// What an act of a phone is besides its text.
#[derive(Clone, Copy)]
pub(crate) enum PhoneHead {
    ServiceRequest,
    ResendComplete,
    GoIdle,
    SendUser(Bearer),
    SendRrc(Bearer),
    SendNas,
    Skip(Option<Bearer>, u32),
}

// What an act of a station is besides its text.
#[derive(Clone, Copy)]
pub(crate) enum StationHead {
    Start(HoKind, Cell),
    Command,
    Cancel,
    Ask,
    SendUser(Bearer),
    SendRrc(Bearer),
    Skip(Bearer, u32),
}

// What an act of the core is besides its text.
#[derive(Clone, Copy)]
pub(crate) enum CoreHead {
    StartSmc,
    Connect(Cell),
    Release,
    SendNas,
    Skip(u32),
}

// The two parts of an event.
pub(crate) fn split(event: &Event) -> (Head, &[u8])
    ensures whole { joined result.0 result.1.now ≡ event.now }
    ensures fits { length result.1.now ≤ most result.0 }
    ensures within { length result.1.now ≤ longest_record }
{
    match event {
        Event::Auth(ksi, kasme, caps) => (Head::Auth(*ksi, *kasme, *caps), &[]),
        Event::Phone(act) => {
            let (head, text) = phone_split(act);
            (Head::Phone(head), text)
        }
        Event::Station(id, act) => {
            let (head, text) = station_split(act);
            (Head::Station(*id, head), text)
        }
        Event::Core(act) => {
            let (head, text) = core_split(act);
            (Head::Core(head), text)
        }
        Event::Deliver(number) => (Head::Deliver(*number), &[]),
        Event::Inject(to, octets) => (Head::Inject(*to), octets.as_slice()),
    }
}

fn phone_split(act: &PhoneAct) -> (PhoneHead, &[u8])
    ensures whole { phone_joined result.0 result.1.now ≡ act.now }
    ensures fits { length result.1.now ≤ most_of_phone result.0 }
    ensures within { length result.1.now ≤ longest_record }
{
    match act {
        PhoneAct::ServiceRequest => (PhoneHead::ServiceRequest, &[]),
        PhoneAct::ResendComplete => (PhoneHead::ResendComplete, &[]),
        PhoneAct::GoIdle => (PhoneHead::GoIdle, &[]),
        PhoneAct::SendUser(bearer, text) => (PhoneHead::SendUser(*bearer), text.as_slice()),
        PhoneAct::SendRrc(bearer, text) => (PhoneHead::SendRrc(*bearer), text.as_slice()),
        PhoneAct::SendNas(text) => (PhoneHead::SendNas, text.as_slice()),
        PhoneAct::Skip(bearer, n) => (PhoneHead::Skip(*bearer, *n), &[]),
    }
}

fn station_split(act: &StationAct) -> (StationHead, &[u8])
    ensures whole { station_joined result.0 result.1.now ≡ act.now }
    ensures fits { length result.1.now ≤ most_of_station result.0 }
    ensures within { length result.1.now ≤ longest_record }
{
    match act {
        StationAct::Start(kind, cell) => (StationHead::Start(*kind, *cell), &[]),
        StationAct::Command => (StationHead::Command, &[]),
        StationAct::Cancel => (StationHead::Cancel, &[]),
        StationAct::Ask => (StationHead::Ask, &[]),
        StationAct::SendUser(bearer, text) => (StationHead::SendUser(*bearer), text.as_slice()),
        StationAct::SendRrc(bearer, text) => (StationHead::SendRrc(*bearer), text.as_slice()),
        StationAct::Skip(bearer, n) => (StationHead::Skip(*bearer, *n), &[]),
    }
}

fn core_split(act: &CoreAct) -> (CoreHead, &[u8])
    ensures whole { core_joined result.0 result.1.now ≡ act.now }
    ensures fits { length result.1.now ≤ most_of_core result.0 }
    ensures within { length result.1.now ≤ longest_record }
{
    match act {
        CoreAct::StartSmc => (CoreHead::StartSmc, &[]),
        CoreAct::Connect(cell) => (CoreHead::Connect(*cell), &[]),
        CoreAct::Release => (CoreHead::Release, &[]),
        CoreAct::SendNas(text) => (CoreHead::SendNas, text.as_slice()),
        CoreAct::Skip(n) => (CoreHead::Skip(*n), &[]),
    }
}

// The event of two parts.
pub(crate) fn join(head: &Head, text: &[u8]) -> Event
    requires { length text.now ≤ most head.now }
    ensures { result ≡ joined head.now text.now }
{
    match head {
        Head::Auth(ksi, kasme, caps) => Event::Auth(*ksi, *kasme, *caps),
        Head::Phone(act) => Event::Phone(phone_join(act, text)),
        Head::Station(id, act) => Event::Station(*id, station_join(act, text)),
        Head::Core(act) => Event::Core(core_join(act, text)),
        Head::Deliver(number) => Event::Deliver(*number),
        Head::Inject(to) => Event::Inject(*to, filled(text)),
    }
}

fn phone_join(head: &PhoneHead, text: &[u8]) -> PhoneAct
    requires { length text.now ≤ most_of_phone head.now }
    ensures { result ≡ phone_joined head.now text.now }
{
    match head {
        PhoneHead::ServiceRequest => PhoneAct::ServiceRequest,
        PhoneHead::ResendComplete => PhoneAct::ResendComplete,
        PhoneHead::GoIdle => PhoneAct::GoIdle,
        PhoneHead::SendUser(bearer) => PhoneAct::SendUser(*bearer, filled(text)),
        PhoneHead::SendRrc(bearer) => PhoneAct::SendRrc(*bearer, filled(text)),
        PhoneHead::SendNas => PhoneAct::SendNas(filled(text)),
        PhoneHead::Skip(bearer, n) => PhoneAct::Skip(*bearer, *n),
    }
}

fn station_join(head: &StationHead, text: &[u8]) -> StationAct
    requires { length text.now ≤ most_of_station head.now }
    ensures { result ≡ station_joined head.now text.now }
{
    match head {
        StationHead::Start(kind, cell) => StationAct::Start(*kind, *cell),
        StationHead::Command => StationAct::Command,
        StationHead::Cancel => StationAct::Cancel,
        StationHead::Ask => StationAct::Ask,
        StationHead::SendUser(bearer) => StationAct::SendUser(*bearer, filled(text)),
        StationHead::SendRrc(bearer) => StationAct::SendRrc(*bearer, filled(text)),
        StationHead::Skip(bearer, n) => StationAct::Skip(*bearer, *n),
    }
}

fn core_join(head: &CoreHead, text: &[u8]) -> CoreAct
    requires { length text.now ≤ most_of_core head.now }
    ensures { result ≡ core_joined head.now text.now }
{
    match head {
        CoreHead::StartSmc => CoreAct::StartSmc,
        CoreHead::Connect(cell) => CoreAct::Connect(*cell),
        CoreHead::Release => CoreAct::Release,
        CoreHead::SendNas => CoreAct::SendNas(filled(text)),
        CoreHead::Skip(n) => CoreAct::Skip(*n),
    }
}

// A bounded list of these octets.
fn filled<const N: usize>(text: &[u8]) -> Bounded<N>
    requires { length text.now ≤ N }
    ensures { result ≡ text.now }
{
    let mut octets = Bounded::new();
    octets.append(text);
    octets
}

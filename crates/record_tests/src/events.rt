ghost use Rattle.std.specs.Prelude.{◌≤◌, length};

use crate::values::{alike_at, same};
use alg_choice::{Algs, Caps, Eea, Priority};
use annex_a_keys::Cell;
use lte_events::{
    ActorOut, Address, Answer, Cells, CellsFault, CoreAct, Event, Events, HoKind, PhoneAct,
    StationAct, StationSetup,
};
use rec_base::{Bearer, Few, Octets, RecFault, ShortText, UserText};
use std::process::Abort;

#[test]
fn answers_have_their_number_and_name(rt: HostRuntime) {
    let own = Caps {
        eea: 0xa0,
        eia: 0x20,
    };
    let algs = Algs { eea: Eea::Eea2 };
    let table = [
        (Answer::Done, 0, "done"),
        (Answer::WrongKsi(1, 2), 2, "WrongKsi"),
        (Answer::CapsMismatch(own, own), 3, "CapsMismatch"),
        (Answer::AlgUnsupported(algs), 4, "AlgUnsupported"),
        (Answer::MacFails(7, [0; 4], [1; 4]), 5, "MacFails"),
        (Answer::BadRecord(RecFault::BadField(3)), 9, "BadRecord"),
        (Answer::WrongKind(2), 13, "WrongKind"),
        (Answer::NotConnected, 20, "NotConnected"),
        (Answer::OldConnection(3, 2), 32, "OldConnection"),
        (Answer::RepeatedRoot(4), 52, "RepeatedRoot"),
    ];
    for (answer, number, name) in table {
        same(&rt, answer.number(), number);
        same(&rt, answer.name(), name);
    }
}

// The cell with this PCI at EARFCN-DL 100.
fn cell(rt: &impl Abort, pci: u16) -> Cell {
    Cell::new(pci, 100).expect(rt, "a cell in range")
}

#[test]
fn cells_are_found_in_the_order_added(rt: HostRuntime) {
    let mut cells = Cells::new();
    same(&rt, cells.station_of(&cell(&rt, 0)), None);
    for pci in 0..32 {
        same(&rt, cells.add((pci / 4) as u8, cell(&rt, pci)), Ok(()));
    }
    same(&rt, cells.len(), 32);
    same(&rt, cells.at(5), (1, cell(&rt, 5)));
    same(&rt, cells.station_of(&cell(&rt, 31)), Some(7));
    same(&rt, cells.add(0, cell(&rt, 5)), Err(CellsFault::SameCell));
    same(&rt, cells.add(0, cell(&rt, 32)), Err(CellsFault::Full));
    same(&rt, cells.station_of(&cell(&rt, 32)), None);
    same(&rt, cells.len(), 32);
}

#[test]
fn one_cell_per_pci_and_earfcn(rt: HostRuntime) {
    let mut cells = Cells::new();
    for (pci, earfcn) in [(10, 100), (10, 101), (11, 100)] {
        let cell = Cell::new(pci, earfcn).expect(&rt, "a cell in range");
        same(&rt, cells.add(0, cell), Ok(()));
        same(&rt, cells.add(1, cell), Err(CellsFault::SameCell));
    }
}

// A station of this number.
fn station(id: u8) -> StationSetup {
    StationSetup {
        id,
        priority: Priority::new(Eea::Eea2, None),
        first: 1,
    }
}

#[test]
fn full_list_hands_the_item_back(rt: HostRuntime) {
    let mut stations: Few<StationSetup, 2> = Few::new();
    assert!(rt; stations.try_push(station(3)).is_ok());
    assert!(rt; stations.try_push(station(5)).is_ok());
    assert!(rt; stations.try_push(station(0)) == Err(station(0)));
    assert!(rt; stations.as_slice() == [station(3), station(5)].as_slice());
    assert!(rt; stations.clone().unwrap() == stations);
    let mut more: Few<StationSetup, 3> = Few::new();
    more.push(station(1));
    more.append(stations.as_slice());
    let ids = [station(1), station(3), station(5)];
    assert!(rt; more.as_slice() == ids.as_slice());
}

#[test]
fn events_differ_by_who_acts_and_how(rt: HostRuntime) {
    let target = cell(&rt, 11);
    let mut text = UserText::new();
    text.append(b"hi");
    let events = [
        Event::Phone(PhoneAct::SendUser(Bearer::Drb1, text)),
        Event::Station(0, StationAct::Start(HoKind::X2, target)),
        Event::Station(0, StationAct::Start(HoKind::S1, target)),
        Event::Core(CoreAct::Connect(target)),
        Event::Inject(Address::StationAir(0, 1, Bearer::Srb1), Octets::new()),
        Event::Deliver(-1),
    ];
    for (i, event) in events.iter().enumerate() {
        same(
            &rt,
            events.iter().position(|other| *other == *event),
            Some(i),
        );
    }
}

// A short text with these octets.
fn short(octets: &[u8]) -> ShortText
    requires { length octets.now ≤ 200 }
{
    let mut text = ShortText::new();
    text.append(octets);
    text
}

#[test]
fn listed_events_are_read_back(rt: HostRuntime) {
    let mut text = UserText::new();
    text.append(b"hi");
    let mut octets = Octets::new();
    octets.append(&[7; 1536]);
    let caps = Caps {
        eea: 0xa0,
        eia: 0x20,
    };
    let events = [
        Event::Auth(6, [9; 32], caps),
        Event::Phone(PhoneAct::SendUser(Bearer::Drb4, text)),
        Event::Phone(PhoneAct::Skip(None, 70000)),
        Event::Station(7, StationAct::SendRrc(Bearer::Srb2, short(b"rrc"))),
        Event::Inject(Address::Phone(1, 2, Bearer::Drb1), octets),
        Event::Station(1, StationAct::Start(HoKind::Intra, cell(&rt, 503))),
        Event::Core(CoreAct::SendNas(short(b""))),
        Event::Core(CoreAct::Connect(cell(&rt, 11))),
        Event::Deliver(-1),
    ];
    let list = Events::of(rt.alloc(), &events).expect(&rt, "memory");
    same(&rt, list.len(), events.len());
    for (number, event) in events.iter().enumerate() {
        alike_at(&rt, number, &list.at(number), event);
    }
}

#[test]
fn empty_reply_is_done(rt: HostRuntime) {
    for reply in [ActorOut::of(Answer::Done), ActorOut::default()] {
        assert!(rt; reply.answer == Answer::Done);
        assert!(rt; reply.sent.is_none() && reply.tuple.is_none() && reply.opened.is_none());
        same(&rt, reply.derived.as_slice().len(), 0);
        assert!(rt; reply.received.is_none());
        same(&rt, reply.used.as_slice().len(), 0);
        assert!(rt; reply.accepted.is_none() && reply.note.is_none());
        assert!(rt; !reply.alarm);
    }
}

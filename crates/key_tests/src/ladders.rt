ghost use Rattle.std.specs.Prelude.{◌≤◌, ◌<◌, ◌+◌};

use crate::values::same;
use annex_a_keys::Kasme;
use hmac_kdf::KdfInput;
use key_terms::{Holder, Ladder, LadderFault, Origin, Row};
use std::alloc::Global;
use std::process::Abort;

const KASME: [u8; 32] = [7; 32];

// An empty ladder with room for 4 rows.
fn ladder_with_room(rt: &impl Abort, alloc: Global) -> Ladder
    ensures { 4 ≤ result.spare }
{
    let mut ladder = Ladder::new(alloc);
    same(rt, ladder.reserve(4), Ok(()));
    ladder
}

// Adds the KeNB of the KASME, which is a root of the ladder, at an uplink NAS COUNT.
fn add_kenb(rt: &impl Abort, ladder: &mut Ladder, count: u32) -> Result<Row, LadderFault>
    requires { 0 < ladder.old.spare }
    ensures { ladder.old.spare ≤ ladder.new.spare + 1 }
{
    let made = Kasme::of_octets(KASME).kenb(count).1;
    let key = ladder.find(&made.key).expect(rt, "a root");
    same(rt, ladder.row(key).origin, Origin::Root);
    ladder.add(&made)
}

#[test]
fn the_same_kenb_twice_is_one_row(rt: HostRuntime) {
    let mut ladder = ladder_with_room(&rt, rt.alloc());
    same(&rt, ladder.root(KASME), Ok(Row(0)));
    same(&rt, add_kenb(&rt, &mut ladder, 0), Ok(Row(1)));
    same(&rt, add_kenb(&rt, &mut ladder, 1), Ok(Row(2)));
    same(&rt, add_kenb(&rt, &mut ladder, 0), Ok(Row(1)));
    same(&rt, ladder.len(), 3);
    let row = ladder.row(Row(2));
    same(&rt, row.origin, Origin::From(Row(0), KdfInput::Kenb(1)));
    same(&rt, ladder.find(&row.octets), Some(Row(2)));
    same(&rt, ladder.find(&[0; 32]), None);
    drop(ladder);
}

#[test]
fn a_root_twice_is_refused(rt: HostRuntime) {
    let mut ladder = ladder_with_room(&rt, rt.alloc());
    same(&rt, ladder.root([0; 32]), Ok(Row(0)));
    same(&rt, ladder.root(KASME), Ok(Row(1)));
    same(
        &rt,
        ladder.root(KASME),
        Err(LadderFault::RepeatedRoot(Row(1))),
    );
    same(&rt, ladder.len(), 2);
    drop(ladder);
}

#[test]
fn a_root_with_the_octets_of_a_kenb_is_a_coincidence(rt: HostRuntime) {
    let mut ladder = ladder_with_room(&rt, rt.alloc());
    same(&rt, ladder.root(KASME), Ok(Row(0)));
    same(&rt, add_kenb(&rt, &mut ladder, 0), Ok(Row(1)));
    let planted = Kasme::of_octets(KASME).kenb(0).1.out;
    same(
        &rt,
        ladder.root(planted),
        Err(LadderFault::Coincidence(Row(1), Origin::Root)),
    );
    same(&rt, ladder.len(), 2);
    drop(ladder);
}

#[test]
fn a_kenb_with_the_octets_of_a_root_is_a_coincidence(rt: HostRuntime) {
    let mut ladder = ladder_with_room(&rt, rt.alloc());
    let planted = Kasme::of_octets(KASME).kenb(0).1.out;
    same(&rt, ladder.root(planted), Ok(Row(0)));
    same(&rt, ladder.root(KASME), Ok(Row(1)));
    let origin = Origin::From(Row(1), KdfInput::Kenb(0));
    same(
        &rt,
        add_kenb(&rt, &mut ladder, 0),
        Err(LadderFault::Coincidence(Row(0), origin)),
    );
    same(&rt, ladder.len(), 2);
    drop(ladder);
}

#[test]
fn a_row_has_the_holders_that_it_was_given(rt: HostRuntime) {
    let mut ladder = ladder_with_room(&rt, rt.alloc());
    same(&rt, ladder.root(KASME), Ok(Row(0)));
    same(&rt, add_kenb(&rt, &mut ladder, 0), Ok(Row(1)));
    same(&rt, ladder.len(), 2);
    ladder.hold(Holder::Phone, Row(1));
    ladder.hold(Holder::Station(7), Row(1));
    ladder.hold(Holder::Core, Row(0));
    let root = ladder.row(Row(0));
    same(&rt, (root.phone, root.core), (false, true));
    same(&rt, root.stations, [false; 8]);
    let kenb = ladder.row(Row(1));
    let mut stations = [false; 8];
    stations[7] = true;
    same(&rt, (kenb.phone, kenb.core), (true, false));
    same(&rt, kenb.stations, stations);
    drop(ladder);
}

// A number in 32 octets, big-endian.
fn numbered(number: u32) -> [u8; 32] {
    let mut octets = [0; 32];
    let last = number.to_be_bytes();
    octets[28] = last[0];
    octets[29] = last[1];
    octets[30] = last[2];
    octets[31] = last[3];
    octets
}

#[test]
fn each_of_many_roots_is_found(rt: HostRuntime) {
    let mut ladder = Ladder::new(rt.alloc());
    for number in 0..200_000 {
        assert!(rt; ladder.len() < 200_000);
        same(&rt, ladder.reserve(1), Ok(()));
        same(&rt, ladder.root(numbered(number)), Ok(Row(number)));
    }
    same(&rt, ladder.len(), 200_000);
    for number in 0..200_000 {
        same(&rt, ladder.find(&numbered(number)), Some(Row(number)));
    }
    for number in 200_000..400_000 {
        same(&rt, ladder.find(&numbered(number)), None);
    }
    drop(ladder);
}

// Makes room for a row, also where that is refused once: then the ladder is as before, and the next try
// succeeds.
fn reserve_twice(rt: &impl Abort, ladder: &mut Ladder, octets: &[u8; 32])
    ensures { 1 ≤ ladder.new.spare }
{
    let len = ladder.len();
    assert!(rt; len < 1_000_000);
    let found = ladder.find(octets);
    if ladder.reserve(1).is_err() {
        same(rt, ladder.len(), len);
        same(rt, ladder.find(octets), found);
    }
    assert!(rt; ladder.len() < 1_000_000);
    same(rt, ladder.reserve(1), Ok(()));
}

#[test]
fn a_refused_growth_changes_nothing(rt: HostRuntime) {
    let mut ladder = Ladder::new(rt.alloc());
    for number in 0..200 {
        let octets = numbered(number);
        reserve_twice(&rt, &mut ladder, &octets);
        same(&rt, ladder.root(octets), Ok(Row(number)));
    }
    for number in 0..200 {
        same(&rt, ladder.find(&numbered(number)), Some(Row(number)));
    }
    drop(ladder);
}

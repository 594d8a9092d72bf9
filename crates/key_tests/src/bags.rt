ghost use Rattle.std.specs.Prelude.{◌≡◌, ◌<◌, ◌^◌, ◌-◌, length};

use crate::values::same;
use lte_events::{Address, Class, Record};
use net_bag::{Bag, BagMemory};
use rec_base::{Bearer, Dir, Octets, Use};
use std::process::Abort;

// A record with these octets, at most 1,536.
fn record_of(rt: &impl Abort, to: Address, octets: &[u8]) -> Record {
    let mut all = Octets::new();
    for octet in octets {
        same(rt, all.try_push(*octet), Ok(()));
    }
    Record { to, octets: all }
}

// Puts a record into the bag.
fn put(rt: &impl Abort, bag: &mut Bag, to: Address, octets: &[u8], tuple: Option<&Use>) -> u32 {
    let rec = record_of(rt, to, octets);
    assert!(rt; bag.len() < 1_000_000);
    same(rt, bag.reserve(), Ok(()));
    bag.put(&rec, tuple)
}

// The use under which the first record was sealed.
const TUPLE: Use = Use {
    key: [9; 32],
    count: 5,
    bearer: 1,
    dir: Dir::Down,
};

// Puts six records into an empty bag.
fn put_six(rt: &impl Abort, bag: &mut Bag) {
    let air = Address::Phone(3, 7, Bearer::Srb1);
    let nas = &[0x27, 1, 2];
    same(rt, put(rt, bag, Address::CoreNas, nas, Some(&TUPLE)), 0);
    same(rt, put(rt, bag, air, nas, None), 1);
    same(rt, put(rt, bag, Address::PhoneNas, &[0x37, 1, 2], None), 2);
    same(rt, put(rt, bag, Address::CoreS1, &[], None), 3);
    same(rt, put(rt, bag, Address::StationS1(1), &[5], None), 4);
    same(rt, put(rt, bag, Address::StationX2(1), &[5], None), 5);
    same(rt, bag.len(), 6);
}

// Looks for octets of each class, some of which none of the six has.
fn find_each(rt: &impl Abort, bag: &Bag) {
    // class, octets, the first record that has them
    let table: [(Class, &[u8], Option<u32>); 9] = [
        (Class::Nas, &[0x27, 1, 2], Some(0)),
        (Class::Nas, &[0x37, 1, 2], Some(0)),
        (Class::Nas, &[1, 2], None),
        (Class::Air, &[0x27, 1, 2], Some(1)),
        (Class::Air, &[0x37, 1, 2], None),
        (Class::S1, &[], Some(3)),
        (Class::S1, &[5], Some(4)),
        (Class::X2, &[5], Some(5)),
        (Class::X2, &[], None),
    ];
    for (class, octets, number) in table {
        same(rt, bag.find(class, octets), number);
    }
}

#[test]
fn the_first_record_of_a_class_is_found(rt: HostRuntime) {
    let mut bag = Bag::new(rt.alloc());
    put_six(&rt, &mut bag);
    // all but the last record are in the index
    find_each(&rt, &bag);
    // and now the last one is too
    assert!(rt; bag.len() < 1_000_000);
    same(&rt, bag.reserve(), Ok(()));
    find_each(&rt, &bag);
    let first = bag.get(0).expect(&rt, "a record");
    assert!(rt; first.to == Address::CoreNas);
    same(&rt, first.octets.as_slice(), [0x27, 1, 2].as_slice());
    assert!(rt; first.tuple == Some(TUPLE));
    same(&rt, bag.get(6).is_none(), true);
    drop(bag);
}

// A number in 32 octets, big-endian.
fn numbered(number: u32) -> [u8; 32] {
    let mut octets = [0; 32];
    let last = number.to_be_bytes();
    octets[28] = last[0];
    octets[29] = last[1];
    octets[30] = last[2];
    octets[31] = last[3];
    octets
}

#[test]
fn each_of_many_records_is_found(rt: HostRuntime) {
    let mut bag = Bag::new(rt.alloc());
    let air = Address::StationAir(0, 1, Bearer::Drb1);
    for number in 0..200_000 {
        same(
            &rt,
            put(&rt, &mut bag, air, &numbered(number), None),
            number,
        );
    }
    same(&rt, bag.len(), 200_000);
    // a first look-up asks for the index, and the next reserve makes it
    same(&rt, bag.find(Class::Air, &numbered(0)), Some(0));
    assert!(rt; bag.len() < 1_000_000);
    same(&rt, bag.reserve(), Ok(()));
    for number in 0..200_000 {
        same(&rt, bag.find(Class::Air, &numbered(number)), Some(number));
    }
    for number in 200_000..400_000 {
        same(&rt, bag.find(Class::Air, &numbered(number)), None);
    }
    drop(bag);
}

// Makes room, also where that is refused once: then the bag is as before, and the next try succeeds.
fn reserve_twice(rt: &impl Abort, bag: &mut Bag, octets: &[u8]) {
    let len = bag.len();
    assert!(rt; len < 1_000_000);
    let found = bag.find(Class::Air, octets);
    if bag.reserve() == Err(BagMemory) {
        same(rt, bag.len(), len);
        same(rt, bag.find(Class::Air, octets), found);
        same(rt, bag.get(0).is_some(), len > 0);
        same(rt, bag.reserve(), Ok(()));
    }
}

#[test]
fn a_refused_growth_changes_nothing(rt: HostRuntime) {
    let mut bag = Bag::new(rt.alloc());
    let air = Address::StationAir(0, 1, Bearer::Drb1);
    for number in 0..200 {
        let octets = numbered(number);
        reserve_twice(&rt, &mut bag, &octets);
        same(&rt, put(&rt, &mut bag, air, &octets, None), number);
    }
    for number in 0..200 {
        same(&rt, bag.find(Class::Air, &numbered(number)), Some(number));
    }
    drop(bag);
}

use crate::values::same;
use alg_choice::{Algs, Eea};
use annex_a_keys::Cell;
use rec_base::RecFault;
use rrc_rec::RrcRecord;
use std::process::Abort;

// A record is read of these octets, and written back so.
fn expect_read(rt: &impl Abort, octets: &[u8]) {
    match RrcRecord::read(octets) {
        Ok(record) => same(rt, record.write().as_slice(), octets),
        Err(fault) => panic!(rt; "{fault:?}"),
    }
}

#[test]
fn records_are_read_as_spelled_and_written_back(rt: HostRuntime) {
    let algs = Algs { eea: Eea::Eea2 };
    let octets = [0x01, 0x22, 0, 0, 0, 0, 1];
    let command = RrcRecord::SecurityModeCommand {
        algs,
        station: 0,
        air: 1,
    };
    same(&rt, command.write().as_slice(), octets.as_slice());
    expect_read(&rt, &octets);
    let octets = [
        0x03, 0x00, 0x0b, 0x00, 0x00, 0x00, 0x65, 0x00, 0x22, 0x01, 0, 0, 0, 1,
    ];
    let order = RrcRecord::Reconfiguration {
        cell: Cell::new(11, 101).expect(&rt, "in range"),
        ncc: 0,
        algs,
        station: 1,
        air: 1,
    };
    same(&rt, order.write().as_slice(), octets.as_slice());
    expect_read(&rt, &octets);
    assert!(rt;
        matches!(
            RrcRecord::read(&[0x02]),
            Ok(RrcRecord::SecurityModeComplete)
        )
    );
    assert!(rt;
        matches!(
            RrcRecord::read(&[0x04]),
            Ok(RrcRecord::ReconfigurationComplete)
        )
    );
    same(
        &rt,
        RrcRecord::ReconfigurationComplete.write().as_slice(),
        [0x04].as_slice(),
    );
}

#[test]
fn key_change_in_the_greatest_cell_is_read_as_spelled_and_written_back(rt: HostRuntime) {
    let octets = [
        0x06, 0x01, 0xf7, 0x00, 0x03, 0xff, 0xff, 0x02, 0x07, 0, 0, 1, 2,
    ];
    let change = RrcRecord::KeyChange {
        cell: Cell::new(503, 262_143).expect(&rt, "in range"),
        algs: Algs { eea: Eea::Eea0 },
        station: 7,
        air: 258,
    };
    same(&rt, change.write().as_slice(), octets.as_slice());
    expect_read(&rt, &octets);
}

#[test]
fn text_has_up_to_200_octets(rt: HostRuntime) {
    let mut octets = [7u8; 202];
    octets[0] = 0x05;
    match RrcRecord::read(&octets[..1]) {
        Ok(RrcRecord::RrcData(text)) => same(&rt, text.as_slice().len(), 0),
        _ => panic!(rt; "no text of no octet"),
    }
    match RrcRecord::read(&octets[..201]) {
        Ok(RrcRecord::RrcData(text)) => same(&rt, text.as_slice(), &octets[1..201]),
        _ => panic!(rt; "no text of 200 octets"),
    }
    same(&rt, RrcRecord::read(&octets).err(), Some(RecFault::Long));
}

// Octets that are no record, and why.
static FAULTS: [(&[u8], RecFault); 26] = [
    (&[], RecFault::Short),
    (&[0x07], RecFault::BadKind),
    (&[0x07, 0, 0], RecFault::BadKind),
    (&[0x01, 0x12, 8, 0, 0, 0], RecFault::Short),
    (&[0x01, 0x12, 8, 0, 0, 0, 0, 0], RecFault::Long),
    (&[0x01, 0x22, 0, 0, 0, 0, 1, 0], RecFault::Long),
    (&[0x01, 0x12, 0, 0, 0, 0, 1], RecFault::BadField(1)),
    (&[0x01, 0x12, 8, 0, 0, 0, 0], RecFault::BadField(1)),
    (&[0x01, 0x22, 8, 0, 0, 0, 1], RecFault::BadField(2)),
    (&[0x01, 0x22, 0, 0, 0, 0, 0], RecFault::BadField(3)),
    (&[0x02, 0], RecFault::Long),
    (&[0x04, 0], RecFault::Long),
    (
        &[0x03, 1, 0xf8, 0, 4, 0, 0, 8, 0, 8, 0, 0, 0],
        RecFault::Short,
    ),
    (
        &[0x03, 1, 0xf8, 0, 4, 0, 0, 8, 0, 8, 0, 0, 0, 0],
        RecFault::BadField(1),
    ),
    (
        &[0x03, 1, 0xf7, 0, 4, 0, 0, 8, 0, 8, 0, 0, 0, 0],
        RecFault::BadField(3),
    ),
    (
        &[0x03, 1, 0xf7, 0, 3, 0xff, 0xff, 8, 0, 8, 0, 0, 0, 0],
        RecFault::BadField(7),
    ),
    (
        &[0x03, 1, 0xf7, 0, 3, 0xff, 0xff, 7, 0, 8, 0, 0, 0, 0],
        RecFault::BadField(8),
    ),
    (
        &[0x03, 1, 0xf7, 0, 3, 0xff, 0xff, 7, 2, 8, 0, 0, 0, 0],
        RecFault::BadField(9),
    ),
    (
        &[0x03, 1, 0xf7, 0, 3, 0xff, 0xff, 7, 2, 7, 0, 0, 0, 0],
        RecFault::BadField(10),
    ),
    (
        &[0x06, 1, 0xf8, 0, 4, 0, 0, 0x12, 8, 0, 0, 0],
        RecFault::Short,
    ),
    (
        &[0x06, 1, 0xf7, 0, 3, 0xff, 0xff, 2, 7, 0, 0, 0, 1, 0],
        RecFault::Long,
    ),
    (
        &[0x06, 1, 0xf8, 0, 4, 0, 0, 0x12, 8, 0, 0, 0, 0],
        RecFault::BadField(1),
    ),
    (
        &[0x06, 1, 0xf7, 0, 4, 0, 0, 0x12, 8, 0, 0, 0, 0],
        RecFault::BadField(3),
    ),
    (
        &[0x06, 1, 0xf7, 0, 3, 0xff, 0xff, 0x12, 8, 0, 0, 0, 0],
        RecFault::BadField(7),
    ),
    (
        &[0x06, 1, 0xf7, 0, 3, 0xff, 0xff, 2, 8, 0, 0, 0, 0],
        RecFault::BadField(8),
    ),
    (
        &[0x06, 1, 0xf7, 0, 3, 0xff, 0xff, 2, 7, 0, 0, 0, 0],
        RecFault::BadField(9),
    ),
];

#[test]
fn fault_is_the_first_in_order(rt: HostRuntime) {
    for (octets, fault) in &FAULTS {
        same(&rt, RrcRecord::read(octets).err(), Some(*fault));
    }
}

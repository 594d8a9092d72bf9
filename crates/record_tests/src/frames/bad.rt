// The place of the first bad octet of a body: of a field out of its range or repeated, the end where
// octets are wanting, or the first octet too many.
ghost use Rattle.role_wire.specs.Ranges.{IsRole};

use super::expect_fault;
use edge_io::Role;
use role_wire::FrameFault;
use std::process::Abort;

// Bodies of a first frame of a station or the core.
static SETUPS: [(&str, u16); 21] = [
    ("000110", 0),
    ("0000", 0),
    ("00020000", 1),
    ("00020003", 1),
    ("0003000101", 2),
    ("000400020202", 3),
    ("0006000102000000", 6),
    ("000700010200000000", 3),
    ("000700010200000001", 7),
    ("00080001020000000100", 7),
    ("00080001020000000121", 7),
    ("000f000102000000010108000a00000064", 8),
    ("000f00010200000001010001f800000064", 9),
    ("000b00010200000001010001f8", 9),
    ("000c000102000000010100000a00", 12),
    ("000f000102000000010100000affffffff", 11),
    ("0016000102000000010200000a0000006401000a00000064", 16),
    ("000f000102000000010200000a00000064", 15),
    ("0010000102000000010100000a00000064ff", 15),
    ("000f000102000000000100000a00000064", 3),
    ("001000020202000000010100000a00000064", 3),
];

// Bodies of a first frame of the phone.
static PHONE_SETUPS: [(&str, u16); 3] = [("000110", 0), ("000200a0", 2), ("000400a02000", 3)];

// Bodies of later frames of the phone.
static PHONE: [(&str, u16); 26] = [
    ("0000", 0),
    ("000300a020", 0),
    ("000120", 0),
    ("000104", 0),
    ("000101", 1),
    (
        "00220107000102030405060708090a0b0c0d0e0f101112131415161718191a1b1c1d1e1f",
        1,
    ),
    ("000401010001", 4),
    (
        "00230101000102030405060708090a0b0c0d0e0f101112131415161718191a1b1c1d1e1f00",
        34,
    ),
    ("000703080000000101", 1),
    ("00050300000000", 5),
    ("000703000000000103", 6),
    ("0006030000000001", 6),
    ("00021000", 1),
    ("00021100", 1),
    ("0003120000", 1),
    ("00021301", 1),
    ("000113", 1),
    ("00021481", 1),
    ("0003148500", 1),
    ("0006160300000000", 1),
    ("00051600000000", 5),
    ("000716000000000000", 6),
    ("00021200", 1),
    ("000413016869", 1),
    ("000414816869", 1),
    ("0006168500000001", 1),
];

// Bodies of later frames of a station.
static STATION: [(&str, u16); 24] = [
    ("000f000102000000010100000a00000064", 0),
    ("000101", 0),
    ("000102", 0),
    ("000110", 0),
    ("000115", 0),
    ("000120", 0),
    ("000403000000", 4),
    ("00050300000001", 5),
    ("0006030000000100", 5),
    ("00021302", 1),
    ("00021483", 1),
    ("0006160000000001", 1),
    ("000416010000", 4),
    ("00083003000b00000065", 1),
    ("0008300001f800000065", 2),
    ("00083000000bffffffff", 4),
    ("00093000000b0000006500", 8),
    ("00023100", 1),
    ("00023200", 1),
    ("00023300", 1),
    ("000413016869", 1),
    ("000114", 1),
    ("0006160000000000", 1),
    ("0008300201f800000064", 2),
];

// Bodies of later frames of the core.
static CORE: [(&str, u16); 21] = [
    ("000f000102000000010100000a00000064", 0),
    ("000103", 0),
    ("000105", 0),
    ("000110", 0),
    ("00021381", 0),
    ("000130", 0),
    (
        "00240107000102030405060708090a0b0c0d0e0f101112131415161718191a1b1c1d1e1fa020",
        1,
    ),
    (
        "00220100000102030405060708090a0b0c0d0e0f101112131415161718191a1b1c1d1e1f",
        34,
    ),
    (
        "00230100000102030405060708090a0b0c0d0e0f101112131415161718191a1b1c1d1e1fa0",
        35,
    ),
    (
        "00250100000102030405060708090a0b0c0d0e0f101112131415161718191a1b1c1d1e1fa02000",
        36,
    ),
    ("0006160100000001", 1),
    ("0003160000", 3),
    ("00022000", 1),
    ("00022200", 1),
    ("00072101f800000064", 1),
    ("000721000affffffff", 3),
    ("000321000a", 3),
    ("000821000a0000006400", 7),
    (
        "00230106000102030405060708090a0b0c0d0e0f101112131415161718191a1b1c1d1e1fa0",
        35,
    ),
    ("0006168100000001", 1),
    ("000721000a0fffffff", 3),
];

// Each text is refused at its place.
fn expect_faults<R: Abort + AllocGlobal>(rt: &R, role: Role, first: bool, rows: &[(&str, u16)])
    requires { IsRole role }
{
    for (text, place) in rows {
        expect_fault(rt, role, first, text, FrameFault::BadBody(*place));
    }
}

#[test]
fn setups_are_refused_at_the_first_bad_octet(rt: HostRuntime) {
    expect_faults(&rt, Role::Station(7), true, &SETUPS);
    expect_faults(&rt, Role::Core, true, &SETUPS);
    let standard = "000f060102000000010100000a00000064";
    let other = FrameFault::BadBody(0);
    expect_fault(&rt, Role::Station(7), true, standard, other);
    expect_fault(&rt, Role::Core, false, standard, other);
    expect_faults(&rt, Role::Phone, true, &PHONE_SETUPS);
}

#[test]
fn later_frames_are_refused_at_the_first_bad_octet(rt: HostRuntime) {
    expect_faults(&rt, Role::Phone, false, &PHONE);
    expect_faults(&rt, Role::Station(0), false, &STATION);
    expect_faults(&rt, Role::Core, false, &CORE);
}

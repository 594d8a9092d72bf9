use crate::values::same;
use rec_base::{
    Bearer, Dir, ShortText, UserText, greatest_lengths, header, key_at, u8_at, u16_at, u32_at,
};

#[test]
fn bearers_have_their_octet_and_number(rt: HostRuntime) {
    let table = [
        (Bearer::Srb1, 0x01, 0),
        (Bearer::Srb2, 0x02, 1),
        (Bearer::Drb1, 0x81, 0),
        (Bearer::Drb2, 0x82, 1),
        (Bearer::Drb3, 0x83, 2),
        (Bearer::Drb4, 0x84, 3),
    ];
    for (bearer, octet, number) in table {
        same(&rt, bearer.octet(), octet);
        same(&rt, Bearer::of_octet(octet), Some(bearer));
        same(&rt, bearer.bearer5(), number);
    }
    same(&rt, Bearer::of_octet(0x85), None);
}

#[test]
fn fields_have_the_highest_octet_first(rt: HostRuntime) {
    let mut octets = [0u8; 40];
    octets[1..7].copy_from_slice(&[1, 2, 3, 4, 5, 6]);
    octets[39] = 7;
    same(&rt, u8_at(&octets, 1), 1);
    same(&rt, u16_at(&octets, 2), 0x0203);
    same(&rt, u32_at(&octets, 3), 0x0304_0506);
    let key = key_at(&octets, 8);
    same(&rt, key[31], 7);
    same(&rt, key[0], 0);
}

#[test]
fn header_holds_count_bearer_and_direction(rt: HostRuntime) {
    same(
        &rt,
        header(0x398a_59b4, 21, Dir::Down),
        [0x39, 0x8a, 0x59, 0xb4, 0xac, 0, 0, 0],
    );
}

#[test]
fn full_list_hands_the_octet_back(rt: HostRuntime) {
    let mut text = ShortText::new();
    for i in 0..200u8 {
        same(&rt, text.try_push(i), Ok(()));
    }
    same(&rt, text.try_push(200), Err(200));
    same(&rt, text.as_slice().len(), 200);
    assert!(rt; text != ShortText::new());
}

#[test]
fn lists_have_their_greatest_lengths(rt: HostRuntime) {
    same(&rt, greatest_lengths(), (1536, 1500, 200));
    same(&rt, UserText::capacity(), 1500);
}

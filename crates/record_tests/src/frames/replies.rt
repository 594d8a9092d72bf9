// The frames of replies.
use super::octets_of;
use crate::values::{same, same_at};
use alg_choice::{Algs, Caps, Eea};
use annex_a_keys::Derived;
use hex::FromHex;
use hmac_kdf::KdfInput;
use lte_events::{ActorOut, Address, Answer, KeyNote, Record};
use rec_base::{Bearer, RecFault, Way};
use role_wire::{reply_frame, setup_reply};
use std::process::Abort;
use std::test::Fail;

// A derivation with this output.
fn derived(out: &str) -> Result<Derived, Fail> {
    Ok(Derived {
        key: [0; 32],
        input: KdfInput::Kenb(0),
        out: <[u8; 32] as FromHex>::from_hex(out)?,
    })
}

fn expect_reply<R: Abort + AllocGlobal>(rt: &R, reply: &ActorOut, text: &str) -> Result<(), Fail> {
    let octets = hex::decode(rt.alloc(), text)?;
    same_at(rt, text, reply_frame(reply).as_slice(), octets.as_slice());
    Ok(())
}

#[test]
fn records_and_texts_of_the_ordinary_scenario(rt: HostRuntime) -> Result<(), Fail> {
    let setup = octets_of::<_, 10>(&rt, "00088000000000000000");
    same(&rt, setup_reply().as_slice(), setup.as_slice());

    let mut packet = ActorOut::of(Answer::Done);
    packet.sent = Some(Record {
        to: Address::StationAir(0, 1, Bearer::Drb1),
        octets: octets_of(&rt, "8000c9b9"),
    });
    expect_reply(
        &rt,
        &packet,
        "0015800000010400000000018100048000c9b900000000",
    )?;

    let mut opened = ActorOut::of(Answer::Done);
    opened.opened = Some(octets_of(&rt, "6f6b"));
    expect_reply(&rt, &opened, "000c800000000100026f6b000000")
}

#[test]
fn keys_of_the_ordinary_scenario(rt: HostRuntime) -> Result<(), Fail> {
    let key = "09aba1730b0aaeee84feac6bc03f66b9aa90d45309b719114a90be777b24b74c";
    let mut reply = ActorOut::of(Answer::Done);
    let octets = octets_of(
        &rt,
        "2300000001000000020109aba1730b0aaeee84feac6bc03f66b9aa90d45309b719114a90be777b24b74c",
    );
    reply.sent = Some(Record {
        to: Address::StationS1(1),
        octets,
    });
    let made = derived(key)?;
    let key = made.out;
    reply.note = Some(KeyNote {
        ncc: 1,
        way: Way::Chained,
        key,
    });
    assert!(rt; reply.derived.try_push(made).is_ok());
    let text = concat!(
        "0078800000010501002a2300000001000000020109aba1730b0aaeee84feac6bc03f66b9aa90d45309b719",
        "114a90be777b24b74c000109aba1730b0aaeee84feac6bc03f66b9aa90d45309b719114a90be777b24b74c",
        "01010509aba1730b0aaeee84feac6bc03f66b9aa90d45309b719114a90be777b24b74c00",
    );
    expect_reply(&rt, &reply, text)
}

const OWN: Caps = Caps {
    eea: 0xa0,
    eia: 0x20,
};

const GOT: Caps = Caps {
    eea: 0x20,
    eia: 0x60,
};

// An answer and its frame.
static ANSWERS: [(Answer, &str); 14] = [
    (Answer::NoContext, "00088001000000000000"),
    (Answer::WrongKsi(1, 2), "000a80020201020000000000"),
    (
        Answer::CapsMismatch(OWN, GOT),
        "000c800304a02020600000000000",
    ),
    (
        Answer::AlgUnsupported(Algs { eea: Eea::Eea2 }),
        "0009800401220000000000",
    ),
    (
        Answer::MacFails(7, [1, 2, 3, 4], [5, 6, 7, 8]),
        "001480050c0000000701020304050607080000000000",
    ),
    (
        Answer::BadRecord(RecFault::Short),
        "000a80090201000000000000",
    ),
    (
        Answer::BadRecord(RecFault::BadField(9)),
        "000a80090204090000000000",
    ),
    (Answer::BadHeader(0x70), "0009800b01700000000000"),
    (Answer::WrongKind(0x30), "0009800d01300000000000"),
    (
        Answer::Stale(0, 258),
        "0010801f0800000000000001020000000000",
    ),
    (
        Answer::OldConnection(2, 1),
        "001080200800000002000000010000000000",
    ),
    (Answer::AttemptOpen(3), "000c802404000000030000000000"),
    (
        Answer::Repeated(4, 4),
        "001080270800000004000000040000000000",
    ),
    (Answer::NoSmc, "0008802c000000000000"),
];

#[test]
fn answers_keep_their_values(rt: HostRuntime) -> Result<(), Fail> {
    for (answer, text) in &ANSWERS {
        expect_reply(&rt, &ActorOut::of(*answer), text)?;
    }
    Ok(())
}

#[test]
fn records_go_to_their_address(rt: HostRuntime) -> Result<(), Fail> {
    let table = [
        (
            Address::Phone(7, 258, Bearer::Srb2),
            "0012800000010007000001020200012a00000000",
        ),
        (Address::PhoneNas, "000c800000010100012a00000000"),
        (Address::CoreNas, "000c800000010200012a00000000"),
        (Address::CoreS1, "000c800000010300012a00000000"),
        (
            Address::StationAir(0, 1, Bearer::Drb4),
            "0012800000010400000000018400012a00000000",
        ),
        (Address::StationS1(5), "000d80000001050500012a00000000"),
        (Address::StationX2(6), "000d80000001060600012a00000000"),
    ];
    for (to, text) in table {
        let mut reply = ActorOut::of(Answer::Done);
        let octets = octets_of(&rt, "2a");
        reply.sent = Some(Record { to, octets });
        expect_reply(&rt, &reply, text)?;
    }
    Ok(())
}

#[test]
fn notes_have_their_way_and_the_alarm_is_the_last_octet(rt: HostRuntime) -> Result<(), Fail> {
    let ways = [
        Way::Initial,
        Way::Horizontal,
        Way::Vertical,
        Way::Given,
        Way::Completed,
        Way::Chained,
    ];
    for (number, way) in ways.iter().enumerate() {
        let mut reply = ActorOut::of(Answer::Done);
        reply.note = Some(KeyNote {
            ncc: 7,
            way: *way,
            key: [0xab; 32],
        });
        reply.alarm = true;
        let frame = reply_frame(&reply);
        let octets = frame.as_slice();
        same(&rt, octets.len(), 44);
        let head = [0, 42, 0x80, 0, 0, 0, 0, 0, 1, 7, number as u8];
        same(&rt, octets.split_at(11).0, head.as_slice());
        same(&rt, octets[42], 0xab);
        same(&rt, octets[43], 1);
    }
    Ok(())
}

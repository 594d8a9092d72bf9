ghost use Rattle.std.specs.Prelude.{◌≤◌, length};

use crate::values::{same, same_at};
use alg_choice::{Algs, Caps, Eea};
use annex_a_keys::{AlgType, Cell, Kasme, Kenb};
use key_terms::{Holder, Ladder, Origin, Proof, Row};
use lte_events::{Answer, Class, KeyNote, Line, Who};
use rec_base::{Dir, RecFault, Use, UserText, Way};
use report_text::{Figure, Tally, chance, ladder_text, line, summary_line};
use std::alloc::Global;
use std::process::Abort;
use std::test::Fail;

// The line of an event in which one acted and answered, and nothing else.
fn line_of(step: u32, who: Who, answer: Answer) -> Line {
    Line {
        step,
        who,
        answer,
        sent: None,
        opened: None,
        note: None,
        alarm: false,
    }
}

// Asserts the text of a line, without the LF.
fn assert_line(rt: &impl Abort, alloc: Global, of: &Line, wanted: &str) -> Result<(), Fail> {
    let text = line(alloc, of)?;
    let wanted = format!(in alloc; "{wanted}\n")?;
    same_at(rt, wanted.as_str(), text.as_slice(), wanted.as_bytes());
    Ok(())
}

const OWN: Caps = Caps {
    eea: 0xa0,
    eia: 0x20,
};

const GOT: Caps = Caps {
    eea: 0x0f,
    eia: 0x00,
};

// An answer and what is printed of it.
static ANSWERS: [(Answer, &str); 21] = [
    (Answer::Done, "done"),
    (Answer::NoContext, "NoContext"),
    (Answer::WrongKsi(0, 6), "WrongKsi held=0 got=6"),
    (
        Answer::CapsMismatch(OWN, GOT),
        "CapsMismatch own=a020 got=0f00",
    ),
    (
        Answer::AlgUnsupported(Algs { eea: Eea::Eea0 }),
        "AlgUnsupported algs=02",
    ),
    (
        Answer::AlgUnsupported(Algs { eea: Eea::Eea2 }),
        "AlgUnsupported algs=22",
    ),
    (
        Answer::MacFails(512, [0, 1, 0xab, 255], [0xde, 0xad, 0xbe, 0xef]),
        "MacFails count=512 wanted=0001abff got=deadbeef",
    ),
    (
        Answer::BadRecord(RecFault::Short),
        "BadRecord fault=1 place=0",
    ),
    (
        Answer::BadRecord(RecFault::Long),
        "BadRecord fault=2 place=0",
    ),
    (
        Answer::BadRecord(RecFault::BadKind),
        "BadRecord fault=3 place=0",
    ),
    (
        Answer::BadRecord(RecFault::BadField(10)),
        "BadRecord fault=4 place=10",
    ),
    (Answer::Short, "Short"),
    (Answer::BadHeader(7), "BadHeader octet=07"),
    (Answer::WrongKind(0x2a), "WrongKind kind=2a"),
    (Answer::Stale(0, 12), "Stale outstanding=0 got=12"),
    (
        Answer::OldConnection(4294967295, 1),
        "OldConnection held=4294967295 got=1",
    ),
    (Answer::AttemptOpen(3), "AttemptOpen number=3"),
    (Answer::Repeated(5, 5), "Repeated seen=5 got=5"),
    (Answer::NoRecord, "NoRecord"),
    (Answer::Sent(10), "Sent record=10"),
    (Answer::RepeatedRoot(0), "RepeatedRoot row=0"),
];

#[test]
fn answers_print_what_they_keep(rt: HostRuntime) -> Result<(), Fail> {
    for (answer, wanted) in &ANSWERS {
        let wanted = format!(in rt.alloc(); "7 core {wanted}")?;
        assert_line(&rt, rt.alloc(), &line_of(7, Who::Core, *answer), &wanted)?;
    }
    Ok(())
}

#[test]
fn lines_name_who_acted(rt: HostRuntime) -> Result<(), Fail> {
    let table = [
        (Who::Both, "199999 both done"),
        (Who::World, "199999 world done"),
        (Who::Phone, "199999 phone done"),
        (Who::Core, "199999 core done"),
        (Who::Station(7), "199999 station 7 done"),
    ];
    for (who, wanted) in table {
        assert_line(
            &rt,
            rt.alloc(),
            &line_of(199_999, who, Answer::Done),
            wanted,
        )?;
    }
    Ok(())
}

// The octets e0 to ff.
fn key() -> [u8; 32] {
    [
        0xe0, 0xe1, 0xe2, 0xe3, 0xe4, 0xe5, 0xe6, 0xe7, 0xe8, 0xe9, 0xea, 0xeb, 0xec, 0xed, 0xee,
        0xef, 0xf0, 0xf1, 0xf2, 0xf3, 0xf4, 0xf5, 0xf6, 0xf7, 0xf8, 0xf9, 0xfa, 0xfb, 0xfc, 0xfd,
        0xfe, 0xff,
    ]
}

#[test]
fn parts_stand_in_their_order(rt: HostRuntime) -> Result<(), Fail> {
    let key_text = "e0e1e2e3e4e5e6e7e8e9eaebecedeeeff0f1f2f3f4f5f6f7f8f9fafbfcfdfeff";
    let table = [
        (Class::Nas, Way::Initial, "nas", "initial"),
        (Class::Air, Way::Horizontal, "air", "horizontal"),
        (Class::S1, Way::Vertical, "s1", "vertical"),
        (Class::X2, Way::Given, "x2", "given"),
        (Class::S1, Way::Completed, "s1", "completed"),
        (Class::S1, Way::Chained, "s1", "chained"),
    ];
    for (class, way, class_name, way_name) in table {
        let mut of = line_of(2, Who::Station(0), Answer::Done);
        of.sent = Some((31, class));
        of.note = Some(KeyNote {
            ncc: 7,
            way,
            key: key(),
        });
        of.alarm = true;
        let wanted = format!(in rt.alloc();
            "2 station 0 done sent=31:{class_name} ncc=7 way={way_name} key={key_text} alarm"
        )?;
        assert_line(&rt, rt.alloc(), &of, &wanted)?;
    }
    Ok(())
}

#[test]
fn an_empty_text_is_printed(rt: HostRuntime) -> Result<(), Fail> {
    let mut of = line_of(9, Who::Station(0), Answer::Done);
    let mut text = UserText::new();
    of.opened = Some(text.clone()?);
    assert_line(&rt, rt.alloc(), &of, "9 station 0 done text=")?;
    text.append(b"hi");
    of.opened = Some(text);
    assert_line(&rt, rt.alloc(), &of, "9 station 0 done text=6869")
}

// A root of octets 00 to 1f.
pub(crate) const KASME: [u8; 32] = [
    0x00, 0x01, 0x02, 0x03, 0x04, 0x05, 0x06, 0x07, 0x08, 0x09, 0x0a, 0x0b, 0x0c, 0x0d, 0x0e, 0x0f,
    0x10, 0x11, 0x12, 0x13, 0x14, 0x15, 0x16, 0x17, 0x18, 0x19, 0x1a, 0x1b, 0x1c, 0x1d, 0x1e, 0x1f,
];

// An empty ladder with room for 8 rows.
pub(crate) fn ladder_with_room(rt: &impl Abort, alloc: Global) -> Ladder
    ensures { 8 ≤ result.spare }
{
    let mut ladder = Ladder::new(alloc);
    same(rt, ladder.reserve(8), Ok(()));
    ladder
}

// Adds a row of each other kind to a ladder that has the root alone.
pub(crate) fn add_one_of_each(rt: &impl Abort, ladder: &mut Ladder)
    requires { 4 ≤ ladder.old.spare }
{
    let (kenb, made) = Kasme::of_octets(KASME).kenb(0);
    let key = ladder.find(&made.key).expect(rt, "a root");
    same(rt, ladder.row(key).origin, Origin::Root);
    same(rt, ladder.add(&made), Ok(Row(1)));
    let (_, made) = Kasme::of_octets(KASME).nh_first(&kenb);
    let key = ladder.find(&made.key).expect(rt, "a root");
    same(rt, ladder.row(key).origin, Origin::Root);
    ladder.find(&kenb.octets()).expect(rt, "a SYNC-input");
    same(rt, ladder.add(&made), Ok(Row(2)));
    let cell = Cell::new(11, 101).expect(rt, "a cell in range");
    let (_, made) = kenb.star(&cell);
    ladder.find(&made.key).expect(rt, "a KeNB");
    same(rt, ladder.add(&made), Ok(Row(3)));
    let (_, made) = kenb.alg(AlgType::RrcEnc, 2);
    ladder.find(&made.key).expect(rt, "a KeNB");
    same(rt, ladder.add(&made), Ok(Row(4)));
}

// Compares the text of a ladder.
fn assert_ladder(
    rt: &impl Abort,
    alloc: Global,
    ladder: &Ladder,
    wanted: &str,
) -> Result<(), Fail> {
    let text = ladder_text(alloc, ladder)?;
    same(rt, text.as_slice(), wanted.as_bytes());
    Ok(())
}

// Gives the four rows of a ladder their holders, in no order.
fn give_holders(rt: &impl Abort, ladder: &mut Ladder) {
    same(rt, ladder.len(), 4);
    ladder.hold(Holder::Phone, Row(0));
    ladder.hold(Holder::Station(7), Row(1));
    ladder.hold(Holder::Core, Row(1));
    ladder.hold(Holder::Station(5), Row(2));
    ladder.hold(Holder::Station(0), Row(2));
    ladder.hold(Holder::Core, Row(2));
    ladder.hold(Holder::Station(3), Row(2));
    ladder.hold(Holder::Phone, Row(2));
    ladder.hold(Holder::Core, Row(3));
    ladder.hold(Holder::Phone, Row(3));
    for station in 0..8 {
        assert!(rt; 3 < ladder.len());
        ladder.hold(Holder::Station(station), Row(3));
    }
}

#[test]
fn holders_stand_in_their_order(rt: HostRuntime) -> Result<(), Fail> {
    let mut ladder = ladder_with_room(&rt, rt.alloc());
    same(&rt, ladder.root([1; 32]), Ok(Row(0)));
    same(&rt, ladder.root([2; 32]), Ok(Row(1)));
    same(&rt, ladder.root([3; 32]), Ok(Row(2)));
    same(&rt, ladder.root([4; 32]), Ok(Row(3)));
    give_holders(&rt, &mut ladder);
    let wanted = "\
row 0 root 0101010101010101010101010101010101010101010101010101010101010101 P
row 1 root 0202020202020202020202020202020202020202020202020202020202020202 C,S7
row 2 root 0303030303030303030303030303030303030303030303030303030303030303 P,C,S0,S3,S5
row 3 root 0404040404040404040404040404040404040404040404040404040404040404 P,C,S0,S1,S2,S3,S4,S5,S6,S7
";
    assert_ladder(&rt, rt.alloc(), &ladder, wanted)
}

#[test]
fn coincidences_print_what_shows_them(rt: HostRuntime) -> Result<(), Fail> {
    let cell = Cell::new(503, 65536).expect(&rt, "a cell in range");
    let made = Kenb::of_octets(KASME).star(&cell).1;
    let text = chance(rt.alloc(), 5, &Proof::Rows(Row(2), made))?;
    let wanted =
        "5 coincidence rows 2 000102030405060708090a0b0c0d0e0f101112131415161718191a1b1c1d1e1f 1301f700020100000003\n";
    same(&rt, text.as_slice(), wanted.as_bytes());
    let text = chance(rt.alloc(), 0, &Proof::RootIsRow(Row(7), KASME))?;
    same(&rt, text.as_slice(), b"0 coincidence root 7\n".as_slice());
    let up = Use {
        key: KASME,
        count: 4294967295,
        bearer: 5,
        dir: Dir::Up,
    };
    let down = Use {
        key: key(),
        count: 1,
        bearer: 0,
        dir: Dir::Down,
    };
    let text = chance(rt.alloc(), 10, &Proof::Tuples(None, down))?;
    let wanted =
        "10 coincidence tuples nobody e0e1e2e3e4e5e6e7e8e9eaebecedeeeff0f1f2f3f4f5f6f7f8f9fafbfcfdfeff/1/0/down\n";
    same(&rt, text.as_slice(), wanted.as_bytes());
    let text = chance(rt.alloc(), 10, &Proof::Tuples(Some(up), down))?;
    let wanted =
        "10 coincidence tuples 000102030405060708090a0b0c0d0e0f101112131415161718191a1b1c1d1e1f/4294967295/5/up e0e1e2e3e4e5e6e7e8e9eaebecedeeeff0f1f2f3f4f5f6f7f8f9fafbfcfdfeff/1/0/down\n";
    same(&rt, text.as_slice(), wanted.as_bytes());
    Ok(())
}

// A line of an event in which one acted and came by a key.
fn noted(who: Who, way: Way) -> Line {
    let mut line = line_of(0, who, Answer::Done);
    line.note = Some(KeyNote {
        ncc: 1,
        way,
        key: key(),
    });
    line
}

// The tally of some lines.
fn tally_of(lines: &[Line]) -> Tally
    requires { length lines.now ≤ 100 }
{
    let mut tally = Tally::new();
    for line in lines {
        tally.count(line);
    }
    tally
}

#[test]
fn a_summary_counts_what_its_lines_tell(rt: HostRuntime) -> Result<(), Fail> {
    let mut rejected = line_of(1, Who::Phone, Answer::WrongKsi(1, 0));
    rejected.sent = Some((3, Class::Nas));
    let mut sent = line_of(2, Who::Core, Answer::Done);
    sent.sent = Some((4, Class::Nas));
    let lines = [
        rejected,
        sent,
        line_of(3, Who::World, Answer::NoRecord),
        line_of(4, Who::Station(1), Answer::NoUe),
        noted(Who::Station(1), Way::Vertical),
        noted(Who::Station(1), Way::Completed),
        noted(Who::Phone, Way::Vertical),
        noted(Who::Phone, Way::Horizontal),
        noted(Who::Core, Way::Chained),
    ];
    let tally = tally_of(&lines);
    let wanted = [
        "steps 9\n",
        "records 2\n",
        "refused 3\n",
        "handovers 1\n",
        "vertical 1\n",
        "rows 12\n",
    ];
    for (figure, wanted) in Figure::all().iter().zip(wanted) {
        let text = summary_line(rt.alloc(), &tally, 12, *figure)?;
        same(&rt, text.as_slice(), wanted.as_bytes());
    }
    Ok(())
}

ghost use Rattle.std.specs.Prelude.{◌≤◌};

use crate::texts::{KASME, add_one_of_each, ladder_with_room};
use crate::values::{same, same_at};
use key_audit::{Audit, audit_of, audit_text, check};
use key_terms::{Holder, Ladder, Row};
use std::alloc::Global;
use std::process::Abort;
use std::test::Fail;

// The rows that stations 0 and 1 hold of a ladder with a row of each kind.
const HELD: [(u8, u32); 4] = [(0, 1), (0, 3), (1, 2), (1, 3)];

const AUDIT: &str = "\
audit 5
row 0 root -
row 1 kenb(0,0) S0 by S0 1
row 2 nh(0,1) S1 by S1 2
row 3 star(1,11,101) S0,S1 by S0 3 by S1 3
row 4 alg(1,3,2) S0 by S0 1>4
checked
";

// The same where station 5 holds the root beside.
const WITH_ROOT: &str = "\
audit 5
row 0 root S5 by S5 0
row 1 kenb(0,0) S0,S5 by S0 1 by S5 0>1
row 2 nh(0,1) S1,S5 by S1 2 by S5 0>2
row 3 star(1,11,101) S0,S1,S5 by S0 3 by S1 3 by S5 0>1>3
row 4 alg(1,3,2) S0,S5 by S0 1>4 by S5 0>1>4
checked
";

// A ladder with a row of each kind, and the rows that the stations hold.
fn ladder_of(rt: &impl Abort, alloc: Global) -> Ladder {
    let mut ladder = ladder_with_room(rt, alloc);
    same(rt, ladder.root(KASME), Ok(Row(0)));
    add_one_of_each(rt, &mut ladder);
    for (station, row) in HELD {
        assert!(rt; station <= 7 && (row as usize) < ladder.len());
        ladder.hold(Holder::Station(station), Row(row));
    }
    ladder
}

// Audits a ladder, and compares the text of the audit.
fn audited(rt: &impl Abort, alloc: Global, ladder: &Ladder, wanted: &str) -> Result<(), Fail> {
    let audit = audit_of(alloc, ladder)?;
    let text = audit_text(alloc, ladder, &audit)?;
    same(rt, text.as_slice(), wanted.as_bytes());
    Ok(())
}

#[test]
fn stations_derive_what_comes_from_the_rows_that_they_hold(rt: HostRuntime) -> Result<(), Fail> {
    let mut ladder = ladder_of(&rt, rt.alloc());
    audited(&rt, rt.alloc(), &ladder, AUDIT)?;
    assert!(rt; ladder.len() == 5);
    ladder.hold(Holder::Station(5), Row(0));
    audited(&rt, rt.alloc(), &ladder, WITH_ROOT)
}

// One place of an audit, changed.
#[derive(Clone, Copy)]
enum Change {
    Nothing,
    Can(usize, usize, bool),
    From(usize, usize, u32),
    RowLess,
}

fn changed(rt: &impl Abort, audit: &mut Audit, change: Change) {
    match change {
        Change::Nothing => {}
        Change::Can(row, station, can) => {
            assert!(rt; row < audit.rows.len() && station < 8);
            audit.rows[row].can[station] = can;
        }
        Change::From(row, station, from) => {
            assert!(rt; row < audit.rows.len() && station < 8);
            audit.rows[row].from[station] = from;
        }
        Change::RowLess => {
            audit.rows.pop();
        }
    }
}

// Whether the audit of a ladder with this change passes the check.
fn passes(rt: &impl Abort, alloc: Global, ladder: &Ladder, change: Change) -> bool {
    let mut audit = audit_of(alloc, ladder).expect(rt, "memory");
    changed(rt, &mut audit, change);
    check(ladder, &audit)
}

static CHANGES: [(Change, bool); 8] = [
    (Change::Nothing, true),
    (Change::Can(2, 0, true), false),
    (Change::Can(4, 0, false), false),
    (Change::Can(1, 0, false), false),
    (Change::From(3, 0, 1), false),
    (Change::From(4, 0, 3), false),
    (Change::From(2, 0, 1), false),
    (Change::RowLess, false),
];

#[test]
fn a_changed_audit_is_refused(rt: HostRuntime) {
    let ladder = ladder_of(&rt, rt.alloc());
    for (number, (change, wanted)) in CHANGES.iter().enumerate() {
        let got = passes(&rt, rt.alloc(), &ladder, *change);
        same_at(&rt, number, got, *wanted);
    }
    drop(ladder);
}

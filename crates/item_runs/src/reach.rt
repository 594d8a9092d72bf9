// The stations that can derive the phone's key.
ghost use Rattle.growth.specs.Growth.{WasRefused};
ghost use Rattle.std.specs.Prelude.{◌≡◌, ◌≤◌, [], ◌∷◌, false, get_or, Some, All, IfOk, OnErr};
ghost use Rattle.item_lines.specs.Lines.{phone_note};
ghost use Rattle.item_runs.specs.Reach.{all_stations, by_origin, can_derive, is_derived, last_key, marks_from, newer, reach_by, who_from};

use hmac_kdf::KdfInput;
use item_lines::{Told, phone_note};
use key_terms::{Ladder, LadderRow, Origin, Row};
use std::alloc::{AllocError, Global};

static STATIONS: [u8; 8] = [0, 1, 2, 3, 4, 5, 6, 7];

// Those that can derive the key that the phone came by last, by these lines.
pub(crate) fn reach(alloc: Global, ladder: &Ladder, told: &[Told]) -> Result<Vec<u8>, AllocError>
    ensures reach { IfOk result (λ found. found.items ≡ reach_by ladder.now.rows (last_key told.now)) }
    ensures refused { OnErr result WasRefused }
{
    match last_key(told) {
        Some(key) => reach_of(alloc, ladder, &key),
        None => Ok(Vec::new(alloc)),
    }
}

// Those that can derive this key.
fn reach_of(alloc: Global, ladder: &Ladder, key: &[u8; 32]) -> Result<Vec<u8>, AllocError>
    ensures reach { IfOk result (λ found. found.items ≡ reach_by ladder.now.rows (Some key.now)) }
    ensures refused { OnErr result WasRefused }
{
    match ladder.find(key) {
        Some(row) => who_can(alloc, ladder, row),
        None => Ok(Vec::new(alloc)),
    }
}

// The key that the phone came by last.
#[tactic(auto, unfolding(crate::specs::Reach::last_key_from))]
fn last_key(told: &[Told]) -> Option<[u8; 32]>
    ensures { result ≡ last_key told.now }
{
    let mut key = None;
    for t in told {
        key = newer(key, t);
    }
    key
}

// The phone's key after this line.
fn newer(key: Option<[u8; 32]>, t: &Told) -> Option<[u8; 32]>
    ensures { result ≡ newer key (phone_note t.now) }
{
    match phone_note(t) {
        Some(note) => Some(note.key),
        None => key,
    }
}

// The stations that can derive the key of this row.
#[tactic(auto, unfolding(crate::specs::Reach::who_from))]
fn who_can(alloc: Global, ladder: &Ladder, row: Row) -> Result<Vec<u8>, AllocError>
    ensures who { IfOk result (λ found. found.items ≡ who_from ladder.now.rows row.0 all_stations []) }
    ensures refused { OnErr result WasRefused }
{
    who_of(alloc, &STATIONS, ladder, row)
}

// Those of these stations.
#[tactic(auto, unfolding(crate::specs::Reach::who_from))]
fn who_of(alloc: Global, stations: &[u8], ladder: &Ladder, row: Row) -> Result<Vec<u8>, AllocError>
    requires { All (λ station. station ≤ 7) stations.now }
    ensures who { IfOk result (λ found. found.items ≡ who_from ladder.now.rows row.0 stations.now []) }
    ensures refused { OnErr result WasRefused }
{
    let mut found = Vec::new(alloc);
    for station in stations {
        if can_derive(alloc, ladder, row, *station)? {
            growth::reserve(&mut found, 1)?;
            found.push_reserved(*station);
        }
    }
    Ok(found)
}

// Whether a station can derive the key of this row.
fn can_derive(alloc: Global, ladder: &Ladder, row: Row, station: u8) -> Result<bool, AllocError>
    requires { station ≤ 7 }
    ensures can { IfOk result (λ can. can ≡ can_derive ladder.now.rows row.0 station) }
    ensures refused { OnErr result WasRefused }
{
    let marks = marks(alloc, ladder, station)?;
    Ok(mark_at(marks.as_slice(), row.0))
}

// The same of each row.
#[tactic(auto, unfolding(crate::specs::Reach::marks_from))]
fn marks(alloc: Global, ladder: &Ladder, station: u8) -> Result<Vec<bool>, AllocError>
    requires { station ≤ 7 }
    ensures marks { IfOk result (λ marks. marks.items ≡ marks_from station [] ladder.now.rows) }
    ensures refused { OnErr result WasRefused }
{
    let mut marks = Vec::new(alloc);
    for number in 0..ladder.len() {
        let row = ladder.row(Row(number as u32));
        let mark = is_derived(station, marks.as_slice(), &row);
        growth::reserve(&mut marks, 1)?;
        marks.push_reserved(mark);
    }
    Ok(marks)
}

// Whether a station can derive the key of a row, by the marks of the rows before it.
fn is_derived(station: u8, marks: &[bool], row: &LadderRow) -> bool
    requires { station ≤ 7 }
    ensures { result ≡ is_derived station marks.now row.now }
{
    row.stations[station as usize] || by_origin(marks, &row.origin)
}

fn by_origin(marks: &[bool], origin: &Origin) -> bool
    ensures { result ≡ by_origin marks.now origin.now }
{
    match origin {
        Origin::From(key, KdfInput::Star(_, _)) => mark_at(marks, key.0),
        _ => false,
    }
}

fn mark_at(marks: &[bool], row: u32) -> bool
    ensures { result ≡ get_or marks.now row false }
{
    match marks.get(row as usize) {
        Some(mark) => *mark,
        None => false,
    }
}

ghost use Rattle.std.specs.Prelude.{◌≡◌, ◌≢◌, ◌↔◌, ℕ, ◌+◌, ◌-◌, ◌^◌, ◌<◌, ◌≤◌, [], ◌∷◌, ◌++◌, length, OnOk, OnErr, IfOk, IfErr, IfSome, IsSome, Some, None, Err, slice_get, vec_len, vec_capacity};
ghost use Rattle.std.specs.Option.{option_map};
ghost use Rattle.growth.specs.Growth.{Refused};
ghost use Rattle.hmac_kdf.specs.Kdf.{IsKdfInput, kdf};
ghost use Rattle.key_terms.specs.Ladder.{row, unheld, octets_at, origin_at, row_of, origin_of, HasRoot, HasSync, IsMade, AreNumbered, IsLadder, Coincides, RootRefused, AddRefused, AreApart, IsIndexOf, IsHolder, holding};

use crate::index::Index;
use crate::{Holder, LadderRow, Origin, Row};
use annex_a_keys::Derived;
use std::alloc::Global;
use std::marker::Model;

/// The keys that were derived, each once, in the order of their first derivation. No two rows have
/// the same octets. A row is found by its octets in constant time, once `reserve` was called after it
/// came.
#[derive(Drop)]
pub struct Ladder {
    rows: Vec<LadderRow>,
    // the rows that stood when room was last made
    index: Index,
}

impl Model for Ladder {
    ghost use Rattle.std.specs.Prelude.{◌-◌, ◌^◌, ◌<◌, min, vec_len, vec_capacity};
    ghost use Rattle.key_terms.specs.Ladder.{Rows, IsLadder, IsIndexOf};

    ghost Value = { Rows };

    ghost view = { λ l. record { rows = l.rows.items; spare = min (vec_capacity l.rows) (2 ^ 32 - 1) - vec_len l.rows } };

    ghost invariant = { λ l. IsLadder l.rows.items × (vec_len l.rows < 2 ^ 32) × IsIndexOf l.index l.rows.items };
}

/// Why the ladder refused a row.
#[derive(Debug, Drop, Clone, Copy, PartialEq, Eq)]
pub enum LadderFault {
    /// Memory ran out.
    Memory,
    /// A root has these octets already: its row.
    RepeatedRoot(Row),
    /// Two origins gave the same octets: the row that has them, and the origin that was refused.
    Coincidence(Row, Origin),
}

impl Ladder {
    /// A ladder with no rows. It takes no memory.
    pub fn new(alloc: Global) -> Ladder
        ensures rows { result.rows ≡ [] }
        ensures spare { result.spare ≡ 0 }
    {
        Ladder {
            rows: Vec::new(alloc),
            index: Index::new(alloc),
        }
    }

    /// Makes room for so many rows more. Where memory runs out the ladder is as before: there was not room for so many, and std
    /// refused it.
    pub fn reserve(&mut self, rows: usize) -> Result<(), LadderFault>
        requires { length self.old.rows + rows < 2 ^ 32 }
        ensures memory { IfErr result (λ fault. fault ≡ LadderFault.Memory) }
        ensures lacking { OnErr result (self.old.spare < rows) }
        ensures refused { OnErr result (Refused (length self.old.rows + rows)) }
        ensures spare { OnOk result (rows ≤ self.new.spare) }
        ensures rows { self.new.rows ≡ self.old.rows }
        ensures err { OnErr result (self.new ≡ self.old) }
    {
        index_all(&mut self.index, &self.rows);
        match growth::reserve(&mut self.rows, rows) {
            Ok(()) => Ok(()),
            Err(_) => Err(LadderFault::Memory),
        }
    }

    /// The row of a root. The ladder is as before where a row has the octets: a root's row is named
    /// as repeated, a derived row's is a coincidence.
    pub fn root(&mut self, octets: [u8; 32]) -> Result<Row, LadderFault>
        requires { 0 < self.old.spare }
        ensures new { row_of self.old.rows octets ≡ None → (result ≡ Ok (row (length self.old.rows))) × (self.new.rows ≡ self.old.rows ++ unheld Origin.Root octets ∷ []) }
        ensures repeated { (k : ℕ) → row_of self.old.rows octets ≡ Some k → origin_at self.old.rows k ≡ Some Origin.Root → result ≡ Err (LadderFault.RepeatedRoot (row k)) }
        ensures coincidence { (k : ℕ) → Coincides self.old.rows Origin.Root octets k → result ≡ Err (LadderFault.Coincidence (row k) Origin.Root) }
        ensures cause { IfErr result (RootRefused self.old.rows octets) }
        ensures memory { result ≢ Err LadderFault.Memory }
        ensures one { length self.new.rows ≤ length self.old.rows + 1 }
        ensures spare { self.old.spare ≤ self.new.spare + 1 }
        ensures err { OnErr result (self.new ≡ self.old) }
        ensures ladder { IsLadder self.new.rows }
    {
        let Some(row) = self.find(&octets) else {
            return Ok(self.push(Origin::Root, octets));
        };
        Err(match self.row(row).origin {
            Origin::Root => LadderFault::RepeatedRoot(row),
            Origin::From(..) => LadderFault::Coincidence(row, Origin::Root),
        })
    }

    /// The row of a derivation, a new one where this derivation has none yet. Where a row has the
    /// octets from another origin, that is a coincidence, and the ladder is as before.
    pub fn add(&mut self, made: &Derived) -> Result<Row, LadderFault>
        requires room { 0 < self.old.spare }
        requires input { IsKdfInput made.now.input }
        requires out { made.now.out ≡ kdf made.now.key made.now.input }
        requires key { IsSome (row_of self.old.rows made.now.key) }
        requires root { IfSome (row_of self.old.rows made.now.key) (λ key. HasRoot self.old.rows key made.now.input) }
        requires sync { HasSync self.old.rows made.now.input }
        ensures new { row_of self.old.rows made.now.out ≡ None
            → (result ≡ Ok (row (length self.old.rows)))
            × (self.new.rows ≡ self.old.rows ++ unheld (origin_of self.old.rows made.now) made.now.out ∷ []) }
        ensures again { (k : ℕ) → row_of self.old.rows made.now.out ≡ Some k → origin_at self.old.rows k ≡ Some (origin_of self.old.rows made.now) → (result ≡ Ok (row k)) × (self.new ≡ self.old) }
        ensures coincidence { (k : ℕ) → Coincides self.old.rows (origin_of self.old.rows made.now) made.now.out k → result ≡ Err (LadderFault.Coincidence (row k) (origin_of self.old.rows made.now)) }
        ensures cause { IfErr result (AddRefused self.old.rows made.now) }
        ensures memory { result ≢ Err LadderFault.Memory }
        ensures one { length self.new.rows ≤ length self.old.rows + 1 }
        ensures spare { self.old.spare ≤ self.new.spare + 1 }
        ensures err { OnErr result (self.new ≡ self.old) }
        ensures ladder { IsLadder self.new.rows }
    {
        let key = self.find(&made.key).unwrap();
        let origin = Origin::From(key, made.input);
        match self.find(&made.out) {
            None => Ok(self.push(origin, made.out)),
            Some(row) if self.row(row).origin == origin => Ok(row),
            Some(row) => Err(LadderFault::Coincidence(row, origin)),
        }
    }

    // Puts a row at the end.
    fn push(&mut self, origin: Origin, octets: [u8; 32]) -> Row
        requires room { 0 < self.old.spare }
        requires new { row_of self.old.rows octets ≡ None }
        requires made { IsMade self.old.rows (length self.old.rows) origin octets }
        ensures row { result ≡ row (length self.old.rows) }
        ensures rows { self.new.rows ≡ self.old.rows ++ unheld origin octets ∷ [] }
        ensures spare { self.old.spare ≤ self.new.spare + 1 }
        ensures ladder { IsLadder self.new.rows }
    {
        let row = Row(self.rows.len() as u32);
        put(&mut self.rows, LadderRow::unheld(origin, octets));
        row
    }

    /// Notes that this one holds the key of a row; a station's number is at most 7. Nothing else
    /// changes.
    #[tactic(auto, using(crate::proofs::Holding::length_holding))]
    pub fn hold(&mut self, who: Holder, row: Row)
        requires stands { row.0 < length self.old.rows }
        requires holder { IsHolder who }
        ensures rows { self.new.rows ≡ holding who row.0 self.old.rows }
        ensures len { length self.new.rows ≡ length self.old.rows }
        ensures spare { self.new.spare ≡ self.old.spare }
        ensures ladder { IsLadder self.new.rows }
    {
        hold_at(&mut self.rows, row.0 as usize, who);
    }

    /// The row with these octets; none exactly where no row has them.
    pub fn find(&self, octets: &[u8; 32]) -> Option<Row>
        ensures row { option_map (λ r. r.0) result ≡ row_of self.now.rows octets.now }
        ensures ladder { IsLadder self.now.rows }
    {
        let row = find_by(&self.index, &self.rows, octets)?;
        Some(Row(row as u32))
    }

    /// A row by its number.
    pub fn row(&self, row: Row) -> LadderRow
        requires { row.0 < length self.now.rows }
        ensures row { slice_get self.now.rows row.0 ≡ Some result }
        ensures made { IsMade self.now.rows row.0 result.origin result.octets }
    {
        self.rows[row.0 as usize]
    }

    /// How many rows there are. They stand for distinct derivations with distinct octets.
    pub fn len(&self) -> usize
        ensures len { result ≡ length self.now.rows }
        ensures numbered { AreNumbered self.now.rows }
        ensures ladder { IsLadder self.now.rows }
    {
        self.rows.len()
    }
}

// Puts a row at the end of rows that have room for it.
fn put(rows: &mut Vec<LadderRow>, row: LadderRow)
    requires { vec_len rows.old < vec_capacity rows.old }
    ensures items { rows.new.items ≡ rows.old.items ++ row ∷ [] }
    ensures len { vec_len rows.new ≡ vec_len rows.old + 1 }
    ensures capacity { vec_capacity rows.old ≤ vec_capacity rows.new }
{
    rows.push(row).unwrap();
}

// Notes one more holder of a row.
fn hold_at(rows: &mut Vec<LadderRow>, place: usize, who: Holder)
    requires stands { place < length rows.old.items }
    requires holder { IsHolder who }
    ensures items { rows.new.items ≡ holding who place rows.old.items }
    ensures len { vec_len rows.new ≡ vec_len rows.old }
    ensures capacity { vec_capacity rows.new ≡ vec_capacity rows.old }
{
    let mut row = rows[place];
    row.hold(who);
    rows[place] = row;
}

// Brings the index up to date with the rows. Where it has no memory it has some of them, and the others are looked for one by
// one until a later call.
fn index_all(index: &mut Index, rows: &[LadderRow])
    requires apart { AreApart rows.now }
    requires index { IsIndexOf index.old rows.now }
    ensures { IsIndexOf index.new rows.now }
{
    for number in index.len()..rows.len() {
        match index.push(rows[number].octets) {
            Ok(()) => {}
            Err(_) => return,
        }
    }
}

// The place of the first row with these octets: among the rows of the index, or else among those
// that came since.
fn find_by(index: &Index, rows: &[LadderRow], octets: &[u8; 32]) -> Option<usize>
    requires index { IsIndexOf index.now rows.now }
    ensures place { result ≡ row_of rows.now octets.now }
    ensures within { IfSome result (λ k. k < length rows.now) }
{
    if let Some(place) = index.number_of(octets) {
        return Some(place);
    }
    let mark = index.len();
    let place = position_of(&rows[mark..], octets)?;
    Some(mark + place)
}

// The place of the first row with these octets.
fn position_of(rows: &[LadderRow], octets: &[u8; 32]) -> Option<usize>
    ensures place { result ≡ row_of rows.now octets.now }
    ensures within { IfSome result (λ k. k < length rows.now) }
{
    rows.iter().position(|row| row.octets == *octets)
}

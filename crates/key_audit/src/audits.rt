ghost use Rattle.growth.specs.Growth.{WasRefused};
ghost use Rattle.std.specs.Prelude.{◌≡◌, ℕ, ◌<◌, ◌≤◌, Bool, true, false, length, slice_get, slice_index_or, IfOk, Some, None, OnErr};
ghost use Rattle.key_terms.specs.declared.row.LadderRow.{LadderRow};
ghost use Rattle.key_terms.specs.Ladder.{IsLadder, IsMade};
ghost use Rattle.key_audit.specs.Exact.{Exact};
ghost use Rattle.key_audit.specs.Terms.{sync_row};
ghost use Rattle.key_audit.specs.Local.{and_mark, above_mark, held_first, mark_of, mark_at, IsClean, AreClean, Fills};

use hmac_kdf::KdfInput;
use key_terms::{Ladder, Origin, Row};
use report_text::TextMemory;
use std::alloc::{AllocError, Global};

/// What each station can derive by itself, for each row of a ladder.
#[derive(Drop)]
pub struct Audit {
    /// A row for each row of the ladder, in its order.
    pub rows: Vec<AuditRow>,
}

/// Which stations can derive the key of a row, by their numbers.
#[derive(Clone, Copy)]
pub struct AuditRow {
    /// Whether the station of this number can derive it.
    pub can: [bool; 8],
    /// The nearest row that the station holds on the way up from this one; 0 where it cannot.
    pub from: [u32; 8],
}

impl AuditRow {
    ghost use Rattle.std.specs.Prelude.{◌≡◌, ◌≢◌, ℕ, ◌<◌, Some, None};
    ghost use Rattle.key_audit.specs.Local.{mark_of, IsClean};

    // No station.
    fn nobody() -> AuditRow
        ensures marks { (station : ℕ) → station < 8 → mark_of station (Some result) ≡ None }
        ensures clean { IsClean (Some result) }
    {
        AuditRow {
            can: [false; 8],
            from: [0; 8],
        }
    }

    // The row from which a station can derive it, if it can.
    pub(crate) fn mark(&self, station: usize) -> Option<u32>
        requires { station < 8 }
        ensures { result ≡ mark_of station (Some self.now) }
    {
        if self.can[station] {
            Some(self.from[station])
        } else {
            None
        }
    }

    // Puts in that row, or that it cannot.
    fn put(&mut self, station: usize, mark: Option<u32>)
        requires { station < 8 }
        ensures this { mark_of station (Some self.new) ≡ mark }
        ensures others { (other : ℕ) → other ≢ station → mark_of other (Some self.new) ≡ mark_of other (Some self.old) }
        ensures clean { IsClean (Some self.old) → IsClean (Some self.new) }
    {
        self.can[station] = mark.is_some();
        self.from[station] = mark.unwrap_or(0);
    }
}

/// Memory ran out.
#[derive(Clone, Copy, Debug)]
pub struct AuditMemory;

impl From<AllocError> for AuditMemory {
    fn from(_fault: AllocError) -> AuditMemory {
        AuditMemory
    }
}

impl From<TextMemory> for AuditMemory {
    fn from(_fault: TextMemory) -> AuditMemory {
        AuditMemory
    }
}

/// Which station can derive the key of which row, from the rows that it holds: the exact audit. The one error is
/// want of memory.
pub fn audit_of(alloc: Global, ladder: &Ladder) -> Result<Audit, AuditMemory>
    ensures exact { IfOk result (λ audit. Exact ladder.now.rows audit.rows.items) }
    ensures ladder { IsLadder ladder.now.rows }
    ensures refused { OnErr result WasRefused }
{
    let rows = fill(alloc, ladder)?;
    Ok(Audit { rows })
}

// One row after the other.
fn fill(alloc: Global, ladder: &Ladder) -> Result<Vec<AuditRow>, AllocError>
    ensures exact { IfOk result (λ audit. Exact ladder.now.rows audit.items) }
    ensures ladder { IsLadder ladder.now.rows }
    ensures refused { OnErr result WasRefused }
{
    let mut rows = growth::with_capacity(alloc, ladder.len())?;
    for k in 0..ladder.len() {
        let row = audit_row(ladder, &rows, k as u32);
        growth::push(&mut rows, row)?;
    }
    Ok(rows)
}

// Who can derive row k, where those before it are known: who can derive what it is derived from, and who holds it.
fn audit_row(ladder: &Ladder, before: &[AuditRow], k: u32) -> AuditRow
    requires stands { k < length ladder.now.rows }
    requires known { k ≡ length before.now }
    requires clean { AreClean before.now }
    ensures { (row : LadderRow) → slice_get ladder.now.rows k ≡ Some row → Fills ladder.now.rows before.now k row result }
{
    let row = ladder.row(Row(k));
    let above = above(ladder, before, k, &row.origin, &row.octets);
    with_holders(&above, k, &row.stations)
}

// Who can derive what a row is derived from.
fn above(
    ladder: &Ladder,
    before: &[AuditRow],
    k: u32,
    origin: &Origin,
    octets: &[u8; 32],
) -> AuditRow
    requires known { k ≡ length before.now }
    requires made { IsMade ladder.now.rows k origin.now octets.now }
    requires clean { AreClean before.now }
    ensures marks { (station : ℕ) → station < 8 → mark_of station (Some result) ≡ above_mark ladder.now.rows (mark_at before.now station) k origin.now }
    ensures clean { IsClean (Some result) }
{
    match origin {
        Origin::Root => AuditRow::nobody(),
        Origin::From(key, KdfInput::Nh(sync)) => match sync_row(ladder, k, sync) {
            Some(sync) => who_also(&before[key.0 as usize], &before[sync as usize]),
            None => AuditRow::nobody(),
        },
        Origin::From(key, _) => before[key.0 as usize],
    }
}

// The row with the octets of the SYNC-input of row k, which comes before it.
pub(crate) fn sync_row(ladder: &Ladder, k: u32, sync: &[u8; 32]) -> Option<u32>
    ensures { result ≡ sync_row ladder.now.rows k sync.now }
{
    let row = ladder.find(sync)?;
    if row.0 < k { Some(row.0) } else { None }
}

// The stations of two rows, each from the row that the first names.
fn who_also(row: &AuditRow, other: &AuditRow) -> AuditRow
    ensures marks { (station : ℕ) → station < 8 → mark_of station (Some result) ≡ and_mark (mark_of station (Some other.now)) (mark_of station (Some row.now)) }
    ensures clean { IsClean (Some result) }
{
    let mut both = AuditRow::nobody();
    for station in 0..8 {
        both.put(station, other.mark(station).and(row.mark(station)));
    }
    both
}

// The stations of a row, and those who hold row k.
fn with_holders(above: &AuditRow, k: u32, held: &[bool; 8]) -> AuditRow
    ensures marks { (station : ℕ) → station < 8 → mark_of station (Some result) ≡ held_first (slice_index_or held.now station false) k (mark_of station (Some above.now)) }
    ensures clean { IsClean (Some result) }
{
    let mut row = AuditRow::nobody();
    for station in 0..8 {
        row.put(station, held_first(held[station], k, above.mark(station)));
    }
    row
}

// Row k itself, where a station holds it.
pub(crate) fn held_first(held: bool, k: u32, above: Option<u32>) -> Option<u32>
    ensures { result ≡ held_first held k above }
{
    if held { Some(k) } else { above }
}

ghost use Rattle.std.specs.Prelude.{◌≡◌, ◌↔◌, ◌<◌, ◌≤◌, Some, length, slice_get, IsTrue};
ghost use Rattle.key_terms.specs.Ladder.{IsMade};
ghost use Rattle.key_audit.specs.Exact.{Exact};
ghost use Rattle.key_audit.specs.Local.{mark_at, above_mark, local_mark, Says, RowFits, AllFit, FitBelow};

use crate::audits::{held_first, sync_row};
use crate::{Audit, AuditRow};
use hmac_kdf::KdfInput;
use key_terms::{Ladder, LadderRow, Origin, Row};

/// Whether an audit is the exact one of a ladder. Each row is compared only with its neighbours: a station can
/// derive it exactly if it holds it, or can derive the row of its key and, for an NH, that of its SYNC-input
/// (TS 33.401 A.3, A.4, A.5 and A.7). It takes no memory.
pub fn check(ladder: &Ladder, audit: &Audit) -> bool
    ensures { IsTrue result ↔ Exact ladder.now.rows audit.now.rows.items }
{
    audit.rows.len() == ladder.len() && each_row_fits(ladder, &audit.rows)
}

// Whether each row fits.
fn each_row_fits(ladder: &Ladder, audit: &[AuditRow]) -> bool
    requires { length audit.now ≡ length ladder.now.rows }
    ensures { IsTrue result ↔ FitBelow ladder.now.rows audit.now (length ladder.now.rows) }
{
    for k in 0..ladder.len() {
        if !row_fits(ladder, audit, k as u32) {
            return false;
        }
    }
    true
}

// Whether a row says of each station what its neighbours do.
fn row_fits(ladder: &Ladder, audit: &[AuditRow], k: u32) -> bool
    requires as_many { length audit.now ≡ length ladder.now.rows }
    requires stands { k < length ladder.now.rows }
    ensures { IsTrue result ↔ AllFit ladder.now.rows audit.now k }
{
    let row = ladder.row(Row(k));
    for station in 0..8 {
        if !station_fits(ladder, audit, k, station, &row) {
            return false;
        }
    }
    true
}

// Whether it says so of this station.
fn station_fits(
    ladder: &Ladder,
    audit: &[AuditRow],
    k: u32,
    station: usize,
    row: &LadderRow,
) -> bool
    requires as_many { length audit.now ≡ length ladder.now.rows }
    requires row { slice_get ladder.now.rows k ≡ Some row.now }
    requires made { IsMade ladder.now.rows k row.now.origin row.now.octets }
    requires station { station < 8 }
    ensures { IsTrue result ↔ RowFits ladder.now.rows audit.now k station }
{
    let said = audit[k as usize];
    let above = above_mark(ladder, audit, k, station, &row.origin, &row.octets);
    let wanted = held_first(row.stations[station], k, above);
    says(said.can[station], said.from[station], wanted)
}

// Whether the two say this.
fn says(can: bool, from: u32, wanted: Option<u32>) -> bool
    ensures { IsTrue result ↔ Says can from wanted }
{
    match wanted {
        Some(row) => can && from == row,
        None => !can && from == 0,
    }
}

// What the row of the key, and of the SYNC-input, say of a station.
fn above_mark(
    ladder: &Ladder,
    audit: &[AuditRow],
    k: u32,
    station: usize,
    origin: &Origin,
    octets: &[u8; 32],
) -> Option<u32>
    requires as_many { length audit.now ≡ length ladder.now.rows }
    requires stands { k < length ladder.now.rows }
    requires made { IsMade ladder.now.rows k origin.now octets.now }
    requires station { station < 8 }
    ensures { result ≡ above_mark ladder.now.rows (mark_at audit.now station) k origin.now }
{
    match origin {
        Origin::Root => None,
        Origin::From(key, KdfInput::Nh(sync)) => {
            let sync = sync_row(ladder, k, sync)?;
            audit[sync as usize].mark(station)?;
            audit[key.0 as usize].mark(station)
        }
        Origin::From(key, _) => audit[key.0 as usize].mark(station),
    }
}

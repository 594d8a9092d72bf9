// Whether a message may carry a key, by where it goes.
ghost use Rattle.std.specs.Prelude.{◌≡◌, ℕ, List, true};
ghost use Rattle.trace_keys.specs.declared.moves.Where.{Where as WhereOf};
ghost use Rattle.trace_keys.specs.Net.{Sight as SightOf};
ghost use Rattle.trace_order.specs.Kinds as by;
ghost use Rattle.trace_order.specs.Known.{IsNever};

use crate::clues::{Clue, Shape, placed_among};
use annex_a_keys::{Cell, Kasme};
use trace_keys::{Move, Sight, Where};

// Whether a move is a handover over X2 to this station for this cell.
fn is_for(station: u8, cell: &Cell, by_move: &Move) -> bool
    ensures { result ≡ by.is_for station cell.now by_move.now }
{
    match by_move {
        Move::Prepare {
            station: target,
            cell: at,
            ..
        } => {
            let pci = at.pci() == cell.pci();
            let earfcn = at.earfcn() == cell.earfcn();
            *target == station && (pci && earfcn)
        }
        _ => false,
    }
}

fn has_this(family: &[Move], station: u8, cell: &Cell) -> bool
    ensures { result ≡ by.has_cell family.now station (Some cell.now) }
{
    for by_move in family {
        if is_for(station, cell, by_move) {
            return true;
        }
    }
    false
}

// Whether such a move is among these.
fn has_cell(family: &[Move], station: u8, cell: &Option<Cell>) -> bool
    ensures { result ≡ by.has_cell family.now station cell.now }
{
    match cell {
        Some(cell) => has_this(family, station, cell),
        None => false,
    }
}

// Whether a KeNB may go there.
fn is_kenb(key: &Shape, ncc: u8) -> bool
    ensures { result ≡ by.is_kenb key.now ncc }
{
    let none = key.last.is_none();
    key.number == 0 && (none && ncc == 0)
}

// Whether an NH may.
fn is_nh(key: &Shape, ncc: u8) -> bool
    ensures { result ≡ by.is_nh key.now ncc }
{
    let none = key.last.is_none();
    key.number != 0 && (none && u32::from(ncc) == key.number % 8)
}

// Whether a message there may carry such a key, with this NCC.
fn may_carry(family: &[Move], at: &Where, key: &Shape, ncc: u8) -> bool
    ensures { result ≡ by.may_carry family.now at.now key.now ncc }
{
    match at {
        Where::Setup(_) => is_kenb(key, ncc),
        Where::Change(_) => is_kenb(key, ncc),
        Where::Answer(_) => is_nh(key, ncc),
        Where::Request(_) => is_nh(key, ncc),
        Where::Over(_, target) => {
            let cell = has_cell(family, *target, &key.last);
            cell && u32::from(ncc) == key.number % 8
        }
        Where::Took(_) => false,
        Where::Asked(_) => false,
    }
}

/// Whether it is known that no history of these moves, of however many and whatever taps have, shows a message: its key is that of a
/// clue, and no message there may carry it, or not with that NCC.
pub fn is_misplaced(kasmes: &[Kasme], family: &[Move], clues: &[Clue], sight: &Sight) -> bool
    ensures never { result ≡ true → (covered : List WhereOf) (capture : List (SightOf (List ℕ))) → IsNever kasmes.now covered family.now capture sight.now }
{
    let Some(pair) = sight.pair() else {
        return false;
    };
    let Some(placed) = placed_among(kasmes, clues, pair) else {
        return false;
    };
    let may = may_carry(family, sight.at(), &placed.shape, placed.ncc);
    !may
}

// Keys that are known, by how they are made.
ghost use Rattle.std.specs.Prelude.{◌≡◌, ℕ, IfSome};
ghost use Rattle.key_model.specs.Chain.{nh};
ghost use Rattle.key_model.specs.Term.{Term, Kenb as KenbOf};
ghost use Rattle.key_model.specs.Value.{value_of};
ghost use Rattle.trace_order.specs.Kinds.{IsMade, IsPlaced};

use crate::known::{Known, next_nh};
use annex_a_keys::{Cell, Kasme, Kenb};
use trace_keys::{Numbered, same_numbered};

/// A key that is known, by how it is made.
#[derive(Clone, Copy, Drop)]
pub enum Clue {
    /// A key of a chain. Number 0 is its KeNB.
    Chain(Known),
    /// KeNB* for a cell, of the key of the clue before.
    Star(Cell),
}

/// Which key of the ladder a key is.
#[derive(Clone, Copy, Drop)]
pub struct Shape {
    /// How many steps of the chain it is from a KeNB, below its KeNB*s.
    pub number: u32,
    /// The cell that it is for, if it is a KeNB*.
    pub last: Option<Cell>,
}

// A key of a clue, and the chain that it is made of.
#[derive(Clone, Copy, Drop)]
pub struct Made {
    pub(crate) key: Kenb,
    pub(crate) shape: Shape,
    pub(crate) base: Known,
}

// Which key of the ladder that of a message is, of which chain, and the NCC beside it.
#[derive(Clone, Copy, Drop)]
pub struct Placed {
    pub(crate) shape: Shape,
    pub(crate) base: Known,
    pub(crate) ncc: u8,
}

// The key so many steps of its chain from a KeNB.
fn nh_at(root: &Kasme, kenb: &Kenb, number: u32) -> Kenb
    ensures { (r : Term) (count : ℕ) → value_of r ≡ root.now → value_of (KenbOf r count) ≡ kenb.now → value_of (nh r count number) ≡ result }
{
    let mut sync = *kenb;
    for _step in 0..number {
        sync = next_nh(root, &sync);
    }
    sync
}

// The key of a chain of this KASME.
fn under(root: &Kasme, known: &Known) -> Made
    ensures { IsMade result }
{
    let (kenb, _derived) = root.kenb(known.count);
    let key = nh_at(root, &kenb, known.number);
    Made {
        key,
        shape: Shape {
            number: known.number,
            last: None,
        },
        base: *known,
    }
}

// The key of a chain.
fn of_chain(kasmes: &[Kasme], known: &Known) -> Option<Made>
    ensures { IfSome result IsMade }
{
    match kasmes.get(known.kasme as usize) {
        Some(root) => Some(under(root, known)),
        None => None,
    }
}

// KeNB* for a cell.
fn star_of(made: &Made, cell: &Cell) -> Made
    requires { IsMade made.now }
    ensures { IsMade result }
{
    let (star, _derived) = made.key.star(cell);
    Made {
        key: star.install(),
        shape: Shape {
            number: made.shape.number,
            last: Some(*cell),
        },
        base: made.base,
    }
}

// The key of a clue behind another.
fn made_by(kasmes: &[Kasme], before: &Option<Made>, clue: &Clue) -> Option<Made>
    requires { IfSome before.now IsMade }
    ensures { IfSome result IsMade }
{
    match clue {
        Clue::Chain(known) => of_chain(kasmes, known),
        Clue::Star(cell) => match before {
            Some(made) => Some(star_of(made, cell)),
            None => None,
        },
    }
}

// The NCC beside a key, if a message has that key.
fn ncc_beside(key: &Kenb, pair: &Numbered) -> Option<u8>
    ensures { IfSome result (λ ncc. pair.now ≡ record { key = key.now; number = ncc }) }
{
    for ncc in 0..8 {
        let same = same_numbered(&Numbered::new(*key, ncc), pair);
        if same {
            return Some(ncc);
        }
    }
    None
}

// Which key that of a message is, if it is that of a clue.
fn placed_by(made: &Option<Made>, pair: &Numbered) -> Option<Placed>
    requires { IfSome made.now IsMade }
    ensures { IfSome result (IsPlaced pair.now) }
{
    match made {
        Some(made) => match ncc_beside(&made.key, pair) {
            Some(ncc) => Some(Placed {
                shape: made.shape,
                base: made.base,
                ncc,
            }),
            None => None,
        },
        None => None,
    }
}

/// Which key that of a message is, if it is that of one of these clues.
pub(crate) fn placed_among(kasmes: &[Kasme], clues: &[Clue], pair: &Numbered) -> Option<Placed>
    ensures { IfSome result (IsPlaced pair.now) }
{
    let mut made = None;
    for clue in clues {
        made = made_by(kasmes, &made, clue);
        if let Some(placed) = placed_by(&made, pair) {
            return Some(placed);
        }
    }
    None
}

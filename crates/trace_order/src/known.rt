// Keys of chains whose terms are known: of which KASME, COUNT and number.
ghost use Rattle.std.specs.Prelude.{◌≡◌, ℕ, IfSome};
ghost use Rattle.hmac_kdf.specs.Kdf.{kdf};
ghost use Rattle.hmac_kdf.specs.declared.input.KdfInput.{KdfInput};
ghost use Rattle.key_model.specs.Chain.{nh};
ghost use Rattle.key_model.specs.Term.{Term, Kenb as KenbOf};
ghost use Rattle.key_model.specs.Value.{value_of};
ghost use Rattle.trace_order.specs.Known as by;

use annex_a_keys::{Kasme, Kenb};
use trace_keys::{Move, Numbered, same_numbered};

/// The greatest number of a key that is looked for.
pub const MOST_NUMBER: u32 = 64;

/// A key of a chain that is known.
#[derive(Clone, Copy, Drop)]
pub struct Known {
    /// The KASME, by its place.
    pub kasme: u8,
    /// The COUNT of the KeNB.
    pub count: u32,
    /// How many steps it is from that KeNB, itself of number 0.
    pub number: u32,
}

// The NH behind a key.
pub(crate) fn next_nh(root: &Kasme, sync: &Kenb) -> Kenb
    ensures { result ≡ kdf root.now (KdfInput.Nh sync.now) }
{
    let (nh, _derived) = root.nh_first(sync);
    Kenb::of_octets(nh.octets())
}

// The number of a key in the chain of a KeNB.
fn number_in(root: &Kasme, kenb: &Kenb, pair: &Numbered) -> Option<u32>
    ensures { (r : Term) (count : ℕ) → value_of r ≡ root.now → value_of (KenbOf r count) ≡ kenb.now → IfSome result (λ n. value_of (nh r count n) ≡ pair.now.key) }
{
    if same_numbered(&Numbered::new(*kenb, 0), pair) {
        return Some(0);
    }
    let mut sync = *kenb;
    for number in 0..MOST_NUMBER {
        sync = next_nh(root, &sync);
        let ncc = ((number + 1) % 8) as u8;
        let same = same_numbered(&Numbered::new(sync, ncc), pair);
        if same {
            return Some(number + 1);
        }
    }
    None
}

// A key of the chain of a KASME and a COUNT.
fn known_at(kasmes: &[Kasme], kasme: u8, count: u32, pair: &Numbered) -> Option<Known>
    ensures { IfSome result (λ key. value_of (by.term_of kasmes.now key) ≡ pair.now.key) }
{
    let root = kasmes.get(kasme as usize)?;
    let (kenb, _derived) = root.kenb(count);
    let number = number_in(root, &kenb, pair)?;
    Some(Known {
        kasme,
        count,
        number,
    })
}

// A key of the chain of a key change, which names KASME and COUNT.
fn known_by(kasmes: &[Kasme], by_move: &Move, pair: &Numbered) -> Option<Known>
    ensures { IfSome result (λ key. value_of (by.term_of kasmes.now key) ≡ pair.now.key) }
{
    match by_move {
        Move::Offer { kasme, count, .. } => known_at(kasmes, *kasme, *count, pair),
        _ => None,
    }
}

/// A key of one of the chains that may have been.
pub(crate) fn known_of(kasmes: &[Kasme], family: &[Move], pair: &Numbered) -> Option<Known>
    ensures { IfSome result (λ key. value_of (by.term_of kasmes.now key) ≡ pair.now.key) }
{
    for by_move in family {
        if let Some(key) = known_by(kasmes, by_move, pair) {
            return Some(key);
        }
    }
    None
}

/// Whether a key is of the chain of another, and further on.
pub(crate) fn is_further(before: &Known, after: &Known) -> bool
    ensures { result ≡ by.is_further before.now after.now }
{
    let kasme = before.kasme == after.kasme;
    let count = before.count == after.count;
    let further = before.number < after.number;
    kasme && count && further
}

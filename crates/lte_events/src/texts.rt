// Items, each of which has octets. The octets of all of them stand in one flat list, so that an item takes
// no more room than its own octets need.
ghost use Rattle.growth.specs.Growth.{WasRefused};
ghost use Rattle.rec_base.specs.Lengths.{longest_record};
ghost use Rattle.std.specs.Prelude.{◌≡◌, ◌+◌, ◌<◌, ◌≤◌, [], ◌∷◌, ◌++◌, length, Some, slice_get, vec_len, vec_capacity, OnOk, OnErr};

use rec_base::Octets;
use std::alloc::{AllocError, Global};
use std::marker::Model;

// An item: what it is besides its octets, and the place and the number of its octets in the flat list.
#[derive(Clone, Copy)]
pub(crate) struct Piece<T> {
    tag: T,
    start: usize,
    len: usize,
}

/// A list of items, each a small value and octets, at most 1,536. A contract sees the items, and for how
/// many more there is room.
#[derive(Drop)]
pub struct Texts<T> {
    pieces: Vec<Piece<T>>,
    flat: Vec<u8>,
    // for how many more items both have room
    spare: usize,
}

impl<T> Model for Texts<T> {
    ghost use Rattle.std.specs.Prelude.{◌+◌, ◌*◌, ◌≤◌, map, vec_len, vec_capacity};
    ghost use Rattle.lte_events.specs.Texts as spec;
    ghost use Rattle.rec_base.specs.Lengths.{longest_record};

    ghost Value = { spec.Texts T };

    ghost view = { λ l. record { items = map (spec.item_of l.flat.items) l.pieces.items; spare = l.spare } };

    ghost invariant = { λ l. spec.AreWithin l.pieces.items l.flat.items × (vec_len l.pieces + l.spare ≤ vec_capacity l.pieces) × (vec_len l.flat + l.spare * longest_record ≤ vec_capacity l.flat) };
}

impl<T> Texts<T> {
    /// No item. It takes no memory.
    pub fn new(alloc: Global) -> Texts<T>
        ensures items { result.items ≡ [] }
        ensures spare { result.spare ≡ 0 }
    {
        Texts {
            pieces: Vec::new(alloc),
            flat: Vec::new(alloc),
            spare: 0,
        }
    }
}

impl<T: Copy> Texts<T> {
    /// Makes room for one item more. Where memory runs out nothing changes: there was room for none, and std refused it.
    pub fn reserve(&mut self) -> Result<(), AllocError>
        ensures items { self.new.items ≡ self.old.items }
        ensures lacking { OnErr result (self.old.spare ≡ 0) }
        ensures refused { OnErr result WasRefused }
        ensures room { OnOk result (0 < self.new.spare) }
        ensures spare { self.old.spare ≤ self.new.spare }
        ensures one { self.new.spare ≤ self.old.spare + 1 }
        ensures err { OnErr result (self.new ≡ self.old) }
    {
        if self.spare == 0 {
            growth::reserve(&mut self.pieces, 1)?;
            growth::reserve(&mut self.flat, Octets::capacity())?;
            self.spare = 1;
        }
        Ok(())
    }

    /// Puts an item at the end.
    pub fn put(&mut self, tag: T, octets: &[u8])
        requires room { 0 < self.old.spare }
        requires within { length octets.now ≤ longest_record }
        ensures items { self.new.items ≡ self.old.items ++ record { tag = tag; octets = octets.now } ∷ [] }
        ensures spare { self.old.spare ≡ self.new.spare + 1 }
    {
        let piece = Piece {
            tag,
            start: self.flat.len(),
            len: octets.len(),
        };
        append(&mut self.flat, octets);
        self.pieces.push_reserved(piece);
        self.spare -= 1;
    }

    /// An item by its number, counted from 0: what it is, and its octets.
    pub fn at(&self, number: usize) -> (T, &[u8])
        requires { number < length self.now.items }
        ensures value { slice_get self.now.items number ≡ Some (record { tag = result.0; octets = result.1.now }) }
        ensures within { length result.1.now ≤ longest_record }
    {
        let piece = self.pieces[number];
        let start = piece.start;
        let end = start + piece.len;
        (piece.tag, &self.flat[start..end])
    }

    /// For how many more items there is room.
    pub fn spare(&self) -> usize
        ensures { result ≡ self.now.spare }
    {
        self.spare
    }

    /// How many items there are.
    pub fn len(&self) -> usize
        ensures { result ≡ length self.now.items }
    {
        self.pieces.len()
    }
}

// Appends octets, for which there is room.
fn append(flat: &mut Vec<u8>, octets: &[u8])
    requires { vec_len flat.old + length octets.now ≤ vec_capacity flat.old }
    ensures items { flat.new.items ≡ flat.old.items ++ octets.now }
    ensures len { vec_len flat.new ≡ vec_len flat.old + length octets.now }
    ensures capacity { vec_capacity flat.old ≤ vec_capacity flat.new }
{
    flat.extend_from_slice(octets).unwrap();
}

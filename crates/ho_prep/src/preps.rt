ghost use Rattle.std.specs.Prelude.{◌≡◌, ◌≤◌, ◌↔◌, [], ◌∷◌, ◌++◌, length, position, IsErr, OnOk, OnErr, IfErr};
ghost use Rattle.std.specs.Option.{option_copied};
ghost use Rattle.ho_prep.specs.Prep.{at_air, drop_below, has_attempt, is_at, most_preparations, without, without_at};

use crate::Prep;
use arrayvec::ArrayVec;
use std::marker::Model;

/// The preparations of a station, at most eight, in the order in which they were added.
#[derive(Drop)]
pub struct Preps {
    list: ArrayVec<Prep, 8>,
}

impl Model for Preps {
    ghost use Rattle.std.specs.Prelude.{List, ℕ, ◌≤◌, length};
    ghost use Rattle.ho_prep.specs.Prep.{Prep as PrepOf};

    ghost Value = { List (PrepOf (List ℕ) ℕ) };

    ghost view = { λ p. p.list.items };

    ghost invariant = { λ p. length p.list.items ≤ 8 };
}

impl Preps {
    /// No preparation.
    pub fn new() -> Preps
        ensures { result ≡ [] }
    {
        Preps {
            list: ArrayVec::new(),
        }
    }

    /// Adds a preparation after the others, or hands it back if there are eight already.
    pub fn add(&mut self, prep: Prep) -> Result<(), Prep>
        ensures full { IsErr result ↔ (length self.old ≡ most_preparations) }
        ensures ok { OnOk result (self.new ≡ self.old ++ prep ∷ []) }
        ensures err { OnErr result (self.new ≡ self.old) }
        ensures handed_back { IfErr result (λ back. back ≡ prep) }
    {
        if self.list.is_full() {
            return Err(prep);
        }
        self.list.push(prep);
        Ok(())
    }

    /// The first preparation at an air address. `None` if it has no preparation.
    pub fn at_air(&self, air: u32) -> Option<&Prep>
        ensures { option_copied result ≡ at_air air self.now }
    {
        self.list.as_slice().iter().find(|prep| prep.air == air)
    }

    /// Takes the first preparation at an air address out, and leaves the others in order. `None` if
    /// it has no preparation.
    pub fn take_air(&mut self, air: u32) -> Option<Prep>
        ensures value { result ≡ at_air air self.old }
        ensures others { self.new ≡ without_at air self.old }
    {
        match self.place_at(air) {
            Some(place) => Some(self.list.remove(place)),
            None => None,
        }
    }

    // The place of the first preparation at an air address.
    fn place_at(&self, air: u32) -> Option<usize>
        ensures { result ≡ position (is_at air) self.now }
    {
        self.list.as_slice().iter().position(|prep| prep.air == air)
    }

    /// Drops what stands for an attempt of a source, and answers whether something did.
    pub fn remove(&mut self, source: u8, attempt: u32) -> bool
        ensures stood { result ≡ has_attempt source attempt self.old }
        ensures others { self.new ≡ without source attempt self.old }
    {
        let stood = self.has_attempt(source, attempt);
        self.list
            .retain(|prep| !(prep.source == source && prep.attempt == attempt));
        stood
    }

    // Whether a preparation stands for an attempt of a source.
    fn has_attempt(&self, source: u8, attempt: u32) -> bool
        ensures { result ≡ has_attempt source attempt self.now }
    {
        self.list
            .as_slice()
            .iter()
            .any(|prep| prep.source == source && prep.attempt == attempt)
    }

    /// Drops all preparations.
    pub fn clear(&mut self)
        ensures { self.new ≡ [] }
    {
        self.list.clear();
    }

    /// How many preparations there are, at most eight.
    pub fn len(&self) -> usize
        ensures value { result ≡ length self.now }
        ensures at_most_eight { length self.now ≤ most_preparations }
    {
        self.list.len()
    }

    /// Drops the preparations of lower connections than this, and keeps the others in order.
    pub fn drop_below(&mut self, conn: u32)
        ensures kept { self.new ≡ drop_below conn self.old }
        ensures at_most_eight { length self.old ≤ most_preparations }
    {
        self.list.retain(|prep| prep.conn >= conn);
    }
}

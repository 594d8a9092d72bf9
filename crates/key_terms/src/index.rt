ghost use Rattle.std.specs.Prelude.{◌≡◌, [], ◌∷◌, ◌++◌, false, length, position, OnOk, OnErr};
ghost use Rattle.std.specs.List.{list_any};
ghost use Rattle.std.specs.Str.{bytes_eq};

use crate::words::Words;
use indexmap::IndexSet;
use std::alloc::{AllocError, Global};
use std::marker::Model;

// A list of different keys, in which the number of each is found by its octets in constant time. A
// contract sees it as the list.
#[derive(Drop)]
pub(crate) struct Index {
    keys: IndexSet<Words>,
}

impl Model for Index {
    ghost use Rattle.std.specs.Prelude.{List, ℕ, All, map};
    ghost use Rattle.key_terms.specs.Words.{octets_of, AreWords};

    ghost Value = { List (List ℕ) };

    ghost view = { λ i. map octets_of i.keys.keys };

    ghost invariant = { λ i. All AreWords i.keys.keys };
}

impl Index {
    // No keys. It takes no memory.
    pub fn new(alloc: Global) -> Index
        ensures { result ≡ [] }
    {
        Index {
            keys: IndexSet::new(alloc),
        }
    }

    // Puts a new key at the end. Where memory runs out the list is as before.
    pub fn push(&mut self, octets: [u8; 32]) -> Result<(), AllocError>
        requires new { list_any (bytes_eq octets) self.old ≡ false }
        ensures ok { OnOk result (self.new ≡ self.old ++ octets ∷ []) }
        ensures err { OnErr result (self.new ≡ self.old) }
    {
        self.keys.insert(Words::of(&octets))?;
        Ok(())
    }

    // The number of a key, counted from 0; none exactly where the list has no such key.
    pub fn number_of(&self, octets: &[u8; 32]) -> Option<usize>
        ensures { result ≡ position (bytes_eq octets.now) self.now }
    {
        self.keys.get_index_of(&Words::of(octets))
    }

    // How many keys there are.
    pub fn len(&self) -> usize
        ensures { result ≡ length self.now }
    {
        self.keys.len()
    }
}
